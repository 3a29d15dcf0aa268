//! The structures over lines: the first line that has an item whose structure has no end.

ghost use Rattle.std.specs.Prelude.{◌≡◌, ◌+◌, IfOk};
ghost use Rattle.bas_ast.specs.Structures.{bound};
ghost use Rattle.bas_rules.specs.Structures.{first_unclosed};
ghost use Rattle.bas_rules.specs.Ends as spec;

use bas_ast::{Flow, Head, Item, ProgLine, Stmt};
use bv_base::NoMemory;

/// The ends after a place that could end what stands before it.
#[derive(Debug, Clone, Copy, PartialEq, Eq, Drop)]
pub struct Ends {
    /// The number of ENDWHILE.
    pub whiles: usize,
    /// The number of ENDIF.
    pub ifs: usize,
    /// Whether an ELSE stands after these ENDIFs.
    pub has_else: bool,
    /// The number of ENDCASE.
    pub cases: usize,
}

/// No end.
fn no_ends() -> Ends
    ensures { result ≡ spec.no_ends }
{
    Ends {
        whiles: 0,
        ifs: 0,
        has_else: false,
        cases: 0,
    }
}

/// One more. No program that is in memory has 2^64 items.
fn one_more(count: usize) -> Result<usize, NoMemory>
    ensures { IfOk result (λ n. n ≡ count + 1) }
{
    count.checked_add(1).ok_or(NoMemory)
}

/// The ends from an item on, from those after it.
fn ends_before(item: &Item, ends: Ends) -> Result<Ends, NoMemory>
    ensures { IfOk result (λ before. before ≡ spec.ends_before (bound item.now) ends) }
{
    let mut before = ends;
    match item {
        Item::Stmt(Stmt::Flow(Flow::While(_))) => before.whiles = ends.whiles.saturating_sub(1),
        Item::Stmt(Stmt::Flow(Flow::EndWhile)) => before.whiles = one_more(ends.whiles)?,
        Item::BlockIf(_) => {
            before.ifs = ends.ifs.saturating_sub(1);
            before.has_else = ends.has_else && ends.ifs > 0;
        }
        Item::Head(Head::BlockElse) => before.has_else = ends.has_else || ends.ifs == 0,
        Item::Head(Head::EndIf) => before.ifs = one_more(ends.ifs)?,
        Item::Case(_) => before.cases = ends.cases.saturating_sub(1),
        Item::Head(Head::EndCase) => before.cases = one_more(ends.cases)?,
        _ => {}
    }
    Ok(before)
}

/// Whether an item's structure has its end among the ends after it.
fn has_end(item: &Item, ends: Ends) -> bool
    ensures { result ≡ spec.has_end_by (bound item.now) ends }
{
    match item {
        Item::Stmt(Stmt::Flow(Flow::While(_))) => ends.whiles > 0,
        Item::BlockIf(_) => ends.ifs > 0 || ends.has_else,
        Item::Head(Head::BlockElse) => ends.ifs > 0,
        Item::Case(_) | Item::Head(Head::When(_) | Head::Otherwise) => ends.cases > 0,
        _ => true,
    }
}

/// Whether each structure of a line has its end, and the ends from the line on, from those after it.
fn line_ends(items: &[Item], after: Ends) -> Result<(bool, Ends), NoMemory>
    ensures { IfOk result (λ r. (r.0 ≡ spec.closed_from after items.now) × (r.1 ≡ spec.ends_from after items.now)) }
{
    let mut closed = true;
    let mut ends = after;
    let mut i = items.len();
    'items: while i > 0 {
        i -= 1;
        closed = has_end(&items[i], ends) && closed;
        ends = ends_before(&items[i], ends)?;
    }
    Ok((closed, ends))
}

/// The number of the first line that has an item whose structure has no end.
pub fn find_unclosed(lines: &[ProgLine]) -> Result<Option<u16>, NoMemory>
    ensures { IfOk result (λ number. number ≡ first_unclosed lines.now) }
{
    let mut first = None;
    let mut ends = no_ends();
    let mut i = lines.len();
    'lines: while i > 0 {
        i -= 1;
        let line = &lines[i];
        let (closed, before) = line_ends(line.items.as_slice(), ends)?;
        if !closed {
            first = Some(line.number);
        }
        ends = before;
    }
    Ok(first)
}
