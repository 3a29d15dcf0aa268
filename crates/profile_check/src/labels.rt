//! The labels of a program, which the assembler sets.

ghost use Rattle.std.specs.Prelude.{◌≡◌, ◌++◌, IfOk, OnOk};
ghost use Rattle.expr_parse.specs.Terminals.{AreWithin};
ghost use Rattle.profile_check.specs.Cutting.{cuts_of};
ghost use Rattle.profile_check.specs.Programs as spec;

use crate::cut_line::CutLine;
use crate::tables::bytes_of;
use bas_ast::{Name, NameKind};
use bas_lex::{Sym, SymKind};
use sqlite_items::Items;
use std::alloc::{AllocError, Global};

/// Adds the label that a symbol sets, if it is one.
fn push_label(
    alloc: Global,
    labels: &mut Items<Name>,
    bytes: &[u8],
    kind: SymKind,
) -> Result<(), AllocError>
    ensures { OnOk result (labels.new ≡ labels.old ++ spec.label_of bytes.now kind) }
{
    if let SymKind::Label = kind {
        let name = match bytes {
            [_, name @ ..] => name,
            [] => bytes,
        };
        labels.push(Name {
            kind: NameKind::Label,
            text: Items::from_slice(alloc, name)?,
        })?;
    }
    Ok(())
}

/// Adds the labels that a line sets.
fn push_labels(
    alloc: Global,
    labels: &mut Items<Name>,
    text: &[u8],
    symbols: &[Sym],
) -> Result<(), AllocError>
    requires { AreWithin text.now symbols.now }
    ensures { OnOk result (labels.new ≡ labels.old ++ spec.labels_in text.now symbols.now) }
{
    for symbol in symbols {
        push_label(alloc, labels, bytes_of(text, *symbol), symbol.kind)?;
    }
    Ok(())
}

/// The labels that lines set.
pub fn labels_of(alloc: Global, lines: &[CutLine<'_>]) -> Result<Items<Name>, AllocError>
    ensures { IfOk result (λ labels. labels ≡ spec.labels_of (cuts_of lines.now)) }
{
    let mut labels = Items::new(alloc);
    for i in 0..lines.len() {
        push_labels(
            alloc,
            &mut labels,
            lines[i].text,
            lines[i].symbols.as_slice(),
        )?;
    }
    Ok(labels)
}
