//! The flat code of a program, from its items and its lists of names, texts and items of DATA.
ghost use Rattle.std.specs.Prelude.{◌≡◌, ◌≤◌, length, IfOk};
ghost use Rattle.std.specs.List.{AllByRecursion};
ghost use Rattle.ir_build.specs.Code.{flat_code};

use crate::copies::{copied_names, data_texts, strings};
use crate::ends::Ends;
use crate::numbers::plus;
use crate::tables::{Tables, add_line};
use bas_ast::Prog;
use bas_ir::{Ir, LineStart};
use bas_value::LONGEST_STRING;
use bv_base::NoMemory;
use sqlite_items::Items;
use std::alloc::Global;

/// The flat code of a program, of which each text and each item of DATA has at most 255 bytes. It has copies of the program's
/// names, texts and items of DATA.
pub fn build(alloc: Global, prog: &Prog) -> Result<Ir, NoMemory>
    requires texts { AllByRecursion (λ text. length text ≤ LONGEST_STRING) prog.now.texts }
    requires data { AllByRecursion (λ d. length d.text ≤ LONGEST_STRING) prog.now.data_items }
    ensures { IfOk result (λ ir. ir ≡ flat_code prog.now) }
{
    let ends = Ends::of_program(alloc, prog)?;
    let lines = prog.lines.as_slice();
    let mut tables = Tables::new(alloc);
    let mut line_starts = Items::new(alloc);
    let mut place = 0;
    for i in 0..lines.len() {
        let line = &lines[i];
        line_starts.push(LineStart {
            number: line.number,
            op: plus(0, tables.ops.len())?,
        })?;
        add_line(
            alloc,
            prog,
            &ends,
            place,
            line,
            &lines[i + 1..],
            &mut tables,
        )?;
        place = plus(place, line.items.len())?;
    }
    let Tables {
        ops,
        marks,
        starts,
        heights,
    } = tables;
    Ok(Ir {
        ops,
        marks,
        starts,
        heights,
        routines: Items::new(alloc),
        texts: strings(alloc, prog.texts.as_slice())?,
        names: copied_names(alloc, prog.names.as_slice())?,
        data_items: data_texts(alloc, prog.data_items.as_slice())?,
        line_starts,
        size: prog.size,
    })
}
