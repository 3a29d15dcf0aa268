//! The code of statements of output. A new one gets an arm in `push_output`.
ghost use Rattle.std.specs.Prelude.{◌≡◌, [], ◌∷◌, ◌++◌, List, IfOk, OnOk, true};
ghost use Rattle.bas_ast.specs.declared.statements.PrintPart.{PrintPart as Part};
ghost use Rattle.bas_ast.specs.declared.statements.VduPart.{VduPart as Sent};
ghost use Rattle.ir_build.specs.Code as spec;

use crate::expressions::{push_expr, push_text};
use crate::ops::put;
use bas_ast::{NumExpr, Output, PrintPart, Prog, VduPart};
use bas_ir::{Mark, Op, Piece};
use bv_base::NoMemory;
use sqlite_items::Items;

/// How the next part of PRINT is spaced.
#[derive(Clone, Copy)]
struct Spacing {
    /// Whether a number is written in a field.
    padded: bool,
    /// Whether a new line ends the parts, where none follows.
    new_line: bool,
}

/// Adds the code of an expression, and an operation that writes what it makes.
fn push_written(
    prog: &Prog,
    line: u16,
    x: &NumExpr,
    op: Op,
    ops: &mut Items<Op>,
) -> Result<(), NoMemory>
    ensures { OnOk result (ops.new ≡ ops.old ++ (spec.expr_code prog.now line x.now ++ op ∷ [])) }
{
    push_expr(prog, line, x, ops)?;
    put(ops, op)
}

/// Adds the code of a part of PRINT, and says how the next one is spaced.
#[tactic(auto, using(crate::proofs::Equations::codes), unfolding(crate::specs::Code::print_code))]
fn push_print_part(
    prog: &Prog,
    line: u16,
    spacing: Spacing,
    part: &PrintPart,
    ops: &mut Items<Op>,
) -> Result<Spacing, NoMemory>
    ensures { IfOk result (λ after. (parts : List Part) →
        ops.old ++ spec.print_code prog.now line spacing.padded spacing.new_line (part.now ∷ parts)
        ≡ ops.new ++ spec.print_code prog.now line after.padded after.new_line parts) }
{
    let padded = spacing.padded;
    match part {
        PrintPart::Comma => {
            put(ops, Op::WriteMark(Mark::Field))?;
            return Ok(Spacing {
                padded: true,
                new_line: true,
            });
        }
        PrintPart::Semicolon => {
            return Ok(Spacing {
                padded: false,
                new_line: false,
            });
        }
        PrintPart::NewLine => put(ops, Op::WriteMark(Mark::NewLine))?,
        PrintPart::Number(format, x) => {
            let format = *format;
            push_written(prog, line, x, Op::WriteNumber { padded, format }, ops)?;
        }
        PrintPart::Text(x) => push_text(x, ops)?,
        PrintPart::Spaces(x) => push_written(prog, line, x, Op::Write(Piece::Spaces), ops)?,
        PrintPart::Tab(x) => push_written(prog, line, x, Op::Write(Piece::Tab), ops)?,
    }
    Ok(Spacing {
        padded,
        new_line: true,
    })
}

/// Adds the code of PRINT.
fn push_print(
    prog: &Prog,
    line: u16,
    parts: &[PrintPart],
    ops: &mut Items<Op>,
) -> Result<(), NoMemory>
    ensures { OnOk result (ops.new ≡ ops.old ++ spec.print_code prog.now line true true parts.now) }
{
    let mut spacing = Spacing {
        padded: true,
        new_line: true,
    };
    for i in 0..parts.len() {
        spacing = push_print_part(prog, line, spacing, &parts[i], ops)?;
    }
    if spacing.new_line {
        put(ops, Op::WriteMark(Mark::NewLine))?;
    }
    Ok(())
}

/// Adds the code of a number of VDU.
#[tactic(auto, using(crate::proofs::Equations::codes), unfolding(crate::specs::Code::vdu_code))]
fn push_vdu_part(
    prog: &Prog,
    line: u16,
    part: &VduPart,
    ops: &mut Items<Op>,
) -> Result<(), NoMemory>
    ensures { OnOk result ((parts : List Sent) →
        ops.old ++ spec.vdu_code prog.now line (part.now ∷ parts) ≡ ops.new ++ spec.vdu_code prog.now line parts) }
{
    match part {
        VduPart::Byte(x) => push_written(prog, line, x, Op::Write(Piece::Byte), ops),
        VduPart::Word(x) => push_written(prog, line, x, Op::Write(Piece::Word), ops),
    }
}

/// Adds the code of VDU.
fn push_vdu(prog: &Prog, line: u16, parts: &[VduPart], ops: &mut Items<Op>) -> Result<(), NoMemory>
    ensures { OnOk result (ops.new ≡ ops.old ++ spec.vdu_code prog.now line parts.now) }
{
    for i in 0..parts.len() {
        push_vdu_part(prog, line, &parts[i], ops)?;
    }
    Ok(())
}

/// Adds the code of a statement of output.
pub fn push_output(
    prog: &Prog,
    line: u16,
    output: &Output,
    ops: &mut Items<Op>,
) -> Result<(), NoMemory>
    ensures { OnOk result (ops.new ≡ ops.old ++ spec.output_code prog.now line output.now) }
{
    match output {
        Output::Print(parts) => push_print(prog, line, parts.as_slice(), ops),
        Output::Vdu(parts) => push_vdu(prog, line, parts.as_slice(), ops),
        Output::Mode(x) => push_written(prog, line, x, Op::Write(Piece::Mode), ops),
        Output::Colour(x) => push_written(prog, line, x, Op::Write(Piece::Colour), ops),
        Output::Cls => put(ops, Op::WriteMark(Mark::Clear)),
    }
}
