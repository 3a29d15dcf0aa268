//! What is pending before each operation of an item. A new operation gets an arm in `height_after`.
ghost use Rattle.std.specs.Prelude.{◌≡◌, [], ◌∷◌, ◌++◌, List, Some, IfOk, OnOk};
ghost use Rattle.bas_ir.specs.Heights as spec;
ghost use Rattle.bas_ir.specs.declared.op.Op.{Op as Operation};
ghost use Rattle.ir_build.specs.Code.{heights_of};

use crate::numbers::plus;
use bas_ir::{Height, Op};
use bv_base::NoMemory;
use sqlite_items::Items;

/// Nothing pending.
const EMPTY_HEIGHT: Height = Height {
    numbers: 0,
    texts: 0,
};

/// With one number more.
fn one_more(height: Height) -> Result<Height, NoMemory>
    ensures { IfOk result (λ more. more ≡ spec.one_more height) }
{
    Ok(Height {
        numbers: plus(height.numbers, 1)?,
        texts: height.texts,
    })
}

/// With one string more.
fn one_text_more(height: Height) -> Result<Height, NoMemory>
    ensures { IfOk result (λ more. more ≡ spec.one_text_more height) }
{
    Ok(Height {
        numbers: height.numbers,
        texts: plus(height.texts, 1)?,
    })
}

/// With one number less, if there is one.
fn one_less(height: Height) -> Option<Height>
    ensures { result ≡ spec.one_less height }
{
    if height.numbers == 0 {
        return None;
    }
    Some(Height {
        numbers: height.numbers - 1,
        texts: height.texts,
    })
}

/// With one string less, if there is one.
fn one_text_less(height: Height) -> Option<Height>
    ensures { result ≡ spec.one_text_less height }
{
    if height.texts == 0 {
        return None;
    }
    Some(Height {
        numbers: height.numbers,
        texts: height.texts - 1,
    })
}

/// After an operation that takes a number and leaves one.
fn after_unary(height: Height) -> Result<Option<Height>, NoMemory>
    ensures { IfOk result (λ after. after
        ≡ spec.and_then (spec.one_less height) (λ less. Some (spec.one_more less))) }
{
    match one_less(height) {
        Some(less) => Ok(Some(one_more(less)?)),
        None => Ok(None),
    }
}

/// After an operation that takes two numbers and leaves one.
fn after_binary(height: Height) -> Result<Option<Height>, NoMemory>
    ensures { IfOk result (λ after. after
        ≡ spec.and_then (spec.and_then (spec.one_less height) spec.one_less) (λ less. Some (spec.one_more less))) }
{
    match one_less(height) {
        Some(less) => after_unary(less),
        None => Ok(None),
    }
}

/// After an operation that takes two numbers.
fn after_two(height: Height) -> Option<Height>
    ensures { result ≡ spec.and_then (spec.one_less height) spec.one_less }
{
    match one_less(height) {
        Some(less) => one_less(less),
        None => None,
    }
}

/// What is pending after an operation of a program without routines.
fn height_after(op: Op, height: Height) -> Result<Option<Height>, NoMemory>
    ensures { IfOk result (λ after. after ≡ spec.height_after [] op height) }
{
    match op {
        Op::Push(_)
        | Op::PushColumn
        | Op::PushResident(_)
        | Op::PushInteger { .. }
        | Op::ReadNumber { .. } => Ok(Some(one_more(height)?)),
        Op::PushText(_) => Ok(Some(one_text_more(height)?)),
        Op::Unary { .. }
        | Op::BinaryWith { .. }
        | Op::BinaryWithResident { .. }
        | Op::GoIfOne(_)
        | Op::GosubIfOne { .. }
        | Op::RaiseIfOne { .. } => after_unary(height),
        Op::Binary { .. } | Op::GoIfEqual(_) => after_binary(height),
        Op::GoUnless { .. } | Op::OpenFor { .. } => Ok(after_two(height)),
        Op::StoreResident(_)
        | Op::StoreInteger(_)
        | Op::WriteNumber { .. }
        | Op::Write(_)
        | Op::GoIfZero(_)
        | Op::GoUnlessWith { .. }
        | Op::Discard
        | Op::Until { .. }
        | Op::LeaveNumber => Ok(one_less(height)),
        Op::WriteText | Op::LeaveText => Ok(one_text_less(height)),
        Op::ChangeResident { .. }
        | Op::WriteMark(_)
        | Op::Go(_)
        | Op::OpenRepeat { .. }
        | Op::OpenWhile { .. }
        | Op::Gosub { .. }
        | Op::Next { .. }
        | Op::NextAny { .. }
        | Op::EndWhile { .. }
        | Op::Return { .. }
        | Op::Restore(_)
        | Op::Raise { .. }
        | Op::End
        | Op::Enter { .. }
        | Op::LeaveProcedure { .. }
        | Op::NeedFunction { .. }
        | Op::HandleAll(_)
        | Op::HandleHere(_)
        | Op::HandleNone => Ok(Some(height)),
    }
}

/// Adds what is pending before an operation, and says what is pending after it.
fn push_height(
    op: Op,
    before: Option<Height>,
    heights: &mut Items<Height>,
) -> Result<Option<Height>, NoMemory>
    ensures { IfOk result (λ after. (ops : List Operation) →
        heights.old ++ heights_of before (op ∷ ops) ≡ heights.new ++ heights_of after ops) }
{
    match before {
        Some(height) => {
            heights.push(height)?;
            height_after(op, height)
        }
        None => {
            heights.push(EMPTY_HEIGHT)?;
            Ok(None)
        }
    }
}

/// Adds what is pending before each operation of an item.
pub fn push_heights(code: &[Op], heights: &mut Items<Height>) -> Result<(), NoMemory>
    ensures { OnOk result (heights.new ≡ heights.old ++ heights_of (Some spec.empty_height) code.now) }
{
    let mut height = Some(EMPTY_HEIGHT);
    for op in code {
        height = push_height(*op, height, heights)?;
    }
    Ok(())
}
