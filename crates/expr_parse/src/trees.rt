//! Trees made of their parts.

ghost use Rattle.std.specs.Prelude.{◌≡◌, IfOk};
ghost use Rattle.expr_parse.specs.Parse as spec;

use crate::failure::with;
use crate::found::Found;
use bas_ast::{BinaryOp, Comparison, NumExpr, Side, StrExpr};
use sqlite_items::Boxed;
use std::alloc::{AllocError, Global};

/// A tree in a box.
fn held<T: Drop>(alloc: Global, x: T) -> Result<Boxed<T>, AllocError>
    ensures { IfOk result (λ held. held ≡ x) }
{
    Ok(Boxed::new(alloc, x)?)
}

/// A number that may be absent, in a box.
pub fn boxed(alloc: Global, x: Option<NumExpr>) -> Result<Option<Boxed<NumExpr>>, AllocError>
    ensures { IfOk result (λ held. held ≡ x) }
{
    match x {
        Some(x) => Ok(Some(Boxed::new(alloc, x)?)),
        None => Ok(None),
    }
}

pub fn binary(alloc: Global, op: BinaryOp, x: NumExpr, y: NumExpr) -> Result<NumExpr, AllocError>
    ensures { IfOk result (λ tree. tree ≡ NumExpr.Binary op x y) }
{
    let (y, x) = with(y, held(alloc, x))?;
    let (x, y) = with(x, held(alloc, y))?;
    Ok(NumExpr::Binary(op, x, y))
}

pub fn compare_text(
    alloc: Global,
    comparison: Comparison,
    y: StrExpr,
    z: StrExpr,
) -> Result<NumExpr, AllocError>
    ensures { IfOk result (λ tree. tree ≡ NumExpr.CompareText comparison y z) }
{
    let (z, y) = with(z, held(alloc, y))?;
    let (y, z) = with(y, held(alloc, z))?;
    Ok(NumExpr::CompareText(comparison, y, z))
}

pub fn instr(
    alloc: Global,
    y: StrExpr,
    z: StrExpr,
    from: Option<NumExpr>,
) -> Result<NumExpr, AllocError>
    ensures { IfOk result (λ tree. tree ≡ NumExpr.Instr y z from) }
{
    let ((y, z), from) = with((y, z), boxed(alloc, from))?;
    let ((z, from), y) = with((z, from), held(alloc, y))?;
    let ((y, from), z) = with((y, from), held(alloc, z))?;
    Ok(NumExpr::Instr(y, z, from))
}

pub fn join(alloc: Global, y: StrExpr, z: StrExpr) -> Result<StrExpr, AllocError>
    ensures { IfOk result (λ tree. tree ≡ StrExpr.Join y z) }
{
    let (z, y) = with(z, held(alloc, y))?;
    let (y, z) = with(y, held(alloc, z))?;
    Ok(StrExpr::Join(y, z))
}

pub fn part(
    alloc: Global,
    side: Side,
    y: StrExpr,
    count: Option<NumExpr>,
) -> Result<StrExpr, AllocError>
    ensures { IfOk result (λ tree. tree ≡ StrExpr.Part side y count) }
{
    let (y, count) = with(y, boxed(alloc, count))?;
    let (count, y) = with(count, held(alloc, y))?;
    Ok(StrExpr::Part(side, y, count))
}

pub fn middle(
    alloc: Global,
    y: StrExpr,
    x: NumExpr,
    count: Option<NumExpr>,
) -> Result<StrExpr, AllocError>
    ensures { IfOk result (λ tree. tree ≡ StrExpr.Middle y x count) }
{
    let ((y, x), count) = with((y, x), boxed(alloc, count))?;
    let ((x, count), y) = with((x, count), held(alloc, y))?;
    let ((y, count), x) = with((y, count), held(alloc, x))?;
    Ok(StrExpr::Middle(y, x, count))
}

pub fn copies(alloc: Global, x: NumExpr, y: StrExpr) -> Result<StrExpr, AllocError>
    ensures { IfOk result (λ tree. tree ≡ StrExpr.Copies x y) }
{
    let (y, x) = with(y, held(alloc, x))?;
    let (x, y) = with(x, held(alloc, y))?;
    Ok(StrExpr::Copies(x, y))
}

/// What was found, in brackets.
pub fn bracketed(alloc: Global, found: Found) -> Result<Found, AllocError>
    ensures { IfOk result (λ tree. tree ≡ spec.bracketed found) }
{
    match found {
        Found::Number(_, x) => Ok(Found::Number(7, NumExpr::Bracket(Boxed::new(alloc, x)?))),
        Found::Text(y) => Ok(Found::Text(StrExpr::Bracket(Boxed::new(alloc, y)?))),
    }
}
