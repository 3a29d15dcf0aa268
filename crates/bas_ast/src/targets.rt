//! Where values are stored.

use crate::expressions::{NumExpr, Variable, Width};

/// Where a number is stored.
#[derive(Drop)]
pub enum NumTarget {
    Variable(Variable),
    /// `?x` or `!x`.
    Indirect(Width, NumExpr),
    /// `v?x` or `v!x`, at the sum of the two.
    IndirectSum(Width, Variable, NumExpr),
}

/// Where a string is stored.
#[derive(Drop)]
pub enum StrTarget {
    Variable(Variable),
    /// `$x`
    Indirect(NumExpr),
}

/// Where a value of either kind is stored.
#[derive(Drop)]
pub enum Target {
    Number(NumTarget),
    Text(StrTarget),
}

/// A variable of either kind that is no array's element.
#[derive(Debug, Clone, Copy, PartialEq, Eq, Drop)]
pub enum SimpleVariable {
    Number(u16),
    Text(u16),
}
