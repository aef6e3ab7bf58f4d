//! Trees of steps.
use col_array::AnyScalar;

/// The steps of a tree: an operation, in a form that says what becomes of a row whose exact number
/// does not fit, or that has none. A null beside anything gives null. A quotient goes toward zero,
/// and a remainder has the dividend's sign. What fits, and which end a clamped number takes, is of
/// decimals as `col_decimal` has it.
#[derive(Clone, Copy, Debug, PartialEq, Eq)]
pub enum Op {
    /// The sum; a row whose sum does not fit is refused.
    Add,
    /// The sum, wrapped into the type.
    WrappingAdd,
    /// The sum; null where it does not fit.
    CheckedAdd,
    /// The sum, or the end of the type that it is past.
    SaturatingAdd,
    /// The difference; a row whose difference does not fit is refused.
    Sub,
    /// The difference, wrapped into the type.
    WrappingSub,
    /// The difference; null where it does not fit.
    CheckedSub,
    /// The difference, or the end of the type that it is past.
    SaturatingSub,
    /// The product; a row whose product does not fit is refused.
    Mul,
    /// The product, wrapped into the type.
    WrappingMul,
    /// The product; null where it does not fit.
    CheckedMul,
    /// The product, or the end of the type that it is past.
    SaturatingMul,
    /// The quotient; a row whose divisor is 0, or whose quotient does not fit, is refused.
    Div,
    /// The quotient; null where the divisor is 0 or the quotient does not fit.
    CheckedDiv,
    /// The remainder; a row whose divisor is 0, or whose quotient does not fit, is refused.
    Rem,
    /// The remainder; null where the divisor is 0 or the quotient does not fit.
    CheckedRem,
}

/// A tree of steps over the columns of a table.
#[derive(Drop)]
pub enum Expr {
    /// The column at a position, from 0.
    Column(u32),
    /// One value for all rows; it has a type as the right operand of a step alone.
    Literal(AnyScalar),
    /// A step on what the left and the right operand give, row by row.
    Step(Op, Box<Expr>, Box<Expr>),
}
