//! Kernels on arrays of any type; tables, trees of steps over their columns, and what a tree gives
//! for a table.
#![tactic(auto)]

mod arithmetics;
mod decimals;
mod dispatch;
mod entries;
mod evaluation;
mod expr;
pub mod laws;
mod table;
mod typing;

pub use arithmetics::{
    add, add_scalar, can_add, can_div, can_mul, can_neg, can_rem, can_sub, div, div_scalar, mul,
    mul_scalar, neg, rem, sub, sub_scalar,
};
pub use evaluation::evaluate;
pub use expr::{Expr, Op};
pub use table::Table;
pub use typing::{MAX_LEVELS, typed_of};
