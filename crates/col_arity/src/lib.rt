//! Calls of a closure on the rows of one array or of two.
#![tactic(auto)]

mod arity;
pub mod arity_assign;
mod masks;
mod rows;
mod stored;

pub use arity::{
    binary, binary_checked, binary_with_bitmap, try_binary, try_unary, unary, unary_checked,
    unary_with_bitmap,
};
