//! Arrays and scalars of any type: columns and single cells, with a type each.
#![tactic(auto)]

mod any;
mod any_scalar;
mod typed;

pub use any::AnyArray;
pub use any_scalar::AnyScalar;
