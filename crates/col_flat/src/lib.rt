//! Arrays without a child, and scalars: columns and single cells of one native type.
#![tactic(auto)]

mod mutable;
mod primitive;
mod scalar;
mod validities;

pub use mutable::MutablePrimitiveArray;
pub use primitive::{PrimitiveArray, SlotIter, SlotPairs, pairs};
pub use scalar::PrimitiveScalar;
pub use validities::combine_validities;
