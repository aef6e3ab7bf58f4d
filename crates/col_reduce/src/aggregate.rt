//! What the slots of an array come to together.
mod exact;
mod masked;
pub mod sum;
