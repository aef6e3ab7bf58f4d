//! Arithmetic on arrays of whole numbers.
#![tactic(auto)]

mod basic;
mod bits;
pub mod bitwise;
mod kernels;
pub mod laws;
mod operator;

pub use basic::add::{
    add, add_scalar, checked_add, checked_add_scalar, overflowing_add, overflowing_add_scalar,
    saturating_add, saturating_add_scalar, wrapping_add, wrapping_add_scalar,
};
pub use basic::div::{checked_div, checked_div_scalar, div, div_scalar};
pub use basic::mul::{
    checked_mul, checked_mul_scalar, mul, mul_scalar, overflowing_mul, overflowing_mul_scalar,
    saturating_mul, saturating_mul_scalar, wrapping_mul, wrapping_mul_scalar,
};
pub use basic::negate::{checked_negate, negate, wrapping_negate};
pub use basic::pow::checked_powf_scalar;
pub use basic::rem::{checked_rem, checked_rem_scalar, rem, rem_scalar};
pub use basic::sub::{
    checked_sub, checked_sub_scalar, overflowing_sub, overflowing_sub_scalar, saturating_sub,
    saturating_sub_scalar, sub, sub_scalar, wrapping_sub, wrapping_sub_scalar,
};
