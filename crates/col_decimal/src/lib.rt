//! Arithmetic on arrays of decimals.
#![tactic(auto)]

mod adaptive;
mod bounds;
mod decimal;
mod kernels;
pub mod laws;
mod operator;
mod wide;

pub use decimal::add::{adaptive_add, add, add_scalar, checked_add, saturating_add};
pub use decimal::div::{adaptive_div, checked_div, div, div_scalar, saturating_div};
pub use decimal::mul::{adaptive_mul, checked_mul, mul, mul_scalar, saturating_mul};
pub use decimal::sub::{adaptive_sub, checked_sub, saturating_sub, sub, sub_scalar};
pub use decimal::{adjusted_precision_scale, max_value, number_digits};
