//! Totals of columns.
#![tactic(auto)]

mod aggregate;
pub mod laws;
mod native;

pub use aggregate::sum::{Checked, can_sum, sum, sum_checked, sum_primitive, sum_slice};
pub use native::Summable;
