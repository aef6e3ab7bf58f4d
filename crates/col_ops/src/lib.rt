//! Operators of arrays: a trait for each operation in each form.
#![tactic(auto)]

mod decimal;
mod traits;
mod whole;

pub use traits::{
    ArrayAdd, ArrayCheckedAdd, ArrayCheckedDiv, ArrayCheckedMul, ArrayCheckedRem, ArrayCheckedSub,
    ArrayDiv, ArrayMul, ArrayOverflowingAdd, ArrayOverflowingMul, ArrayOverflowingSub, ArrayRem,
    ArraySaturatingAdd, ArraySaturatingMul, ArraySaturatingSub, ArraySub, ArrayWrappingAdd,
    ArrayWrappingMul, ArrayWrappingSub,
};
pub use whole::ArrayNative;
