//! The operators of arrays of whole numbers.
use col_types::NativeArithmetics;

mod add;
mod div;
mod mul;
mod rem;
mod sub;

/// A native type whose arrays have the operators: one of the eight whole-number types.
pub trait ArrayNative: NativeArithmetics {}

impl ArrayNative for i8 {}

impl ArrayNative for i16 {}

impl ArrayNative for i32 {}

impl ArrayNative for i64 {}

impl ArrayNative for u8 {}

impl ArrayNative for u16 {}

impl ArrayNative for u32 {}

impl ArrayNative for u64 {}
