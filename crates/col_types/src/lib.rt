//! The types of columns, the errors, and the native types that columns are made of.
#![tactic(auto)]

mod datatypes;
mod error;
mod native;
mod text;
mod types;

pub use datatypes::{
    DataType, Field, IntegerType, IntervalUnit, PhysicalType, PrimitiveType, TimeUnit,
};
pub use error::{Error, Reason};
pub use native::{DictionaryKey, NativeArithmetics, NativeNegate, NativeType, NativeWhole, Offset};
pub use text::Text;
pub use types::{days_ms, months_days_ns};
