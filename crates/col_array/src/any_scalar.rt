//! Scalars of any type.
ghost use Rattle.std.specs.Prelude.{◌≡◌, ◌≢◌, ◌↔◌, IsTrue, IfOk};
ghost use Rattle.col_model.specs.Cell.{null};
ghost use Rattle.col_types.specs.DataKind.{kind_of};
ghost use Rattle.col_types.specs.DataType.{IsMadeOf};
ghost use Rattle.col_types.specs.Answer.{FailsByMemory};
ghost use Rattle.col_array.specs.Any.{native_of, scalar_cell, scalar_type};

use crate::with_typed;
use col_flat::PrimitiveScalar;
use col_types::{DataType, Error, days_ms, months_days_ns};
use std::alloc::Global;

/// A scalar of any type: each variant holds the scalars of one native type.
#[derive(Drop)]
pub enum AnyScalar {
    /// A whole number of 8 bits with a sign.
    Int8(PrimitiveScalar<i8>),
    /// A whole number of 16 bits with a sign.
    Int16(PrimitiveScalar<i16>),
    /// A whole number of 32 bits with a sign.
    Int32(PrimitiveScalar<i32>),
    /// A whole number of 64 bits with a sign.
    Int64(PrimitiveScalar<i64>),
    /// A whole number of 128 bits with a sign.
    Int128(PrimitiveScalar<i128>),
    /// A whole number of 8 bits without a sign.
    UInt8(PrimitiveScalar<u8>),
    /// A whole number of 16 bits without a sign.
    UInt16(PrimitiveScalar<u16>),
    /// A whole number of 32 bits without a sign.
    UInt32(PrimitiveScalar<u32>),
    /// A whole number of 64 bits without a sign.
    UInt64(PrimitiveScalar<u64>),
    /// An interval of days and milliseconds.
    DaysMs(PrimitiveScalar<days_ms>),
    /// An interval of months, days and nanoseconds.
    MonthDayNano(PrimitiveScalar<months_days_ns>),
}

impl AnyScalar {
    /// The scalar's type.
    pub fn data_type(&self) -> &DataType
        ensures value { kind_of result.now ≡ scalar_type self.now }
        ensures made { IsMadeOf (kind_of result.now) (native_of self.now) }
    {
        with_typed!(AnyScalar, self, |scalar| scalar.data_type())
    }

    /// Whether the scalar is not null.
    pub fn is_valid(&self) -> bool
        ensures { IsTrue result ↔ (scalar_cell self.now ≢ null) }
    {
        with_typed!(AnyScalar, self, |scalar| scalar.is_valid())
    }

    /// A scalar with equal type and value.
    pub fn try_clone(&self, alloc: Global) -> Result<AnyScalar, Error>
        ensures value { IfOk result (λ copy. copy ≡ self.now) }
        ensures refused { FailsByMemory result }
    {
        match self {
            AnyScalar::Int8(scalar) => Ok(AnyScalar::Int8(scalar.try_clone(alloc)?)),
            AnyScalar::Int16(scalar) => Ok(AnyScalar::Int16(scalar.try_clone(alloc)?)),
            AnyScalar::Int32(scalar) => Ok(AnyScalar::Int32(scalar.try_clone(alloc)?)),
            AnyScalar::Int64(scalar) => Ok(AnyScalar::Int64(scalar.try_clone(alloc)?)),
            AnyScalar::Int128(scalar) => Ok(AnyScalar::Int128(scalar.try_clone(alloc)?)),
            AnyScalar::UInt8(scalar) => Ok(AnyScalar::UInt8(scalar.try_clone(alloc)?)),
            AnyScalar::UInt16(scalar) => Ok(AnyScalar::UInt16(scalar.try_clone(alloc)?)),
            AnyScalar::UInt32(scalar) => Ok(AnyScalar::UInt32(scalar.try_clone(alloc)?)),
            AnyScalar::UInt64(scalar) => Ok(AnyScalar::UInt64(scalar.try_clone(alloc)?)),
            AnyScalar::DaysMs(scalar) => Ok(AnyScalar::DaysMs(scalar.try_clone(alloc)?)),
            AnyScalar::MonthDayNano(scalar) => Ok(AnyScalar::MonthDayNano(scalar.try_clone(
                alloc,
            )?)),
        }
    }

    /// Whether types and values are equal.
    pub fn equal(&self, other: &AnyScalar) -> bool
        ensures { IsTrue result
            ↔ ((scalar_type self.now ≡ scalar_type other.now)
            × (scalar_cell self.now ≡ scalar_cell other.now)) }
    {
        if !self.data_type().equal(other.data_type()) {
            return false;
        }
        match (self, other) {
            (AnyScalar::Int8(scalar), AnyScalar::Int8(other)) => scalar.equal(other),
            (AnyScalar::Int16(scalar), AnyScalar::Int16(other)) => scalar.equal(other),
            (AnyScalar::Int32(scalar), AnyScalar::Int32(other)) => scalar.equal(other),
            (AnyScalar::Int64(scalar), AnyScalar::Int64(other)) => scalar.equal(other),
            (AnyScalar::Int128(scalar), AnyScalar::Int128(other)) => scalar.equal(other),
            (AnyScalar::UInt8(scalar), AnyScalar::UInt8(other)) => scalar.equal(other),
            (AnyScalar::UInt16(scalar), AnyScalar::UInt16(other)) => scalar.equal(other),
            (AnyScalar::UInt32(scalar), AnyScalar::UInt32(other)) => scalar.equal(other),
            (AnyScalar::UInt64(scalar), AnyScalar::UInt64(other)) => scalar.equal(other),
            (AnyScalar::DaysMs(scalar), AnyScalar::DaysMs(other)) => scalar.equal(other),
            (AnyScalar::MonthDayNano(scalar), AnyScalar::MonthDayNano(other)) => scalar.equal(
                other,
            ),
            _ => false,
        }
    }
}
