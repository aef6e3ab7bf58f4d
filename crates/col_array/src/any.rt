//! Arrays of any type.
ghost use Rattle.std.specs.Prelude.{◌≡◌, ◌≢◌, ◌+◌, ◌<◌, ◌≤◌, ◌↔◌, IsTrue, IsOk, IfErr, IfOk, Some};
ghost use Rattle.std.specs.Prelude.{replicate, slice_get};
ghost use Rattle.col_model.specs.Cell.{null};
ghost use Rattle.col_types.specs.DataKind.{kind_of};
ghost use Rattle.col_types.specs.DataType.{IsMadeOf, IsStoredAs, type_error};
ghost use Rattle.col_types.specs.Answer.{ButForMemory, FailsByMemory, UnlessMemory};
ghost use Rattle.col_types.specs.Column.{row_count};
ghost use Rattle.col_flat.specs.Parts.{column_of, null_count_of};
ghost use Rattle.col_array.specs.declared.any.AnyArray.TheVariants.{DaysMs, Int8, Int16, Int32};
ghost use Rattle.col_array.specs.declared.any.AnyArray.TheVariants.{Int64, Int128, MonthDayNano};
ghost use Rattle.col_array.specs.declared.any.AnyArray.TheVariants.{UInt8, UInt16, UInt32, UInt64};
ghost use Rattle.col_array.specs.Any.{IsHeld, IsLaidOutAs, any_column, cut_column, layout_of};

use crate::with_typed;
use col_flat::PrimitiveArray;
use col_types::{
    DataType, Error, NativeType, PhysicalType, PrimitiveType, Reason, days_ms, months_days_ns,
};
use std::alloc::Global;

/// An array of any type: each variant holds the arrays of one layout.
#[derive(Drop)]
pub enum AnyArray {
    /// Whole numbers of 8 bits with a sign.
    Int8(PrimitiveArray<i8>),
    /// Whole numbers of 16 bits with a sign.
    Int16(PrimitiveArray<i16>),
    /// Whole numbers of 32 bits with a sign.
    Int32(PrimitiveArray<i32>),
    /// Whole numbers of 64 bits with a sign.
    Int64(PrimitiveArray<i64>),
    /// Whole numbers of 128 bits with a sign.
    Int128(PrimitiveArray<i128>),
    /// Whole numbers of 8 bits without a sign.
    UInt8(PrimitiveArray<u8>),
    /// Whole numbers of 16 bits without a sign.
    UInt16(PrimitiveArray<u16>),
    /// Whole numbers of 32 bits without a sign.
    UInt32(PrimitiveArray<u32>),
    /// Whole numbers of 64 bits without a sign.
    UInt64(PrimitiveArray<u64>),
    /// Intervals of days and milliseconds.
    DaysMs(PrimitiveArray<days_ms>),
    /// Intervals of months, days and nanoseconds.
    MonthDayNano(PrimitiveArray<months_days_ns>),
}

impl AnyArray {
    /// An array of null slots.
    ///
    /// Refused, in this order: `Parameters` where the type's parameters do not fit; `OutOfSpec`
    /// where the type is not carried, or its arrays have no variant.
    pub fn new_null(alloc: Global, data_type: DataType, length: usize) -> Result<AnyArray, Error>
        ensures value { IfOk result (λ array. any_column array
            ≡ record { data_type = kind_of data_type; cells = replicate length null }) }
        ensures range { ButForMemory result (IsOk result ↔ IsHeld (kind_of data_type)) }
        ensures refused { IfErr result (λ e. UnlessMemory e (e ≡ type_error (kind_of data_type))) }
    {
        match data_type.to_physical_type() {
            PhysicalType::Primitive(native) => nulls_of(alloc, native, data_type, length),
            _ => Err(refusal_of(&data_type)),
        }
    }

    /// The number of slots.
    pub fn len(&self) -> usize
        ensures { result ≡ row_count (any_column self.now) }
    {
        with_typed!(AnyArray, self, |array| array.len())
    }

    /// Whether the slot at a row is not null.
    pub fn is_valid(&self, i: usize) -> bool
        requires { i < row_count (any_column self.now) }
        ensures { IsTrue result ↔ (slice_get (any_column self.now).cells i ≢ Some null) }
    {
        with_typed!(AnyArray, self, |array| array.is_valid(i))
    }

    /// How many slots are null.
    pub fn null_count(&self) -> usize
        ensures { result ≡ null_count_of (any_column self.now).cells }
    {
        with_typed!(AnyArray, self, |array| array.null_count())
    }

    /// The array's type.
    pub fn data_type(&self) -> &DataType
        ensures value { kind_of result.now ≡ (any_column self.now).data_type }
        ensures made { IsLaidOutAs (kind_of result.now) (layout_of self.now) }
    {
        with_typed!(AnyArray, self, |array| array.data_type())
    }

    /// The `length` slots from the row `offset` on, of the same buffers.
    pub fn sliced(self, offset: usize, length: usize) -> Self
        requires { offset + length ≤ row_count (any_column self) }
        ensures { any_column result ≡ cut_column (any_column self) offset length }
    {
        with_typed!(
            AnyArray,
            self,
            |array| AnyArray::from(array.sliced(offset, length))
        )
    }

    /// An array with equal type and slots. What is stored is shared.
    pub fn try_clone(&self, alloc: Global) -> Result<AnyArray, Error>
        ensures value { IfOk result (λ copy. any_column copy ≡ any_column self.now) }
        ensures refused { FailsByMemory result }
    {
        with_typed!(
            AnyArray,
            self,
            |array| Ok(AnyArray::from(array.try_clone(alloc)?))
        )
    }

    /// Whether types and slots are equal; what is stored beneath nulls is not looked at.
    pub fn equal(&self, other: &AnyArray) -> bool
        ensures { IsTrue result ↔ (any_column self.now ≡ any_column other.now) }
    {
        if !self.data_type().equal(other.data_type()) {
            return false;
        }
        match (self, other) {
            (AnyArray::Int8(array), AnyArray::Int8(other)) => array.equal(other),
            (AnyArray::Int16(array), AnyArray::Int16(other)) => array.equal(other),
            (AnyArray::Int32(array), AnyArray::Int32(other)) => array.equal(other),
            (AnyArray::Int64(array), AnyArray::Int64(other)) => array.equal(other),
            (AnyArray::Int128(array), AnyArray::Int128(other)) => array.equal(other),
            (AnyArray::UInt8(array), AnyArray::UInt8(other)) => array.equal(other),
            (AnyArray::UInt16(array), AnyArray::UInt16(other)) => array.equal(other),
            (AnyArray::UInt32(array), AnyArray::UInt32(other)) => array.equal(other),
            (AnyArray::UInt64(array), AnyArray::UInt64(other)) => array.equal(other),
            (AnyArray::DaysMs(array), AnyArray::DaysMs(other)) => array.equal(other),
            (AnyArray::MonthDayNano(array), AnyArray::MonthDayNano(other)) => array.equal(other),
            _ => false,
        }
    }
}

// The refusal of a type whose arrays have no variant.
fn refusal_of(data_type: &DataType) -> Error
    ensures { result ≡ type_error (kind_of data_type.now) }
{
    if data_type.parameters_fit() {
        Error::OutOfSpec
    } else {
        Error::InvalidArgumentError(Reason::Parameters)
    }
}

// An array of null slots of a type that is stored as a native type.
fn nulls_of(
    alloc: Global,
    native: PrimitiveType,
    data_type: DataType,
    length: usize,
) -> Result<AnyArray, Error>
    requires { IsStoredAs (kind_of data_type) native }
    ensures value { IfOk result (λ array. any_column array
        ≡ record { data_type = kind_of data_type; cells = replicate length null }) }
    ensures range { ButForMemory result (IsOk result ↔ IsHeld (kind_of data_type)) }
    ensures refused { IfErr result (λ e. UnlessMemory e (e ≡ type_error (kind_of data_type))) }
{
    match native {
        PrimitiveType::Int8 => Ok(AnyArray::Int8(nulls(alloc, data_type, length)?)),
        PrimitiveType::Int16 => Ok(AnyArray::Int16(nulls(alloc, data_type, length)?)),
        PrimitiveType::Int32 => Ok(AnyArray::Int32(nulls(alloc, data_type, length)?)),
        PrimitiveType::Int64 => Ok(AnyArray::Int64(nulls(alloc, data_type, length)?)),
        PrimitiveType::Int128 => Ok(AnyArray::Int128(nulls(alloc, data_type, length)?)),
        PrimitiveType::UInt8 => Ok(AnyArray::UInt8(nulls(alloc, data_type, length)?)),
        PrimitiveType::UInt16 => Ok(AnyArray::UInt16(nulls(alloc, data_type, length)?)),
        PrimitiveType::UInt32 => Ok(AnyArray::UInt32(nulls(alloc, data_type, length)?)),
        PrimitiveType::UInt64 => Ok(AnyArray::UInt64(nulls(alloc, data_type, length)?)),
        PrimitiveType::DaysMs => Ok(AnyArray::DaysMs(nulls(alloc, data_type, length)?)),
        PrimitiveType::MonthDayNano => Ok(AnyArray::MonthDayNano(nulls(alloc, data_type, length)?)),
    }
}

// An array of null slots of one native type.
fn nulls<T: NativeType>(
    alloc: Global,
    data_type: DataType,
    length: usize,
) -> Result<PrimitiveArray<T>, Error>
    ensures value { IfOk result (λ array. column_of array
        ≡ record { data_type = kind_of data_type; cells = replicate length null }) }
    ensures range { ButForMemory result (IsOk result ↔ IsMadeOf (kind_of data_type) T.PRIMITIVE) }
    ensures refused { IfErr result (λ e. UnlessMemory e (e ≡ type_error (kind_of data_type))) }
{
    PrimitiveArray::new_null(alloc, data_type, length)
}

impl From<PrimitiveArray<i8>> for AnyArray {
    ghost from_gives = { λ array any. any ≡ Int8 array };

    fn from(array: PrimitiveArray<i8>) -> AnyArray {
        AnyArray::Int8(array)
    }
}

impl From<PrimitiveArray<i16>> for AnyArray {
    ghost from_gives = { λ array any. any ≡ Int16 array };

    fn from(array: PrimitiveArray<i16>) -> AnyArray {
        AnyArray::Int16(array)
    }
}

impl From<PrimitiveArray<i32>> for AnyArray {
    ghost from_gives = { λ array any. any ≡ Int32 array };

    fn from(array: PrimitiveArray<i32>) -> AnyArray {
        AnyArray::Int32(array)
    }
}

impl From<PrimitiveArray<i64>> for AnyArray {
    ghost from_gives = { λ array any. any ≡ Int64 array };

    fn from(array: PrimitiveArray<i64>) -> AnyArray {
        AnyArray::Int64(array)
    }
}

impl From<PrimitiveArray<i128>> for AnyArray {
    ghost from_gives = { λ array any. any ≡ Int128 array };

    fn from(array: PrimitiveArray<i128>) -> AnyArray {
        AnyArray::Int128(array)
    }
}

impl From<PrimitiveArray<u8>> for AnyArray {
    ghost from_gives = { λ array any. any ≡ UInt8 array };

    fn from(array: PrimitiveArray<u8>) -> AnyArray {
        AnyArray::UInt8(array)
    }
}

impl From<PrimitiveArray<u16>> for AnyArray {
    ghost from_gives = { λ array any. any ≡ UInt16 array };

    fn from(array: PrimitiveArray<u16>) -> AnyArray {
        AnyArray::UInt16(array)
    }
}

impl From<PrimitiveArray<u32>> for AnyArray {
    ghost from_gives = { λ array any. any ≡ UInt32 array };

    fn from(array: PrimitiveArray<u32>) -> AnyArray {
        AnyArray::UInt32(array)
    }
}

impl From<PrimitiveArray<u64>> for AnyArray {
    ghost from_gives = { λ array any. any ≡ UInt64 array };

    fn from(array: PrimitiveArray<u64>) -> AnyArray {
        AnyArray::UInt64(array)
    }
}

impl From<PrimitiveArray<days_ms>> for AnyArray {
    ghost from_gives = { λ array any. any ≡ DaysMs array };

    fn from(array: PrimitiveArray<days_ms>) -> AnyArray {
        AnyArray::DaysMs(array)
    }
}

impl From<PrimitiveArray<months_days_ns>> for AnyArray {
    ghost from_gives = { λ array any. any ≡ MonthDayNano array };

    fn from(array: PrimitiveArray<months_days_ns>) -> AnyArray {
        AnyArray::MonthDayNano(array)
    }
}
