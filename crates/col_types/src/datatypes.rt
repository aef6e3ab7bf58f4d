//! The types of columns.
ghost use Rattle.std.specs.Prelude.{◌≡◌, ◌↔◌, IsTrue, IfOk};
ghost use Rattle.col_types.specs.Answer.{FailsByMemory};
ghost use Rattle.col_types.specs.DataKind.{kind_of, field_kind_of};
ghost use Rattle.col_types.specs.DataType.{is_carried_kind, is_fitting_kind, is_plain};
ghost use Rattle.col_types.specs.DataType.{is_fitting_size, is_fitting_decimal};

mod physical_type;

use crate::error::Error;
use crate::text::Text;
pub use physical_type::{PhysicalType, PrimitiveType};
use std::alloc::Global;

/// The unit of a time, an instant or a duration.
///
/// Source: the Arrow columnar format, `TimeUnit` in "Schema.fbs".
#[derive(Clone, Copy, Debug, PartialEq, Eq)]
pub enum TimeUnit {
    /// Seconds.
    Second,
    /// Thousandths of a second.
    Millisecond,
    /// Millionths of a second.
    Microsecond,
    /// Thousand-millionths of a second.
    Nanosecond,
}

/// The parts of an interval.
///
/// Source: the Arrow columnar format, `IntervalUnit` in "Schema.fbs".
#[derive(Clone, Copy, Debug, PartialEq, Eq)]
pub enum IntervalUnit {
    /// Months.
    YearMonth,
    /// Days, and milliseconds.
    DayTime,
    /// Months, days, and nanoseconds.
    MonthDayNano,
}

/// The types that keys of a dictionary may have.
///
/// Source: the Arrow columnar format, "Dictionary-encoded layout".
#[derive(Clone, Copy, Debug, PartialEq, Eq)]
pub enum IntegerType {
    /// Whole numbers from -2^7 to 2^7 - 1.
    Int8,
    /// Whole numbers from -2^15 to 2^15 - 1.
    Int16,
    /// Whole numbers from -2^31 to 2^31 - 1.
    Int32,
    /// Whole numbers from -2^63 to 2^63 - 1.
    Int64,
    /// Whole numbers from 0 to 2^8 - 1.
    UInt8,
    /// Whole numbers from 0 to 2^16 - 1.
    UInt16,
    /// Whole numbers from 0 to 2^32 - 1.
    UInt32,
    /// Whole numbers from 0 to 2^64 - 1.
    UInt64,
}

/// A named part of a nested type: what the slots of a list are.
///
/// Source: the Arrow columnar format, `Field` in "Schema.fbs".
#[cycle(types)]
#[derive(Debug, Drop)]
pub struct Field {
    /// The name.
    pub name: Text,
    /// The type.
    pub data_type: DataType,
    /// Whether slots are said to be null at times: no call looks at it but the equality of types.
    pub is_nullable: bool,
}

/// The type of a column: what its slots hold, and what they mean.
///
/// Source: the Arrow columnar format, `Type` in "Schema.fbs".
#[cycle(types)]
#[derive(Debug, Drop)]
pub enum DataType {
    /// Each slot is null.
    Null,
    /// True or false.
    Boolean,
    /// Whole numbers from -2^7 to 2^7 - 1.
    Int8,
    /// Whole numbers from -2^15 to 2^15 - 1.
    Int16,
    /// Whole numbers from -2^31 to 2^31 - 1.
    Int32,
    /// Whole numbers from -2^63 to 2^63 - 1.
    Int64,
    /// Whole numbers from 0 to 2^8 - 1.
    UInt8,
    /// Whole numbers from 0 to 2^16 - 1.
    UInt16,
    /// Whole numbers from 0 to 2^32 - 1.
    UInt32,
    /// Whole numbers from 0 to 2^64 - 1.
    UInt64,
    /// Units since 1970-01-01 00:00:00: in UTC where there is a zone, else by a clock of no zone.
    Timestamp(TimeUnit, Option<Text>),
    /// Days since 1970-01-01.
    Date32,
    /// Milliseconds since 1970-01-01.
    Date64,
    /// Units since midnight, in 32 bits: seconds or milliseconds.
    Time32(TimeUnit),
    /// Units since midnight, in 64 bits: microseconds or nanoseconds.
    Time64(TimeUnit),
    /// A span of so many units.
    Duration(TimeUnit),
    /// A span on the calendar.
    Interval(IntervalUnit),
    /// Bytes, at most 2^31 - 1 in all.
    Binary,
    /// Bytes, so many for each slot.
    FixedSizeBinary(usize),
    /// Bytes.
    LargeBinary,
    /// Text in UTF-8, at most 2^31 - 1 bytes in all.
    Utf8,
    /// Text in UTF-8.
    LargeUtf8,
    /// Lists of slots of the field's type, at most 2^31 - 1 slots in all.
    List(Box<Field>),
    /// Lists of slots of the field's type, so many for each list.
    FixedSizeList(Box<Field>, usize),
    /// Lists of slots of the field's type.
    LargeList(Box<Field>),
    /// Keys of the first type into values of the second; the last says whether the values' order
    /// means anything.
    Dictionary(IntegerType, Box<DataType>, bool),
    /// Decimal numbers: how many digits in all, and how many after the point.
    Decimal(usize, usize),
}

impl DataType {
    /// Whether columns of the type are carried: at each level `Time32` has seconds or
    /// milliseconds, `Time64` has microseconds or nanoseconds, and the values of a dictionary are
    /// no dictionary.
    pub fn is_carried(&self) -> bool
        ensures { result ≡ is_carried_kind (kind_of self.now) }
    {
        match self {
            DataType::Time32(unit) => matches!(unit, TimeUnit::Second | TimeUnit::Millisecond),
            DataType::Time64(unit) => matches!(unit, TimeUnit::Microsecond | TimeUnit::Nanosecond),
            DataType::List(field) => field.data_type.is_carried(),
            DataType::FixedSizeList(field, _) => field.data_type.is_carried(),
            DataType::LargeList(field) => field.data_type.is_carried(),
            DataType::Dictionary(_, values, _) => {
                !matches!(**values, DataType::Dictionary(_, _, _)) && values.is_carried()
            }
            _ => true,
        }
    }

    /// Whether the type's parameters fit: at each level decimals have 1 to 38 digits, no more of
    /// them after the point, and sizes are 1 to 2147483647.
    pub fn parameters_fit(&self) -> bool
        ensures { result ≡ is_fitting_kind (kind_of self.now) }
    {
        match self {
            DataType::FixedSizeBinary(size) => fits_size(*size),
            DataType::List(field) => field.data_type.parameters_fit(),
            DataType::FixedSizeList(field, size) => {
                fits_size(*size) && field.data_type.parameters_fit()
            }
            DataType::LargeList(field) => field.data_type.parameters_fit(),
            DataType::Dictionary(_, values, _) => values.parameters_fit(),
            DataType::Decimal(precision, scale) => fits_decimal(*precision, *scale),
            _ => true,
        }
    }

    /// Whether the types are equal in all their parts: names of fields and whether they are
    /// nullable among them.
    #[cycle(comparison)]
    pub fn equal(&self, other: &DataType) -> bool
        ensures { IsTrue result ↔ (kind_of self.now ≡ kind_of other.now) }
    {
        match (self, other) {
            (DataType::Timestamp(unit, zone), DataType::Timestamp(other_unit, other_zone)) => {
                unit == other_unit && is_same_zone(zone, other_zone)
            }
            (DataType::Time32(unit), DataType::Time32(other)) => unit == other,
            (DataType::Time64(unit), DataType::Time64(other)) => unit == other,
            (DataType::Duration(unit), DataType::Duration(other)) => unit == other,
            (DataType::Interval(unit), DataType::Interval(other)) => unit == other,
            (DataType::FixedSizeBinary(size), DataType::FixedSizeBinary(other)) => size == other,
            (DataType::List(field), DataType::List(other)) => field.equal(other),
            (DataType::FixedSizeList(field, size), DataType::FixedSizeList(other, other_size)) => {
                size == other_size && field.equal(other)
            }
            (DataType::LargeList(field), DataType::LargeList(other)) => field.equal(other),
            (
                DataType::Dictionary(key, values, is_ordered),
                DataType::Dictionary(other_key, other, is_other_ordered),
            ) => key == other_key && is_ordered == is_other_ordered && values.equal(other),
            (DataType::Decimal(precision, scale), DataType::Decimal(other, other_scale)) => {
                precision == other && scale == other_scale
            }
            _ => self.is_same_plain(other),
        }
    }

    // Whether the types are equal and have no parameters.
    fn is_same_plain(&self, other: &DataType) -> bool
        ensures { IsTrue result
            ↔ (IsTrue (is_plain (kind_of self.now)) × (kind_of self.now ≡ kind_of other.now)) }
    {
        match (self, other) {
            (DataType::Null, DataType::Null) => true,
            (DataType::Boolean, DataType::Boolean) => true,
            (DataType::Int8, DataType::Int8) => true,
            (DataType::Int16, DataType::Int16) => true,
            (DataType::Int32, DataType::Int32) => true,
            (DataType::Int64, DataType::Int64) => true,
            (DataType::UInt8, DataType::UInt8) => true,
            (DataType::UInt16, DataType::UInt16) => true,
            (DataType::UInt32, DataType::UInt32) => true,
            (DataType::UInt64, DataType::UInt64) => true,
            (DataType::Date32, DataType::Date32) => true,
            (DataType::Date64, DataType::Date64) => true,
            (DataType::Binary, DataType::Binary) => true,
            (DataType::LargeBinary, DataType::LargeBinary) => true,
            (DataType::Utf8, DataType::Utf8) => true,
            (DataType::LargeUtf8, DataType::LargeUtf8) => true,
            _ => false,
        }
    }

    /// An equal type.
    #[cycle(copies)]
    pub fn try_clone(&self, alloc: Global) -> Result<DataType, Error>
        ensures value { IfOk result (λ copy. kind_of copy ≡ kind_of self.now) }
        ensures refused { FailsByMemory result }
    {
        match self {
            DataType::Timestamp(unit, zone) => Ok(DataType::Timestamp(
                *unit,
                zone_clone(zone, alloc)?,
            )),
            DataType::Time32(unit) => Ok(DataType::Time32(*unit)),
            DataType::Time64(unit) => Ok(DataType::Time64(*unit)),
            DataType::Duration(unit) => Ok(DataType::Duration(*unit)),
            DataType::Interval(unit) => Ok(DataType::Interval(*unit)),
            DataType::FixedSizeBinary(size) => Ok(DataType::FixedSizeBinary(*size)),
            DataType::List(field) => Ok(DataType::List(field.boxed_clone(alloc)?)),
            DataType::FixedSizeList(field, size) => {
                Ok(DataType::FixedSizeList(field.boxed_clone(alloc)?, *size))
            }
            DataType::LargeList(field) => Ok(DataType::LargeList(field.boxed_clone(alloc)?)),
            DataType::Dictionary(key, values, is_ordered) => {
                let values = Box::new(alloc, values.try_clone(alloc)?)?;
                Ok(DataType::Dictionary(*key, values, *is_ordered))
            }
            DataType::Decimal(precision, scale) => Ok(DataType::Decimal(*precision, *scale)),
            _ => Ok(self.plain_clone()),
        }
    }

    // The same type, which has no parameters.
    fn plain_clone(&self) -> DataType
        requires { IsTrue (is_plain (kind_of self.now)) }
        ensures { kind_of result ≡ kind_of self.now }
    {
        match self {
            DataType::Null => DataType::Null,
            DataType::Boolean => DataType::Boolean,
            DataType::Int8 => DataType::Int8,
            DataType::Int16 => DataType::Int16,
            DataType::Int32 => DataType::Int32,
            DataType::Int64 => DataType::Int64,
            DataType::UInt8 => DataType::UInt8,
            DataType::UInt16 => DataType::UInt16,
            DataType::UInt32 => DataType::UInt32,
            DataType::UInt64 => DataType::UInt64,
            DataType::Date32 => DataType::Date32,
            DataType::Date64 => DataType::Date64,
            DataType::Binary => DataType::Binary,
            DataType::LargeBinary => DataType::LargeBinary,
            DataType::Utf8 => DataType::Utf8,
            DataType::LargeUtf8 => DataType::LargeUtf8,
            _ => unreachable!(),
        }
    }
}

// Whether a size is one that a type may have.
fn fits_size(size: usize) -> bool
    ensures { result ≡ is_fitting_size size }
{
    1 <= size && size <= 2147483647
}

// Whether decimal numbers may have so many digits, and so many of them after the point.
fn fits_decimal(precision: usize, scale: usize) -> bool
    ensures { result ≡ is_fitting_decimal precision scale }
{
    1 <= precision && precision <= 38 && scale <= precision
}

// Whether the zones are equal, or both missing.
fn is_same_zone(zone: &Option<Text>, other: &Option<Text>) -> bool
    ensures { IsTrue result ↔ (zone.now ≡ other.now) }
{
    match (zone, other) {
        (Some(text), Some(other)) => text.equal(other),
        (None, None) => true,
        _ => false,
    }
}

// An equal zone, or none.
fn zone_clone(zone: &Option<Text>, alloc: Global) -> Result<Option<Text>, Error>
    ensures value { IfOk result (λ copy. copy ≡ zone.now) }
    ensures refused { FailsByMemory result }
{
    match zone {
        Some(text) => Ok(Some(text.try_clone(alloc)?)),
        None => Ok(None),
    }
}

impl Field {
    // Whether the fields are equal in all their parts.
    #[cycle(comparison)]
    fn equal(&self, other: &Field) -> bool
        ensures { IsTrue result ↔ (field_kind_of self.now ≡ field_kind_of other.now) }
    {
        self.name.equal(&other.name)
            && self.is_nullable == other.is_nullable
            && self.data_type.equal(&other.data_type)
    }

    // An equal field in a box of its own.
    #[cycle(copies)]
    fn boxed_clone(&self, alloc: Global) -> Result<Box<Field>, Error>
        ensures value { IfOk result (λ copy. field_kind_of copy.value ≡ field_kind_of self.now) }
        ensures refused { FailsByMemory result }
    {
        let name = self.name.try_clone(alloc)?;
        let data_type = self.data_type.try_clone(alloc)?;
        let field = Field {
            name,
            data_type,
            is_nullable: self.is_nullable,
        };
        Ok(Box::new(alloc, field)?)
    }
}
