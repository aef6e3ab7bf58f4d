//! How columns are stored.
ghost use Rattle.std.specs.Prelude.{◌≡◌};
ghost use Rattle.col_types.specs.DataKind.{kind_of};
ghost use Rattle.col_types.specs.DataType.{physical_type_of, interval_native};

use crate::datatypes::{DataType, IntegerType, IntervalUnit};

/// The native types of slots of one width.
///
/// Source: the Arrow columnar format, "Fixed-size primitive layout".
#[derive(Clone, Copy, Debug, PartialEq, Eq)]
pub enum PrimitiveType {
    /// `i8`.
    Int8,
    /// `i16`.
    Int16,
    /// `i32`.
    Int32,
    /// `i64`.
    Int64,
    /// `i128`.
    Int128,
    /// `u8`.
    UInt8,
    /// `u16`.
    UInt16,
    /// `u32`.
    UInt32,
    /// `u64`.
    UInt64,
    /// `days_ms`.
    DaysMs,
    /// `months_days_ns`.
    MonthDayNano,
}

/// How a column is stored, whatever its slots mean.
///
/// Source: the Arrow columnar format, "Physical memory layout".
#[derive(Clone, Copy, Debug, PartialEq, Eq)]
pub enum PhysicalType {
    /// Nothing but a length: each slot is null.
    Null,
    /// A bit for each slot.
    Boolean,
    /// A value of the native type for each slot.
    Primitive(PrimitiveType),
    /// Bytes, with offsets of 32 bits.
    Binary,
    /// Bytes, equally many for each slot.
    FixedSizeBinary,
    /// Bytes, with offsets of 64 bits.
    LargeBinary,
    /// Text in UTF-8, with offsets of 32 bits.
    Utf8,
    /// Text in UTF-8, with offsets of 64 bits.
    LargeUtf8,
    /// Slots of another array, with offsets of 32 bits.
    List,
    /// Slots of another array, equally many for each slot.
    FixedSizeList,
    /// Slots of another array, with offsets of 64 bits.
    LargeList,
    /// Keys of the named type, which are places in an array of values.
    Dictionary(IntegerType),
}

impl DataType {
    /// How columns of the type are stored.
    pub fn to_physical_type(&self) -> PhysicalType
        ensures { result ≡ physical_type_of (kind_of self.now) }
    {
        match self {
            DataType::Null => PhysicalType::Null,
            DataType::Boolean => PhysicalType::Boolean,
            DataType::Binary => PhysicalType::Binary,
            DataType::FixedSizeBinary(_) => PhysicalType::FixedSizeBinary,
            DataType::LargeBinary => PhysicalType::LargeBinary,
            DataType::Utf8 => PhysicalType::Utf8,
            DataType::LargeUtf8 => PhysicalType::LargeUtf8,
            DataType::List(_) => PhysicalType::List,
            DataType::FixedSizeList(_, _) => PhysicalType::FixedSizeList,
            DataType::LargeList(_) => PhysicalType::LargeList,
            DataType::Dictionary(key, _, _) => PhysicalType::Dictionary(*key),
            DataType::Int8 => PhysicalType::Primitive(PrimitiveType::Int8),
            DataType::Int16 => PhysicalType::Primitive(PrimitiveType::Int16),
            DataType::UInt8 => PhysicalType::Primitive(PrimitiveType::UInt8),
            DataType::UInt16 => PhysicalType::Primitive(PrimitiveType::UInt16),
            DataType::UInt32 => PhysicalType::Primitive(PrimitiveType::UInt32),
            DataType::UInt64 => PhysicalType::Primitive(PrimitiveType::UInt64),
            DataType::Decimal(_, _) => PhysicalType::Primitive(PrimitiveType::Int128),
            DataType::Interval(unit) => PhysicalType::Primitive(interval_type(*unit)),
            DataType::Int32 | DataType::Date32 | DataType::Time32(_) => {
                PhysicalType::Primitive(PrimitiveType::Int32)
            }
            DataType::Int64
            | DataType::Timestamp(_, _)
            | DataType::Date64
            | DataType::Time64(_)
            | DataType::Duration(_) => PhysicalType::Primitive(PrimitiveType::Int64),
        }
    }
}

// The native type of an interval's slots.
fn interval_type(unit: IntervalUnit) -> PrimitiveType
    ensures { result ≡ interval_native unit }
{
    match unit {
        IntervalUnit::YearMonth => PrimitiveType::Int32,
        IntervalUnit::DayTime => PrimitiveType::DaysMs,
        IntervalUnit::MonthDayNano => PrimitiveType::MonthDayNano,
    }
}
