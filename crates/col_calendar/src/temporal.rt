//! The parts of columns of dates, instants and times of day.
ghost use Rattle.std.specs.Prelude.{◌≡◌};
ghost use Rattle.col_types.specs.Answer.{Answers};
ghost use Rattle.col_types.specs.DataKind.{kind_of};
ghost use Rattle.col_flat.specs.Parts.{column_of};
ghost use Rattle.col_array.specs.Any.{any_column};
ghost use Rattle.col_calendar.specs.Part.{can_part, part_answer, the_day, the_hour, the_iso_week};
ghost use Rattle.col_calendar.specs.Part.{the_minute, the_month, the_nanosecond, the_second};
ghost use Rattle.col_calendar.specs.Part.{the_weekday, the_year};

use crate::kernels::{has_part, parts_of};
use crate::parts::{Day, Hour, IsoWeek, Minute, Month, Nanosecond, Second, Weekday, Year};
use col_array::AnyArray;
use col_flat::PrimitiveArray;
use col_types::{DataType, Error};
use std::alloc::Global;

/// The year of each value, negative before the year 0. Null at each null. A zoned timestamp is
/// read in its zone's offset.
///
/// Refused, in this order: `NotYetImplemented` where the type is none of dates or timestamps; `Zone`
/// where the zone is no offset text; `OutOfRange` where the day of a valid row, in UTC or by the
/// offset, is none from -9999-01-01 to 9999-12-31.
pub fn year(alloc: Global, array: &AnyArray) -> Result<PrimitiveArray<i32>, Error>
    ensures answer { Answers column_of result (part_answer the_year (any_column array.now)) }
{
    parts_of::<i32, Year>(alloc, array)
}

/// The month of each value, 1 to 12. Null at each null. A zoned timestamp is read in its zone's
/// offset.
///
/// Refused, in this order: `NotYetImplemented` where the type is none of dates or timestamps; `Zone`
/// where the zone is no offset text; `OutOfRange` where the day of a valid row, in UTC or by the
/// offset, is none from -9999-01-01 to 9999-12-31.
pub fn month(alloc: Global, array: &AnyArray) -> Result<PrimitiveArray<u32>, Error>
    ensures answer { Answers column_of result (part_answer the_month (any_column array.now)) }
{
    parts_of::<u32, Month>(alloc, array)
}

/// The day in the month of each value, 1 to 31. Null at each null. A zoned timestamp is read in
/// its zone's offset.
///
/// Refused, in this order: `NotYetImplemented` where the type is none of dates or timestamps; `Zone`
/// where the zone is no offset text; `OutOfRange` where the day of a valid row, in UTC or by the
/// offset, is none from -9999-01-01 to 9999-12-31.
pub fn day(alloc: Global, array: &AnyArray) -> Result<PrimitiveArray<u32>, Error>
    ensures answer { Answers column_of result (part_answer the_day (any_column array.now)) }
{
    parts_of::<u32, Day>(alloc, array)
}

/// The day in the week of each value: 1 for Monday to 7 for Sunday. Null at each null. A zoned
/// timestamp is read in its zone's offset.
///
/// Refused, in this order: `NotYetImplemented` where the type is none of dates or timestamps; `Zone`
/// where the zone is no offset text; `OutOfRange` where the day of a valid row, in UTC or by the
/// offset, is none from -9999-01-01 to 9999-12-31. Source: ISO 8601.
pub fn weekday(alloc: Global, array: &AnyArray) -> Result<PrimitiveArray<u32>, Error>
    ensures answer { Answers column_of result (part_answer the_weekday (any_column array.now)) }
{
    parts_of::<u32, Weekday>(alloc, array)
}

/// The week of each value, 1 to 53. Null at each null. A zoned timestamp is read in its zone's
/// offset.
///
/// Refused, in this order: `NotYetImplemented` where the type is none of dates or timestamps; `Zone`
/// where the zone is no offset text; `OutOfRange` where the day of a valid row, in UTC or by the
/// offset, is none from -9999-01-01 to 9999-12-31. Source: ISO 8601.
pub fn iso_week(alloc: Global, array: &AnyArray) -> Result<PrimitiveArray<u32>, Error>
    ensures answer { Answers column_of result (part_answer the_iso_week (any_column array.now)) }
{
    parts_of::<u32, IsoWeek>(alloc, array)
}

/// The hour of each value, 0 to 23. Null at each null. A zoned timestamp is read in its zone's
/// offset.
///
/// Refused, in this order: `NotYetImplemented` where the type is none of dates, timestamps or times
/// of day that are carried; `Zone` where the zone is no offset text; `OutOfRange` where the day of
/// a valid row, in UTC or by the offset, is none from -9999-01-01 to 9999-12-31, or its time is not
/// within a day.
pub fn hour(alloc: Global, array: &AnyArray) -> Result<PrimitiveArray<u32>, Error>
    ensures answer { Answers column_of result (part_answer the_hour (any_column array.now)) }
{
    parts_of::<u32, Hour>(alloc, array)
}

/// The minute of the hour of each value, 0 to 59. Null at each null. A zoned timestamp is read in
/// its zone's offset.
///
/// Refused, in this order: `NotYetImplemented` where the type is none of dates, timestamps or times
/// of day that are carried; `Zone` where the zone is no offset text; `OutOfRange` where the day of
/// a valid row, in UTC or by the offset, is none from -9999-01-01 to 9999-12-31, or its time is not
/// within a day.
pub fn minute(alloc: Global, array: &AnyArray) -> Result<PrimitiveArray<u32>, Error>
    ensures answer { Answers column_of result (part_answer the_minute (any_column array.now)) }
{
    parts_of::<u32, Minute>(alloc, array)
}

/// The second of the minute of each value, 0 to 59. Null at each null. A zoned timestamp is read
/// in its zone's offset.
///
/// Refused, in this order: `NotYetImplemented` where the type is none of dates, timestamps or times
/// of day that are carried; `Zone` where the zone is no offset text; `OutOfRange` where the day of
/// a valid row, in UTC or by the offset, is none from -9999-01-01 to 9999-12-31, or its time is not
/// within a day.
pub fn second(alloc: Global, array: &AnyArray) -> Result<PrimitiveArray<u32>, Error>
    ensures answer { Answers column_of result (part_answer the_second (any_column array.now)) }
{
    parts_of::<u32, Second>(alloc, array)
}

/// The nanosecond of the second of each value, 0 to 999999999. Null at each null. A zoned
/// timestamp is read in its zone's offset.
///
/// Refused, in this order: `NotYetImplemented` where the type is none of dates, timestamps or times
/// of day that are carried; `Zone` where the zone is no offset text; `OutOfRange` where the day of
/// a valid row, in UTC or by the offset, is none from -9999-01-01 to 9999-12-31, or its time is not
/// within a day.
pub fn nanosecond(alloc: Global, array: &AnyArray) -> Result<PrimitiveArray<u32>, Error>
    ensures answer { Answers column_of result (part_answer the_nanosecond (any_column array.now)) }
{
    parts_of::<u32, Nanosecond>(alloc, array)
}

/// Whether columns of the type have a year: dates and timestamps.
pub fn can_year(data_type: &DataType) -> bool
    ensures { result ≡ can_part the_year (kind_of data_type.now) }
{
    has_part::<i32, Year>(data_type)
}

/// Whether columns of the type have a month: dates and timestamps.
pub fn can_month(data_type: &DataType) -> bool
    ensures { result ≡ can_part the_month (kind_of data_type.now) }
{
    has_part::<u32, Month>(data_type)
}

/// Whether columns of the type have a day in the month: dates and timestamps.
pub fn can_day(data_type: &DataType) -> bool
    ensures { result ≡ can_part the_day (kind_of data_type.now) }
{
    has_part::<u32, Day>(data_type)
}

/// Whether columns of the type have a day in the week: dates and timestamps.
pub fn can_weekday(data_type: &DataType) -> bool
    ensures { result ≡ can_part the_weekday (kind_of data_type.now) }
{
    has_part::<u32, Weekday>(data_type)
}

/// Whether columns of the type have a week: dates and timestamps.
pub fn can_iso_week(data_type: &DataType) -> bool
    ensures { result ≡ can_part the_iso_week (kind_of data_type.now) }
{
    has_part::<u32, IsoWeek>(data_type)
}

/// Whether columns of the type have an hour: dates, timestamps, and times of day that are
/// carried.
pub fn can_hour(data_type: &DataType) -> bool
    ensures { result ≡ can_part the_hour (kind_of data_type.now) }
{
    has_part::<u32, Hour>(data_type)
}

/// Whether columns of the type have a minute: dates, timestamps, and times of day that are
/// carried.
pub fn can_minute(data_type: &DataType) -> bool
    ensures { result ≡ can_part the_minute (kind_of data_type.now) }
{
    has_part::<u32, Minute>(data_type)
}

/// Whether columns of the type have a second: dates, timestamps, and times of day that are
/// carried.
pub fn can_second(data_type: &DataType) -> bool
    ensures { result ≡ can_part the_second (kind_of data_type.now) }
{
    has_part::<u32, Second>(data_type)
}

/// Whether columns of the type have a nanosecond: dates, timestamps, and times of day that are
/// carried.
pub fn can_nanosecond(data_type: &DataType) -> bool
    ensures { result ≡ can_part the_nanosecond (kind_of data_type.now) }
{
    has_part::<u32, Nanosecond>(data_type)
}
