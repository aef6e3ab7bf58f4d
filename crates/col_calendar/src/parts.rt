//! The parts of a day and of a time of day.
ghost use Rattle.std.specs.Prelude.{◌≡◌, ◌<◌, ◌+◌, ◌*◌, IsTrue};
ghost use Rattle.jiff_core.specs.Calendar.{weekday_number};
ghost use Rattle.jiff_core.specs.Date.{epoch_day};
ghost use Rattle.col_types.specs.DataKind.{kind_of};
ghost use Rattle.col_types.specs.DataType.{IsMadeOf};
ghost use Rattle.col_calendar.specs.Civil.{day_of_month, is_civil_day, iso_week_of, month_of};
ghost use Rattle.col_calendar.specs.Civil.{place_in_year, thursday_of, weekday_of_day, year_of};
ghost use Rattle.col_calendar.specs.Part.{Part, is_clock_part, part_of, part_type};

use col_types::{DataType, NativeWhole};
use jiff_core::civil;

// A part, with the native type of its numbers.
pub(crate) trait CivilPart<O: NativeWhole> {
    // Which part it is.
    ghost part: { Part };

    // Whether a time of day has it.
    fn is_of_clock() -> bool
        ensures { result ≡ is_clock_part part };

    // The type of its columns.
    fn data_type() -> DataType
        ensures value { kind_of result ≡ part_type part }
        ensures made { IsMadeOf (kind_of result) O.PRIMITIVE };

    // The part of a day, and of so many seconds and nanoseconds after midnight.
    fn of(day: i64, second: u32, nanosecond: u32) -> O
        requires day { IsTrue (is_civil_day day) }
        requires second { second < 86_400 }
        requires nanosecond { nanosecond < 1_000_000_000 }
        ensures { O.value result ≡ part_of part day (second * 1_000_000_000 + nanosecond) };
}

// The year.
pub(crate) struct Year;

impl CivilPart<i32> for Year {
    ghost use Rattle.col_calendar.specs.Part.{the_year};

    ghost part = { the_year };

    fn is_of_clock() -> bool {
        false
    }

    fn data_type() -> DataType {
        DataType::Int32
    }

    fn of(day: i64, _second: u32, _nanosecond: u32) -> i32 {
        year_of_day(day)
    }
}

// The month, from 1.
pub(crate) struct Month;

impl CivilPart<u32> for Month {
    ghost use Rattle.col_calendar.specs.Part.{the_month};

    ghost part = { the_month };

    fn is_of_clock() -> bool {
        false
    }

    fn data_type() -> DataType {
        DataType::UInt32
    }

    fn of(day: i64, _second: u32, _nanosecond: u32) -> u32 {
        month_of_day(day)
    }
}

// The day in the month, from 1.
pub(crate) struct Day;

impl CivilPart<u32> for Day {
    ghost use Rattle.col_calendar.specs.Part.{the_day};

    ghost part = { the_day };

    fn is_of_clock() -> bool {
        false
    }

    fn data_type() -> DataType {
        DataType::UInt32
    }

    fn of(day: i64, _second: u32, _nanosecond: u32) -> u32 {
        day_in_month(day)
    }
}

// The day in the week, from 1 for Monday.
pub(crate) struct Weekday;

impl CivilPart<u32> for Weekday {
    ghost use Rattle.col_calendar.specs.Part.{the_weekday};

    ghost part = { the_weekday };

    fn is_of_clock() -> bool {
        false
    }

    fn data_type() -> DataType {
        DataType::UInt32
    }

    fn of(day: i64, _second: u32, _nanosecond: u32) -> u32 {
        weekday_of(day)
    }
}

// The week by ISO 8601.
pub(crate) struct IsoWeek;

impl CivilPart<u32> for IsoWeek {
    ghost use Rattle.col_calendar.specs.Part.{the_iso_week};

    ghost part = { the_iso_week };

    fn is_of_clock() -> bool {
        false
    }

    fn data_type() -> DataType {
        DataType::UInt32
    }

    fn of(day: i64, _second: u32, _nanosecond: u32) -> u32 {
        week_of(day)
    }
}

// The hour.
pub(crate) struct Hour;

impl CivilPart<u32> for Hour {
    ghost use Rattle.col_calendar.specs.Part.{the_hour};

    ghost part = { the_hour };

    fn is_of_clock() -> bool {
        true
    }

    fn data_type() -> DataType {
        DataType::UInt32
    }

    fn of(_day: i64, second: u32, _nanosecond: u32) -> u32 {
        second / 3_600
    }
}

// The minute of the hour.
pub(crate) struct Minute;

impl CivilPart<u32> for Minute {
    ghost use Rattle.col_calendar.specs.Part.{the_minute};

    ghost part = { the_minute };

    fn is_of_clock() -> bool {
        true
    }

    fn data_type() -> DataType {
        DataType::UInt32
    }

    fn of(_day: i64, second: u32, _nanosecond: u32) -> u32 {
        second / 60 % 60
    }
}

// The second of the minute.
pub(crate) struct Second;

impl CivilPart<u32> for Second {
    ghost use Rattle.col_calendar.specs.Part.{the_second};

    ghost part = { the_second };

    fn is_of_clock() -> bool {
        true
    }

    fn data_type() -> DataType {
        DataType::UInt32
    }

    fn of(_day: i64, second: u32, _nanosecond: u32) -> u32 {
        second % 60
    }
}

// The nanosecond of the second.
pub(crate) struct Nanosecond;

impl CivilPart<u32> for Nanosecond {
    ghost use Rattle.col_calendar.specs.Part.{the_nanosecond};

    ghost part = { the_nanosecond };

    fn is_of_clock() -> bool {
        true
    }

    fn data_type() -> DataType {
        DataType::UInt32
    }

    fn of(_day: i64, _second: u32, nanosecond: u32) -> u32 {
        nanosecond
    }
}

// The date of a day that has one.
fn date_of(day: i64) -> civil::Date
    requires { IsTrue (is_civil_day day) }
    ensures { epoch_day result ≡ day }
{
    civil::Date::from_days_since_min((day + 4_371_587) as u32)
}

// The year of a day.
fn year_of_day(day: i64) -> i32
    requires { IsTrue (is_civil_day day) }
    ensures { result ≡ year_of day }
{
    i32::from(date_of(day).year)
}

// The month of a day.
fn month_of_day(day: i64) -> u32
    requires { IsTrue (is_civil_day day) }
    ensures { result ≡ month_of day }
{
    u32::from(date_of(day).month)
}

// The place of a day in its month.
fn day_in_month(day: i64) -> u32
    requires { IsTrue (is_civil_day day) }
    ensures { result ≡ day_of_month day }
{
    u32::from(date_of(day).day)
}

// The weekday of a day, from 0 for Monday.
fn weekday_index(day: i64) -> u32
    requires { IsTrue (is_civil_day day) }
    ensures value { result ≡ weekday_number day }
    ensures within { result < 7 }
{
    (day + 3).rem_euclid(7) as u32
}

// The weekday of a day, from 1 for Monday.
fn weekday_of(day: i64) -> u32
    requires { IsTrue (is_civil_day day) }
    ensures { result ≡ weekday_of_day day }
{
    weekday_index(day) + 1
}

// The week of a day: the week in its year of the Thursday of the same week.
fn week_of(day: i64) -> u32
    requires { IsTrue (is_civil_day day) }
    ensures { result ≡ iso_week_of day }
{
    (place_of(thursday_of_week(day)) - 1) / 7 + 1
}

// The Thursday of the week of a day.
fn thursday_of_week(day: i64) -> i64
    requires { IsTrue (is_civil_day day) }
    ensures value { result ≡ thursday_of day }
    ensures civil { IsTrue (is_civil_day result) }
{
    day - i64::from(weekday_index(day)) + 3
}

// The place of a day in its year, from 1.
fn place_of(day: i64) -> u32
    requires { IsTrue (is_civil_day day) }
    ensures value { result ≡ place_in_year day }
    ensures some { 0 < result }
{
    u32::from(date_of(day).day_of_year())
}
