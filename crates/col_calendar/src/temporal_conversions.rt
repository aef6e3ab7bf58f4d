//! Dates, times and date-times of the numbers that columns store.
ghost use Rattle.std.specs.Prelude.{◌≡◌, ◌<◌, ◌&&◌, pos, neg_ℤ, ◌+ℤ◌};
ghost use Rattle.jiff_core.specs.Calendar.{IsBetween};
ghost use Rattle.jiff_core.specs.Date.{epoch_day};
ghost use Rattle.jiff_core.specs.Time.{time_nanos};
ghost use Rattle.jiff.specs.Words.{signed_nanos};
ghost use Rattle.col_types.specs.declared.datatypes.TimeUnit.TheVariants as unit;
ghost use Rattle.col_calendar.specs.Civil.{IsDateTimeOf, day_of, instant_at, instant_of};
ghost use Rattle.col_calendar.specs.Civil.{is_civil_day, is_within_day, local_instant};
ghost use Rattle.col_calendar.specs.Civil.{midnight_of};
ghost use Rattle.col_calendar.specs.Conversion.{ArePartsOf, Converts, ConvertsOrNone, is_civil};

use crate::offset::{FixedOffset, OffsetDateTime};
use crate::units::split;
use col_types::{Error, TimeUnit};
use jiff::SignedDuration;
use jiff::civil::{Date, DateTime, Time};
use jiff_core::civil;

/// The seconds of a day.
pub const SECONDS_IN_DAY: i64 = 86_400;

/// The milliseconds of a second.
pub const MILLISECONDS: i64 = 1_000;

/// The microseconds of a second.
pub const MICROSECONDS: i64 = 1_000_000;

/// The nanoseconds of a second.
pub const NANOSECONDS: i64 = 1_000_000_000;

/// The milliseconds of a day.
pub const MILLISECONDS_IN_DAY: i64 = 86_400_000;

/// The day number of 1970-01-01 where 0000-12-31 has the number 0.
pub const EPOCH_DAYS_FROM_CE: i32 = 719_163;

/// Midnight of day `v`, counted from 1970-01-01.
///
/// Refused: `OutOfRange` where the day is none from -9999-01-01 to 9999-12-31.
pub fn date32_to_datetime(v: i32) -> Result<DateTime, Error>
    ensures { Converts (is_civil_day v) (IsDateTimeOf (midnight_of v)) result }
{
    date32_to_datetime_opt(v).ok_or(Error::OutOfRange)
}

/// Midnight of day `v`, counted from 1970-01-01; `None` where the day is none from -9999-01-01 to
/// 9999-12-31.
pub fn date32_to_datetime_opt(v: i32) -> Option<DateTime>
    ensures { ConvertsOrNone (is_civil_day v) (IsDateTimeOf (midnight_of v)) result }
{
    datetime_at(i64::from(v) * SECONDS_IN_DAY, 0)
}

/// The date of day `days`, counted from 1970-01-01.
///
/// Refused: `OutOfRange` where the day is none from -9999-01-01 to 9999-12-31.
pub fn date32_to_date(days: i32) -> Result<Date, Error>
    ensures { Converts (is_civil_day days) (λ d. epoch_day d ≡ days) result }
{
    date32_to_date_opt(days).ok_or(Error::OutOfRange)
}

/// The date of day `days`, counted from 1970-01-01; `None` where the day is none from -9999-01-01
/// to 9999-12-31.
pub fn date32_to_date_opt(days: i32) -> Option<Date>
    ensures { ConvertsOrNone (is_civil_day days) (λ d. epoch_day d ≡ days) result }
{
    date_at(i64::from(days))
}

/// The date-time so many milliseconds after 1970-01-01 00:00:00.
///
/// Refused: `OutOfRange` where its day is none from -9999-01-01 to 9999-12-31.
pub fn date64_to_datetime(v: i64) -> Result<DateTime, Error>
    ensures { let m = instant_of unit.Millisecond v in
        Converts (is_civil m) (IsDateTimeOf m) result }
{
    timestamp_ms_to_datetime(v)
}

/// The date on which the date-time lies so many milliseconds after 1970-01-01 00:00:00.
///
/// Refused: `OutOfRange` where that is none from -9999-01-01 to 9999-12-31.
pub fn date64_to_date(milliseconds: i64) -> Result<Date, Error>
    ensures { let m = instant_of unit.Millisecond milliseconds in
        Converts (is_civil m) (λ d. epoch_day d ≡ day_of m) result }
{
    date_at(milliseconds.div_euclid(MILLISECONDS_IN_DAY)).ok_or(Error::OutOfRange)
}

/// The time so many seconds after midnight.
///
/// Refused: `OutOfRange` outside 0 to 86399.
pub fn time32s_to_time(v: i32) -> Result<Time, Error>
    ensures { let m = instant_of unit.Second v in
        Converts (is_within_day m) (λ t. pos (time_nanos t) ≡ m) result }
{
    time_of(TimeUnit::Second, i64::from(v)).ok_or(Error::OutOfRange)
}

/// The time so many milliseconds after midnight.
///
/// Refused: `OutOfRange` outside 0 to 86399999.
pub fn time32ms_to_time(v: i32) -> Result<Time, Error>
    ensures { let m = instant_of unit.Millisecond v in
        Converts (is_within_day m) (λ t. pos (time_nanos t) ≡ m) result }
{
    time_of(TimeUnit::Millisecond, i64::from(v)).ok_or(Error::OutOfRange)
}

/// The time so many microseconds after midnight.
///
/// Refused: `OutOfRange` outside 0 to 86399999999.
pub fn time64us_to_time(v: i64) -> Result<Time, Error>
    ensures { let m = instant_of unit.Microsecond v in
        Converts (is_within_day m) (λ t. pos (time_nanos t) ≡ m) result }
{
    time64us_to_time_opt(v).ok_or(Error::OutOfRange)
}

/// The time so many nanoseconds after midnight.
///
/// Refused: `OutOfRange` outside 0 to 86399999999999.
pub fn time64ns_to_time(v: i64) -> Result<Time, Error>
    ensures { let m = instant_of unit.Nanosecond v in
        Converts (is_within_day m) (λ t. pos (time_nanos t) ≡ m) result }
{
    time64ns_to_time_opt(v).ok_or(Error::OutOfRange)
}

/// The time so many microseconds after midnight; `None` outside 0 to 86399999999.
pub fn time64us_to_time_opt(v: i64) -> Option<Time>
    ensures { let m = instant_of unit.Microsecond v in
        ConvertsOrNone (is_within_day m) (λ t. pos (time_nanos t) ≡ m) result }
{
    time_of(TimeUnit::Microsecond, v)
}

/// The time so many nanoseconds after midnight; `None` outside 0 to 86399999999999.
pub fn time64ns_to_time_opt(v: i64) -> Option<Time>
    ensures { let m = instant_of unit.Nanosecond v in
        ConvertsOrNone (is_within_day m) (λ t. pos (time_nanos t) ≡ m) result }
{
    time_of(TimeUnit::Nanosecond, v)
}

/// A length of so many seconds.
pub fn duration_s_to_duration(v: i64) -> SignedDuration
    ensures { signed_nanos result ≡ instant_of unit.Second v }
{
    SignedDuration::from_secs(v)
}

/// A length of so many milliseconds.
pub fn duration_ms_to_duration(v: i64) -> SignedDuration
    ensures { signed_nanos result ≡ instant_of unit.Millisecond v }
{
    SignedDuration::from_millis(v)
}

/// A length of so many microseconds.
pub fn duration_us_to_duration(v: i64) -> SignedDuration
    ensures { signed_nanos result ≡ instant_of unit.Microsecond v }
{
    SignedDuration::from_micros(v)
}

/// A length of so many nanoseconds.
pub fn duration_ns_to_duration(v: i64) -> SignedDuration
    ensures { signed_nanos result ≡ instant_of unit.Nanosecond v }
{
    SignedDuration::from_nanos(v)
}

/// The date-time so many seconds after 1970-01-01 00:00:00.
///
/// Refused: `OutOfRange` where its day is none from -9999-01-01 to 9999-12-31.
pub fn timestamp_s_to_datetime(seconds: i64) -> Result<DateTime, Error>
    ensures { let m = instant_of unit.Second seconds in
        Converts (is_civil m) (IsDateTimeOf m) result }
{
    timestamp_s_to_datetime_opt(seconds).ok_or(Error::OutOfRange)
}

/// The date-time so many milliseconds after 1970-01-01 00:00:00.
///
/// Refused: `OutOfRange` where its day is none from -9999-01-01 to 9999-12-31.
pub fn timestamp_ms_to_datetime(v: i64) -> Result<DateTime, Error>
    ensures { let m = instant_of unit.Millisecond v in
        Converts (is_civil m) (IsDateTimeOf m) result }
{
    timestamp_ms_to_datetime_opt(v).ok_or(Error::OutOfRange)
}

/// The date-time so many microseconds after 1970-01-01 00:00:00.
///
/// Refused: `OutOfRange` where its day is none from -9999-01-01 to 9999-12-31.
pub fn timestamp_us_to_datetime(v: i64) -> Result<DateTime, Error>
    ensures { let m = instant_of unit.Microsecond v in
        Converts (is_civil m) (IsDateTimeOf m) result }
{
    timestamp_us_to_datetime_opt(v).ok_or(Error::OutOfRange)
}

/// The date-time so many nanoseconds after 1970-01-01 00:00:00.
///
/// Refused: `OutOfRange` where its day is none from -9999-01-01 to 9999-12-31.
pub fn timestamp_ns_to_datetime(v: i64) -> Result<DateTime, Error>
    ensures { let m = instant_of unit.Nanosecond v in
        Converts (is_civil m) (IsDateTimeOf m) result }
{
    timestamp_ns_to_datetime_opt(v).ok_or(Error::OutOfRange)
}

/// The date-time so many seconds after 1970-01-01 00:00:00; `None` where its day is none from
/// -9999-01-01 to 9999-12-31.
pub fn timestamp_s_to_datetime_opt(seconds: i64) -> Option<DateTime>
    ensures { let m = instant_of unit.Second seconds in
        ConvertsOrNone (is_civil m) (IsDateTimeOf m) result }
{
    datetime_of(TimeUnit::Second, seconds)
}

/// The date-time so many milliseconds after 1970-01-01 00:00:00; `None` where its day is none from
/// -9999-01-01 to 9999-12-31.
pub fn timestamp_ms_to_datetime_opt(v: i64) -> Option<DateTime>
    ensures { let m = instant_of unit.Millisecond v in
        ConvertsOrNone (is_civil m) (IsDateTimeOf m) result }
{
    datetime_of(TimeUnit::Millisecond, v)
}

/// The date-time so many microseconds after 1970-01-01 00:00:00; `None` where its day is none from
/// -9999-01-01 to 9999-12-31.
pub fn timestamp_us_to_datetime_opt(v: i64) -> Option<DateTime>
    ensures { let m = instant_of unit.Microsecond v in
        ConvertsOrNone (is_civil m) (IsDateTimeOf m) result }
{
    datetime_of(TimeUnit::Microsecond, v)
}

/// The date-time so many nanoseconds after 1970-01-01 00:00:00; `None` where its day is none from
/// -9999-01-01 to 9999-12-31.
pub fn timestamp_ns_to_datetime_opt(v: i64) -> Option<DateTime>
    ensures { let m = instant_of unit.Nanosecond v in
        ConvertsOrNone (is_civil m) (IsDateTimeOf m) result }
{
    datetime_of(TimeUnit::Nanosecond, v)
}

/// The date-time so many units after 1970-01-01 00:00:00.
///
/// Refused: `OutOfRange` where its day is none from -9999-01-01 to 9999-12-31.
pub fn timestamp_to_naive_datetime(timestamp: i64, time_unit: TimeUnit) -> Result<DateTime, Error>
    ensures { let m = instant_of time_unit timestamp in
        Converts (is_civil m) (IsDateTimeOf m) result }
{
    datetime_of(time_unit, timestamp).ok_or(Error::OutOfRange)
}

/// The instant so many units after 1970-01-01 00:00:00 UTC, as a clock of the offset shows it.
///
/// Refused: `OutOfRange` where the day in UTC, or the one that the clock shows, is none from
/// -9999-01-01 to 9999-12-31.
pub fn timestamp_to_datetime(
    timestamp: i64,
    time_unit: TimeUnit,
    timezone: &FixedOffset,
) -> Result<OffsetDateTime, Error>
    ensures { let m = instant_of time_unit timestamp in
        Converts (is_civil m && is_civil (local_instant timezone.now m))
        (ArePartsOf m timezone.now) result }
{
    let (second, nanosecond) = split(time_unit, timestamp);
    zoned_at(second, nanosecond, timezone).ok_or(Error::OutOfRange)
}

// The time so many units after midnight; none outside a day.
fn time_of(unit: TimeUnit, n: i64) -> Option<Time>
    ensures { let m = instant_of unit n in
        ConvertsOrNone (is_within_day m) (λ t. pos (time_nanos t) ≡ m) result }
{
    let (second, nanosecond) = split(unit, n);
    time_at(second, nanosecond)
}

// The time so many seconds and nanoseconds after midnight; none outside a day.
fn time_at(second: i64, nanosecond: u32) -> Option<Time>
    requires { nanosecond < 1_000_000_000 }
    ensures { let m = instant_at second nanosecond in
        ConvertsOrNone (is_within_day m) (λ t. pos (time_nanos t) ≡ m) result }
{
    if second < 0 || second >= SECONDS_IN_DAY {
        return None;
    }
    let time = civil::Time::from_second(second as u32, nanosecond);
    Some(Time::from_plain(time))
}

// The date-time so many units after 1970-01-01 00:00:00.
fn datetime_of(unit: TimeUnit, n: i64) -> Option<DateTime>
    ensures { let m = instant_of unit n in
        ConvertsOrNone (is_civil m) (IsDateTimeOf m) result }
{
    let (second, nanosecond) = split(unit, n);
    datetime_at(second, nanosecond)
}

// The date-time so many seconds and nanoseconds after 1970-01-01 00:00:00.
fn datetime_at(second: i64, nanosecond: u32) -> Option<DateTime>
    requires { nanosecond < 1_000_000_000 }
    ensures { let m = instant_at second nanosecond in
        ConvertsOrNone (is_civil m) (IsDateTimeOf m) result }
{
    let date = date_at(second.div_euclid(SECONDS_IN_DAY))?;
    let time = civil::Time::from_second(second.rem_euclid(SECONDS_IN_DAY) as u32, nanosecond);
    Some(DateTime::from_parts(date, Time::from_plain(time)))
}

// The instant so many seconds and nanoseconds after 1970-01-01 00:00:00 UTC by a clock.
fn zoned_at(second: i64, nanosecond: u32, timezone: &FixedOffset) -> Option<OffsetDateTime>
    requires { nanosecond < 1_000_000_000 }
    ensures { let m = instant_at second nanosecond in
        ConvertsOrNone (is_civil m && is_civil (local_instant timezone.now m))
        (ArePartsOf m timezone.now) result }
{
    let Some(utc) = datetime_at(second, nanosecond) else {
        return None;
    };
    let local = local_second(second, timezone);
    let Some(local) = datetime_at(local, nanosecond) else {
        return None;
    };
    Some(OffsetDateTime::new(utc, local, timezone))
}

// The second that a clock shows.
pub(crate) fn local_second(second: i64, timezone: &FixedOffset) -> i64
    requires { IsBetween (neg_ℤ (pos 377_705_116_800)) (pos 253_402_300_799) second }
    ensures { result ≡ second +ℤ timezone.now }
{
    second + i64::from(timezone.local_minus_utc())
}

// The date of a day number.
fn date_at(day: i64) -> Option<Date>
    ensures { ConvertsOrNone (is_civil_day day) (λ d. epoch_day d ≡ day) result }
{
    match civil::Date::from_unix_epoch_day(day) {
        Ok(date) => Some(Date::from_plain(date)),
        Err(_) => None,
    }
}
