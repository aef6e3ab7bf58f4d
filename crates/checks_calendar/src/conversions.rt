//! Dates, times and date-times of numbers.
use col_calendar::{
    EPOCH_DAYS_FROM_CE, FixedOffset, OffsetDateTime, date32_to_date, date32_to_date_opt,
    date32_to_datetime, date32_to_datetime_opt, date64_to_date, date64_to_datetime,
    duration_ms_to_duration, duration_ns_to_duration, duration_s_to_duration,
    duration_us_to_duration, time32ms_to_time, time32s_to_time, time64ns_to_time,
    time64ns_to_time_opt, time64us_to_time, time64us_to_time_opt, timestamp_ms_to_datetime,
    timestamp_ms_to_datetime_opt, timestamp_ns_to_datetime, timestamp_ns_to_datetime_opt,
    timestamp_s_to_datetime, timestamp_s_to_datetime_opt, timestamp_to_datetime,
    timestamp_to_naive_datetime, timestamp_us_to_datetime, timestamp_us_to_datetime_opt,
    timeunit_scale,
};
use col_types::{Error, TimeUnit};
use jiff::civil::{Date, DateTime, Time};

// The date-time of a year, a month, a day, an hour, a minute, a second and a nanosecond.
type Parts = (i16, i8, i8, i8, i8, i8, i32);

fn datetime(parts: Parts) -> Option<DateTime> {
    let (year, month, day, hour, minute, second, nanosecond) = parts;
    DateTime::new(year, month, day, hour, minute, second, nanosecond).ok()
}

// Whether the four calls give the date of a day, and its midnight.
fn day_is(number: i32, wanted: (i16, i8, i8)) -> [bool; 4] {
    let (year, month, day) = wanted;
    let date = Date::new(year, month, day).ok();
    let midnight = datetime((year, month, day, 0, 0, 0, 0));
    [
        date32_to_date(number).ok() == date,
        date32_to_date_opt(number) == date,
        date32_to_datetime(number).ok() == midnight,
        date32_to_datetime_opt(number) == midnight,
    ]
}

#[test]
fn a_day_number_has_its_date(rt: HostRuntime) {
    let cases = [
        (2_932_896, (9999, 12, 31)),
        (-4_371_587, (-9999, 1, 1)),
        (11_016, (2000, 2, 29)),
        (-1, (1969, 12, 31)),
        (1 - EPOCH_DAYS_FROM_CE, (1, 1, 1)),
    ];
    for (day, wanted) in cases {
        assert_eq!(rt; day_is(day, wanted), [true; 4], "{day}");
    }
}

#[test]
fn days_past_the_ends_have_no_date(rt: HostRuntime) {
    let refused = Some(Error::OutOfRange);
    for day in [2_932_897, -4_371_588, i32::MIN, i32::MAX] {
        assert_eq!(rt; date32_to_date(day).err(), refused, "{day}");
        assert!(rt; date32_to_date_opt(day).is_none(), "{day}");
        assert_eq!(rt; date32_to_datetime(day).err(), refused, "{day}");
        assert!(rt; date32_to_datetime_opt(day).is_none(), "{day}");
    }
}

// A call that gives a date-time of 64 bits.
#[derive(Clone, Copy, Debug)]
enum Call {
    Date64,
    Second,
    Millisecond,
    Microsecond,
    Nanosecond,
    Naive(TimeUnit),
}

fn answer(call: Call, n: i64) -> Result<DateTime, Error> {
    match call {
        Call::Date64 => date64_to_datetime(n),
        Call::Second => timestamp_s_to_datetime(n),
        Call::Millisecond => timestamp_ms_to_datetime(n),
        Call::Microsecond => timestamp_us_to_datetime(n),
        Call::Nanosecond => timestamp_ns_to_datetime(n),
        Call::Naive(unit) => timestamp_to_naive_datetime(n, unit),
    }
}

// The same of its twin that gives an option, where it has one.
fn optional(call: Call, n: i64) -> Option<DateTime> {
    match call {
        Call::Second => timestamp_s_to_datetime_opt(n),
        Call::Millisecond => timestamp_ms_to_datetime_opt(n),
        Call::Microsecond => timestamp_us_to_datetime_opt(n),
        Call::Nanosecond => timestamp_ns_to_datetime_opt(n),
        Call::Date64 | Call::Naive(_) => answer(call, n).ok(),
    }
}

#[test]
fn an_instant_has_its_date_time(rt: HostRuntime) {
    let cases = [
        (Call::Date64, -1, (1969, 12, 31, 23, 59, 59, 999_000_000)),
        (Call::Second, -1, (1969, 12, 31, 23, 59, 59, 0)),
        (
            Call::Millisecond,
            -1,
            (1969, 12, 31, 23, 59, 59, 999_000_000),
        ),
        (
            Call::Microsecond,
            -1,
            (1969, 12, 31, 23, 59, 59, 999_999_000),
        ),
        (
            Call::Nanosecond,
            -1,
            (1969, 12, 31, 23, 59, 59, 999_999_999),
        ),
        (
            Call::Naive(TimeUnit::Microsecond),
            -1,
            (1969, 12, 31, 23, 59, 59, 999_999_000),
        ),
        (Call::Second, 253_402_300_799, (9999, 12, 31, 23, 59, 59, 0)),
        (Call::Second, -377_705_116_800, (-9999, 1, 1, 0, 0, 0, 0)),
        // the ends of 64 bits, by Python's integers and its datetime
        (
            Call::Nanosecond,
            i64::MAX,
            (2262, 4, 11, 23, 47, 16, 854_775_807),
        ),
        (
            Call::Nanosecond,
            i64::MIN + 1,
            (1677, 9, 21, 0, 12, 43, 145_224_193),
        ),
    ];
    for (call, n, wanted) in cases {
        assert!(rt; answer(call, n).ok() == datetime(wanted), "{call:?} {n}");
        assert!(rt; optional(call, n) == datetime(wanted), "{call:?} {n}");
    }
}

#[test]
fn an_instant_past_the_ends_has_no_date_time(rt: HostRuntime) {
    let cases = [
        (Call::Date64, 253_402_300_800_000),
        (Call::Date64, i64::MIN),
        (Call::Second, 253_402_300_800),
        (Call::Second, -377_705_116_801),
        (Call::Second, i64::MIN),
        (Call::Millisecond, 253_402_300_800_000),
        (Call::Microsecond, 253_402_300_800_000_000),
        (Call::Naive(TimeUnit::Second), i64::MAX),
    ];
    for (call, n) in cases {
        assert_eq!(rt;
            answer(call, n).err(),
            Some(Error::OutOfRange),
            "{call:?} {n}"
        );
        assert!(rt; optional(call, n).is_none(), "{call:?} {n}");
    }
}

#[test]
fn milliseconds_have_the_date_of_their_day(rt: HostRuntime) {
    let cases = [
        (-1, Date::new(1969, 12, 31).ok()),
        (86_400_000, Date::new(1970, 1, 2).ok()),
        (253_402_300_799_999, Date::new(9999, 12, 31).ok()),
    ];
    for (n, wanted) in cases {
        assert!(rt; date64_to_date(n).ok() == wanted, "{n}");
    }
    for n in [253_402_300_800_000, i64::MIN] {
        assert_eq!(rt; date64_to_date(n).err(), Some(Error::OutOfRange), "{n}");
    }
}

// A call that gives a time of day.
#[derive(Clone, Copy, Debug)]
enum Clock {
    Second,
    Millisecond,
    Microsecond,
    Nanosecond,
}

// What a call gives for so many units, of 32 bits where it takes these.
fn time_of(clock: Clock, short: i32, n: i64) -> Result<Time, Error> {
    match clock {
        Clock::Second => time32s_to_time(short),
        Clock::Millisecond => time32ms_to_time(short),
        Clock::Microsecond => time64us_to_time(n),
        Clock::Nanosecond => time64ns_to_time(n),
    }
}

// The same of its twin that gives an option, where it has one.
fn optional_time(clock: Clock, short: i32, n: i64) -> Option<Time> {
    match clock {
        Clock::Microsecond => time64us_to_time_opt(n),
        Clock::Nanosecond => time64ns_to_time_opt(n),
        Clock::Second | Clock::Millisecond => time_of(clock, short, n).ok(),
    }
}

#[test]
fn a_time_lies_within_a_day(rt: HostRuntime) {
    let cases = [
        (Clock::Second, 86_399, 0, (23, 59, 59, 0)),
        (Clock::Millisecond, 1, 0, (0, 0, 0, 1_000_000)),
        (
            Clock::Microsecond,
            0,
            86_399_999_999,
            (23, 59, 59, 999_999_000),
        ),
        (Clock::Nanosecond, 0, 1, (0, 0, 0, 1)),
    ];
    for (clock, short, n, (hour, minute, second, nanosecond)) in cases {
        let wanted = Time::new(hour, minute, second, nanosecond).ok();
        assert!(rt;
            time_of(clock, short, n).ok() == wanted,
            "{clock:?} {short} {n}"
        );
        assert!(rt;
            optional_time(clock, short, n) == wanted,
            "{clock:?} {short} {n}"
        );
    }
    let cases = [
        (Clock::Second, 86_400, 0),
        (Clock::Second, -1, 0),
        (Clock::Millisecond, -1, 0),
        (Clock::Millisecond, 86_400_000, 0),
        (Clock::Microsecond, 0, -1),
        (Clock::Nanosecond, 0, 86_400_000_000_000),
    ];
    for (clock, short, n) in cases {
        let refusal = time_of(clock, short, n).err();
        assert_eq!(rt; refusal, Some(Error::OutOfRange), "{clock:?} {short} {n}");
        assert!(rt;
            optional_time(clock, short, n).is_none(),
            "{clock:?} {short} {n}"
        );
    }
}

#[test]
fn a_duration_has_its_length(rt: HostRuntime) {
    assert_eq!(rt;
        duration_s_to_duration(i64::MIN).as_secs(),
        i64::MIN,
        "seconds"
    );
    assert_eq!(rt;
        duration_ms_to_duration(-1_500).as_nanos(),
        -1_500_000_000,
        "milliseconds"
    );
    assert_eq!(rt;
        duration_us_to_duration(7).as_nanos(),
        7_000,
        "microseconds"
    );
    assert_eq!(rt; duration_ns_to_duration(7).as_nanos(), 7, "nanoseconds");
}

// An instant's date-times and its offset.
fn told(instant: OffsetDateTime) -> (DateTime, DateTime, i32) {
    (
        instant.naive_utc(),
        instant.naive_local(),
        instant.offset().local_minus_utc(),
    )
}

// What a clock so many seconds east of UTC shows of an instant.
fn shown(n: i64, unit: TimeUnit, seconds: i32) -> Result<OffsetDateTime, Error> {
    match FixedOffset::east_opt(seconds) {
        Some(zone) => timestamp_to_datetime(n, unit, &zone),
        None => Err(Error::OutOfSpec),
    }
}

// Whether it shows these date-times, in UTC and its own, and its offset.
fn is_shown(n: i64, unit: TimeUnit, seconds: i32, utc: Parts, local: Parts) -> bool {
    match shown(n, unit, seconds) {
        Ok(instant) => {
            let told = told(instant);
            Some(told.0) == datetime(utc) && Some(told.1) == datetime(local) && told.2 == seconds
        }
        Err(_) => false,
    }
}

#[test]
fn a_clock_shows_an_instant(rt: HostRuntime) {
    let cases = [
        (
            0,
            TimeUnit::Second,
            -5_400,
            (1970, 1, 1, 0, 0, 0, 0),
            (1969, 12, 31, 22, 30, 0, 0),
        ),
        (
            -1,
            TimeUnit::Nanosecond,
            86_399,
            (1969, 12, 31, 23, 59, 59, 999_999_999),
            (1970, 1, 1, 23, 59, 58, 999_999_999),
        ),
    ];
    for (n, unit, seconds, utc, local) in cases {
        assert!(rt;
            is_shown(n, unit, seconds, utc, local),
            "{n} and {seconds} seconds"
        );
    }
}

#[test]
fn both_date_times_lie_in_range(rt: HostRuntime) {
    // of the first two the date-time in UTC is past an end, of the others the one that is shown
    let cases = [
        (-377_705_116_801, TimeUnit::Second, 5_400),
        (253_402_300_800_000, TimeUnit::Millisecond, -5_400),
        (-377_705_116_800, TimeUnit::Second, -5_400),
        (253_402_300_799_999, TimeUnit::Millisecond, 5_400),
    ];
    for (n, unit, seconds) in cases {
        let refusal = shown(n, unit, seconds).err();
        assert_eq!(rt;
            refusal,
            Some(Error::OutOfRange),
            "{n} and {seconds} seconds"
        );
    }
}

#[test]
fn units_have_a_scale(rt: HostRuntime) {
    let cases = [
        (TimeUnit::Second, TimeUnit::Millisecond, (1, 1_000)),
        (TimeUnit::Nanosecond, TimeUnit::Millisecond, (1_000_000, 1)),
        (TimeUnit::Microsecond, TimeUnit::Microsecond, (1, 1)),
    ];
    for (a, b, wanted) in cases {
        assert_eq!(rt; timeunit_scale(a, b), wanted, "{a:?} over {b:?}");
    }
}
