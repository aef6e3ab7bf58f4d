//! The civil calendar: dates, times, offsets, and the parts of columns of them.
#![tactic(auto)]

mod kernels;
pub mod laws;
mod offset;
mod parts;
mod temporal;
mod temporal_conversions;
mod units;

pub use offset::{FixedOffset, OffsetDateTime, parse_offset};
pub use temporal::{
    can_day, can_hour, can_iso_week, can_minute, can_month, can_nanosecond, can_second,
    can_weekday, can_year, day, hour, iso_week, minute, month, nanosecond, second, weekday, year,
};
pub use temporal_conversions::{
    EPOCH_DAYS_FROM_CE, MICROSECONDS, MILLISECONDS, MILLISECONDS_IN_DAY, NANOSECONDS,
    SECONDS_IN_DAY, date32_to_date, date32_to_date_opt, date32_to_datetime, date32_to_datetime_opt,
    date64_to_date, date64_to_datetime, duration_ms_to_duration, duration_ns_to_duration,
    duration_s_to_duration, duration_us_to_duration, time32ms_to_time, time32s_to_time,
    time64ns_to_time, time64ns_to_time_opt, time64us_to_time, time64us_to_time_opt,
    timestamp_ms_to_datetime, timestamp_ms_to_datetime_opt, timestamp_ns_to_datetime,
    timestamp_ns_to_datetime_opt, timestamp_s_to_datetime, timestamp_s_to_datetime_opt,
    timestamp_to_datetime, timestamp_to_naive_datetime, timestamp_us_to_datetime,
    timestamp_us_to_datetime_opt,
};
pub use units::timeunit_scale;
