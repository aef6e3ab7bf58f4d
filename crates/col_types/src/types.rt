//! The native types of intervals: several numbers in one value.
ghost use Rattle.std.specs.Prelude.{◌≡◌};
ghost use Rattle.col_types.specs.Intervals.{DayTime, MonthDayTime};

use std::marker::Model;

/// A span of days and milliseconds, each with a sign of its own: a slot of `Interval(DayTime)`.
///
/// Source: the Arrow columnar format, `IntervalUnit` in "Schema.fbs".
#[derive(Clone, Copy, Debug, PartialEq, Eq, Hash)]
pub struct days_ms {
    days: i32,
    milliseconds: i32,
}

impl Model for days_ms {
    ghost Value = { DayTime };

    ghost view = { λ x. record { days = x.days; milliseconds = x.milliseconds } };

    ghost inverse = { λ x. record { days = x.days; milliseconds = x.milliseconds } };
}

impl days_ms {
    /// The span of so many days and milliseconds.
    pub fn new(days: i32, milliseconds: i32) -> days_ms
        ensures { result ≡ record { days = days; milliseconds = milliseconds } }
    {
        days_ms { days, milliseconds }
    }

    /// The days.
    pub fn days(&self) -> i32
        ensures { result ≡ self.now.days }
    {
        self.days
    }

    /// The milliseconds.
    pub fn milliseconds(&self) -> i32
        ensures { result ≡ self.now.milliseconds }
    {
        self.milliseconds
    }
}

/// A span of months, days and nanoseconds, each with a sign of its own: a slot of
/// `Interval(MonthDayNano)`.
///
/// Source: the Arrow columnar format, `IntervalUnit` in "Schema.fbs".
#[derive(Clone, Copy, Debug, PartialEq, Eq, Hash)]
pub struct months_days_ns {
    months: i32,
    days: i32,
    ns: i64,
}

impl Model for months_days_ns {
    ghost Value = { MonthDayTime };

    ghost view = { λ x. record { months = x.months; days = x.days; ns = x.ns } };

    ghost inverse = { λ x. record { months = x.months; days = x.days; ns = x.ns } };
}

impl months_days_ns {
    /// The span of so many months, days and nanoseconds.
    pub fn new(months: i32, days: i32, ns: i64) -> months_days_ns
        ensures { result ≡ record { months = months; days = days; ns = ns } }
    {
        months_days_ns { months, days, ns }
    }

    /// The months.
    pub fn months(&self) -> i32
        ensures { result ≡ self.now.months }
    {
        self.months
    }

    /// The days.
    pub fn days(&self) -> i32
        ensures { result ≡ self.now.days }
    {
        self.days
    }

    /// The nanoseconds.
    pub fn ns(&self) -> i64
        ensures { result ≡ self.now.ns }
    {
        self.ns
    }
}
