//! The nine calls, and what each answers for an array.
use col_array::AnyArray;
use col_calendar::{day, hour, iso_week, minute, month, nanosecond, second, weekday, year};
use col_flat::PrimitiveArray;
use col_types::{DataType, Error, Reason};
use std::alloc::Global;

// What a call answers for one row.
#[derive(Clone, Copy, Debug, PartialEq)]
pub(crate) enum Answer {
    Is(i64),
    Null,
    NoRow,
    OutOfRange,
    Zone,
    NotYetImplemented,
    Other,
}

// The nine calls.
#[derive(Clone, Copy, Debug, PartialEq)]
pub(crate) enum Part {
    Year,
    Month,
    Day,
    Weekday,
    Week,
    Hour,
    Minute,
    Second,
    Nanosecond,
}

// The parts of a day, in the order of the tables.
pub(crate) const DAY_PARTS: [Part; 5] = [
    Part::Year,
    Part::Month,
    Part::Day,
    Part::Weekday,
    Part::Week,
];

// The parts of a clock, in the order of the tables.
pub(crate) const CLOCK_PARTS: [Part; 4] = [
    Part::Hour,
    Part::Minute,
    Part::Second,
    Part::Nanosecond,
];

// All parts, in the order of the tables.
pub(crate) const PARTS: [Part; 9] = [
    Part::Year,
    Part::Month,
    Part::Day,
    Part::Weekday,
    Part::Week,
    Part::Hour,
    Part::Minute,
    Part::Second,
    Part::Nanosecond,
];

fn refusal(error: Error) -> Answer {
    match error {
        Error::OutOfRange => Answer::OutOfRange,
        Error::InvalidArgumentError(Reason::Zone) => Answer::Zone,
        Error::NotYetImplemented => Answer::NotYetImplemented,
        _ => Answer::Other,
    }
}

// The first of at most one row of `UInt32`.
fn only(array: PrimitiveArray<u32>) -> Answer {
    if array.len() > 1 || !array.data_type().equal(&DataType::UInt32) {
        return Answer::Other;
    }
    if array.len() == 0 {
        return Answer::NoRow;
    }
    match array.get(0) {
        Some(number) => Answer::Is(i64::from(number)),
        None => Answer::Null,
    }
}

// The first of at most one row of `Int32`.
fn only_year(array: PrimitiveArray<i32>) -> Answer {
    if array.len() > 1 || !array.data_type().equal(&DataType::Int32) {
        return Answer::Other;
    }
    if array.len() == 0 {
        return Answer::NoRow;
    }
    match array.get(0) {
        Some(number) => Answer::Is(i64::from(number)),
        None => Answer::Null,
    }
}

fn told(made: Result<PrimitiveArray<u32>, Error>) -> Answer {
    match made {
        Ok(array) => only(array),
        Err(error) => refusal(error),
    }
}

fn told_year(made: Result<PrimitiveArray<i32>, Error>) -> Answer {
    match made {
        Ok(array) => only_year(array),
        Err(error) => refusal(error),
    }
}

// What a call answers for an array of at most one row.
pub(crate) fn answer_of(alloc: Global, part: Part, array: AnyArray) -> Answer {
    match part {
        Part::Year => told_year(year(alloc, &array)),
        Part::Month => told(month(alloc, &array)),
        Part::Day => told(day(alloc, &array)),
        Part::Weekday => told(weekday(alloc, &array)),
        Part::Week => told(iso_week(alloc, &array)),
        Part::Hour => told(hour(alloc, &array)),
        Part::Minute => told(minute(alloc, &array)),
        Part::Second => told(second(alloc, &array)),
        Part::Nanosecond => told(nanosecond(alloc, &array)),
    }
}
