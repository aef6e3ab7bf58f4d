//! Arrays of at most one row, and the first call that answers otherwise than a table says.
use crate::answers::{Answer, CLOCK_PARTS, PARTS, Part, answer_of};
use col_array::AnyArray;
use col_flat::PrimitiveArray;
use col_types::{DataType, Error, Text, TimeUnit};
use std::alloc::Global;

// The type of an array.
#[derive(Clone, Copy, Debug)]
pub(crate) enum Kind {
    Int8,
    Int32,
    Int64,
    Date32,
    Date64,
    Instant(TimeUnit),
    Time32(TimeUnit),
    Time64(TimeUnit),
    Duration(TimeUnit),
}

pub(crate) fn data_type(kind: Kind) -> DataType {
    match kind {
        Kind::Int8 => DataType::Int8,
        Kind::Int32 => DataType::Int32,
        Kind::Int64 => DataType::Int64,
        Kind::Date32 => DataType::Date32,
        Kind::Date64 => DataType::Date64,
        Kind::Instant(unit) => DataType::Timestamp(unit, None),
        Kind::Time32(unit) => DataType::Time32(unit),
        Kind::Time64(unit) => DataType::Time64(unit),
        Kind::Duration(unit) => DataType::Duration(unit),
    }
}

type Slots<'a, T> = &'a [Option<T>];

fn array_8(alloc: Global, data_type: DataType, slots: Slots<i8>) -> Result<AnyArray, Error> {
    let array = PrimitiveArray::from_options(alloc, data_type, slots)?;
    Ok(AnyArray::Int8(array))
}

pub(crate) fn array_32(
    alloc: Global,
    data_type: DataType,
    slots: Slots<i32>,
) -> Result<AnyArray, Error> {
    let array = PrimitiveArray::from_options(alloc, data_type, slots)?;
    Ok(AnyArray::Int32(array))
}

fn array_64(alloc: Global, data_type: DataType, slots: Slots<i64>) -> Result<AnyArray, Error> {
    let array = PrimitiveArray::from_options(alloc, data_type, slots)?;
    Ok(AnyArray::Int64(array))
}

// What a call answers for an array that was made.
fn answer_made(alloc: Global, part: Part, made: Result<AnyArray, Error>) -> Answer {
    match made {
        Ok(array) => answer_of(alloc, part, array),
        Err(_) => Answer::Other,
    }
}

fn made_8(alloc: Global, kind: Kind, value: i64) -> Result<AnyArray, Error> {
    match i8::try_from(value) {
        Ok(value) => array_8(alloc, data_type(kind), &[Some(value)]),
        Err(_) => Err(Error::Overflow),
    }
}

fn made_32(alloc: Global, kind: Kind, value: i64) -> Result<AnyArray, Error> {
    match i32::try_from(value) {
        Ok(value) => array_32(alloc, data_type(kind), &[Some(value)]),
        Err(_) => Err(Error::Overflow),
    }
}

// An array of one number.
fn made(alloc: Global, kind: Kind, value: i64) -> Result<AnyArray, Error> {
    match kind {
        Kind::Int8 => made_8(alloc, kind, value),
        Kind::Int32 | Kind::Date32 | Kind::Time32(_) => made_32(alloc, kind, value),
        Kind::Int64 | Kind::Date64 | Kind::Instant(_) | Kind::Time64(_) | Kind::Duration(_) => {
            array_64(alloc, data_type(kind), &[Some(value)])
        }
    }
}

// What a call answers for one number.
pub(crate) fn answer_at(alloc: Global, part: Part, kind: Kind, value: i64) -> Answer {
    answer_made(alloc, part, made(alloc, kind, value))
}

// What a call answers for one day, or for a null.
pub(crate) fn answer_on(alloc: Global, part: Part, day: Option<i32>) -> Answer {
    answer_made(alloc, part, array_32(alloc, DataType::Date32, &[day]))
}

// What a call answers for slots of 64 bits.
pub(crate) fn answer_for(alloc: Global, part: Part, kind: Kind, slots: Slots<i64>) -> Answer {
    answer_made(alloc, part, array_64(alloc, data_type(kind), slots))
}

fn zoned(alloc: Global, unit: TimeUnit, zone: &str, slots: Slots<i64>) -> Result<AnyArray, Error> {
    let zone = Text::new(alloc, zone)?;
    array_64(alloc, DataType::Timestamp(unit, Some(zone)), slots)
}

// What a call answers for instants in a zone.
pub(crate) fn answer_in(
    alloc: Global,
    part: Part,
    unit: TimeUnit,
    zone: &str,
    slots: Slots<i64>,
) -> Answer {
    answer_made(alloc, part, zoned(alloc, unit, zone, slots))
}

// The first part of a number that is another than wanted.
pub(crate) fn first_wrong(alloc: Global, kind: Kind, value: i64, wanted: [i64; 9]) -> Option<Part> {
    for (part, number) in PARTS.into_iter().zip(wanted) {
        if answer_at(alloc, part, kind, value) != Answer::Is(number) {
            return Some(part);
        }
    }
    None
}

// The first part of a clock that is another than wanted.
pub(crate) fn first_wrong_of_clock(
    alloc: Global,
    kind: Kind,
    value: i64,
    wanted: [i64; 4],
) -> Option<Part> {
    for (part, number) in CLOCK_PARTS.into_iter().zip(wanted) {
        if answer_at(alloc, part, kind, value) != Answer::Is(number) {
            return Some(part);
        }
    }
    None
}

// The first part of a number that is not answered as wanted.
pub(crate) fn first_not(
    alloc: Global,
    parts: &[Part],
    kind: Kind,
    value: i64,
    wanted: Answer,
) -> Option<Part> {
    for part in parts {
        if answer_at(alloc, *part, kind, value) != wanted {
            return Some(*part);
        }
    }
    None
}
