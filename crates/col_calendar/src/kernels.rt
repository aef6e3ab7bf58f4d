//! The kernels that take a part, for any part: by the array's type, its zone, and each row.
ghost use Rattle.std.specs.Prelude.{◌≡◌, ◌<◌, ℕ, IsTrue, Result, Some, true};
ghost use Rattle.col_types.specs.declared.error.Error.{Error};
ghost use Rattle.col_model.specs.Cell.{whole};
ghost use Rattle.col_types.specs.Answer.{Answers, as_errors};
ghost use Rattle.col_types.specs.DataKind.{kind_of};
ghost use Rattle.col_flat.specs.Parts.{column_of, slots_of};
ghost use Rattle.col_arity.specs.Answered.{plain_cell};
ghost use Rattle.col_arity.specs.Rows.{IsCallableAtValid};
ghost use Rattle.col_array.specs.Any.{any_column};
ghost use Rattle.col_calendar.specs.Civil.{instant_at, instant_of, midnight_of};
ghost use Rattle.col_calendar.specs.Conversion.{is_civil};
ghost use Rattle.col_calendar.specs.Offset.{zone_answer};
ghost use Rattle.col_calendar.specs.Part.{can_part, clock_step, instant_step, instant_unit_of};
ghost use Rattle.col_calendar.specs.Part.{number_step, offset_of_type, part_answer, part_cell};
ghost use Rattle.col_calendar.specs.Part.{parts_by, time_unit_of};

use crate::offset::{FixedOffset, parse_offset};
use crate::parts::CivilPart;
use crate::temporal_conversions::{SECONDS_IN_DAY, local_second};
use crate::units::split;
use col_arity::try_unary;
use col_array::AnyArray;
use col_flat::PrimitiveArray;
use col_types::{DataType, Error, NativeWhole, TimeUnit};
use std::alloc::Global;

// The first second of -9999-01-01, and the last of 9999-12-31.
const FIRST_SECOND: i64 = -377_705_116_800;

const LAST_SECOND: i64 = 253_402_300_799;

// Whether columns of the type have the part.
pub(crate) fn has_part<O: NativeWhole, P: CivilPart<O>>(data_type: &DataType) -> bool
    ensures { result ≡ can_part P.part (kind_of data_type.now) }
{
    match data_type {
        DataType::Date32 | DataType::Date64 | DataType::Timestamp(_, _) => true,
        DataType::Time32(_) | DataType::Time64(_) => P::is_of_clock() && data_type.is_carried(),
        _ => false,
    }
}

// The parts of an array of any type.
pub(crate) fn parts_of<O: NativeWhole, P: CivilPart<O>>(
    alloc: Global,
    array: &AnyArray,
) -> Result<PrimitiveArray<O>, Error>
    ensures answer { Answers column_of result (part_answer P.part (any_column array.now)) }
{
    let data_type = array.data_type();
    if !has_part::<O, P>(data_type) {
        return Err(Error::NotYetImplemented);
    }
    match zone_of(data_type) {
        Ok(zone) => parts_in_zone::<O, P>(alloc, &zone, array),
        Err(refused) => Err(refused),
    }
}

// The parts of an array of a type that has them, by its offset.
fn parts_in_zone<O: NativeWhole, P: CivilPart<O>>(
    alloc: Global,
    zone: &FixedOffset,
    array: &AnyArray,
) -> Result<PrimitiveArray<O>, Error>
    requires { can_part P.part (any_column array.now).data_type ≡ true }
    ensures answer { Answers column_of result
        (parts_by P.part (any_column array.now) (Some zone.now)) }
{
    // That its type fits its layout is known from here on: no other layout has parts.
    let _data_type = array.data_type();
    match array {
        AnyArray::Int32(array) => parts_of_32::<O, P>(alloc, zone, array),
        AnyArray::Int64(array) => parts_of_64::<O, P>(alloc, zone, array),
        _ => Err(Error::NotYetImplemented),
    }
}

// The offset by which columns of the type are read.
fn zone_of(data_type: &DataType) -> Result<FixedOffset, Error>
    ensures { result ≡ zone_answer (offset_of_type (kind_of data_type.now)) }
{
    match data_type {
        DataType::Timestamp(_, Some(zone)) => parse_offset(zone.as_str()),
        _ => Ok(FixedOffset::utc()),
    }
}

// The unit of times of day; none of another type.
fn time_unit(data_type: &DataType) -> Option<TimeUnit>
    ensures { result ≡ time_unit_of (kind_of data_type.now) }
{
    match data_type {
        DataType::Time32(unit) => Some(*unit),
        DataType::Time64(unit) => Some(*unit),
        _ => None,
    }
}

// The unit of instants of 64 bits.
fn instant_unit(data_type: &DataType) -> TimeUnit
    ensures { result ≡ instant_unit_of (kind_of data_type.now) }
{
    match data_type {
        DataType::Timestamp(unit, _) => *unit,
        _ => TimeUnit::Millisecond,
    }
}

// The parts of an array of 32 bits: of dates, or of times of day.
fn parts_of_32<O: NativeWhole, P: CivilPart<O>>(
    alloc: Global,
    zone: &FixedOffset,
    array: &PrimitiveArray<i32>,
) -> Result<PrimitiveArray<O>, Error>
    requires { can_part P.part (column_of array.now).data_type ≡ true }
    ensures answer { Answers column_of result
        (parts_by P.part (column_of array.now) (Some zone.now)) }
{
    match time_unit(array.data_type()) {
        Some(unit) => {
            let op = |_: &FixedOffset, n: i32| part_of_time::<O, P>(unit, i64::from(n));
            parts_of_numbers::<i32, O, P, _>(alloc, zone, array, op)
        }
        None => {
            let op = |zone: &FixedOffset, n: i32| -> Result<O, Error>
                ensures { plain_cell (λ x. whole (O.value x)) result
                    ≡ as_errors (instant_step P.part zone.now (midnight_of n)) }
            { part_of_day::<O, P>(zone, n) };
            parts_of_numbers::<i32, O, P, _>(alloc, zone, array, op)
        }
    }
}

// The parts of an array of 64 bits: of instants, or of times of day.
fn parts_of_64<O: NativeWhole, P: CivilPart<O>>(
    alloc: Global,
    zone: &FixedOffset,
    array: &PrimitiveArray<i64>,
) -> Result<PrimitiveArray<O>, Error>
    requires { can_part P.part (column_of array.now).data_type ≡ true }
    ensures answer { Answers column_of result
        (parts_by P.part (column_of array.now) (Some zone.now)) }
{
    match time_unit(array.data_type()) {
        Some(unit) => {
            let op = |_: &FixedOffset, n: i64| part_of_time::<O, P>(unit, n);
            parts_of_numbers::<i64, O, P, _>(alloc, zone, array, op)
        }
        None => {
            let unit = instant_unit(array.data_type());
            let op = |zone: &FixedOffset, n: i64| part_of_unit::<O, P>(unit, zone, n);
            parts_of_numbers::<i64, O, P, _>(alloc, zone, array, op)
        }
    }
}

// The parts of numbers, by a closure that takes the part of one.
fn parts_of_numbers<
    I: NativeWhole,
    O: NativeWhole,
    P: CivilPart<O>,
    F: Fn(&FixedOffset, I) -> Result<O, Error>,
>(
    alloc: Global,
    zone: &FixedOffset,
    array: &PrimitiveArray<I>,
    op: F,
) -> Result<PrimitiveArray<O>, Error>
    requires callable { IsCallableAtValid I.numbers (λ n. F.pre op zone n) (slots_of array.now) }
    requires step { (n : I) (r : Result O Error) → F.post op zone n r
        → plain_cell (λ x. whole (O.value x)) r
        ≡ as_errors (number_step P.part (column_of array.now).data_type zone.now (I.value n)) }
    ensures answer { Answers column_of result
        (parts_by P.part (column_of array.now) (Some zone.now)) }
{
    let each = |n: I| -> Result<O, Error>
        requires { F.pre op zone n }
        ensures { F.post op zone.entry n result }
    { op(zone, n) };
    try_unary(alloc, array, each, P::data_type())
}

// The part of a day's midnight.
fn part_of_day<O: NativeWhole, P: CivilPart<O>>(zone: &FixedOffset, n: i32) -> Result<O, Error>
    ensures { plain_cell (λ x. whole (O.value x)) result
        ≡ as_errors (instant_step P.part zone.now (midnight_of n)) }
{
    part_of_instant::<O, P>(zone, i64::from(n) * SECONDS_IN_DAY, 0)
}

// The part of an instant of so many units.
fn part_of_unit<O: NativeWhole, P: CivilPart<O>>(
    unit: TimeUnit,
    zone: &FixedOffset,
    n: i64,
) -> Result<O, Error>
    ensures { plain_cell (λ x. whole (O.value x)) result
        ≡ as_errors (instant_step P.part zone.now (instant_of unit n)) }
{
    let (second, nanosecond) = split(unit, n);
    part_of_instant::<O, P>(zone, second, nanosecond)
}

// The part of a time of day, of so many units since midnight.
fn part_of_time<O: NativeWhole, P: CivilPart<O>>(unit: TimeUnit, n: i64) -> Result<O, Error>
    ensures { plain_cell (λ x. whole (O.value x)) result
        ≡ as_errors (clock_step P.part (instant_of unit n)) }
{
    let (second, nanosecond) = split(unit, n);
    if second < 0 || second >= SECONDS_IN_DAY {
        return Err(Error::OutOfRange);
    }
    Ok(P::of(0, second as u32, nanosecond))
}

// The part of an instant as a clock shows it.
fn part_of_instant<O: NativeWhole, P: CivilPart<O>>(
    zone: &FixedOffset,
    second: i64,
    nanosecond: u32,
) -> Result<O, Error>
    requires { nanosecond < 1_000_000_000 }
    ensures { plain_cell (λ x. whole (O.value x)) result
        ≡ as_errors (instant_step P.part zone.now (instant_at second nanosecond)) }
{
    if !has_date(second) {
        return Err(Error::OutOfRange);
    }
    let local = local_second(second, zone);
    if !has_date(local) {
        return Err(Error::OutOfRange);
    }
    Ok(part_of_second::<O, P>(local, nanosecond))
}

// Whether the day of a second has a date.
fn has_date(second: i64) -> bool
    ensures { (n : ℕ) → n < 1_000_000_000 → result ≡ is_civil (instant_at second n) }
{
    second >= FIRST_SECOND && second <= LAST_SECOND
}

// The part of an instant whose day has a date.
fn part_of_second<O: NativeWhole, P: CivilPart<O>>(second: i64, nanosecond: u32) -> O
    requires nanosecond { nanosecond < 1_000_000_000 }
    requires civil { IsTrue (is_civil (instant_at second nanosecond)) }
    ensures { whole (O.value result) ≡ part_cell P.part (instant_at second nanosecond) }
{
    let time = second.rem_euclid(SECONDS_IN_DAY) as u32;
    P::of(second.div_euclid(SECONDS_IN_DAY), time, nanosecond)
}
