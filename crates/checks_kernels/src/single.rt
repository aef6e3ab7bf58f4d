//! Checks of calls on one array: negatives, powers and the other bits, each call once, with arrow2's
//! own vectors among them.
use crate::calls::{Bytes, Slots, bytes_of, is_wanted};
use col_basic::bitwise::not;
use col_basic::{checked_negate, checked_powf_scalar, negate, wrapping_negate};
use col_flat::PrimitiveArray;
use col_types::{DataType, Error, IntervalUnit, NativeNegate, days_ms, months_days_ns};
use std::alloc::Global;

// A call on one array.
#[derive(Clone, Copy, Debug)]
enum Call {
    Negate,
    CheckedNegate,
    WrappingNegate,
    Power(usize),
    Not,
}

fn of_one(alloc: Global, call: Call, array: &Bytes) -> Result<Bytes, Error> {
    match call {
        Call::Negate => negate(alloc, array),
        Call::CheckedNegate => checked_negate(alloc, array),
        Call::WrappingNegate => wrapping_negate(alloc, array),
        Call::Power(exponent) => checked_powf_scalar(alloc, array, exponent),
        Call::Not => not(alloc, array),
    }
}

// Whether a call on an array of these slots answers as wanted.
fn one_answers(alloc: Global, call: Call, slots: Slots, wanted: Result<Slots, Error>) -> bool {
    match bytes_of(alloc, slots) {
        Ok(array) => is_wanted(alloc, of_one(alloc, call, &array), wanted),
        Err(_) => false,
    }
}

#[test]
fn each_call_on_one_array_answers_with_ample_memory(rt: HostRuntime) {
    let slots = [None, Some(6), Some(-127), Some(7)];
    let cases = [
        (Call::Negate, [None, Some(-6), Some(127), Some(-7)]),
        (Call::CheckedNegate, [None, Some(-6), Some(127), Some(-7)]),
        (Call::WrappingNegate, [None, Some(-6), Some(127), Some(-7)]),
        (Call::Not, [None, Some(-7), Some(126), Some(-8)]),
        (Call::Power(1), slots),
    ];
    for (call, wanted) in cases {
        assert!(rt;
            one_answers(rt.alloc(), call, &slots, Ok(&wanted)),
            "{call:?}"
        );
    }
}

#[test]
fn the_least_number_has_no_negative(rt: HostRuntime) {
    let slots = [None, Some(-128)];
    let over = Err(Error::Overflow);
    assert!(rt;
        one_answers(rt.alloc(), Call::Negate, &slots, over),
        "plain"
    );
    let cases = [
        (Call::CheckedNegate, [None, None]),
        (Call::WrappingNegate, [None, Some(-128)]),
    ];
    for (call, wanted) in cases {
        assert!(rt;
            one_answers(rt.alloc(), call, &slots, Ok(&wanted)),
            "{call:?}"
        );
    }
}

#[test]
fn a_power_that_does_not_fit_is_null(rt: HostRuntime) {
    // the exponent, the slots, and their powers
    let cases = [
        (
            8,
            [Some(1), Some(7), None, Some(-1)],
            [Some(1), None, None, Some(1)],
        ),
        (
            7,
            [Some(2), Some(-2), Some(0), None],
            [None, Some(-128), Some(0), None],
        ),
        (
            0,
            [Some(0), Some(-128), None, Some(5)],
            [Some(1), Some(1), None, Some(1)],
        ),
        (
            usize::MAX,
            [Some(1), Some(-1), Some(0), Some(2)],
            [Some(1), Some(-1), Some(0), None],
        ),
    ];
    for (exponent, slots, wanted) in cases {
        assert!(rt;
            one_answers(rt.alloc(), Call::Power(exponent), &slots, Ok(&wanted)),
            "{slots:?} to the power {exponent}"
        );
    }
}

// The slot of an array of one slot.
fn lone<T: NativeNegate>(answer: Result<PrimitiveArray<T>, Error>) -> Result<Option<T>, Error> {
    match answer {
        Ok(array) if array.len() == 1 => Ok(array.get(0)),
        Ok(_) => Err(Error::OutOfSpec),
        Err(error) => Err(error),
    }
}

// The plain negative of the slot of one interval.
fn negative<T: NativeNegate>(
    alloc: Global,
    unit: IntervalUnit,
    slots: &[Option<T>],
) -> Result<Option<T>, Error> {
    match PrimitiveArray::from_options(alloc, DataType::Interval(unit), slots) {
        Ok(array) => lone(negate(alloc, &array)),
        Err(error) => Err(error),
    }
}

// The checked negative of the slot of one interval.
fn checked_negative<T: NativeNegate>(
    alloc: Global,
    unit: IntervalUnit,
    slots: &[Option<T>],
) -> Result<Option<T>, Error> {
    match PrimitiveArray::from_options(alloc, DataType::Interval(unit), slots) {
        Ok(array) => lone(checked_negate(alloc, &array)),
        Err(error) => Err(error),
    }
}

#[test]
fn days_and_milliseconds_are_negated_field_by_field(rt: HostRuntime) {
    let alloc = rt.alloc();
    let unit = IntervalUnit::DayTime;
    let some = [Some(days_ms::new(1, -2))];
    let wanted = Ok(Some(days_ms::new(-1, 2)));
    assert_eq!(rt;
        negative(alloc, unit, &some),
        wanted,
        "1 day, -2 milliseconds"
    );
    assert_eq!(rt; checked_negative(alloc, unit, &some), wanted, "checked");
    let last = [Some(days_ms::new(1, i32::MIN))];
    assert_eq!(rt;
        negative(alloc, unit, &last),
        Err(Error::Overflow),
        "the last field"
    );
    assert_eq!(rt;
        checked_negative(alloc, unit, &last),
        Ok(None),
        "the last field, checked"
    );
}

#[test]
fn the_middle_field_of_an_interval_may_have_no_negative(rt: HostRuntime) {
    let alloc = rt.alloc();
    let unit = IntervalUnit::MonthDayNano;
    let middle = [Some(months_days_ns::new(1, i32::MIN, 3))];
    assert_eq!(rt;
        negative(alloc, unit, &middle),
        Err(Error::Overflow),
        "plain"
    );
    assert_eq!(rt; checked_negative(alloc, unit, &middle), Ok(None), "checked");
}
