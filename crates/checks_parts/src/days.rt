//! The parts of days, as dates and as instants at midnight.
use crate::answers::{Answer, PARTS, Part};
use crate::columns::{Kind, answer_on, array_32, first_not, first_wrong};
use col_array::AnyArray;
use col_calendar::weekday;
use col_flat::PrimitiveArray;
use col_types::{DataType, Error, TimeUnit};
use std::alloc::Global;

// The first and the last day, and the parts of their midnights. The calendar of -9999 is that of
// the year 1, 25 times 400 years later; the others are Python's `datetime`'s.
const ENDS: [(i64, [i64; 9]); 2] = [
    (-4_371_587, [-9999, 1, 1, 1, 1, 0, 0, 0, 0]),
    (2_932_896, [9999, 12, 31, 5, 52, 0, 0, 0, 0]),
];

// Days between them, as Python's `datetime` has them.
const DAYS: [(i64, [i64; 9]); 4] = [
    (-1, [1969, 12, 31, 3, 1, 0, 0, 0, 0]),
    (0, [1970, 1, 1, 4, 1, 0, 0, 0, 0]),
    (59, [1970, 3, 1, 7, 9, 0, 0, 0, 0]),
    (60, [1970, 3, 2, 1, 10, 0, 0, 0, 0]),
];

// The types that have all days, and what a day comes to.
const KINDS: [(Kind, i64); 5] = [
    (Kind::Date32, 1),
    (Kind::Date64, 86_400_000),
    (Kind::Instant(TimeUnit::Second), 86_400),
    (Kind::Instant(TimeUnit::Millisecond), 86_400_000),
    (Kind::Instant(TimeUnit::Microsecond), 86_400_000_000),
];

#[test]
fn a_day_has_its_parts_in_each_type(rt: HostRuntime) {
    for (kind, length) in KINDS {
        for (day, wanted) in DAYS {
            let value = day.saturating_mul(length);
            assert_eq!(rt;
                first_wrong(rt.alloc(), kind, value, wanted),
                None,
                "{kind:?} {value}"
            );
        }
    }
}

#[test]
fn the_first_and_the_last_day_have_their_parts(rt: HostRuntime) {
    for (kind, length) in KINDS {
        for (day, wanted) in ENDS {
            let value = day.saturating_mul(length);
            assert_eq!(rt;
                first_wrong(rt.alloc(), kind, value, wanted),
                None,
                "{kind:?} {value}"
            );
        }
    }
}

#[test]
fn a_day_has_its_parts_in_nanoseconds(rt: HostRuntime) {
    for (day, wanted) in DAYS {
        let value = day.saturating_mul(86_400_000_000_000);
        assert_eq!(rt;
            first_wrong(
                rt.alloc(),
                Kind::Instant(TimeUnit::Nanosecond),
                value,
                wanted
            ),
            None,
            "{value}"
        );
    }
}

#[test]
fn days_past_the_ends_are_refused(rt: HostRuntime) {
    let days = [
        -4_371_588,
        2_932_897,
        i64::from(i32::MIN),
        i64::from(i32::MAX),
    ];
    for day in days {
        assert_eq!(rt;
            first_not(rt.alloc(), &PARTS, Kind::Date32, day, Answer::OutOfRange),
            None,
            "{day}"
        );
    }
}

#[test]
fn a_null_stays(rt: HostRuntime) {
    for part in PARTS {
        assert_eq!(rt; answer_on(rt.alloc(), part, None), Answer::Null, "{part:?}");
    }
    assert_eq!(rt;
        answer_on(rt.alloc(), Part::Weekday, Some(18_628)),
        Answer::Is(5)
    );
}

type Numbers = Result<PrimitiveArray<u32>, Error>;

// Whether both were made, with one type and the same slots.
fn are_equal(made: Numbers, wanted: Numbers) -> bool {
    match (made, wanted) {
        (Ok(made), Ok(wanted)) => made.equal(&wanted),
        _ => false,
    }
}

fn are_weekdays(alloc: Global, days: AnyArray, wanted: Numbers) -> bool {
    are_equal(weekday(alloc, &days), wanted)
}

// Whether days have these weekdays, and a null at each null.
fn have_weekdays(alloc: Global, days: &[Option<i32>], wanted: &[Option<u32>]) -> bool {
    let wanted = PrimitiveArray::from_options(alloc, DataType::UInt32, wanted);
    match array_32(alloc, DataType::Date32, days) {
        Ok(days) => are_weekdays(alloc, days, wanted),
        Err(_) => false,
    }
}

#[test]
fn a_null_stays_between_numbers(rt: HostRuntime) {
    let days = [Some(0), None, Some(18_628)];
    assert!(rt; have_weekdays(rt.alloc(), &days, &[Some(4), None, Some(5)]));
}
