//! The parts of instants in a zone.
use crate::answers::{Answer, PARTS, Part};
use crate::columns::answer_in;
use col_types::TimeUnit;
use std::alloc::Global;

// The first part of an instant in a zone that is another than wanted.
fn first_wrong_in(
    alloc: Global,
    unit: TimeUnit,
    zone: &str,
    value: i64,
    wanted: [i64; 9],
) -> Option<Part> {
    for (part, number) in PARTS.into_iter().zip(wanted) {
        if answer_in(alloc, part, unit, zone, &[Some(value)]) != Answer::Is(number) {
            return Some(part);
        }
    }
    None
}

// A zone, a number, and the parts that a clock of the zone shows.
const SHOWN: [(&str, TimeUnit, i64, [i64; 9]); 5] = [
    (
        "-01:30",
        TimeUnit::Second,
        0,
        [1969, 12, 31, 3, 1, 22, 30, 0, 0],
    ),
    (
        "+05:30",
        TimeUnit::Millisecond,
        0,
        [1970, 1, 1, 4, 1, 5, 30, 0, 0],
    ),
    (
        "UTC",
        TimeUnit::Microsecond,
        951_826_554_123_456,
        [2000, 2, 29, 2, 9, 12, 15, 54, 123_456_000],
    ),
    (
        "+23:59",
        TimeUnit::Nanosecond,
        -1,
        [1970, 1, 1, 4, 1, 23, 58, 59, 999_999_999],
    ),
    (
        "-01:00",
        TimeUnit::Second,
        253_402_300_799,
        [9999, 12, 31, 5, 52, 22, 59, 59, 0],
    ),
];

#[test]
fn a_zone_moves_the_parts(rt: HostRuntime) {
    for (zone, unit, value, wanted) in SHOWN {
        assert_eq!(rt;
            first_wrong_in(rt.alloc(), unit, zone, value, wanted),
            None,
            "{zone} {value}"
        );
    }
}

// The first part of instants in a zone that is not answered as wanted.
fn first_not_in(alloc: Global, zone: &str, slots: &[Option<i64>], wanted: Answer) -> Option<Part> {
    for part in PARTS {
        if answer_in(alloc, part, TimeUnit::Second, zone, slots) != wanted {
            return Some(part);
        }
    }
    None
}

// The day of UTC is past the end, and then the day that is shown, at either end.
const PAST: [(&str, i64); 4] = [
    ("-01:00", 253_402_300_800),
    ("+01:00", 253_402_300_799),
    ("+01:00", -377_705_116_801),
    ("-01:00", -377_705_116_800),
];

#[test]
fn both_days_have_a_date(rt: HostRuntime) {
    for (zone, value) in PAST {
        assert_eq!(rt;
            first_not_in(rt.alloc(), zone, &[Some(value)], Answer::OutOfRange),
            None,
            "{zone} {value}"
        );
    }
}

#[test]
fn a_zone_is_read_before_any_row(rt: HostRuntime) {
    let cases = [
        ("Europe/Paris", [].as_slice(), Answer::Zone),
        ("Europe/Paris", &[None], Answer::Zone),
        ("Europe/Paris", &[Some(0)], Answer::Zone),
        ("Europe/Paris", &[Some(i64::MAX)], Answer::Zone),
        ("-01:30", &[], Answer::NoRow),
        ("-01:30", &[None], Answer::Null),
    ];
    for (zone, slots, wanted) in cases {
        assert_eq!(rt;
            first_not_in(rt.alloc(), zone, slots, wanted),
            None,
            "{zone} {slots:?}"
        );
    }
}
