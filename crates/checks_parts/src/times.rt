//! The parts of times of day.
use crate::answers::{Answer, CLOCK_PARTS, DAY_PARTS};
use crate::columns::{Kind, first_not, first_wrong_of_clock};
use col_types::TimeUnit;

// A time of day in each unit that is carried, and its hour, minute, second and nanosecond.
const TIMES: [(Kind, i64, [i64; 4]); 10] = [
    (Kind::Time32(TimeUnit::Second), 0, [0, 0, 0, 0]),
    (Kind::Time32(TimeUnit::Second), 86_399, [23, 59, 59, 0]),
    (Kind::Time32(TimeUnit::Millisecond), 0, [0, 0, 0, 0]),
    (
        Kind::Time32(TimeUnit::Millisecond),
        86_399_999,
        [23, 59, 59, 999_000_000],
    ),
    (Kind::Time64(TimeUnit::Microsecond), 0, [0, 0, 0, 0]),
    (
        Kind::Time64(TimeUnit::Microsecond),
        86_399_999_999,
        [23, 59, 59, 999_999_000],
    ),
    (Kind::Time64(TimeUnit::Nanosecond), 0, [0, 0, 0, 0]),
    (
        Kind::Time64(TimeUnit::Nanosecond),
        86_399_999_999_999,
        [23, 59, 59, 999_999_999],
    ),
    (
        Kind::Time64(TimeUnit::Nanosecond),
        3_661_000_000_007,
        [1, 1, 1, 7],
    ),
    (Kind::Time32(TimeUnit::Second), 45_296, [12, 34, 56, 0]),
];

#[test]
fn a_time_of_day_has_the_parts_of_a_clock(rt: HostRuntime) {
    for (kind, value, wanted) in TIMES {
        assert_eq!(rt;
            first_wrong_of_clock(rt.alloc(), kind, value, wanted),
            None,
            "{kind:?} {value}"
        );
    }
}

// Each unit that is carried, and a whole day.
const WHOLE_DAYS: [(Kind, i64); 4] = [
    (Kind::Time32(TimeUnit::Second), 86_400),
    (Kind::Time32(TimeUnit::Millisecond), 86_400_000),
    (Kind::Time64(TimeUnit::Microsecond), 86_400_000_000),
    (Kind::Time64(TimeUnit::Nanosecond), 86_400_000_000_000),
];

#[test]
fn a_time_lies_within_a_day(rt: HostRuntime) {
    for (kind, length) in WHOLE_DAYS {
        for value in [length, -1] {
            assert_eq!(rt;
                first_not(rt.alloc(), &CLOCK_PARTS, kind, value, Answer::OutOfRange),
                None,
                "{kind:?} {value}"
            );
        }
    }
}

#[test]
fn a_time_of_day_has_no_date(rt: HostRuntime) {
    for (kind, length) in WHOLE_DAYS {
        for value in [length, 0] {
            assert_eq!(rt;
                first_not(
                    rt.alloc(),
                    &DAY_PARTS,
                    kind,
                    value,
                    Answer::NotYetImplemented
                ),
                None,
                "{kind:?} {value}"
            );
        }
    }
}
