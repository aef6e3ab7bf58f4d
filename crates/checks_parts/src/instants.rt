//! The parts of instants at the ends of each unit, and one unit before 1970.
use crate::answers::{Answer, PARTS};
use crate::columns::{Kind, first_not, first_wrong};
use col_types::TimeUnit;

// The unit before 1970 of each type.
const BEFORE_1970: [(Kind, [i64; 9]); 5] = [
    (Kind::Date64, [1969, 12, 31, 3, 1, 23, 59, 59, 999_000_000]),
    (
        Kind::Instant(TimeUnit::Second),
        [1969, 12, 31, 3, 1, 23, 59, 59, 0],
    ),
    (
        Kind::Instant(TimeUnit::Millisecond),
        [1969, 12, 31, 3, 1, 23, 59, 59, 999_000_000],
    ),
    (
        Kind::Instant(TimeUnit::Microsecond),
        [1969, 12, 31, 3, 1, 23, 59, 59, 999_999_000],
    ),
    (
        Kind::Instant(TimeUnit::Nanosecond),
        [1969, 12, 31, 3, 1, 23, 59, 59, 999_999_999],
    ),
];

#[test]
fn the_unit_before_1970_lies_in_1969(rt: HostRuntime) {
    for (kind, wanted) in BEFORE_1970 {
        assert_eq!(rt; first_wrong(rt.alloc(), kind, -1, wanted), None, "{kind:?}");
    }
}

// The last unit that has parts: of nanoseconds the greatest number, and the least one too.
const LAST: [(Kind, i64, [i64; 9]); 6] = [
    (
        Kind::Date64,
        253_402_300_799_999,
        [9999, 12, 31, 5, 52, 23, 59, 59, 999_000_000],
    ),
    (
        Kind::Instant(TimeUnit::Second),
        253_402_300_799,
        [9999, 12, 31, 5, 52, 23, 59, 59, 0],
    ),
    (
        Kind::Instant(TimeUnit::Millisecond),
        253_402_300_799_999,
        [9999, 12, 31, 5, 52, 23, 59, 59, 999_000_000],
    ),
    (
        Kind::Instant(TimeUnit::Microsecond),
        253_402_300_799_999_999,
        [9999, 12, 31, 5, 52, 23, 59, 59, 999_999_000],
    ),
    (
        Kind::Instant(TimeUnit::Nanosecond),
        i64::MAX,
        [2262, 4, 11, 5, 15, 23, 47, 16, 854_775_807],
    ),
    (
        Kind::Instant(TimeUnit::Nanosecond),
        i64::MIN,
        [1677, 9, 21, 2, 38, 0, 12, 43, 145_224_192],
    ),
];

#[test]
fn the_last_unit_has_parts(rt: HostRuntime) {
    for (kind, value, wanted) in LAST {
        assert_eq!(rt;
            first_wrong(rt.alloc(), kind, value, wanted),
            None,
            "{kind:?} {value}"
        );
    }
}

// One unit past each end.
const PAST: [(Kind, i64); 8] = [
    (Kind::Date64, -377_705_116_800_001),
    (Kind::Date64, 253_402_300_800_000),
    (Kind::Instant(TimeUnit::Second), -377_705_116_801),
    (Kind::Instant(TimeUnit::Second), 253_402_300_800),
    (Kind::Instant(TimeUnit::Millisecond), -377_705_116_800_001),
    (Kind::Instant(TimeUnit::Millisecond), 253_402_300_800_000),
    (
        Kind::Instant(TimeUnit::Microsecond),
        -377_705_116_800_000_001,
    ),
    (
        Kind::Instant(TimeUnit::Microsecond),
        253_402_300_800_000_000,
    ),
];

#[test]
fn instants_past_the_ends_are_refused(rt: HostRuntime) {
    for (kind, value) in PAST {
        assert_eq!(rt;
            first_not(rt.alloc(), &PARTS, kind, value, Answer::OutOfRange),
            None,
            "{kind:?} {value}"
        );
    }
}
