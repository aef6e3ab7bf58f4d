//! Which types have parts.
use crate::answers::{Answer, CLOCK_PARTS, DAY_PARTS, PARTS, Part};
use crate::columns::{Kind, answer_for, data_type, first_not};
use col_calendar::{
    can_day, can_hour, can_iso_week, can_minute, can_month, can_nanosecond, can_second,
    can_weekday, can_year,
};
use col_types::{DataType, TimeUnit};

// Whether columns of a type have a part.
fn can(part: Part, data_type: &DataType) -> bool {
    match part {
        Part::Year => can_year(data_type),
        Part::Month => can_month(data_type),
        Part::Day => can_day(data_type),
        Part::Weekday => can_weekday(data_type),
        Part::Week => can_iso_week(data_type),
        Part::Hour => can_hour(data_type),
        Part::Minute => can_minute(data_type),
        Part::Second => can_second(data_type),
        Part::Nanosecond => can_nanosecond(data_type),
    }
}

// The first part whose test is not as wanted.
fn first_other(parts: &[Part], kind: Kind, wanted: bool) -> Option<Part> {
    for part in parts {
        if can(*part, &data_type(kind)) != wanted {
            return Some(*part);
        }
    }
    None
}

// A type, and whether it has the parts of a day and those of a clock.
const TYPES: [(Kind, bool, bool); 12] = [
    (Kind::Date32, true, true),
    (Kind::Date64, true, true),
    (Kind::Instant(TimeUnit::Second), true, true),
    (Kind::Instant(TimeUnit::Nanosecond), true, true),
    (Kind::Time32(TimeUnit::Second), false, true),
    (Kind::Time64(TimeUnit::Nanosecond), false, true),
    (Kind::Time32(TimeUnit::Nanosecond), false, false),
    (Kind::Time64(TimeUnit::Second), false, false),
    (Kind::Duration(TimeUnit::Second), false, false),
    (Kind::Int8, false, false),
    (Kind::Int32, false, false),
    (Kind::Int64, false, false),
];

#[test]
fn the_tests_tell_which_types_have_parts(rt: HostRuntime) {
    for (kind, has_date, has_clock) in TYPES {
        assert_eq!(rt; first_other(&DAY_PARTS, kind, has_date), None, "{kind:?}");
        assert_eq!(rt;
            first_other(&CLOCK_PARTS, kind, has_clock),
            None,
            "{kind:?}"
        );
    }
}

#[test]
fn numbers_have_no_parts(rt: HostRuntime) {
    let kinds = [
        Kind::Int8,
        Kind::Int32,
        Kind::Int64,
        Kind::Duration(TimeUnit::Second),
    ];
    for kind in kinds {
        assert_eq!(rt;
            first_not(rt.alloc(), &PARTS, kind, 1, Answer::NotYetImplemented),
            None,
            "{kind:?}"
        );
    }
}

#[test]
fn no_rows_of_another_type_are_refused(rt: HostRuntime) {
    for part in PARTS {
        assert_eq!(rt;
            answer_for(rt.alloc(), part, Kind::Int64, &[]),
            Answer::NotYetImplemented,
            "{part:?}"
        );
        assert_eq!(rt;
            answer_for(rt.alloc(), part, Kind::Date64, &[]),
            Answer::NoRow,
            "{part:?}"
        );
    }
}
