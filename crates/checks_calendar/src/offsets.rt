//! Texts of offsets.
use col_calendar::{FixedOffset, parse_offset};
use col_types::{Error, Reason};

#[test]
fn an_offset_text_gives_seconds_east(rt: HostRuntime) {
    let cases = [
        ("UTC", 0),
        ("00:00", 0),
        ("-00:00", 0),
        ("-01:30", -5400),
        ("+01:30", 5400),
        ("09:05", 32700),
        ("+23:59", 86340),
        ("-23:59", -86340),
    ];
    for (text, want) in cases {
        let seconds = parse_offset(text).map(|offset| offset.local_minus_utc());
        assert_eq!(rt; seconds, Ok(want), "{text}");
    }
}

#[test]
fn any_other_text_is_no_offset(rt: HostRuntime) {
    let cases = [
        "",
        "utc",
        "UTC ",
        "+UTC",
        "Z",
        "24:00",
        "+24:00",
        "00:60",
        "1:00",
        "01:0",
        "01:00:00",
        "0100",
        "01-00",
        "--01:00",
        "+-01:00",
        " 01:00",
        "/0:00",
        "0::00",
        "Europe/Paris",
        "\u{2212}01:00",
    ];
    for text in cases {
        let seconds = parse_offset(text).map(|offset| offset.local_minus_utc());
        assert_eq!(rt;
            seconds,
            Err(Error::InvalidArgumentError(Reason::Zone)),
            "{text}"
        );
    }
}

#[test]
fn an_offset_is_less_than_a_day(rt: HostRuntime) {
    for seconds in [0, 86_399, -86_399] {
        let east = FixedOffset::east_opt(seconds).map(|offset| offset.local_minus_utc());
        assert_eq!(rt; east, Some(seconds), "{seconds}");
    }
    for seconds in [86_400, -86_400, i32::MAX, i32::MIN] {
        assert!(rt; FixedOffset::east_opt(seconds).is_none(), "{seconds}");
    }
}
