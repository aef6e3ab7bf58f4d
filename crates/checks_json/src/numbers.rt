//! Whole numbers in decimal digits, at the ends of what is read: by hand, from the ends of 64 bits.
use col_json::read_digits;

#[test]
fn digits_are_read_within_64_bits(rt: HostRuntime) {
    let cases: [(&str, Option<i128>); 18] = [
        ("0", Some(0)),
        ("7", Some(7)),
        ("-1", Some(-1)),
        ("007", Some(7)),
        ("00000000000000000000000000000", Some(0)),
        ("1844674407370955160", Some(1844674407370955160)),
        ("1844674407370955161", Some(1844674407370955161)),
        ("18446744073709551609", Some(18446744073709551609)),
        ("18446744073709551610", None),
        ("-9223372036854775808", Some(-9223372036854775808)),
        ("-9223372036854775809", None),
        ("-0", None),
        ("", None),
        ("-", None),
        ("--1", None),
        ("+1", None),
        ("1 ", None),
        ("1.0", None),
    ];
    for (text, wanted) in cases {
        assert_eq!(rt; read_digits(text.as_bytes()), wanted, "{text:?}");
    }
}
