//! Values of any form, beside what `serde_json` reads of the whole text.
use col_json::{Cursor, read_value};
use serde_json::Value;
use std::alloc::Global;

// Whether a text is read within some levels, to its end, as `serde_json` reads it.
fn is_read(alloc: Global, text: &str, levels: usize) -> bool {
    let mut cursor = Cursor::new(text.as_bytes());
    match (
        read_value(alloc, &mut cursor, levels),
        Value::from_str(alloc, text),
    ) {
        (Some(found), Ok(wanted)) => found == wanted && cursor.is_done(),
        _ => false,
    }
}

#[test]
fn values_are_those_of_serde_json(rt: HostRuntime) {
    // the text, and the levels that it needs
    let cases = [
        ("null", 0),
        ("-9223372036854775808", 0),
        ("18446744073709551609", 0),
        ("[]", 1),
        (r#"[1,null,"x"]"#, 1),
        (r#"{"a":1,"b":[2],"a":{"c":null}}"#, 2),
        (r#"[[["c0","c1","add"]]]"#, 3),
    ];
    for (text, levels) in cases {
        assert!(rt; is_read(rt.alloc(), text, levels), "{text} within {levels}");
        assert!(rt; is_read(rt.alloc(), text, 126), "{text} within more");
        assert!(rt;
            levels == 0 || !is_read(rt.alloc(), text, levels - 1),
            "{text} within less"
        );
    }
}

#[test]
fn other_values_are_left(rt: HostRuntime) {
    let cases = [
        "",
        "]",
        "[",
        "[1",
        "true",
        "-0",
        "1.0",
        "18446744073709551610",
        r#"{"a"}"#,
        "{1:2}",
    ];
    for text in cases {
        let mut cursor = Cursor::new(text.as_bytes());
        let found = read_value(rt.alloc(), &mut cursor, 126);
        assert!(rt; found.is_none(), "{text}");
    }
}
