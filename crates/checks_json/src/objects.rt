//! Objects of two members among others: by hand, from the doc comments of the calls.
use col_json::{Cursor, close_object, open_object, read_value, take_key};
use std::alloc::Global;

// Whether an object has the members `a` and `b`, in this order and each once, among members that
// are read within one level.
fn is_pair(alloc: Global, text: &str) -> bool {
    pair_end(alloc, text) == Some(true)
}

// Whether the text ends behind the object, where it has the members.
fn pair_end(alloc: Global, text: &str) -> Option<bool> {
    let mut cursor = Cursor::new(text.as_bytes());
    open_object(&mut cursor)?;
    take_key(alloc, &mut cursor, "a", "b", 1)?;
    drop(read_value(alloc, &mut cursor, 1)?);
    take_key(alloc, &mut cursor, "b", "a", 1)?;
    drop(read_value(alloc, &mut cursor, 1)?);
    close_object(alloc, &mut cursor, "a", "b", 1)?;
    Some(cursor.is_done())
}

#[test]
fn two_members_are_taken_among_others(rt: HostRuntime) {
    let cases = [
        (r#"{"a":1,"b":2}"#, true),
        (r#"{"x":[],"a":1,"y":null,"x":"","b":2,"z":0}"#, true),
        (r#"{"a":1,"b":2}}"#, false),
        (r#"{"b":2,"a":1}"#, false),
        (r#"{"a":1,"a":1,"b":2}"#, false),
        (r#"{"a":1,"b":2,"a":1}"#, false),
        (r#"{"a":1,"b":2,"b":2}"#, false),
        (r#"{"a":1}"#, false),
        (r#"{"b":2}"#, false),
        (r#"{"x":[[]],"a":1,"b":2}"#, false),
        (r#"{"x":true,"a":1,"b":2}"#, false),
        (r#"{"a":1,"b":2"#, false),
        (r#"["a"]"#, false),
    ];
    for (text, wanted) in cases {
        assert_eq!(rt; is_pair(rt.alloc(), text), wanted, "{text}");
    }
}
