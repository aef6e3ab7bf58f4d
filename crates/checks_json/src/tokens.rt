//! The tokens of texts, up to the first that the cursor gives up at: by hand, from RFC 8259.
use col_json::{Cursor, Token, open_list, open_object, read_value, take_text};
use col_types::Error;
use std::alloc::Global;

// Adds a token: a bracket or brace, a key with a colon, a text in quotes, a number or null.
fn push_token(text: &mut Vec<u8>, token: Token<'_>) -> Result<(), Error> {
    match token {
        Token::BeginObject => text.push(b'{')?,
        Token::EndObject => text.push(b'}')?,
        Token::BeginArray => text.push(b'[')?,
        Token::EndArray => text.push(b']')?,
        Token::Key(name) => {
            text.extend_from_slice(name)?;
            text.push(b':')?;
        }
        Token::Text(found) => {
            text.push(b'"')?;
            text.extend_from_slice(found)?;
            text.push(b'"')?;
        }
        Token::Number(found) => text.extend_from_slice(found)?,
        Token::Null => text.extend_from_slice(b"null")?,
    }
    text.push(b' ')?;
    Ok(())
}

// The tokens that a cursor gives, and a point where none is left.
fn tokens_of(alloc: Global, text: &str) -> Result<Vec<u8>, Error> {
    let mut found = Vec::new(alloc);
    let mut cursor = Cursor::new(text.as_bytes());
    for _ in 0..text.len() {
        match cursor.next() {
            Some(token) => push_token(&mut found, token)?,
            None => break,
        }
    }
    if cursor.is_done() {
        found.push(b'.')?;
    }
    Ok(found)
}

#[test]
fn tokens_stand_in_their_order(rt: HostRuntime) -> Result<(), Error> {
    // the text, and its tokens; of those without a point the cursor gives up at the next
    let cases = [
        ("", "."),
        (" \t\r\n", "."),
        ("{}", "{ } ."),
        ("[ ]", "[ ] ."),
        (
            r#"{"a":[-12,null,"x"],"b":{}}"#,
            r#"{ a: [ -12 null "x" ] b: { } } ."#,
        ),
        (
            "\n{ \"a\" :\t[ 0 , null , \"\" ] }\r\n",
            r#"{ a: [ 0 null "" ] } ."#,
        ),
        ("null", "null ."),
        ("18446744073709551616", "18446744073709551616 ."),
        ("1 2", "1 "),
        ("[1,]", "[ 1 "),
        ("[,1]", "[ "),
        ("[1 2]", "[ 1 "),
        ("[01]", "[ "),
        ("[-]", "[ "),
        ("[1.5]", "[ "),
        ("[1e2]", "[ "),
        ("[+1]", "[ "),
        ("[1a]", "[ "),
        ("[nul]", "[ "),
        ("[nulll]", "[ "),
        ("[true]", "[ "),
        ("[false]", "[ "),
        (r#"["a\n"]"#, "[ "),
        (r#"["a"#, "[ "),
        (r#"["a" 1]"#, "[ "),
        (r#""a""#, ""),
        ("[\"a\tb\"]", "[ "),
    ];
    for (text, wanted) in cases {
        let found = tokens_of(rt.alloc(), text)?;
        assert_eq!(rt; found.as_slice(), wanted.as_bytes(), "{text:?}");
    }
    Ok(())
}

// Whether a call takes the first token of a text.
fn is_object(text: &str) -> bool {
    open_object(&mut Cursor::new(text.as_bytes())).is_some()
}

fn is_list(text: &str) -> bool {
    open_list(&mut Cursor::new(text.as_bytes())).is_some()
}

// Whether the first token of a text is this text.
fn is_text(text: &str, wanted: &str) -> bool {
    take_text(&mut Cursor::new(text.as_bytes())) == Some(wanted)
}

#[test]
fn a_token_is_taken_where_it_is_wanted(rt: HostRuntime) {
    assert!(rt; is_object(" {") && is_list(" ["), "a brace and a bracket");
    assert!(rt; !is_object("[") && !is_list("{"), "the one for the other");
    assert!(rt;
        is_text(r#""Int64","#, "Int64") && is_text("\"\u{e9}\"]", "\u{e9}"),
        "texts"
    );
    assert!(rt;
        !is_text(r#""Int64":"#, "Int64") && !is_text("64", "64"),
        "a key and a number"
    );
}

#[test]
fn texts_are_utf_8(rt: HostRuntime) {
    // two bytes that begin no character, and a character that is cut off
    let texts: [&[u8]; 3] = [b"\"\xff\"]", b"\"a\x80\"]", b"\"\xe2\x82\"]"];
    for text in texts {
        let is_taken = take_text(&mut Cursor::new(text)).is_some();
        let is_read = read_value(rt.alloc(), &mut Cursor::new(text), 1).is_some();
        assert!(rt; !is_taken && !is_read, "{text:?}");
    }
}
