//! Which texts are read as documents of the plain form: the rules of `docs/FORMATS.md`, by hand.
use col_document::read_plain;

#[test]
fn documents_of_the_plain_form_are_read_in_one_pass(rt: HostRuntime) {
    let texts = [
        r#"{"columns":[],"trees":[]}"#,
        r#"{"columns":[{"type":"Int8","values":[-128,"127",null]}],"trees":[["c0"]]}"#,
        r#"{"columns":[{"type":"Int16","values":[-32768,"32767"]}],"trees":[["c0"]]}"#,
        r#"{"columns":[{"type":"Int32","values":["-2147483648",2147483647]}],"trees":[["c0"]]}"#,
        r#"{"columns":[{"type":"Int64","values":[-9223372036854775808]}],"trees":[["c0"]]}"#,
        r#"{"columns":[{"type":"UInt8","values":[255,"007"]}],"trees":[["c0"]]}"#,
        r#"{"columns":[{"type":"UInt16","values":["65535",0]}],"trees":[["c0"]]}"#,
        r#"{"columns":[{"type":"UInt32","values":[4294967295]}],"trees":[["c0"]]}"#,
        r#"{"columns":[{"type":"UInt64","values":[18446744073709551609]}],"trees":[["c0"]]}"#,
        r#"{"columns":[],"trees":[["c0",{"type":"Int8","value":1},"add"],["c1"]]}"#,
        r#"{"a":[{}],"columns":[{"name":"x","type":"Int8","n":1,"values":[]}],"b":"","trees":[]}"#,
        " { \"columns\" : [ { \"type\" : \"Int8\" , \"values\" : [ ] } ] ,\n\"trees\" : [ ] }\t\r\n",
    ];
    for text in texts {
        assert!(rt; read_plain(rt.alloc(), text).is_some(), "{text}");
    }
}

#[test]
fn other_texts_are_left_to_another_way(rt: HostRuntime) {
    let texts = [
        r#"{"trees":[],"columns":[]}"#,
        r#"{"columns":[],"columns":[],"trees":[]}"#,
        r#"{"columns":[],"trees":[],"trees":[]}"#,
        r#"{"columns":[{"values":[],"type":"Int8"}],"trees":[]}"#,
        r#"{"columns":[{"type":"Int8","type":"Int8","values":[]}],"trees":[]}"#,
        r#"{"columns":[{"type":"Int8","values":[],"values":[]}],"trees":[]}"#,
        r#"{"columns":[],"trees":[],"\u0061":0}"#,
        r#"{"columns":[],"trees":[],"a":true}"#,
        r#"{"columns":[],"trees":[],"a":1.5}"#,
        r#"{"columns":[{"type":"Int8","values":["+7"]}],"trees":[]}"#,
        r#"{"columns":[{"type":"Int8","values":["-0"]}],"trees":[]}"#,
        r#"{"columns":[{"type":"UInt64","values":[18446744073709551610]}],"trees":[]}"#,
        r#"{"columns":[{"type":"Int8","values":[128]}],"trees":[]}"#,
        r#"{"columns":[{"type":"Utf8","values":[]}],"trees":[]}"#,
        r#"{"columns":[],"trees":["c0"]}"#,
        r#"{"columns":[],"trees":[]}{}"#,
        r#"{"columns":[],"trees":[]"#,
        "[]",
    ];
    for text in texts {
        assert!(rt; read_plain(rt.alloc(), text).is_none(), "{text}");
    }
}
