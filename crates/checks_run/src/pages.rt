//! Pages of documents, by the call that makes its own room and by the one that is given it.
use col_document::{ReadError, read_document};
use col_page::{Page, page_in, page_of};
use std::alloc::Global;

// Two trees, the second of which is refused.
const DOCUMENT: &str =
    r#"{"columns":[{"type":"Int8","values":[100,null]}],"trees":[["c0"],["c0","c0","add"]]}"#;

// The page of the document, in no room or in a room that has a text already.
fn page_with(alloc: Global, room: Option<&[u8]>) -> Result<Page, ReadError> {
    let document = read_document(alloc, DOCUMENT.as_bytes())?;
    let page = match room {
        None => page_of(alloc, &document),
        Some(text) => page_in(alloc, &document, Vec::from_slice(alloc, text)?),
    };
    page.map_err(|_| ReadError::Memory)
}

#[test]
fn both_calls_give_the_page(rt: HostRuntime) -> Result<(), ReadError> {
    let rooms: [Option<&[u8]>; 4] = [None, Some(b""), Some(b"Int8 [7]\n"), Some(&[b' '; 100])];
    for room in rooms {
        let page = page_with(rt.alloc(), room)?;
        let wanted = "Int8 [100,null]\nerror Overflow\n";
        assert_eq!(rt; page.bytes(), wanted.as_bytes(), "{room:?}");
        assert!(rt; page.has_error(), "{room:?}");
    }
    Ok(())
}
