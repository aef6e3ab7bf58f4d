//! Values of any form.
ghost use Rattle.std.specs.Prelude.{◌≡◌, ◌∷◌, IfSome, string_bytes};
ghost use Rattle.serde_json.specs.View.{items_view, members_view, view};
ghost use Rattle.col_json.specs.Begins.{Begins, BeginsItems, BeginsMembers};
ghost use Rattle.col_json.specs.Cursor.{token_of};

use crate::cursor::{Cursor, Token};
use crate::members::next_key;
use crate::numbers::read_digits;
use serde_json::{Map, Number, Value};
use std::alloc::Global;

/// The value that comes next, within some levels of lists and objects. `None` where there is none,
/// where lists and objects nest deeper, where the cursor gives no token, where `read_digits` gives
/// no number, where a text is no UTF-8, and for want of memory.
pub fn read_value(alloc: Global, cursor: &mut Cursor<'_>, levels: usize) -> Option<Value>
    ensures { IfSome result (λ v. Begins levels cursor.old (view v) cursor.new) }
{
    let token = cursor.next()?;
    read_from(alloc, cursor, token, levels)
}

// The value that begins with a token.
#[cycle(value)]
fn read_from(
    alloc: Global,
    cursor: &mut Cursor<'_>,
    token: Token<'_>,
    levels: usize,
) -> Option<Value>
    ensures { IfSome result
        (λ v. Begins levels (token_of token.entry ∷ cursor.old) (view v) cursor.new) }
{
    match token {
        Token::Null => Some(Value::Null),
        Token::Number(text) => Some(Value::Number(Number::from_i128(read_digits(text)?)?)),
        Token::Text(text) => Some(Value::String(read_text(alloc, text)?)),
        Token::BeginArray => if levels == 0 {
            None
        } else {
            Some(Value::Array(read_items(alloc, cursor, levels - 1)?))
        },
        Token::BeginObject => if levels == 0 {
            None
        } else {
            Some(Value::Object(read_members(alloc, cursor, levels - 1)?))
        },
        _ => None,
    }
}

// The items up to the bracket that closes a list, and the bracket.
#[cycle(value)]
fn read_items(alloc: Global, cursor: &mut Cursor<'_>, levels: usize) -> Option<Vec<Value>>
    ensures { IfSome result (λ v. BeginsItems levels cursor.old (items_view v.items) cursor.new) }
{
    let mut found = Vec::new(alloc);
    'items: loop {
        let token = cursor.next()?;
        if let Token::EndArray = token {
            return Some(found);
        }
        found.push(read_from(alloc, cursor, token, levels)?).ok()?;
    }
}

// The members up to the brace that closes an object, and the brace.
#[cycle(value)]
fn read_members(alloc: Global, cursor: &mut Cursor<'_>, levels: usize) -> Option<Map<String, Value>>
    ensures { IfSome result
        (λ m. BeginsMembers levels cursor.old (members_view m.entries) cursor.new) }
{
    let mut found = Map::new(alloc);
    'members: while let Some(name) = next_key(cursor)? {
        let key = read_text(alloc, name)?;
        let token = cursor.next()?;
        let member = read_from(alloc, cursor, token, levels)?;
        drop(found.insert(key, member).ok()?);
    }
    Some(found)
}

// A text of its own.
fn read_text(alloc: Global, text: &[u8]) -> Option<String>
    ensures { IfSome result (λ s. string_bytes s ≡ text.now) }
{
    let text = std::str::from_utf8(text).ok()?;
    String::from_str(alloc, text).ok()
}
