//! Objects of which two members are wanted, in their order; the others are passed.
ghost use Rattle.std.specs.Prelude.{◌≡◌, ◌≢◌, IfSome, IsSomeAnd, IsTrue, List, None, Some};
ghost use Rattle.std.specs.Prelude.{option_map};
ghost use Rattle.json.specs.Json.{read_key};
ghost use Rattle.json.specs.Token.{Token as SpecToken};
ghost use Rattle.col_json.specs.Begins.{Passes};

use crate::cursor::{Cursor, Token};
use crate::values::read_value;
use std::alloc::Global;

/// Takes the members up to the next of a name, and its key. `None` where there is no such member,
/// where one of the name that is to stay away comes before it, where `read_value` gives none for
/// the value of one before it, and where the cursor gives no token.
pub fn take_key(
    alloc: Global,
    cursor: &mut Cursor<'_>,
    name: &str,
    apart: &str,
    levels: usize,
) -> Option<()>
    ensures { IfSome result (λ _. (at : List SpecToken)
        × Passes levels name.now apart.now cursor.old at
        × (read_key at ≡ Some (Some name.now, cursor.new))) }
{
    if pass_others(alloc, cursor, name, apart, levels)?? == name.as_bytes() {
        Some(())
    } else {
        None
    }
}

/// Takes the members that are left, and the brace that closes their object. `None` where one of the
/// two names that are to stay away comes, where `read_value` gives none for the value of a member,
/// and where the cursor gives no token.
pub fn close_object(
    alloc: Global,
    cursor: &mut Cursor<'_>,
    apart: &str,
    also: &str,
    levels: usize,
) -> Option<()>
    ensures { IfSome result (λ _. (at : List SpecToken)
        × Passes levels apart.now also.now cursor.old at
        × (read_key at ≡ Some (None, cursor.new))) }
{
    match pass_others(alloc, cursor, apart, also, levels)? {
        Some(_) => None,
        None => Some(()),
    }
}

// Takes members up to the next of two names, and its key, or up to the brace that closes their
// object, and the brace.
fn pass_others<'t>(
    alloc: Global,
    cursor: &mut Cursor<'t>,
    name: &str,
    other: &str,
    levels: usize,
) -> Option<Option<&'t [u8]>>
    ensures { IfSome result (λ key. (at : List SpecToken)
        × Passes levels name.now other.now cursor.old at
        × (read_key at ≡ Some (option_map (λ k. k.now) key, cursor.new))) }
{
    'members: loop {
        let key = next_key(cursor)?;
        if !is_passed(key, name, other) {
            return Some(key);
        }
        drop(read_value(alloc, cursor, levels)?);
    }
}

// The name of the next member, or nothing at the brace that closes the object.
pub(crate) fn next_key<'t>(cursor: &mut Cursor<'t>) -> Option<Option<&'t [u8]>>
    ensures { IfSome result
        (λ key. read_key cursor.old ≡ Some (option_map (λ k. k.now) key, cursor.new)) }
{
    match cursor.next()? {
        Token::Key(name) => Some(Some(name)),
        Token::EndObject => Some(None),
        _ => None,
    }
}

// Whether a key is there, and none of two names.
fn is_passed(key: Option<&[u8]>, name: &str, other: &str) -> bool
    ensures { IsTrue result → IsSomeAnd (option_map (λ k. k.now) key.entry)
        (λ k. (k ≢ name.now) × (k ≢ other.now)) }
{
    match key {
        Some(key) => key != name.as_bytes() && key != other.as_bytes(),
        None => false,
    }
}
