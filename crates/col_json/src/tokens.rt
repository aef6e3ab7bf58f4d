//! Single tokens, where they are the ones that are wanted.
ghost use Rattle.std.specs.Prelude.{◌≡◌, ◌∷◌, IfSome};
ghost use Rattle.json.specs.Token.{begin_array, begin_object, string};

use crate::cursor::{Cursor, Token};

/// Takes the brace that opens an object. `None` where another token comes, or none.
pub fn open_object(cursor: &mut Cursor<'_>) -> Option<()>
    ensures { IfSome result (λ _. cursor.old ≡ begin_object ∷ cursor.new) }
{
    match cursor.next()? {
        Token::BeginObject => Some(()),
        _ => None,
    }
}

/// Takes the bracket that opens a list. `None` where another token comes, or none.
pub fn open_list(cursor: &mut Cursor<'_>) -> Option<()>
    ensures { IfSome result (λ _. cursor.old ≡ begin_array ∷ cursor.new) }
{
    match cursor.next()? {
        Token::BeginArray => Some(()),
        _ => None,
    }
}

/// Takes a text. `None` where another token comes, or none, and where the text is no UTF-8.
pub fn take_text<'t>(cursor: &mut Cursor<'t>) -> Option<&'t str>
    ensures { IfSome result (λ text. cursor.old ≡ string text.now ∷ cursor.new) }
{
    match cursor.next()? {
        Token::Text(text) => std::str::from_utf8(text).ok(),
        _ => None,
    }
}
