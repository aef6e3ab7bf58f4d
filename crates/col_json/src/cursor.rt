//! The tokens of a JSON text whose strings have no escapes, one after another.
ghost use Rattle.std.specs.Prelude.{◌≡◌, ◌∷◌, [], IfSome, IsTrue, List, drop, true};
ghost use Rattle.json.specs.Lex.{Lexeme, after_value, between, lex, may_begin, may_close};
ghost use Rattle.json.specs.Lex.{punctuate, tokens};
ghost use Rattle.json.specs.Lex as lexing;
ghost use Rattle.json.specs.Token.{string};
ghost use Rattle.col_json.specs.Cursor.{Gives, token_of};

use crate::lexemes::{byte_at, null_end, number, skip_spaces, string};
use std::marker::Model;

/// A token. A number and a text are lent from the text that they stand in.
#[derive(Clone, Copy, Debug, Drop)]
pub enum Token<'t> {
    /// The brace that opens an object.
    BeginObject,
    /// The brace that closes one.
    EndObject,
    /// The bracket that opens a list.
    BeginArray,
    /// The bracket that closes one.
    EndArray,
    /// The name of a member.
    Key(&'t [u8]),
    /// A text.
    Text(&'t [u8]),
    /// A number without a point and an exponent.
    Number(&'t [u8]),
    /// Null.
    Null,
}

// What came before: nothing in this object or list, a value, or a value and its comma.
#[derive(Clone, Copy, Drop)]
enum Place {
    Fresh,
    AfterValue,
    AfterComma,
}

/// A place in a text. A clause sees the tokens that are still to come.
#[derive(Drop)]
pub struct Cursor<'t> {
    text: &'t [u8],
    at: usize,
    place: Place,
}

impl<'t> Model for Cursor<'t> {
    ghost use Rattle.std.specs.Prelude.{List, drop};
    ghost use Rattle.json.specs.Lex.{between, lex, punctuate};
    ghost use Rattle.json.specs.Token.{Token as SpecToken, tokens_code};
    ghost use Rattle.col_json.specs.Cursor.{place_of};

    ghost Value = { List SpecToken };

    ghost coded = { tokens_code };

    ghost view = { λ c. punctuate (place_of c.place) (lex between (drop c.at c.text.now)) };
}

// What follows a place where a token was.
#[derive(Clone, Copy, Drop)]
struct Step<'t> {
    token: Token<'t>,
    at: usize,
    place: Place,
}

impl<'t> Cursor<'t> {
    /// The tokens of a text.
    pub fn new(text: &'t [u8]) -> Cursor<'t>
        ensures { result ≡ tokens text.now }
    {
        Cursor {
            text,
            at: 0,
            place: Place::Fresh,
        }
    }

    /// The next token. `None` where the text ends, where a value, a comma or a colon does not stand
    /// where it is to, at a string with an escape or one behind which none of `:`, `,`, `]` and `}`
    /// stands, at a number with a point or an exponent, at `true` and at `false`. Whether brackets
    /// and braces match, and whether members have keys, is the caller's to ask.
    #[inline(always)]
    pub fn next(&mut self) -> Option<Token<'t>>
        ensures { IfSome result (λ t. self.old ≡ token_of t ∷ self.new) }
    {
        let at = skip_spaces(self.text, self.at);
        let step = match self.place {
            Place::Fresh => any_step(self.text, at)?,
            Place::AfterComma => begin(self.text, at)?,
            Place::AfterValue => close(self.text, at)?,
        };
        self.at = step.at;
        self.place = step.place;
        Some(step.token)
    }

    /// Whether no token is left. `false` says nothing.
    pub fn is_done(&self) -> bool
        ensures { IsTrue result → self.now ≡ [] }
    {
        match self.place {
            Place::AfterComma => false,
            _ => skip_spaces(self.text, self.at) >= self.text.len(),
        }
    }
}

// The token at a place where a value may begin and a bracket may close.
#[inline(always)]
fn any_step<'t>(text: &'t [u8], at: usize) -> Option<Step<'t>>
    ensures { IfSome result (Gives lexing.fresh (lex between (drop at text.now)) text.now) }
{
    match byte_at(text, at) {
        b'}' | b']' => close(text, at),
        _ => begin(text, at),
    }
}

// The bracket or brace that closes, at a place where one may stand.
#[inline(always)]
fn close<'t>(text: &'t [u8], at: usize) -> Option<Step<'t>>
    ensures { IfSome result (λ step. (p : lexing.Place) → may_close p ≡ true
        → Gives p (lex between (drop at text.now)) text.now step) }
{
    match byte_at(text, at) {
        b'}' => Some(after(text, at + 1, Token::EndObject)),
        b']' => Some(after(text, at + 1, Token::EndArray)),
        _ => None,
    }
}

// The token that begins a value or a member, at a place where one may stand.
#[inline(always)]
fn begin<'t>(text: &'t [u8], at: usize) -> Option<Step<'t>>
    ensures { IfSome result (λ step. (p : lexing.Place) → may_begin p ≡ true
        → Gives p (lex between (drop at text.now)) text.now step) }
{
    match byte_at(text, at) {
        b'"' => {
            let (found, end) = string(text, at)?;
            string_step(text, found, end)
        }
        b'{' => Some(Step {
            token: Token::BeginObject,
            at: at + 1,
            place: Place::Fresh,
        }),
        b'[' => Some(Step {
            token: Token::BeginArray,
            at: at + 1,
            place: Place::Fresh,
        }),
        b'n' => Some(after(text, null_end(text, at)?, Token::Null)),
        _ => {
            let (found, end) = number(text, at)?;
            Some(after(text, end, Token::Number(found)))
        }
    }
}

// The token of a string that ends at a place: a key before a colon, else a text.
#[inline(always)]
fn string_step<'t>(text: &[u8], found: &'t [u8], end: usize) -> Option<Step<'t>>
    ensures { IfSome result (λ step. (p : lexing.Place) → may_begin p ≡ true
        → Gives p (lexing.token (string found.entry.now) ∷ lex between (drop end text.now))
        text.now step) }
{
    let at = skip_spaces(text, end);
    match byte_at(text, at) {
        b':' => Some(Step {
            token: Token::Key(found),
            at: at + 1,
            place: Place::Fresh,
        }),
        b',' => Some(Step {
            token: Token::Text(found),
            at: at + 1,
            place: Place::AfterComma,
        }),
        b']' | b'}' => Some(Step {
            token: Token::Text(found),
            at,
            place: Place::AfterValue,
        }),
        _ => None,
    }
}

// The step of a token that ends a value at a place: the comma behind it is taken with it.
#[inline(always)]
fn after<'t>(text: &[u8], end: usize, token: Token<'t>) -> Step<'t>
    ensures { (p : lexing.Place) → (lexemes : List Lexeme)
        → punctuate p lexemes
        ≡ token_of token.entry ∷ punctuate after_value (lex between (drop end text.now))
        → Gives p lexemes text.now result }
{
    let at = skip_spaces(text, end);
    if byte_at(text, at) == b',' {
        Step {
            token,
            at: at + 1,
            place: Place::AfterComma,
        }
    } else {
        Step {
            token,
            at,
            place: Place::AfterValue,
        }
    }
}
