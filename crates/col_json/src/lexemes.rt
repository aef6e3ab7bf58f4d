//! Single lexemes of a JSON text, from a place on.
ghost use Rattle.std.specs.Prelude.{◌≡◌, ◌≢◌, ◌+◌, ◌<◌, ◌≤◌, ◌∷◌, ◌||◌, IfSome, IsTrue, drop};
ghost use Rattle.std.specs.Prelude.{length};
ghost use Rattle.std.specs.Prelude.{slice_index_or};
ghost use Rattle.std.specs.Char.{is_ascii_digit};
ghost use Rattle.std.specs.List.{prefix_len};
ghost use Rattle.json.specs.Lex.{between, lex, token};
ghost use Rattle.json.specs.Token.{null, number, string};
ghost use Rattle.json.specs.Word.{after_minus, is_operator, is_space};

/// The byte at a place, or a space past the end.
#[inline(always)]
pub fn byte_at(text: &[u8], at: usize) -> u8
    ensures { result ≡ slice_index_or text.now at 32 }
{
    if at < text.len() { text[at] } else { b' ' }
}

/// The place of the first byte that is no space, from a place on.
#[inline(always)]
pub fn skip_spaces(text: &[u8], at: usize) -> usize
    ensures { lex between (drop at text.now) ≡ lex between (drop result text.now) }
{
    let mut i = at;
    'spaces: while i < text.len() && is_blank(text[i]) {
        i += 1;
    }
    i
}

/// The text of a string without escapes, and the place behind its closing quote.
#[inline(always)]
pub fn string(text: &[u8], at: usize) -> Option<(&[u8], usize)>
    requires { slice_index_or text.now at 32 ≡ 34 }
    ensures { IfSome result (λ found. lex between (drop at text.now)
        ≡ token (string found.0.now) ∷ lex between (drop found.1 text.now)) }
{
    let mut i = at + 1;
    'bytes: while i < text.len() && is_plain(text[i]) {
        i += 1;
    }
    if byte_at(text, i) == b'"' {
        Some((&text[at + 1..i], i + 1))
    } else {
        None
    }
}

/// The place behind `null`.
#[inline(always)]
pub fn null_end(text: &[u8], at: usize) -> Option<usize>
    requires { slice_index_or text.now at 32 ≡ 110 }
    ensures { IfSome result (λ end. lex between (drop at text.now)
        ≡ token null ∷ lex between (drop end text.now)) }
{
    if byte_at(text, at + 1) == b'u'
        && byte_at(text, at + 2) == b'l'
        && byte_at(text, at + 3) == b'l'
        && ends_word(byte_at(text, at + 4))
    {
        Some(at + 4)
    } else {
        None
    }
}

/// The text of a number without a point and an exponent, and the place behind it.
#[inline(always)]
pub fn number(text: &[u8], at: usize) -> Option<(&[u8], usize)>
    ensures { IfSome result (λ found. lex between (drop at text.now)
        ≡ token (number found.0.now) ∷ lex between (drop found.1 text.now)) }
{
    let first = minus_end(text, at);
    let end = digits_end(text, first);
    if !are_whole(text, first, end) || !ends_word(byte_at(text, end)) {
        return None;
    }
    Some((&text[at..end], end))
}

// The place behind a minus sign, where there is one.
#[inline(always)]
fn minus_end(text: &[u8], at: usize) -> usize
    ensures value { drop result text.now ≡ after_minus (drop at text.now) }
    ensures within { at ≤ result }
{
    if byte_at(text, at) == b'-' {
        at + 1
    } else {
        at
    }
}

// The place of the first byte that is no digit, from a place on.
#[inline(always)]
fn digits_end(text: &[u8], at: usize) -> usize
    ensures value { result ≡ at + prefix_len is_ascii_digit (drop at text.now) }
    ensures within { at < result → result ≤ length text.now }
{
    let mut i = at;
    'digits: while i < text.len() && text[i].is_ascii_digit() {
        i += 1;
    }
    i
}

// Whether there are digits between two places, and no zero in front of others.
#[inline(always)]
fn are_whole(text: &[u8], first: usize, end: usize) -> bool
    ensures { IsTrue result → (first < end)
        × (slice_index_or text.now first 32 ≡ 48 → end ≡ first + 1) }
{
    first < end && (byte_at(text, first) != b'0' || end == first + 1)
}

// Whether a byte ends a number or `null`.
#[inline(always)]
fn ends_word(c: u8) -> bool
    ensures { result ≡ (is_operator c || is_space c) }
{
    c == b',' || c == b']' || c == b'}' || is_blank(c) || c == b'{' || c == b'[' || c == b':'
}

// Whether a byte of a string stands for itself. Digits are tried first.
#[inline(always)]
fn is_plain(c: u8) -> bool
    ensures { IsTrue result → (c ≢ 34) × (c ≢ 92) × (32 ≤ c) }
{
    c.is_ascii_digit() || (c >= b' ' && c != b'"' && c != b'\\')
}

// Whether a byte is a space.
#[inline(always)]
fn is_blank(c: u8) -> bool
    ensures { result ≡ is_space c }
{
    c <= b' ' && (c == b' ' || c == b'\n' || c == b'\r' || c == b'\t')
}
