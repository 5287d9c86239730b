//! Bytes by their kind.
ghost use Rattle.std.specs.Prelude.{◌≡◌, [], ◌∷◌, ◌≤◌, drop, length, MatchOption};
ghost use Rattle.eql_lexer.specs.Bytes.{begins, begins_fraction, is_digit, is_hex, is_letter, is_white, is_word};
ghost use Rattle.eql_lexer.specs.Strings.{triple};

/// Space, tab, carriage return or line feed.
pub fn is_white_byte(b: u8) -> bool
    ensures { result ≡ is_white b }
{
    b == b' ' || b == b'\t' || b == b'\r' || b == b'\n'
}

/// A decimal digit.
pub fn is_digit_byte(b: u8) -> bool
    ensures { result ≡ is_digit b }
{
    48 <= b && b <= 57
}

/// A hexadecimal digit.
pub fn is_hex_byte(b: u8) -> bool
    ensures { result ≡ is_hex b }
{
    is_digit_byte(b) || (65 <= b && b <= 70) || (97 <= b && b <= 102)
}

/// A byte that begins a word.
pub fn is_letter_byte(b: u8) -> bool
    ensures { result ≡ is_letter b }
{
    (65 <= b && b <= 90) || (97 <= b && b <= 122) || b == b'_' || b == b'@'
}

/// A byte that a word goes on with.
pub fn is_word_byte(b: u8) -> bool
    ensures { result ≡ is_word b }
{
    (65 <= b && b <= 90) || (97 <= b && b <= 122) || b == b'_' || is_digit_byte(b)
}

/// The text begins with this byte.
pub fn begins_with(byte: u8, text: &[u8]) -> bool
    ensures { result ≡ begins byte text.now }
{
    match text {
        [] => false,
        [b, ..] => *b == byte,
    }
}

/// The text begins with a dot and a digit.
pub fn begins_fraction_at(text: &[u8]) -> bool
    ensures { result ≡ begins_fraction text.now }
{
    match text {
        [b, c, ..] => *b == b'.' && is_digit_byte(*c),
        _ => false,
    }
}

/// The text begins with three quotes.
pub fn begins_triple(text: &[u8]) -> bool
    ensures { result ≡ triple text.now }
{
    match text {
        [a, b, c, ..] => *a == b'"' && *b == b'"' && *c == b'"',
        _ => false,
    }
}

/// The first byte and the others.
pub fn split(bytes: &[u8]) -> Option<(u8, &[u8])>
    ensures { MatchOption result (bytes.now ≡ []) (λ x. bytes.now ≡ x.0 ∷ x.1.now) }
{
    match bytes {
        [] => None,
        [b, more @ ..] => Some((*b, more)),
    }
}

/// What follows so many bytes.
pub fn skip(bytes: &[u8], count: usize) -> &[u8]
    requires { count ≤ length bytes.now }
    ensures { result.now ≡ drop count bytes.now }
{
    &bytes[count..]
}
