//! Escapes of strings.
ghost use Rattle.std.specs.Prelude.{◌≡◌, None, Some, MatchOption, IfSome};
ghost use Rattle.std.specs.Str.{IsUtf8};
ghost use Rattle.eql_lexer.specs.Escapes.{escape, unicode};

use crate::byte::{begins_with, split};
use crate::number::{hex_len, hex_number_of};

/// The character of an escape, from behind its backslash, and what follows it.
pub fn leading_escape(bytes: &[u8]) -> Option<(char, &[u8])>
    ensures { MatchOption result (escape bytes.now ≡ None)
        (λ x. escape bytes.now ≡ Some (x.0, x.1.now)) }
{
    let (c, more) = split(bytes)?;
    match c {
        b'n' => Some(('\n', more)),
        b'r' => Some(('\r', more)),
        b't' => Some(('\t', more)),
        b'\\' => Some(('\\', more)),
        b'"' => Some(('"', more)),
        b'u' => leading_unicode(more),
        _ => None,
    }
}

/// The character that two to eight hexadecimal digits in braces name, and what follows it.
fn leading_unicode(bytes: &[u8]) -> Option<(char, &[u8])>
    ensures { MatchOption result (unicode bytes.now ≡ None)
        (λ x. unicode bytes.now ≡ Some (x.0, x.1.now)) }
{
    let (b, more) = split(bytes)?;
    let len = hex_len(more);
    if b != b'{' || len < 2 || 8 < len || !begins_with(b'}', &more[len..]) {
        return None;
    }
    let code = hex_number_of(&more[..len]);
    let c = char::from_u32(code)?;
    Some((c, &more[len + 1..]))
}
