//! Signs.
ghost use Rattle.std.specs.Prelude.{◌≡◌, length};
ghost use Rattle.eql_lexer.specs.Signs.{sign_at, spelling};

use crate::byte::begins_with;
use crate::token::Sign;

/// The longest sign that a text begins with. A slash that begins a comment is none.
pub fn leading_sign(text: &[u8]) -> Option<Sign>
    ensures { result ≡ sign_at text.now }
{
    let [b, more @ ..] = text else {
        return None;
    };
    let grows = begins_with(b'=', more);
    match *b {
        b'(' => Some(Sign::Open),
        b')' => Some(Sign::Close),
        b'[' => Some(Sign::OpenBracket),
        b']' => Some(Sign::CloseBracket),
        b',' => Some(Sign::Comma),
        b'.' => Some(Sign::Dot),
        b'|' => Some(Sign::Bar),
        b'?' => Some(Sign::Question),
        b'!' => Some(if grows { Sign::NotEqual } else { Sign::Bang }),
        b'=' => Some(if grows { Sign::Equal } else { Sign::Assign }),
        b'<' => Some(if grows { Sign::AtMost } else { Sign::Less }),
        b'>' => Some(if grows { Sign::AtLeast } else { Sign::Greater }),
        b':' => Some(Sign::Colon),
        b'+' => Some(Sign::Plus),
        b'-' => Some(Sign::Minus),
        b'*' => Some(Sign::Star),
        b'/' => {
            if begins_with(b'*', more) {
                None
            } else {
                Some(Sign::Slash)
            }
        },
        b'%' => Some(Sign::Percent),
        _ => None,
    }
}

/// How many bytes a sign has.
pub fn sign_len(sign: Sign) -> usize
    ensures { result ≡ length (spelling sign) }
{
    match sign {
        Sign::Equal | Sign::NotEqual | Sign::AtMost | Sign::AtLeast => 2,
        _ => 1,
    }
}
