//! White space and comments.
ghost use Rattle.std.specs.Prelude.{◌≡◌, ℕ, List, ◌≤◌, length, MatchOption, IfSome};
ghost use Rattle.eql_lexer.specs.Blanks.{gap, line_comment, within_block};

use crate::byte::{begins_with, is_white_byte};

/// What follows white space and comments. A `/*` that isn't closed is left standing.
pub fn after_gap(text: &[u8]) -> &[u8]
    ensures value { result.now ≡ gap text.now }
    ensures within { length result.now ≤ length text.now }
{
    let mut rest = text;
    while let [b, more @ ..] = rest {
        if is_white_byte(*b) {
            rest = more;
        } else if *b == b'/' && begins_with(b'/', more) {
            rest = after_line(more);
        } else if *b == b'/' && begins_with(b'*', more) {
            match after_block(&more[1..]) {
                Some(behind) => rest = behind,
                None => return rest,
            }
        } else {
            return rest;
        }
    }
    rest
}

/// What follows the end of the line.
fn after_line(text: &[u8]) -> &[u8]
    ensures value { gap result.now ≡ line_comment text.now }
    ensures within { length result.now ≤ length text.now }
{
    let mut rest = text;
    while let [b, more @ ..] = rest {
        if *b == b'\n' {
            return more;
        }
        rest = more;
    }
    rest
}

/// What follows the first `*/`, if there is one.
fn after_block(text: &[u8]) -> Option<&[u8]>
    ensures value { MatchOption result
        ((opening : List ℕ) → within_block opening text.now ≡ opening)
        (λ rest. (opening : List ℕ) → within_block opening text.now ≡ gap rest.now) }
    ensures within { IfSome result (λ rest. length rest.now ≤ length text.now) }
{
    let mut rest = text;
    while let [b, more @ ..] = rest {
        if *b == b'*' && begins_with(b'/', more) {
            return Some(&more[1..]);
        }
        rest = more;
    }
    None
}
