//! Patterns with wildcards. In a pattern `*` fits any number of characters and `?` exactly one. The part before
//! the first `*` is laid over the beginning of the text, and each part between two of them is taken at its
//! first place, which loses nothing, since all that follows may begin at any later place. The part behind the
//! last `*` is compared from the end.
ghost use Rattle.std.specs.Prelude.{◌≡◌, ◌≤◌, ◌<◌, ◌∷◌, ◌++◌, ◌==◌, ℕ, List, length, drop, true, false, MatchOption, IfSome, is_some};
ghost use Rattle.std.specs.Str.{chars, NonePass};
ghost use Rattle.eql_text.specs.Comparing.{any_end};
ghost use Rattle.eql_text.specs.Wildcards.{fits, wildcard};
ghost use Rattle.eql_text.specs.Fronts.{begins_fit};

use crate::places::find;
use crate::walk::{ended, first_char, last_char, same};
use eql_values::Text;

/// A part of at most this many bytes is tried at one place after the other, which costs less than a search.
const SHORT: usize = 16;

/// Whether a character other than `*` in a pattern fits a character of a text.
fn fits(d: char, c: char, fold: bool) -> bool
    ensures { result ≡ fits fold d c }
{
    d == '?' || same(c, d, fold)
}

/// What stands before the first of an ASCII character in a text, and behind it.
fn cut(text: &str, at: char) -> Option<(&str, &str)>
    requires { at < 128 }
    ensures { MatchOption result
        (NonePass (λ c. c == at) (chars text.now))
        (λ p. NonePass (λ c. c == at) (chars p.0.now)
        × (chars text.now ≡ chars p.0.now ++ (at ∷ chars p.1.now))
        × (length p.1.now < length text.now)) }
{
    text.split_once(at)
}

/// What follows the characters of a text that a part without `*` fits, where it fits its first ones.
fn fits_front<'t>(text: &'t str, part: &str, fold: bool) -> Option<&'t str>
    ensures found { is_some result ≡ begins_fit fold (chars text.now) (chars part.now) }
    ensures rest { IfSome result
        (λ rest. chars rest.now ≡ drop (length (chars part.now)) (chars text.now)) }
{
    let mut rest = text;
    let mut wanted = part;
    while let Some((d, after_wanted)) = first_char(wanted) {
        let (c, after) = first_char(rest)?;
        if !fits(d, c, fold) {
            return None;
        }
        rest = after;
        wanted = after_wanted;
    }
    Some(rest)
}

/// Whether a pattern without `*` fits the last characters of a text.
fn fits_back(pattern: &str, text: &str, fold: bool) -> bool
    requires { NonePass (λ c. c == 42) (chars pattern.now) }
    ensures { result ≡ any_end (wildcard fold (chars pattern.now)) (chars text.now) }
{
    let mut rest = text;
    let mut wanted = pattern;
    while let Some((before_wanted, d)) = last_char(wanted) {
        let Some((before, c)) = last_char(rest) else {
            return false;
        };
        if !fits(d, c, fold) {
            return false;
        }
        rest = before;
        wanted = before_wanted;
    }
    true
}

/// What is left of a text from the first character on that the first one of a part fits.
fn rest_fitting<'t>(part: &str, text: &'t str, fold: bool) -> &'t str
    requires { NonePass (λ c. c == 42) (chars part.now) }
    ensures same { (q : List ℕ)
        → any_end (wildcard fold (chars part.now ++ (42 ∷ q))) (chars result.now)
        ≡ any_end (wildcard fold (chars part.now ++ (42 ∷ q))) (chars text.now) }
    ensures shorter { length result.now ≤ length text.now }
{
    let Some((d, _)) = first_char(part) else {
        return text;
    };
    let mut rest = text;
    while let Some((c, after)) = first_char(rest) {
        if fits(d, c, fold) {
            break;
        }
        rest = after;
    }
    rest
}

/// What is left of a text behind the first place where a part fits. Places whose character the part's first one
/// doesn't fit are passed at sight, and the others tried one after the other.
fn try_places<'t>(part: &str, text: &'t str, fold: bool) -> Option<&'t str>
    requires { NonePass (λ c. c == 42) (chars part.now) }
    ensures { (q : List ℕ) → MatchOption result
        (any_end (wildcard fold (chars part.now ++ (42 ∷ q))) (chars text.now) ≡ false)
        (λ left. any_end (wildcard fold (chars part.now ++ (42 ∷ q))) (chars text.now)
        ≡ any_end (wildcard fold q) (chars left.now)) }
{
    let mut rest = text;
    'places: loop {
        let near = rest_fitting(part, rest, fold);
        if let Some(left) = fits_front(near, part, fold) {
            return Some(left);
        }
        let (_, next) = first_char(near)?;
        rest = next;
    }
}

/// What is left of a text behind the first place where a part without `*` fits. A long part without `?` is searched
/// in time linear in the text.
fn behind_part<'t>(part: &str, text: &'t str, fold: bool) -> Option<&'t str>
    requires { NonePass (λ c. c == 42) (chars part.now) }
    ensures { (q : List ℕ) → MatchOption result
        (any_end (wildcard fold (chars part.now ++ (42 ∷ q))) (chars text.now) ≡ false)
        (λ left. any_end (wildcard fold (chars part.now ++ (42 ∷ q))) (chars text.now)
        ≡ any_end (wildcard fold q) (chars left.now)) }
{
    if part.len() <= SHORT {
        return try_places(part, text, fold);
    }
    if cut(part, '?').is_some() {
        return try_places(part, text, fold);
    }
    let found = find(text, part, 0, fold)?;
    Some(found.after)
}

/// Whether a pattern fits some end of a text.
fn fits_some_end(pattern: &str, text: &str, fold: bool) -> bool
    ensures { result ≡ any_end (wildcard fold (chars pattern.now)) (chars text.now) }
{
    let mut wanted = pattern;
    let mut rest = text;
    while let Some((part, after)) = cut(wanted, '*') {
        let Some(left) = behind_part(part, rest, fold) else {
            return false;
        };
        wanted = after;
        rest = left;
    }
    fits_back(wanted, rest, fold)
}

fn fits_whole(pattern: &str, text: &str, fold: bool) -> bool
    ensures { result ≡ wildcard fold (chars pattern.now) (chars text.now) }
{
    match cut(pattern, '*') {
        None => match fits_front(text, pattern, fold) {
            Some(rest) => ended(rest),
            None => false,
        },
        Some((part, after)) => match fits_front(text, part, fold) {
            Some(rest) => fits_some_end(after, rest, fold),
            None => false,
        },
    }
}

/// Whether a pattern fits a whole text. `*` fits any number of characters and `?` exactly one; there is no
/// escape. Takes time in proportion to the text and the pattern, but for a part between two `*` that has a
/// `?`: this is tried at one place of the text after the other.
pub fn wildcard(pattern: &Text, text: &Text, fold: bool) -> bool
    ensures { result ≡ wildcard fold pattern.now text.now }
{
    fits_whole(pattern.text(), text.text(), fold)
}
