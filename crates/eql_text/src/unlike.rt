//! Places that a search passes over at sight: those where the other text has a character unlike the first one sought.
ghost use Rattle.std.specs.Prelude.{◌≡◌, ◌≤◌, ◌+◌, ◌∷◌, ℕ, List, length, drop};
ghost use Rattle.std.specs.Str.{chars};
ghost use Rattle.eql_text.specs.Placing.{place_from};
ghost use Rattle.eql_text.specs.Repeats.{seen_text, IsLaid, Meets};

use crate::repeats::Laid;
use crate::walk::{first_char, same};

/// A text laid over another further on.
#[derive(Clone, Copy)]
pub struct Near<'s, 't> {
    /// The text as it is laid now.
    pub laid: Laid<'s, 't>,
    /// How many places were passed.
    pub passed: u64,
}

/// An end of a text.
#[derive(Clone, Copy)]
struct Rest<'a> {
    /// The end.
    text: &'a str,
    /// How many characters stand before it.
    passed: u64,
}

/// What is left of a text from its first character on that is like this one; nothing where none is.
fn rest_like<'a>(text: &'a str, first: char, fold: bool) -> Rest<'a>
    ensures found { (n : ℕ) (t : List ℕ) → place_from fold n (chars text.now) (first ∷ t)
        ≡ place_from fold (n + result.passed) (chars result.text.now) (first ∷ t) }
    ensures rest { chars result.text.now ≡ drop result.passed (chars text.now) }
    ensures shorter { result.passed + length result.text.now ≤ length text.now }
{
    let mut rest = text;
    let mut passed = 0;
    while let Some((c, after)) = first_char(rest) {
        if same(c, first, fold) {
            break;
        }
        rest = after;
        passed += 1;
    }
    Rest { text: rest, passed }
}

/// Moves a text that isn't compared yet on to the first place whose character is like its own first one. It isn't
/// moved where some of its characters are known to meet.
pub fn pass_unlike<'s, 't>(t: &'t str, laid: Laid<'s, 't>, fold: bool) -> Near<'s, 't>
    requires laid { IsLaid t.now laid.window.now laid.ahead.now laid.left.now laid.met }
    requires meets { Meets (seen_text fold (chars laid.window.now))
        (seen_text fold (chars t.now)) laid.met }
    ensures laid { IsLaid t.now result.laid.window.now result.laid.ahead.now
        result.laid.left.now result.laid.met }
    ensures meets { Meets (seen_text fold (chars result.laid.window.now))
        (seen_text fold (chars t.now)) result.laid.met }
    ensures found { (n : ℕ) → place_from fold n (chars laid.entry.window.now) (chars t.now)
        ≡ place_from fold (n + result.passed) (chars result.laid.window.now) (chars t.now) }
    ensures rest { chars result.laid.window.now
        ≡ drop result.passed (chars laid.entry.window.now) }
    ensures shorter { result.passed + length result.laid.window.now
        ≤ length laid.entry.window.now }
{
    if laid.met > 0 {
        return Near { laid, passed: 0 };
    }
    let Some((first, _)) = first_char(t) else {
        return Near { laid, passed: 0 };
    };
    let rest = rest_like(laid.window, first, fold);
    Near {
        laid: Laid::at(rest.text, t),
        passed: rest.passed,
    }
}
