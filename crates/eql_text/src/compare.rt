//! Two texts compared: equal, at the beginning, at the end, and anywhere.
ghost use Rattle.std.specs.Prelude.{◌≡◌, true};
ghost use Rattle.std.specs.Str.{chars};
ghost use Rattle.eql_text.specs.Comparing.{equal, starts, ends, contains};

use crate::places::find;
use crate::walk::{ended, last_char, same, strip};
use eql_values::Text;

/// Whether two texts are equal, character by character.
pub fn equal(a: &Text, b: &Text, fold: bool) -> bool
    ensures { result ≡ equal fold a.now b.now }
{
    if fold {
        equal_folded(a.text(), b.text())
    } else {
        a == b
    }
}

fn equal_folded(a: &str, b: &str) -> bool
    ensures { result ≡ equal true (chars a.now) (chars b.now) }
{
    match strip(a, b, true) {
        Some(rest) => ended(rest),
        None => false,
    }
}

/// Whether `t` stands at the beginning of `s`.
pub fn starts(s: &Text, t: &Text, fold: bool) -> bool
    ensures { result ≡ starts fold s.now t.now }
{
    strip(s.text(), t.text(), fold).is_some()
}

/// Whether `t` stands at the end of `s`.
pub fn ends(s: &Text, t: &Text, fold: bool) -> bool
    ensures { result ≡ ends fold s.now t.now }
{
    ends_with(s.text(), t.text(), fold)
}

fn ends_with(text: &str, back: &str, fold: bool) -> bool
    ensures { result ≡ ends fold (chars text.now) (chars back.now) }
{
    let mut rest = text;
    let mut wanted = back;
    while let Some((before_wanted, d)) = last_char(wanted) {
        let Some((before, c)) = last_char(rest) else {
            return false;
        };
        if !same(c, d, fold) {
            return false;
        }
        rest = before;
        wanted = before_wanted;
    }
    true
}

/// Whether `t` stands somewhere in `s`.
pub fn contains(s: &Text, t: &Text, fold: bool) -> bool
    ensures { result ≡ contains fold s.now t.now }
{
    find(s.text(), t.text(), 0, fold).is_some()
}
