//! Texts walked character by character, without memory.
ghost use Rattle.std.specs.Prelude.{◌≡◌, ◌≤◌, ◌<◌, ◌+◌, ◌∷◌, ◌++◌, [], length, take, drop, MatchOption, IfSome, is_some};
ghost use Rattle.std.specs.Str.{chars};
ghost use Rattle.eql_text.specs.Folding.{same};
ghost use Rattle.ucd_case.specs.CaseFolding.{simple_fold};
ghost use Rattle.eql_text.specs.Comparing.{starts};
ghost use Rattle.eql_text.specs.Comparing.{is_empty};
ghost use Rattle.eql_text.specs.Repeats.{IsEnding};

use unicode::case::simple_fold;

/// The first character of a text, and what follows it.
pub fn first_char(text: &str) -> Option<(char, &str)>
    ensures characters { MatchOption result
        (chars text.now ≡ [])
        (λ p. chars text.now ≡ p.0 ∷ chars p.1.now) }
    ensures shorter { IfSome result (λ p. length p.1.now < length text.now) }
    ensures ending { IfSome result (λ p. IsEnding text.now p.1.now) }
{
    let mut characters = text.chars();
    let first = characters.next()?;
    Some((first, characters.as_str()))
}

/// The last character of a text, and what stands before it.
pub fn last_char(text: &str) -> Option<(&str, char)>
    ensures characters { MatchOption result
        (chars text.now ≡ [])
        (λ p. chars text.now ≡ chars p.0.now ++ p.1 ∷ []) }
    ensures shorter { IfSome result (λ p. length p.0.now < length text.now) }
    ensures front { IfSome result (λ p. p.0.now ≡ take (length p.0.now) text.now) }
{
    let mut characters = text.chars();
    let last = characters.next_back()?;
    Some((characters.as_str(), last))
}

/// Whether no character is left.
pub fn ended(text: &str) -> bool
    ensures { result ≡ is_empty (chars text.now) }
{
    text.is_empty()
}

/// The simple case folding of a character; of an ASCII letter its small form, without a look into a table.
fn folded(c: char) -> char
    ensures { result ≡ simple_fold c }
{
    if c.is_ascii() {
        c.to_ascii_lowercase()
    } else {
        simple_fold(c)
    }
}

/// Whether two characters compare as equal.
#[tactic(auto, unfolding(crate::specs::Folding::same))]
pub fn same(c: char, d: char, fold: bool) -> bool
    ensures { result ≡ same fold c d }
{
    c == d || fold && folded(c) == folded(d)
}

/// What follows a text where another begins with it.
pub fn strip<'a>(text: &'a str, front: &str, fold: bool) -> Option<&'a str>
    ensures found { is_some result ≡ starts fold (chars text.now) (chars front.now) }
    ensures rest { IfSome result
        (λ rest. chars rest.now ≡ drop (length (chars front.now)) (chars text.now)) }
    ensures within { IfSome result (λ rest. length rest.now ≤ length text.now) }
{
    let mut rest = text;
    let mut wanted = front;
    while let Some((d, after_wanted)) = first_char(wanted) {
        let (c, after) = first_char(rest)?;
        if !same(c, d, fold) {
            return None;
        }
        rest = after;
        wanted = after_wanted;
    }
    Some(rest)
}

/// What follows the first characters of a text, this many.
pub fn skip(text: &str, count: u64) -> Option<&str>
    ensures enough { MatchOption result
        (length (chars text.now) < count)
        (λ rest. count ≤ length (chars text.now)) }
    ensures rest { IfSome result (λ rest. chars rest.now ≡ drop count (chars text.now)) }
    ensures shorter { IfSome result (λ rest. count + length rest.now ≤ length text.now) }
{
    let mut rest = text;
    for place in 0..count {
        let (_, next) = first_char(rest)?;
        rest = next;
    }
    Some(rest)
}
