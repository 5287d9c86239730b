//! The lines of a listing: how many they are, the first and the last.
ghost use Rattle.std.specs.Prelude.{◌≡◌, ◌<◌, [], ◌∷◌, MatchOption, length};
ghost use Rattle.eql_values.specs.Lines.{lines_of};
ghost use Rattle.eql_summary.specs.Ends.{AreEnds};

use memchr::memchr;

/// How many lines a text has, and its first and its last line; `none` stands for them where it has no line.
#[derive(Clone, Copy)]
pub(crate) struct Ends<'a> {
    pub(crate) count: usize,
    pub(crate) first: &'a [u8],
    pub(crate) last: &'a [u8],
}

/// The first line of a text, without its line feed, and what follows it. Nothing where the text is empty.
fn next_line(text: &[u8]) -> Option<(&[u8], &[u8])>
    ensures lines { MatchOption result (text.now ≡ [])
        (λ x. lines_of text.now ≡ x.0.now ∷ lines_of x.1.now) }
    ensures shorter { MatchOption result (text.now ≡ [])
        (λ x. length x.1.now < length text.now) }
{
    if text.is_empty() {
        return None;
    }
    match memchr(b'\n', text) {
        Some(end) => Some((&text[..end], &text[end + 1..])),
        None => Some((text, &[])),
    }
}

impl<'a> Ends<'a> {
    /// The ends of this text.
    pub(crate) fn of(text: &'a [u8]) -> Ends<'a>
        ensures { AreEnds (lines_of text.now) result }
    {
        let mut ends = Ends {
            count: 0,
            first: b"none",
            last: b"none",
        };
        let mut rest = text;
        while let Some((line, others)) = next_line(rest) {
            if ends.count == 0 {
                ends.first = line;
            }
            ends.last = line;
            ends.count += 1;
            rest = others;
        }
        ends
    }
}
