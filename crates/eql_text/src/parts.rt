//! Parts of texts.
ghost use Rattle.std.specs.Prelude.{◌≡◌, ◌≤◌, ◌-◌, ◌<◌, ◌^◌, length, drop, take, IfOk, []};
ghost use Rattle.std.specs.Str.{chars};
ghost use Rattle.eql_text.specs.Cutting.{place_in, end_in, part, substring, place_sought, between};

use crate::places::{find, find_last};
use eql_values::{Memory, Text};
use std::alloc::Global;

/// The part of a text from one place up to and not including another, as many characters as there are.
fn part(alloc: Global, text: &str, from: usize, to: usize) -> Result<Text, Memory>
    ensures { IfOk result (λ t. t ≡ part from to (chars text.now)) }
{
    let count = to.saturating_sub(from);
    let characters: String = text.chars().skip(from).take(count).collect(alloc)?;
    Ok(Text::of(characters))
}

/// How many characters a text has.
fn length(text: &str) -> usize
    ensures count { result ≡ length (chars text.now) }
    ensures within { result ≤ length text.now }
{
    text.chars().count()
}

/// The place that a number names in a text of this many characters: a negative number counts from the
/// end, and what lies outside is held at 0 or at the length.
fn place_in(length: usize, number: i64) -> usize
    requires { length < 2 ^ 63 }
    ensures { result ≡ place_in length number }
{
    if number < 0 {
        length.saturating_sub(number.unsigned_abs() as usize)
    } else {
        length.min(number as usize)
    }
}

/// The place where a part ends: the length where no number is given.
fn end_in(length: usize, number: Option<i64>) -> usize
    requires { length < 2 ^ 63 }
    ensures { result ≡ end_in length number }
{
    match number {
        Some(number) => place_in(length, number),
        None => length,
    }
}

/// The part of `s` from `from` up to and not including `to`, or up to the end. A negative number counts
/// from the end; both are then held within 0 and the length. `Memory` where memory ran out.
pub fn substring(alloc: Global, s: &Text, from: i64, to: Option<i64>) -> Result<Text, Memory>
    ensures { IfOk result (λ t. t ≡ substring s.now from to) }
{
    let text = s.text();
    let length = length(text);
    part(alloc, text, place_in(length, from), end_in(length, to))
}

/// The first place of `t` in `s`, or the last.
fn place_sought(s: &str, t: &str, greedy: bool, fold: bool) -> Option<u64>
    ensures { result ≡ place_sought greedy fold (chars s.now) (chars t.now) }
{
    if greedy {
        find_last(s, t, fold)
    } else {
        let found = find(s, t, 0, fold)?;
        Some(found.place)
    }
}

/// What stands between the end of the first `l` in `s` and the first `r` at or after it, or the last `r`
/// where `greedy`; empty where either isn't there. `Memory` where memory ran out.
pub fn between(
    alloc: Global,
    s: &Text,
    l: &Text,
    r: &Text,
    greedy: bool,
    fold: bool,
) -> Result<Text, Memory>
    ensures { IfOk result (λ t. t ≡ between s.now l.now r.now greedy fold) }
{
    between_in(alloc, s.text(), l.text(), r.text(), greedy, fold)
}

fn between_in(
    alloc: Global,
    s: &str,
    l: &str,
    r: &str,
    greedy: bool,
    fold: bool,
) -> Result<Text, Memory>
    ensures { IfOk result
        (λ t. t ≡ between (chars s.now) (chars l.now) (chars r.now) greedy fold) }
{
    let Some(left) = find(s, l, 0, fold) else {
        return Ok(empty(alloc));
    };
    match place_sought(left.after, r, greedy, fold) {
        Some(count) => part(alloc, left.after, 0, count as usize),
        None => Ok(empty(alloc)),
    }
}

/// The empty text.
fn empty(alloc: Global) -> Text
    ensures { result ≡ [] }
{
    Text::of(String::new(alloc))
}
