//! The places of a text in another.
ghost use Rattle.std.specs.Prelude.{◌≡◌, ◌≤◌, ◌+◌, ◌-◌, ◌<◌, ◌^◌, length, drop, IfSome, is_some, Option, ℕ, MatchOption};
ghost use Rattle.std.specs.Option.{option_map};
ghost use Rattle.std.specs.Str.{chars};
ghost use Rattle.eql_text.specs.Placing.{place_from, last_place_from, start_place, place_after, index_of};

use crate::repeats::{Laid, Runs, meet, move_on};
use crate::unlike::pass_unlike;
use crate::walk::{ended, skip};
use eql_values::Text;

/// A place where a text stands in another, counted in characters, and what follows it there.
#[derive(Clone, Copy)]
pub struct Found<'a> {
    pub place: u64,
    pub after: &'a str,
}

/// The first place of `t` in `s`, where the first character of `s` has the place `start`.
pub fn find<'a>(s: &'a str, t: &str, start: u64, fold: bool) -> Option<Found<'a>>
    requires { start + length s.now < 2 ^ 64 }
    ensures place { option_map (λ f. f.place) result
        ≡ place_from fold start (chars s.now) (chars t.now) }
    ensures after { IfSome result (λ f.
        chars f.after.now ≡ drop (f.place - start + length (chars t.now)) (chars s.now)) }
    ensures within { IfSome result (λ f. f.place ≤ start + length s.now) }
    ensures from { IfSome result (λ f. start ≤ f.place) }
{
    let runs = Runs::of(t, fold);
    let mut place = start;
    let mut laid = Laid::at(s, t);
    'places: loop {
        let met = meet(t, laid, fold);
        if ended(met.left) {
            let after = met.ahead;
            return Some(Found { place, after });
        }
        let step = runs.step(met.met);
        let next = move_on(t, met, step)?;
        let near = pass_unlike(t, next, fold);
        laid = near.laid;
        place += step.by as u64 + near.passed;
    }
}

/// The last place of `t` in `s`.
pub fn find_last(s: &str, t: &str, fold: bool) -> Option<u64>
    ensures place { result ≡ last_place_from fold 0 (chars s.now) (chars t.now) }
{
    let runs = Runs::of(t, fold);
    let mut found = None;
    let mut place = 0;
    let mut laid = Laid::at(s, t);
    'places: loop {
        let met = meet(t, laid, fold);
        if ended(met.left) {
            found = Some(place);
        }
        let step = runs.step(met.met);
        let Some(next) = move_on(t, met, step) else {
            return found;
        };
        laid = next;
        place += step.by as u64;
    }
}

/// The place where a search begins: 0 for a negative number.
fn start_place(start: i64) -> u64
    ensures { result ≡ start_place start }
{
    u64::try_from(start).unwrap_or(0)
}

/// The first place of `t` in `s` at or after `start`, where that isn't above the length.
fn place_after(s: &str, t: &str, start: u64, fold: bool) -> Option<u64>
    ensures place { result ≡ place_after fold (chars s.now) (chars t.now) start }
    ensures within { IfSome result (λ place. place ≤ length s.now) }
{
    let rest = skip(s, start)?;
    let found = find(rest, t, start, fold)?;
    Some(found.place)
}

/// The least place at or after `start` at which `t` stands in `s`; a negative start counts as 0. `None`
/// where there is none, or where the start is above the length.
pub fn index_of(s: &Text, t: &Text, start: i64, fold: bool) -> Option<i64>
    ensures { result ≡ index_of fold s.now t.now start }
{
    let place = place_after(s.text(), t.text(), start_place(start), fold)?;
    Some(place as i64)
}
