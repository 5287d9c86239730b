//! The lines of a listing.
ghost use Rattle.std.specs.Prelude.{◌≡◌, ◌++◌, IfOk, OnOk, string_bytes};
ghost use Rattle.std.specs.List.{flat_map};
ghost use Rattle.std.specs.Str.{chars};
ghost use Rattle.eql_book.specs.Listing.{event_text, match_text};

use crate::key::print_key;
use eql_values::{Match, Memory, OrderKey, Text};
use std::alloc::{AllocError, Global};

/// Prints an event of a match: a space, its shard, a colon and its line, and with `places` an `@`
/// and the bytes of the shard before the line.
fn print_event(waiting: &mut String, event: &OrderKey, places: bool) -> Result<(), AllocError>
    ensures { OnOk result
        (string_bytes waiting.new ≡ string_bytes waiting.old ++ event_text places event.now) }
{
    let shard = event.shard;
    let line = event.line;
    write!(waiting, " {shard}:{line}")?;
    if !places {
        return Ok(());
    }
    let at = event.at;
    write!(waiting, "@{at}")
}

/// Prints the events of a match.
fn print_events(waiting: &mut String, events: &[OrderKey], places: bool) -> Result<(), AllocError>
    ensures { OnOk result
        (string_bytes waiting.new
        ≡ string_bytes waiting.old ++ flat_map (event_text places) events.now) }
{
    for event in events {
        print_event(waiting, event, places)?;
    }
    Ok(())
}

/// Prints a match without a line feed.
pub(crate) fn print_match(
    alloc: Global,
    waiting: &mut String,
    number: u64,
    found: &Match,
    places: bool,
) -> Result<(), AllocError>
    ensures { OnOk result
        (string_bytes waiting.new ≡ string_bytes waiting.old
        ++ match_text places (record { number = number; found = found.now })) }
{
    write!(waiting, "{number} ")?;
    print_key(alloc, waiting, found.key.items())?;
    print_events(waiting, found.chain.items(), places)
}

/// The line of a match in a listing, without its line feed: the number, a space, the key values as
/// a compact JSON array, and for each event a space, its shard, a colon and its line. Shards count
/// from 0 and lines from 1. With `places` each event is followed by `@` and the number of bytes of
/// the shard before its line.
pub fn listing_line(alloc: Global, number: u64, found: &Match, places: bool) -> Result<Text, Memory>
    ensures { IfOk result (λ text.
        text ≡ chars (match_text places (record { number = number; found = found.now }))) }
{
    let mut line = String::new(alloc);
    print_match(alloc, &mut line, number, found, places)?;
    Ok(Text::of(line))
}
