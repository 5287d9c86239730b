//! Laws of the shape of matches and pending sequences.
ghost use Rattle.eql_laws.specs.Shapes.{MatchesAscend, AfterIsReady, MatchesAreFull, AfterIsFull, AfterHasStages, EventsStay, KeysStay, MatchesAreInOrder, OpeningFinds};

/// By ascending events, from sequences that stand before them, matches ascend, and what is pending stands before later events.
pub fn chains_ascend()
    ensures matches { MatchesAscend }
    ensures after { AfterIsReady }
{}

/// A match has an event for each stage, and a pending sequence one for each stage up to its own, from 1 to the one before the last.
pub fn chains_are_full()
    ensures matches { MatchesAreFull }
    ensures after { AfterIsFull }
    ensures stages { AfterHasStages }
{}

/// What holds of all events, or of all keys, holds of those of matches and pending sequences.
pub fn events_and_keys_stay()
    ensures events { EventsStay }
    ensures keys { KeysStay }
{}

/// By ascending events the matches ascend strictly by last event, and then by key.
pub fn matches_in_order()
    ensures { MatchesAreInOrder }
{}

/// Of pending sequences in order each is the one that a look-up finds.
pub fn opening_finds()
    ensures { OpeningFinds }
{}
