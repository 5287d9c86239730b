//! Laws of keys in parts: which keys are handled where doesn't matter.
ghost use Rattle.eql_laws.specs.Parts.{KeysMerge, KeysGather, RoutingKeepsMatches, OwnHoldersSuffice, RoutingKeepsAfter, PartStandsAlone, PartLooksUp, PartsFindAll, PartsGather};

/// The matches are those by the events routed to each part of the keys, merged by last event and then by key.
pub fn keys_merge()
    ensures { KeysMerge }
{}

/// What is pending is what is pending of each part's keys after the events routed to the part, by key and stage.
pub fn keys_gather()
    ensures { KeysGather }
{}

/// The matches by a part's events are the matches of the part's keys.
pub fn matches_routed()
    ensures { RoutingKeepsMatches }
{}

/// For a part's events the part's pending sequences are enough.
pub fn own_holders()
    ensures { OwnHoldersSuffice }
{}

/// What is pending of a part's keys is what is pending after the part's events, from the part's sequences.
pub fn after_routed()
    ensures { RoutingKeepsAfter }
{}

/// A part's later matches depend on its own opening sequences and its own earlier events alone.
pub fn part_apart()
    ensures { PartStandsAlone }
{}

/// A look-up in a part's pending sequences finds those of the part's keys.
pub fn part_looks_up()
    ensures { PartLooksUp }
{}

/// The matches of all parts are those of the whole, each once: those of each part stand in order, no last event and key
/// is in two parts, and merged they are those of the whole.
pub fn parts_find_all()
    ensures { PartsFindAll }
{}

/// What is pending of all parts and alive, put together, is what is pending of the whole and alive, and stands in order.
pub fn parts_gather()
    ensures { PartsGather }
{}
