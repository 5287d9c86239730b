//! Laws of what is kept of texts at a mark: nothing is lost, and what is kept is as it is said to be.
ghost use Rattle.eql_laws.specs.Cuts.{SortedKeepsAll, BelowKeepsAll, HeldBackFits, PendingFits, FoundFits, RoutesStay};

/// Putting events in order loses none: the events below a mark are all accepted ones that lie below it.
pub fn none_is_lost()
    ensures sorted { SortedKeepsAll }
    ensures below { BelowKeepsAll }
{}

/// What a shard holds back at a mark: accepted events of it, not below the mark, in order, no more than were accepted.
pub fn held_back_fits()
    ensures { HeldBackFits }
{}

/// The pending sequences of texts below a mark have stages before the last, an event for each, all of the shards and below the mark.
pub fn pending_fits()
    ensures { PendingFits }
{}

/// The matches of texts below a mark have an event for each stage, all of the shards and below the mark.
pub fn found_fits()
    ensures { FoundFits }
{}

/// What a test says of the routes of each event that is read, it says of those that are held back and of those below a mark.
pub fn routes_stay()
    ensures { RoutesStay }
{}
