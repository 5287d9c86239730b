//! Laws of late events: one kept time tells who is late, and no event below a safe mark is still to come.
ghost use Rattle.eql_laws.specs.Lateness.{BestTellsLate, BestTellsAccepted, BestGoesOn, BestFromGoesOn, AcceptedSplits, LowRises, NoneComesBelow};

/// One kept time, the greatest so far, tells who is late.
pub fn late_by_best()
    ensures { BestTellsLate }
{}

/// And so it tells which events are accepted.
pub fn accepted_by_best()
    ensures { BestTellsAccepted }
{}

/// The greatest time of two lists goes on from that of the first, and so from any kept time.
pub fn best_goes_on()
    ensures first { BestGoesOn }
    ensures kept { BestFromGoesOn }
{}

/// The accepted events of two lists are those of the first, and those of the second with the kept time going on.
pub fn accepted_split()
    ensures { AcceptedSplits }
{}

/// The low of a shard only rises with further events, and with the end.
pub fn low_rises()
    ensures { LowRises }
{}

/// Every accepted event below a mark that is at most the low of some events stands among them.
pub fn none_comes_below()
    ensures { NoneComesBelow }
{}
