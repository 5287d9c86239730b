//! Laws of the events below a mark: they stand in order, and grow by what lies between two marks.
ghost use Rattle.eql_laws.specs.Belows.{SortedAscends, BelowAscends, BelowGrows, AcceptedComeFromText, BelowAre, OpenLowIsTime, OpenLowIsAtLeast};

/// Events put in order ascend, and so do those below a mark.
pub fn below_ascends()
    ensures sorted { SortedAscends }
    ensures below { BelowAscends }
{}

/// The events below the greater of two marks are those below the lesser, followed by those between.
pub fn below_grows()
    ensures { BelowGrows }
{}

/// What each accepted event of a text is, and each event below a mark.
pub fn accepted_are()
    ensures of_text { AcceptedComeFromText }
    ensures below { BelowAre }
{}

/// The low of an open shard: the greatest timestamp less the slack.
pub fn open_low()
    ensures in_range { OpenLowIsTime }
    ensures at_least { OpenLowIsAtLeast }
{}
