//! Laws of lanes: what each step keeps. Each is the contract of a function that does nothing.
ghost use Rattle.eql_lane.specs.Keeps.{FeedsKeep, TakesHandOut, FreshIs, CutsBegin, RetracedIs, LiftedIs, PlacesHaveLines};

/// After every feed a lane keeps what a cut keeps of its text at its place.
pub fn feeds_keep()
    ensures { FeedsKeep }
{}

/// A take hands out what lies between two marks of the whole text, and the lane keeps the rest.
pub fn takes_hand_out()
    ensures { TakesHandOut }
{}

/// A lane that begins with what a cut keeps of a text, or afresh, is what a cut keeps of that text.
/// So is one that is retraced, where its cut lacks nothing but the digest, and one that is lifted,
/// where its cut lacks nothing but the digest and places.
pub fn cuts_begin()
    ensures cuts { CutsBegin }
    ensures fresh { FreshIs }
    ensures retraced { RetracedIs }
    ensures lifted { LiftedIs }
{}

/// The lines before a place of a text are whole, and have the places that they have in the whole text.
pub fn places_have_lines()
    ensures { PlacesHaveLines }
{}
