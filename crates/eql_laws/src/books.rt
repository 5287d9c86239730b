//! Laws of what a cut keeps of the output: how many matches there can be, and what pipes have seen.
ghost use Rattle.eql_laws.specs.Books.{InputsGoOn, BookOfFits, BookOfStands, KeptPass, RoutesBoundFound, EventsBoundFound, BelowsAreFew, FoundIsFew};

/// What is kept of the output is as a checkpoint is to have it: no more is listed than was found, and there is a state
/// for each pipe, of its kind, that keeps what it may. It stands in order, and is of matches below the mark.
pub fn book_fits()
    ensures fits { BookOfFits }
    ensures stands { BookOfStands }
{}

/// The input of a pipe goes on from that of the pipe before; and what a test says of each match that was found, it says
/// of each that a pipe keeps.
pub fn pipes_go_on()
    ensures inputs { InputsGoOn }
    ensures kept { KeptPass }
{}

/// No more matches are found than events have routes of the last stage, and no more than events, where each has at
/// most one.
pub fn found_by_events()
    ensures routes { RoutesBoundFound }
    ensures events { EventsBoundFound }
{}

/// There are no more events below a mark than lines, nor than bytes, and so no more matches than a checkpoint may say.
pub fn found_is_few()
    ensures events { BelowsAreFew }
    ensures found { FoundIsFew }
{}
