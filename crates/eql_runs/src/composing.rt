//! Laws of what a run leaves for the next one, each the contract of a function that does nothing.
ghost use Rattle.eql_runs.specs.Composing.{LeftIsTrusted, EveryLineIsListed, OnlyLinesAreListed, EqualNumbersEqualLines};

use eql_cut::lifted_cuts_fit;
use eql_laws::{cuts_fit, fronts_fit};
use eql_stages::readers_fit;

/// A cut that a run of a checked query puts over at most 256 texts of shards passes all tests of the next run of this search over
/// these texts, and is trusted. So a run that is stopped and begun again is never refused by what it left.
pub fn what_runs_leave_is_trusted()
    ensures { LeftIsTrusted }
{
    readers_fit();
    cuts_fit();
    fronts_fit();
    lifted_cuts_fit();
}

/// Any number of runs of one search over one list of texts, one after the other, of which each was stopped at whatever moment and
/// the last one is done: each line of the listing is in the output of one of them, no output has another whole line, and whole
/// lines of one number are one line, where the search finds fewer than 2^64 matches. So the whole lines of their outputs, one for
/// each number, are the listing behind the lines that were counted when the first one began.
pub fn runs_compose()
    ensures every { EveryLineIsListed }
    ensures only { OnlyLinesAreListed }
    ensures once { EqualNumbersEqualLines }
{}
