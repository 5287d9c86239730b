//! Laws of events in two lists, one after the other: where the log is cut doesn't matter.
ghost use Rattle.eql_laws.specs.Splits.{MatchesSplit, AfterSplits};

/// The matches by two lists are those by the first, and those by the second from what is pending then.
#[tactic(auto, using(crate::proofs::Splitting::matches_split))]
pub fn matches_split()
    ensures { MatchesSplit }
{}

/// What is pending after two lists is what is pending after the second, from what is pending after the first.
pub fn after_split()
    ensures { AfterSplits }
{}
