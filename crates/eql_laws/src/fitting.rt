//! The law of a whole cut.
ghost use Rattle.eql_laws.specs.Fitting.{CutsFit, CutsStand};

/// What a cut of texts keeps at a safe time fits the run, where what was read is no more than shards may have. It
/// always stands in the orders and counts that the text of a cut has.
pub fn cuts_fit()
    ensures fit { CutsFit }
    ensures stand { CutsStand }
{}
