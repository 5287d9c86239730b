//! A law of what a cut keeps of shards.
ghost use Rattle.eql_laws.specs.Lanes.{LanesOfFit};

/// What is kept of shards at a safe time is as a checkpoint is to have it, where what was read of them is no more than
/// shards may have.
pub fn lanes_fit()
    ensures { LanesOfFit }
{}
