//! Laws of the counts of a text's lines: how they go on, and how many lines a shard may have.
ghost use Rattle.eql_laws.specs.Counting.{FrontsAreWithin, FrontsFit, KeptTellsLate, CountsGoOn, CountsStepOn};

/// The part of a text before a place has no more lines and bytes than the whole. So what was read of texts that
/// shards may have is no more than shards may have.
pub fn fronts_fit()
    ensures within { FrontsAreWithin }
    ensures fit { FrontsFit }
{}

/// The counts of two texts go on from those of the first, with one kept time that tells who is late.
pub fn counts_go_on()
    ensures late { KeptTellsLate }
    ensures texts { CountsGoOn }
    ensures lines { CountsStepOn }
{}
