//! Laws of what lines give to a query.
ghost use Rattle.eql_stages.specs.Laws.{ReadersFit};

/// What lines give to a checked query fits the run that is made of it: each event stands at its shard and line with a
/// time in range, its masks have no stage above the last, its keys have the query's number of values, and at most one of
/// them is at the last stage. It does nothing.
pub fn readers_fit()
    ensures { ReadersFit }
{}
