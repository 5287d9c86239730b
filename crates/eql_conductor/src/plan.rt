//! What a run of the conductor is by.

use eql_book::Book;
use eql_ckdisk::CkState;
use eql_cut::CutHead;
use eql_values::Mark;

/// How a run goes.
#[derive(Drop)]
pub struct RunPlan {
    /// How many lines a feed reads at most, and how many events a turn plays, 1 to 4,096.
    pub batch: u32,
    /// After how many counted rounds a cut is kept, at least 1; none where no cut is kept.
    pub every: Option<u32>,
    /// What a cut says of its run.
    pub head: CutHead,
    /// The mark that it begins at: the start, or the mark of the cut that it goes on from.
    pub mark: Mark,
}

/// Where a run keeps its cuts.
#[derive(Drop)]
pub struct Keep<D> {
    /// The disk of the two areas.
    pub disk: D,
    /// Where the last cut stands.
    pub state: CkState,
}

/// What a run carries from its beginning to its end.
#[derive(Drop)]
pub struct Run<D> {
    /// How it goes.
    pub plan: RunPlan,
    /// What was found, and what the pipes hold back.
    pub book: Book,
    /// Where it keeps its cuts, if it does.
    pub keep: Option<Keep<D>>,
}
