//! What the types of a cut say: the routes of each event stand in order, and the events of each sequence ascend. Each
//! function does nothing but say so.
ghost use Rattle.std.specs.Prelude.{All};
ghost use Rattle.eql_laws.specs.Books.{kept_of};
ghost use Rattle.eql_conductor.specs.Snaps.{HolderAscends, ItemStands, LaneStands, ListedAscends, PipeAscends, TypesSay};

use eql_cut::Cut;
use eql_values::{Holders, Items, LaneCuts, Numbereds, PipeState, PipeStates};

// Of the events of a lane.
fn items_stand(items: &Items)
    ensures { All ItemStands items.now }
{
    for item in items.items() {
        item.routes.stand();
    }
}

// Of the events of all lanes.
fn lanes_stand(lanes: &LaneCuts)
    ensures { All LaneStands lanes.now }
{
    for lane in lanes.items() {
        items_stand(&lane.items);
    }
}

// Of pending sequences.
fn holders_ascend(holders: &Holders)
    ensures { All HolderAscends holders.now }
{
    for holder in holders.items() {
        holder.chain.ascends();
    }
}

// Of numbered matches.
fn listed_ascend(listed: &Numbereds)
    ensures { All ListedAscends listed.now }
{
    for numbered in listed.items() {
        numbered.found.chain.ascends();
    }
}

// Of what a pipe keeps.
fn pipe_ascends(state: &PipeState)
    ensures { PipeAscends state.now }
{
    match state {
        PipeState::Head { passed: _ } => {}
        PipeState::Tail { kept } => listed_ascend(kept),
    }
}

// Of what all pipes keep.
fn pipes_ascend(states: &PipeStates)
    ensures { All PipeAscends states.now }
{
    for state in states.items() {
        pipe_ascends(state);
    }
}

/// Of a cut.
pub(crate) fn types_say(cut: &Cut)
    ensures { TypesSay cut.now }
{
    lanes_stand(&cut.lanes);
    holders_ascend(&cut.holders);
    pipes_ascend(&cut.book.pipes);
}
