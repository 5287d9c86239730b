//! The sources of shards, given back to their shelf.
ghost use Rattle.eql_shards.specs.Giving.{TakesBack, lane_returned, return_of};

use eql_lane::Lane;
use eql_outside::Shelf;
use eql_values::LineReader;

/// Gives the sources of lanes back.
pub fn give_lanes<H: Shelf, L: LineReader + Drop>(mut lanes: Vec<Lane<H::Src, L>>, shelf: &mut H)
    ensures back { TakesBack H.Shelf (lane_returned H.Src.lent_as) lanes.items
        shelf.old shelf.new }
{
    'back: while lanes.len() > 0 {
        let lane = lanes.take_last();
        shelf.give_source(lane.into_source());
    }
    lanes.destroy_empty();
}

/// Gives sources back.
pub fn give_sources<H: Shelf>(mut sources: Vec<H::Src>, shelf: &mut H)
    ensures back { TakesBack H.Shelf (return_of H.Src.lent_as H.Src.fault_count) sources.items
        shelf.old shelf.new }
{
    'back: while sources.len() > 0 {
        let source = sources.take_last();
        shelf.give_source(source);
    }
    sources.destroy_empty();
}
