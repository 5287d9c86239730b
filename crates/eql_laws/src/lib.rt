//! Laws over the definitions of matching: the listing doesn't depend on where the log is cut, which keys are
//! handled where, or when stale sequences are dropped; and what a cut keeps is as a checkpoint is to say it. Each law
//! is the contract of a function that does nothing.
#![tactic(auto)]

mod alive;
mod belows;
mod books;
mod bounds;
mod counts;
mod cuts;
mod fitting;
mod lanes;
mod lateness;
mod one_event;
mod parts;
mod pieces;
mod places;
mod resuming;
mod shapes;
mod splits;
mod steps;
mod taking;
mod together;

pub use alive::{
    after_in_order, dead_after, dead_alike, dead_by_slot, dead_for_good, dead_matches,
};
pub use belows::{accepted_are, below_ascends, below_grows, open_low};
pub use books::{book_fits, found_by_events, found_is_few, pipes_go_on};
pub use bounds::{keys_fit, masks_fit, times_fit};
pub use counts::{counts_go_on, fronts_fit};
pub use cuts::{found_fits, held_back_fits, none_is_lost, pending_fits, routes_stay};
pub use fitting::cuts_fit;
pub use lanes::lanes_fit;
pub use lateness::{
    accepted_by_best, accepted_split, best_goes_on, late_by_best, low_rises, none_comes_below,
};
pub use one_event::{after_looks_up, after_none, one_more_event, same_holders};
pub use parts::{
    after_routed, keys_gather, keys_merge, matches_routed, own_holders, part_apart, part_looks_up,
    parts_find_all, parts_gather,
};
pub use pieces::{routed_pieces, times_keep};
pub use places::{accepted_goes_on, late, lines_go_on, numbered_go_on, readable_goes_on};
pub use resuming::{book_goes_on, listing_resumes};
pub use shapes::{
    chains_are_full, chains_ascend, events_and_keys_stay, matches_in_order, opening_finds,
};
pub use splits::{after_split, matches_split};
pub use steps::{chain_reads, chain_step, slot_start, slot_step};
pub use taking::{between_by_shard, handed_out_merges, held_back_grows, late_between, take_splits};
pub use together::ascend_together;
