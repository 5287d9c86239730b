//! A search over lanes: a run of the conductor, with hands in threads of their own beside it, from the first line of all shards
//! or from a cut to the listing.
#![tactic(auto)]

mod parting;
mod rules;
mod run;

pub use rules::Rules;
pub use run::search;
