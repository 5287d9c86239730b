//! The conductor's parts: the pending sequences of all keys of a part, and what an event does to them.
#![tactic(auto)]

mod copies;
mod hash;
mod index;
mod keys;
mod lead;
mod listing;
mod machine;
mod prepared;
mod puts;
mod rooms;
mod routes;
mod single;
mod sweeps;
mod table;
mod turns;

pub use hash::hash_of;
pub use keys::Keys;
