//! The string functions of the Event Query Language: wildcards, comparing with and without case folding,
//! places and parts of texts, and numbers and IPv4 addresses read from texts. Places and lengths count
//! characters from 0. Folding compares characters by their simple case foldings (The Unicode Standard,
//! section 3.13). What each function returns is defined on lists of characters, in specs/.
#![tactic(auto)]

mod addresses;
mod compare;
mod numbers;
mod parts;
mod pattern;
mod places;
mod repeats;
mod unlike;
mod walk;

pub use addresses::{Block, in_block, ip4_from_str, parse_block, parse_ip4};
pub use compare::{contains, ends, equal, starts};
pub use numbers::{LongRead, long_from_str, parse_long, parse_number};
pub use parts::{between, substring};
pub use pattern::wildcard;
pub use places::index_of;
