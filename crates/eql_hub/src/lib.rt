//! Lanes and parts that several hands play on at once, each under a lock of its own.
//!
//! A [`Hub`] has the lanes and the parts. A [`Hand`] has a pass of each, and does what is to be done somewhere, without waiting:
//! it feeds lanes and turns parts. The first hand alone may play all operations. A [`Bell`] is what hands without work sleep on.
#![tactic(auto)]

mod bell;
mod calls;
mod hand;
mod hub;
mod places;
mod step;
mod wrapped;

pub use bell::Bell;
pub use hub::{Hand, Hub};
pub use step::{Did, HandFault};
pub use wrapped::{TurnedLane, TurnedPart};
