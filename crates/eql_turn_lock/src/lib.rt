//! A value that several callers play on in turns, each of whom knows its own part of one history.
//!
//! [`TurnLock`] has the value, and a [`Pass`] is what one caller knows of one lock. Each call
//! that is answered is one entry of the lock's history, which a single thread could have made.
//! The contracts speak of a pass by its view: what it has seen of the history, which entries are
//! its own, and which words it met. Views exist in proofs alone and take no memory.
#![tactic(auto)]

mod calls;
mod history;
mod laws;
mod lock;
mod refused;
mod rule;
mod slot;
mod tried;
mod turned;
mod view;
mod waits;

pub use history::Entry;
pub use laws::loads_are_told;
pub use lock::{Pass, TurnLock};
pub use refused::{Memory, NotNow};
pub use tried::Tried;
pub use turned::Turned;
pub use view::{Ended, View};
