//! Values under a turn lock, for its tests: a tray of letters, and a meeting of two callers.
#![tactic(auto)]

mod callers;
mod meeting;
#[cfg(test)]
mod tests;
mod threads;
mod tray;

pub use callers::{
    Answer, close_tray, deliver, deliver_after, deliver_waiting, take, take_unless_empty,
};
pub use meeting::{Meeting, MeetingOp};
pub use threads::both;
pub use tray::{Tray, TrayOp, TrayReply};
