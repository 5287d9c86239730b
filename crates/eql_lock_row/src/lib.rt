//! Rows of turn locks: many values, each under a lock of its own, and rows of passes, one pass of each lock.
//!
//! A [`LockRow`] has the locks, and a [`PassRow`] is what one caller knows of all of them. The contracts speak of the views of
//! the passes, place by place.
#![tactic(auto)]

mod plays;
mod row;
mod whole;

pub use row::{LockRow, PassRoom, PassRow};
