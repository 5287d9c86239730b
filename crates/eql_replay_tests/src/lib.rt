//! Tests of replays: runs of the conductor over a bench of lists, on which others play before each call.
//!
//! A plan reads lines of JSON in memory. Some runs are worked out by hand. Others are made by a small generator, and their
//! listings are compared with the matches that the look-back finds by the accepted events, which the tests tell from the
//! lines themselves. Runs with cuts are stopped at each call of the disk and at each write, and gone on from what is found.
#![tactic(auto)]

#[cfg(test)]
mod dice;
#[cfg(test)]
mod disks;
#[cfg(test)]
mod expected;
#[cfg(test)]
mod full;
#[cfg(test)]
mod keeping;
#[cfg(test)]
mod listed;
#[cfg(test)]
mod logs;
#[cfg(test)]
mod noting;
#[cfg(test)]
mod opening;
#[cfg(test)]
mod parts;
#[cfg(test)]
mod plans;
#[cfg(test)]
mod queries;
#[cfg(test)]
mod random;
#[cfg(test)]
mod running;
#[cfg(test)]
mod scribe;
#[cfg(test)]
mod starting;
#[cfg(test)]
mod worked;
