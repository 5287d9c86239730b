//! Tests of what a run writes, by public calls alone: the book of matches.
#![tactic(auto)]

#[cfg(test)]
mod tests;
