//! Tests of the crates of matching, each by its public calls alone: the machine of one key, the pending sequences of all
//! keys and the list under them, a part, the look-back, and the merge.
#![tactic(auto)]

#[cfg(test)]
mod tests;
