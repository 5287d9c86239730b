//! Tests of the checkpoint areas by their public calls alone, on disks in memory.
#![tactic(auto)]

#[cfg(test)]
mod tests;
