//! Tests of the reading of lines, by public calls alone.
#![tactic(auto)]

#[cfg(test)]
mod tests;
