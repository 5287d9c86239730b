//! Tests of cuts by public calls alone: their text, which runs they fit, and the places of their
//! lines.
#![tactic(auto)]

#[cfg(test)]
mod tests;
