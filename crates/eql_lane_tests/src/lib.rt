//! Tests of lanes by their public calls, with a small reader of lines.
#![tactic(auto)]

#[cfg(test)]
mod tests;
