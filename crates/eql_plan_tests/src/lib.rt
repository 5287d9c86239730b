//! Worked rows of what lines give to plans, written as users write queries, mappings and lines. Their expected values are
//! worked out by hand.
#![tactic(auto)]

#[cfg(test)]
mod tests;
