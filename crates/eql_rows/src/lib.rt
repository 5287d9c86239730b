//! Worked runs of the program, as tables that go through the top call over a shelf in memory. Their expected values
//! are worked out by hand.
#![tactic(auto)]

#[cfg(test)]
mod tests;
