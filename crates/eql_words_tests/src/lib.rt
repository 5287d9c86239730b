//! Tests of the words of the command line, and of the files that they name, by public calls alone.
#![tactic(auto)]

#[cfg(test)]
mod tests;
