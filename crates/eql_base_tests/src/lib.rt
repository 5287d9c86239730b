//! Tests of the crates at the base, each by its public calls alone: values, sources and sinks, JSON, texts.
#![tactic(auto)]

#[cfg(test)]
mod tests;
