//! Texts of queries: their tokens, their canonical texts, and the lines by which others are refused;
//! the parts of queries, and refusals made by hand. Rows are run by one function each.
#![tactic(auto)]

#[cfg(test)]
mod tests;
