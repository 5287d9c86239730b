//! Worked examples of conditions, written as users write them: mappings, kinds, each refusal of the check at both sides
//! of its edge and their order, and what conditions give, evaluated plainly and run as code. Their expected values are
//! worked out by hand, by the tables of the EQL syntax and function references.
#![tactic(auto)]

#[cfg(test)]
mod tests;
