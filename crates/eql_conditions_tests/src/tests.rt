//! The tests, by what of a query or a condition they look at.

mod answer;
mod by_hand;
mod condition;
mod expressions;
mod functions;
mod many;
mod mappings;
mod nulls;
mod order;
mod patterns;
mod queries;
mod sequences;
mod threads;
