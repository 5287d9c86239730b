//! Queries and texts: the reading of a query from its tokens by a recursive descent, and its
//! canonical text.
#![tactic(auto)]

mod laws;
mod message;
mod parser;
mod printing;
mod refusal;

pub use laws::{one_query, one_refusal, prints_back, query_or_refused};
pub use parser::parse;
pub use printing::print;
pub use refusal::ParseRefused;
