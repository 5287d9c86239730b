//! From the text of a query to its tokens: words, names in backticks, strings, numbers and signs,
//! each with the place where it stands. White space and comments are dropped. What a token is
//! stands in specs/Spelling, and why a text has none in specs/Refusing.
#![tactic(auto)]

mod blank;
mod byte;
mod escape;
mod laws;
mod message;
mod number;
mod quoted;
mod refusal;
mod scan;
mod sign;
mod token;

pub use laws::{none_spelled, one_break, one_list, spelled_or_broken};
pub use refusal::LexRefused;
pub use scan::lex;
pub use token::{Sign, Tok, Token, Tokens};
