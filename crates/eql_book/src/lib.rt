//! The book: it numbers the matches, passes them through the pipes of the query and writes the listing.
#![tactic(auto)]

mod book;
mod gate;
mod head;
mod json;
mod key;
mod laws;
mod ledger;
mod line;
mod page;
mod report;
mod rest;
mod tail;
mod writing;

pub use book::Book;
pub use laws::{adds_go_on, listing_is_whole};
pub use line::listing_line;
pub use report::report_line;
