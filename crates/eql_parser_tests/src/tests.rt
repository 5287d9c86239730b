//! The tests, by whether a query is read from a text or made by hand.

mod by_hand;
mod texts;
