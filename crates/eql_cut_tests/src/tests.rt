//! The tests, by what of a cut they look at.

mod bytes;
mod digests;
mod fitting;
mod lifting;
mod places;
mod texts;
