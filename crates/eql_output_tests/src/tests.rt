//! The tests of what is written.

mod book;
