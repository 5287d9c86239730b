//! The tests of lines.

mod lines;
