//! The tests of words and of the files that they name, and what runs their rows.

mod inputs;
mod rows;
mod tables;
