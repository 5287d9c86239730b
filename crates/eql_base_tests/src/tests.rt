//! The tests, a module for each crate that they look at, and the tables of texts.

mod json;
mod outside;
mod table;
mod text;
mod values;
