//! The tests, by what of a lane they look at, and the reader of their lines.

mod digests;
mod feeds;
mod lanes;
mod lifts;
mod reader;
