//! The tests of recoveries and puts, and the data that they read.

mod areas;
mod bytes;
mod cuts;
mod formats;
mod stops;
