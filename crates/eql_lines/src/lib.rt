//! The reading of lines: JSON objects, one an event.
#![tactic(auto)]

mod again;
mod blank;
mod event;
mod kept;
mod laws;
mod line;
mod number;
mod pass;
mod paths;
mod places;
mod read;
mod refused;
mod scan;
mod slots;
mod steps;
mod stops;
mod times;
mod values;
mod walk;
mod wanted;

pub use laws::events_are_in_time;
pub use scan::{LineScan, read_line};
pub use wanted::{Fields, LineRead, Wanted};
