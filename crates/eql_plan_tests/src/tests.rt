//! The tests of plans, and what runs their rows.

mod plans;
mod stages;
mod trial;
