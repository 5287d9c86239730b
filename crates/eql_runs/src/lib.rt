//! What a run of the program is: the definitions of its listing, its report and its refusals, and the laws that pin
//! them. The crate has no code that runs.
#![tactic(auto)]

mod composing;
mod laws;

pub use composing::{runs_compose, what_runs_leave_is_trusted};
pub use laws::{
    disks_hold_one_thing, disks_hold_something, heads_agree, made_is_searched, matches_are_counted,
    no_run_is_left_out, runs_are_determined, spans_change_no_fit, tested_cuts_are_accepted,
};
