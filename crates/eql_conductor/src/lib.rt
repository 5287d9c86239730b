//! The conductor of a search: it feeds lanes, takes from them what lies below the least low, has it played by sixteen parts,
//! and gives what they find to the book.
#![tactic(auto)]

mod advance;
mod bench;
mod feeding;
mod fitting;
mod keeping;
mod laws;
mod note;
mod plan;
mod playing;
mod reading;
mod round;
mod routing;
mod run;
mod saving;
mod snapping;
mod standing;
mod stepping;
mod stop;
mod taking;

pub use bench::{Bench, NotPlayed};
pub use laws::{
    cut_runs_begin, cuts_may_begin, fresh_runs_begin, lanes_go_on, parts_go_on, rounds_find,
    run_cuts_are_of_texts, run_cuts_are_safe, runs_list, told_runs_begin,
};
pub use note::Note;
pub use plan::{Keep, Run, RunPlan};
pub use reading::TakenRound;
pub use run::Conductor;
pub use stop::Stop;
