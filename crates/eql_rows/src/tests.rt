//! The rows, by what they show, and what runs them.

mod checkpoints;
mod conditions;
mod crashes;
mod cuts;
mod faults;
mod files;
mod hands;
mod kept;
mod lines;
mod queries;
mod row;
mod run;
mod sequences;
mod shards;
mod text;
mod values;
mod words;
