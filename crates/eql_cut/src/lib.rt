//! Cuts: what a run keeps so that a later run can go on, and the text of it in four formats.
#![tactic(auto)]

mod books;
mod chains;
mod coded;
mod compare;
mod counts;
mod cut;
mod digests;
mod fitting;
mod heads;
mod keeping;
mod lanes;
mod lifting;
mod lists;
mod numbers;
mod ordered;
mod orders;
mod placed;
mod placed_laws;
mod reader;
mod routes;
mod texts;
mod values;
mod whole;

pub use compare::{Differs, agree};
pub use cut::{Cut, CutHead};
pub use fitting::fits;
pub use keeping::{
    changed_texts_are_found, first_format_has_no_places, lifted_cuts_are_placed, lifted_cuts_fit,
    texts_are_decided,
};
pub use lifting::{lift, named};
pub use placed_laws::{
    cuts_have_places, events_are_named, named_lines_were_read, noted_places_serve,
    places_alone_are_set,
};
pub use reader::CutRefused;
pub use whole::{Decoded, decode, encode, encode_behind};
