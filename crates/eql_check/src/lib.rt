//! The kinds of expressions, and the check of a query against a mapping. specs/ also defines what conditions mean: Truth,
//! with Functions, Comparisons, Arithmetic and ThreeValued.
#![tactic(auto)]

mod calls;
mod checked;
mod expression;
mod function;
mod items;
mod json;
mod judge;
mod keys;
mod kinds;
mod laws;
mod limits;
mod mapping;
mod message;
mod parts;
mod refused;
mod used;

pub use checked::{Checked, conditions_are_bool, operators_meet_kinds};
pub use function::Function;
pub use json::read_json;
pub use judge::{can_check, check};
pub use kinds::{holds_field, is_null};
pub use laws::{
    check_is_exact, connectives_read, floors_are_exact, kinds_are_exact, kinds_are_kept,
    kinds_are_met, texts_by_characters,
};
pub use mapping::{MapRefused, Mapping};
pub use refused::CheckRefused;
