//! The values that all crates share: the values of fields and the keys made of them, the order of
//! events, events with what they say to each key, pending sequences and matches, the pipes, the
//! counts of lines, the trait of a reader of lines, the test of a span, and how texts are shown in
//! messages. The definitions of matching stand in specs/.
#![tactic(auto)]

mod cut;
mod found;
mod item;
mod laws;
mod lead;
mod memory;
mod order;
mod places;
mod reader;
mod shown;
mod span;
mod text;
mod value;

pub use cut::{
    BookCut, Counts, FirstBad, LaneCut, LaneCuts, Pipe, PipeState, PipeStates, Pipes, Reason,
};
pub use found::{Chain, Holder, Holders, Match, Matches, Numbered, Numbereds, StageChains};
pub use item::{Item, ItemLists, Items, KeyEvent, Mask, Route, Routes};
pub use laws::{order_from_next, orders_agree_with_equality, orders_told_alike};
pub use memory::Memory;
pub use order::{Mark, OrderKey};
pub use places::{Lines, PlaceLists, Places};
pub use reader::{LineGot, LineReader};
pub use shown::{hex_digit, is_hidden, push_hex_digit, push_shown};
pub use span::is_in_time;
pub use text::{Text, Texts};
pub use value::{Key, Kind, Literals, NameKinds, Slots, Value};
