//! The list of pending sequences, in the order of their first events.
//!
//! A [`SpanList`] is a doubly linked list over raw pointers whose values are named by tickets: a value that has gone
//! stale leaves at the front, and one that has matched leaves from the middle by its [`Ticket`].
//!
//! Raw pointers stay in two small modules. `loose_box` makes a box into its pointer and back, and `store` owns the
//! nodes behind such pointers. The links between the nodes are safe code above them, in `links` and `list`.
#![tactic(auto)]

mod links;
mod list;
mod loose_box;
mod node;
mod store;

pub use list::SpanList;
#[doc(hidden)]
pub use node::Node;
pub use node::Ticket;
