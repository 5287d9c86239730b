//! A node of the list, and the ticket that names it.

use std::marker::{Send, Sync};

/// The name of one value of a list, as `SpanList::push_back` gave it.
///
/// A ticket owns nothing and reads nothing. It is good for the list that gave it, until its value leaves that list.
#[derive(Clone, Copy)]
pub struct Ticket {
    pub(crate) pointer: *mut u8,
}

unsafe impl Send for Ticket {}

unsafe impl Sync for Ticket {}

/// What lies in one block of memory: a value, and the tickets of its two neighbours.
#[derive(Drop)]
pub struct Node<T> {
    pub(crate) previous: Option<Ticket>,
    pub(crate) next: Option<Ticket>,
    pub(crate) value: T,
}
