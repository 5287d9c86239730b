//! The links of the list: each node names its neighbours, and two tickets name the ends.
ghost use Rattle.std.specs.Prelude.{◌≡◌};
ghost use Rattle.eql_span_list.specs.Chain.{next_set, previous_set, end_set, NamesNode};

use crate::node::Ticket;
use crate::store::NodeStore;

/// The nodes, and the tickets of the first and the last of them.
///
/// That the links agree is an invariant of `SpanList`. Here they may disagree, as they do while a node is on its way
/// in or out.
pub(crate) struct Links<T> {
    pub(crate) store: NodeStore<T>,
    pub(crate) first: Option<Ticket>,
    pub(crate) last: Option<Ticket>,
}

impl<T> Links<T> {
    /// Has `next` follow the node `previous`, or lead the list where there is none.
    pub(crate) fn set_next(&mut self, previous: Option<Ticket>, next: Option<Ticket>)
        requires { NamesNode self.old.store.nodes previous }
        ensures nodes { self.new.store.nodes ≡ next_set previous next self.old.store.nodes }
        ensures ends { (self.new.first ≡ end_set previous next self.old.first)
            × (self.new.last ≡ self.old.last) }
    {
        match previous {
            Some(ticket) => self.store.get_mut(ticket).next = next,
            None => self.first = next,
        }
    }

    /// Has `previous` stand before the node `next`, or end the list where there is none.
    pub(crate) fn set_previous(&mut self, next: Option<Ticket>, previous: Option<Ticket>)
        requires { NamesNode self.old.store.nodes next }
        ensures nodes { self.new.store.nodes ≡ previous_set next previous self.old.store.nodes }
        ensures ends { (self.new.first ≡ self.old.first)
            × (self.new.last ≡ end_set next previous self.old.last) }
    {
        match next {
            Some(ticket) => self.store.get_mut(ticket).previous = previous,
            None => self.last = previous,
        }
    }
}
