//! The owner of the nodes' memory.
ghost use Rattle.std.specs.Prelude.{◌≡◌, List as Seq, [], ◌∷◌, ◌++◌};
ghost use Rattle.std.specs.Borrow.{sem};
ghost use Rattle.std.specs.Coded.{prop_coded};
ghost use Rattle.eql_span_list.specs.PlacedNode.{PlacedNode, placed_node, places, IsApart, IsApart-prop, HasNodeAt, HoldsAtNode};
ghost use Rattle.eql_span_list.specs.Ownership.{nodes_own, nodes_lent};

use crate::loose_box::LooseBox;
use crate::node::{Node, Ticket};
use std::alloc::Global;
use std::marker::{Model, PhantomData, Send, Sync};

/// The nodes of a list, each in a block of its own, in the order of the list.
///
/// The store takes no space: the nodes name one another, and the list names the first and the last. It knows nothing
/// of those links. A store can't be dropped, and `destroy_empty` ends only one with no node, so no node is forgotten.
pub(crate) struct NodeStore<T> {
    marker: PhantomData<*mut Node<T>>,
    pub(crate) ghost nodes: { Seq (PlacedNode T) },
    pub(crate) ghost apart: { IsApart (places nodes) } by { prop_coded
        (IsApart-prop (places nodes)) },
}

impl<T> Model for NodeStore<T> {
    ghost also_owns = { λ b. nodes_own T.row b.nodes };

    ghost also_shares = { λ b _ κ. nodes_lent T.row b.nodes κ };
}

unsafe impl<T: Send> Send for NodeStore<T> {}

unsafe impl<T: Sync> Sync for NodeStore<T> {}

impl<T> NodeStore<T> {
    ghost use Rattle.eql_span_list.specs.Lends.{lends_node};

    /// A store with no node.
    pub(crate) fn new() -> NodeStore<T>
        ensures { result.nodes ≡ [] }
    {
        NodeStore {
            marker: PhantomData,
        }
    }

    /// Ends a store that has no node left.
    pub(crate) fn destroy_empty(self)
        requires { self.nodes ≡ [] }
    {
        let NodeStore { marker: _ } = self;
    }

    /// Takes a block in as the last node, and names it.
    pub(crate) fn put(&mut self, block: LooseBox<Node<T>, Global>) -> Ticket
        ensures { self.new.nodes ≡ self.old.nodes ++ placed_node result.pointer block.value ∷ [] }
    {
        let LooseBox { pointer, alloc: _ } = block;
        Ticket {
            pointer: pointer as *mut u8,
        }
    }

    /// Gives the block of a node out. The others stay in order.
    pub(crate) fn take(&mut self, alloc: Global, ticket: Ticket) -> LooseBox<Node<T>, Global>
        requires { HasNodeAt self.old.nodes ticket.pointer }
        ensures { HoldsAtNode self.old.nodes ticket.pointer
            (λ xs n ys. (self.new.nodes ≡ xs ++ ys) × (result.value ≡ n.node)) }
    {
        LooseBox {
            pointer: ticket.pointer as *mut Node<T>,
            alloc,
        }
    }

    /// The node that a ticket names.
    pub(crate) fn get(&self, ticket: Ticket) -> &Node<T>
        requires { HasNodeAt self.now.nodes ticket.pointer }
        ensures { HoldsAtNode self.now.nodes ticket.pointer (λ _ n _. result.now ≡ n.node) }
    {
        unsafe { &*(ticket.pointer as *const Node<T>) }
    }

    /// The node that a ticket names, to write to.
    pub(crate) fn get_mut(&mut self, ticket: Ticket) -> &mut Node<T>
        requires { HasNodeAt self.old.nodes ticket.pointer }
        ensures* writes_back { sem 𝓛 (lends_node T.row self.entry ticket.pointer result) }
        ensures value { HoldsAtNode self.old.nodes ticket.pointer (λ _ n _. result.now ≡ n.node) }
    {
        unsafe { &mut *(ticket.pointer as *mut Node<T>) }
    }
}
