//! The machine of one key.
ghost use Rattle.std.specs.Prelude.{◌≡◌, ℕ, suc, ◌+◌, ◌-◌, ◌<◌, ◌≤◌, ◌++◌, ◌∷◌, [], length, map, replicate, is_some, true, false, not, if◌then◌else◌, None, Some, IsTrue, IfOk, OnErr, MatchOption, slice_index_or, slice_set, IsPermutation};
ghost use Rattle.std.specs.List.{All};
ghost use Rattle.std.specs.Option.{option_to_list};
ghost use Rattle.std.specs.declared.cmp.Ordering.TheVariants.{Less};
ghost use Rattle.eql_values.specs.declared.order.OrderKey.{OrderKey};
ghost use Rattle.eql_values.specs.Masks.{has_after};
ghost use Rattle.eql_values.specs.OrderKeys.{order_cmp};
ghost use Rattle.eql_laws.specs.Slots.{Slots, slots_after, chain_coming};
ghost use Rattle.eql_auto.specs.Holding.{holder_of};
ghost use Rattle.eql_auto.specs.Machine.{ComesAfter, IsAfterTurn, key_event_of, alive_in, chains_of, slot_at, slot_after, stage_chains, stages, stages_in, tags_of};
ghost use Rattle.eql_auto.specs.Starts.{first_event};

use crate::moves::{advance_all, begin_new, empty_at_end, empty_stale};
use crate::steps::Steps;
use crate::table::SlotTable;
use eql_laws::{chain_step, slot_step};
use eql_values::{Chain, Holder, Key, Mask, Memory, OrderKey, StageChains};
use std::alloc::Global;
use std::marker::Model;
use std::sync::ledger::Ledger;

/// The machine of one key: a slot for each stage before the last, each with at most one pending sequence. Each
/// sequence has a tag of the caller's. The tags of those that ceased in a turn are read by `next_gone`.
///
/// Contracts see it as its span in nanoseconds, its slots by stage, the tags that weren't read yet, and whether it has
/// room for one more chain.
pub struct Auto<T, L: Ledger> {
    span: Option<i128>,
    table: SlotTable<T, L>,
    gone: Vec<T>,
    spare: Option<Vec<OrderKey>>,
}

// A drop of its own: where a machine is dropped, also in a crate above, there is one call, and not one for each part.
impl<T: Drop, L: Ledger> Drop for Auto<T, L> {
    fn drop(self) {
        let Auto {
            span: _,
            table: _,
            gone: _,
            spare: _,
        } = self;
    }
}

impl<T, L: Ledger> Model for Auto<T, L> {
    ghost use Rattle.std.specs.Prelude.{length, vec_capacity, is_some};
    ghost use Rattle.eql_auto.specs.Machine.{Machine};
    ghost use Rattle.eql_auto.specs.Kept.{IsFit};

    ghost Value = { Machine T };

    ghost view = { λ a. record {
      span = a.span;
      slots = a.table;
      gone = a.gone.items;
      is_ready = is_some a.spare;
    } };

    ghost invariant = { λ a. IsFit (length a.table) a.spare (vec_capacity a.gone) };
}

impl<T: Copy, L: Ledger> Auto<T, L> {
    /// A machine of 1 to 256 stages with no pending sequence. The span is in nanoseconds.
    pub fn new(alloc: Global, m: u32, span: Option<i128>) -> Result<Auto<T, L>, Memory>
        requires from { 1 ≤ m }
        requires to { m ≤ 256 }
        ensures { IfOk result (λ a. a ≡ record {
          span = span;
          slots = replicate
              (m - 1) None;
          gone = [];
          is_ready = false;
        }) }
    {
        let table = SlotTable::new(alloc, m as usize - 1)?;
        let gone = Vec::with_capacity(alloc, m as usize)?;
        Ok(Auto {
            span,
            table,
            gone,
            spare: None,
        })
    }

    /// Takes the room for the one chain that a turn may begin or `put_holder` puts. After want of memory nothing has
    /// changed.
    pub fn ready(&mut self, alloc: Global) -> Result<(), Memory>
        ensures ok { IfOk result (λ _. self.new ≡ record self.old { is_ready = true }) }
        ensures err { OnErr result (self.new ≡ self.old) }
    {
        if self.spare.is_none() {
            self.spare = Some(Vec::with_capacity(alloc, self.table.len() + 1)?);
        }
        Ok(())
    }

    /// How many chains it holds room for: one for each pending sequence, and one more where it is ready.
    pub fn rooms(&self) -> usize
        ensures { result ≡ length (tags_of self.now.slots) + (if self.now.is_ready then 1 else 0) }
    {
        let pending = self.table.pending();
        if self.spare.is_some() {
            pending + 1
        } else {
            pending
        }
    }

    /// The first event of the pending sequence of the least stage that has one.
    pub fn first_event(&self) -> Option<OrderKey>
        ensures { result ≡ first_event self.now.slots }
    {
        self.table.first_event()
    }

    /// Plays an event that fits the stages of the mask, and the until item where `until` is true. It returns the chain
    /// that has its event for the last stage then, or `None` where none has. It takes no memory.
    ///
    /// An event that ends the key first empties all slots. Then it key_events from the last stage to the first: a sequence
    /// moves on by the event where it is in time, and is dropped where it isn't; what comes to an occupied slot
    /// overwrites the older one; an event that fits stage 1 begins a sequence, with the tag given. Bits of the mask from
    /// the number of stages on mean nothing.
    pub fn turn(
        &mut self,
        order: OrderKey,
        mask: Mask,
        until: bool,
        tag: Option<T>,
        steps: &mut Steps<L>,
    ) -> Option<Chain>
        requires ready { IsTrue self.old.is_ready }
        requires read { self.old.gone ≡ [] }
        requires later { All (ComesAfter order) self.old.slots }
        requires tagged { is_some tag ≡ has_after 0 mask }
        ensures span { self.new.span ≡ self.old.span }
        ensures stages { length self.new.slots ≡ length self.old.slots }
        ensures sequences { (k : ℕ) → 1 ≤ k → k < stages self.old → slot_at self.new.slots k
            ≡ slot_after self.old.span tag (key_event_of order mask until) self.old.slots k }
        ensures slots { (k : ℕ) → 1 ≤ k → k < stages self.old → chains_of self.new.slots k
            ≡ slots_after self.old.span (chains_of self.old.slots)
            (key_event_of order mask until) k }
        ensures answer { result ≡ chain_coming self.old.span (chains_of self.old.slots)
            (key_event_of order mask until) (stages self.old) }
        ensures after { (opening : Slots) → IsAfterTurn opening self.old
            (key_event_of order mask until) self.new result }
        ensures gone { IsPermutation (self.new.gone ++ tags_of self.new.slots)
            (option_to_list tag ++ tags_of self.old.slots) }
        ensures later { (next : OrderKey) → order_cmp order next ≡ Less
            → All (ComesAfter next) self.new.slots }
        ensures ready { self.new.is_ready ≡ not (has_after 0 mask) }
        ensures probes { steps.new ≤ steps.old + stages_in mask (stages self.old)
            + (if until then length self.old.slots else 0) }
    {
        slot_step();
        chain_step();
        empty_at_end(&mut self.table, &mut self.gone, until, steps);
        let completed = advance_all(
            &mut self.table,
            &mut self.gone,
            self.span,
            order,
            &mask,
            steps,
        );
        let begun = begin_new(
            &mut self.table,
            &mut self.gone,
            &mut self.spare,
            order,
            tag,
            steps,
        );
        begun.or(completed)
    }

    /// Empties the slots whose first timestamp plus the span is below `reach`, in nanoseconds, and none where there is
    /// no span. It takes no memory.
    pub fn expire(&mut self, reach: i128, steps: &mut Steps<L>)
        requires read { self.old.gone ≡ [] }
        ensures span { self.new.span ≡ self.old.span }
        ensures slots { self.new.slots ≡ map (alive_in self.old.span reach) self.old.slots }
        ensures gone { IsPermutation (self.new.gone ++ tags_of self.new.slots)
            (tags_of self.old.slots) }
        ensures ready { self.new.is_ready ≡ self.old.is_ready }
        ensures probes { steps.new ≤ steps.old + length self.old.slots }
        ensures idle { self.old.span ≡ None → steps.new ≡ steps.old }
    {
        empty_stale(&mut self.table, &mut self.gone, self.span, reach, steps);
    }

    /// A tag of a sequence that ceased in the last turn or expiry, each once, or `None` where none is left. It takes no
    /// memory.
    pub fn next_gone(&mut self) -> Option<T>
        ensures { MatchOption result ((self.old.gone ≡ []) × (self.new ≡ self.old))
            (λ tag. self.old ≡ record self.new { gone = self.new.gone ++ tag ∷ [] }) }
    {
        self.gone.pop()
    }

    /// The pending sequences with their stages, by stage.
    pub fn holders(&self, alloc: Global) -> Result<StageChains, Memory>
        ensures { IfOk result (λ found. found ≡ stage_chains self.now.slots) }
    {
        self.table.holders(alloc)
    }

    /// Adds the pending sequences, each with a copy of the key, by stage.
    pub fn add_holders(
        &self,
        alloc: Global,
        key: &Key,
        found: &mut Vec<Holder>,
    ) -> Result<(), Memory>
        ensures { IfOk result (λ _. found.new.items ≡ found.old.items
            ++ map (holder_of key.now) (stage_chains self.now.slots)) }
    {
        self.table.add_holders(alloc, key, found)
    }

    /// Puts a pending sequence into the empty slot of its stage. It takes no memory.
    pub fn put_holder(&mut self, stage: u32, chain: Chain, tag: T)
        requires ready { IsTrue self.old.is_ready }
        requires from { 1 ≤ stage }
        requires to { stage < stages self.old }
        requires empty { slot_at self.old.slots stage ≡ None }
        requires full { length chain ≡ stage }
        ensures holders { self.new ≡ record self.old {
          slots = slice_set self.old.slots
              (stage - 1) (Some (chain, tag));
          is_ready = false;
        } }
        ensures tags { IsPermutation (tags_of self.new.slots) (tag ∷ tags_of self.old.slots) }
    {
        match self.spare.take() {
            None => unreachable!(),
            Some(room) => self.table.put(stage, room, &chain, tag),
        }
    }
}
