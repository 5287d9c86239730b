//! The pending sequences of all keys: a machine for each key, and a list of first timestamps.
ghost use Rattle.std.specs.Prelude.{◌≡◌, ◌+◌, ◌-◌, ◌*◌, ◌≤◌, [], ◌∷◌, ◌++◌, All, IfOk, OnErr, length};
ghost use Rattle.std.specs.declared.cmp.Ordering.TheVariants.{Less};
ghost use Rattle.eql_values.specs.declared.order.OrderKey.{OrderKey};
ghost use Rattle.eql_values.specs.Matching.{after, matches};
ghost use Rattle.eql_values.specs.OrderKeys.{order_cmp};
ghost use Rattle.eql_laws.specs.Alive.{HoldersAreInOrder, alive_holders};
ghost use Rattle.eql_laws.specs.Shapes.{HasStageBefore, IsFull};
ghost use Rattle.eql_part.specs.KeyTables.{ComesAfterAll, holders_in, probes_of_all};

use crate::copies::{copy_all, copy_in_order};
use crate::listing::Start;
use crate::puts::{put_all, sort_by_start};
use crate::rooms::Shape;
use crate::routes::play;
use crate::sweeps::sweep_all;
use crate::table::KeyTable;
use eql_auto::Steps;
use eql_laws::{
    after_in_order, after_looks_up, dead_by_slot, events_and_keys_stay, one_more_event,
    opening_finds, same_holders,
};
use eql_span_list::SpanList;
use eql_values::{Holders, Item, Matches, Memory};
use std::alloc::Global;
use std::marker::Model;
use std::sync::ledger::Ledger;

/// The pending sequences of all keys.
///
/// Contracts see it as the number of its stages, its span in nanoseconds, and its pending sequences by key and stage.
pub struct Keys<L: Ledger> {
    shape: Shape,
    machines: KeyTable<L>,
    list: SpanList<Start>,
}

// A drop of its own: where these are dropped, also in a crate above, there is one call, and not one for each part.
impl<L: Ledger> Drop for Keys<L> {
    fn drop(self) {
        let Keys {
            shape: _,
            machines: _,
            list: _,
        } = self;
    }
}

impl<L: Ledger> Model for Keys<L> {
    ghost use Rattle.eql_part.specs.KeyTables.{Pendings, holders_in};
    ghost use Rattle.eql_part.specs.Kept.{IsKept};
    ghost use Rattle.eql_part.specs.Rooms.{entries_of};

    ghost Value = { Pendings };

    ghost view = { λ k. record {
      stages = k.shape.stages;
      span = k.shape.span;
      holders = holders_in (entries_of k.machines);
    } };

    ghost invariant = { λ k. IsKept k.shape.stages k.shape.span k.machines k.list };
}

impl<L: Ledger> Keys<L> {
    /// The sequences of 1 to 256 stages that are pending at the start. The span is in nanoseconds.
    pub fn new(
        alloc: Global,
        m: u32,
        span: Option<i128>,
        holders: Holders,
    ) -> Result<Keys<L>, Memory>
        requires from { 1 ≤ m }
        requires to { m ≤ 256 }
        requires order { HoldersAreInOrder holders }
        requires stages { All (HasStageBefore m) holders }
        requires full { All IsFull holders }
        ensures { IfOk result (λ keys. keys
            ≡ record { stages = m; span = span; holders = holders }) }
    {
        opening_finds();
        same_holders();
        let shape = Shape {
            alloc,
            stages: m,
            span,
        };
        let mut holders = holders.into_items();
        sort_by_start(&mut holders)?;
        let mut machines = KeyTable::new(alloc);
        let mut list = SpanList::new(alloc);
        put_all(&mut machines, &mut list, shape, holders)?;
        Ok(Keys {
            shape,
            machines,
            list,
        })
    }

    /// Plays an event that comes after all events of the pending sequences, and returns the matches that it completes, in
    /// the order of its routes: at most one for each. An event that comes after this one comes after all that is pending
    /// then. After want of memory nothing has changed.
    pub fn take(&mut self, item: &Item, steps: &mut Steps<L>) -> Result<Matches, Memory>
        requires later { ComesAfterAll item.now.order self.old.holders }
        ensures holders { IfOk result (λ _. self.new
            ≡ record self.old {
              holders = after self.old.stages self.old.span self.old.holders
                  (item.now ∷ []);
            }) }
        ensures matches { IfOk result (λ found. found
            ≡ matches self.old.stages self.old.span self.old.holders (item.now ∷ [])) }
        ensures few { IfOk result (λ found. length found ≤ length item.now.routes) }
        ensures later { (next : OrderKey) → order_cmp item.now.order next ≡ Less
            → ComesAfterAll next self.new.holders }
        ensures unchanged { OnErr result (self.new ≡ self.old) }
        ensures probes { steps.new ≤ steps.old + probes_of_all self.old.stages item.now.routes }
    {
        one_more_event();
        events_and_keys_stay();
        after_looks_up();
        after_in_order();
        same_holders();
        item.routes.stand();
        let routes = item.routes.items();
        let found = play(
            &mut self.machines,
            &mut self.list,
            self.shape,
            item.order,
            routes,
            steps,
        )?;
        Ok(Matches::of(found))
    }

    /// Drops the pending sequences that are no longer alive at `reach`: those whose first timestamp plus the span is below
    /// it, in nanoseconds, and none where there is no span. It takes no memory, and looks at those of the earliest first
    /// events alone.
    pub fn sweep(&mut self, reach: i128, steps: &mut Steps<L>)
        ensures holders { self.new
            ≡ record self.old { holders = alive_holders self.old.span reach self.old.holders } }
        ensures probes { steps.new ≤ steps.old
            + (self.old.stages - 1) * (length self.old.holders - length self.new.holders) }
    {
        after_in_order();
        dead_by_slot();
        same_holders();
        sweep_all(&mut self.machines, &mut self.list, self.shape, reach, steps);
    }

    /// How many machines there are. A key with nothing pending has none, so there are no more of them than pending sequences.
    pub fn machines(&self) -> usize
        ensures { result ≤ length self.now.holders }
    {
        self.machines.len()
    }

    /// The pending sequences, by key and stage.
    pub fn holders(&self) -> Result<Holders, Memory>
        ensures holders { IfOk result (λ found. found ≡ self.now.holders) }
        ensures order { IfOk result (λ found. HoldersAreInOrder found) }
    {
        let mut rows = self.machines.by_lead(self.shape)?;
        if let Some(found) = copy_in_order(self.shape.alloc, &rows)? {
            return Ok(Holders::of(found));
        }
        rows.sort_by(|a, b| a.1.cmp(b.1))?;
        let found = copy_all(self.shape.alloc, &rows)?;
        Ok(Holders::of(found))
    }
}
