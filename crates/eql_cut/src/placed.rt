//! What has places in the order: the lines that it names, and its places set anew.
ghost use Rattle.std.specs.Prelude.{◌≡◌, ◌++◌, ℕ, List, OnOk, IfOk, IsTrue, map};
ghost use Rattle.std.specs.List.{flat_map};
ghost use Rattle.std.specs.FinMap.Entries.{is_sorted};
ghost use Rattle.std.specs.Ordering.{nat_cmp};
ghost use Rattle.eql_values.specs.declared.order.OrderKey.{OrderKey as Order};
ghost use Rattle.eql_cut.specs.Placing.{IsUnplaced, LinesAscend, lines_at, place_in, listed_place};

use eql_values::{OrderKey, PlaceLists};
use std::alloc::{AllocError, Global};

/// The place of a line among lines that ascend, or 0 where it is none of them.
fn place_in(places: &[(u32, u64)], line: u32) -> u64
    requires { IsTrue (is_sorted nat_cmp places.now) }
    ensures { result ≡ place_in places.now line }
{
    match places.binary_search_by_key(&line, |place| place.0) {
        Ok(i) => places[i].1,
        Err(_) => 0,
    }
}

/// The place of a line of a shard, or 0 where no list has it.
fn listed_place(lists: &PlaceLists, shard: u32, line: u32) -> u64
    requires { LinesAscend lists.now }
    ensures { result ≡ listed_place lists.now shard line }
{
    match lists.items().get(shard as usize) {
        Some(places) => place_in(places.items(), line),
        None => 0,
    }
}

/// A value that has places in the order of events.
pub trait Placed: Sized {
    /// Where its events stand.
    ghost orders: { Self → List Order };

    /// The value with the place of each event set by its shard and line.
    ghost lifted: { (ℕ → ℕ → ℕ) → Self → Self };

    /// Puts the lines of its events of a shard behind the others.
    fn push_lines(&self, shard: u32, to: &mut Vec<u32>) -> Result<(), AllocError>
        ensures { OnOk result (to.new.items ≡ to.old.items ++ lines_at shard (orders self.now)) };

    /// Sets the place of each event.
    fn lift(self, alloc: Global, places: &PlaceLists) -> Result<Self, AllocError>
        requires ascend { LinesAscend places.now }
        requires unplaced { IsUnplaced (orders self) }
        ensures { IfOk result (λ x. x ≡ lifted (listed_place places.now) self) };
}

impl Placed for OrderKey {
    ghost use Rattle.std.specs.Prelude.{[], ◌∷◌};
    ghost use Rattle.eql_cut.specs.Placing.{lifted_order};

    ghost orders = { λ o. o ∷ [] };

    ghost lifted = { lifted_order };

    fn push_lines(&self, shard: u32, to: &mut Vec<u32>) -> Result<(), AllocError> {
        if self.shard == shard {
            to.push(self.line)?;
        }
        Ok(())
    }

    fn lift(self, _alloc: Global, places: &PlaceLists) -> Result<OrderKey, AllocError> {
        let at = listed_place(places, self.shard, self.line);
        Ok(OrderKey {
            ts: self.ts,
            tie: self.tie,
            shard: self.shard,
            line: self.line,
            at,
        })
    }
}

/// Puts the lines of the events of a shard behind the others.
pub(crate) fn push_each<T: Placed>(
    items: &[T],
    shard: u32,
    to: &mut Vec<u32>,
) -> Result<(), AllocError>
    ensures { OnOk result
        (to.new.items ≡ to.old.items ++ flat_map (λ x. lines_at shard (T.orders x)) items.now) }
{
    for item in items {
        item.push_lines(shard, to)?;
    }
    Ok(())
}

/// Sets the places of each.
pub(crate) fn lift_each<T: Placed + Drop>(
    alloc: Global,
    items: Vec<T>,
    places: &PlaceLists,
) -> Result<Vec<T>, AllocError>
    requires ascend { LinesAscend places.now }
    requires unplaced { IsUnplaced (flat_map T.orders items.items) }
    ensures { IfOk result (λ v. v.items ≡ map (T.lifted (listed_place places.now)) items.items) }
{
    let mut lifted = Vec::new(alloc);
    for item in items {
        lifted.push(item.lift(alloc, places)?)?;
    }
    Ok(lifted)
}
