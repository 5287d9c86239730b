//! The rows, and how they are made, split, joined and closed.
ghost use Rattle.std.specs.Prelude.{◌≡◌, ◌≤◌, IfErr, IfOk, length, map};
ghost use Rattle.std.specs.List.{AllZip};
ghost use Rattle.eql_turn_lock.specs.Calls.{Closes};
ghost use Rattle.eql_turn_lock.specs.History.{StartsWith};
ghost use Rattle.eql_turn_lock.specs.Passes.{first_view, new_view, split_view};
ghost use Rattle.eql_lock_row.specs.Rows.{AllAreJoined, AllKnow, AreFirst, joined_views};

use crate::whole::{join_all, lock_all, split_all, unlock_all};
use eql_turn_lock::{Memory, Pass, TurnLock, Turned};
use std::alloc::Global;
use std::marker::Model;

/// Values in a row, each under a lock of its own. Contracts see which locks they are.
///
/// It keeps the room in which the values are handed back.
#[derive(Drop)]
pub struct LockRow<T: Turned> {
    pub(crate) locks: Vec<TurnLock<T>>,
    room: Vec<T>,
}

impl<T: Turned> Model for LockRow<T> {
    ghost use Rattle.std.specs.Prelude.{◌≡◌, ◌≤◌, List, [], length, map, vec_capacity};
    ghost use Rattle.atomic_table.specs.Seated.{TableId};
    ghost use Rattle.eql_lock_row.specs.Rows.{id_of_lock};

    ghost Value = { List TableId };

    ghost view = { λ r. map id_of_lock r.locks.items };

    ghost invariant = { λ r. (r.room.items ≡ [])
        × (length r.locks.items ≤ vec_capacity r.room) };
}

/// One pass of each lock of a row. Contracts see of which locks they are, and what each knows.
#[derive(Drop)]
pub struct PassRow<T: Turned> {
    pub(crate) passes: Vec<Pass<T>>,
}

impl<T: Turned> Model for PassRow<T> {
    ghost use Rattle.eql_lock_row.specs.Rows.{RowView, ids_in, views_in};

    ghost Value = { RowView T T.Op T.Reply };

    ghost view = { λ r. record {
      locks = ids_in r.passes.items;
      views = views_in r.passes.items;
    } };
}

/// Room for a row of passes. Contracts see for how many.
#[derive(Drop)]
pub struct PassRoom<T: Turned> {
    free: Vec<Pass<T>>,
}

impl<T: Turned> Model for PassRoom<T> {
    ghost use Rattle.std.specs.Prelude.{◌≡◌, ℕ, [], vec_capacity};

    ghost Value = { ℕ };

    ghost view = { λ r. vec_capacity r.free };

    ghost invariant = { λ r. r.free.items ≡ [] };
}

impl<T: Turned> PassRow<T> {
    /// How many passes there are.
    pub fn len(&self) -> usize
        ensures locks { result ≡ length self.now.locks }
        ensures views { result ≡ length self.now.views }
    {
        self.passes.len()
    }
}

impl<T: Turned> LockRow<T> {
    /// A lock round each value, and the first pass of each. Where memory is short the values come back in their order.
    pub fn make(alloc: Global, values: Vec<T>) -> Result<(LockRow<T>, PassRow<T>), (Memory, Vec<T>)>
        ensures own { IfOk result (λ made. made.1.locks ≡ made.0) }
        ensures first { IfOk result (λ made. made.1.views ≡ map first_view values.items) }
        ensures count { IfOk result (λ made. length made.0 ≡ length values.items) }
        ensures knows { IfOk result (λ made. AllKnow T.step_of T.is_open made.1.views) }
        ensures back { IfErr result (λ refused. refused.1.items ≡ values.items) }
    {
        let mut values = values;
        let Ok(mut locks) = Vec::with_capacity(alloc, values.len()) else {
            return Err((Memory, values));
        };
        let Ok(mut passes) = Vec::with_capacity(alloc, values.len()) else {
            locks.destroy_empty();
            return Err((Memory, values));
        };
        values.reverse();
        match lock_all(alloc, &mut values, &mut locks, &mut passes) {
            Ok(()) => Ok((
                LockRow {
                    locks,
                    room: values,
                },
                PassRow { passes },
            )),
            Err(memory) => {
                unlock_all(locks, passes, &mut values);
                values.reverse();
                Err((memory, values))
            }
        }
    }

    /// How many locks there are.
    pub fn len(&self) -> usize
        ensures { result ≡ length self.now }
    {
        self.locks.len()
    }

    /// Room for one pass of each lock.
    pub fn room(&self, alloc: Global) -> Result<PassRoom<T>, Memory>
        ensures { IfOk result (λ room. length self.now ≤ room) }
    {
        match Vec::with_capacity(alloc, self.locks.len()) {
            Ok(free) => Ok(PassRoom { free }),
            Err(_) => Err(Memory),
        }
    }

    /// A further pass of each lock. Each has seen what the first one has, and plays open operations alone. It takes no memory.
    pub fn split(&self, passes: &mut PassRow<T>, room: PassRoom<T>) -> PassRow<T>
        requires own { passes.old.locks ≡ self.now }
        requires first { AreFirst passes.old.views }
        requires room { length self.now ≤ room }
        ensures own { (passes.new.locks ≡ self.now) × (result.locks ≡ self.now) }
        ensures first { passes.new.views ≡ map split_view passes.old.views }
        ensures new { result.views ≡ map new_view passes.old.views }
        ensures knows { AllKnow T.step_of T.is_open passes.old.views
            → AllKnow T.step_of T.is_open passes.new.views
            × AllKnow T.step_of T.is_open result.views }
    {
        let mut new = room.free;
        split_all(&self.locks, &mut passes.passes, &mut new);
        PassRow { passes: new }
    }

    /// Takes another row of passes into the first ones, each of which keeps the longer of what both have seen. It takes no memory.
    pub fn join(&self, passes: &mut PassRow<T>, other: PassRow<T>)
        requires own { (passes.old.locks ≡ self.now) × (other.locks ≡ self.now) }
        requires first { AreFirst passes.old.views }
        ensures own { passes.new.locks ≡ self.now }
        ensures joined { passes.new.views ≡ joined_views passes.old.views other.views }
        ensures knows { AllKnow T.step_of T.is_open passes.new.views }

        // What each of the two had seen begins what the first one has seen now.
        ensures seen { AllZip (λ w v. StartsWith w.seen v.seen) passes.new.views passes.old.views }
        ensures other { AllZip (λ w v. StartsWith w.seen v.seen) passes.new.views other.views }
    {
        join_all(&self.locks, &mut passes.passes, other.passes);
    }

    /// The values in their order, once all other passes were joined into the first ones. It takes no memory.
    pub fn close(self, passes: PassRow<T>) -> Vec<T>
        requires own { passes.locks ≡ self }
        requires first { AreFirst passes.views }
        requires all_joined { AllAreJoined passes.views }
        ensures { AllZip (Closes T.step_of T.is_open) passes.views result.items }
    {
        let mut values = self.room;
        unlock_all(self.locks, passes.passes, &mut values);
        values.reverse();
        values
    }
}
