//! The lock and its passes: how they are made, split, joined and closed.
ghost use Rattle.std.specs.Prelude.{◌≡◌, true, [], ◌∷◌, Some, None};
ghost use Rattle.eql_turn_lock.specs.declared.slot.Slot.{Slot};
ghost use Rattle.eql_turn_lock.specs.Passes.{is_live};

use crate::refused::Memory;
use crate::rule::{JoinIn, Learn, OneHistory, SplitOff};
use crate::slot::Slot;
use crate::turned::Turned;
use crate::view::View;
use atomic_table::{Refused, Seat, Table};
use std::alloc::Global;
use std::snapshot::Snapshot;
use std::sync::atomic::AtomicU64;

/// A value with one history. At most one pass holds the turn, and it alone reaches the value.
///
/// Threads share a lock by reference, where the value may be sent between threads. Apart from
/// what the value's own operations do, no call but `make` takes memory.
#[derive(Drop)]
pub struct TurnLock<T: Turned> {
    pub(crate) table: Table<
        Slot<T, T::Op, T::Reply>,
        View<T, T::Op, T::Reply>,
        Snapshot<T>,
        OneHistory,
        Global,
    >,
    /// How many calls sleep, or are about to.
    pub(crate) waiting: AtomicU64,
    ghost sized: { (table.shared.table_id.words ≡ 2) × (table.shared.table_id.slots ≡ 1) },
}

/// What one caller knows of one lock, and its leave to call it. It has no bytes.
///
/// A pass may be sent to another thread where the value may.
#[derive(Drop)]
pub struct Pass<T: Turned> {
    pub(crate) seat: Seat<Slot<T, T::Op, T::Reply>, View<T, T::Op, T::Reply>>,
    ghost idle: { (seat.me.1 ≡ []) × (seat.me.0.turn ≡ None) × (is_live seat.me.0 ≡ true) },
}

impl<T: Turned> TurnLock<T> {
    ghost use Rattle.std.specs.Prelude.{length, IfOk, IfErr};
    ghost use Rattle.eql_turn_lock.specs.History.{StartsWith};
    ghost use Rattle.eql_turn_lock.specs.Passes.{first_view, split_view, new_view, joined_view, KnowsHistory};
    ghost use Rattle.eql_turn_lock.specs.Locks.{IsPassOf, view_of};
    ghost use Rattle.eql_turn_lock.specs.Calls.{Closes};

    /// A lock round the value, and its first pass. Where memory is short the value comes back.
    pub fn make(alloc: Global, value: T) -> Result<(TurnLock<T>, Pass<T>), (Memory, T)>
        ensures own { IfOk result (λ made. IsPassOf made.0 made.1) }
        ensures first { IfOk result (λ made. view_of made.1 ≡ first_view value) }
        ensures knows { IfOk result (λ made. KnowsHistory T.step_of T.is_open (view_of made.1)) }
        ensures back { IfErr result (λ refused. refused.1 ≡ value) }
    {
        let opening = Snapshot::of(&value);
        let mut slots = Vec::new(alloc);
        if slots.reserve(1).is_err() {
            slots.destroy_empty();
            return Err((Memory, value));
        }
        slots.push_reserved(Slot {
            value: Some(value),
            last: None,
        });
        match Table::new(alloc, &[0, u64::MAX], slots, &opening) {
            Ok((table, seat)) => {
                let lock = TurnLock {
                    table,
                    waiting: AtomicU64::new(0),
                };
                Ok((lock, Pass { seat }))
            }
            Err(Refused { slots }) => Err((Memory, value_of(slots))),
        }
    }

    /// A further pass, which has seen what the first one has. It plays open operations alone.
    pub fn split(&self, pass: &mut Pass<T>) -> Pass<T>
        requires own { IsPassOf self.now pass.old }
        requires first { (view_of pass.old).number ≡ 0 }
        ensures own { IsPassOf self.now pass.new × IsPassOf self.now result }
        ensures first { view_of pass.new ≡ split_view (view_of pass.old) }
        ensures new { view_of result ≡ new_view (view_of pass.old) }

        // Whoever knew that the first pass stands in the one history knows it of both.
        ensures knows { KnowsHistory T.step_of T.is_open (view_of pass.old)
            → KnowsHistory T.step_of T.is_open (view_of pass.new)
            × KnowsHistory T.step_of T.is_open (view_of result) }
    {
        Pass {
            seat: self.table.shared.split_seat::<SplitOff>(&mut pass.seat),
        }
    }

    /// Takes another pass into the first one, which keeps the longer of what both have seen.
    pub fn join(&self, pass: &mut Pass<T>, other: Pass<T>)
        requires own { IsPassOf self.now pass.old × IsPassOf self.now other }
        requires first { (view_of pass.old).number ≡ 0 }
        ensures own { IsPassOf self.now pass.new }
        ensures joined { view_of pass.new ≡ joined_view (view_of pass.old) (view_of other) }

        // What each of the two had seen begins what the first one has seen now.
        ensures seen { StartsWith (view_of pass.new).seen (view_of pass.old).seen
            × StartsWith (view_of pass.new).seen (view_of other).seen }
        ensures knows { KnowsHistory T.step_of T.is_open (view_of pass.new) }
    {
        let Pass { seat } = other;
        self.table.shared.join_seat::<JoinIn>(&mut pass.seat, seat);
        self.table.shared.load::<Learn>(&mut pass.seat, 0);
    }

    /// The value at the end of the history, once all other passes were joined into the first one.
    pub fn close(self, pass: Pass<T>) -> T
        requires own { IsPassOf self pass }
        requires first { (view_of pass).number ≡ 0 }
        requires all_joined { length (view_of pass).ended ≡ (view_of pass).made }
        ensures { Closes T.step_of T.is_open (view_of pass) result }
    {
        let table = self.table;
        let Pass { seat } = pass;
        let mut closed = table.close_with(seat);
        let Slot { value, last: _ } = closed.take(0);
        closed.free();
        value.unwrap()
    }
}

// The value in the one slot.
fn value_of<T, O, R>(mut slots: Vec<Slot<T, O, R>>) -> T
    requires { (slot : Slot T O R) × (x : T) × (slots.items ≡ slot ∷ []) × (slot.value ≡ Some x) }
    ensures { (slot : Slot T O R) → slots.items ≡ slot ∷ [] → slot.value ≡ Some result }
{
    let Slot { value, last: _ } = slots.pop().unwrap();
    slots.destroy_empty();
    value.unwrap()
}
