//! The two calls that play an operation in a turn.
ghost use Rattle.std.specs.Prelude.{◌≡◌, ◌+◌, ◌*◌, ◌^◌, ◌<◌, length, true, [], None, MatchResult};
ghost use Rattle.eql_turn_lock.specs.Passes.{is_live, KnowsHistory};
ghost use Rattle.eql_turn_lock.specs.Locks.{IsPassOf, view_of};
ghost use Rattle.eql_turn_lock.specs.Calls.{MayPlay, Plays, PlaysOnce, PlaysLooking, Refuses, RefusesWorn};
ghost use Rattle.eql_turn_lock.specs.Rule.{HoldsTurn};

use crate::lock::{Pass, TurnLock};
use crate::refused::NotNow;
use crate::rule::{EndTurn, Load, TakeTurn, TellIdle};
use crate::slot::{LastCall, Slot};
use crate::turned::Turned;
use crate::view::View;
use atomic_table::Seat;
use std::snapshot::Snapshot;
use std::sync::Wait;

/// A word from which on no turn is given.
pub(crate) const WORN: u64 = 1 << 63;

impl<T: Turned> TurnLock<T> {
    /// Plays the operation and waits for the turn. It never returns `Busy`.
    ///
    /// While another pass holds the turn it looks at the lock for some microseconds, and then sleeps
    /// until the turn ends.
    pub fn call<R: Wait>(
        &self,
        rt: &R,
        pass: &mut Pass<T>,
        op: T::Op,
    ) -> Result<T::Reply, NotNow<T::Op>>
        requires own { IsPassOf self.now pass.old }
        requires may { MayPlay T.allows T.step_of T.is_open (view_of pass.old) op }
        ensures own { IsPassOf self.now pass.new }
        ensures played { MatchResult
            result
            (λ reply. Plays T.step_of T.is_open (view_of pass.old) op reply (view_of pass.new))
            (λ refused. RefusesWorn (view_of pass.old) op refused (view_of pass.new)) }
        ensures knows { KnowsHistory T.step_of T.is_open (view_of pass.new) }
    {
        let table = &self.table.shared;
        for _ in rt.forever() {
            let word = table.load::<Load>(&mut pass.seat, 0);
            if word >= WORN {
                self.wake_next();
                return Err(NotNow::Worn { word, op });
            }
            if word % 2 == 0 {
                let found = table.compare_exchange::<TakeTurn>(&mut pass.seat, 0, word, word + 1);
                if found == word {
                    return Ok(self.play_in_turn(&mut pass.seat, word, op));
                }
            } else {
                self.wait_for_turn(rt, word);
            }
        }
        unreachable!()
    }

    /// Plays the operation if the turn is free. It waits for nobody and tries once.
    pub fn try_call(&self, pass: &mut Pass<T>, op: T::Op) -> Result<T::Reply, NotNow<T::Op>>
        requires own { IsPassOf self.now pass.old }
        requires may { MayPlay T.allows T.step_of T.is_open (view_of pass.old) op }
        ensures own { IsPassOf self.now pass.new }
        ensures played { MatchResult
            result
            (λ reply. PlaysOnce T.step_of T.is_open (view_of pass.old) op reply (view_of pass.new))
            (λ refused. Refuses (view_of pass.old) op refused (view_of pass.new)) }
        ensures knows { KnowsHistory T.step_of T.is_open (view_of pass.new) }
    {
        let table = &self.table.shared;
        let word = table.load::<Load>(&mut pass.seat, 0);
        if word >= WORN {
            return Err(NotNow::Worn { word, op });
        }
        if word % 2 == 1 {
            return Err(NotNow::Busy { word, op });
        }
        let found = table.compare_exchange::<TakeTurn>(&mut pass.seat, 0, word, word + 1);
        if found != word {
            return Err(NotNow::Busy { word: found, op });
        }
        Ok(self.play_in_turn(&mut pass.seat, word, op))
    }

    /// Plays the operation in the turn that the seat holds, ends the turn, and tells of an idle
    /// reply.
    pub(crate) fn play_in_turn(
        &self,
        seat: &mut Seat<Slot<T, T::Op, T::Reply>, View<T, T::Op, T::Reply>>,
        word: u64,
        op: T::Op,
    ) -> T::Reply
        requires own { seat.old.table_id ≡ self.now.table.shared.table_id }
        requires turn { HoldsTurn T.step_of T.is_open word seat.old.me }
        requires may { MayPlay T.allows T.step_of T.is_open seat.old.me.0 op }
        requires small { word < 2 ^ 63 }
        ensures own { (seat.new.table_id ≡ seat.old.table_id) × (seat.new.id ≡ seat.old.id) }
        ensures idle { (seat.new.me.1 ≡ []) × (seat.new.me.0.turn ≡ None)
            × (is_live seat.new.me.0 ≡ true) }
        ensures played { PlaysLooking [] T.step_of T.is_open seat.old.me.0 op
            result seat.new.me.0 }
        ensures counted { word + 2 ≡ 2 * length seat.new.me.0.seen }
    {
        let reply = self.play_and_end(seat, word, op);
        if T::idles(&reply) {
            self.table.shared.store::<TellIdle>(seat, 1, word + 2);
        }
        reply
    }

    /// Plays the operation in the turn that the seat holds, ends the turn, and wakes a call that
    /// sleeps.
    fn play_and_end(
        &self,
        seat: &mut Seat<Slot<T, T::Op, T::Reply>, View<T, T::Op, T::Reply>>,
        word: u64,
        op: T::Op,
    ) -> T::Reply
        requires own { seat.old.table_id ≡ self.now.table.shared.table_id }
        requires turn { HoldsTurn T.step_of T.is_open word seat.old.me }
        requires may { MayPlay T.allows T.step_of T.is_open seat.old.me.0 op }
        requires small { word < 2 ^ 63 }
        ensures own { (seat.new.table_id ≡ seat.old.table_id) × (seat.new.id ≡ seat.old.id) }
        ensures idle { (seat.new.me.1 ≡ []) × (seat.new.me.0.turn ≡ None)
            × (is_live seat.new.me.0 ≡ true) }
        ensures played { PlaysLooking [] T.step_of T.is_open seat.old.me.0 op
            result seat.new.me.0 }
        ensures counted { word + 2 ≡ 2 * length seat.new.me.0.seen }
    {
        let asked = Snapshot::of(&op);
        let empty = Slot {
            value: None,
            last: None,
        };
        let Slot { value, last: _ } = self.table.shared.exchange(seat, 0, empty);
        let mut value = value.unwrap();
        let reply = value.play(op);
        let last = LastCall {
            op: asked,
            reply: Snapshot::of(&reply),
        };
        let full = Slot {
            value: Some(value),
            last: Some(last),
        };
        let Slot { value, last: _ } = self.table.shared.exchange(seat, 0, full);
        let None = value else { unreachable!() };
        self.table.shared.store::<EndTurn>(seat, 0, word + 2);
        self.wake_next();
        reply
    }
}
