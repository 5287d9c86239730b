//! A call that is left out where the last one found nothing to do, and what it returns.
ghost use Rattle.eql_turn_lock.specs.Passes.{KnowsHistory};
ghost use Rattle.eql_turn_lock.specs.Locks.{IsPassOf, view_of};
ghost use Rattle.eql_turn_lock.specs.Calls.{MayPlay, PlaysUnlessIdle};

use crate::calls::WORN;
use crate::lock::{Pass, TurnLock};
use crate::refused::NotNow;
use crate::rule::{Load, LoadIdle, TakeTurn};
use crate::turned::Turned;

/// What came of a call that is made only where the lock's last reply wasn't idle.
#[derive(Debug, Drop)]
pub enum Tried<R, O> {
    /// The last reply was idle. Nothing was played.
    Idle { op: O },
    /// The operation was played.
    Played(R),
    /// Nothing was played.
    Refused(NotNow<O>),
}

impl<T: Turned> TurnLock<T> {
    /// Plays the operation if the last reply wasn't idle and the turn is free. It waits for nobody,
    /// and looks and tries once.
    ///
    /// A look changes nothing that others can see. So callers that find nothing to do don't wake
    /// each other.
    pub fn try_unless_idle(&self, pass: &mut Pass<T>, op: T::Op) -> Tried<T::Reply, T::Op>
        requires own { IsPassOf self.now pass.old }
        requires may { MayPlay T.allows T.step_of T.is_open (view_of pass.old) op }
        ensures own { IsPassOf self.now pass.new }
        ensures played { PlaysUnlessIdle T.step_of T.is_open T.is_idle (view_of pass.old) op result
            (view_of pass.new) }
        ensures knows { KnowsHistory T.step_of T.is_open (view_of pass.new) }
    {
        let table = &self.table.shared;
        let word = table.load::<Load>(&mut pass.seat, 0);
        if word >= WORN {
            return Tried::Refused(NotNow::Worn { word, op });
        }
        if word % 2 == 1 {
            return Tried::Refused(NotNow::Busy { word, op });
        }
        let idle = table.load::<LoadIdle>(&mut pass.seat, 1);
        if idle == word {
            return Tried::Idle { op };
        }
        let found = table.compare_exchange::<TakeTurn>(&mut pass.seat, 0, word, word + 1);
        if found != word {
            return Tried::Refused(NotNow::Busy { word: found, op });
        }
        Tried::Played(self.play_in_turn(&mut pass.seat, word, op))
    }
}
