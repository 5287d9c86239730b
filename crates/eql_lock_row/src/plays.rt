//! Calls on one lock of a row.
ghost use Rattle.std.specs.Prelude.{◌≡◌, ◌<◌, MatchResult, length};
ghost use Rattle.eql_turn_lock.specs.Calls.{Plays, PlaysOnce, PlaysUnlessIdle, Refuses, RefusesWorn};
ghost use Rattle.eql_turn_lock.specs.Passes.{KnowsHistory};
ghost use Rattle.eql_lock_row.specs.Rows.{ChangesAt, MayPlayAt};

use crate::row::{LockRow, PassRow};
use eql_turn_lock::{NotNow, Tried, Turned};
use std::sync::Wait;

impl<T: Turned> LockRow<T> {
    /// Plays the operation on the value in a place, from 0, and waits for the turn. It never returns `Busy`.
    pub fn call<R: Wait>(
        &self,
        rt: &R,
        passes: &mut PassRow<T>,
        place: usize,
        op: T::Op,
    ) -> Result<T::Reply, NotNow<T::Op>>
        requires own { passes.old.locks ≡ self.now }
        requires place { place < length self.now }
        requires may { MayPlayAt T.allows T.step_of T.is_open passes.old.views place op }
        ensures own { passes.new.locks ≡ self.now }
        ensures played { ChangesAt place (λ v w. MatchResult result
            (λ reply. Plays T.step_of T.is_open v op reply w)
            (λ refused. RefusesWorn v op refused w)
            × KnowsHistory T.step_of T.is_open w) passes.old.views passes.new.views }
    {
        self.locks[place].call(rt, &mut passes.passes[place], op)
    }

    /// Plays the operation on the value in a place, from 0, if the turn is free. It waits for nobody and tries once.
    pub fn try_call(
        &self,
        passes: &mut PassRow<T>,
        place: usize,
        op: T::Op,
    ) -> Result<T::Reply, NotNow<T::Op>>
        requires own { passes.old.locks ≡ self.now }
        requires place { place < length self.now }
        requires may { MayPlayAt T.allows T.step_of T.is_open passes.old.views place op }
        ensures own { passes.new.locks ≡ self.now }
        ensures played { ChangesAt place (λ v w. MatchResult result
            (λ reply. PlaysOnce T.step_of T.is_open v op reply w)
            (λ refused. Refuses v op refused w)
            × KnowsHistory T.step_of T.is_open w) passes.old.views passes.new.views }
    {
        self.locks[place].try_call(&mut passes.passes[place], op)
    }

    /// Plays the operation on the value in a place, from 0, if the last reply there wasn't idle and the turn is free. It waits for
    /// nobody, and looks and tries once.
    pub fn try_unless_idle(
        &self,
        passes: &mut PassRow<T>,
        place: usize,
        op: T::Op,
    ) -> Tried<T::Reply, T::Op>
        requires own { passes.old.locks ≡ self.now }
        requires place { place < length self.now }
        requires may { MayPlayAt T.allows T.step_of T.is_open passes.old.views place op }
        ensures own { passes.new.locks ≡ self.now }
        ensures played { ChangesAt place (λ v w.
            PlaysUnlessIdle T.step_of T.is_open T.is_idle v op result w
            × KnowsHistory T.step_of T.is_open w) passes.old.views passes.new.views }
    {
        self.locks[place].try_unless_idle(&mut passes.passes[place], op)
    }
}
