//! Planned failures, as all forms in memory have them.
ghost use Rattle.std.specs.Prelude.{◌≡◌, ◌↔◌, ◌≤◌, IfOk, IsOk, IsErr, IsTrue};
ghost use Rattle.eql_outside.specs.Outside.{Rose};
ghost use Rattle.eql_outside.specs.Plans.{FailsNext, fresh_plan, unstarted_until, plan_after_call};

use crate::refused::Failed;
use eql_values::Memory;
use std::alloc::Global;

/// The numbers, from 1, of the calls that fail, and the one from which on all do, with the number of calls so far and
/// the count of faults.
#[derive(Drop)]
pub(crate) struct PlannedFaults {
    fails: Vec<u64>,
    stop: Option<u64>,
    calls: u64,
    faults: u64,
}

impl PlannedFaults {
    ghost use Rattle.eql_outside.specs.Planned.{plan_of};

    pub(crate) fn new(fails: Vec<u64>) -> PlannedFaults
        ensures plan { plan_of result ≡ fresh_plan fails.items }
        ensures faults { result.faults ≡ 0 }
    {
        PlannedFaults::until(fails, None)
    }

    /// The same, and all calls from a number on, if one is given.
    pub(crate) fn until(fails: Vec<u64>, stop: Option<u64>) -> PlannedFaults
        ensures plan { plan_of result ≡ unstarted_until stop fails.items }
        ensures faults { result.faults ≡ 0 }
    {
        PlannedFaults {
            fails,
            stop,
            calls: 0,
            faults: 0,
        }
    }

    /// The same plan after as many calls, with no fault counted.
    pub(crate) fn copy(&self, alloc: Global) -> Result<PlannedFaults, Memory>
        ensures plan { IfOk result (λ planned. plan_of planned ≡ plan_of self.now) }
        ensures faults { IfOk result (λ planned. planned.faults ≡ 0) }
    {
        Ok(PlannedFaults {
            fails: Vec::from_slice(alloc, self.fails.as_slice())?,
            stop: self.stop,
            calls: self.calls,
            faults: 0,
        })
    }

    /// Numbers one more call, and returns whether it is planned to fail.
    pub(crate) fn next(&mut self) -> bool
        ensures planned { IsTrue result ↔ FailsNext (plan_of self.old) }
        ensures numbered { plan_of self.new ≡ plan_after_call (plan_of self.old) }
        ensures faults { self.new.faults ≡ self.old.faults }
    {
        self.calls = self.calls.saturating_add(1);
        if let Some(stop) = self.stop
            && stop <= self.calls
        {
            return true;
        }
        self.fails.contains(&self.calls)
    }

    /// Numbers one more call. It fails where its number is one of those planned, and then the count rises.
    pub(crate) fn call(&mut self) -> Result<(), Failed>
        ensures planned { IsErr result ↔ FailsNext (plan_of self.old) }
        ensures numbered { plan_of self.new ≡ plan_after_call (plan_of self.old) }
        ensures cause { IsErr result → Rose self.old.faults self.new.faults }
        ensures steady { IsOk result → self.new.faults ≡ self.old.faults }
        ensures counts { self.old.faults ≤ self.new.faults }
    {
        if self.next() {
            self.add_fault();
            return Err(Failed);
        }
        Ok(())
    }

    /// Counts a fault.
    pub(crate) fn add_fault(&mut self)
        ensures plan { plan_of self.new ≡ plan_of self.old }
        ensures rose { Rose self.old.faults self.new.faults }
        ensures counts { self.old.faults ≤ self.new.faults }
    {
        self.faults = self.faults.saturating_add(1);
    }

    /// The count of faults.
    pub(crate) fn faults(&self) -> u64
        ensures { result ≡ self.now.faults }
    {
        self.faults
    }
}
