//! Laws of stale sequences: when they are dropped doesn't matter.
ghost use Rattle.eql_laws.specs.Alive.{DeadMakeNoMatch, AliveAreSameAfter, DeadStayDead, AfterIsInOrder, AliveAreInOrder, DeadChangeNothing, AliveLooksUp, SlotsLeaveOutDead};

/// Sequences that are dead at a time may be left out before events from that time on: no match changes.
pub fn dead_matches()
    ensures { DeadMakeNoMatch }
{}

/// What is alive after the events doesn't depend on sequences that were dead before them.
pub fn dead_after()
    ensures { AliveAreSameAfter }
{}

/// A sequence that is dead stays dead.
pub fn dead_for_good()
    ensures { DeadStayDead }
{}

/// What is pending after events ascends strictly by key and stage, and so do the living of what does.
pub fn after_in_order()
    ensures after { AfterIsInOrder }
    ensures alive { AliveAreInOrder }
{}

/// Sequences that differ by dead ones alone find the same from then on.
pub fn dead_alike()
    ensures { DeadChangeNothing }
{}

/// Leaving out the dead, seen slot by slot: what a look-up finds, and that one event changes nothing of it.
pub fn dead_by_slot()
    ensures look_up { AliveLooksUp }
    ensures step { SlotsLeaveOutDead }
{}
