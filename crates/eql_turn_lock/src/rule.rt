//! The rule of the table under a lock, and what each kind of step on it tells.
use crate::slot::Slot;
use crate::turned::Turned;
use crate::view::View;
use atomic_table::{Join, Play, Split, TableRule};
use std::snapshot::Snapshot;

/// There is one history: the word counts it, the value stands for it, and each view fits it.
pub(crate) struct OneHistory;

impl<T: Turned> TableRule<Slot<T, T::Op, T::Reply>, View<T, T::Op, T::Reply>, Snapshot<T>>
    for OneHistory {
    ghost use Rattle.eql_turn_lock.specs.Passes.{first_view};
    ghost use Rattle.eql_turn_lock.specs.Rule.{HasOneHistory};

    ghost holds = { λ opening. HasOneHistory T.step_of T.is_open T.is_idle opening.value };

    ghost first = { λ opening. first_view opening.value };
}

/// A call loads the word.
pub(crate) struct Load;

impl<T: Turned> Play<Slot<T, T::Op, T::Reply>, View<T, T::Op, T::Reply>> for Load {
    ghost use Rattle.eql_turn_lock.specs.Rule.{loads};

    ghost then = { loads T.step_of T.is_open };
}

/// A call takes the turn, or meets another word than it had loaded.
pub(crate) struct TakeTurn;

impl<T: Turned> Play<Slot<T, T::Op, T::Reply>, View<T, T::Op, T::Reply>> for TakeTurn {
    ghost use Rattle.eql_turn_lock.specs.Rule.{takes_turn};

    ghost then = { takes_turn T.step_of T.is_open };
}

/// The holder of the turn gives the value and the turn back.
pub(crate) struct EndTurn;

impl<T, O, R> Play<Slot<T, O, R>, View<T, O, R>> for EndTurn {
    ghost use Rattle.eql_turn_lock.specs.Rule.{ends_turn};

    ghost then = { ends_turn };
}

/// A call loads the idle word.
pub(crate) struct LoadIdle;

impl<T: Turned> Play<Slot<T, T::Op, T::Reply>, View<T, T::Op, T::Reply>> for LoadIdle {
    ghost use Rattle.eql_turn_lock.specs.Rule.{loads_idle};

    ghost then = { loads_idle T.step_of T.is_idle };
}

/// A call whose reply is idle stores in the idle word what the word is after it.
pub(crate) struct TellIdle;

impl<T, O, R> Play<Slot<T, O, R>, View<T, O, R>> for TellIdle {
    ghost use Rattle.eql_turn_lock.specs.Rule.{tells_idle};

    ghost then = { tells_idle };
}

/// A load of the first pass that tells what stands after a join, and whose word isn't kept.
pub(crate) struct Learn;

impl<T: Turned> Play<Slot<T, T::Op, T::Reply>, View<T, T::Op, T::Reply>> for Learn {
    ghost use Rattle.eql_turn_lock.specs.Rule.{learns};

    ghost then = { learns T.step_of T.is_open };
}

/// A further pass.
pub(crate) struct SplitOff;

impl<T, O, R> Split<View<T, O, R>> for SplitOff {
    ghost use Rattle.eql_turn_lock.specs.Passes.{split_view, new_view};

    ghost left = { split_view };

    ghost right = { new_view };
}

/// A pass ends in the first one.
pub(crate) struct JoinIn;

impl<T, O, R> Join<View<T, O, R>> for JoinIn {
    ghost use Rattle.eql_turn_lock.specs.Passes.{joined_view, spent_view};

    ghost both = { joined_view };

    ghost spent = { spent_view };
}
