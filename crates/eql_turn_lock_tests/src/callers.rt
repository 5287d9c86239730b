//! Callers of a tray under a lock.
ghost use Rattle.std.specs.Prelude.{◌≡◌, [], MatchResult};
ghost use Rattle.eql_turn_lock.specs.Passes.{joined_view};
ghost use Rattle.eql_turn_lock.specs.Locks.{IsPassOf, view_of};
ghost use Rattle.eql_turn_lock.specs.Calls.{MayPlay, Plays, PlaysOnce, PlaysUnlessIdle, Refuses, RefusesWorn};
ghost use Rattle.eql_turn_lock_tests.specs.Trays.{TrayAllows, IsTrayStep, tray_open, tray_idle, LosesNothing, SawRoom};

use crate::tray::{Tray, TrayOp, TrayReply};
use eql_turn_lock::{NotNow, Pass, Tried, TurnLock};
use std::sync::Wait;

/// What comes of a call of a tray: its reply, or why it wasn't played.
pub type Answer = Result<TrayReply, NotNow<TrayOp>>;

/// Tries once to deliver a letter.
pub fn deliver(lock: &TurnLock<Tray>, pass: &mut Pass<Tray>, letter: u32) -> Answer
    requires own { IsPassOf lock.now pass.old }
    requires may { MayPlay TrayAllows IsTrayStep tray_open (view_of pass.old)
        (TrayOp.Deliver letter) }
    ensures own { IsPassOf lock.now pass.new }
    ensures played { MatchResult result
        (λ reply. PlaysOnce IsTrayStep tray_open (view_of pass.old) (TrayOp.Deliver letter) reply
        (view_of pass.new))
        (λ refused. Refuses (view_of pass.old) (TrayOp.Deliver letter) refused (view_of pass.new)) }
{
    lock.try_call(pass, TrayOp::Deliver { letter })
}

/// Tries once to take a letter.
pub fn take(lock: &TurnLock<Tray>, pass: &mut Pass<Tray>) -> Answer
    requires own { IsPassOf lock.now pass.old }
    ensures own { IsPassOf lock.now pass.new }
    ensures played { MatchResult result
        (λ reply. PlaysOnce IsTrayStep tray_open
        (view_of pass.old) TrayOp.Take reply (view_of pass.new))
        (λ refused. Refuses (view_of pass.old) TrayOp.Take refused (view_of pass.new)) }
{
    lock.try_call(pass, TrayOp::Take)
}

/// Tries once to take a letter, where the last call didn't find the tray empty.
pub fn take_unless_empty(lock: &TurnLock<Tray>, pass: &mut Pass<Tray>) -> Tried<TrayReply, TrayOp>
    requires own { IsPassOf lock.now pass.old }
    ensures own { IsPassOf lock.now pass.new }
    ensures played { PlaysUnlessIdle IsTrayStep tray_open tray_idle
        (view_of pass.old) TrayOp.Take result (view_of pass.new) }
{
    lock.try_unless_idle(pass, TrayOp::Take)
}

/// Delivers a letter, however long others hold the turn.
pub fn deliver_waiting<R: Wait>(
    rt: &R,
    lock: &TurnLock<Tray>,
    pass: &mut Pass<Tray>,
    letter: u32,
) -> Answer
    requires own { IsPassOf lock.now pass.old }
    requires may { MayPlay TrayAllows IsTrayStep tray_open (view_of pass.old)
        (TrayOp.Deliver letter) }
    ensures own { IsPassOf lock.now pass.new }
    ensures played { MatchResult result
        (λ reply. Plays IsTrayStep tray_open
        (view_of pass.old) (TrayOp.Deliver letter) reply (view_of pass.new))
        (λ refused. RefusesWorn
        (view_of pass.old) (TrayOp.Deliver letter) refused (view_of pass.new)) }
{
    lock.call(rt, pass, TrayOp::Deliver { letter })
}

/// Joins the other pass in, and tries once to deliver a letter into the room that it saw.
///
/// The first pass may do so only after it took over what the other one had seen: by what it had
/// seen itself, the tray may be full.
pub fn deliver_after(
    lock: &TurnLock<Tray>,
    first: &mut Pass<Tray>,
    other: Pass<Tray>,
    letter: u32,
) -> Answer
    requires own { IsPassOf lock.now first.old × IsPassOf lock.now other }
    requires first { (view_of first.old).number ≡ 0 }
    requires room { SawRoom (view_of first.old) (view_of other) }
    ensures own { IsPassOf lock.now first.new }
    ensures played { MatchResult result
        (λ reply. PlaysOnce IsTrayStep tray_open
        (joined_view (view_of first.old) (view_of other))
        (TrayOp.Deliver letter) reply (view_of first.new))
        (λ refused. Refuses
        (joined_view (view_of first.old) (view_of other))
        (TrayOp.Deliver letter) refused (view_of first.new)) }
{
    lock.join(first, other);
    lock.try_call(first, TrayOp::Deliver { letter })
}

/// Joins the other pass in and closes the lock. No letter was lost.
pub fn close_tray(lock: TurnLock<Tray>, mut first: Pass<Tray>, other: Pass<Tray>) -> Tray
    requires own { IsPassOf lock first × IsPassOf lock other }
    requires first { (view_of first).number ≡ 0 }
    requires one_other { ((view_of first).made ≡ 1) × ((view_of first).ended ≡ []) }
    ensures { LosesNothing (view_of first) result }
{
    lock.join(&mut first, other);
    lock.close(first)
}
