//! A free lock answers and closes, and a held one turns callers away or wakes them at its end.
ghost use Rattle.std.specs.Prelude.{◌≡◌, ◌≤◌, [], length, IfOk};
ghost use Rattle.eql_turn_lock.specs.Locks.{IsPassOf, view_of};
ghost use Rattle.eql_turn_lock.specs.Calls.{MayPlay};
ghost use Rattle.eql_turn_lock_tests.specs.Trays.{
  TrayAllows,
  IsTrayStep,
  IsFresh,
  IsSamePass,
  tray_open,
};

use crate::meeting::{Flag, sees, sees_sleeper};
use crate::{
    Meeting, MeetingOp, Tray, TrayOp, TrayReply, close_tray, deliver, deliver_after,
    deliver_waiting, take, take_unless_empty,
};
use eql_turn_lock::{Memory, NotNow, Pass, Tried, TurnLock};
use std::alloc::Global;
use std::collections::VecDeque;
use std::process::Abort;
use std::sync::atomic::{AtomicBool, Ordering};
use std::sync::{Arc, Wait};
use std::thread;
use std::thread::Threads;

/// Sees that a test's answer is yes.
fn see(rt: &impl Abort, seen: Result<bool, Memory>) {
    assert!(rt; matches!(seen, Ok(true)), "{seen:?}");
}

/// An empty tray with room for so many letters, under a lock, and its first pass.
fn empty_tray(alloc: Global, room: usize) -> Result<(TurnLock<Tray>, Pass<Tray>), Memory>
    ensures own { IfOk result (λ made. IsPassOf made.0 made.1) }
    ensures fresh { IfOk result (λ made. IsFresh room (view_of made.1)) }
    ensures alone { IfOk result (λ made. (view_of made.1).made ≡ 0) }
{
    let Ok(letters) = VecDeque::with_capacity(alloc, room) else {
        return Err(Memory);
    };
    match TurnLock::make(alloc, Tray { letters }) {
        Ok(made) => Ok(made),
        Err(_) => Err(Memory),
    }
}

/// Whether a letter is delivered at the first try.
fn delivers(lock: &TurnLock<Tray>, first: &mut Pass<Tray>, letter: u32) -> bool
    requires own { IsPassOf lock.now first.old }
    requires may { MayPlay TrayAllows IsTrayStep tray_open (view_of first.old)
        (TrayOp.Deliver letter) }
    ensures own { IsPassOf lock.now first.new }
    ensures same { IsSamePass (view_of first.old) (view_of first.new) }
{
    matches!(deliver(lock, first, letter), Ok(TrayReply::Delivered))
}

/// Whether this letter is taken at the first try, or none.
fn takes(lock: &TurnLock<Tray>, pass: &mut Pass<Tray>, wanted: Option<u32>) -> bool
    requires own { IsPassOf lock.now pass.old }
    ensures own { IsPassOf lock.now pass.new }
    ensures same { IsSamePass (view_of pass.old) (view_of pass.new) }
{
    match take(lock, pass) {
        Ok(TrayReply::Taken { letter }) => letter == wanted,
        _ => false,
    }
}

/// Whether a look at the lock finds that its last reply wasn't idle, and this letter is taken, or none.
fn looks_and_takes(lock: &TurnLock<Tray>, pass: &mut Pass<Tray>, wanted: Option<u32>) -> bool
    requires own { IsPassOf lock.now pass.old }
    ensures own { IsPassOf lock.now pass.new }
    ensures same { IsSamePass (view_of pass.old) (view_of pass.new) }
{
    match take_unless_empty(lock, pass) {
        Tried::Played(TrayReply::Taken { letter }) => letter == wanted,
        _ => false,
    }
}

/// Whether a look at the lock finds that its last reply was idle, and hands the operation back.
fn looks_in_vain(lock: &TurnLock<Tray>, pass: &mut Pass<Tray>) -> bool
    requires own { IsPassOf lock.now pass.old }
    ensures own { IsPassOf lock.now pass.new }
    ensures same { IsSamePass (view_of pass.old) (view_of pass.new) }
{
    matches!(
        take_unless_empty(lock, pass),
        Tried::Idle { op: TrayOp::Take }
    )
}

/// Whether the tray is empty at the end.
fn closes_empty(lock: TurnLock<Tray>, first: Pass<Tray>, other: Pass<Tray>) -> bool
    requires own { IsPassOf lock first × IsPassOf lock other }
    requires first { (view_of first).number ≡ 0 }
    requires one_other { ((view_of first).made ≡ 1) × ((view_of first).ended ≡ []) }
{
    close_tray(lock, first, other).letters.is_empty()
}

/// Whether this letter alone is in the tray at the end.
fn closes_with(lock: TurnLock<Tray>, first: Pass<Tray>, letter: u32) -> bool
    requires own { IsPassOf lock first }
    requires first { (view_of first).number ≡ 0 }
    requires all_joined { length (view_of first).ended ≡ (view_of first).made }
{
    let tray = lock.close(first);
    match tray.letters.front() {
        Some(front) => *front == letter && tray.letters.len() == 1,
        None => false,
    }
}

/// Whether a free lock answers two takers, of whom the second one waits.
fn answers<R: Wait>(rt: &R, lock: &TurnLock<Tray>, other: &mut Pass<Tray>) -> bool
    requires { IsPassOf lock.now other.old }
    ensures { IsPassOf lock.now other.new }
{
    let is_taken = takes(lock, other, Some(7));
    let is_empty = matches!(
        lock.call(rt, other, TrayOp::Take),
        Ok(TrayReply::Taken { letter: None })
    );
    is_taken & is_empty
}

/// Whether a free lock answers and closes.
fn answers_and_closes<R: Wait>(rt: &R, alloc: Global) -> Result<bool, Memory> {
    let (lock, mut first) = empty_tray(alloc, 2)?;
    let is_delivered = delivers(&lock, &mut first, 7);
    let mut other = lock.split(&mut first);
    let is_answered = answers(rt, &lock, &mut other);
    Ok(closes_empty(lock, first, other) & is_delivered & is_answered)
}

#[test]
fn a_free_lock_answers_and_closes(rt: HostRuntime) {
    see(&rt, answers_and_closes(&rt, rt.alloc()));
}

/// Whether a delivery that waits is in.
fn waits_and_delivers<R: Wait>(rt: &R, alloc: Global) -> Result<bool, Memory> {
    let (lock, mut first) = empty_tray(alloc, 1)?;
    let is_delivered = matches!(
        deliver_waiting(rt, &lock, &mut first, 9),
        Ok(TrayReply::Delivered)
    );
    Ok(closes_with(lock, first, 9) & is_delivered)
}

#[test]
fn a_waiting_delivery_is_in(rt: HostRuntime) {
    see(&rt, waits_and_delivers(&rt, rt.alloc()));
}

/// Whether the other pass takes a letter, and a second one is delivered into the room that it made. The other pass is
/// joined in.
fn delivers_into_room(lock: &TurnLock<Tray>, first: &mut Pass<Tray>, mut other: Pass<Tray>) -> bool
    requires own { IsPassOf lock.now first.old × IsPassOf lock.now other }
    requires fresh { IsFresh 1 (view_of first.old) }
    ensures own { IsPassOf lock.now first.new }
    ensures first { (view_of first.new).number ≡ 0 }
    ensures made { (view_of first.new).made ≡ (view_of first.old).made }
    ensures joined { length (view_of first.new).ended ≡ 1 }
{
    match (deliver(lock, first, 7), take(lock, &mut other)) {
        (Ok(_), Ok(TrayReply::Taken { letter: Some(7) })) => matches!(
            deliver_after(lock, first, other, 8),
            Ok(TrayReply::Delivered)
        ),
        _ => {
            lock.join(first, other);
            false
        }
    }
}

/// Whether a pass that was joined in made room.
fn makes_room(alloc: Global) -> Result<bool, Memory> {
    let (lock, mut first) = empty_tray(alloc, 1)?;
    let other = lock.split(&mut first);
    let is_delivered = delivers_into_room(&lock, &mut first, other);
    Ok(closes_with(lock, first, 8) & is_delivered)
}

#[test]
fn a_joined_pass_made_room(rt: HostRuntime) {
    see(&rt, makes_room(rt.alloc()));
}

/// Whether a letter comes back from a first pass that finds the last reply idle, and is delivered then.
fn comes_back(lock: &TurnLock<Tray>, first: &mut Pass<Tray>) -> bool
    requires own { IsPassOf lock.now first.old }
    requires fresh { IsFresh 2 (view_of first.old) }
    ensures own { IsPassOf lock.now first.new }
    ensures same { IsSamePass (view_of first.old) (view_of first.new) }
{
    match lock.try_unless_idle(first, TrayOp::Deliver { letter: 7 }) {
        Tried::Idle {
            op: TrayOp::Deliver { letter: 7 },
        } => delivers(lock, first, 7),
        _ => false,
    }
}

/// Whether each pass tells by a look whether the last reply was idle, once there is a letter.
fn looks_tell(lock: &TurnLock<Tray>, first: &mut Pass<Tray>, other: &mut Pass<Tray>) -> bool
    requires own { IsPassOf lock.now first.old × IsPassOf lock.now other.old }
    ensures own { IsPassOf lock.now first.new × IsPassOf lock.now other.new }
    ensures same { IsSamePass (view_of first.old) (view_of first.new) }
{
    // A reply that isn't idle ends it, whichever pass looks.
    let is_taken = looks_and_takes(lock, other, Some(7));
    let is_empty = looks_and_takes(lock, first, None);
    let is_idle = looks_in_vain(lock, other);

    // A call that doesn't look is played, and its reply is the last one then.
    let is_played = takes(lock, other, None);
    let is_idle_again = looks_in_vain(lock, first);
    is_taken & is_empty & is_idle & is_played & is_idle_again
}

/// Whether an idle reply is told by a look of whichever pass.
fn tells_idle_replies(alloc: Global) -> Result<bool, Memory> {
    let (lock, mut first) = empty_tray(alloc, 2)?;
    let mut other = lock.split(&mut first);

    // Nobody called yet, so the operation is played. Its reply is idle.
    let is_played = looks_and_takes(&lock, &mut other, None);

    // Another pass takes no turn, and has its operation back.
    let is_back = comes_back(&lock, &mut first);
    let is_told = looks_tell(&lock, &mut first, &mut other);
    Ok(closes_empty(lock, first, other) & is_played & is_back & is_told)
}

#[test]
fn an_idle_reply_is_told_by_a_look(rt: HostRuntime) {
    see(&rt, tells_idle_replies(rt.alloc()));
}

/// A flag that isn't raised, of two owners.
fn flag(alloc: Global) -> Result<(Flag, Flag), Memory> {
    let Ok(flag) = Arc::new(alloc, AtomicBool::new(false)) else {
        return Err(Memory);
    };
    match Arc::try_clone(&flag) {
        Ok(other) => Ok((flag, other)),
        Err(_) => Err(Memory),
    }
}

/// Plays while the other caller stays in its turn, and says whether it was turned away.
fn comes_late(
    lock: &TurnLock<Meeting>,
    mut pass: Pass<Meeting>,
    held: &Flag,
    met: &Flag,
) -> (bool, Pass<Meeting>)
    requires { IsPassOf lock.now pass }
    ensures { IsPassOf lock.now result.1 }
{
    if !sees(held) {
        return (false, pass);
    }
    let answer = lock.try_call(&mut pass, MeetingOp::Leave);
    met.store(true, Ordering::SeqCst);
    let is_busy = matches!(
        &answer,
        Err(NotNow::Busy {
            word: 1,
            op: MeetingOp::Leave,
        }),
    );
    (is_busy, pass)
}

/// Stays in its turn, and says whether the other caller was met meanwhile.
fn comes_first(lock: &TurnLock<Meeting>, mut pass: Pass<Meeting>) -> (bool, Pass<Meeting>)
    requires { IsPassOf lock.now pass }
    ensures own { IsPassOf lock.now result.1 }
    ensures same { IsSamePass (view_of pass) (view_of result.1) }
{
    let answer = lock.try_call(&mut pass, MeetingOp::Stay);
    let is_seen = matches!(&answer, Ok(true));
    (is_seen, pass)
}

/// Two callers at once: whether the second one was seen to be turned away, the first one's pass, whether the second one
/// was told so, and its pass.
fn meets<R: Threads>(
    rt: &R,
    lock: &TurnLock<Meeting>,
    first: Pass<Meeting>,
    other: Pass<Meeting>,
    held: &Flag,
    met: &Flag,
) -> ((bool, Pass<Meeting>), (bool, Pass<Meeting>))
    requires own { IsPassOf lock.now first × IsPassOf lock.now other }
    ensures own { IsPassOf lock.now result.0.1 × IsPassOf lock.now result.1.1 }
    ensures same { IsSamePass (view_of first) (view_of result.0.1) }
{
    thread::join(
        rt,
        || -> (bool, Pass<Meeting>)
            requires { IsPassOf lock.now first }
            ensures { IsPassOf lock.entry.now result.1
                × IsSamePass (view_of first) (view_of result.1) }
        { comes_first(lock, first) },
        || -> (bool, Pass<Meeting>)
            requires { IsPassOf lock.now other }
            ensures { IsPassOf lock.entry.now result.1 }
        { comes_late(lock, other, held, met) },
    )
}

/// A meeting at which nobody called yet, and second owners of its flags.
fn meeting(alloc: Global) -> Result<(Meeting, Flag, Flag), Memory> {
    let (held, other_held) = flag(alloc)?;
    let (met, other_met) = flag(alloc)?;
    let meeting = Meeting {
        held,
        met,
        played: 0,
    };
    Ok((meeting, other_held, other_met))
}

/// Whether, of two callers of a new lock at once, the second one was seen to be turned away and was told so, and one
/// operation was played.
fn turns_away<R: Threads>(rt: &R, alloc: Global) -> Result<bool, Memory> {
    let (meeting, held, met) = meeting(alloc)?;
    let Ok((lock, mut first)) = TurnLock::make(alloc, meeting) else {
        return Err(Memory);
    };
    let other = lock.split(&mut first);
    let ((is_seen, mut first), (is_busy, other)) = meets(rt, &lock, first, other, &held, &met);
    lock.join(&mut first, other);
    Ok((lock.close(first).played == 1) & is_seen & is_busy)
}

#[test]
fn a_held_lock_turns_callers_away(rt: HostRuntime) {
    see(&rt, turns_away(&rt, rt.alloc()));
}

/// Waits for the turn while the other caller stays in it, and says whether it was played.
fn comes_and_waits<R: Wait>(
    rt: &R,
    lock: &TurnLock<Meeting>,
    mut pass: Pass<Meeting>,
    held: &Flag,
) -> (bool, Pass<Meeting>)
    requires { IsPassOf lock.now pass }
    ensures { IsPassOf lock.now result.1 }
{
    let is_held = sees(held);
    let answer = lock.call(rt, &mut pass, MeetingOp::Leave);
    let is_played = matches!(&answer, Ok(true));
    (is_held & is_played, pass)
}

/// Tells the caller that stays in its turn once another one sleeps, and says whether one does.
fn watches(lock: &TurnLock<Meeting>, met: &Flag) -> bool {
    let is_asleep = sees_sleeper(lock);
    met.store(true, Ordering::SeqCst);
    is_asleep
}

/// A caller that waits, and a watcher beside it: whether the watcher saw it sleep, whether it was played, and its pass.
fn waits_watched<R: Threads + Wait>(
    rt: &R,
    lock: &TurnLock<Meeting>,
    other: Pass<Meeting>,
    held: &Flag,
    met: &Flag,
) -> (bool, (bool, Pass<Meeting>))
    requires { IsPassOf lock.now other }
    ensures { IsPassOf lock.entry.now result.1.1 }
{
    thread::join(
        rt,
        || watches(lock, met),
        || -> (bool, Pass<Meeting>)
            requires { IsPassOf lock.now other }
            ensures { IsPassOf lock.entry.now result.1 }
        { comes_and_waits(rt, lock, other, held) },
    )
}

/// Two callers at once, of whom the second one sleeps until the first one ends its turn: whether the first one was told so,
/// its pass, and what `waits_watched` says.
fn meets_asleep<R: Threads + Wait>(
    rt: &R,
    lock: &TurnLock<Meeting>,
    first: Pass<Meeting>,
    other: Pass<Meeting>,
    held: &Flag,
    met: &Flag,
) -> ((bool, Pass<Meeting>), (bool, (bool, Pass<Meeting>)))
    requires own { IsPassOf lock.now first × IsPassOf lock.now other }
    ensures own { IsPassOf lock.now result.0.1 × IsPassOf lock.now result.1.1.1 }
    ensures same { IsSamePass (view_of first) (view_of result.0.1) }
{
    thread::join(
        rt,
        || -> (bool, Pass<Meeting>)
            requires { IsPassOf lock.now first }
            ensures { IsPassOf lock.entry.now result.1
                × IsSamePass (view_of first) (view_of result.1) }
        { comes_first(lock, first) },
        || -> (bool, (bool, Pass<Meeting>))
            requires { IsPassOf lock.now other }
            ensures { IsPassOf lock.entry.now result.1.1 }
        { waits_watched(rt, lock, other, held, met) },
    )
}

/// Whether, of two callers of a new lock at once, the second one was seen to sleep and was played, as was the first one.
fn wakes<R: Threads + Wait>(rt: &R, alloc: Global) -> Result<bool, Memory> {
    let (meeting, held, met) = meeting(alloc)?;
    let Ok((lock, mut first)) = TurnLock::make(alloc, meeting) else {
        return Err(Memory);
    };
    let other = lock.split(&mut first);
    let ((is_told, mut first), (is_asleep, (is_played, other))) = meets_asleep(
        rt, &lock, first, other, &held, &met,
    );
    lock.join(&mut first, other);
    Ok((lock.close(first).played == 2) & is_told & is_asleep & is_played)
}

#[test]
fn a_sleeper_is_woken(rt: HostRuntime) {
    see(&rt, wakes(&rt, rt.alloc()));
}
