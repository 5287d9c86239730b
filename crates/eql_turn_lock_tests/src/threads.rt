//! Two callers of one lock, each in a thread of its own.
ghost use Rattle.std.specs.Prelude.{◌≡◌};
ghost use Rattle.eql_turn_lock.specs.Locks.{IsPassOf};

use eql_turn_lock::{Pass, TurnLock, Turned};
use std::thread;
use std::thread::Threads;

/// Lends the lock to another thread, which gets the pass and gives it back.
fn hand_over<T: Turned>(lock: &TurnLock<T>, pass: Pass<T>) -> Pass<T>
    ensures { result ≡ pass }
{
    let _ = lock;
    pass
}

/// A lock may be shared by threads, and a pass may go to one and come back, where the value may.
pub fn both<T: Turned + Send, R: Threads>(
    rt: &R,
    lock: &TurnLock<T>,
    first: Pass<T>,
    second: Pass<T>,
) -> (Pass<T>, Pass<T>)
    ensures { (result.0 ≡ first) × (result.1 ≡ second) }
{
    thread::join(
        rt,
        || -> Pass<T>
            ensures { result ≡ first }
        { hand_over(lock, first) },
        || -> Pass<T>
            ensures { result ≡ second }
        { hand_over(lock, second) },
    )
}
