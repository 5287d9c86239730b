//! A meeting of two callers: one of them stays in its turn until the other one was turned away, or sleeps.
use eql_turn_lock::{TurnLock, Turned};
use std::alloc::Global;
use std::hint::spin_loop;
use std::sync::Arc;
use std::sync::atomic::{AtomicBool, Ordering};

/// How often a caller looks at a flag, or for a sleeper, before it gives up.
const LOOKS: u32 = 100_000_000;

/// How often the processor rests until a call that waited long is asleep.
const RESTS: u32 = 100_000;

/// A flag that two threads share.
pub type Flag = Arc<AtomicBool, Global>;

/// Two flags: the turn is held, and another caller was met, in that it was turned away or sleeps.
#[derive(Drop)]
pub struct Meeting {
    pub held: Flag,
    pub met: Flag,
    /// How many operations were played.
    pub played: u32,
}

#[derive(Drop)]
pub enum MeetingOp {
    /// Raises the first flag and looks for the second one.
    Stay,
    /// Does nothing.
    Leave,
}

/// Whether the flag was raised before the looks ran out.
pub fn sees(flag: &Flag) -> bool {
    for _ in 0..LOOKS {
        if flag.load(Ordering::SeqCst) {
            return true;
        }
        spin_loop();
    }
    false
}

/// Whether a call on the lock was about to sleep before the looks ran out. Some time passes behind it, so that the call is asleep.
pub fn sees_sleeper(lock: &TurnLock<Meeting>) -> bool {
    for _ in 0..LOOKS {
        if lock.waiting() > 0 {
            rest();
            return true;
        }
        spin_loop();
    }
    false
}

fn rest() {
    for _ in 0..RESTS {
        spin_loop();
    }
}

impl Turned for Meeting {
    ghost use Rattle.std.specs.Prelude.{⊤, true, false};
    ghost use Rattle.eql_turn_lock_tests.specs.Meetings.{IsMeetingStep};

    type Op = MeetingOp;

    /// Whether the flag that it looked for was seen, if it looked for one.
    type Reply = bool;

    ghost allows = { λ x op. ⊤ };

    ghost step_of = { IsMeetingStep };

    ghost is_open = { λ op. true };

    ghost is_idle = { λ reply. false };

    fn play(&mut self, op: MeetingOp) -> bool {
        self.played = self.played.saturating_add(1);
        match op {
            MeetingOp::Stay => {
                self.held.store(true, Ordering::SeqCst);
                sees(&self.met)
            }
            MeetingOp::Leave => true,
        }
    }

    fn idles(_reply: &bool) -> bool {
        false
    }

    ghost opens = { λ x op e. tt };

    ghost stays_allowed = { λ x y op later reply e s h. tt };
}
