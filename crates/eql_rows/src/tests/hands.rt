//! Hands of a run beside each other.
use crate::tests::row::{Row, Words, found};
use crate::tests::run::check_through;
use crate::tests::sequences::{ELEVEN, REFERENCE, REFERENCE_LISTS};
use eql_cli::{Gate, Moment};
use std::sync::atomic::{AtomicBool, AtomicU32, Ordering};
use std::thread::yield_now;

/// How often a hand looks for another one before it gives up.
const LOOKS: u32 = 100_000_000;

/// After so many looks other threads are let run.
const ROUND: u32 = 1024;

/// A gate that holds the first hand to leave a step until another hand enters one.
#[derive(Drop)]
struct FirstHeld {
    /// A hand has left a step.
    held: AtomicBool,
    /// The number of the first hand that did, once it has.
    first: AtomicU32,
    /// Another hand entered a step while that one was held.
    met: AtomicBool,
}

impl FirstHeld {
    // Notes that a hand enters a step.
    fn enter(&self, hand: u32) {
        let first = self.first.load(Ordering::SeqCst);
        if first != 0 && first != hand {
            self.met.store(true, Ordering::SeqCst);
        }
    }

    // Holds the hand, where it is the first one to leave, until another one was seen or the looks ran out.
    fn leave(&self, hand: u32) {
        if self.held.swap(true, Ordering::SeqCst) {
            return;
        }
        self.first.store(hand, Ordering::SeqCst);
        for look in 0..LOOKS {
            if self.met.load(Ordering::SeqCst) {
                return;
            }
            if look % ROUND == 0 {
                yield_now();
            }
        }
    }
}

impl Gate for FirstHeld {
    fn step(&self, hand: u32, moment: Moment) {
        match moment {
            Moment::Enter => self.enter(hand),
            Moment::Leave => self.leave(hand),
        }
    }
}

/// A search with four hands.
static FOUR_HANDS: &[Row] = &[found!(
    "hands beside each other",
    REFERENCE,
    ELEVEN,
    REFERENCE_LISTS,
    words: Words::Find("--hands 4"),
)];

/// While a hand is held between two of its steps another one plays, so both are on threads of their own.
#[test]
fn hands_play_beside_each_other(rt: HostRuntime) {
    let gate = FirstHeld {
        held: AtomicBool::new(false),
        first: AtomicU32::new(0),
        met: AtomicBool::new(false),
    };
    check_through(&rt, rt.alloc(), &[FOUR_HANDS], &gate);
    assert!(rt; gate.held.load(Ordering::SeqCst) && gate.met.load(Ordering::SeqCst));
}
