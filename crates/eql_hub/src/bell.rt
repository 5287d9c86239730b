//! Where hands without work sleep, and by what they are woken.
use std::sync::Wait;
use std::sync::atomic::AtomicU64;
use std::sync::atomic::Ordering::SeqCst;

// A run hasn't begun, is on, and has ended.
const BEFORE: u64 = 0;

const ON: u64 = 1;

const ENDED: u64 = 2;

/// A bell that the conductor rings where there may be work, and once more when its run has ended.
///
/// It decides when a hand sleeps, and nothing else: no clause speaks of it. A hand reads how often the bell was rung, looks for work,
/// and then waits for a further ring. So no ring between the look and the sleep is lost.
#[derive(Drop)]
pub struct Bell {
    rings: AtomicU64,
    sleepers: AtomicU64,
    run: AtomicU64,
}

impl Bell {
    /// A bell of a run that hasn't begun.
    pub fn new() -> Bell {
        Bell {
            rings: AtomicU64::new(0),
            sleepers: AtomicU64::new(0),
            run: AtomicU64::new(BEFORE),
        }
    }

    /// The run begins.
    pub fn begin(&self) {
        self.run.store(ON, SeqCst);
    }

    /// The run has ended. All who sleep are woken, and find that no run is on.
    pub fn end(&self) {
        self.run.store(ENDED, SeqCst);
        self.rings.fetch_add(1, SeqCst);
        self.rings.wake_all();
    }

    /// Whether a run is on, so that there may be work later.
    pub fn is_on(&self) -> bool {
        self.run.load(SeqCst) == ON
    }

    /// How often it was rung.
    pub fn rings(&self) -> u64 {
        self.rings.load(SeqCst)
    }

    /// There may be work for one more hand.
    pub fn ring(&self) {
        self.rings.fetch_add(1, SeqCst);
        if self.sleepers.load(SeqCst) > 0 {
            self.rings.wake_one();
        }
    }

    /// Sleeps until it is rung, where it was rung no more often than that. It may also return sooner.
    pub fn wait<R: Wait>(&self, rt: &R, rings: u64) {
        self.sleepers.fetch_add(1, SeqCst);
        if self.rings.load(SeqCst) == rings {
            self.rings.park(rt, (rings % 4_294_967_296) as u32);
        }
        self.sleepers.fetch_sub(1, SeqCst);
    }
}
