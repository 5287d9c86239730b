//! How a call waits for its turn, and how the end of a turn wakes a call that sleeps.

use crate::lock::TurnLock;
use crate::turned::Turned;
use std::hint::spin_loop;
use std::sync::Wait;
use std::sync::atomic::Ordering::SeqCst;

/// How often a call looks at the word before it sleeps.
const LOOKS: u32 = 4_000;

// Callers sleep on the word. A caller raises `waiting` before it looks at the word once more and
// sleeps, and the system looks again in one step with the sleep. The holder of the turn stores the
// word before it looks at `waiting`. All of these steps are sequentially consistent. So the caller
// sees the new word, or the holder sees that somebody waits: no wake is lost.
//
// The end of a turn wakes one caller. It takes the turn, whose end wakes the next one; or it finds
// the turn taken by another, whose end does; or it finds the lock worn, and wakes the next one itself.
impl<T: Turned> TurnLock<T> {
    /// How many calls sleep until a turn ends, or are about to.
    ///
    /// No clause says so.
    pub fn waiting(&self) -> u64 {
        self.waiting.load(SeqCst)
    }

    /// Waits for as long as the word is this one, at which another pass holds the turn.
    pub(crate) fn wait_for_turn<R: Wait>(&self, rt: &R, word: u64) {
        if self.moves_soon(word) {
            return;
        }
        self.waiting.fetch_add(1, SeqCst);
        if self.is_word(word) {
            self.sleep(rt, word);
        }
        self.waiting.fetch_sub(1, SeqCst);
    }

    /// Wakes a call that sleeps, if there is one.
    pub(crate) fn wake_next(&self) {
        if self.waiting.load(SeqCst) > 0 {
            self.table.shared.wake_one(0);
        }
    }

    /// Looks at the word a number of times, and says whether it became another one.
    fn moves_soon(&self, word: u64) -> bool {
        for _ in 0..LOOKS {
            if !self.is_word(word) {
                return true;
            }
            spin_loop();
        }
        false
    }

    /// Sleeps until the word is another one.
    fn sleep<R: Wait>(&self, rt: &R, word: u64) {
        for _ in rt.forever() {
            self.table.shared.park(rt, 0, (word % 4_294_967_296) as u32);
            if !self.is_word(word) {
                return;
            }
        }
    }

    /// Whether this is the word now.
    fn is_word(&self, word: u64) -> bool {
        self.table.shared.peek(0) == word
    }
}
