//! Where threads that run a search may be held, as tests do.

/// A moment of a hand's step.
#[derive(Clone, Copy, Debug, PartialEq, Eq)]
pub enum Moment {
    /// The hand is about to do a step.
    Enter,
    /// The hand has done it.
    Leave,
}

/// What a hand passes at each moment of its steps.
pub trait Gate {
    /// Passes the gate with the hand of this number. Those beside the conductor count from 1.
    fn step(&self, hand: u32, moment: Moment);
}

/// A gate that does nothing.
#[derive(Clone, Copy, Debug, Drop)]
pub struct NoGate;

impl Gate for NoGate {
    fn step(&self, _hand: u32, _moment: Moment) {}
}
