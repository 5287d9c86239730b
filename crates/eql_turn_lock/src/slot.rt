//! The place of the value in the table under a lock.
use std::snapshot::Snapshot;

/// What lies in the slot: the value, but while it is out with the pass that holds the turn.
#[derive(Drop)]
pub(crate) struct Slot<T, O, R> {
    pub(crate) value: Option<T>,
    pub(crate) last: Option<LastCall<O, R>>,
}

/// The call that was played last. It tells the proofs which entry joins the history, and has no
/// bytes.
#[derive(Drop)]
pub(crate) struct LastCall<O, R> {
    pub(crate) op: Snapshot<O>,
    pub(crate) reply: Snapshot<R>,
}
