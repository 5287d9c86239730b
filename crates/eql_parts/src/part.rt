//! A part: its calls, and what each does to its state.
ghost use Rattle.std.specs.Prelude.{◌≡◌, ◌≤◌, [], All, IfOk, OnErr};
ghost use Rattle.eql_laws.specs.Alive.{HoldersAreInOrder};
ghost use Rattle.eql_laws.specs.Shapes.{HasStageBefore, IsFull};
ghost use Rattle.eql_parts.specs.Inboxes.{HolderIsBelow};
ghost use Rattle.eql_parts.specs.PartSteps.{CanDeliver, HasNothingStale, IsCollectStep, IsDeliverStep, IsPartStep, IsSnapStep, IsTurnStep, PartAllows, alive_by, done_by, mark_time, still_held};

use crate::ops::{PartOp, PartReply};
use crate::waiting::Waiting;
use eql_auto::Steps;
use eql_laws::{ascend_together, events_and_keys_stay};
use eql_part::Keys;
use eql_values::{Holders, Items, Mark, Memory};
use std::alloc::Global;
use std::marker::Model;
use std::sync::ledger::Ledger;

/// One of the sixteen groups of keys that are searched apart.
///
/// Contracts see it as its rules and its state: the pending sequences by key and stage, the inbox of delivered events that
/// weren't played yet, the matches found, the last delivered mark and the last one all of whose events were played, and the
/// timestamp of the last event that was played.
pub struct Part<L: Ledger> {
    alloc: Global,
    waiting: Waiting<L>,
    done: Mark,
    last: Mark,
}

// A drop of its own: where a part is dropped, also in a crate above, there is one call, and not one for each list in it.
impl<L: Ledger> Drop for Part<L> {
    fn drop(self) {
        let Part {
            alloc: _,
            waiting: _,
            done: _,
            last: _,
        } = self;
    }
}

impl<L: Ledger> Model for Part<L> {
    ghost use Rattle.eql_parts.specs.PartSteps.{PartView};
    ghost use Rattle.eql_parts.specs.Viewed.{IsPart, part_view};

    ghost Value = { PartView };

    ghost view = { λ p. part_view p.waiting p.done p.last };

    ghost invariant = { λ p. IsPart p.waiting p.done p.last };
}

/// The time of a mark that has one, in nanoseconds since the epoch.
fn time_of(mark: Mark) -> Option<i128>
    ensures { result ≡ mark_time mark }
{
    match mark {
        Mark::At(time) => Some(time),
        Mark::Start | Mark::End => None,
    }
}

/// Moves the mark that is done on where no event waits, and drops the pending sequences that aren't alive at the timestamp
/// last played, or at that mark.
fn settle<L: Ledger>(waiting: &mut Waiting<L>, done: &mut Mark, last: Mark, steps: &mut Steps<L>)
    ensures done { done.new ≡ done_by waiting.old.inbox done.old last }
    ensures waiting { waiting.new ≡ record waiting.old {
      held = still_held waiting.old.span waiting.old.processed done.new waiting.old.held;
    } }
{
    if waiting.is_idle() {
        *done = last;
    }
    let processed = waiting.processed();
    waiting.sweep(processed, steps);
    waiting.sweep(time_of(*done), steps);
}

impl<L: Ledger> Part<L> {
    /// A part of 1 to 256 stages, with these pending sequences, whose events lie below the mark, but for those that aren't
    /// alive at it. The span is in nanoseconds.
    pub fn new(
        alloc: Global,
        m: u32,
        span: Option<i128>,
        holders: Holders,
        done: Mark,
        steps: &mut Steps<L>,
    ) -> Result<Part<L>, Memory>
        requires from { 1 ≤ m }
        requires to { m ≤ 256 }
        requires order { HoldersAreInOrder holders }
        requires stages { All (HasStageBefore m) holders }
        requires full { All IsFull holders }
        requires below { All (HolderIsBelow done) holders }
        ensures { IfOk result (λ part. part ≡ record {
          rules = record { stages = m; span = span };
          state = record {
            held = alive_by span (mark_time done) holders;
            inbox = [];
            found = [];
            done = done;
            last = done;
            processed = None;
          };
        }) }
    {
        let keys = Keys::new(alloc, m, span, holders)?;
        let mut waiting = Waiting::new(alloc, keys);
        waiting.sweep(time_of(done), steps);
        Ok(Part {
            alloc,
            waiting,
            done,
            last: done,
        })
    }

    /// Plays an operation. Want of memory is a reply. It is told with what was done before it, and all else is as before.
    pub fn play(&mut self, op: PartOp, steps: &mut Steps<L>) -> PartReply
        requires allowed { PartAllows self.old.state op }
        ensures rules { self.new.rules ≡ self.old.rules }
        ensures step { IsPartStep self.old.rules self.old.state op result self.new.state }
        ensures fresh { HasNothingStale self.new.rules self.new.state }
    {
        let reply = match op {
            PartOp::Deliver { items, mark } => self.deliver(items, mark, steps),
            PartOp::Turn { max } => self.turn(max, steps),
            PartOp::Collect => self.collect(),
            PartOp::Snap => self.snap(),
        };
        self.is_fresh();
        reply
    }

    /// No pending sequence of a part is stale. It does nothing.
    fn is_fresh(&self)
        ensures { HasNothingStale self.now.rules self.now.state }
    {
        let _ = &self.waiting;
    }

    /// Puts events at the end of the inbox.
    fn deliver(&mut self, items: Items, mark: Mark, steps: &mut Steps<L>) -> PartReply
        requires can { CanDeliver self.old.state.last items mark }
        ensures rules { self.new.rules ≡ self.old.rules }
        ensures step { IsDeliverStep self.old.rules self.old.state items mark result
            self.new.state }
    {
        ascend_together();
        self.waiting.stands();
        match self.waiting.deliver(items) {
            Err(back) => PartReply::Memory { back, items: 0 },
            Ok(()) => {
                self.last = mark;
                settle(&mut self.waiting, &mut self.done, self.last, steps);
                PartReply::Done
            }
        }
    }

    /// Plays events of the inbox.
    fn turn(&mut self, max: u32, steps: &mut Steps<L>) -> PartReply
        requires from { 1 ≤ max }
        ensures rules { self.new.rules ≡ self.old.rules }
        ensures step { IsTurnStep self.old.rules self.old.state max result self.new.state }
    {
        events_and_keys_stay();
        if self.waiting.is_idle() {
            return PartReply::Idle;
        }
        let played = self.waiting.play_some(max, steps);
        settle(&mut self.waiting, &mut self.done, self.last, steps);
        if played.wants_memory {
            return PartReply::Memory {
                back: Items::of(Vec::new(self.alloc)),
                items: played.items,
            };
        }
        PartReply::Turned {
            items: played.items,
        }
    }

    /// Hands out the matches found.
    fn collect(&mut self) -> PartReply
        ensures rules { self.new.rules ≡ self.old.rules }
        ensures step { IsCollectStep self.old.state result self.new.state }
    {
        let matches = self.waiting.collect(self.alloc);
        PartReply::Found {
            matches,
            done: self.done,
        }
    }

    /// Copies the pending sequences.
    fn snap(&self) -> PartReply
        ensures { IsSnapStep self.now.state result self.now.state }
    {
        match self.waiting.holders() {
            Ok(held) => PartReply::Cut(held),
            Err(_) => PartReply::Memory {
                back: Items::of(Vec::new(self.alloc)),
                items: 0,
            },
        }
    }
}
