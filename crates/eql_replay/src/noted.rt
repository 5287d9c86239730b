//! What was played on a bench.
ghost use Rattle.std.specs.Prelude.{◌≡◌};
ghost use Rattle.eql_conductor.specs.Notes.{items_in, lane_note, low_in};
ghost use Rattle.eql_replay.specs.Noting.{asked_note, did_fail, told_note};

use eql_conductor::Note;
use eql_lane::{LaneOp, LaneReply};
use eql_parts::{PartOp, PartReply};
use eql_values::Mark;

/// A note, with the lane or the part on which it was played.
#[derive(Clone, Copy)]
pub(crate) enum Noted {
    /// It was played on a lane.
    OfLane {
        /// The lane.
        lane: u32,
        /// The note.
        note: Note,
        /// Whether it was a feed that failed.
        failed: bool,
    },
    /// It was played on a part.
    OfPart {
        /// The part.
        part: u32,
        /// The note.
        note: Note,
    },
}

// The low that was returned.
fn low_of(reply: &LaneReply) -> Mark
    ensures { result ≡ low_in reply.now }
{
    match reply {
        LaneReply::Low(mark) => *mark,
        _ => Mark::Start,
    }
}

/// The note of what a lane was asked.
pub(crate) fn note_of_lane(op: LaneOp, reply: &LaneReply) -> Note
    ensures { result ≡ lane_note op reply.now }
{
    match op {
        LaneOp::Feed { max } => Note::Fed { max },
        LaneOp::Take { mark } => Note::Took { mark },
        LaneOp::Look => Note::Looked { low: low_of(reply) },
        LaneOp::Snap => Note::Snapped,
    }
}

/// Whether it was a feed that failed.
pub(crate) fn has_failed(reply: &LaneReply) -> bool
    ensures { result ≡ did_fail reply.now }
{
    match reply {
        LaneReply::Failed { lines: _ } => true,
        _ => false,
    }
}

/// The note of what a part is asked, before it has answered.
pub(crate) fn note_of_part(op: &PartOp) -> Note
    ensures { result ≡ asked_note op.now }
{
    match op {
        PartOp::Deliver { items: _, mark: _ } => Note::Delivered,
        PartOp::Turn { max: _ } => Note::Turned { items: 0 },
        PartOp::Collect => Note::Collected,
        PartOp::Snap => Note::Snapped,
    }
}

// How many events were played.
fn items_of(reply: &PartReply) -> u32
    ensures { result ≡ items_in reply.now }
{
    match reply {
        PartReply::Turned { items } => *items,
        PartReply::Memory { back: _, items } => *items,
        _ => 0,
    }
}

/// The same note, with the number of events that were played where some may have been.
pub(crate) fn with_reply(note: Note, reply: &PartReply) -> Note
    ensures { result ≡ told_note note reply.now }
{
    match note {
        Note::Turned { items: _ } => Note::Turned {
            items: items_of(reply),
        },
        _ => note,
    }
}
