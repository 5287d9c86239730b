//! A bench of lanes and parts in lists.
ghost use Rattle.std.specs.Prelude.{◌≡◌, ◌≤◌, ◌<◌, ◌^◌, ◌+◌, [], All, IfErr, IfOk, length, min};
ghost use Rattle.eql_lane.specs.Lanes.{LaneAllows};
ghost use Rattle.eql_conductor.specs.Benches.{LanePlays, MayPlay, PartPlays, WasNotPlayed};
ghost use Rattle.eql_conductor.specs.GoingOn.{AreOfTexts, LanesGoOn, LanesReadFurther, LanesReadOn};
ghost use Rattle.eql_replay.specs.Listed.{bench_known};
ghost use Rattle.eql_replay.specs.Opened.{FailsAsPlanned, IsQuiet, IsLaneCall, IsPartCall, list_at};
ghost use Rattle.eql_replay.specs.Pools.{ForeignsPlay, IsPlay};

use crate::foreign::Foreigns;
use crate::noted::{Noted, has_failed, note_of_lane, note_of_part, with_reply};
use crate::notes::Notes;
use crate::opening::Opening;
use crate::pool::Pool;
use eql_auto::Steps;
use eql_conductor::{Bench, NotPlayed};
use eql_lane::{Lane, LaneOp, LaneReply};
use eql_outside::Source;
use eql_parts::{Part, PartOp, PartReply};
use eql_values::LineReader;
use std::marker::{Model, PhantomData};
use std::sync::ledger::Ledger;

/// Lanes and parts, on which others play a given list of operations before each call, and nothing more once the lists are
/// used up.
///
/// Contracts see it as the lanes and parts, how many lists were played, and the notes of what the caller played.
#[derive(Drop)]
pub struct ListBench<S: Source, L: LineReader, G: Ledger, T: Opening<S, L>> {
    pool: Pool<S, L, G>,
    plays: Vec<Foreigns>,
    calls: usize,
    notes: Notes,
    of: PhantomData<T>,
}

impl<S: Source, L: LineReader, G: Ledger, T: Opening<S, L>> Model for ListBench<S, L, G, T> {
    ghost use Rattle.std.specs.Prelude.{◌≡◌};
    ghost use Rattle.eql_replay.specs.Listed.{BenchView};
    ghost use Rattle.eql_replay.specs.Opened.{IsBench};

    ghost Value = { BenchView S L };

    ghost view = { λ b. record { pool = b.pool; calls = b.calls; notes = b.notes } };

    ghost invariant = { λ b. IsBench S.left S.lent_as S.fault_plan L.read_of
        T.lanes T.text T.plays (record { pool = b.pool; calls = b.calls; notes = b.notes })
        × (b.plays.items ≡ T.plays) };
}

impl<S: Source, L: LineReader, G: Ledger, T: Opening<S, L>> ListBench<S, L, G, T> {
    /// A bench of these lanes and parts. The i-th list is played before the i-th call.
    pub fn new(
        lanes: Vec<Lane<S, L>>,
        parts: Vec<Part<G>>,
        steps: Steps<G>,
        plays: Vec<Foreigns>,
    ) -> ListBench<S, L, G, T>
        requires few_lanes { length lanes.items < 2 ^ 32 }
        requires few_parts { length parts.items < 2 ^ 32 }
        requires fit { All (λ foreigns. All (IsPlay (length lanes.items) (length parts.items))
            foreigns) plays.items }
        requires opening { (lanes.items ≡ T.lanes) × (plays.items ≡ T.plays) }
        requires texts { AreOfTexts S.left T.text lanes.items }
        ensures { result ≡ record {
          pool = record { lanes = lanes.items; parts = parts.items };
          calls = 0;
          notes = [];
        } }
    {
        ListBench {
            pool: Pool::new(lanes, parts, steps),
            plays,
            calls: 0,
            notes: Notes::new(),
            of: PhantomData,
        }
    }

    /// The lanes in their order. It takes no memory.
    pub fn into_lanes(self) -> Vec<Lane<S, L>>
        ensures lanes { result.items ≡ self.pool.lanes }
        ensures on { LanesGoOn S.left S.lent_as S.fault_plan L.read_of
            (IsQuiet T.plays self.notes) T.lanes result.items }
        ensures texts { AreOfTexts S.left T.text result.items }
        ensures read { LanesReadOn L.read_of T.text T.lanes result.items }
        ensures lines { LanesReadFurther T.text T.lanes result.items }
    {
        self.pool.into_lanes()
    }

    /// At a lane whose source isn't planned to fail no feed of the caller failed. It does nothing.
    pub(crate) fn fails_as_planned(&self)
        ensures { FailsAsPlanned S.fault_plan T.lanes self.now.notes }
    {
        let _ = &self.notes;
    }

    // Others play what they do before the next call.
    fn others_play(&mut self)
        ensures others { ForeignsPlay S.left S.lent_as S.fault_plan L.read_of
            (list_at T.plays self.old.calls) self.old.pool self.new.pool }
        ensures calls { self.new.calls ≡ min (self.old.calls + 1) (length T.plays) }
        ensures notes { self.new.notes ≡ self.old.notes }
        ensures alone { WasNotPlayed NotPlayed.Memory
            (bench_known L.read_of T.text self.old) (bench_known L.read_of T.text self.new) }
    {
        if self.calls < self.plays.len() {
            self.pool.play_all(&self.plays[self.calls]);
            self.calls += 1;
        }
    }
}

impl<S: Source, L: LineReader, G: Ledger, T: Opening<S, L>> Bench for ListBench<S, L, G, T> {
    ghost known = { λ b. bench_known L.read_of T.text b };

    fn lanes(&self) -> u32 {
        self.pool.lane_count() as u32
    }

    fn parts(&self) -> u32 {
        self.pool.part_count() as u32
    }

    fn lane(&mut self, s: u32, op: LaneOp) -> Result<LaneReply, NotPlayed>
        requires place { s < length self.old.pool.lanes }
        requires allowed { LaneAllows op }
        ensures played { IfOk result (λ reply. LanePlays s op reply
            (bench_known L.read_of T.text self.old) (bench_known L.read_of T.text self.new)) }
        ensures not_played { IfErr result (λ by. WasNotPlayed by
            (bench_known L.read_of T.text self.old) (bench_known L.read_of T.text self.new)) }
        ensures call { IsLaneCall S.left S.lent_as S.fault_plan L.read_of T.plays s op result
            self.old self.new }
    {
        self.others_play();
        let reply = self.pool.lane(s, op);
        let note = note_of_lane(op, &reply);
        let failed = has_failed(&reply);
        self.notes.push(Noted::OfLane {
            lane: s,
            note,
            failed,
        });
        Ok(reply)
    }

    fn part(&mut self, p: u32, op: PartOp) -> Result<PartReply, NotPlayed>
        requires place { p < length self.old.pool.parts }
        requires allowed { MayPlay (bench_known L.read_of T.text self.old) p op }
        ensures played { IfOk result (λ reply. PartPlays p op reply
            (bench_known L.read_of T.text self.old) (bench_known L.read_of T.text self.new)) }
        ensures not_played { IfErr result (λ by. WasNotPlayed by
            (bench_known L.read_of T.text self.old) (bench_known L.read_of T.text self.new)) }
        ensures call { IsPartCall S.left S.lent_as S.fault_plan L.read_of T.plays p op result
            self.old self.new }
    {
        self.others_play();
        let asked = note_of_part(&op);
        let reply = self.pool.part(p, op);
        let note = with_reply(asked, &reply);
        self.notes.push(Noted::OfPart { part: p, note });
        Ok(reply)
    }
}
