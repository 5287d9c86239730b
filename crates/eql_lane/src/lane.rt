//! A lane over a source.
ghost use Rattle.std.specs.Prelude.{◌≡◌, ◌≢◌, ◌≤◌, ◌<◌, ◌+◌, ◌==◌, ℕ, Option, List, [], None, Some, Ok, Err, IfOk, IfErr, IfSome, OnErr, OnOk, true, false, ◌⊎◌, length, position, take, drop, ◌++◌, ◌^◌};
ghost use Rattle.eql_outside.specs.Outside.{Rose};
ghost use Rattle.eql_outside.specs.Unfailing.{IsUnfailing};
ghost use Rattle.eql_laws.specs.Counting.{greatest_lines, greatest_bytes};
ghost use Rattle.eql_lane.specs.Lanes.{Setting, LaneState, IsState, lesser, greater, ready, IsTakeStep, IsSnapStep, LaneAllows, beginning_lane};
ghost use Rattle.eql_lane.specs.Views.{LaneView, IsTextOf, setting_of, IsSameLane};
ghost use Rattle.eql_lane.specs.Slacks.{IsSlack, nanos_of, greatest_slack_ms};
ghost use Rattle.eql_lane.specs.Buffers.{dropped_part, byte_count, HasFeedAt, IsFront, HasFront, IsOfBytes, IsOneLine};
ghost use Rattle.eql_digest.specs.Digests.{with_bytes, IsDigestOf};
ghost use Rattle.eql_lane.specs.Judging.{kept_on, cut_with};
ghost use Rattle.eql_lane.specs.Plays.{Plays, DidNotFail};
ghost use Rattle.eql_lane.specs.Starts.{MayStart, MayBegin, MayLift, Retraces, Lifts, BeginsAs, IsRefused, IsNotMade};
ghost use Rattle.eql_lane.specs.Feeding.{Steps, FeedsView, TookTo, line_step as step_by_line, end_step as step_by_end};

use crate::buffer::{FillRefused, LineBuffer, PIECE};
use crate::kept::{Kept, placed};
use crate::make::{LaneRefused, LaneStart};
use crate::ops::{LaneOp, LaneReply, ShardLimit};
use crate::pass::{Found, seek};
use crate::step::Step;
use eql_digest::Digest;
use eql_outside::{Source, Supply};
use eql_values::{Counts, LaneCut, LineReader, Lines, Mark, Memory, Places};
use std::alloc::Global;
use std::marker::Model;
use std::mem::replace;

/// A lane over a source.
#[derive(Drop)]
pub struct Lane<S: Source, L: LineReader> {
    source: S,
    reader: L,
    shard: u32,
    buffer: LineBuffer,
    kept: Kept,
    taken: u64,
    given: Mark,
    places: Places,
    alloc: Global,
}

impl<S: Source, L: LineReader> Model for Lane<S, L> {
    ghost use Rattle.std.specs.Prelude.{None};
    ghost use Rattle.eql_lane.specs.Judging.{cut_with};
    ghost use Rattle.eql_lane.specs.Views.{LaneView, IsLane};

    ghost Value = { LaneView S L };

    ghost view = { λ l. record {
      source = l.source;
      reader = l.reader;
      shard = l.shard;
      slack = l.kept.slack;
      buffer = l.buffer;
      places = l.places;
      state = record {
        cut = cut_with l.buffer.digest l.kept;
        taken = l.taken;
        given = l.given;
        faults = S.fault_count l.source;
      };
    } };

    ghost invariant = { λ l. IsLane None (S.left l.source) l.buffer
        (cut_with l.buffer.digest l.kept) l.taken };
}

/// How many lines a shard may have.
const LINES: u32 = 4294967294;

/// How many bytes a shard may have.
const BYTES: u64 = 1099511627776;

/// After how many bytes a feed ends early.
const EARLY: usize = 4194304;

/// How many events may wait below the low.
const READY: u32 = 65536;

// No places.
fn no_places(alloc: Global) -> Places
    ensures { result ≡ [] }
{
    Places::of(Vec::new(alloc))
}

// What is found where nothing is passed over.
fn nothing_found(alloc: Global) -> Found
    ensures places { result.places ≡ [] }
    ensures digest { IsDigestOf result.digest [] }
    ensures of_bytes { IsOfBytes result.digest }
{
    Found {
        places: no_places(alloc),
        digest: Digest::new(),
    }
}

// A slack in nanoseconds.
fn nanos(slack: Option<u64>) -> Option<i128>
    requires few { IfSome slack (λ ms. ms ≤ greatest_slack_ms) }
    ensures nanos { result ≡ nanos_of slack }
    ensures slack { IsSlack result }
{
    match slack {
        None => None,
        Some(ms) => Some((ms * 1000000) as i128),
    }
}

// Reads the line at hand, which has so many of the kept bytes and, where `feed` is 1, its line
// feed.
fn read_line<L: LineReader>(
    alloc: Global,
    buffer: &mut LineBuffer,
    kept: &mut Kept,
    reader: &mut L,
    shard: u32,
    end: usize,
    feed: usize,
) -> Result<(), Memory>
    requires front { HasFront buffer.old.long }
    requires short { byte_count buffer.old < 2 ^ 63 }
    requires feed { feed ≤ 1 }
    requires within { end + feed ≤ length buffer.old.unread }
    requires lines { kept.old.counts.lines < greatest_lines }
    requires bytes { kept.old.offset + ((dropped_part buffer.old).bytes + end + feed)
        ≤ greatest_bytes }
    ensures read { (front : List ℕ) → IsFront buffer.old.long front
        → OnOk result (kept.new ≡ kept_on kept.old
        (L.read_of reader.old shard (kept.old.counts.lines + 1)
        (front ++ take end buffer.old.unread))
        ((dropped_part buffer.old).bytes + end + feed)) }
    ensures slack { kept.new.slack ≡ kept.old.slack }
    ensures rest { OnOk result (buffer.new ≡ record {
      long = None;
      unread = drop (end + feed) buffer.old.unread;
      digest = with_bytes (dropped_part buffer.old).digest (take (end + feed) buffer.old.unread);
    }) }
    ensures unchanged { OnErr result ((kept.new ≡ kept.old) × (buffer.new ≡ buffer.old)) }
    ensures stays { L.read_of reader.new ≡ L.read_of reader.old }
{
    let number = kept.lines() + 1;
    let got = buffer.read(alloc, reader, shard, number, end)?;
    let width = buffer.width(end) + feed as u64;
    kept.add(got, width)?;
    buffer.pass(end + feed);
    Ok(())
}

// Reads the last line, if bytes of it are there, and closes. It returns whether there was one.
fn finish<L: LineReader>(
    alloc: Global,
    buffer: &mut LineBuffer,
    kept: &mut Kept,
    reader: &mut L,
    shard: u32,
) -> Result<bool, Memory>
    requires front { HasFront buffer.old.long }
    requires short { byte_count buffer.old < 2 ^ 63 }
    requires lines { (kept.old.counts.lines < greatest_lines) ⊎ (byte_count buffer.old ≡ 0) }
    requires bytes { kept.old.offset + byte_count buffer.old ≤ greatest_bytes }
    ensures none { result ≡ Ok false → (byte_count buffer.old ≡ 0)
        × (kept.new ≡ record kept.old { closed = true }) × (buffer.new ≡ buffer.old) }
    ensures last { result ≡ Ok true → (front : List ℕ) → IsFront buffer.old.long front
        → kept.new ≡ record (kept_on kept.old
        (L.read_of reader.old shard (kept.old.counts.lines + 1) (front ++ buffer.old.unread))
        (byte_count buffer.old)) { closed = true } }
    ensures some { result ≡ Ok true → 0 < byte_count buffer.old }
    ensures rest { result ≡ Ok true → buffer.new ≡ record {
      long = None;
      unread = [];
      digest = with_bytes (dropped_part buffer.old).digest buffer.old.unread;
    } }
    ensures slack { kept.new.slack ≡ kept.old.slack }
    ensures unchanged { OnErr result ((kept.new ≡ kept.old) × (buffer.new ≡ buffer.old)) }
    ensures stays { L.read_of reader.new ≡ L.read_of reader.old }
{
    let count = buffer.rest().len();
    if buffer.width(count) == 0 {
        kept.close();
        return Ok(false);
    }
    read_line(alloc, buffer, kept, reader, shard, count, 0)?;
    kept.close();
    Ok(true)
}

// The lesser of two marks.
fn least(a: Mark, b: Mark) -> Mark
    ensures { result ≡ lesser a b }
{
    if a <= b { a } else { b }
}

// The greater of two marks.
fn greatest(a: Mark, b: Mark) -> Mark
    ensures { result ≡ greater a b }
{
    if a <= b { b } else { a }
}

// The step by what reading a line returned.
fn line_step(read: Result<(), Memory>) -> Step
    ensures { result ≡ step_by_line read }
{
    match read {
        Ok(()) => Step::Line,
        Err(_) => Step::Memory,
    }
}

// The step by what reading the last line returned.
fn end_step(ended: Result<bool, Memory>) -> Step
    ensures { result ≡ step_by_end ended }
{
    match ended {
        Ok(last) => Step::End(last),
        Err(_) => Step::Memory,
    }
}

impl<S: Source, L: LineReader> Lane<S, L> {
    // Where the line at hand ends, if its line feed is there.
    fn line_end(&mut self) -> Option<usize>
        ensures found { IfSome result (λ end. HasFeedAt end self.old.buffer.unread) }
        ensures none { result ≡ None → IsOneLine self.old.buffer.unread }
        ensures same { self.new ≡ self.old }
    {
        self.buffer.line_end()
    }

    // Reads the line at hand, whose line feed stands behind so many of the kept bytes.
    fn next_line(&mut self, end: usize) -> Step
        requires was_open { self.old.state.cut.closed ≡ false }
        requires feed { HasFeedAt end self.old.buffer.unread }
        ensures steps { Steps S.left L.read_of self.old result self.new }
        ensures room { TookTo 0 result }
        ensures same { IsSameLane S.left S.lent_as L.read_of self.old self.new }
        ensures unfailing { IsUnfailing (S.fault_plan self.old.source)
            → (result ≢ Step.Failed) × IsUnfailing (S.fault_plan self.new.source) }
    {
        if self.kept.lines() == LINES {
            return Step::Lines;
        }
        let read = read_line(
            self.alloc,
            &mut self.buffer,
            &mut self.kept,
            &mut self.reader,
            self.shard,
            end,
            1,
        );
        line_step(read)
    }

    // Takes at most so many bytes, or meets the source's end. No line feed is kept.
    fn take_more(&mut self, room: usize) -> Step
        requires was_open { self.old.state.cut.closed ≡ false }
        requires some { 1 ≤ room }
        requires one { IsOneLine self.old.buffer.unread }
        ensures steps { Steps S.left L.read_of self.old result self.new }
        ensures room { TookTo room result }
        ensures same { IsSameLane S.left S.lent_as L.read_of self.old self.new }
        ensures unfailing { IsUnfailing (S.fault_plan self.old.source)
            → (result ≢ Step.Failed) × IsUnfailing (S.fault_plan self.new.source) }
    {
        self.buffer.shorten();
        if self.kept.lines() == LINES && self.buffer.count() > 0 {
            return Step::Lines;
        }
        let most = room.min(PIECE).min((BYTES - self.taken) as usize);
        if most == 0 {
            return Step::Bytes;
        }
        match self.buffer.fill(&mut self.source, most) {
            Err(FillRefused::Failed) => Step::Failed,
            Err(FillRefused::Memory) => Step::Memory,
            Ok(0) => {
                let ended = finish(
                    self.alloc,
                    &mut self.buffer,
                    &mut self.kept,
                    &mut self.reader,
                    self.shard,
                );
                end_step(ended)
            }
            Ok(n) => {
                self.taken += n as u64;
                Step::Took(n)
            }
        }
    }

    // Reads a line, or takes at most so many bytes, or meets the source's end.
    fn step(&mut self, room: usize) -> Step
        requires was_open { self.old.state.cut.closed ≡ false }
        requires some { 1 ≤ room }
        ensures steps { Steps S.left L.read_of self.old result self.new }
        ensures room { TookTo room result }
        ensures same { IsSameLane S.left S.lent_as L.read_of self.old self.new }
        ensures unfailing { IsUnfailing (S.fault_plan self.old.source)
            → (result ≢ Step.Failed) × IsUnfailing (S.fault_plan self.new.source) }
    {
        match self.line_end() {
            Some(end) => self.next_line(end),
            None => self.take_more(room),
        }
    }

    // Reads at most so many lines of an open source.
    fn read_lines(&mut self, max: u32) -> LaneReply
        requires was_open { self.old.state.cut.closed ≡ false }
        requires full { (text : Option (List ℕ))
            → ready (setting_of L.read_of text self.old) self.old.state < 65536 }
        requires some { 1 ≤ max }
        requires state { (text : Option (List ℕ)) → IsTextOf S.left text self.old
            → IsState (setting_of L.read_of text self.old) self.old.state }
        ensures feeds { FeedsView S.left L.read_of self.old max result self.new }
        ensures same { IsSameLane S.left S.lent_as L.read_of self.old self.new }
        ensures unfailing { IsUnfailing (S.fault_plan self.old.source)
            → DidNotFail result × IsUnfailing (S.fault_plan self.new.source) }
    {
        let mut lines = 0;
        let mut room = EARLY;
        while lines < max {
            if room == 0 {
                return LaneReply::Fed { lines };
            }
            match self.step(room) {
                Step::Line => lines += 1,
                Step::Took(n) => room -= n,
                Step::End(last) => {
                    if last {
                        return LaneReply::Fed { lines: lines + 1 };
                    }
                    if lines == 0 {
                        return LaneReply::Closed;
                    }
                    return LaneReply::Fed { lines };
                }
                Step::Failed => return LaneReply::Failed { lines },
                Step::Memory => return LaneReply::Memory { lines },
                Step::Lines => return LaneReply::Limit(ShardLimit::Lines { shard: self.shard }),
                Step::Bytes => return LaneReply::Limit(ShardLimit::Bytes { shard: self.shard }),
            }
        }
        LaneReply::Fed { lines }
    }

    // What holds of each state. It does nothing.
    fn stands(&self)
        ensures state { (text : Option (List ℕ)) → IsTextOf S.left text self.now
            → IsState (setting_of L.read_of text self.now) self.now.state }
        ensures ended { (text : Option (List ℕ)) → IsTextOf S.left text self.now
            → self.now.state.cut.closed ≡ true
            → IfSome text (λ t. drop self.now.state.cut.offset t ≡ []) }
    {
        let _ = &self.taken;
    }

    // Whether the source was read to its end.
    fn is_closed(&self) -> bool
        ensures { result ≡ self.now.state.cut.closed }
    {
        self.kept.is_closed()
    }

    // How many held events lie below the low.
    fn ready(&self) -> u32
        ensures { (text : Option (List ℕ))
            → result ≡ ready (setting_of L.read_of text self.now) self.now.state }
    {
        self.kept.ready()
    }

    // Reads at most so many lines.
    fn feed(&mut self, max: u32) -> LaneReply
        requires some { 1 ≤ max }
        ensures feeds { FeedsView S.left L.read_of self.old max result self.new }
        ensures same { IsSameLane S.left S.lent_as L.read_of self.old self.new }
        ensures unfailing { IsUnfailing (S.fault_plan self.old.source)
            → DidNotFail result × IsUnfailing (S.fault_plan self.new.source) }
    {
        self.stands();
        let ready = self.ready();
        if ready >= READY {
            return LaneReply::Held { ready };
        }
        if self.is_closed() {
            return LaneReply::Closed;
        }
        self.read_lines(max)
    }

    // Hands out the events below the mark and the low.
    fn take(&mut self, mark: Mark) -> LaneReply
        ensures step { (text : Option (List ℕ))
            → IsTakeStep (setting_of L.read_of text self.old) self.old.state mark result
            self.new.state }
        ensures keeps { (text : Option (List ℕ)) → IsTextOf S.left text self.old
            → IsTextOf S.left text self.new }
        ensures same { IsSameLane S.left S.lent_as L.read_of self.old self.new }
        ensures unfailing { IsUnfailing (S.fault_plan self.old.source)
            → DidNotFail result × IsUnfailing (S.fault_plan self.new.source) }
    {
        let low = self.kept.low();
        let bound = least(mark, low);
        match self.kept.take_below(self.alloc, bound) {
            Err(_) => LaneReply::Memory { lines: 0 },
            Ok(items) => {
                self.given = greatest(self.given, bound);
                LaneReply::Taken(items)
            }
        }
    }

    // Tells what a cut keeps of the lane.
    fn snap(&self) -> LaneReply
        ensures { IsSnapStep self.now.state result self.now.state }
    {
        match self.kept.snap(self.alloc, self.buffer.digest()) {
            Err(_) => LaneReply::Memory { lines: 0 },
            Ok(cut) => LaneReply::Cut(cut),
        }
    }

    /// Plays an operation. Whatever it returns, the lane is as the step says, and plays on.
    ///
    /// - `Feed` reads at most as many lines as it says, and ends early once it took 4,194,304 bytes.
    ///   It returns `Held` where at least 65,536 events lie below the low, and reads nothing then;
    ///   `Closed` where no line was left; `Failed` where the source failed, and a later feed goes on.
    /// - `Take` hands out the held events below the lesser of the mark and the low, in order.
    /// - `Look` tells the low. It takes no memory.
    /// - `Snap` tells what a cut keeps of the lane.
    pub fn play(&mut self, op: LaneOp) -> LaneReply
        requires { LaneAllows op }
        ensures plays { Plays S.left L.read_of self.old op result self.new }
        ensures same { IsSameLane S.left S.lent_as L.read_of self.old self.new }
        ensures unfailing { IsUnfailing (S.fault_plan self.old.source)
            → DidNotFail result × IsUnfailing (S.fault_plan self.new.source) }
    {
        match op {
            LaneOp::Feed { max } => self.feed(max),
            LaneOp::Take { mark } => self.take(mark),
            LaneOp::Look => LaneReply::Low(self.kept.low()),
            LaneOp::Snap => self.snap(),
        }
    }

    /// What became of the lines that were read. It takes no memory.
    pub fn counts(&self) -> Counts
        ensures { result ≡ self.now.state.cut.counts }
    {
        self.kept.counts()
    }

    /// What may be expected of the next takes of its source.
    pub fn supply(&self) -> Supply
        ensures { result ≡ S.supply_of self.now.source }
    {
        self.source.supply()
    }

    /// The places of the wanted lines, moved out: none after another start than
    /// [`Lift`](LaneStart::Lift), and none the second time. It takes no memory.
    pub fn places(&mut self) -> Places
        ensures places { result ≡ self.old.places }
        ensures lane { self.new ≡ record self.old { places = [] } }
    {
        replace(&mut self.places, no_places(self.alloc))
    }
}

impl<S: Source, L: LineReader + Drop> Lane<S, L> {
    /// A lane over what a source has left, of this shard, counted from 0. The slack is in
    /// milliseconds, from 0 to 3,153,600,000,000, which is 36,500 days. With no slack no event is
    /// late. Where the lane isn't made the source is handed back.
    pub fn make(
        alloc: Global,
        source: S,
        reader: L,
        shard: u32,
        slack: Option<u64>,
        start: LaneStart,
    ) -> Result<Lane<S, L>, (LaneRefused, S)>
        requires slack { IfSome slack (λ ms. ms ≤ greatest_slack_ms) }
        requires start { MayStart start }
        ensures made { IfOk result (λ lane. BeginsAs S.left S.lent_as S.fault_count
            source reader shard slack start lane) }
        ensures refused { IfErr result (λ refused. IsNotMade S.left S.lent_as S.fault_count
            start source refused.0 refused.1) }
        ensures unfailing { IsUnfailing (S.fault_plan source)
            → IfOk result (λ lane. IsUnfailing (S.fault_plan lane.source))
            × IfErr result (λ refused. (refused.0 ≢ LaneRefused.Failed)
            × IsUnfailing (S.fault_plan refused.1)) }
    {
        let slack = nanos(slack);
        match start {
            LaneStart::Fresh => {
                let kept = Kept::new(alloc, slack);
                let found = nothing_found(alloc);
                Ok(Lane::begin(alloc, source, reader, shard, kept, found))
            }
            LaneStart::From(cut) => {
                let known = Some(cut.digest);
                Lane::resume(alloc, source, reader, shard, slack, cut, known)
            }
            LaneStart::Retrace(cut) => {
                Lane::resume(alloc, source, reader, shard, slack, cut, None)
            }
            LaneStart::Lift { cut, wanted } => {
                Lane::lift(alloc, source, reader, shard, slack, cut, wanted)
            }
        }
    }

    // A lane that goes on from what a cut keeps of it. Where the digest of the bytes before its
    // offset is known, they must have it.
    fn resume(
        alloc: Global,
        source: S,
        reader: L,
        shard: u32,
        slack: Option<i128>,
        cut: LaneCut,
        known: Option<Digest>,
    ) -> Result<Lane<S, L>, (LaneRefused, S)>
        requires slack { IsSlack slack }
        requires cut { MayBegin cut }
        ensures made { IfOk result (λ lane. Retraces S.left S.lent_as S.fault_count
            source reader shard slack cut lane) }
        ensures known { IfOk result (λ lane. IfSome known
            (λ own. own ≡ lane.state.cut.digest)) }
        ensures refused { IfErr result (λ refused. IsRefused S.left S.lent_as S.fault_count
            cut known [] source refused.0 refused.1) }
        ensures unfailing { IsUnfailing (S.fault_plan source)
            → IfOk result (λ lane. IsUnfailing (S.fault_plan lane.source))
            × IfErr result (λ refused. (refused.0 ≢ LaneRefused.Failed)
            × IsUnfailing (S.fault_plan refused.1)) }
    {
        let mut source = source;
        let wanted = Lines::of(Vec::new(alloc));
        match seek(alloc, &mut source, cut.offset, cut.closed, known, wanted) {
            Err(refused) => Err((refused, source)),
            Ok(found) => {
                let kept = Kept::of(alloc, slack, cut);
                Ok(Lane::begin(alloc, source, reader, shard, kept, found))
            }
        }
    }

    // A lane that goes on from what a cut without places keeps of it, with the places of its lines.
    fn lift(
        alloc: Global,
        source: S,
        reader: L,
        shard: u32,
        slack: Option<i128>,
        cut: LaneCut,
        wanted: Lines,
    ) -> Result<Lane<S, L>, (LaneRefused, S)>
        requires slack { IsSlack slack }
        requires cut { MayLift cut wanted }
        ensures made { IfOk result (λ lane. Lifts S.left S.lent_as S.fault_count
            source reader shard slack cut wanted lane) }
        ensures refused { IfErr result (λ refused. IsRefused S.left S.lent_as S.fault_count
            cut None wanted source refused.0 refused.1) }
        ensures unfailing { IsUnfailing (S.fault_plan source)
            → IfOk result (λ lane. IsUnfailing (S.fault_plan lane.source))
            × IfErr result (λ refused. (refused.0 ≢ LaneRefused.Failed)
            × IsUnfailing (S.fault_plan refused.1)) }
    {
        let mut source = source;
        match seek(alloc, &mut source, cut.offset, cut.closed, None, wanted) {
            Err(refused) => Err((refused, source)),
            Ok(found) => {
                let kept = Kept::of(alloc, slack, placed(cut, &found.places));
                Ok(Lane::begin(alloc, source, reader, shard, kept, found))
            }
        }
    }

    // A lane that begins with what is kept of it and was found before it, over the source behind
    // it.
    fn begin(
        alloc: Global,
        source: S,
        reader: L,
        shard: u32,
        kept: Kept,
        found: Found,
    ) -> Lane<S, L>
        requires lines { kept.counts.lines ≤ greatest_lines }
        requires bytes { kept.offset ≤ greatest_bytes }
        requires ended { kept.closed ≡ true → IfSome (S.left source) (λ left. left ≡ []) }
        requires of_bytes { IsOfBytes found.digest }
        ensures lane { result ≡ record {
          source = source;
          reader = reader;
          shard = shard;
          slack = kept.slack;
          buffer = record { long = None; unread = []; digest = found.digest };
          places = found.places;
          state = beginning_lane (cut_with found.digest kept) (S.fault_count source);
        } }
    {
        kept.ordered();
        Lane {
            source,
            reader,
            shard,
            buffer: LineBuffer::new(alloc, found.digest),
            taken: kept.offset(),
            kept,
            given: Mark::Start,
            places: found.places,
            alloc,
        }
    }

    /// The source, handed back.
    pub fn into_source(self) -> S
        ensures source { result ≡ self.source }
        ensures faults { S.fault_count result ≡ self.state.faults }
    {
        self.source
    }
}
