//! What is kept of the lines that were read of a shard, but for the digest of their bytes.
ghost use Rattle.std.specs.Prelude.{◌∷◌, ◌≡◌, ◌≤◌, ◌<◌, ◌+◌, ◌++◌, ◌^◌, ◌≤ℤ◌, pos, true, false, ℕ, List, [], Ok, Err, IfOk, IfSome, All, OnErr, OnOk, None, filter, not, length, map, take, drop, vec_len, vec_capacity};
ghost use Rattle.eql_values.specs.declared.item.Item.{Item as Event};
ghost use Rattle.eql_values.specs.Accepted.{sorted_items};
ghost use Rattle.eql_values.specs.Reading.{IsTime};
ghost use Rattle.eql_values.specs.Marks.{is_below, low_of};
ghost use Rattle.eql_lane.specs.Lanes.{fresh_cut};
ghost use Rattle.eql_lane.specs.Starts.{MayBegin};
ghost use Rattle.eql_lane.specs.Slacks.{IsSlack};
ghost use Rattle.eql_lane.specs.Noting.{LinesAscend, place_noted, item_noted};
ghost use Rattle.eql_laws.specs.Counting.{first_or, greatest_lines, greatest_bytes};
ghost use Rattle.eql_laws.specs.Lateness.{larger};
ghost use Rattle.eql_lane.specs.Judging.{best_got, late_got, counts_got, held_got, kept_on, kept_of, cut_with, KeptView, IsGotAt, CountsHold};

use crate::held::Held;
use eql_digest::Digest;
use eql_values::{Counts, FirstBad, Item, Items, LaneCut, LineGot, Mark, Memory, Places, Reason};
use std::alloc::Global;
use std::marker::Model;

/// What is kept of the lines that were read.
#[derive(Drop)]
pub(crate) struct Kept {
    /// How far behind the greatest timestamp an event may come, in nanoseconds.
    slack: Option<i128>,
    /// The bytes of the lines.
    offset: u64,
    /// Whether the source was read to its end.
    closed: bool,
    /// The greatest timestamp, in nanoseconds since the epoch.
    best: Option<i128>,
    /// What became of the lines.
    counts: Counts,
    /// The accepted events that weren't handed on.
    held: Held,
}

impl Model for Kept {
    ghost use Rattle.eql_lane.specs.Judging.{IsKept, KeptView};

    ghost Value = { KeptView };

    ghost view = { λ k. record {
      slack = k.slack;
      offset = k.offset;
      closed = k.closed;
      best = k.best;
      counts = k.counts;
      items = k.held;
    } };

    ghost invariant = { λ k. IsKept k.slack k.best k.counts k.held };
}

/// The greater of a time and one that may be there.
fn later(best: Option<i128>, ts: i128) -> i128
    ensures { result ≡ larger ts best }
{
    match best {
        None => ts,
        Some(best) => { if ts < best { best } else { ts } }
    }
}

/// The greatest time with what a line gives.
fn best_with(best: Option<i128>, got: &LineGot) -> Option<i128>
    ensures { result ≡ best_got best got.now }
{
    match got {
        LineGot::Item(item) => Some(later(best, item.order.ts)),
        LineGot::Blank | LineGot::Bad(_) => best,
    }
}

/// Whether a line gives a late event.
fn gives_late(slack: Option<i128>, best: Option<i128>, got: &LineGot, line: u32) -> bool
    requires best { IfSome best IsTime }
    requires got { IsGotAt line got.now }
    ensures { result ≡ late_got slack best got.now }
{
    match (got, slack, best) {
        (LineGot::Item(item), Some(slack), Some(best)) => slack < best - item.order.ts,
        _ => false,
    }
}

/// The first bad line, if there was one, else this one.
fn first_with(first: Option<FirstBad>, line: u32, reason: Reason) -> Option<FirstBad>
    ensures { result ≡ first_or first (Some (record { line = line; reason = reason })) }
{
    match first {
        Some(bad) => Some(bad),
        None => Some(FirstBad { line, reason }),
    }
}

/// The counts with what a line gives.
fn counts_with(counts: Counts, late: bool, got: &LineGot) -> Counts
    requires lines { counts.lines < greatest_lines }
    requires fewer { CountsHold counts }
    ensures counts { result ≡ counts_got counts late got.now }
    ensures fewer { CountsHold result }
{
    let mut next = counts;
    next.lines += 1;
    match got {
        LineGot::Blank => {}
        LineGot::Bad(reason) => {
            next.first = first_with(counts.first, next.lines, *reason);
            next.rejected += 1;
        }
        LineGot::Item(_) => {
            if late {
                next.late += 1;
            } else {
                next.accepted += 1;
            }
        }
    }
    next
}

/// Holds the event that a line gives, if it isn't late, at the place of the line.
fn hold(held: &mut Held, late: bool, at: u64, got: LineGot, line: u32) -> Result<(), Memory>
    requires lines { All (λ (item : Event). item.order.line < line) held.old }
    requires got { IsGotAt line got }
    ensures items { OnOk result (held.new ≡ sorted_items (held.old ++ held_got late at got)) }
    ensures unchanged { OnErr result (held.new ≡ held.old) }
{
    held.ordered();
    let LineGot::Item(item) = got else {
        return Ok(());
    };
    if late {
        return Ok(());
    }
    let mut order = item.order;
    order.at = at;
    held.push(Item {
        order,
        routes: item.routes,
    })
}

/// Takes the first so many events out.
fn pop_many(held: &mut Held, count: usize, items: &mut Vec<Item>)
    requires few { count ≤ length held.old }
    requires empty { items.old.items ≡ [] }
    requires room { count ≤ vec_capacity items.old }
    ensures items { items.new.items ≡ take count held.old }
    ensures rest { held.new ≡ drop count held.old }
{
    for _ in 0..count {
        let Some(item) = held.pop_first() else {
            unreachable!();
        };
        match items.push(item) {
            Ok(()) => {}
            Err(_) => unreachable!(),
        }
    }
}

/// The place of a line among lines that ascend.
fn place_in(places: &[(u32, u64)], line: u32) -> u64
    requires { LinesAscend places.now }
    ensures { result ≡ place_noted places.now line }
{
    match places.binary_search_by_key(&line, |place| place.0) {
        Ok(i) => places[i].1,
        Err(_) => 0,
    }
}

/// Sets the place of each event to that of its line.
fn set_places(items: &mut Vec<Item>, places: &[(u32, u64)])
    requires { LinesAscend places.now }
    ensures { items.new.items ≡ map (item_noted places.now) items.old.items }
{
    for item in items.iter_mut() {
        item.order.at = place_in(places, item.order.line);
    }
}

/// What a cut keeps, with each event at the place of its line.
pub(crate) fn placed(cut: LaneCut, places: &Places) -> LaneCut
    requires { LinesAscend places.now }
    ensures { result ≡ record cut { items = map (item_noted places.now) cut.items } }
{
    let mut items = cut.items.into_items();
    set_places(&mut items, places.items());
    LaneCut {
        offset: cut.offset,
        digest: cut.digest,
        closed: cut.closed,
        best: cut.best,
        counts: cut.counts,
        items: Items::of(items),
    }
}

impl Kept {
    /// Nothing was read.
    pub(crate) fn new(alloc: Global, slack: Option<i128>) -> Kept
        requires slack { IsSlack slack }
        ensures { result ≡ kept_of slack fresh_cut }
    {
        Kept {
            slack,
            offset: 0,
            closed: false,
            best: None,
            counts: Counts {
                lines: 0,
                accepted: 0,
                late: 0,
                rejected: 0,
                first: None,
            },
            held: Held::new(alloc),
        }
    }

    /// What a cut keeps.
    pub(crate) fn of(alloc: Global, slack: Option<i128>, cut: LaneCut) -> Kept
        requires slack { IsSlack slack }
        requires cut { MayBegin cut }
        ensures { result ≡ kept_of slack cut }
    {
        Kept {
            slack,
            offset: cut.offset,
            closed: cut.closed,
            best: cut.best,
            counts: cut.counts,
            held: Held::of(alloc, cut.items),
        }
    }

    /// Reads on by a line of so many bytes with its line end, which gives this. After want of memory
    /// nothing has changed.
    pub(crate) fn add(&mut self, got: LineGot, width: u64) -> Result<(), Memory>
        requires lines { self.old.counts.lines < greatest_lines }
        requires bytes { self.old.offset + width ≤ greatest_bytes }
        requires got { IsGotAt (self.old.counts.lines + 1) got }
        ensures read { OnOk result (self.new ≡ kept_on self.old got width) }
        ensures slack { self.new.slack ≡ self.old.slack }
        ensures unchanged { OnErr result (self.new ≡ self.old) }
    {
        let line = self.counts.lines + 1;
        let late = gives_late(self.slack, self.best, &got, line);
        let counts = counts_with(self.counts, late, &got);
        let best = best_with(self.best, &got);
        hold(&mut self.held, late, self.offset, got, line)?;
        self.counts = counts;
        self.best = best;
        self.offset += width;
        Ok(())
    }

    /// The bytes of the lines that were read.
    pub(crate) fn offset(&self) -> u64
        ensures { result ≡ self.now.offset }
    {
        self.offset
    }

    /// How many lines were read.
    pub(crate) fn lines(&self) -> u32
        ensures { result ≡ self.now.counts.lines }
    {
        self.counts.lines
    }

    /// The source was read to its end.
    pub(crate) fn close(&mut self)
        ensures { self.new ≡ record self.old { closed = true } }
    {
        self.closed = true;
    }

    /// What became of the lines that were read.
    pub(crate) fn counts(&self) -> Counts
        ensures { result ≡ self.now.counts }
    {
        self.counts
    }

    /// The low: no further event can come below it.
    pub(crate) fn low(&self) -> Mark
        ensures { result ≡ low_of self.now.closed self.now.slack self.now.best }
    {
        if self.closed {
            return Mark::End;
        }
        match (self.slack, self.best) {
            (Some(slack), Some(best)) => Mark::At(best - slack),
            _ => Mark::Start,
        }
    }

    /// How many held events lie below the low.
    pub(crate) fn ready(&self) -> u32
        ensures { result ≡ length (filter (is_below
            (low_of self.now.closed self.now.slack self.now.best)) self.now.items) }
    {
        self.held.count_below(self.low()) as u32
    }

    /// Takes out the held events below the mark, in order. After want of memory nothing has changed.
    pub(crate) fn take_below(&mut self, alloc: Global, mark: Mark) -> Result<Items, Memory>
        ensures items { IfOk result (λ items. items ≡ filter (is_below mark) self.old.items) }
        ensures kept { OnOk result (self.new ≡ record self.old
            { items = filter (λ item. not (is_below mark item)) self.old.items }) }
        ensures unchanged { OnErr result (self.new ≡ self.old) }
    {
        self.held.ordered();
        let count = self.held.count_below(mark);
        let mut items = Vec::with_capacity(alloc, count)?;
        pop_many(&mut self.held, count, &mut items);
        Ok(Items::of(items))
    }

    /// The held events stand in order.
    pub(crate) fn ordered(&self)
        ensures { sorted_items self.now.items ≡ self.now.items }
    {
        self.held.ordered();
    }

    /// Whether the source was read to its end.
    pub(crate) fn is_closed(&self) -> bool
        ensures { result ≡ self.now.closed }
    {
        self.closed
    }

    /// What a cut keeps, with the digest of the bytes that were read: a copy of it all.
    pub(crate) fn snap(&self, alloc: Global, digest: Digest) -> Result<LaneCut, Memory>
        ensures { IfOk result (λ cut. cut ≡ cut_with digest self.now) }
    {
        let held = self.held.clone()?;
        let items = held.into_items(alloc)?;
        Ok(LaneCut {
            offset: self.offset,
            digest,
            closed: self.closed,
            best: self.best,
            counts: self.counts,
            items,
        })
    }
}
