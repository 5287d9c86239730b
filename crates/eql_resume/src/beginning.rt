//! What lanes, parts and a book begin with, taken out of a cut.
ghost use Rattle.std.specs.Prelude.{◌≡◌, ◌==◌, ℕ, List, IfOk, IfSome, false, length, map, true};
ghost use Rattle.eql_cut.specs.Placing.{IsUnplaced, LinesAscend, orders_in, listed_place};
ghost use Rattle.eql_lane.specs.declared.make.LaneStart.TheVariants.{From as FromCut, Retrace};
ghost use Rattle.eql_resume.specs.Beginnings.{LanesBegin, WantedAre, fresh_rest, fresh_starts, lifts_of, placed_if, rest_by, rest_of, rest_orders, starts_by};
ghost use Rattle.eql_resume.specs.Finding.{Suits};

use crate::fresh::fresh_book;
use eql_conductor::cuts_may_begin;
use eql_cut::{Cut, CutHead, events_are_named, lift, named};
use eql_lane::LaneStart;
use eql_values::{
    BookCut, Holders, LaneCuts, Lines, Mark, Memory, NameKinds, Pipes, PlaceLists, Text,
};
use std::alloc::Global;
use std::marker::Model;

/// What is pending where a run begins, and what its book keeps. Their events may have no places yet.
#[derive(Drop)]
pub struct Pending {
    mark: Mark,
    holders: Holders,
    book: BookCut,
    unplaced: bool,
    ghost bare: { unplaced ≡ true → IsUnplaced (rest_orders holders book) },
}

impl Model for Pending {
    ghost use Rattle.eql_resume.specs.Beginnings.{Rest};

    ghost Value = { Rest };

    ghost view = { λ p.
        record { mark = p.mark; holders = p.holders; book = p.book; unplaced = p.unplaced } };
}

/// What a run begins with.
#[derive(Drop)]
pub struct Beginning {
    /// How the lane of each shard begins.
    pub lanes: Vec<LaneStart>,
    /// The rest.
    pub rest: Pending,
}

// Lanes that begin afresh.
fn fresh_lanes(alloc: Global, shards: u32) -> Result<Vec<LaneStart>, Memory>
    ensures { IfOk result (λ starts. starts.items ≡ fresh_starts shards) }
{
    let mut starts = Vec::new(alloc);
    for _ in 0..shards {
        starts.push(LaneStart::Fresh)?;
    }
    Ok(starts)
}

// Lanes that begin with what a cut keeps of them.
fn kept_lanes(alloc: Global, lanes: LaneCuts) -> Result<Vec<LaneStart>, Memory>
    ensures { IfOk result (λ starts. starts.items ≡ map FromCut lanes) }
{
    let mut starts = Vec::new(alloc);
    for lane in lanes.into_items() {
        starts.push(LaneStart::From(lane))?;
    }
    Ok(starts)
}

// Lanes that begin with what a cut without digests keeps of them.
fn retraced_lanes(alloc: Global, lanes: LaneCuts) -> Result<Vec<LaneStart>, Memory>
    ensures { IfOk result (λ starts. starts.items ≡ map Retrace lanes) }
{
    let mut starts = Vec::new(alloc);
    for lane in lanes.into_items() {
        starts.push(LaneStart::Retrace(lane))?;
    }
    Ok(starts)
}

// The lines of each shard that a cut names.
fn wanted_lines(alloc: Global, cut: &Cut, shards: u32) -> Result<Vec<Lines>, Memory>
    ensures { IfOk result (λ lists. (length lists.items ≡ shards)
        × WantedAre cut.now 0 lists.items) }
{
    let mut lists = Vec::new(alloc);
    for shard in 0..shards {
        lists.push(named(alloc, cut, shard)?)?;
    }
    Ok(lists)
}

// Lanes that begin with what a cut without places keeps of them, and want these lines.
fn lifted_lanes(
    alloc: Global,
    lanes: LaneCuts,
    wanted: Vec<Lines>,
) -> Result<Vec<LaneStart>, Memory>
    requires { length wanted.items ≡ length lanes }
    ensures { IfOk result (λ starts. starts.items ≡ lifts_of lanes wanted.items) }
{
    let mut starts = Vec::new(alloc);
    let mut wanted = wanted.into_iter();
    for cut in lanes.into_items() {
        match wanted.next() {
            Some(wanted) => starts.push(LaneStart::Lift { cut, wanted })?,
            None => unreachable!(),
        }
    }
    Ok(starts)
}

// Begins afresh.
fn begin_fresh(alloc: Global, shards: u32, pipes: &Pipes) -> Result<Beginning, Memory>
    ensures lanes { IfOk result (λ b. b.lanes.items ≡ fresh_starts shards) }
    ensures rest { IfOk result (λ b. b.rest ≡ fresh_rest pipes.now) }
{
    Ok(Beginning {
        lanes: fresh_lanes(alloc, shards)?,
        rest: Pending {
            mark: Mark::Start,
            holders: Holders::of(Vec::new(alloc)),
            book: fresh_book(alloc, pipes)?,
            unplaced: false,
        },
    })
}

// Begins with a cut that has places, and may have digests.
fn begin_kept(alloc: Global, cut: Cut, digested: bool) -> Result<Beginning, Memory>
    ensures lanes { IfOk result (λ b. b.lanes.items ≡ starts_by digested cut.lanes) }
    ensures rest { IfOk result (λ b. b.rest ≡ rest_of cut false) }
{
    let lanes = if digested {
        kept_lanes(alloc, cut.lanes)?
    } else {
        retraced_lanes(alloc, cut.lanes)?
    };
    Ok(Beginning {
        lanes,
        rest: Pending {
            mark: Mark::At(cut.mark),
            holders: cut.holders,
            book: cut.book,
            unplaced: false,
        },
    })
}

// Begins with a cut that has none.
fn begin_lifted(alloc: Global, cut: Cut, shards: u32) -> Result<Beginning, Memory>
    requires count { length cut.lanes ≡ shards }
    requires unplaced { IsUnplaced (orders_in cut) }
    ensures lanes { IfOk result (λ b. (lists : List (List ℕ)) × (length lists ≡ shards)
        × WantedAre cut 0 lists × (b.lanes.items ≡ lifts_of cut.lanes lists)) }
    ensures rest { IfOk result (λ b. b.rest ≡ rest_of cut true) }
{
    let wanted = wanted_lines(alloc, &cut, shards)?;
    Ok(Beginning {
        lanes: lifted_lanes(alloc, cut.lanes, wanted)?,
        rest: Pending {
            mark: Mark::At(cut.mark),
            holders: cut.holders,
            book: cut.book,
            unplaced: true,
        },
    })
}

/// Takes a cut apart, or begins afresh where there is none, with a lane for each of so many shards and these pipes. The cut is
/// one of a run of so many stages and keys of so many values, and its text is in this format.
pub fn begin(
    alloc: Global,
    cut: Option<Cut>,
    format: u8,
    stages: u32,
    values: u32,
    shards: u32,
    pipes: &Pipes,
) -> Result<Beginning, Memory>
    requires suits { IfSome cut (λ c. Suits stages values pipes.now c.head c
        × (c.head.shards ≡ shards)) }
    requires unplaced { IfSome cut (λ c. format ≡ 1 → IsUnplaced (orders_in c)) }
    ensures lanes { IfOk result (λ b. LanesBegin cut format shards b.lanes.items) }
    ensures rest { IfOk result (λ b. b.rest ≡ rest_by pipes.now (format == 1) cut) }
{
    cuts_may_begin();
    events_are_named();
    match cut {
        None => begin_fresh(alloc, shards, pipes),
        Some(cut) => {
            if format == 1 {
                begin_lifted(alloc, cut, shards)
            } else {
                begin_kept(alloc, cut, format >= 4)
            }
        }
    }
}

// A head that says nothing.
fn no_head(alloc: Global) -> CutHead {
    CutHead {
        query: Text::of(String::new(alloc)),
        mapping: NameKinds::of(Vec::new(alloc)),
        tie: None,
        slack: 0,
        shards: 0,
    }
}

impl Pending {
    /// The same, with the places of its lines where it has none yet: those of the list of each shard.
    pub fn place(self, alloc: Global, places: PlaceLists) -> Result<Pending, Memory>
        requires ascend { LinesAscend places }
        ensures { IfOk result (λ rest. rest ≡ placed_if self.unplaced (listed_place places) self) }
    {
        if !self.unplaced {
            return Ok(self);
        }
        let bare = Cut {
            head: no_head(alloc),
            mark: 0,
            lanes: LaneCuts::of(Vec::new(alloc)),
            holders: self.holders,
            book: self.book,
        };
        let placed = lift(alloc, bare, places)?;
        Ok(Pending {
            mark: self.mark,
            holders: placed.holders,
            book: placed.book,
            unplaced: false,
        })
    }

    /// The mark, what is pending, and what the book keeps.
    pub fn into_parts(self) -> (Mark, Holders, BookCut)
        ensures { (result.0 ≡ self.mark) × (result.1 ≡ self.holders) × (result.2 ≡ self.book) }
    {
        (self.mark, self.holders, self.book)
    }
}
