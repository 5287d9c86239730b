//! The lines that a cut names, and a cut with the places of its lines.
ghost use Rattle.std.specs.Prelude.{◌≡◌, ◌↔◌, ℕ, IfOk, Contains};
ghost use Rattle.std.specs.List.Sorted.{IsStrictlyIncreasing};
ghost use Rattle.eql_cut.specs.Placing.{NamesLine, IsUnplaced, LinesAscend};
ghost use Rattle.eql_cut.specs.Placing.{orders_in, listed_place, lifted_cut};

use crate::cut::Cut;
use crate::placed::{Placed, lift_each, push_each};
use eql_values::{
    BookCut, Chain, Holder, Holders, Item, Items, LaneCut, LaneCuts, Lines, Match, Memory,
    Numbered, Numbereds, OrderKey, PipeState, PipeStates, PlaceLists,
};
use std::alloc::{AllocError, Global};

impl Placed for Chain {
    ghost use Rattle.eql_cut.specs.Placing.{lifted_chain};

    ghost orders = { λ chain. chain };

    ghost lifted = { lifted_chain };

    fn push_lines(&self, shard: u32, to: &mut Vec<u32>) -> Result<(), AllocError> {
        push_each(self.items(), shard, to)
    }

    fn lift(self, alloc: Global, places: &PlaceLists) -> Result<Chain, AllocError> {
        self.ascends();
        let mut events = Vec::with_capacity(alloc, self.items().len())?;
        events.extend_from_slice(self.items())?;
        let lifted: Vec<OrderKey> = lift_each(alloc, events, places)?;
        Ok(Chain::of(lifted))
    }
}

impl Placed for Item {
    ghost use Rattle.std.specs.Prelude.{[], ◌∷◌};
    ghost use Rattle.eql_cut.specs.Placing.{lifted_item};

    ghost orders = { λ item. item.order ∷ [] };

    ghost lifted = { lifted_item };

    fn push_lines(&self, shard: u32, to: &mut Vec<u32>) -> Result<(), AllocError> {
        self.order.push_lines(shard, to)
    }

    fn lift(self, alloc: Global, places: &PlaceLists) -> Result<Item, AllocError> {
        Ok(Item {
            order: self.order.lift(alloc, places)?,
            routes: self.routes,
        })
    }
}

impl Placed for LaneCut {
    ghost use Rattle.eql_cut.specs.Placing.{lane_orders, lifted_lane};

    ghost orders = { lane_orders };

    ghost lifted = { lifted_lane };

    fn push_lines(&self, shard: u32, to: &mut Vec<u32>) -> Result<(), AllocError> {
        push_each(self.items.items(), shard, to)
    }

    fn lift(self, alloc: Global, places: &PlaceLists) -> Result<LaneCut, AllocError> {
        let items = lift_each(alloc, self.items.into_items(), places)?;
        Ok(LaneCut {
            offset: self.offset,
            digest: self.digest,
            closed: self.closed,
            best: self.best,
            counts: self.counts,
            items: Items::of(items),
        })
    }
}

impl Placed for Holder {
    ghost use Rattle.eql_values.specs.declared.found.Holder.{Holder as Pending};
    ghost use Rattle.eql_cut.specs.Placing.{lifted_holder};

    ghost orders = { λ (h : Pending). h.chain };

    ghost lifted = { lifted_holder };

    fn push_lines(&self, shard: u32, to: &mut Vec<u32>) -> Result<(), AllocError> {
        self.chain.push_lines(shard, to)
    }

    fn lift(self, alloc: Global, places: &PlaceLists) -> Result<Holder, AllocError> {
        let chain = self.chain.lift(alloc, places)?;
        Ok(Holder {
            key: self.key,
            stage: self.stage,
            chain,
        })
    }
}

impl Placed for Match {
    ghost use Rattle.eql_values.specs.declared.found.Match.{Match as Found};
    ghost use Rattle.eql_cut.specs.Placing.{lifted_match};

    ghost orders = { λ (found : Found). found.chain };

    ghost lifted = { lifted_match };

    fn push_lines(&self, shard: u32, to: &mut Vec<u32>) -> Result<(), AllocError> {
        self.chain.push_lines(shard, to)
    }

    fn lift(self, alloc: Global, places: &PlaceLists) -> Result<Match, AllocError> {
        let chain = self.chain.lift(alloc, places)?;
        Ok(Match {
            key: self.key,
            chain,
        })
    }
}

impl Placed for Numbered {
    ghost use Rattle.eql_values.specs.declared.found.Numbered.{Numbered as Listed};
    ghost use Rattle.eql_cut.specs.Placing.{lifted_kept};

    ghost orders = { λ (n : Listed). n.found.chain };

    ghost lifted = { lifted_kept };

    fn push_lines(&self, shard: u32, to: &mut Vec<u32>) -> Result<(), AllocError> {
        self.found.push_lines(shard, to)
    }

    fn lift(self, alloc: Global, places: &PlaceLists) -> Result<Numbered, AllocError> {
        let found = self.found.lift(alloc, places)?;
        Ok(Numbered {
            number: self.number,
            found,
        })
    }
}

impl Placed for PipeState {
    ghost use Rattle.eql_cut.specs.Placing.{state_orders, lifted_state};

    ghost orders = { state_orders };

    ghost lifted = { lifted_state };

    fn push_lines(&self, shard: u32, to: &mut Vec<u32>) -> Result<(), AllocError> {
        match self {
            PipeState::Head { .. } => Ok(()),
            PipeState::Tail { kept } => push_each(kept.items(), shard, to),
        }
    }

    fn lift(self, alloc: Global, places: &PlaceLists) -> Result<PipeState, AllocError> {
        match self {
            PipeState::Head { passed } => Ok(PipeState::Head { passed }),
            PipeState::Tail { kept } => {
                let kept = lift_each(alloc, kept.into_items(), places)?;
                Ok(PipeState::Tail {
                    kept: Numbereds::of(kept),
                })
            }
        }
    }
}

impl Placed for BookCut {
    ghost use Rattle.std.specs.List.{flat_map};
    ghost use Rattle.eql_values.specs.declared.cut.BookCut.{BookCut as Kept};
    ghost use Rattle.eql_cut.specs.Placing.{state_orders, lifted_book};

    ghost orders = { λ (book : Kept). flat_map state_orders book.pipes };

    ghost lifted = { lifted_book };

    fn push_lines(&self, shard: u32, to: &mut Vec<u32>) -> Result<(), AllocError> {
        push_each(self.pipes.items(), shard, to)
    }

    fn lift(self, alloc: Global, places: &PlaceLists) -> Result<BookCut, AllocError> {
        let pipes = lift_each(alloc, self.pipes.into_items(), places)?;
        Ok(BookCut {
            found: self.found,
            listed: self.listed,
            pipes: PipeStates::of(pipes),
        })
    }
}

impl Placed for Cut {
    ghost use Rattle.eql_cut.specs.Placing.{orders_in, lifted_cut};

    ghost orders = { orders_in };

    ghost lifted = { lifted_cut };

    fn push_lines(&self, shard: u32, to: &mut Vec<u32>) -> Result<(), AllocError> {
        push_each(self.lanes.items(), shard, to)?;
        push_each(self.holders.items(), shard, to)?;
        self.book.push_lines(shard, to)
    }

    fn lift(self, alloc: Global, places: &PlaceLists) -> Result<Cut, AllocError> {
        let lanes = lift_each(alloc, self.lanes.into_items(), places)?;
        let holders = lift_each(alloc, self.holders.into_items(), places)?;
        let book = self.book.lift(alloc, places)?;
        Ok(Cut {
            head: self.head,
            mark: self.mark,
            lanes: LaneCuts::of(lanes),
            holders: Holders::of(holders),
            book,
        })
    }
}

/// The lines of a shard at which an event of the cut stands, strictly ascending: those that its
/// lane keeps, those of pending sequences, and those of the matches that pipes keep.
///
/// # Errors
///
/// [`Memory`] where memory ran out.
pub fn named(alloc: Global, cut: &Cut, shard: u32) -> Result<Lines, Memory>
    ensures ascend { IfOk result IsStrictlyIncreasing }
    ensures exact { IfOk result
        (λ lines. (line : ℕ) → Contains lines line ↔ NamesLine cut.now shard line) }
{
    let mut lines = Vec::new(alloc);
    cut.push_lines(shard, &mut lines)?;
    lines.sort()?;
    lines.dedup();
    Ok(Lines::of(lines))
}

/// The cut with the place of each event, by its shard and line: `places` has a list for each
/// shard, in which lines ascend. A line that has no place there gets the place 0; the lines of
/// which a place is needed are those that [`named`] tells.
///
/// The cut is one whose places are all 0, as each that is read in the first format.
///
/// # Errors
///
/// [`Memory`] where memory ran out.
pub fn lift(alloc: Global, cut: Cut, places: PlaceLists) -> Result<Cut, Memory>
    requires unplaced { IsUnplaced (orders_in cut) }
    requires ascend { LinesAscend places }
    ensures { IfOk result (λ all. all ≡ lifted_cut (listed_place places) cut) }
{
    let all = cut.lift(alloc, &places)?;
    Ok(all)
}
