//! Whether a cut fits the run that is to go on from it.
ghost use Rattle.std.specs.Prelude.{◌≡◌, ◌↔◌, ◌*◌, ◌<◌, IsTrue, pos};
ghost use Rattle.std.specs.List.{list_all};
ghost use Rattle.eql_cut.specs.Fitting.{FitsRun, HasNoneFrom, cut_fits};
ghost use Rattle.eql_cut.specs.Fitting.{is_time, is_mark_time, none_above};
ghost use Rattle.eql_cut.specs.Fitting.{route_fits, order_fits, item_fits};
ghost use Rattle.eql_cut.specs.Fitting.{best_fits, first_fits, counts_fit};
ghost use Rattle.eql_cut.specs.Fitting.{lane_fits, lanes_fit, event_fits, holder_fits};
ghost use Rattle.eql_cut.specs.Fitting.{found_fits, kept_fits, state_fits, states_fit, book_fits};
ghost use Rattle.eql_cut.specs.Fitting.{first_before, falls_to, firsts_fall};

use crate::chains::{do_events_ascend, do_holders_ascend, is_full};
use crate::cut::Cut;
use crate::routes::{do_items_ascend, do_routes_stand};
use eql_laws::opening_finds;
use eql_values::{
    BookCut, Counts, FirstBad, Holder, Item, LaneCut, Mask, Numbered, OrderKey, Pipe, PipeState,
    Pipes, Route, orders_agree_with_equality, orders_told_alike,
};

/// The greatest timestamp, in nanoseconds since the epoch: 2^63 milliseconds. The least is as far
/// below the epoch.
const GREATEST_TIME: i128 = 9_223_372_036_854_775_808_000_000;

const LEAST_TIME: i128 = -9_223_372_036_854_775_808_000_000;

/// The least mark, in nanoseconds since the epoch: 36,500 days below the least timestamp.
const LEAST_MARK: i128 = -9_223_375_190_454_775_808_000_000;

/// The greatest number of lines of a shard, of its bytes, and of matches.
const GREATEST_LINES: u32 = 4_294_967_294;

const GREATEST_BYTES: u64 = 1_099_511_627_776;

const GREATEST_FOUND: u64 = 1_099_511_627_776;

/// Whether an event may have the timestamp.
fn is_time(time: i128) -> bool
    ensures { result ≡ is_time time }
{
    LEAST_TIME <= time && time <= GREATEST_TIME
}

/// Whether a mark may have the time.
fn is_mark_time(time: i128) -> bool
    ensures { result ≡ is_mark_time time }
{
    LEAST_MARK <= time && time <= GREATEST_TIME
}

/// Whether no bit of the number is set from this one on. The lowest bit is bit 0.
fn has_none_from(bits: u128, bit: u32) -> bool
    requires { bit < 128 }
    ensures { IsTrue result ↔ HasNoneFrom bits bit }
{
    bits >> bit == 0
}

/// Whether the mask has no stage above this one.
fn has_none_above(mask: &Mask, stage: u32) -> bool
    ensures { result ≡ none_above stage mask.now }
{
    if stage >= 256 {
        true
    } else if stage >= 128 {
        has_none_from(mask.high, stage - 128)
    } else {
        has_none_from(mask.high, 0) && has_none_from(mask.low, stage)
    }
}

/// Whether there is a first bad line exactly when lines were rejected.
fn first_fits(first: &Option<FirstBad>, rejected: u32) -> bool
    ensures { result ≡ first_fits first.now rejected }
{
    match first {
        None => rejected == 0,
        Some(_) => rejected != 0,
    }
}

/// Whether the counts are those of lines that a shard may have.
fn counts_fit(counts: &Counts) -> bool
    ensures { result ≡ counts_fit counts.now }
{
    let told = counts.accepted as u64 + counts.late as u64 + counts.rejected as u64;
    told <= counts.lines as u64
        && first_fits(&counts.first, counts.rejected)
        && counts.lines <= GREATEST_LINES
}

/// Whether the first event of a pending sequence comes before that of another.
fn first_before(chain: &[OrderKey], other: &[OrderKey]) -> bool
    ensures { result ≡ first_before chain.now other.now }
{
    match (chain, other) {
        ([event, ..], [first, ..]) => event < first,
        _ => false,
    }
}

/// Whether the next pending sequence, where it is of the same key, has a lesser first event.
fn falls_to(holder: &Holder, holders: &[Holder]) -> bool
    ensures { result ≡ falls_to holder.now holders.now }
{
    match holders {
        [] => true,
        [next, ..] => {
            holder.key != next.key || first_before(next.chain.items(), holder.chain.items())
        }
    }
}

/// Whether the pending sequences of a key at greater stages have lesser first events.
fn firsts_fall(holders: &[Holder]) -> bool
    ensures { result ≡ firsts_fall holders.now }
{
    let mut left = holders;
    while let [holder, rest @ ..] = left {
        if !falls_to(holder, rest) {
            return false;
        }
        left = rest;
    }
    true
}

/// What a cut is held against: the stages of the run and the number of values of its keys, and of
/// the cut the slack, in milliseconds, the mark, in nanoseconds, and the number of shards.
#[derive(Clone, Copy)]
struct Bounds {
    stages: u32,
    keys: u32,
    slack: u64,
    mark: i128,
    shards: u32,
}

impl Bounds {
    fn route_fits(&self, route: &Route) -> bool
        ensures { result ≡ route_fits self.now.stages self.now.keys route.now }
    {
        route.key.items().len() == self.keys as usize && has_none_above(&route.mask, self.stages)
    }

    fn routes_fit(&self, routes: &[Route]) -> bool
        ensures { result ≡ list_all (route_fits self.now.stages self.now.keys) routes.now }
    {
        routes.iter().all(|route| self.route_fits(route))
    }

    /// Whether an event at this place in the order may be kept by this shard of so many lines.
    fn order_fits(&self, shard: usize, lines: u32, order: &OrderKey) -> bool
        ensures { result ≡ order_fits self.now.mark shard lines order.now }
    {
        order.shard as usize == shard
            && 1 <= order.line
            && order.line <= lines
            && is_time(order.ts)
            && !(order.ts < self.mark)
    }

    fn item_fits(&self, shard: usize, lines: u32, item: &Item) -> bool
        ensures { result ≡ item_fits self.now.stages self.now.keys self.now.mark
            shard lines item.now }
    {
        self.order_fits(shard, lines, &item.order)
            && do_routes_stand(item.routes.items())
            && self.routes_fit(item.routes.items())
    }

    fn items_fit(&self, shard: usize, lines: u32, items: &[Item]) -> bool
        ensures { result
            ≡ list_all (item_fits self.now.stages self.now.keys self.now.mark shard lines)
            items.now }
    {
        items.iter().all(|item| self.item_fits(shard, lines, item))
    }

    /// Whether an open shard has a greatest timestamp which less the slack is at least the mark.
    fn best_fits(&self, closed: bool, best: Option<i128>) -> bool
        ensures { result ≡ best_fits (pos (self.now.slack * 1000000)) self.now.mark closed best }
    {
        match best {
            None => closed,
            Some(best) => {
                let slack = self.slack as i128 * 1_000_000;
                is_time(best) && (closed || self.mark <= best - slack)
            }
        }
    }

    fn lane_fits(&self, shard: usize, lane: &LaneCut) -> bool
        ensures { result ≡ lane_fits self.now.stages self.now.keys (pos (self.now.slack * 1000000))
            self.now.mark shard lane.now }
    {
        self.best_fits(lane.closed, lane.best)
            && counts_fit(&lane.counts)
            && lane.offset <= GREATEST_BYTES
            && lane.items.items().len() <= lane.counts.accepted as usize
            && do_items_ascend(lane.items.items())
            && self.items_fit(shard, lane.counts.lines, lane.items.items())
    }

    /// Whether the lanes fit, of which the first is of shard 0.
    fn lanes_fit(&self, lanes: &[LaneCut]) -> bool
        ensures { result ≡ lanes_fit self.now.stages self.now.keys (pos (self.now.slack * 1000000))
            self.now.mark 0 lanes.now }
    {
        let mut left = lanes;
        let mut shard = 0;
        while let [lane, rest @ ..] = left {
            if !self.lane_fits(shard, lane) {
                return false;
            }
            left = rest;
            shard += 1;
        }
        true
    }

    fn event_fits(&self, event: &OrderKey) -> bool
        ensures { result ≡ event_fits self.now.mark self.now.shards event.now }
    {
        event.shard < self.shards && event.ts < self.mark && is_time(event.ts)
    }

    fn holder_fits(&self, holder: &Holder) -> bool
        ensures { result ≡ holder_fits self.now.stages self.now.keys self.now.mark self.now.shards
            holder.now }
    {
        1 <= holder.stage
            && holder.stage < self.stages
            && holder.key.items().len() == self.keys as usize
            && is_full(holder)
            && do_events_ascend(holder.chain.items())
            && self.events_fit(holder.chain.items())
    }

    fn events_fit(&self, events: &[OrderKey]) -> bool
        ensures { result ≡ list_all (event_fits self.now.mark self.now.shards) events.now }
    {
        events.iter().all(|event| self.event_fits(event))
    }

    fn holders_fit(&self, holders: &[Holder]) -> bool
        ensures { result ≡ list_all
            (holder_fits self.now.stages self.now.keys self.now.mark self.now.shards)
            holders.now }
    {
        holders.iter().all(|holder| self.holder_fits(holder))
    }

    fn found_fits(&self, event: &OrderKey) -> bool
        ensures { result ≡ found_fits self.now.shards event.now }
    {
        event.shard < self.shards && is_time(event.ts)
    }

    fn chain_fits(&self, chain: &[OrderKey]) -> bool
        ensures { result ≡ list_all (found_fits self.now.shards) chain.now }
    {
        chain.iter().all(|event| self.found_fits(event))
    }

    fn kept_fits(&self, found: u64, kept: &Numbered) -> bool
        ensures { result ≡ kept_fits self.now.stages self.now.keys self.now.shards found kept.now }
    {
        let chain = kept.found.chain.items();
        1 <= kept.number
            && kept.number <= found
            && chain.len() == self.stages as usize
            && kept.found.key.items().len() == self.keys as usize
            && self.chain_fits(chain)
    }

    fn all_kept_fit(&self, found: u64, kept: &[Numbered]) -> bool
        ensures { result ≡ list_all (kept_fits self.now.stages self.now.keys self.now.shards found)
            kept.now }
    {
        kept.iter().all(|one| self.kept_fits(found, one))
    }

    fn state_fits(&self, found: u64, pipe: Pipe, state: &PipeState) -> bool
        ensures { result ≡ state_fits self.now.stages self.now.keys self.now.shards
            found pipe state.now }
    {
        match (pipe, state) {
            (Pipe::Head(count), PipeState::Head { passed }) => *passed <= count,
            (Pipe::Tail(count), PipeState::Tail { kept }) => {
                kept.items().len() <= count as usize && self.all_kept_fit(found, kept.items())
            }
            _ => false,
        }
    }

    fn states_fit(&self, found: u64, pipes: &[Pipe], states: &[PipeState]) -> bool
        ensures { result ≡ states_fit self.now.stages self.now.keys self.now.shards found pipes.now
            states.now }
    {
        let mut left = pipes;
        let mut seen = states;
        while let [pipe, rest @ ..] = left {
            let [state, others @ ..] = seen else {
                return false;
            };
            if !self.state_fits(found, *pipe, state) {
                return false;
            }
            left = rest;
            seen = others;
        }
        seen.is_empty()
    }

    fn book_fits(&self, pipes: &Pipes, book: &BookCut) -> bool
        ensures { result ≡ book_fits self.now.stages self.now.keys self.now.shards
            pipes.now book.now }
    {
        book.listed <= book.found
            && book.found <= GREATEST_FOUND
            && self.states_fit(book.found, pipes.items(), book.pipes.items())
    }

    fn cut_fits(&self, pipes: &Pipes, cut: &Cut) -> bool
        requires slack { self.now.slack ≡ cut.now.head.slack }
        requires mark { self.now.mark ≡ cut.now.mark }
        requires shards { self.now.shards ≡ cut.now.head.shards }
        ensures { result ≡ cut_fits self.now.stages self.now.keys pipes.now cut.now }
    {
        is_mark_time(cut.mark)
            && cut.lanes.items().len() == cut.head.shards as usize
            && self.lanes_fit(cut.lanes.items())
            && self.holders_fit(cut.holders.items())
            && do_holders_ascend(cut.holders.items())
            && firsts_fall(cut.holders.items())
            && self.book_fits(pipes, &cut.book)
    }
}

/// Whether a cut fits a run of `m` stages, of keys of so many values, and of these pipes, that
/// goes on from it with the slack and the shards that the cut says. It takes no memory.
///
/// A cut fits where these hold, and its lists stand in order:
/// - Times of events are within 2^63 milliseconds of the epoch, and the mark is at most 36,500 days
///   below that.
/// - Each event of a lane is of its shard and one of its lines, isn't below the mark, and has no
///   stage above `m`. An open lane has a greatest timestamp, which less the slack isn't below the
///   mark.
/// - The counts of a lane are those of at most 4,294,967,294 lines and 2^40 bytes.
/// - Each key has the number of values.
/// - A pending sequence is of a stage below `m`, and its events are below the mark and of the
///   shards. Of one key that at the greater stage has the lesser first event.
/// - No more is listed than was found, which is at most 2^40. There is a state for each pipe and of
///   its kind, within its count. A match that is kept has a number of those found and `m` events of
///   the shards.
pub fn fits(cut: &Cut, m: u32, keys: u32, pipes: &Pipes) -> bool
    ensures { IsTrue result ↔ FitsRun m keys pipes.now cut.now }
{
    orders_told_alike();
    orders_agree_with_equality();
    opening_finds();
    let bounds = Bounds {
        stages: m,
        keys,
        slack: cut.head.slack,
        mark: cut.mark,
        shards: cut.head.shards,
    };
    bounds.cut_fits(pipes, cut)
}
