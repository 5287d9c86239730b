//! The order of events, and bounds in time.
ghost use Rattle.std.specs.Prelude.{◌≡◌};
ghost use Rattle.std.proofs.Common.{rules};
ghost use Rattle.std.specs.Cmp.{partial_order_from_total};
ghost use Rattle.std.specs.Cmp.{partial_equiv_from_equiv, eq_by_cmp_equiv};
ghost use Rattle.std.specs.Cmp.Rules.{comparing};
ghost use Rattle.std.specs.Ordering.{as_partial_cmp};
ghost use Rattle.eql_values.specs.OrderKeys.{tie_cmp, order_cmp, order_eq};
ghost use Rattle.eql_values.specs.Totals.{order_cmp_total, mark_cmp_total};
ghost use Rattle.eql_values.specs.Marks.{mark_rank, mark_cmp, mark_eq};

use std::cmp::Ordering;

/// Where an event stands in the order of all events: by its timestamp, then by its tiebreaker with
/// none last, then by shard, line and place.
#[derive(Clone, Copy, Debug)]
pub struct OrderKey {
    /// The timestamp, in nanoseconds since the epoch.
    pub ts: i128,
    /// The value of the tiebreaker field. An event with none comes after all with one.
    pub tie: Option<i64>,
    /// The shard of the event, from 0.
    pub shard: u32,
    /// The line of the shard, from 1.
    pub line: u32,
    /// The place of the line: the number of bytes of the shard before it.
    pub at: u64,
}

/// Compares two tiebreakers, with none last.
fn tie_order(a: Option<i64>, b: Option<i64>) -> Ordering
    ensures { result ≡ tie_cmp a b }
{
    match (a, b) {
        (Some(x), Some(y)) => x.cmp(&y),
        (Some(_), None) => Ordering::Less,
        (None, Some(_)) => Ordering::Greater,
        (None, None) => Ordering::Equal,
    }
}

impl PartialEq for OrderKey {
    ghost eq = { order_eq };

    ghost laws = { partial_equiv_from_equiv (eq_by_cmp_equiv order_cmp_total) };

    fn eq(&self, other: &OrderKey) -> bool {
        self.cmp(other).is_eq()
    }
}

impl Eq for OrderKey {
    ghost laws = { eq_by_cmp_equiv order_cmp_total };
}

impl Ord for OrderKey {
    ghost cmp = { order_cmp };

    ghost total = { order_cmp_total };

    ghost matches_partial_cmp = { Prim.search (comparing, rules) };

    ghost matches_eq = { Prim.search (comparing, rules) };

    fn cmp(&self, other: &OrderKey) -> Ordering {
        self.ts
            .cmp(&other.ts)
            .then(tie_order(self.tie, other.tie))
            .then(self.shard.cmp(&other.shard))
            .then(self.line.cmp(&other.line))
            .then(self.at.cmp(&other.at))
    }
}

impl PartialOrd for OrderKey {
    ghost partial_cmp = { as_partial_cmp order_cmp };

    ghost laws = { partial_order_from_total order_cmp_total };

    fn partial_cmp(&self, other: &OrderKey) -> Option<Ordering> {
        Some(self.cmp(other))
    }
}

/// A bound in time. `Start` is below all events and `End` above all; `At` bounds the events of
/// lesser timestamps.
#[derive(Clone, Copy, Debug)]
pub enum Mark {
    /// No event is below it.
    Start,
    /// The events of a lesser timestamp, in nanoseconds since the epoch, are below it.
    At(i128),
    /// Every event is below it.
    End,
}

impl Mark {
    /// The place of the mark's variant among the variants.
    fn rank(self) -> u8
        ensures { result ≡ mark_rank self }
    {
        match self {
            Mark::Start => 0,
            Mark::At(_) => 1,
            Mark::End => 2,
        }
    }
}

impl PartialEq for Mark {
    ghost eq = { mark_eq };

    ghost laws = { partial_equiv_from_equiv (eq_by_cmp_equiv mark_cmp_total) };

    fn eq(&self, other: &Mark) -> bool {
        self.cmp(other).is_eq()
    }
}

impl Eq for Mark {
    ghost laws = { eq_by_cmp_equiv mark_cmp_total };
}

impl Ord for Mark {
    ghost cmp = { mark_cmp };

    ghost total = { mark_cmp_total };

    ghost matches_partial_cmp = { Prim.search (comparing, rules) };

    ghost matches_eq = { Prim.search (comparing, rules) };

    fn cmp(&self, other: &Mark) -> Ordering {
        match (self, other) {
            (Mark::At(a), Mark::At(b)) => a.cmp(b),
            _ => self.rank().cmp(&other.rank()),
        }
    }
}

impl PartialOrd for Mark {
    ghost partial_cmp = { as_partial_cmp mark_cmp };

    ghost laws = { partial_order_from_total mark_cmp_total };

    fn partial_cmp(&self, other: &Mark) -> Option<Ordering> {
        Some(self.cmp(other))
    }
}
