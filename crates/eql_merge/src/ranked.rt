//! What may be merged.
ghost use Rattle.std.specs.Prelude.{◌≡◌};
ghost use Rattle.std.specs.Cmp.{IsTotalOrder};
ghost use Rattle.std.specs.Ordering.{is_lt};
ghost use Rattle.std.specs.declared.cmp.Ordering.{Ordering};
ghost use Rattle.eql_laws.specs.Merging.{last_of};
ghost use Rattle.eql_merge.specs.Ranks.{holder_rank, holder_rank_total, item_rank, item_rank_total, match_rank, match_rank_total};

use eql_values::{Holder, Item, Match, OrderKey};
use std::cmp::Ordering;

/// A value with a rank: its order among others is total.
pub trait Ranked: Sized + Drop {
    ghost rank: { Self → Self → Ordering };

    /// Whether this value comes before the other.
    fn is_before(&self, other: &Self) -> bool
        ensures { result ≡ is_lt (rank self.now other.now) };

    /// A number by which values are told apart before they are compared. Of two values with different numbers the one with the
    /// lesser is nearly always the first; nothing rests on it.
    fn lead(&self) -> u128;

    ghost total: { IsTotalOrder rank };
}

/// Events by their places in the order.
impl Ranked for Item {
    ghost rank = { item_rank };

    ghost total = { item_rank_total };

    fn is_before(&self, other: &Item) -> bool {
        self.order < other.order
    }

    fn lead(&self) -> u128 {
        lead_of_time(self.order.ts)
    }
}

/// A number for a time, in nanoseconds since the epoch, that is the less the earlier the time is.
fn lead_of_time(time: i128) -> u128 {
    time.cast_unsigned() ^ (1 << 127)
}

/// The last event, as a list of at most one.
fn last_of(chain: &[OrderKey]) -> &[OrderKey]
    ensures { result.now ≡ last_of chain.now }
{
    let start = chain.len().saturating_sub(1);
    &chain[start..]
}

/// Matches by last event, then by key.
impl Ranked for Match {
    ghost rank = { match_rank };

    ghost total = { match_rank_total };

    fn is_before(&self, other: &Match) -> bool {
        let last = last_of(self.chain.items());
        match last.cmp(last_of(other.chain.items())) {
            Ordering::Less => true,
            Ordering::Equal => self.key < other.key,
            Ordering::Greater => false,
        }
    }

    fn lead(&self) -> u128 {
        match self.chain.items().last() {
            None => 0,
            Some(last) => lead_of_time(last.ts),
        }
    }
}

/// Pending sequences by key, then by stage.
impl Ranked for Holder {
    ghost rank = { holder_rank };

    ghost total = { holder_rank_total };

    fn is_before(&self, other: &Holder) -> bool {
        match self.key.cmp(&other.key) {
            Ordering::Less => true,
            Ordering::Equal => self.stage < other.stage,
            Ordering::Greater => false,
        }
    }

    fn lead(&self) -> u128 {
        self.key.lead()
    }
}
