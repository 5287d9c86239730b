//! What the conductor plays on.
ghost use Rattle.std.specs.Prelude.{◌≡◌, ◌<◌, IfErr, IfOk};
ghost use Rattle.eql_lane.specs.Lanes.{LaneAllows};
ghost use Rattle.eql_conductor.specs.Benches.{Known, LanePlays, MayPlay, PartPlays, WasNotPlayed};

use eql_lane::{LaneOp, LaneReply};
use eql_parts::{PartOp, PartReply};

/// Why an operation wasn't played.
#[derive(Clone, Copy, PartialEq, Eq)]
pub enum NotPlayed {
    /// A lock has had so many turns that it takes no more.
    Worn {
        /// The lock's word, at least 2^63.
        word: u64,
    },
    /// Memory ran out.
    Memory,
}

/// Lanes and parts, on which others may feed and turn at any time.
pub trait Bench {
    /// How many lanes and parts there are; of each what no step changes, the states that it may have now, and what the caller
    /// itself played there; of each lane how many of the caller's feeds failed there; and at how many of its calls a lock
    /// was worn.
    ghost known: { Self → Known };

    /// How many lanes there are.
    fn lanes(&self) -> u32
        ensures { result ≡ (known self.now).lanes };

    /// How many parts there are.
    fn parts(&self) -> u32
        ensures { result ≡ (known self.now).parts };

    /// Plays an operation on a lane, from 0.
    fn lane(&mut self, s: u32, op: LaneOp) -> Result<LaneReply, NotPlayed>
        requires place { s < (known self.old).lanes }
        requires allowed { LaneAllows op }
        ensures played { IfOk result (λ reply.
            LanePlays s op reply (known self.old) (known self.new)) }
        ensures not_played { IfErr result (λ by.
            WasNotPlayed by (known self.old) (known self.new)) };

    /// Plays an operation on a part, from 0.
    fn part(&mut self, p: u32, op: PartOp) -> Result<PartReply, NotPlayed>
        requires place { p < (known self.old).parts }
        requires allowed { MayPlay (known self.old) p op }
        ensures played { IfOk result (λ reply.
            PartPlays p op reply (known self.old) (known self.new)) }
        ensures not_played { IfErr result (λ by.
            WasNotPlayed by (known self.old) (known self.new)) };
}
