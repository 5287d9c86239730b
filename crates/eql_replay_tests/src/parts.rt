//! Parts as a run may begin with them: each with its own of pending sequences.
ghost use Rattle.std.specs.Prelude.{◌≡◌, ◌≤◌, ◌<◌, IfOk, length};
ghost use Rattle.eql_conductor.specs.Finding.{own_of};
ghost use Rattle.eql_parts.specs.PartSteps.{Rules};
ghost use Rattle.eql_replay_tests.specs.Opens.{AllMayHold, PartsBegin};

use eql_auto::Steps;
use eql_parts::{Part, part_of};
use eql_values::{Holders, Mark, Memory};
use std::alloc::Global;
use std::sync::ledger::Ledger;

/// How many parts there are.
pub(crate) const PARTS: u32 = 16;

/// What is sought: a sequence of so many stages, in a span of nanoseconds where there is one.
#[derive(Clone, Copy)]
pub(crate) struct Sought {
    pub(crate) stages: u32,
    pub(crate) span: Option<i128>,
}

/// The pending sequences of a part's keys.
fn own_holders(alloc: Global, holders: &Holders, part: u32) -> Result<Holders, Memory>
    ensures { IfOk result (λ own. own ≡ own_of holders.now part) }
{
    let mut own = Vec::new(alloc);
    for holder in holders.items() {
        if part_of(&holder.key) == part {
            own.push(holder.clone()?)?;
        }
    }
    Ok(Holders::of(own))
}

/// All parts at a mark, each with its own of these pending sequences.
pub(crate) fn make_parts<G: Ledger>(
    alloc: Global,
    sought: Sought,
    holders: &Holders,
    mark: Mark,
    steps: &mut Steps<G>,
) -> Result<Vec<Part<G>>, Memory>
    requires from { 1 ≤ sought.stages }
    requires to { sought.stages ≤ 256 }
    requires may { AllMayHold sought.stages mark holders.now }
    ensures count { IfOk result (λ parts. length parts.items ≡ 16) }
    ensures begin { let rules : Rules = record { stages = sought.stages; span = sought.span }
        in IfOk result (λ parts. PartsBegin rules mark holders.now parts.items) }
{
    let mut parts = Vec::new(alloc);
    for p in 0..PARTS {
        let own = own_holders(alloc, holders, p)?;
        let part = Part::new(alloc, sought.stages, sought.span, own, mark, steps)?;
        parts.push(part)?;
    }
    Ok(parts)
}
