//! The matches of a list of events.
ghost use Rattle.std.specs.Prelude.{◌≡◌, ◌≤◌, [], All, IfOk, length};
ghost use Rattle.eql_values.specs.Ascending.{Ascend};
ghost use Rattle.eql_values.specs.Matching.{matches};
ghost use Rattle.eql_lookback.specs.Places.{ChainAscends, match_at, matches_at};

use crate::routed_event::{RoutedEvent, routed_events_in};
use crate::sequence::Sequence;
use crate::stages::{first_stage, next_stage};
use eql_laws::chains_ascend;
use eql_values::{Items, Match, Matches, Memory};
use std::alloc::Global;

/// The match of a chain with its key, where there is one.
fn match_of(one: &RoutedEvent, chain: &Option<Sequence>) -> Result<Option<Match>, Memory>
    requires { ChainAscends chain.now }
    ensures { IfOk result (λ found. found ≡ match_at one.now chain.now) }
{
    match chain {
        None => Ok(None),
        Some(chain) => {
            let key = one.key.clone()?;
            let chain = chain.to_chain()?;
            Ok(Some(Match { key, chain }))
        }
    }
}

/// The chains that are there, with their keys.
fn matches_of(
    alloc: Global,
    all: &[RoutedEvent],
    chains: &[Option<Sequence>],
) -> Result<Matches, Memory>
    requires each { length chains.now ≡ length all.now }
    requires ascend { All ChainAscends chains.now }
    ensures { IfOk result (λ found. found ≡ matches_at all.now chains.now) }
{
    let mut found = Vec::new(alloc);
    for (i, one) in all.iter().enumerate() {
        match match_of(one, &chains[i])? {
            None => {}
            Some(one) => found.push(one)?,
        }
    }
    Ok(Matches::of(found))
}

/// The matches by these events, with nothing pending before them: of a sequence with this many stages, from 1
/// to 256, and this span in nanoseconds, where there is one. The events stand in ascending order. The call
/// takes about as many steps as there are events, times stages, times the logarithm of the number of keys.
pub fn find(
    alloc: Global,
    items: &Items,
    stages: u32,
    span: Option<i128>,
) -> Result<Matches, Memory>
    requires ascending { Ascend items.now }
    requires from { 1 ≤ stages }
    requires to { stages ≤ 256 }
    ensures { IfOk result (λ found. found ≡ matches stages span [] items.now) }
{
    chains_ascend();
    let all = routed_events_in(alloc, items.items())?;
    let mut chains = first_stage(alloc, &all)?;
    for stage in 1..stages {
        chains = next_stage(alloc, span, stage, &all, &chains)?;
    }
    matches_of(alloc, &all, &chains)
}
