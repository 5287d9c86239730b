//! The chains of one stage at all places, from those of the stage before.
ghost use Rattle.std.specs.Prelude.{◌≡◌, ◌≤◌, ◌<◌, suc, not, ◌&&◌, ◌||◌, if◌then◌else◌, List, [], ◌∷◌, Some, None, IfOk};
ghost use Rattle.std.specs.BTreeMap.{get};
ghost use Rattle.eql_values.specs.declared.value.Value.{Value};
ghost use Rattle.eql_values.specs.Orders.{key_cmp, key_eq};
ghost use Rattle.eql_values.specs.Chains.{fits_after};
ghost use Rattle.eql_values.specs.Ordered.{found_or};
ghost use Rattle.eql_laws.specs.Slots.{chain_moved_on};
ghost use Rattle.eql_lookback.specs.Places.{chains_at};

use crate::routed_event::{RoutedEvent, fits_next};
use crate::sequence::Sequence;
use eql_laws::{chain_step, slot_step};
use eql_values::{Key, Memory, is_in_time};
use std::alloc::Global;
use std::collections::BTreeMap;

/// The event alone, where it fits stage 1.
fn chain_of_one(alloc: Global, one: &RoutedEvent) -> Result<Option<Sequence>, Memory>
    ensures { IfOk result (λ found. found
        ≡ (if fits_after 0 one.now.key_event
        then Some (one.now.key_event.order ∷ []) else None)) }
{
    if fits_next(&one.key_event, 0) {
        Ok(Some(Sequence::of(alloc, one.key_event.order)?))
    } else {
        Ok(None)
    }
}

/// The chains of stage 1 at all places.
pub fn first_stage(alloc: Global, all: &[RoutedEvent]) -> Result<Vec<Option<Sequence>>, Memory>
    ensures { IfOk result (λ chains. chains.items ≡ chains_at None 1 [] all.now) }
{
    let mut chains = Vec::new(alloc);
    for one in all {
        let chain = chain_of_one(alloc, one)?;
        chains.push(chain)?;
    }
    Ok(chains)
}

/// The latest chain of this stage, followed by the event, where it is pending and the event fits the next
/// stage, ends nothing and is in time.
fn next_chain(
    span: Option<i128>,
    stage: u32,
    pending: &BTreeMap<Key, Sequence>,
    one: &RoutedEvent,
) -> Result<Option<Sequence>, Memory>
    requires { stage < 256 }
    ensures { IfOk result (λ found.
        found ≡ (if fits_after stage one.now.key_event && not one.now.key_event.until
        then chain_moved_on span (get key_cmp pending.now one.now.key) one.now.key_event
        else None)) }
{
    if !fits_next(&one.key_event, stage) || one.key_event.until {
        return Ok(None);
    }
    match pending.get(&one.key) {
        None => Ok(None),
        Some(chain) => {
            if is_in_time(span, chain.events(), one.key_event.order.ts) {
                Ok(Some(chain.followed_by(one.key_event.order)?))
            } else {
                Ok(None)
            }
        }
    }
}

/// Takes the pending chains of this stage past an event: the chain of its place comes in the place of an earlier
/// one; else an event that fits the next stage or ends the key leaves none.
fn pass(
    stage: u32,
    pending: &mut BTreeMap<Key, Sequence>,
    one: &RoutedEvent,
    here: &Option<Sequence>,
) -> Result<(), Memory>
    requires { stage < 256 }
    ensures { IfOk result (λ _. (key : List Value) → get key_cmp pending.new key
        ≡ (if key_eq one.now.key key
        then found_or here.now
        (if fits_after stage one.now.key_event || one.now.key_event.until
        then None
        else get key_cmp pending.old key)
        else get key_cmp pending.old key)) }
{
    match here {
        Some(chain) => {
            let key = one.key.clone()?;
            let chain = chain.clone()?;
            pending.insert(key, chain)?;
        }
        None => {
            if fits_next(&one.key_event, stage) || one.key_event.until {
                pending.remove(&one.key);
            }
        }
    }
    Ok(())
}

/// The chains of the next stage at all places.
pub fn next_stage(
    alloc: Global,
    span: Option<i128>,
    stage: u32,
    all: &[RoutedEvent],
    chains: &[Option<Sequence>],
) -> Result<Vec<Option<Sequence>>, Memory>
    requires from { 1 ≤ stage }
    requires to { stage < 256 }
    requires these { chains.now ≡ chains_at span stage [] all.now }
    ensures { IfOk result (λ next. next.items ≡ chains_at span (suc stage) [] all.now) }
{
    chain_step();
    slot_step();
    let mut pending = BTreeMap::new(alloc);
    let mut next = Vec::new(alloc);
    for (i, one) in all.iter().enumerate() {
        let chain = next_chain(span, stage, &pending, one)?;
        next.push(chain)?;
        pass(stage, &mut pending, one, &chains[i])?;
    }
    Ok(next)
}
