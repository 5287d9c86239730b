//! Sixteen parts, each with the pending sequences of its keys and a count of probes of its own.
ghost use Rattle.std.specs.Prelude.{◌≡◌, ◌≢◌, ◌≤◌, ◌<◌, ◌++◌, ◌∷◌, [], ℕ, IfOk, OnOk, length};
ghost use Rattle.eql_conductor.specs.Finding.{own_of};
ghost use Rattle.eql_search.specs.Running.{AreOwnParts, MayBeginPart, list_at};

use crate::rules::Rules;
use eql_auto::Steps;
use eql_hub::TurnedPart;
use eql_parts::{Part, part_of};
use eql_values::{Holder, Holders, Mark, Memory};
use std::alloc::Global;
use std::mem::replace;
use std::sync::ledger::{Ledger, Share};

/// How many parts there are.
pub(crate) const PARTS: usize = 16;

// Sixteen empty lists.
fn empty_lists(alloc: Global) -> Result<Vec<Vec<Holder>>, Memory>
    ensures count { IfOk result (λ lists. length lists.items ≡ 16) }
    ensures empty { IfOk result (λ lists. (p : ℕ) → list_at lists.items p ≡ []) }
{
    let mut lists = Vec::new(alloc);
    for _list in 0..PARTS {
        lists.push(Vec::new(alloc))?;
    }
    Ok(lists)
}

// Puts a pending sequence at the end of the list in a place.
fn put(lists: &mut Vec<Vec<Holder>>, place: usize, holder: Holder) -> Result<(), Memory>
    requires { place < length lists.old.items }
    ensures here { OnOk result (list_at lists.new.items place
        ≡ list_at lists.old.items place ++ holder ∷ []) }
    ensures others { OnOk result ((p : ℕ) → p ≢ place
        → list_at lists.new.items p ≡ list_at lists.old.items p) }
    ensures count { OnOk result (length lists.new.items ≡ length lists.old.items) }
{
    lists[place].push(holder)?;
    Ok(())
}

// The pending sequences of each part's keys.
fn split(alloc: Global, holders: Holders) -> Result<Vec<Vec<Holder>>, Memory>
    ensures count { IfOk result (λ lists. length lists.items ≡ 16) }
    ensures own { IfOk result (λ lists. (p : ℕ) → list_at lists.items p ≡ own_of holders p) }
{
    let mut lists = empty_lists(alloc)?;
    for holder in holders.into_items() {
        let part = part_of(&holder.key) as usize;
        put(&mut lists, part, holder)?;
    }
    Ok(lists)
}

// Takes the list in a place out.
fn take_list(alloc: Global, lists: &mut Vec<Vec<Holder>>, place: usize) -> Vec<Holder>
    requires { place < length lists.old.items }
    ensures taken { result.items ≡ list_at lists.old.items place }
    ensures others { (p : ℕ) → p ≢ place → list_at lists.new.items p ≡ list_at lists.old.items p }
    ensures count { length lists.new.items ≡ length lists.old.items }
{
    replace(&mut lists[place], Vec::new(alloc))
}

/// Sixteen parts, each with the pending sequences of its keys that are alive at the mark. Each has a count of probes of its
/// own, made from one part of the share.
pub(crate) fn make_parts<G: Ledger>(
    alloc: Global,
    rules: Rules,
    holders: Holders,
    mark: Mark,
    mut share: Share<G>,
) -> Result<Vec<TurnedPart<G>>, Memory>
    requires stages_from { 1 ≤ rules.stages }
    requires stages_to { rules.stages ≤ 256 }
    requires may { (p : ℕ) → MayBeginPart rules.stages mark (own_of holders p) }
    requires shares { 16 ≤ share.parts }
    requires nothing { share.amount ≡ 0 }
    ensures { IfOk result (λ parts.
        AreOwnParts (record { stages = rules.stages; span = rules.span }) holders mark parts.items) }
{
    let mut lists = split(alloc, holders)?;
    let mut parts = Vec::new(alloc);
    for number in 0..PARTS {
        let own = Holders::of(take_list(alloc, &mut lists, number));
        let mut steps = Steps::of(share.split_off(1, 0));
        let part = Part::new(alloc, rules.stages, rules.span, own, mark, &mut steps)?;
        let turned = TurnedPart::new(part, steps);
        parts.push(turned)?;
    }
    Ok(parts)
}
