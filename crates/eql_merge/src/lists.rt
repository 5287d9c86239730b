//! Lists of events, of matches and of pending sequences, merged.
ghost use Rattle.std.specs.Prelude.{◌≡◌, All, IfOk};
ghost use Rattle.eql_values.specs.Accepted.{sorted_items};
ghost use Rattle.eql_values.specs.Ascending.{Ascend};
ghost use Rattle.eql_laws.specs.Alive.{HoldersAreInOrder};
ghost use Rattle.eql_laws.specs.Apart.{AllAreApart, joined_lists, AreInMatchOrder, MatchesAreApart};
ghost use Rattle.eql_laws.specs.Merging.{in_match_order, in_slot_order};
ghost use Rattle.eql_merge.specs.Ranks.{HoldersAreApart};

use crate::groups::merge_all;
use crate::run::Run;
use eql_laws::below_ascends;
use eql_values::{Holder, Holders, Item, ItemLists, Items, Match, Matches, Memory};
use std::alloc::Global;
use std::collections::VecDeque;

/// The lists of events, each as a list to be merged.
fn item_runs(alloc: Global, lists: ItemLists) -> Result<VecDeque<Run<Item>>, Memory>
    ensures { IfOk result (λ runs. runs.items ≡ lists) }
{
    let mut runs = VecDeque::new(alloc);
    for items in lists.into_items() {
        runs.push_back(Run::of(items.into_items()))?;
    }
    Ok(runs)
}

/// The lists of matches, each as a list to be merged.
fn match_runs(alloc: Global, lists: Vec<Matches>) -> Result<VecDeque<Run<Match>>, Memory>
    ensures { IfOk result (λ runs. runs.items ≡ lists.items) }
{
    let mut runs = VecDeque::new(alloc);
    for found in lists {
        runs.push_back(Run::of(found.into_items()))?;
    }
    Ok(runs)
}

/// The lists of pending sequences, each as a list to be merged.
fn holder_runs(alloc: Global, lists: Vec<Holders>) -> Result<VecDeque<Run<Holder>>, Memory>
    ensures { IfOk result (λ runs. runs.items ≡ lists.items) }
{
    let mut runs = VecDeque::new(alloc);
    for held in lists {
        runs.push_back(Run::of(held.into_items()))?;
    }
    Ok(runs)
}

/// All events of the lists, in ascending order. Each list ascends, and no two have an event at the same place of
/// the order. For n events in k lists the call takes about n comparisons, or n times log k where many times are equal, and
/// moves each event without copying it. The one error is want of memory.
pub fn merge(alloc: Global, lists: ItemLists) -> Result<Items, Memory>
    requires ascend { All Ascend lists }
    requires apart { AllAreApart lists }
    ensures sorted { IfOk result (λ all. all ≡ sorted_items (joined_lists lists)) }
    ensures ascends { IfOk result Ascend }
{
    let runs = item_runs(alloc, lists)?;
    let all = merge_all(alloc, runs)?;
    below_ascends();
    Ok(Items::of(all))
}

/// All matches of the lists, by last event and then by key. Each list stands in that order, and no two have a match
/// with the same last event and key. It takes as many steps as `merge`, and its one error is want of memory.
pub fn merge_matches(alloc: Global, lists: Vec<Matches>) -> Result<Matches, Memory>
    requires in_order { All AreInMatchOrder lists.items }
    requires apart { MatchesAreApart lists.items }
    ensures sorted { IfOk result (λ all. all ≡ in_match_order (joined_lists lists.items)) }
    ensures in_order { IfOk result AreInMatchOrder }
{
    let runs = match_runs(alloc, lists)?;
    let all = merge_all(alloc, runs)?;
    Ok(Matches::of(all))
}

/// All pending sequences of the lists, by key and then by stage. Each list stands in that order, and no two have a
/// sequence with the same key and stage. It takes as many steps as `merge`, and its one error is want of memory.
pub fn merge_holders(alloc: Global, lists: Vec<Holders>) -> Result<Holders, Memory>
    requires in_order { All HoldersAreInOrder lists.items }
    requires apart { HoldersAreApart lists.items }
    ensures sorted { IfOk result (λ all. all ≡ in_slot_order (joined_lists lists.items)) }
    ensures in_order { IfOk result HoldersAreInOrder }
{
    let runs = holder_runs(alloc, lists)?;
    let all = merge_all(alloc, runs)?;
    Ok(Holders::of(all))
}
