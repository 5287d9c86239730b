//! The merge of many lists that ascend: up to sixteen of them at once.
ghost use Rattle.std.specs.Prelude.{◌≡◌, ◌≤◌, ◌<◌, All, IfOk, IfSome, length};
ghost use Rattle.eql_laws.specs.Apart.{joined_lists};
ghost use Rattle.eql_merge.specs.Ranks.{Ascends, HaveNoTies, HaveSameFirsts};

use crate::fronts::merge_fronts;
use crate::pair::merge_pair;
use crate::ranked::Ranked;
use crate::run::Run;
use eql_values::Memory;
use std::alloc::Global;
use std::collections::VecDeque;

/// The fewest lists, of more than two, that are merged at once.
const FEWEST: usize = 8;

/// The most lists that are merged at once.
const MOST: usize = 16;

/// All values of the lists, in order, each moved once. A list alone stays as it is.
fn merge_at_once<T: Ranked>(alloc: Global, mut lists: VecDeque<Run<T>>) -> Result<Vec<T>, Memory>
    requires ascend { All (Ascends T.rank) lists.items }
    requires apart { HaveNoTies T.rank lists.items }
    ensures ascends { IfOk result (λ all. Ascends T.rank all.items) }
    ensures all { IfOk result (λ all. HaveSameFirsts T.rank (joined_lists lists.items) all.items) }
{
    if 2 < lists.len() {
        return merge_fronts(alloc, lists);
    }
    match (lists.pop_front(), lists.pop_front()) {
        (None, _) => Ok(Vec::new(alloc)),
        (Some(only), None) => Ok(only.into_items()),
        (Some(earlier), Some(later)) => merge_pair(alloc, earlier, later),
    }
}

/// How many lists are merged before the others, where not all are merged at once. Up to seven are merged by pairs, which
/// is as fast.
fn first_group(count: usize) -> Option<usize>
    ensures { IfSome result (λ first. (2 ≤ first) × (first ≤ count)) }
{
    if 2 < count && count < FEWEST {
        Some(2)
    } else if MOST < count {
        Some(MOST)
    } else {
        None
    }
}

/// Merges the first so many of the lists, and puts what they give behind the others.
fn merge_first<T: Ranked>(
    alloc: Global,
    mut lists: VecDeque<Run<T>>,
    first: usize,
) -> Result<VecDeque<Run<T>>, Memory>
    requires from { 2 ≤ first }
    requires to { first ≤ length lists.items }
    requires ascend { All (Ascends T.rank) lists.items }
    requires apart { HaveNoTies T.rank lists.items }
    ensures fewer { IfOk result (λ rest. length rest.items < length lists.items) }
    ensures ascend { IfOk result (λ rest. All (Ascends T.rank) rest.items) }
    ensures apart { IfOk result (λ rest. HaveNoTies T.rank rest.items) }
    ensures all { IfOk result (λ rest.
        HaveSameFirsts T.rank (joined_lists lists.items) (joined_lists rest.items)) }
{
    let mut rest = lists.split_off(first)?;
    let merged = merge_at_once(alloc, lists)?;
    rest.push_back(Run::of(merged))?;
    Ok(rest)
}

/// All values of the lists, in order. Eight to sixteen lists are merged at once, and up to 256 in two levels: a value is
/// moved once in each.
pub fn merge_all<T: Ranked>(alloc: Global, mut lists: VecDeque<Run<T>>) -> Result<Vec<T>, Memory>
    requires ascend { All (Ascends T.rank) lists.items }
    requires apart { HaveNoTies T.rank lists.items }
    ensures ascends { IfOk result (λ all. Ascends T.rank all.items) }
    ensures all { IfOk result (λ all. HaveSameFirsts T.rank (joined_lists lists.items) all.items) }
{
    while let Some(first) = first_group(lists.len()) {
        lists = merge_first(alloc, lists, first)?;
    }
    merge_at_once(alloc, lists)
}
