//! The merge of several lists that ascend. They stand by the numbers of their first values, which nearly always say which value
//! comes first, and the next value is the first of the first list. That list then goes to its new place among the others.
//! Nothing rests on the numbers. Each value is compared with the one in front of it, and where one doesn't come behind, all
//! values are sorted in the end.
ghost use Rattle.std.specs.Prelude.{◌≡◌, ◌+◌, ◌≤◌, ◌++◌, ◌∷◌, [], All, IfOk, IsPermutation, OnOk, length, true};
ghost use Rattle.std.specs.List.{IsDistinct};
ghost use Rattle.std.specs.Option.{option_to_list};
ghost use Rattle.std.specs.Ordering.{eq_by_cmp};
ghost use Rattle.eql_laws.specs.Apart.{joined_lists};
ghost use Rattle.eql_merge.specs.Ranks.{Ascends, HaveNoTies, HaveSameFirsts};

use crate::pair::is_later_first;
use crate::ranked::Ranked;
use crate::run::Run;
use eql_values::Memory;
use std::alloc::Global;
use std::cmp::Ordering;
use std::collections::VecDeque;
use std::marker::Model;

/// A list, with the number of its first value.
#[derive(Drop)]
struct Front<T> {
    lead: u128,
    run: Run<T>,
}

impl<T> Model for Front<T> {
    ghost use Rattle.std.specs.Prelude.{List};

    ghost Value = { List T };

    ghost view = { λ f. f.run };
}

/// Whether a list goes behind another: by the numbers of their first values, and by the values where the numbers are one.
fn goes_behind<T: Ranked>(run: &Run<T>, lead: u128, front: &Front<T>) -> bool {
    if front.lead == lead {
        is_later_first(run, &front.run)
    } else {
        front.lead < lead
    }
}

/// Puts a list to its place among the others. An empty one is left out.
fn put<T: Ranked>(fronts: &mut VecDeque<Front<T>>, run: Run<T>) -> Result<(), Memory>
    ensures all { OnOk result
        (IsPermutation (run ++ joined_lists fronts.old.items) (joined_lists fronts.new.items)) }
    ensures few { OnOk result (length fronts.new.items ≤ length fronts.old.items + 1) }
{
    let lead = match run.first() {
        None => return Ok(()),
        Some(first) => first.lead(),
    };
    let place = fronts.partition_point(|front| goes_behind(&run, lead, front));
    fronts.insert(place, Front { lead, run })?;
    Ok(())
}

/// The lists by the numbers of their first values, without those that are empty.
fn in_front_order<T: Ranked>(
    alloc: Global,
    mut lists: VecDeque<Run<T>>,
) -> Result<VecDeque<Front<T>>, Memory>
    ensures { IfOk result
        (λ fronts. IsPermutation (joined_lists lists.items) (joined_lists fronts.items)) }
{
    let mut fronts = VecDeque::with_capacity(alloc, lists.len())?;
    while let Some(run) = lists.pop_front() {
        put(&mut fronts, run)?;
    }
    Ok(fronts)
}

/// Takes the first value of a list, if it has one, and puts the list to its place among the others.
fn take_of_front<T: Ranked>(
    fronts: &mut VecDeque<Front<T>>,
    front: Front<T>,
) -> Result<Option<T>, Memory>
    ensures all { IfOk result (λ taken. IsPermutation (front ++ joined_lists fronts.old.items)
        (option_to_list taken ++ joined_lists fronts.new.items)) }
    ensures fewer { OnOk result (length (joined_lists fronts.new.items) + length fronts.new.items
        ≤ length front + length (joined_lists fronts.old.items) + length fronts.old.items) }
{
    let mut run = front.run;
    match run.take_first() {
        None => Ok(None),
        Some(first) => {
            put(fronts, run)?;
            Ok(Some(first))
        }
    }
}

/// Adds a value at the end, and returns whether it comes behind the one in front of it.
fn add<T: Ranked>(merged: &mut Vec<T>, value: T) -> Result<bool, Memory>
    ensures items { OnOk result (merged.new.items ≡ merged.old.items ++ value ∷ []) }
    ensures order { IfOk result (λ follows. follows ≡ true
        → Ascends T.rank merged.old.items → Ascends T.rank merged.new.items) }
{
    let follows = match merged.last() {
        None => true,
        Some(last) => last.is_before(&value),
    };
    merged.push(value)?;
    Ok(follows)
}

/// How two values stand to each other.
fn order_of<T: Ranked>(a: &T, b: &T) -> Ordering
    ensures { result ≡ T.rank a.now b.now }
{
    if a.is_before(b) {
        Ordering::Less
    } else if b.is_before(a) {
        Ordering::Greater
    } else {
        Ordering::Equal
    }
}

/// Puts values in order, of which no two are of one rank.
fn sort<T: Ranked>(values: &mut Vec<T>) -> Result<(), Memory>
    requires { IsDistinct (eq_by_cmp T.rank) values.old.items }
    ensures ascends { OnOk result (Ascends T.rank values.new.items) }
    ensures all { IsPermutation values.old.items values.new.items }
{
    values.sort_by(|a, b| order_of(a, b))?;
    Ok(())
}

/// The room for all values: as many as the lists have, and an eighth more. The system's allocator keeps what it is given back up
/// to about twice the largest piece that it ever was given. With an eighth more that is more than the lists and the merged one
/// take together, so a cut finds the memory of the cut before, and the system needn't clear pages for each cut anew.
fn room_for<T: Ranked>(lists: &VecDeque<Run<T>>) -> usize {
    let mut count = 0usize;
    for run in lists.iter() {
        count = count.saturating_add(run.len());
    }
    count.saturating_add(count / 8)
}

/// All values of the lists, in order.
pub fn merge_fronts<T: Ranked>(alloc: Global, lists: VecDeque<Run<T>>) -> Result<Vec<T>, Memory>
    requires ascend { All (Ascends T.rank) lists.items }
    requires apart { HaveNoTies T.rank lists.items }
    ensures ascends { IfOk result (λ all. Ascends T.rank all.items) }
    ensures all { IfOk result (λ all. HaveSameFirsts T.rank (joined_lists lists.items) all.items) }
{
    let mut merged = Vec::with_capacity(alloc, room_for(&lists))?;
    let mut fronts = in_front_order(alloc, lists)?;
    let mut in_order = true;
    while let Some(front) = fronts.pop_front() {
        if let Some(value) = take_of_front(&mut fronts, front)? {
            in_order &= add(&mut merged, value)?;
        }
    }
    if !in_order {
        sort(&mut merged)?;
    }
    Ok(merged)
}
