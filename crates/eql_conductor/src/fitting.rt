//! The events that have routes. An event that fits no stage has none: no part plays it, and nothing is found by it, so it leaves
//! before what the lanes handed out is put in order.
ghost use Rattle.std.specs.Prelude.{◌≡◌, ◌++◌, ◌∷◌, [], map, All, IfOk, OnOk};
ghost use Rattle.eql_values.specs.Accepted.{sorted_items};
ghost use Rattle.eql_values.specs.Ascending.{Ascend};
ghost use Rattle.eql_laws.specs.Apart.{AllAreApart, joined_lists};
ghost use Rattle.eql_conductor.specs.Fitting.{fitting, has_routes};

use eql_merge::merge;
use eql_values::{Item, ItemLists, Items, Memory};
use std::alloc::Global;

// Whether an event has a route.
fn fits(item: &Item) -> bool
    ensures { result ≡ has_routes item.now }
{
    !item.routes.items().is_empty()
}

// Of these events those that have routes.
fn keep_fitting(items: Items) -> Items
    ensures { result ≡ fitting items }
{
    let mut items = items.into_items();
    items.retain(|item| fits(item));
    Items::of(items)
}

// Of each list the events that have routes.
fn keep_all_fitting(alloc: Global, lists: ItemLists) -> Result<ItemLists, Memory>
    ensures { IfOk result (λ kept. kept ≡ map fitting lists) }
{
    let mut kept = Vec::new(alloc);
    for items in lists.into_items() {
        kept.push(keep_fitting(items))?;
    }
    Ok(ItemLists::of(kept))
}

/// Of all events of the lists those that have routes, in ascending order.
pub(crate) fn merge_fitting(alloc: Global, lists: ItemLists) -> Result<Items, Memory>
    requires ascend { All Ascend lists }
    requires apart { AllAreApart lists }
    ensures { IfOk result (λ items. items ≡ fitting (sorted_items (joined_lists lists))) }
{
    let kept = keep_all_fitting(alloc, lists)?;
    merge(alloc, kept)
}
