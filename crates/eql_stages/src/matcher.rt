//! An item of a query, as it judges events.
ghost use Rattle.std.specs.Prelude.{◌≡◌, ◌≤◌, IfOk, OnOk};
ghost use Rattle.eql_stages.specs.Matching as matching;
ghost use Rattle.eql_stages.specs.Matching.{matched_key, said_to};
ghost use Rattle.eql_stages.specs.Stages as stages;

use crate::keys::{KeyFields, is_whole};
use crate::routes::add;
use eql_code::{Code, Stack};
use eql_lines::Fields;
use eql_values::{Mask, Memory, Route, Text, Texts};
use std::alloc::{AllocError, Global};

/// An item: it stands for as many stages in a row as it runs, and is judged once for all of them.
#[derive(Drop)]
pub(crate) struct ItemMatcher {
    /// The category; none fits every event.
    pub(crate) category: Option<Text>,
    /// The condition.
    pub(crate) code: Code,
    /// The key fields, the shared ones first.
    pub(crate) keys: KeyFields,
    /// How many stages it stands for.
    pub(crate) runs: u32,
}

impl Clone for ItemMatcher {
    ghost is_clone = { λ old new. new ≡ old };

    fn clone(&self) -> Result<ItemMatcher, AllocError> {
        let category = self.category.clone()?;
        let code = self.code.clone()?;
        let keys = self.keys.clone()?;
        Ok(ItemMatcher {
            category,
            code,
            keys,
            runs: self.runs,
        })
    }
}

/// Whether an event of these categories is of the item's category.
fn has_category(categories: &Texts, wanted: &Option<Text>) -> bool
    ensures { result ≡ stages.has_category categories.now wanted.now }
{
    match wanted {
        Some(category) => categories.items().contains(category),
        None => true,
    }
}

impl ItemMatcher {
    /// Whether the event is of the item's category, and the item's condition is true. A condition of another category
    /// isn't run.
    fn fits(&self, alloc: Global, event: &Fields, stack: &mut Stack) -> Result<bool, Memory>
        requires room { self.now.code.1 ≤ stack.old }
        ensures fits { IfOk result
            (λ b. b ≡ matching.fits event.now.categories event.now.slots self.now) }
        ensures stack { stack.new ≡ stack.old }
    {
        if has_category(&event.categories, &self.category) {
            self.code.holds(alloc, &event.slots, stack)
        } else {
            Ok(false)
        }
    }

    /// Adds stages to the route of the key that the event gives to the item, or ends that key, where it gives one.
    pub(crate) fn say(
        &self,
        alloc: Global,
        event: &Fields,
        stack: &mut Stack,
        routes: &mut Vec<Route>,
        mask: Mask,
        until: bool,
    ) -> Result<(), Memory>
        requires room { self.now.code.1 ≤ stack.old }
        ensures said { OnOk result (routes.new.items
            ≡ said_to (matched_key event.now.categories event.now.slots self.now) mask until
            routes.old.items) }
        ensures stack { stack.new ≡ stack.old }
    {
        if !self.fits(alloc, event, stack)? {
            return Ok(());
        }
        let (keys, slots) = (self.keys.items(), event.slots.items());
        if is_whole(keys, slots) {
            add(alloc, routes, keys, slots, mask, until)
        } else {
            Ok(())
        }
    }
}
