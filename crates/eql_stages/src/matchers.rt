//! The items of a query, as they judge events.
ghost use Rattle.std.specs.Prelude.{◌≡◌, ◌≤◌, [], None, OnOk};
ghost use Rattle.eql_stages.specs.Given.{routes_by};
ghost use Rattle.eql_stages.specs.Matching.{AreSound, given_by, routes_for};

use crate::masks::{NO_STAGE, stages_between};
use crate::matcher::ItemMatcher;
use eql_code::Stack;
use eql_lines::Fields;
use eql_values::{Memory, Route};
use std::alloc::{AllocError, Global};

/// The items of a query and the item that ends sequences, with the depth of the stack that their conditions need.
#[derive(Drop)]
pub(crate) struct ItemMatchers {
    pub(crate) items: Vec<ItemMatcher>,
    pub(crate) until: Option<ItemMatcher>,
    pub(crate) depth: u32,
    ghost sound: { AreSound items.items until depth },
}

impl Clone for ItemMatchers {
    ghost is_clone = { λ old new. (new.items.items ≡ old.items.items) × (new.until ≡ old.until)
        × (new.depth ≡ old.depth) };

    fn clone(&self) -> Result<ItemMatchers, AllocError> {
        let items = self.items.clone()?;
        let until = self.until.clone()?;
        Ok(ItemMatchers {
            items,
            until,
            depth: self.depth,
        })
    }
}

impl ItemMatchers {
    /// Gathers what the event says to the stages, key by key.
    fn say_stages(
        &self,
        alloc: Global,
        event: &Fields,
        stack: &mut Stack,
        routes: &mut Vec<Route>,
    ) -> Result<(), Memory>
        requires room { self.now.depth ≤ stack.old }
        requires empty { routes.old.items ≡ [] }
        ensures said { OnOk result (routes.new.items
            ≡ routes_by
            (given_by event.now.categories event.now.slots self.now.items.items) None) }
        ensures stack { stack.new ≡ stack.old }
    {
        let mut place = 0;
        for matcher in &self.items {
            let end = place + matcher.runs;
            let mask = stages_between(place, end);
            matcher.say(alloc, event, stack, routes, mask, false)?;
            place = end;
        }
        Ok(())
    }

    /// Gathers what the event says, key by key.
    pub(crate) fn say(
        &self,
        alloc: Global,
        event: &Fields,
        stack: &mut Stack,
        routes: &mut Vec<Route>,
    ) -> Result<(), Memory>
        requires room { self.now.depth ≤ stack.old }
        requires empty { routes.old.items ≡ [] }
        ensures said { OnOk result
            (routes.new.items ≡ routes_for self.now.items.items self.now.until event.now) }
        ensures stack { stack.new ≡ stack.old }
    {
        self.say_stages(alloc, event, stack, routes)?;
        match &self.until {
            Some(until) => until.say(alloc, event, stack, routes, NO_STAGE, true),
            None => Ok(()),
        }
    }
}
