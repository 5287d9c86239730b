//! Events, and what each says to the machine of a key.
ghost use Rattle.std.specs.Prelude.{◌≡◌, ◌≤◌};
ghost use Rattle.eql_values.specs.Masks.{has_stage};
ghost use Rattle.eql_values.specs.Routes.{RoutesStand};

use crate::order::OrderKey;
use crate::value::Key;
use std::alloc::AllocError;
use std::marker::Model;

/// The stages, from 1 to 256, that an event fits.
#[derive(Clone, Copy, PartialEq, Eq)]
pub struct Mask {
    /// Bit k - 1 is stage k, for stages 1 to 128.
    pub low: u128,
    /// Bit k - 129 is stage k, for stages 129 to 256.
    pub high: u128,
}

impl Mask {
    /// Whether the stage is in the mask.
    pub fn has(&self, stage: u32) -> bool
        requires from { 1 ≤ stage }
        requires to { stage ≤ 256 }
        ensures { result ≡ has_stage self.now stage }
    {
        if stage <= 128 {
            (self.low >> (stage - 1)) & 1 == 1
        } else {
            (self.high >> (stage - 129)) & 1 == 1
        }
    }
}

/// What an event says to the machine of one key.
#[derive(Drop)]
pub struct Route {
    /// The key.
    pub key: Key,
    /// The stages that the event fits with this key.
    pub mask: Mask,
    /// Whether the event fits the until item with this key.
    pub until: bool,
}

impl Clone for Route {
    ghost is_clone = { λ old new. new ≡ old };

    fn clone(&self) -> Result<Route, AllocError> {
        let key = self.key.clone()?;
        Ok(Route {
            key,
            mask: self.mask,
            until: self.until,
        })
    }
}

/// What an event says by one of its routes, with the event's place in the order.
#[derive(Clone, Copy)]
pub struct KeyEvent {
    /// The event's place in the order.
    pub order: OrderKey,
    /// The stages that the event fits.
    pub mask: Mask,
    /// Whether the event fits the until item.
    pub until: bool,
}

/// The routes of an event, in strictly ascending order of their keys, each with a stage or
/// `until`.
#[derive(Drop)]
pub struct Routes {
    items: Vec<Route>,
}

impl Model for Routes {
    ghost use Rattle.std.specs.Prelude.{List};
    ghost use Rattle.eql_values.specs.declared.item.Route.{Route};
    ghost use Rattle.eql_values.specs.Routes.{RoutesStand};

    ghost Value = { List Route };

    ghost view = { λ l. l.items.items };

    ghost invariant = { λ l. RoutesStand l.items.items };
}

impl Routes {
    /// The list of these routes.
    pub fn of(items: Vec<Route>) -> Routes
        requires stand { RoutesStand items.items }
        ensures { result ≡ items.items }
    {
        Routes { items }
    }

    /// The routes, lent.
    pub fn items(&self) -> &Vec<Route>
        ensures { result.now.items ≡ self.now }
    {
        &self.items
    }

    /// The routes, taken out.
    pub fn into_items(self) -> Vec<Route>
        ensures { result.items ≡ self }
    {
        self.items
    }

    /// The routes of every event ascend strictly by their keys, and each has a stage or `until`.
    /// It does nothing.
    pub fn stand(&self)
        ensures { RoutesStand self.now }
    {
        let _ = &self.items;
    }
}

impl Clone for Routes {
    ghost is_clone = { λ old new. new ≡ old };

    fn clone(&self) -> Result<Routes, AllocError> {
        let items = self.items.clone()?;
        Ok(Routes { items })
    }
}

/// An event: its place in the order, and its routes.
#[derive(Drop)]
pub struct Item {
    /// The place in the order.
    pub order: OrderKey,
    /// What the event says, key by key.
    pub routes: Routes,
}

impl Clone for Item {
    ghost is_clone = { λ old new. new ≡ old };

    fn clone(&self) -> Result<Item, AllocError> {
        let routes = self.routes.clone()?;
        Ok(Item {
            order: self.order,
            routes,
        })
    }
}

/// A list of events.
#[derive(Drop)]
pub struct Items {
    items: Vec<Item>,
}

impl Model for Items {
    ghost use Rattle.std.specs.Prelude.{List};
    ghost use Rattle.eql_values.specs.declared.item.Item.{Item};

    ghost Value = { List Item };

    ghost view = { λ l. l.items.items };
}

impl Items {
    /// The list of these events.
    pub fn of(items: Vec<Item>) -> Items
        ensures { result ≡ items.items }
    {
        Items { items }
    }

    /// The events, lent.
    pub fn items(&self) -> &Vec<Item>
        ensures { result.now.items ≡ self.now }
    {
        &self.items
    }

    /// The events, taken out.
    pub fn into_items(self) -> Vec<Item>
        ensures { result.items ≡ self }
    {
        self.items
    }
}

impl Clone for Items {
    ghost is_clone = { λ old new. new ≡ old };

    fn clone(&self) -> Result<Items, AllocError> {
        let items = self.items.clone()?;
        Ok(Items { items })
    }
}

/// A list of lists of events.
#[derive(Drop)]
pub struct ItemLists {
    items: Vec<Items>,
}

impl Model for ItemLists {
    ghost use Rattle.std.specs.Prelude.{List};
    ghost use Rattle.eql_values.specs.declared.item.Item.{Item};

    ghost Value = { List (List Item) };

    ghost view = { λ l. l.items.items };
}

impl ItemLists {
    /// The list of these lists.
    pub fn of(items: Vec<Items>) -> ItemLists
        ensures { result ≡ items.items }
    {
        ItemLists { items }
    }

    /// The lists, lent.
    pub fn items(&self) -> &Vec<Items>
        ensures { result.now.items ≡ self.now }
    {
        &self.items
    }

    /// The lists, taken out.
    pub fn into_items(self) -> Vec<Items>
        ensures { result.items ≡ self }
    {
        self.items
    }
}

impl Clone for ItemLists {
    ghost is_clone = { λ old new. new ≡ old };

    fn clone(&self) -> Result<ItemLists, AllocError> {
        let items = self.items.clone()?;
        Ok(ItemLists { items })
    }
}
