//! Events with their routes, in their order.
ghost use Rattle.std.specs.Prelude.{◌≡◌, IsTrue};
ghost use Rattle.std.specs.List.{list_all};
ghost use Rattle.std.specs.FinMap.Entries.{is_sorted};
ghost use Rattle.eql_values.specs.Adjacent.{by_key};
ghost use Rattle.eql_values.specs.Orders.{key_cmp};
ghost use Rattle.eql_values.specs.Routes.{says_something};
ghost use Rattle.eql_cut.specs.Values.{routes_stand, items_ascend};

use crate::coded::Coded;
use crate::lists::{read_list, write_list};
use crate::ordered::{Ordered, ascends};
use crate::reader::{CutRefused, Reader, Version};
use eql_values::{Item, Items, Key, Mask, OrderKey, Route, Routes, order_from_next};
use std::alloc::{AllocError, Global};

impl Coded for Route {
    ghost use Rattle.eql_cut.specs.Values.{route};

    ghost format = { route };

    ghost ordered = { λ x. Unit {0} };

    fn write(&self, to: &mut Vec<u8>) -> Result<(), AllocError> {
        self.key.write(to)?;
        self.mask.write(to)?;
        self.until.write(to)
    }

    fn read(from: &mut Reader, alloc: Global, of: Version) -> Result<Route, CutRefused> {
        Ok(Route {
            key: Key::read(from, alloc, of)?,
            mask: Mask::read(from, alloc, of)?,
            until: bool::read(from, alloc, of)?,
        })
    }
}

/// Whether the route has a stage, or ends its key.
fn says_something(route: &Route) -> bool
    ensures { result ≡ says_something route.now }
{
    !(route.mask.low == 0 && route.mask.high == 0) || route.until
}

impl Ordered for Route {
    ghost use Rattle.std.specs.Ordering.{on};
    ghost use Rattle.eql_values.specs.Orders.{key_cmp};
    ghost use Rattle.eql_values.specs.declared.item.Route.{Route as Said};

    ghost rank = { on (λ (r : Said). r.key) key_cmp };

    fn is_before(&self, next: &Route) -> bool {
        self.key < next.key
    }
}

/// Whether the routes ascend strictly by key.
fn do_routes_ascend(routes: &[Route]) -> bool
    ensures { result ≡ is_sorted key_cmp (by_key routes.now) }
{
    order_from_next();
    ascends(routes)
}

/// Whether each of the routes says something.
fn say_something(routes: &[Route]) -> bool
    ensures { result ≡ list_all says_something routes.now }
{
    routes.iter().all(|route| says_something(route))
}

/// Whether the routes ascend strictly by key, and each says something.
pub(crate) fn do_routes_stand(routes: &[Route]) -> bool
    ensures { result ≡ routes_stand routes.now }
{
    do_routes_ascend(routes) && say_something(routes)
}

impl Coded for Routes {
    ghost use Rattle.eql_cut.specs.Values.{routes};

    ghost format = { routes };

    ghost ordered = { λ x. Unit {0} };

    fn write(&self, to: &mut Vec<u8>) -> Result<(), AllocError> {
        self.stand();
        write_list(self.items(), to)
    }

    fn read(from: &mut Reader, alloc: Global, of: Version) -> Result<Routes, CutRefused> {
        let at = from.place();
        let routes: Vec<Route> = read_list(from, alloc, of)?;
        if do_routes_stand(&routes) {
            Ok(Routes::of(routes))
        } else {
            Err(CutRefused::Damaged { at })
        }
    }
}

impl Coded for Item {
    ghost use Rattle.eql_cut.specs.Values.{item};

    ghost format = { item };

    ghost ordered = { λ x. Unit {0} };

    fn write(&self, to: &mut Vec<u8>) -> Result<(), AllocError> {
        self.order.write(to)?;
        self.routes.write(to)
    }

    fn read(from: &mut Reader, alloc: Global, of: Version) -> Result<Item, CutRefused> {
        Ok(Item {
            order: OrderKey::read(from, alloc, of)?,
            routes: Routes::read(from, alloc, of)?,
        })
    }
}

impl Ordered for Item {
    ghost use Rattle.std.specs.Ordering.{on};
    ghost use Rattle.eql_values.specs.OrderKeys.{order_cmp};
    ghost use Rattle.eql_values.specs.declared.item.Item.{Item as Event};

    ghost rank = { on (λ (i : Event). i.order) order_cmp };

    fn is_before(&self, next: &Item) -> bool {
        self.order < next.order
    }
}

/// Whether the events ascend strictly.
pub(crate) fn do_items_ascend(items: &[Item]) -> bool
    ensures { result ≡ items_ascend items.now }
{
    order_from_next();
    ascends(items)
}

impl Coded for Items {
    ghost use Rattle.eql_cut.specs.Values.{items};

    ghost format = { items };

    ghost ordered = { λ i. IsTrue (items_ascend i) };

    fn write(&self, to: &mut Vec<u8>) -> Result<(), AllocError> {
        write_list(self.items(), to)
    }

    fn read(from: &mut Reader, alloc: Global, of: Version) -> Result<Items, CutRefused> {
        let at = from.place();
        let items: Vec<Item> = read_list(from, alloc, of)?;
        if do_items_ascend(&items) {
            Ok(Items::of(items))
        } else {
            Err(CutRefused::Damaged { at })
        }
    }
}
