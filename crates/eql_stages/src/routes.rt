//! The routes of an event, gathered key by key.
ghost use Rattle.std.specs.Prelude.{◌≡◌, ◌<◌, ◌≤◌, IfOk, IfErr, OnOk, length};
ghost use Rattle.eql_stages.specs.Gathering.{said_routes, IsAt, ComesAt};
ghost use Rattle.eql_stages.specs.Keys.{values_of};

use crate::keys::{KeyField, compare, copied};
use crate::masks::union;
use eql_values::{Mask, Memory, Route, Value};
use std::alloc::Global;
use std::cmp::Ordering;

/// The place of a key's route; where there is none yet, as an error, the place at which it comes.
fn find_route(routes: &[Route], fields: &[KeyField], slots: &[Value]) -> Result<usize, usize>
    ensures within { IfOk result (λ i. i < length routes.now) }
    ensures at { IfOk result (IsAt (values_of slots.now fields.now) routes.now) }
    ensures up_to { IfErr result (λ i. i ≤ length routes.now) }
    ensures comes { IfErr result (ComesAt (values_of slots.now fields.now) routes.now) }
{
    for (place, route) in routes.iter().enumerate() {
        match compare(fields, slots, route.key.items()) {
            Ordering::Less => return Err(place),
            Ordering::Equal => return Ok(place),
            Ordering::Greater => {}
        }
    }
    Err(routes.len())
}

/// Adds stages to the route of the key that the fields give, or ends that key. A key is copied only where it has no
/// route yet.
pub(crate) fn add(
    alloc: Global,
    routes: &mut Vec<Route>,
    fields: &[KeyField],
    slots: &[Value],
    mask: Mask,
    until: bool,
) -> Result<(), Memory>
    ensures { OnOk result (routes.new.items
        ≡ said_routes (values_of slots.now fields.now) mask until routes.old.items) }
{
    match find_route(routes, fields, slots) {
        Ok(place) => {
            let route = &mut routes[place];
            route.mask = union(&route.mask, &mask);
            route.until = route.until || until;
        }
        Err(place) => {
            let key = copied(alloc, fields, slots)?;
            routes.insert(place, Route { key, mask, until })?;
        }
    }
    Ok(())
}
