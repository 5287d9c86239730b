//! What events say to the machines of their keys, one after another.
ghost use Rattle.std.specs.Prelude.{◌≡◌, ◌<◌, ◌++◌, map, IfOk};
ghost use Rattle.eql_values.specs.Chains.{fits_after};
ghost use Rattle.eql_lookback.specs.RoutedEvents.{routed_event_of, routed_events_of, routed_events};

use eql_values::{Item, Key, KeyEvent, Memory};
use std::alloc::Global;

/// What an event says to the machine of one key.
#[derive(Drop)]
pub struct RoutedEvent {
    /// The key.
    pub key: Key,
    /// What the event says to its machine.
    pub key_event: KeyEvent,
}

/// Whether the event fits the stage after this one.
pub fn fits_next(key_event: &KeyEvent, stage: u32) -> bool
    requires { stage < 256 }
    ensures { result ≡ fits_after stage key_event.now }
{
    key_event.mask.has(stage + 1)
}

/// Adds what an event says, route by route.
fn add_routed_events(item: &Item, all: &mut Vec<RoutedEvent>) -> Result<(), Memory>
    ensures { IfOk result (λ _. all.new.items ≡ all.old.items ++ routed_events_of item.now) }
{
    let order = item.order;
    for route in item.routes.items() {
        let key_event = KeyEvent {
            order,
            mask: route.mask,
            until: route.until,
        };
        let key = route.key.clone()?;
        all.push(RoutedEvent { key, key_event })?;
    }
    Ok(())
}

/// What the events say, in their order.
pub fn routed_events_in(alloc: Global, items: &[Item]) -> Result<Vec<RoutedEvent>, Memory>
    ensures { IfOk result (λ all. all.items ≡ routed_events items.now) }
{
    let mut all = Vec::new(alloc);
    for item in items {
        add_routed_events(item, &mut all)?;
    }
    Ok(all)
}
