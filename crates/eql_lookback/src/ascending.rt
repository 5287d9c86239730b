//! Whether a list of events stands as the search requires.
ghost use Rattle.std.specs.Prelude.{IsTrue};
ghost use Rattle.eql_values.specs.Ascending.{AllAreAfter, Ascend};
ghost use Rattle.eql_values.specs.Routes.{RoutesAreInOrder};

use eql_values::Item;

/// Whether the event comes before all of these.
fn is_before(event: &Item, items: &[Item]) -> bool
    ensures { IsTrue result → AllAreAfter event.now.order items.now }
{
    match items {
        [] => true,
        [next, rest @ ..] => event.order < next.order && is_before(event, rest),
    }
}

/// Whether the event has at most one route.
fn has_one_route(event: &Item) -> bool
    ensures { IsTrue result → RoutesAreInOrder event.now.routes }
{
    event.routes.items().len() < 2
}

/// Whether the events ascend, and each has at most one route. It compares each event with all behind it.
pub fn ascend(items: &[Item]) -> bool
    ensures { IsTrue result → Ascend items.now }
{
    match items {
        [] => true,
        [first, rest @ ..] => has_one_route(first) && is_before(first, rest) && ascend(rest),
    }
}
