//! Laws of the orders, each the contract of a function that does nothing.
ghost use Rattle.std.specs.Prelude.{◌≡◌, ℕ, List, IsTrue, All};
ghost use Rattle.std.specs.Ordering.{nat_cmp};
ghost use Rattle.std.specs.FinMap.Entries.{is_sorted};
ghost use Rattle.eql_values.specs.declared.order.OrderKey.{OrderKey as Place};
ghost use Rattle.eql_values.specs.declared.value.Kind.{Kind as FieldKind};
ghost use Rattle.eql_values.specs.declared.item.Route.{Route as Said};
ghost use Rattle.eql_values.specs.declared.item.Item.{Item as Event};
ghost use Rattle.eql_values.specs.declared.found.Holder.{Holder as Pending};
ghost use Rattle.eql_values.specs.declared.found.Numbered.{Numbered as Listed};
ghost use Rattle.eql_values.specs.Adjacent.{ascends_next, NextTells};
ghost use Rattle.eql_values.specs.Adjacent.{by_key, by_order, by_itself, by_slot, by_number};
ghost use Rattle.eql_values.specs.Agreement.{Agrees, Tells};
ghost use Rattle.eql_values.specs.Ascending.{Ascend};
ghost use Rattle.eql_values.specs.Marks.{mark_cmp};
ghost use Rattle.eql_values.specs.Matching.{slot_cmp};
ghost use Rattle.eql_values.specs.Names.{names_eq};
ghost use Rattle.eql_values.specs.OrderKeys.{order_cmp, events_ascend};
ghost use Rattle.eql_values.specs.Orders.{text_cmp, value_cmp, key_cmp};
ghost use Rattle.eql_values.specs.Routes.{RoutesAreInOrder};

/// Two values of these orders compare as equal only where they are one and the same.
pub fn orders_agree_with_equality()
    ensures texts { Agrees text_cmp }
    ensures values { Agrees value_cmp }
    ensures keys { Agrees key_cmp }
    ensures slots { Agrees slot_cmp }
    ensures events { Agrees order_cmp }
    ensures marks { Agrees mark_cmp }
    ensures names { Tells names_eq }
{}

/// A list ascends strictly exactly when each element comes after the one before it.
pub fn order_from_next()
    ensures routes { (routes : List Said) → NextTells key_cmp (by_key routes) }
    ensures items { (items : List Event) → NextTells order_cmp (by_order items) }
    ensures chains { (events : List Place)
        → ascends_next order_cmp (by_itself events) ≡ events_ascend events }
    ensures holders { (holders : List Pending) → NextTells slot_cmp (by_slot holders) }
    ensures names { (names : List (List ℕ × FieldKind)) → NextTells text_cmp names }
    ensures numbers { (kept : List Listed) → NextTells nat_cmp (by_number kept) }
{}

/// The ways to say that events ascend say the same.
pub fn orders_told_alike()
    ensures chains { (events : List Place)
        → is_sorted order_cmp (by_itself events) ≡ events_ascend events }
    ensures items { (items : List Event) → Ascend items
        → IsTrue (is_sorted order_cmp (by_order items)) }
    ensures routes { (items : List Event) → Ascend items
        → All (λ item. RoutesAreInOrder item.routes) items }
    ensures back { (items : List Event) → All (λ item. RoutesAreInOrder item.routes) items
        → IsTrue (is_sorted order_cmp (by_order items)) → Ascend items }
{}
