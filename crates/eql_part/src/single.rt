//! An event of one route, which is played by one search for its key.
ghost use Rattle.std.specs.Prelude.{◌≡◌, ℕ, suc, ◌+◌, ◌<◌, ◌≤◌, ◌++◌, ◌∷◌, [], find, List, All, Bool, IfNone, IfOk, IfSome, IsTrue, OnErr, OnOk, Some, None, false, if◌then◌else◌, length, vec_len, vec_capacity};
ghost use Rattle.std.specs.Option.{option_map, option_to_list};
ghost use Rattle.eql_values.specs.declared.value.Value.{Value};
ghost use Rattle.eql_values.specs.declared.item.Route.{Route};
ghost use Rattle.eql_values.specs.Masks.{has_stage};
ghost use Rattle.eql_values.specs.Matching.{key_event_by};
ghost use Rattle.eql_values.specs.Orders.{key_eq};
ghost use Rattle.eql_laws.specs.OneEvent.{slots_after_event};
ghost use Rattle.eql_laws.specs.Slots.{chain_coming, slots_after};
ghost use Rattle.eql_auto.specs.Machine.{ComesAfter, chains_of, tags_of};
ghost use Rattle.eql_part.specs.Hashes.{key_hash};
ghost use Rattle.eql_part.specs.KeyTables.{AreBusy, AreOf, IsBusyAt, IsEmptyAt, IsIdle, IsLaterAt, IsOf, KeepsOtherKeys, KeepsSequences, probes_of, sequences_in, slots_in};
ghost use Rattle.eql_part.specs.Links.{IsLinked};
ghost use Rattle.eql_part.specs.Played.{IsPlayed, Joins};
ghost use Rattle.eql_part.specs.Routed.{match_there};
ghost use Rattle.eql_part.specs.Rooms.{IsTable, entries_of, room_of_key};

use crate::hash::hash_of;
use crate::listing::{Start, tickets_differ};
use crate::machine::KeyMachine;
use crate::prepared::{copy_key, list_begun};
use crate::rooms::{Shape, add_machine, drop_empty_at, settle};
use crate::routes::add_match;
use crate::table::KeyTable;
use eql_auto::Steps;
use eql_span_list::SpanList;
use eql_values::{Key, Match, Memory, OrderKey, Route};
use std::sync::ledger::Ledger;

/// What an event of one route did.
#[derive(Drop)]
pub(crate) struct Played {
    /// The match that it completed, if any.
    pub found: Vec<Match>,
    /// Whether nothing of the key is pending then.
    pub is_empty: bool,
}

/// A copy of the key of a route and the room for its match, where the event fits the last stage.
fn match_room(shape: Shape, route: &Route) -> Result<(Option<Key>, Vec<Match>), Memory>
    requires from { 1 ≤ shape.stages }
    requires to { shape.stages ≤ 256 }
    ensures key { IfOk result (λ made. made.0
        ≡ (if has_stage route.now.mask shape.stages then Some route.now.key else None)) }
    ensures none { IfOk result (λ made. made.1.items ≡ []) }
    ensures room { IfOk result (λ made. IfSome made.0
        (λ _. vec_len made.1 < vec_capacity made.1)) }
{
    let key = copy_key(route, shape.stages)?;
    if key.is_none() {
        return Ok((key, Vec::new(shape.alloc)));
    }
    let found = Vec::with_capacity(shape.alloc, 1)?;
    Ok((key, found))
}

/// Plays what an event says to the machine of a key, and puts the sequence that it begins on the list. After want of memory
/// the list and all sequences are as they were.
fn play_machine<L: Ledger>(
    machine: &mut KeyMachine<L>,
    list: &mut SpanList<Start>,
    shape: Shape,
    order: OrderKey,
    route: &Route,
    steps: &mut Steps<L>,
) -> Result<Played, Memory>
    requires from { 1 ≤ shape.stages }
    requires to { shape.stages ≤ 256 }
    requires of { IsOf shape.stages shape.span machine.old }
    requires later { All (ComesAfter order) machine.old.slots }
    requires joins { Joins order route.now machine.old list.old }
    ensures played { OnOk result (IsPlayed shape.stages order route.now
        machine.old machine.new list.old list.new) }
    ensures slots { OnOk result ((k : ℕ) → 1 ≤ k → k < shape.stages
        → chains_of machine.new.slots k
        ≡ slots_after shape.span (chains_of machine.old.slots) (key_event_by order route.now) k) }
    ensures found { IfOk result (λ played. played.found.items ≡ option_to_list (option_map
        (λ c. record { key = route.now.key; chain = c }) (chain_coming shape.span
        (chains_of machine.old.slots) (key_event_by order route.now) shape.stages))) }
    ensures empty { IfOk result (λ played. IsTrue played.is_empty
        → tags_of machine.new.slots ≡ []) }
    ensures busy { IfOk result (λ played. played.is_empty ≡ false
        → 1 ≤ length (tags_of machine.new.slots)) }
    ensures unchanged { OnErr result ((ready : Bool)
        × (machine.new ≡ record machine.old { is_ready = ready }) × (list.new ≡ list.old)) }
    ensures probes { steps.new ≤ steps.old + probes_of shape.stages route.now }
{
    machine.ready(shape.alloc)?;
    let (key, mut found) = match_room(shape, route)?;
    let begun = list_begun(list, order, route)?;
    tickets_differ(list);
    let completed = machine.turn(list, order, route, begun, steps);
    add_match(&mut found, key, completed);
    let is_empty = machine.is_empty();
    Ok(Played { found, is_empty })
}

/// The place of the room of a route's key, by one search for it. A key without a machine gets one without sequences where the
/// event begins a sequence, and else the result is `None`. The hash is the key's. After want of memory all sequences are as
/// they were.
fn room_for<L: Ledger>(
    machines: &mut KeyTable<L>,
    shape: Shape,
    hash: u64,
    route: &Route,
) -> Result<Option<usize>, Memory>
    requires from { 1 ≤ shape.stages }
    requires to { shape.stages ≤ 256 }
    requires of { AreOf shape.stages shape.span (entries_of machines.old) }
    requires table { IsTable shape.stages shape.span machines.old }
    requires hash { hash ≡ key_hash route.now.key }
    ensures of { AreOf shape.stages shape.span (entries_of machines.new) }
    ensures table { IsTable shape.stages shape.span machines.new }
    ensures others { KeepsOtherKeys route.now.key (entries_of machines.old)
        (entries_of machines.new) }
    ensures sequences { KeepsSequences (entries_of machines.old) (entries_of machines.new) }
    ensures none { IfOk result (λ place. IfNone place
        (IsIdle (entries_of machines.old) route.now
        × (entries_of machines.new ≡ entries_of machines.old))) }
    ensures there { IfOk result (λ place. IfSome place
        (λ place. room_of_key machines.new route.now.key ≡ Some place)) }
    ensures unchanged { OnErr result (entries_of machines.new ≡ entries_of machines.old) }
{
    match machines.find(hash, &route.key) {
        Some(place) => Ok(Some(place)),
        None => {
            if !route.mask.has(1) {
                return Ok(None);
            }
            let place = add_machine(machines, shape, hash, &route.key)?;
            Ok(Some(place))
        }
    }
}

/// Plays what an event says to a key whose room is at a place. After want of memory the list and all sequences are as they were.
fn play_there<L: Ledger>(
    machines: &mut KeyTable<L>,
    list: &mut SpanList<Start>,
    shape: Shape,
    order: OrderKey,
    route: &Route,
    place: usize,
    steps: &mut Steps<L>,
) -> Result<Played, Memory>
    requires from { 1 ≤ shape.stages }
    requires to { shape.stages ≤ 256 }
    requires of { AreOf shape.stages shape.span (entries_of machines.old) }
    requires table { IsTable shape.stages shape.span machines.old }
    requires there { room_of_key machines.old route.now.key ≡ Some place }
    requires later { (key : List Value) → IsLaterAt order (entries_of machines.old) key }
    requires linked { IsLinked [] (sequences_in (entries_of machines.old)) list.old }
    ensures of { AreOf shape.stages shape.span (entries_of machines.new) }
    ensures table { IsTable shape.stages shape.span machines.new }
    ensures there { room_of_key machines.new route.now.key ≡ Some place }
    ensures others { KeepsOtherKeys route.now.key (entries_of machines.old)
        (entries_of machines.new) }
    ensures slots { OnOk result ((k : ℕ) → 1 ≤ k → k < shape.stages
        → slots_in (entries_of machines.new) route.now.key k
        ≡ slots_after shape.span (slots_in (entries_of machines.old) route.now.key)
        (key_event_by order route.now) k) }
    ensures found { IfOk result (λ played. played.found.items
        ≡ option_to_list (match_there shape.stages shape.span
        (slots_in (entries_of machines.old)) order route.now)) }
    ensures empty { IfOk result (λ played. IsTrue played.is_empty
        → IsEmptyAt (entries_of machines.new) route.now.key) }
    ensures busy { IfOk result (λ played. played.is_empty ≡ false
        → IsBusyAt (entries_of machines.new) route.now.key) }
    ensures unchanged { OnErr result (KeepsSequences (entries_of machines.old)
        (entries_of machines.new)) }
    ensures linked { IsLinked [] (sequences_in (entries_of machines.new)) list.new }
    ensures probes { steps.new ≤ steps.old + probes_of shape.stages route.now }
{
    let room = &mut machines.rooms[place];
    play_machine(&mut room.machine, list, shape, order, route, steps)
}

/// Plays an event of one route that comes after all that is pending, and returns the match that it completes. An event that
/// says nothing to its key takes no memory. After want of memory the pending sequences are as they were.
pub(crate) fn play_one<L: Ledger>(
    machines: &mut KeyTable<L>,
    list: &mut SpanList<Start>,
    shape: Shape,
    order: OrderKey,
    route: &Route,
    steps: &mut Steps<L>,
) -> Result<Vec<Match>, Memory>
    requires from { 1 ≤ shape.stages }
    requires to { shape.stages ≤ 256 }
    requires of { AreOf shape.stages shape.span (entries_of machines.old) }
    requires table { IsTable shape.stages shape.span machines.old }
    requires busy { AreBusy (entries_of machines.old) }
    requires later { (key : List Value) → IsLaterAt order (entries_of machines.old) key }
    requires linked { IsLinked [] (sequences_in (entries_of machines.old)) list.old }
    ensures of { AreOf shape.stages shape.span (entries_of machines.new) }
    ensures table { IsTable shape.stages shape.span machines.new }
    ensures busy { AreBusy (entries_of machines.new) }
    ensures slots { OnOk result ((key : List Value) (k : ℕ) → suc k < shape.stages
        → slots_in (entries_of machines.new) key (suc k)
        ≡ slots_after_event shape.span order (find
        (λ (r : Route). key_eq key r.key) (route.now ∷ []))
        (slots_in (entries_of machines.old) key) (suc k)) }
    ensures found { IfOk result (λ found. found.items
        ≡ option_to_list (match_there shape.stages shape.span
        (slots_in (entries_of machines.old)) order route.now)) }
    ensures linked { IsLinked [] (sequences_in (entries_of machines.new)) list.new }
    ensures unchanged { OnErr result
        (KeepsSequences (entries_of machines.old) (entries_of machines.new)) }
    ensures probes { steps.new ≤ steps.old + probes_of shape.stages route.now }
{
    let hash = hash_of(&route.key);
    match room_for(machines, shape, hash, route)? {
        None => Ok(Vec::new(shape.alloc)),
        Some(place) => match play_there(machines, list, shape, order, route, place, steps) {
            Ok(played) => {
                settle(machines, shape, hash, &route.key, place, played.is_empty);
                Ok(played.found)
            }
            Err(memory) => {
                drop_empty_at(machines, shape, hash, &route.key, place);
                Err(memory)
            }
        },
    }
}
