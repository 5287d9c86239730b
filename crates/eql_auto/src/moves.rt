//! What an event does to the slots, one after another: it empties them, moves their sequences on from the last stage to
//! the first, and begins a new one. The tags of the sequences that ceased are put where there is room for them.
ghost use Rattle.std.specs.Prelude.{◌≡◌, ℕ, suc, ◌+◌, ◌<◌, ◌≤◌, ◌^◌, ◌++◌, ◌∷◌, ◌==◌, [], length, map, vec_len, vec_capacity, is_some, if◌then◌else◌, None, IsSome, IfSome, slice_index_or, IsPermutation};
ghost use Rattle.std.specs.Option.{option_map, option_to_list};
ghost use Rattle.eql_auto.specs.Machine.{ComesAfter, stages_in, slot_at, tags_of, alive_in};
ghost use Rattle.eql_auto.specs.Moves.{chain_in, emptied_slot, coming_to, moved_to, with_new_sequence};
ghost use Rattle.eql_auto.specs.Kept.{IsRoom};

use crate::movers::last_mover;
use crate::steps::Steps;
use crate::table::{SlotTable, Which};
use eql_values::{Chain, Mask, OrderKey};
use std::sync::ledger::Ledger;

/// Adds a tag where there is room for it, which takes no memory.
fn add_gone<T: Copy>(gone: &mut Vec<T>, ceased: Option<T>)
    requires { vec_len gone.old + length (option_to_list ceased) ≤ vec_capacity gone.old }
    ensures items { gone.new.items ≡ gone.old.items ++ option_to_list ceased }
    ensures len { vec_len gone.new ≡ vec_len gone.old + length (option_to_list ceased) }
    ensures room { vec_capacity gone.old ≤ vec_capacity gone.new }
{
    if let Some(tag) = ceased {
        gone.push_reserved(tag);
    }
}

/// Empties each slot, of every sequence or of stale ones.
pub(crate) fn drop_from_slots<T: Copy, L: Ledger>(
    table: &mut SlotTable<T, L>,
    gone: &mut Vec<T>,
    which: Which,
    steps: &mut Steps<L>,
)
    requires few { length table.old < 256 }
    requires room { length (tags_of table.old) + vec_len gone.old ≤ vec_capacity gone.old }
    ensures slots { table.new ≡ map (emptied_slot which) table.old }
    ensures tags { IsPermutation (gone.new.items ++ tags_of table.new)
        (gone.old.items ++ tags_of table.old) }
    ensures room { vec_capacity gone.old ≤ vec_capacity gone.new }
    ensures still_room { length (tags_of table.new) + vec_len gone.new ≤ vec_capacity gone.new }
    ensures probes { steps.new ≡ steps.old + length table.old }
{
    let count = table.len();
    for place in 0..count {
        let ceased = table.empty(place as u32 + 1, which, steps);
        add_gone(gone, ceased);
    }
}

/// Empties every slot where the event ends the key.
pub(crate) fn empty_at_end<T: Copy, L: Ledger>(
    table: &mut SlotTable<T, L>,
    gone: &mut Vec<T>,
    until: bool,
    steps: &mut Steps<L>,
)
    requires few { length table.old < 256 }
    requires room { length (tags_of table.old) + vec_len gone.old ≤ vec_capacity gone.old }
    ensures slots { table.new ≡ (if until then map (λ _. None) table.old else table.old) }
    ensures tags { IsPermutation (gone.new.items ++ tags_of table.new)
        (gone.old.items ++ tags_of table.old) }
    ensures room { vec_capacity gone.old ≤ vec_capacity gone.new }
    ensures still_room { length (tags_of table.new) + vec_len gone.new ≤ vec_capacity gone.new }
    ensures probes { steps.new ≡ steps.old + (if until then length table.old else 0) }
{
    if until {
        drop_from_slots(table, gone, Which::All, steps);
    }
}

/// Moves on the sequences of the slots after whose stage the event fits, from the last to the first, and returns the
/// chain that has its last event then.
pub(crate) fn advance_all<T: Copy, L: Ledger>(
    table: &mut SlotTable<T, L>,
    gone: &mut Vec<T>,
    span: Option<i128>,
    event: OrderKey,
    mask: &Mask,
    steps: &mut Steps<L>,
) -> Option<Chain>
    requires few { length table.old < 256 }
    requires later { (k : ℕ) → ComesAfter event (slice_index_or table.old k None) }
    requires room { length (tags_of table.old) + vec_len gone.old ≤ vec_capacity gone.old }
    ensures len { length table.new ≡ length table.old }
    ensures slots { (k : ℕ) → 1 ≤ k → k ≤ length table.old → slot_at table.new k
        ≡ moved_to span event mask.now table.old k }
    ensures answer { result ≡ chain_in (coming_to span event mask.now table.old
        (suc (length table.old))) }
    ensures tags { IsPermutation (gone.new.items ++ tags_of table.new)
        (gone.old.items ++ tags_of table.old) }
    ensures room { vec_capacity gone.old ≤ vec_capacity gone.new }
    ensures still_room { length (tags_of table.new) + vec_len gone.new ≤ vec_capacity gone.new }
    ensures probes { steps.new + stages_in mask.now 1 ≤ steps.old
        + stages_in mask.now (suc (length table.old)) }
{
    let mut completed = None;
    let mut below = table.len() as u32 + 1;
    while let Some(stage) = last_mover(mask, below) {
        let out = table.advance(stage, span, event, steps);
        add_gone(gone, out.ceased);
        completed = out.completed.or(completed);
        below = stage;
    }
    completed
}

/// Begins a sequence of the event where there is a tag for it, in the room that is kept for it, and returns its chain
/// where there is one stage alone.
pub(crate) fn begin_new<T: Copy, L: Ledger>(
    table: &mut SlotTable<T, L>,
    gone: &mut Vec<T>,
    spare: &mut Option<Vec<OrderKey>>,
    event: OrderKey,
    tag: Option<T>,
    steps: &mut Steps<L>,
) -> Option<Chain>
    requires ready { IsSome spare.old }
    requires spare { IfSome spare.old (IsRoom (length table.old)) }
    requires room { length (tags_of table.old) + vec_len gone.old < vec_capacity gone.old }
    ensures slots { table.new ≡ with_new_sequence event tag table.old }
    ensures answer { result ≡ (if 0 == length table.old then option_map
        (λ _. event ∷ []) tag else None) }
    ensures tags { IsPermutation (gone.new.items ++ tags_of table.new)
        (option_to_list tag ++ (gone.old.items ++ tags_of table.old)) }
    ensures room { vec_capacity gone.old ≤ vec_capacity gone.new }
    ensures spare { spare.new ≡ (if is_some tag then None else spare.old) }
    ensures probes { steps.new ≡ steps.old + length (option_to_list tag) }
{
    let tag = tag?;
    match spare.take() {
        None => unreachable!(),
        Some(room) => {
            let out = table.begin(room, event, tag, steps);
            add_gone(gone, out.ceased);
            out.completed
        }
    }
}

/// Empties the slots whose first timestamp plus the span is below `reach`, and none without a span.
pub(crate) fn empty_stale<T: Copy, L: Ledger>(
    table: &mut SlotTable<T, L>,
    gone: &mut Vec<T>,
    span: Option<i128>,
    reach: i128,
    steps: &mut Steps<L>,
)
    requires few { length table.old < 256 }
    requires room { length (tags_of table.old) + vec_len gone.old ≤ vec_capacity gone.old }
    ensures slots { table.new ≡ map (alive_in span reach) table.old }
    ensures tags { IsPermutation (gone.new.items ++ tags_of table.new)
        (gone.old.items ++ tags_of table.old) }
    ensures room { vec_capacity gone.old ≤ vec_capacity gone.new }
    ensures probes { steps.new ≤ steps.old + length table.old }
    ensures idle { span ≡ None → steps.new ≡ steps.old }
{
    if let Some(span) = span {
        drop_from_slots(table, gone, Which::Stale { span, reach }, steps);
    }
}
