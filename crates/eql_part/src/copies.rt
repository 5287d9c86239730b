//! Copies of the pending sequences of keys that are lent.
ghost use Rattle.std.specs.Prelude.{◌≡◌, ◌-◌, ◌<◌, ◌≤◌, false, IfOk, IfSome, length, map, slice_index_or, vec_capacity};
ghost use Rattle.eql_part.specs.declared.copies.TheConstants.{AHEAD};
ghost use Rattle.eql_part.specs.KeyTables.{holders_in};
ghost use Rattle.eql_part.specs.Rooms.{AreInKeyOrder, Lent, NoneIsBefore, lent_entry};

use crate::machine::KeyMachine;
use eql_values::{Holder, Key, Memory};
use std::alloc::Global;
use std::sync::ledger::Ledger;

/// How many rows are read ahead of their copies. In the order of keys the rooms, the slots and the events of the rows lie
/// anywhere in memory. So many are enough that the processor waits for many of them at once. They are few enough that most
/// of what was read is still close to the processor when it is copied.
const AHEAD: usize = 128;

/// Reads what the copies of the next rows will read, from a place on. Nothing rests on what is read, and it is read only so
/// that it is at hand then. The loop is short, so the processor reads of many rows at once. The beginning and the end of each
/// event are joined in a list, as reading that nobody uses would be left out.
fn read_ahead<L: Ledger>(
    rows: &Vec<(u128, &Key, &KeyMachine<L>)>,
    place: usize,
    read: &mut Vec<i128>,
)
    requires { AHEAD ≤ vec_capacity read.old }
    ensures { AHEAD ≤ vec_capacity read.new }
{
    read.clear();
    let end = rows.len().min(place.saturating_add(AHEAD));
    for at in place..end {
        read.push_reserved(match rows[at].2.first_event() {
            None => 0,
            Some(event) => event.ts ^ i128::from(event.at),
        });
    }
}

/// Copies of the pending sequences, by key as the keys stand here and by stage.
pub(crate) fn copy_all<L: Ledger>(
    alloc: Global,
    rows: &Vec<(u128, &Key, &KeyMachine<L>)>,
) -> Result<Vec<Holder>, Memory>
    ensures { IfOk result (λ found. found.items ≡ holders_in (map lent_entry rows.now.items)) }
{
    // A key has one pending sequence or more, and mostly one.
    let mut found = Vec::with_capacity(alloc, rows.len())?;
    for row in rows {
        row.2.add_holders(alloc, row.1, &mut found)?;
    }
    Ok(found)
}

/// Whether the key at a place comes before the one in front of it.
fn is_before_last<L: Ledger>(rows: &Vec<(u128, &Key, &KeyMachine<L>)>, place: usize) -> bool
    requires { place < length rows.now.items }
    ensures { result ≡ false → 0 < place → (d : Lent) → NoneIsBefore
        (slice_index_or rows.now.items (place - 1) d) (slice_index_or rows.now.items place d) }
{
    if place == 0 {
        return false;
    }
    rows[place].1.cmp(rows[place - 1].1).is_lt()
}

/// Copies of the pending sequences, by key and stage, where the keys stand in order. Each key is compared with the one in front of
/// it while both are at hand.
pub(crate) fn copy_in_order<L: Ledger>(
    alloc: Global,
    rows: &Vec<(u128, &Key, &KeyMachine<L>)>,
) -> Result<Option<Vec<Holder>>, Memory>
    ensures copies { IfOk result (λ copied. IfSome copied (λ found.
        found.items ≡ holders_in (map lent_entry rows.now.items))) }
    ensures order { IfOk result (λ copied. IfSome copied (λ found.
        AreInKeyOrder rows.now.items)) }
{
    let mut found = Vec::with_capacity(alloc, rows.len())?;
    let mut read = Vec::with_capacity(alloc, AHEAD)?;
    for place in 0..rows.len() {
        if place % AHEAD == 0 {
            read_ahead(rows, place, &mut read);
        }
        if is_before_last(rows, place) {
            return Ok(None);
        }
        let row = &rows[place];
        row.2.add_holders(alloc, row.1, &mut found)?;
    }
    Ok(Some(found))
}
