//! The room that an event may need, taken before it is played.
ghost use Rattle.std.specs.Prelude.{◌≡◌, ◌≤◌, None, Some, IfOk, IsTrue, OnErr, OnOk, false};
ghost use Rattle.eql_part.specs.Hashes.{key_hash};
ghost use Rattle.eql_part.specs.KeyTables.{AreOf, IsBusyAt, IsEmptyAt, IsReadyIn, KeepsOtherKeys, KeepsReady, KeepsSequences};
ghost use Rattle.eql_part.specs.Rooms.{IsTable, entries_of, room_of_key};

use crate::hash::hash_of;
use crate::table::KeyTable;
use eql_values::{Key, Memory};
use std::alloc::Global;
use std::sync::ledger::Ledger;

/// What the machines of all keys have in common.
#[derive(Clone, Copy)]
pub(crate) struct Shape {
    /// Where memory comes from.
    pub alloc: Global,
    /// How many stages a sequence goes through, from 1 to 256.
    pub stages: u32,
    /// How much later than its first event a sequence may go on, in nanoseconds.
    pub span: Option<i128>,
}

/// Gives a key without a machine one without sequences, and returns the place of its room. The hash is the key's. After want
/// of memory all sequences are as they were.
pub(crate) fn add_machine<L: Ledger>(
    machines: &mut KeyTable<L>,
    shape: Shape,
    hash: u64,
    key: &Key,
) -> Result<usize, Memory>
    requires from { 1 ≤ shape.stages }
    requires to { shape.stages ≤ 256 }
    requires of { AreOf shape.stages shape.span (entries_of machines.old) }
    requires table { IsTable shape.stages shape.span machines.old }
    requires hash { hash ≡ key_hash key.now }
    requires absent { room_of_key machines.old key.now ≡ None }
    ensures of { AreOf shape.stages shape.span (entries_of machines.new) }
    ensures table { IsTable shape.stages shape.span machines.new }
    ensures there { IfOk result (λ place. room_of_key machines.new key.now ≡ Some place) }
    ensures others { KeepsOtherKeys key.now (entries_of machines.old) (entries_of machines.new) }
    ensures sequences { KeepsSequences (entries_of machines.old) (entries_of machines.new) }
    ensures ready { KeepsReady (entries_of machines.old) (entries_of machines.new) }
    ensures unchanged { OnErr result (entries_of machines.new ≡ entries_of machines.old) }
{
    machines.add(shape, hash, key)
}

/// The place of a key's room. A key without a machine gets one without sequences.
fn find_or_add<L: Ledger>(
    machines: &mut KeyTable<L>,
    shape: Shape,
    key: &Key,
) -> Result<usize, Memory>
    requires from { 1 ≤ shape.stages }
    requires to { shape.stages ≤ 256 }
    requires of { AreOf shape.stages shape.span (entries_of machines.old) }
    requires table { IsTable shape.stages shape.span machines.old }
    ensures of { AreOf shape.stages shape.span (entries_of machines.new) }
    ensures table { IsTable shape.stages shape.span machines.new }
    ensures there { IfOk result (λ place. room_of_key machines.new key.now ≡ Some place) }
    ensures others { KeepsOtherKeys key.now (entries_of machines.old) (entries_of machines.new) }
    ensures sequences { KeepsSequences (entries_of machines.old) (entries_of machines.new) }
    ensures ready { KeepsReady (entries_of machines.old) (entries_of machines.new) }
{
    let hash = hash_of(key);
    match machines.find(hash, key) {
        Some(place) => Ok(place),
        None => add_machine(machines, shape, hash, key),
    }
}

/// Takes the room for one more chain of a key whose room is at a place.
fn ready_machine<L: Ledger>(
    machines: &mut KeyTable<L>,
    shape: Shape,
    key: &Key,
    place: usize,
) -> Result<(), Memory>
    requires of { AreOf shape.stages shape.span (entries_of machines.old) }
    requires table { IsTable shape.stages shape.span machines.old }
    requires there { room_of_key machines.old key.now ≡ Some place }
    ensures of { AreOf shape.stages shape.span (entries_of machines.new) }
    ensures table { IsTable shape.stages shape.span machines.new }
    ensures there { OnOk result (IsReadyIn (entries_of machines.new) key.now) }
    ensures others { KeepsOtherKeys key.now (entries_of machines.old) (entries_of machines.new) }
    ensures sequences { KeepsSequences (entries_of machines.old) (entries_of machines.new) }
    ensures ready { KeepsReady (entries_of machines.old) (entries_of machines.new) }
{
    machines.rooms[place].machine.ready(shape.alloc)
}

/// Takes the room for one more chain of a key.
pub(crate) fn make_room<L: Ledger>(
    machines: &mut KeyTable<L>,
    shape: Shape,
    key: &Key,
) -> Result<(), Memory>
    requires from { 1 ≤ shape.stages }
    requires to { shape.stages ≤ 256 }
    requires of { AreOf shape.stages shape.span (entries_of machines.old) }
    requires table { IsTable shape.stages shape.span machines.old }
    ensures of { AreOf shape.stages shape.span (entries_of machines.new) }
    ensures table { IsTable shape.stages shape.span machines.new }
    ensures there { OnOk result (IsReadyIn (entries_of machines.new) key.now) }
    ensures others { KeepsOtherKeys key.now (entries_of machines.old) (entries_of machines.new) }
    ensures sequences { KeepsSequences (entries_of machines.old) (entries_of machines.new) }
    ensures ready { KeepsReady (entries_of machines.old) (entries_of machines.new) }
{
    let place = find_or_add(machines, shape, key)?;
    ready_machine(machines, shape, key, place)
}

/// Keeps no machine for a key whose room is at a place, where it is empty.
pub(crate) fn settle<L: Ledger>(
    machines: &mut KeyTable<L>,
    shape: Shape,
    hash: u64,
    key: &Key,
    place: usize,
    is_empty: bool,
)
    requires of { AreOf shape.stages shape.span (entries_of machines.old) }
    requires table { IsTable shape.stages shape.span machines.old }
    requires there { room_of_key machines.old key.now ≡ Some place }
    requires empty { IsTrue is_empty → IsEmptyAt (entries_of machines.old) key.now }
    requires busy { is_empty ≡ false → IsBusyAt (entries_of machines.old) key.now }
    ensures of { AreOf shape.stages shape.span (entries_of machines.new) }
    ensures table { IsTable shape.stages shape.span machines.new }
    ensures sequences { KeepsSequences (entries_of machines.old) (entries_of machines.new) }
    ensures others { KeepsOtherKeys key.now (entries_of machines.old) (entries_of machines.new) }
    ensures busy { IsBusyAt (entries_of machines.new) key.now }
{
    if is_empty {
        machines.remove(shape, hash, key, place);
    }
}

/// Whether the machine of a key whose room is at a place has no sequence.
fn is_empty_at<L: Ledger>(machines: &KeyTable<L>, shape: Shape, key: &Key, place: usize) -> bool
    requires table { IsTable shape.stages shape.span machines.now }
    requires there { room_of_key machines.now key.now ≡ Some place }
    ensures empty { IsTrue result → IsEmptyAt (entries_of machines.now) key.now }
    ensures busy { result ≡ false → IsBusyAt (entries_of machines.now) key.now }
{
    machines.rooms[place].machine.is_empty()
}

/// Keeps no machine for a key whose room is at a place, where nothing is pending.
pub(crate) fn drop_empty_at<L: Ledger>(
    machines: &mut KeyTable<L>,
    shape: Shape,
    hash: u64,
    key: &Key,
    place: usize,
)
    requires of { AreOf shape.stages shape.span (entries_of machines.old) }
    requires table { IsTable shape.stages shape.span machines.old }
    requires there { room_of_key machines.old key.now ≡ Some place }
    ensures of { AreOf shape.stages shape.span (entries_of machines.new) }
    ensures table { IsTable shape.stages shape.span machines.new }
    ensures sequences { KeepsSequences (entries_of machines.old) (entries_of machines.new) }
    ensures others { KeepsOtherKeys key.now (entries_of machines.old) (entries_of machines.new) }
    ensures busy { IsBusyAt (entries_of machines.new) key.now }
{
    let is_empty = is_empty_at(machines, shape, key, place);
    settle(machines, shape, hash, key, place, is_empty);
}

/// Keeps no machine for a key with nothing pending.
pub(crate) fn drop_empty<L: Ledger>(machines: &mut KeyTable<L>, shape: Shape, key: &Key)
    requires of { AreOf shape.stages shape.span (entries_of machines.old) }
    requires table { IsTable shape.stages shape.span machines.old }
    ensures of { AreOf shape.stages shape.span (entries_of machines.new) }
    ensures table { IsTable shape.stages shape.span machines.new }
    ensures sequences { KeepsSequences (entries_of machines.old) (entries_of machines.new) }
    ensures others { KeepsOtherKeys key.now (entries_of machines.old) (entries_of machines.new) }
    ensures busy { IsBusyAt (entries_of machines.new) key.now }
{
    let hash = hash_of(key);
    if let Some(place) = machines.find(hash, key) {
        drop_empty_at(machines, shape, hash, key, place);
    }
}
