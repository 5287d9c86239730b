//! The machines of the keys, each in a room of its own. A key's room is found by a hash of the key: under the hash stands the
//! place of one key's room, and the few keys for which there is no room in the index of hashes, or whose hash another key has,
//! stand in an ordered map. So no input makes a search slow. A room whose key goes keeps its machine for the next key.
ghost use Rattle.std.specs.Prelude.{◌≡◌, ℕ, ℤ, ◌<◌, ◌≤◌, [], List, Option, None, Some, IfOk, IfSome, OnErr, OnOk, cond, length, map};
ghost use Rattle.std.specs.BTreeMap.{get};
ghost use Rattle.eql_values.specs.declared.value.Value.{Value};
ghost use Rattle.eql_values.specs.Orders.{key_cmp};
ghost use Rattle.eql_part.specs.Hashes.{key_hash};
ghost use Rattle.eql_part.specs.Indexed.{under_of};
ghost use Rattle.eql_part.specs.KeyTables.{AreOf, IsEmptyAt};
ghost use Rattle.eql_part.specs.Rooms.{AddsEmpty, AreUnsorted, Changes, HasKeyNow, IsNamed, IsTable, IsUnnamed, entries_of, is_key, key_at, lent_entry, room_of_key, rows_of};

use crate::hash::hash_of;
use crate::index::HashIndex;
use crate::lead::set_lead;
use crate::machine::KeyMachine;
use crate::rooms::Shape;
use eql_values::{Key, Memory};
use std::alloc::Global;
use std::collections::BTreeMap;
use std::sync::ledger::Ledger;

/// A machine, and the key that has it now, if any.
#[derive(Drop)]
pub(crate) struct Room<L: Ledger> {
    pub key: Option<Key>,
    pub machine: KeyMachine<L>,
}

/// The rooms, and where each key has its own.
pub(crate) struct KeyTable<L: Ledger> {
    /// The place of a key's room, under the key's hash.
    pub by_hash: HashIndex,
    /// The places of keys that the index has no slot for.
    pub others: BTreeMap<Key, usize>,
    /// The rooms, by place.
    pub rooms: Vec<Room<L>>,
    /// The number of each room's key, by place, by which keys are sorted first.
    pub leads: Vec<u128>,
    /// Places of rooms without a key.
    pub free: Vec<usize>,
}

// A drop of its own: where a table is dropped there is one call, and not one for each part.
impl<L: Ledger> Drop for KeyTable<L> {
    fn drop(self) {
        let KeyTable {
            by_hash: _,
            others: _,
            rooms: _,
            leads: _,
            free: _,
        } = self;
    }
}

impl<L: Ledger> KeyTable<L> {
    /// No rooms.
    pub fn new(alloc: Global) -> KeyTable<L>
        ensures empty { entries_of result ≡ [] }
        ensures table { (m : ℕ) (span : Option ℤ) → IsTable m span result }
    {
        KeyTable {
            by_hash: HashIndex::new(alloc),
            others: BTreeMap::new(alloc),
            rooms: Vec::new(alloc),
            leads: Vec::new(alloc),
            free: Vec::new(alloc),
        }
    }

    /// Whether the room at a place has the key.
    fn has_key(&self, place: usize, key: &Key) -> bool
        ensures { result ≡ is_key (key_at self.now.rooms.items place) key.now }
    {
        match self.rooms.get(place) {
            None => false,
            Some(room) => match &room.key {
                None => false,
                Some(own) => own == key,
            },
        }
    }

    /// The place of a key's room, where it has one. The hash is the key's.
    pub fn find(&self, hash: u64, key: &Key) -> Option<usize>
        requires { hash ≡ key_hash key.now }
        ensures { result ≡ room_of_key self.now key.now }
    {
        if let Some(place) = self.by_hash.find(hash) {
            if self.has_key(place, key) {
                return Some(place);
            }
        }
        self.others.get(key).copied()
    }

    /// The place of a key's room, where it has one.
    pub fn place(&self, key: &Key) -> Option<usize>
        ensures { result ≡ room_of_key self.now key.now }
    {
        self.find(hash_of(key), key)
    }

    /// The place that was freed last, where its room has no key.
    fn last_free(&self) -> Option<usize>
        ensures { IfSome result (λ place. (place < length self.now.rooms.items)
            × (key_at self.now.rooms.items place ≡ None)) }
    {
        let place = *self.free.last()?;
        let room = self.rooms.get(place)?;
        if room.key.is_none() {
            Some(place)
        } else {
            None
        }
    }

    /// Makes a room without a key, and room for its place among the free ones.
    fn new_room(&mut self, shape: Shape) -> Result<usize, Memory>
        requires from { 1 ≤ shape.stages }
        requires to { shape.stages ≤ 256 }
        requires table { IsTable shape.stages shape.span self.old }
        ensures table { IsTable shape.stages shape.span self.new }
        ensures places { (q : List Value) → room_of_key self.new q ≡ room_of_key self.old q }
        ensures entries { entries_of self.new ≡ entries_of self.old }
        ensures within { IfOk result (λ place. place < length self.new.rooms.items) }
        ensures spare { IfOk result (λ place. key_at self.new.rooms.items place ≡ None) }
    {
        let place = self.rooms.len();
        self.free.reserve(place + 1)?;
        self.leads.reserve(1)?;
        let machine = KeyMachine::new(shape.alloc, shape.stages, shape.span)?;
        self.rooms.push(Room { key: None, machine })?;
        self.leads.push_reserved(0);
        self.free.push_reserved(place);
        Ok(place)
    }

    /// The place of a room without a key.
    fn spare_room(&mut self, shape: Shape) -> Result<usize, Memory>
        requires from { 1 ≤ shape.stages }
        requires to { shape.stages ≤ 256 }
        requires table { IsTable shape.stages shape.span self.old }
        ensures table { IsTable shape.stages shape.span self.new }
        ensures places { (q : List Value) → room_of_key self.new q ≡ room_of_key self.old q }
        ensures entries { entries_of self.new ≡ entries_of self.old }
        ensures within { IfOk result (λ place. place < length self.new.rooms.items) }
        ensures spare { IfOk result (λ place. key_at self.new.rooms.items place ≡ None) }
    {
        match self.last_free() {
            Some(place) => Ok(place),
            None => self.new_room(shape),
        }
    }

    /// Notes the place of a key that has none. After want of memory no key's place has changed.
    fn name(&mut self, alloc: Global, hash: u64, key: &Key, place: usize) -> Result<(), Memory>
        requires hash { hash ≡ key_hash key.now }
        ensures rooms { self.new.rooms ≡ self.old.rooms }
        ensures named { OnOk result (IsNamed key.now place (under_of self.old.by_hash)
            (under_of self.new.by_hash) (get key_cmp self.old.others)
            (get key_cmp self.new.others)) }
        ensures unchanged { OnErr result (((q : ℕ) → under_of self.new.by_hash q
            ≡ under_of self.old.by_hash q) × (self.new.others.entries ≡ self.old.others.entries)) }
    {
        let rooms = self.rooms.len();
        if !self.by_hash.put(alloc, hash, place, rooms) {
            let own = key.clone()?;
            self.others.insert(own, place)?;
        }
        Ok(())
    }

    /// Gives the room at a place to a key.
    fn move_in(&mut self, key: Key, place: usize)
        requires { place < length self.old.rooms.items }
        ensures by_hash { self.new.by_hash ≡ self.old.by_hash }
        ensures others { self.new.others ≡ self.old.others }
        ensures rooms { HasKeyNow place (Some key) self.old.rooms.items self.new.rooms.items }
    {
        set_lead(&mut self.leads, place, key.lead());
        self.rooms[place].key = Some(key);
        self.free.pop();
    }

    /// Gives a key without a machine one without sequences, and returns the place of its room. After want of memory no key's
    /// machine has changed.
    pub fn add(&mut self, shape: Shape, hash: u64, key: &Key) -> Result<usize, Memory>
        requires from { 1 ≤ shape.stages }
        requires to { shape.stages ≤ 256 }
        requires hash { hash ≡ key_hash key.now }
        requires table { IsTable shape.stages shape.span self.old }
        requires absent { room_of_key self.old key.now ≡ None }
        ensures table { IsTable shape.stages shape.span self.new }
        ensures there { IfOk result (λ place. room_of_key self.new key.now ≡ Some place) }
        ensures added { OnOk result (AddsEmpty shape.stages shape.span key.now
            (entries_of self.old) (entries_of self.new)) }
        ensures unchanged { OnErr result (entries_of self.new ≡ entries_of self.old) }
    {
        let place = self.spare_room(shape)?;
        let own = key.clone()?;
        self.name(shape.alloc, hash, key, place)?;
        self.move_in(own, place);
        Ok(place)
    }

    /// Notes that a key has its place no more.
    fn unname(&mut self, hash: u64, key: &Key, place: usize)
        ensures rooms { self.new.rooms ≡ self.old.rooms }
        ensures unnamed { IsUnnamed key.now place (under_of self.old.by_hash)
            (under_of self.new.by_hash) (get key_cmp self.old.others)
            (get key_cmp self.new.others) }
    {
        self.by_hash.remove(hash, place);
        self.others.remove(key);
    }

    /// Takes the key of the room at a place away, and keeps the room for another.
    fn move_out(&mut self, place: usize)
        requires { place < length self.old.rooms.items }
        ensures by_hash { self.new.by_hash ≡ self.old.by_hash }
        ensures others { self.new.others ≡ self.old.others }
        ensures rooms { HasKeyNow place None self.old.rooms.items self.new.rooms.items }
    {
        self.rooms[place].key = None;
        if self.free.len() < self.free.capacity() {
            self.free.push_reserved(place);
        }
    }

    /// Takes the machine of a key away, which has no sequence. It takes no memory.
    pub fn remove(&mut self, shape: Shape, hash: u64, key: &Key, place: usize)
        requires table { IsTable shape.stages shape.span self.old }
        requires of { AreOf shape.stages shape.span (entries_of self.old) }
        requires there { room_of_key self.old key.now ≡ Some place }
        requires empty { IsEmptyAt (entries_of self.old) key.now }
        ensures table { IsTable shape.stages shape.span self.new }
        ensures removed { Changes key.now None (entries_of self.old) (entries_of self.new) }
    {
        self.unname(hash, key, place);
        self.move_out(place);
    }

    /// How many keys have a machine.
    pub fn len(&self) -> usize
        ensures { result ≡ length (rows_of self.now.rooms.items) }
    {
        let mut count = 0;
        for room in &self.rooms {
            if room.key.is_some() {
                count += 1;
            }
        }
        count
    }

    /// The keys that have a machine, each with its number and its machine, in the order of rooms. They are lent.
    fn rows(&self, alloc: Global) -> Result<Vec<(u128, &Key, &KeyMachine<L>)>, Memory>
        ensures { IfOk result (λ rows. map lent_entry rows.items ≡ rows_of self.now.rooms.items) }
    {
        let keys = self.rooms.len().saturating_sub(self.free.len());
        let mut rows = Vec::with_capacity(alloc, keys)?;
        let mut place = 0usize;
        for room in &self.rooms {
            if let Some(key) = &room.key {
                let lead = self.leads.get(place).copied().unwrap_or(0);
                rows.push((lead, key, &room.machine))?;
            }
            place = place.saturating_add(1);
        }
        Ok(rows)
    }

    /// The keys that have a machine, each with its number and its machine, in the order of their numbers, and of the keys where
    /// the numbers are equal. They are lent, so no key is copied. A key whose number no other has is not looked at.
    pub fn by_lead(&self, shape: Shape) -> Result<Vec<(u128, &Key, &KeyMachine<L>)>, Memory>
        requires { IsTable shape.stages shape.span self.now }
        ensures { IfOk result (λ rows. AreUnsorted (entries_of self.now) rows.items) }
    {
        let mut rows = self.rows(shape.alloc)?;
        rows.sort_unstable_by(|a, b| a.0.cmp(&b.0).then_with(|| a.1.cmp(b.1)));
        Ok(rows)
    }
}
