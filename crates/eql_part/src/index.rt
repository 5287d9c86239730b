//! An index of rooms by hashes: under the hash of a key stands the place of its room.
//!
//! It is one piece of memory, made of buckets of 16 slots that lie side by side. A slot is empty, or has a place and the whole
//! hash under which it stands. A hash belongs to one bucket: the upper bits of one product more, which change with each lower
//! bit, are scaled to the number of buckets. So a search reads one bucket, however many there are.
//!
//! A place whose bucket is full isn't noted, and the caller keeps it elsewhere: no input makes a search slow. Where a bucket
//! is full while a quarter of the slots may be taken, there are twice as many buckets from then on. The slots of a bucket
//! go to two that lie side by side, each to its own place, so this is one walk from front to back. Without memory for
//! it all stays as it was.
ghost use Rattle.std.specs.Prelude.{◌≡◌, ℕ, IfOk, IfSome, IsTrue, None, Some, false, map, slice_get};
ghost use Rattle.eql_part.specs.Indexed.{Forgets, Notes, bucket_number, slot_without, has, kept_at, place_at, place_in, place_under, under_of};

use crate::hash::mix;
use eql_values::Memory;
use std::alloc::Global;

/// How many slots a bucket has.
const SLOTS: usize = 16;

/// With how many rooms for each bucket the index may grow.
const CROWD: usize = 4;

/// A slot of a bucket.
#[derive(Clone, Copy)]
pub(crate) enum Slot {
    /// Nothing stands here.
    Free,
    /// The place that stands here, and its hash.
    Taken(u32, u64),
}

impl Slot {
    /// Whether something stands here under a hash.
    fn has(&self, hash: u64) -> bool
        ensures { result ≡ has self.now hash }
    {
        match self {
            Slot::Free => false,
            Slot::Taken(_, own) => *own == hash,
        }
    }

    /// The place that stands here under a hash, if any.
    fn place(&self, hash: u64) -> Option<usize>
        ensures { result ≡ place_at self.now hash }
    {
        match self {
            Slot::Free => None,
            Slot::Taken(place, own) => {
                if *own == hash {
                    Some(*place as usize)
                } else {
                    None
                }
            }
        }
    }

    /// The slot where its hash belongs to a bucket among so many, and else an empty one.
    fn kept(self, number: usize, count: usize) -> Slot
        ensures { result ≡ kept_at number count self }
    {
        match self {
            Slot::Free => Slot::Free,
            Slot::Taken(place, hash) => {
                if bucket_number(hash, count) == number {
                    self
                } else {
                    Slot::Free
                }
            }
        }
    }
}

/// The number of the bucket among so many that a hash belongs to.
fn bucket_number(hash: u64, count: usize) -> usize
    ensures { result ≡ bucket_number hash count }
{
    let product = u128::from(mix(hash, 0)) * count as u128;
    (product >> 64) as usize
}

/// The place in a bucket under a hash, if any.
fn place_in(bucket: &[Slot], hash: u64) -> Option<usize>
    ensures { result ≡ place_in bucket.now hash }
{
    for slot in bucket {
        if let Some(place) = slot.place(hash) {
            return Some(place);
        }
    }
    None
}

/// An empty slot of a bucket.
fn empty_slot(bucket: &[Slot]) -> Option<usize>
    ensures { IfSome result (λ at. slice_get bucket.now at ≡ Some Slot.Free) }
{
    for (at, slot) in bucket.iter().enumerate() {
        if let Slot::Free = slot {
            return Some(at);
        }
    }
    None
}

/// Puts a place into an empty slot of a bucket, and returns whether there was one.
fn put_in(bucket: &mut [Slot], hash: u64, place: u32) -> bool
    requires { place_in bucket.old hash ≡ None }
    ensures noted { IsTrue result → Notes hash place (place_in bucket.old) (place_in bucket.new) }
    ensures full { result ≡ false → bucket.new ≡ bucket.old }
{
    match empty_slot(bucket) {
        None => false,
        Some(at) => {
            bucket[at] = Slot::Taken(place, hash);
            true
        }
    }
}

/// Empties the slots of a bucket that have a hash.
fn clear_in(bucket: &mut [Slot], hash: u64)
    ensures { bucket.new ≡ map (slot_without hash) bucket.old }
{
    for slot in bucket.iter_mut() {
        if slot.has(hash) {
            *slot = Slot::Free;
        }
    }
}

/// Empties the slots of a bucket whose hashes don't belong to a bucket among so many.
fn keep_in(bucket: &mut [Slot], number: usize, count: usize)
    ensures { bucket.new ≡ map (kept_at number count) bucket.old }
{
    for slot in bucket.iter_mut() {
        *slot = slot.kept(number, count);
    }
}

/// Those slots of a bucket whose hashes belong to a bucket among so many.
fn part_of(bucket: &[Slot; SLOTS], number: usize, count: usize) -> [Slot; SLOTS]
    ensures { result ≡ map (kept_at number count) bucket.now }
{
    let mut part = *bucket;
    keep_in(&mut part, number, count);
    part
}

/// The buckets.
#[derive(Drop)]
pub(crate) struct HashIndex {
    buckets: Vec<[Slot; SLOTS]>,
}

impl HashIndex {
    /// An index without places. It takes no memory.
    pub fn new(alloc: Global) -> HashIndex
        ensures { (hash : ℕ) → under_of result hash ≡ None }
    {
        HashIndex {
            buckets: Vec::new(alloc),
        }
    }

    /// The place under a hash, if any.
    pub fn find(&self, hash: u64) -> Option<usize>
        ensures { result ≡ under_of self.now hash }
    {
        match self.buckets.get(bucket_number(hash, self.buckets.len())) {
            None => None,
            Some(bucket) => place_in(bucket, hash),
        }
    }

    /// Notes a place under a hash that has none, and returns whether its bucket had an empty slot.
    fn note(&mut self, hash: u64, place: u32) -> bool
        requires { under_of self.old hash ≡ None }
        ensures noted { IsTrue result → Notes hash place (under_of self.old) (under_of self.new) }
        ensures full { result ≡ false → (q : ℕ) → under_of self.new q ≡ under_of self.old q }
    {
        let number = bucket_number(hash, self.buckets.len());
        match self.buckets.get_mut(number) {
            None => false,
            Some(bucket) => put_in(bucket, hash, place),
        }
    }

    /// The places in twice as many buckets, and in one where there is none.
    fn doubled(&self, alloc: Global) -> Result<Vec<[Slot; SLOTS]>, Memory>
        ensures { IfOk result (λ buckets. (hash : ℕ)
            → place_under buckets.items hash ≡ under_of self.now hash) }
    {
        let count = self.buckets.len() * 2;
        let mut buckets = Vec::with_capacity(alloc, count + 1)?;
        for bucket in &self.buckets {
            let number = buckets.len();
            buckets.push(part_of(bucket, number, count))?;
            buckets.push(part_of(bucket, number + 1, count))?;
        }
        if count == 0 {
            buckets.push([Slot::Free; SLOTS])?;
        }
        Ok(buckets)
    }

    /// Makes the buckets twice as many, where there are few for so many rooms and there is memory for it.
    fn grow(&mut self, alloc: Global, rooms: usize)
        ensures { (hash : ℕ) → under_of self.new hash ≡ under_of self.old hash }
    {
        if rooms / CROWD < self.buckets.len() {
            return;
        }
        if let Ok(buckets) = self.doubled(alloc) {
            self.buckets = buckets;
        }
    }

    /// Notes a place under a hash, and returns whether it did: not where the hash has a place, nor where its bucket is full and
    /// the index doesn't grow. The number of rooms says whether it may.
    pub fn put(&mut self, alloc: Global, hash: u64, place: usize, rooms: usize) -> bool
        ensures absent { IsTrue result → under_of self.old hash ≡ None }
        ensures noted { IsTrue result → Notes hash place (under_of self.old) (under_of self.new) }
        ensures left { result ≡ false → (q : ℕ) → under_of self.new q ≡ under_of self.old q }
    {
        if self.find(hash).is_some() {
            return false;
        }
        let Ok(place) = u32::try_from(place) else {
            return false;
        };
        if self.note(hash, place) {
            return true;
        }
        self.grow(alloc, rooms);
        self.note(hash, place)
    }

    /// Forgets a place under a hash, where it stands there. It takes no memory.
    pub fn remove(&mut self, hash: u64, place: usize)
        ensures { Forgets place (under_of self.old) (under_of self.new) }
    {
        if self.find(hash) != Some(place) {
            return;
        }
        let number = bucket_number(hash, self.buckets.len());
        if let Some(bucket) = self.buckets.get_mut(number) {
            clear_in(bucket, hash);
        }
    }
}
