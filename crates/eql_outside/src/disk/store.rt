//! What a disk in memory keeps of its areas: what the last good sync kept, the writes since, and what reads give.
ghost use Rattle.std.specs.Prelude.{◌≡◌, ◌≤◌, IfOk, length, map};
ghost use Rattle.eql_outside.specs.Areas.{Write, IsLeftAfter, Lands, MayLeave, store, with_store, settled_store, store_with, area_with};
ghost use Rattle.eql_outside.specs.Disks.{write_of, store_of, moment_of};

use crate::disk::Area;
use eql_values::Memory;
use std::alloc::Global;

/// What stands in the place of a byte that a torn write spoiled.
const SPOILED: u8 = 0xa5;

/// Bytes for a place in an area.
#[derive(Drop)]
pub(crate) struct MemWrite {
    at: u64,
    bytes: Vec<u8>,
}

/// An area: what was kept last, the writes since, the last of them first, and what a read gives.
pub(crate) struct MemStore {
    kept: Vec<u8>,
    writes: Vec<MemWrite>,
    seen: Vec<u8>,
}

// A drop of its own: where an area is dropped there is one call, and not one for each list.
impl Drop for MemStore {
    fn drop(self) {
        let MemStore {
            kept: _,
            writes: _,
            seen: _,
        } = self;
    }
}

/// Both areas at one moment.
pub(crate) struct MemMoment {
    a: MemStore,
    b: MemStore,
}

// A drop of its own, as of an area.
impl Drop for MemMoment {
    fn drop(self) {
        let MemMoment { a: _, b: _ } = self;
    }
}

impl MemWrite {
    fn copy_all(alloc: Global, writes: &[MemWrite]) -> Result<Vec<MemWrite>, Memory>
        ensures { IfOk result (λ copies. map write_of copies.items ≡ map write_of writes.now) }
    {
        let mut copies = Vec::new(alloc);
        for write in writes {
            copies.push(MemWrite {
                at: write.at,
                bytes: Vec::from_slice(alloc, &write.bytes)?,
            })?;
        }
        Ok(copies)
    }
}

impl MemStore {
    /// An area of these bytes, all of which are kept.
    pub(crate) fn settled(alloc: Global, bytes: Vec<u8>) -> Result<MemStore, Memory>
        ensures { IfOk result (λ area. store_of area ≡ settled_store bytes.items) }
    {
        Ok(MemStore {
            kept: Vec::from_slice(alloc, &bytes)?,
            writes: Vec::new(alloc),
            seen: bytes,
        })
    }

    /// What a read gives.
    pub(crate) fn seen(&self) -> &Vec<u8>
        ensures { result.now.items ≡ (store_of self.now).seen }
    {
        &self.seen
    }

    fn copy(&self, alloc: Global) -> Result<MemStore, Memory>
        ensures { IfOk result (λ area. store_of area ≡ store_of self.now) }
    {
        Ok(MemStore {
            kept: Vec::from_slice(alloc, &self.kept)?,
            writes: MemWrite::copy_all(alloc, &self.writes)?,
            seen: Vec::from_slice(alloc, &self.seen)?,
        })
    }

    /// The area after a sync.
    pub(crate) fn synced(&self, alloc: Global) -> Result<MemStore, Memory>
        ensures { IfOk result (λ area. store_of area ≡ settled_store (store_of self.now).seen) }
    {
        MemStore::settled(alloc, Vec::from_slice(alloc, &self.seen)?)
    }

    /// The area after a further write.
    pub(crate) fn written(&self, alloc: Global, at: u64, bytes: &[u8]) -> Result<MemStore, Memory>
        requires { at ≤ length (store_of self.now).seen }
        ensures { let w : Write = record { at = at; bytes = bytes.now } in IfOk result (λ area.
            store_of area
            ≡ store_with w (area_with w (store_of self.now).seen) (store_of self.now)) }
    {
        let mut next = self.copy(alloc)?;
        next.seen = overwritten(alloc, &self.seen, at as usize, bytes)?;
        let write = MemWrite {
            at,
            bytes: Vec::from_slice(alloc, bytes)?,
        };
        next.writes.insert(0, write)?;
        Ok(next)
    }

    /// Something that a crash could leave of the area, with what is left of the choice: for 0 what was kept, for 1
    /// what reads give, and otherwise each write since is there, is torn at a length, or isn't there.
    pub(crate) fn left(&self, alloc: Global, choice: u64) -> Result<(Vec<u8>, u64), Memory>
        ensures image { IfOk result (λ left. MayLeave (store_of self.now) left.0.items) }
        ensures kept { IfOk result (λ left. choice ≡ 0
            → (left.0.items ≡ (store_of self.now).kept) × (left.1 ≡ 0)) }
        ensures seen { IfOk result (λ left. choice ≡ 1
            → (left.0.items ≡ (store_of self.now).seen) × (left.1 ≡ 1)) }
    {
        match choice {
            0 => Ok((Vec::from_slice(alloc, &self.kept)?, 0)),
            1 => Ok((Vec::from_slice(alloc, &self.seen)?, 1)),
            _ => {
                let (bytes, rest) = left_after(alloc, &self.kept, &self.writes, choice - 2)?;
                Ok((bytes, rest.saturating_add(2)))
            }
        }
    }
}

impl MemMoment {
    /// Both areas with these bytes, all of which are kept.
    pub(crate) fn settled(alloc: Global, a: Vec<u8>, b: Vec<u8>) -> Result<MemMoment, Memory>
        ensures { IfOk result
            (λ m. moment_of m ≡ record { a = settled_store a.items; b = settled_store b.items }) }
    {
        Ok(MemMoment {
            a: MemStore::settled(alloc, a)?,
            b: MemStore::settled(alloc, b)?,
        })
    }

    /// One of the areas.
    pub(crate) fn store(&self, area: Area) -> &MemStore
        ensures { store_of result.now ≡ store area (moment_of self.now) }
    {
        match area {
            Area::A => &self.a,
            Area::B => &self.b,
        }
    }

    /// The moment with another content of an area.
    pub(crate) fn with(
        &self,
        alloc: Global,
        area: Area,
        next: MemStore,
    ) -> Result<MemMoment, Memory>
        ensures { IfOk result
            (λ m. moment_of m ≡ with_store area (store_of next) (moment_of self.now)) }
    {
        match area {
            Area::A => Ok(MemMoment {
                a: next,
                b: self.b.copy(alloc)?,
            }),
            Area::B => Ok(MemMoment {
                a: self.a.copy(alloc)?,
                b: next,
            }),
        }
    }

    /// A copy of each of these moments.
    pub(crate) fn copy_all(alloc: Global, moments: &[MemMoment]) -> Result<Vec<MemMoment>, Memory>
        ensures { IfOk result (λ copies. map moment_of copies.items ≡ map moment_of moments.now) }
    {
        let mut copies = Vec::new(alloc);
        for moment in moments {
            copies.push(moment.copy(alloc)?)?;
        }
        Ok(copies)
    }

    /// A copy.
    pub(crate) fn copy(&self, alloc: Global) -> Result<MemMoment, Memory>
        ensures { IfOk result (λ m. moment_of m ≡ moment_of self.now) }
    {
        Ok(MemMoment {
            a: self.a.copy(alloc)?,
            b: self.b.copy(alloc)?,
        })
    }
}

// The bytes with others in their place from a place on.
fn overwritten(alloc: Global, old: &[u8], at: usize, bytes: &[u8]) -> Result<Vec<u8>, Memory>
    requires { at ≤ length old.now }
    ensures { IfOk result
        (λ new. new.items ≡ area_with (record { at = at; bytes = bytes.now }) old.now) }
{
    let mut next = Vec::from_slice(alloc, &old[..at])?;
    next.extend_from_slice(bytes)?;
    if bytes.len() < old.len() - at {
        next.extend_from_slice(&old[at + bytes.len()..])?;
    }
    Ok(next)
}

// Bytes that a crash could leave of these after writes, of which the last stands first, with what is left of the
// choice.
fn left_after(
    alloc: Global,
    kept: &[u8],
    writes: &[MemWrite],
    choice: u64,
) -> Result<(Vec<u8>, u64), Memory>
    ensures { IfOk result (λ left. IsLeftAfter kept.now (map write_of writes.now) left.0.items) }
{
    let Some((write, earlier)) = writes.split_first() else {
        return Ok((Vec::from_slice(alloc, kept)?, choice));
    };
    // With a byte or none a write is there or isn't. With n bytes the first 0 to n are there, and of the others
    // either none or spoiled ones.
    let n = write.bytes.len();
    let ways = (if n < 2 { n + 1 } else { n.saturating_mul(2) }) as u64;
    let way = (choice % ways) as usize;
    let (old, rest) = left_after(alloc, kept, earlier, choice / ways)?;
    Ok((landed(alloc, &old, write, way)?, rest))
}

// Bytes that a crash could leave of these after a write. The way says how many bytes of the write are there, and
// whether the others are spoiled.
fn landed(alloc: Global, old: &[u8], write: &MemWrite, way: usize) -> Result<Vec<u8>, Memory>
    ensures { IfOk result (λ new. Lands (write_of write.now) old.now new.items) }
{
    if way == 0 || old.len() < write.at as usize {
        return Ok(Vec::from_slice(alloc, old)?);
    }
    let made = torn(alloc, &write.bytes, way)?;
    Ok(overwritten(alloc, old, write.at as usize, &made)?)
}

// The bytes of a write that is torn, if it has two or more.
fn torn(alloc: Global, bytes: &[u8], way: usize) -> Result<Vec<u8>, Memory>
    ensures few { IfOk result (λ made. length made.items ≤ length bytes.now) }
    ensures whole { IfOk result (λ made. length bytes.now ≡ 1 → made.items ≡ bytes.now) }
{
    let n = bytes.len();
    if n < 2 {
        return Ok(Vec::from_slice(alloc, bytes)?);
    }
    if way <= n {
        return Ok(Vec::from_slice(alloc, &bytes[..way])?);
    }
    let mut made = Vec::from_slice(alloc, &bytes[..n.min(way - n)])?;
    made.resize(n, SPOILED)?;
    Ok(made)
}
