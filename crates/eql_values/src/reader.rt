//! How the lines of shards become events.
ghost use Rattle.std.specs.Prelude.{◌≡◌, ◌<◌, ℕ, List, IfOk, length};
ghost use Rattle.eql_values.specs.declared.reader.LineGot.{LineGot as Got};
ghost use Rattle.eql_values.specs.declared.item.Item.{Item as Event};
ghost use Rattle.eql_values.specs.Reading.{IsReadAt, too_long};

use crate::cut::Reason;
use crate::item::Item;
use crate::memory::Memory;
use std::alloc::Global;

/// What a line gives.
#[derive(Drop)]
pub enum LineGot {
    /// It has nothing but spaces, tabs and carriage returns.
    Blank,
    /// It is an event, whose place is still 0.
    Item(Item),
    /// It is rejected.
    Bad(Reason),
}

/// A reader of lines.
pub trait LineReader {
    /// What a line gives, by its shard (from 0), its number (from 1) and its bytes without the
    /// line feed.
    ghost read_of: { Self → ℕ → ℕ → List ℕ → Got };

    /// Reads a line, given by its shard (from 0), its number (from 1) and its bytes without the
    /// line feed.
    /// The reader may change, but not in what it reads.
    fn read(
        &mut self,
        alloc: Global,
        shard: u32,
        line: u32,
        bytes: &[u8],
    ) -> Result<LineGot, Memory>
        ensures got { IfOk result (λ got. got ≡ read_of self.old shard line bytes.now) }
        ensures stays { read_of self.new ≡ read_of self.old };

    // An event has the shard and the line that it was read at, the place 0, a timestamp in
    // nanoseconds since the epoch that whole milliseconds of 64 signed bits can say, and routes in
    // order.
    ghost reads_at: { (reader : Self) (shard line : ℕ) (bytes : List ℕ) (event : Event)
        → read_of reader shard line bytes ≡ Got.Item event → IsReadAt shard line event };

    // A line of more than 1,048,576 bytes is blank, or too long.
    ghost reads_long: { (reader : Self) (shard line : ℕ) (bytes : List ℕ) → 1048576 < length bytes
        → read_of reader shard line bytes ≡ too_long bytes };
}
