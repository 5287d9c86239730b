//! Which of the sixteen parts a key belongs to.
ghost use Rattle.std.specs.Prelude.{◌≡◌, ◌<◌};
ghost use Rattle.eql_parts.specs.Spreading.{part_number};

use eql_part::hash_of;
use eql_values::Key;

/// The part of a key, from 0 to 15, by a hash of its values. Keys of few values alike fall into all parts about evenly. It
/// takes no memory.
pub fn part_of(key: &Key) -> u32
    ensures range { result < 16 }
    ensures number { result ≡ part_number key.now }
{
    (hash_of(key) >> 60) as u32
}
