//! The stages of a mask, from the last to the first, found by their bits alone.
ghost use Rattle.std.specs.Prelude.{◌≡◌, ℕ, ◌<◌, ◌≤◌, ◌^◌, ◌==◌};
ghost use Rattle.std.specs.Int.{bit_at};
ghost use Rattle.eql_values.specs.Masks.{has_after};
ghost use Rattle.eql_auto.specs.Movers.{IsLastBelow};

use eql_values::Mask;

/// The bits of a half of a mask below a place.
fn bits_below(half: u128, place: u32) -> u128
    requires { place ≤ 128 }
    ensures bits { (j : ℕ) → j < place → bit_at result j ≡ bit_at half j }
    ensures small { result < 2 ^ place }
{
    if place < 128 {
        half % (1 << place)
    } else {
        half
    }
}

/// The last bit of a half of a mask that is set below a place.
fn last_bit(half: u128, below: u32) -> Option<u32>
    requires { below ≤ 128 }
    ensures { IsLastBelow (λ j. bit_at half j == 1) 0 below result }
{
    bits_below(half, below).checked_ilog2()
}

/// The last slot below a number, from 1, whose sequence an event with this mask moves on: the mask has the stage after it.
pub(crate) fn last_mover(mask: &Mask, below: u32) -> Option<u32>
    requires { below ≤ 256 }
    ensures { IsLastBelow (λ j. has_after j mask.now) 1 below result }
{
    if below > 128 {
        if let Some(bit) = last_bit(mask.high, below - 128) {
            return Some(bit + 128);
        }
    }
    match last_bit(mask.low, below.min(128)) {
        Some(bit) if bit > 0 => Some(bit),
        _ => None,
    }
}
