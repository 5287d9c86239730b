//! The stages of an item as bits: one for each of its runs.
ghost use Rattle.std.specs.Prelude.{◌≡◌, ◌≤◌, ◌-◌, ◌^◌, min};
ghost use Rattle.eql_stages.specs.Gathering.{union};

use eql_values::Mask;

/// No stage.
pub(crate) const NO_STAGE: Mask = Mask { low: 0, high: 0 };

/// The lowest bits of a half, as many as the number.
fn lowest(count: u32) -> u128
    requires { count ≤ 128 }
    ensures { result ≡ 2 ^ count - 1 }
{
    if count < 128 {
        (1 << count) - 1
    } else {
        u128::MAX
    }
}

/// The bits of a half from one place on and below another.
fn between(from: u32, to: u32) -> u128
    requires ordered { from ≤ to }
    requires within { to ≤ 128 }
    ensures { result ≡ 2 ^ to - 2 ^ from }
{
    lowest(to) - lowest(from)
}

/// The stages after the first `from`, up to the stage `to`.
pub(crate) fn stages_between(from: u32, to: u32) -> Mask
    requires ordered { from ≤ to }
    requires within { to ≤ 256 }
    ensures low { result.low ≡ 2 ^ min to 128 - 2 ^ min from 128 }
    ensures high { result.high ≡ 2 ^ (to - 128) - 2 ^ (from - 128) }
{
    Mask {
        low: between(from.min(128), to.min(128)),
        high: between(from.saturating_sub(128), to.saturating_sub(128)),
    }
}

/// The stages of both.
pub(crate) fn union(a: &Mask, b: &Mask) -> Mask
    ensures { result ≡ union a.now b.now }
{
    Mask {
        low: a.low | b.low,
        high: a.high | b.high,
    }
}
