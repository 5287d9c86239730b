//! Places of events in the order.
ghost use Rattle.std.specs.Prelude.{◌≡◌};
ghost use Rattle.eql_cut.specs.Reading.{Reads};
ghost use Rattle.eql_cut.specs.Values.{order_with_place, order_without};

use crate::coded::Coded;
use crate::reader::{CutRefused, Reader, Version};
use eql_values::OrderKey;
use std::alloc::{AllocError, Global};

impl Coded for OrderKey {
    ghost use Rattle.eql_cut.specs.Values.{order};

    ghost format = { order };

    ghost ordered = { λ x. Unit {0} };

    fn write(&self, to: &mut Vec<u8>) -> Result<(), AllocError> {
        self.ts.write(to)?;
        self.tie.write(to)?;
        self.shard.write(to)?;
        self.line.write(to)?;
        self.at.write(to)
    }

    fn read(from: &mut Reader, alloc: Global, of: Version) -> Result<OrderKey, CutRefused> {
        match of {
            Version::One => without_place(from, alloc, of),
            Version::Two | Version::Three | Version::Four => with_place(from, alloc, of),
        }
    }
}

fn without_place(from: &mut Reader, alloc: Global, of: Version) -> Result<OrderKey, CutRefused>
    ensures { Reads order_without result from.old.left.now from.new.left.now }
{
    Ok(OrderKey {
        ts: i128::read(from, alloc, of)?,
        tie: Option::read(from, alloc, of)?,
        shard: u32::read(from, alloc, of)?,
        line: u32::read(from, alloc, of)?,
        at: 0,
    })
}

fn with_place(from: &mut Reader, alloc: Global, of: Version) -> Result<OrderKey, CutRefused>
    ensures { Reads order_with_place result from.old.left.now from.new.left.now }
{
    Ok(OrderKey {
        ts: i128::read(from, alloc, of)?,
        tie: Option::read(from, alloc, of)?,
        shard: u32::read(from, alloc, of)?,
        line: u32::read(from, alloc, of)?,
        at: u64::read(from, alloc, of)?,
    })
}
