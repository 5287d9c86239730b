//! Values of fields, keys and routes.
ghost use Rattle.std.specs.Prelude.{◌≡◌, ◌++◌, OnOk, length};
ghost use Rattle.std.specs.Int.{w32, from_be_bytes};
ghost use Rattle.eql_cut.specs.Reading.{Reads};
ghost use Rattle.eql_cut.specs.Values.{octets, mapped, address};

use crate::coded::Coded;
use crate::lists::{read_list, write_list};
use crate::reader::{CutRefused, Reader, Version};
use eql_values::{Key, Mask, Text, Value};
use std::alloc::{AllocError, Global};

/// Ten bytes of 0 and two of 255, in two numbers.
const IN_FRONT: (u64, u32) = (0, 0xFFFF_0000);

fn write_address(ip: u32, to: &mut Vec<u8>) -> Result<(), AllocError>
    ensures text { OnOk result (to.new.items ≡ to.old.items ++ mapped.text ip) }
    ensures fits { OnOk result (mapped.Fits ip) }
{
    IN_FRONT.0.write(to)?;
    IN_FRONT.1.write(to)?;
    write_octets(ip, to)
}

#[tactic(auto, unfolding(crate::specs::Values::octets_text))]
fn write_octets(ip: u32, to: &mut Vec<u8>) -> Result<(), AllocError>
    ensures { OnOk result (to.new.items ≡ to.old.items ++ octets.text ip) }
{
    to.extend_from_slice(&ip.to_be_bytes())
}

fn octets_of(bytes: &[u8]) -> u32
    requires { length bytes.now ≡ 4 }
    ensures { result ≡ from_be_bytes w32 bytes.now }
{
    u32::from_be_bytes([bytes[0], bytes[1], bytes[2], bytes[3]])
}

#[tactic(auto, unfolding(crate::specs::Values::octets_read))]
fn read_octets(from: &mut Reader) -> Result<u32, CutRefused>
    ensures { Reads octets result from.old.left.now from.new.left.now }
{
    let at = from.place();
    match from.take(4) {
        Some(bytes) => Ok(octets_of(bytes)),
        None => Err(CutRefused::Damaged { at }),
    }
}

fn read_mapped(from: &mut Reader, alloc: Global, of: Version) -> Result<u32, CutRefused>
    ensures { Reads mapped result from.old.left.now from.new.left.now }
{
    let at = from.place();
    let zeros = u64::read(from, alloc, of)?;
    let ones = u32::read(from, alloc, of)?;
    if (zeros, ones) == IN_FRONT {
        read_octets(from)
    } else {
        Err(CutRefused::Damaged { at })
    }
}

fn read_address(from: &mut Reader, alloc: Global, of: Version) -> Result<u32, CutRefused>
    ensures { Reads (address of) result from.old.left.now from.new.left.now }
{
    match of {
        Version::One | Version::Two | Version::Three => u32::read(from, alloc, of),
        Version::Four => read_mapped(from, alloc, of),
    }
}

impl Coded for Value {
    ghost use Rattle.eql_cut.specs.Values.{field};

    ghost format = { field };

    ghost ordered = { λ x. Unit {0} };

    fn write(&self, to: &mut Vec<u8>) -> Result<(), AllocError> {
        match self {
            Value::Null => to.extend_from_slice(&[0]),
            Value::Bool(b) => {
                to.extend_from_slice(&[1])?;
                b.write(to)
            }
            Value::Long(n) => {
                to.extend_from_slice(&[2])?;
                n.write(to)
            }
            Value::Text(t) => {
                to.extend_from_slice(&[3])?;
                t.write(to)
            }
            Value::Ip(ip) => {
                to.extend_from_slice(&[4])?;
                write_address(*ip, to)
            }
        }
    }

    fn read(from: &mut Reader, alloc: Global, of: Version) -> Result<Value, CutRefused> {
        let at = from.place();
        match from.take(1) {
            Some([0]) => Ok(Value::Null),
            Some([1]) => Ok(Value::Bool(bool::read(from, alloc, of)?)),
            Some([2]) => Ok(Value::Long(i64::read(from, alloc, of)?)),
            Some([3]) => Ok(Value::Text(Text::read(from, alloc, of)?)),
            Some([4]) => Ok(Value::Ip(read_address(from, alloc, of)?)),
            _ => Err(CutRefused::Damaged { at }),
        }
    }
}

impl Coded for Key {
    ghost use Rattle.eql_cut.specs.Formats.{list};
    ghost use Rattle.eql_cut.specs.Values.{field};

    ghost format = { λ v. list (field v) };

    ghost ordered = { λ x. Unit {0} };

    fn write(&self, to: &mut Vec<u8>) -> Result<(), AllocError> {
        write_list(self.items(), to)
    }

    fn read(from: &mut Reader, alloc: Global, of: Version) -> Result<Key, CutRefused> {
        Ok(Key::of(read_list(from, alloc, of)?))
    }
}

impl Coded for Mask {
    ghost use Rattle.eql_cut.specs.Values.{mask};

    ghost format = { mask };

    ghost ordered = { λ x. Unit {0} };

    fn write(&self, to: &mut Vec<u8>) -> Result<(), AllocError> {
        self.low.write(to)?;
        self.high.write(to)
    }

    fn read(from: &mut Reader, alloc: Global, of: Version) -> Result<Mask, CutRefused> {
        match of {
            Version::One | Version::Two => Ok(Mask {
                low: u128::read(from, alloc, of)?,
                high: 0,
            }),
            Version::Three | Version::Four => Ok(Mask {
                low: u128::read(from, alloc, of)?,
                high: u128::read(from, alloc, of)?,
            }),
        }
    }
}
