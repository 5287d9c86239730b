//! Numbers of fixed width, and truth values.
ghost use Rattle.std.specs.Prelude.{◌≡◌, ◌<◌, ◌^◌, length, OnOk, IfSome};
ghost use Rattle.std.specs.Int.{w32, w64, from_le_bytes};

use crate::coded::Coded;
use crate::reader::{CutRefused, Reader, Version};
use std::alloc::{AllocError, Global};

fn number8(bytes: &[u8]) -> u64
    requires { length bytes.now ≡ 8 }
    ensures { result ≡ from_le_bytes w64 bytes.now }
{
    u64::from_le_bytes([
        bytes[0], bytes[1], bytes[2], bytes[3], bytes[4], bytes[5], bytes[6], bytes[7],
    ])
}

fn number4(bytes: &[u8]) -> u32
    requires { length bytes.now ≡ 4 }
    ensures { result ≡ from_le_bytes w32 bytes.now }
{
    u32::from_le_bytes([bytes[0], bytes[1], bytes[2], bytes[3]])
}

impl Coded for u64 {
    ghost use Rattle.std.specs.Int.{w64};
    ghost use Rattle.eql_cut.specs.Formats.{number};

    ghost format = { λ v. number w64 };

    ghost ordered = { λ x. Unit {0} };

    #[tactic(auto, unfolding(crate::specs::Formats::number_text))]
    fn write(&self, to: &mut Vec<u8>) -> Result<(), AllocError> {
        to.extend_from_slice(&self.to_le_bytes())
    }

    #[tactic(auto, unfolding(crate::specs::Formats::number_read))]
    fn read(from: &mut Reader, _alloc: Global, _of: Version) -> Result<u64, CutRefused> {
        let at = from.place();
        match from.take(8) {
            Some(bytes) => Ok(number8(bytes)),
            None => Err(CutRefused::Damaged { at }),
        }
    }
}

impl Coded for u32 {
    ghost use Rattle.std.specs.Int.{w32};
    ghost use Rattle.eql_cut.specs.Formats.{number};

    ghost format = { λ v. number w32 };

    ghost ordered = { λ x. Unit {0} };

    #[tactic(auto, unfolding(crate::specs::Formats::number_text))]
    fn write(&self, to: &mut Vec<u8>) -> Result<(), AllocError> {
        to.extend_from_slice(&self.to_le_bytes())
    }

    #[tactic(auto, unfolding(crate::specs::Formats::number_read))]
    fn read(from: &mut Reader, _alloc: Global, _of: Version) -> Result<u32, CutRefused> {
        let at = from.place();
        match from.take(4) {
            Some(bytes) => Ok(number4(bytes)),
            None => Err(CutRefused::Damaged { at }),
        }
    }
}

impl Coded for u8 {
    ghost use Rattle.eql_cut.specs.Formats.{byte};

    ghost format = { λ v. byte };

    ghost ordered = { λ x. Unit {0} };

    fn write(&self, to: &mut Vec<u8>) -> Result<(), AllocError> {
        to.extend_from_slice(&[*self])
    }

    fn read(from: &mut Reader, _alloc: Global, _of: Version) -> Result<u8, CutRefused> {
        let at = from.place();
        match from.take(1) {
            Some([b]) => Ok(*b),
            _ => Err(CutRefused::Damaged { at }),
        }
    }
}

impl Coded for bool {
    ghost use Rattle.eql_cut.specs.Formats.{truth};

    ghost format = { λ v. truth };

    ghost ordered = { λ x. Unit {0} };

    fn write(&self, to: &mut Vec<u8>) -> Result<(), AllocError> {
        to.extend_from_slice(&[if *self { 1 } else { 0 }])
    }

    fn read(from: &mut Reader, _alloc: Global, _of: Version) -> Result<bool, CutRefused> {
        let at = from.place();
        match from.take(1) {
            Some([0]) => Ok(false),
            Some([1]) => Ok(true),
            _ => Err(CutRefused::Damaged { at }),
        }
    }
}

impl<T: Coded + Drop> Coded for Option<T> {
    ghost use Rattle.eql_cut.specs.Formats.{option};

    ghost format = { λ v. option (T.format v) };

    ghost ordered = { λ o. IfSome o T.ordered };

    fn write(&self, to: &mut Vec<u8>) -> Result<(), AllocError> {
        match self {
            None => to.extend_from_slice(&[0]),
            Some(value) => {
                to.extend_from_slice(&[1])?;
                value.write(to)
            }
        }
    }

    fn read(from: &mut Reader, alloc: Global, of: Version) -> Result<Option<T>, CutRefused> {
        let at = from.place();
        match from.take(1) {
            Some([0]) => Ok(None),
            Some([1]) => Ok(Some(T::read(from, alloc, of)?)),
            _ => Err(CutRefused::Damaged { at }),
        }
    }
}

impl Coded for i64 {
    ghost use Rattle.eql_cut.specs.Values.{signed_8};

    ghost format = { λ v. signed_8 };

    ghost ordered = { λ x. Unit {0} };

    fn write(&self, to: &mut Vec<u8>) -> Result<(), AllocError> {
        self.cast_unsigned().write(to)
    }

    fn read(from: &mut Reader, alloc: Global, of: Version) -> Result<i64, CutRefused> {
        Ok(u64::read(from, alloc, of)?.cast_signed())
    }
}

impl Coded for u128 {
    ghost use Rattle.eql_cut.specs.Values.{sixteen};

    ghost format = { λ v. sixteen };

    ghost ordered = { λ x. Unit {0} };

    fn write(&self, to: &mut Vec<u8>) -> Result<(), AllocError> {
        ((*self % 18446744073709551616) as u64).write(to)?;
        ((*self / 18446744073709551616) as u64).write(to)
    }

    fn read(from: &mut Reader, alloc: Global, of: Version) -> Result<u128, CutRefused> {
        let low = u64::read(from, alloc, of)?;
        let high = u64::read(from, alloc, of)?;
        Ok((high as u128) * 18446744073709551616 + (low as u128))
    }
}

impl Coded for i128 {
    ghost use Rattle.eql_cut.specs.Values.{signed_16};

    ghost format = { λ v. signed_16 };

    ghost ordered = { λ x. Unit {0} };

    fn write(&self, to: &mut Vec<u8>) -> Result<(), AllocError> {
        self.cast_unsigned().write(to)
    }

    fn read(from: &mut Reader, alloc: Global, of: Version) -> Result<i128, CutRefused> {
        Ok(u128::read(from, alloc, of)?.cast_signed())
    }
}
