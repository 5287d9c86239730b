//! What became of a shard's lines.
ghost use Rattle.std.specs.Prelude.{◌≡◌};

use crate::coded::Coded;
use crate::reader::{CutRefused, Reader, Version};
use eql_values::{Counts, FirstBad, Reason};
use std::alloc::{AllocError, Global};

impl Coded for Reason {
    ghost use Rattle.eql_cut.specs.Values.{why};

    ghost format = { λ v. why };

    ghost ordered = { λ x. Unit {0} };

    fn write(&self, to: &mut Vec<u8>) -> Result<(), AllocError> {
        let place = match self {
            Reason::Long => 0,
            Reason::NotJson => 1,
            Reason::NotObject => 2,
            Reason::NoTime => 3,
            Reason::BadTime => 4,
            Reason::Kind => 5,
            Reason::Fraction => 6,
            Reason::Range => 7,
        };
        to.extend_from_slice(&[place])
    }

    fn read(from: &mut Reader, _alloc: Global, _of: Version) -> Result<Reason, CutRefused> {
        let at = from.place();
        match from.take(1) {
            Some([0]) => Ok(Reason::Long),
            Some([1]) => Ok(Reason::NotJson),
            Some([2]) => Ok(Reason::NotObject),
            Some([3]) => Ok(Reason::NoTime),
            Some([4]) => Ok(Reason::BadTime),
            Some([5]) => Ok(Reason::Kind),
            Some([6]) => Ok(Reason::Fraction),
            Some([7]) => Ok(Reason::Range),
            _ => Err(CutRefused::Damaged { at }),
        }
    }
}

impl Coded for FirstBad {
    ghost use Rattle.eql_cut.specs.Values.{first_bad};

    ghost format = { λ v. first_bad };

    ghost ordered = { λ x. Unit {0} };

    fn write(&self, to: &mut Vec<u8>) -> Result<(), AllocError> {
        self.line.write(to)?;
        self.reason.write(to)
    }

    fn read(from: &mut Reader, alloc: Global, of: Version) -> Result<FirstBad, CutRefused> {
        Ok(FirstBad {
            line: u32::read(from, alloc, of)?,
            reason: Reason::read(from, alloc, of)?,
        })
    }
}

impl Coded for Counts {
    ghost use Rattle.eql_cut.specs.Values.{counts};

    ghost format = { λ v. counts };

    ghost ordered = { λ x. Unit {0} };

    fn write(&self, to: &mut Vec<u8>) -> Result<(), AllocError> {
        self.lines.write(to)?;
        self.accepted.write(to)?;
        self.late.write(to)?;
        self.rejected.write(to)?;
        self.first.write(to)
    }

    fn read(from: &mut Reader, alloc: Global, of: Version) -> Result<Counts, CutRefused> {
        Ok(Counts {
            lines: u32::read(from, alloc, of)?,
            accepted: u32::read(from, alloc, of)?,
            late: u32::read(from, alloc, of)?,
            rejected: u32::read(from, alloc, of)?,
            first: Option::read(from, alloc, of)?,
        })
    }
}
