//! What is kept of the output.
ghost use Rattle.std.specs.Prelude.{◌≡◌, All};
ghost use Rattle.eql_cut.specs.CutValues.{IsOrderedState};

use crate::coded::Coded;
use crate::lists::{read_list, write_list};
use crate::reader::{CutRefused, Reader, Version};
use eql_values::{BookCut, Numbereds, PipeState, PipeStates};
use std::alloc::{AllocError, Global};

impl Coded for PipeState {
    ghost use Rattle.eql_cut.specs.CutValues.{pipe_state};

    ghost format = { pipe_state };

    ghost ordered = { IsOrderedState };

    fn write(&self, to: &mut Vec<u8>) -> Result<(), AllocError> {
        match self {
            PipeState::Head { passed } => {
                to.extend_from_slice(&[0])?;
                passed.write(to)
            }
            PipeState::Tail { kept } => {
                to.extend_from_slice(&[1])?;
                kept.write(to)
            }
        }
    }

    fn read(from: &mut Reader, alloc: Global, of: Version) -> Result<PipeState, CutRefused> {
        let at = from.place();
        match from.take(1) {
            Some([0]) => Ok(PipeState::Head {
                passed: u32::read(from, alloc, of)?,
            }),
            Some([1]) => Ok(PipeState::Tail {
                kept: Numbereds::read(from, alloc, of)?,
            }),
            _ => Err(CutRefused::Damaged { at }),
        }
    }
}

impl Coded for PipeStates {
    ghost use Rattle.eql_cut.specs.Formats.{list};
    ghost use Rattle.eql_cut.specs.CutValues.{pipe_state};

    ghost format = { λ v. list (pipe_state v) };

    ghost ordered = { λ ps. All IsOrderedState ps };

    fn write(&self, to: &mut Vec<u8>) -> Result<(), AllocError> {
        write_list(self.items(), to)
    }

    fn read(from: &mut Reader, alloc: Global, of: Version) -> Result<PipeStates, CutRefused> {
        Ok(PipeStates::of(read_list(from, alloc, of)?))
    }
}

impl Coded for BookCut {
    ghost use Rattle.eql_cut.specs.CutValues.{book};

    ghost format = { book };

    ghost ordered = { λ b. All IsOrderedState b.pipes };

    fn write(&self, to: &mut Vec<u8>) -> Result<(), AllocError> {
        self.found.write(to)?;
        self.listed.write(to)?;
        self.pipes.write(to)
    }

    fn read(from: &mut Reader, alloc: Global, of: Version) -> Result<BookCut, CutRefused> {
        Ok(BookCut {
            found: u64::read(from, alloc, of)?,
            listed: u64::read(from, alloc, of)?,
            pipes: PipeStates::read(from, alloc, of)?,
        })
    }
}
