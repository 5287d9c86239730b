//! Where the last cut stands.
ghost use Rattle.std.specs.Prelude.{◌≡◌, ◌≤◌, ◌<◌, ◌^◌};
ghost use Rattle.eql_ckdisk.specs.Found.{next, next_area};

use eql_outside::Area;

/// The greatest generation that is given.
pub(crate) const GREATEST: u64 = 1 << 63;

/// The area and the generation of the last cut. Generations count from 1, and with 0 there is no cut.
#[derive(Clone, Copy, Debug, PartialEq, Eq)]
pub struct CkState {
    area: Area,
    generation: u64,
    ghost given: { generation ≤ 2 ^ 63 },
}

impl CkState {
    ghost use Rattle.eql_ckdisk.specs.Putting.{last_cut};

    /// A state of this area and this generation.
    pub(crate) fn of(area: Area, generation: u64) -> CkState
        requires { generation ≤ 2 ^ 63 }
        ensures { last_cut result ≡ record { area = area; generation = generation } }
    {
        CkState { area, generation }
    }

    /// The area of the last cut.
    pub fn area(self) -> Area
        ensures { result ≡ (last_cut self).area }
    {
        self.area
    }

    /// The generation of the last cut, or 0 where there is none.
    pub fn generation(self) -> u64
        ensures is { result ≡ (last_cut self).generation }
        ensures given { result ≤ 2 ^ 63 }
    {
        self.generation
    }

    /// The area to which the next cut goes.
    pub(crate) fn next_area(self) -> Area
        ensures { result ≡ next_area (last_cut self) }
    {
        if self.generation == 0 {
            return Area::A;
        }
        match self.area {
            Area::A => Area::B,
            Area::B => Area::A,
        }
    }

    /// The state once the next cut stands.
    pub(crate) fn next(self) -> CkState
        requires { (last_cut self).generation < 2 ^ 63 }
        ensures { last_cut result ≡ next (last_cut self) }
    {
        CkState::of(self.next_area(), self.generation + 1)
    }
}
