//! Where a walk over a line stands.
ghost use Rattle.std.specs.Prelude.{◌≡◌, ℕ, length, option_and_then, None, IfSome, OnOk};
ghost use Rattle.eql_lines.specs.Reach.{Scalar, behind, at_end};
ghost use Rattle.eql_lines.specs.Found.{one, found_by};
ghost use Rattle.eql_lines.specs.Paths.{path_at, Gains};
ghost use Rattle.eql_lines.specs.Steps.{active_at, rest_on, IsTable, IsOpen};

use crate::paths::Paths;
use crate::places::Places;
use crate::slots::{Seen, Slot};
use crate::steps::Table;
use std::alloc::AllocError;

/// The stop of the whole line.
pub(crate) const WHOLE: u32 = 0;

/// The wanted paths, and where a walk along them can stand.
#[derive(Drop)]
pub(crate) struct Stops {
    pub(crate) paths: Paths,
    table: Table,
    ghost steps: { IsTable paths.paths.items table },
    ghost opened: { (n : ℕ) → IsOpen paths.paths.items table n },
    ghost whole: { (i : ℕ) → rest_on paths.paths.items table 0 i ≡ path_at paths.paths.items i },
}

impl Stops {
    /// These paths, with their table.
    pub(crate) fn of(paths: Paths, table: Table) -> Stops
        requires steps { IsTable paths.paths.items table }
        requires opened { (n : ℕ) → IsOpen paths.paths.items table n }
        requires whole { (i : ℕ)
            → rest_on paths.paths.items table 0 i ≡ path_at paths.paths.items i }
        ensures { result.paths ≡ paths }
    {
        Stops { paths, table }
    }

    /// The paths that a value at a stop may add to.
    #[inline(always)]
    pub(crate) fn places(&self, stop: u32) -> Places
        ensures { result ≡ (active_at self.now.table.stops.items stop).places }
    {
        self.table.active(stop).places
    }

    /// Where the value of a member of this name stands, if a path goes on there.
    #[inline(always)]
    pub(crate) fn under(&self, stop: u32, name: &str) -> Option<u32>
        ensures none { result ≡ None → (i : ℕ)
            → option_and_then (behind name.now)
            (rest_on self.now.paths.paths.items self.now.table stop i) ≡ None }
        ensures some { IfSome result (λ inner. (i : ℕ)
            → rest_on self.now.paths.paths.items self.now.table inner i
            ≡ option_and_then (behind name.now)
            (rest_on self.now.paths.paths.items self.now.table stop i)) }
    {
        self.table.step(stop, name.as_bytes())
    }

    /// Adds a scalar to the slots of the paths that end at a stop.
    pub(crate) fn add(
        &self,
        slots: &mut Vec<Slot>,
        stop: u32,
        seen: Seen,
        text: &str,
    ) -> Result<(), AllocError>
        requires { length slots.old.items ≡ length self.now.paths.paths.items }
        ensures gains { OnOk result ((s : Scalar) → found_by seen text.now ≡ one s
            → Gains self.now.paths.paths.items (active_at self.now.table.stops.items stop)
            (λ path. at_end path s) slots.old.items slots.new.items) }
        ensures length { length slots.new.items ≡ length slots.old.items }
    {
        self.paths.add(slots, self.table.active(stop), seen, text)
    }
}
