//! The steps that a walk can take along the wanted paths, worked out before the first line.
ghost use Rattle.std.specs.Prelude.{◌≡◌, ◌≢◌, ◌≤◌, ◌<◌, ◌++◌, ◌∷◌, [], ℕ, length, get_or, true, is_some, IfOk, OnOk, IfSome};
ghost use Rattle.eql_lines.specs.Paths.{path_at};
ghost use Rattle.eql_lines.specs.Steps.{active_at, rest_on, row_at, row_number, step_in, step_by, IsTable, IsGrown, IsOpen, Leads};

use crate::paths::{Active, Paths, leads};
use crate::places::Places;
use std::alloc::{AllocError, Global};

/// The most stops of a table.
const MOST_STOPS: usize = 4096;

/// How many rows a table has.
const ROWS: usize = 256;

/// A step from one stop to another, by a name.
#[derive(Drop)]
pub(crate) struct Step {
    from: u32,
    name: Vec<u8>,
    to: u32,
}

/// The stops of a walk, each by how far it has come along the paths, and the steps between them,
/// in rows by the stop and the name. The first stop is the whole line.
#[derive(Drop)]
pub(crate) struct Table {
    stops: Vec<Active>,
    rows: Vec<Vec<Step>>,
}

/// Why there is no table.
#[derive(Clone, Copy, Drop)]
pub(crate) enum NoTable {
    /// It would have too many stops.
    Long,
    /// Out of memory.
    Memory,
}

impl From<AllocError> for NoTable {
    ghost use Rattle.eql_lines.specs.declared.steps.NoTable.TheVariants.{Memory};
    ghost use Rattle.std.specs.Prelude.{◌≡◌};

    ghost from_gives = { λ _ e. e ≡ Memory };

    fn from(_refused: AllocError) -> NoTable {
        NoTable::Memory
    }
}

/// The first byte, or 0.
#[inline(always)]
fn first_byte(name: &[u8]) -> usize
    ensures { (result ≡ get_or name.now 0 0) × (result < 256) }
{
    if name.is_empty() { 0 } else { name[0] as usize }
}

/// The row of the step from a stop by a name.
#[inline(always)]
fn row_number(stop: u32, name: &[u8]) -> usize
    ensures { (result ≡ row_number stop name.now) × (result < 256) }
{
    (stop as usize * 16 + first_byte(name) + name.len()) % ROWS
}

/// Where the step from a stop by a name leads, if the row has it.
#[inline(always)]
fn step_in(row: &[Step], from: u32, name: &[u8]) -> Option<u32>
    ensures { result ≡ step_in row.now from name.now }
{
    for step in row {
        if step.from == from && step.name.as_slice() == name {
            return Some(step.to);
        }
    }
    None
}

/// Rows without steps.
fn empty_rows(alloc: Global) -> Result<Vec<Vec<Step>>, AllocError>
    ensures length { IfOk result (λ rows. length rows.items ≡ 256) }
    ensures empty { IfOk result (λ rows. (j : ℕ) → row_at rows.items j ≡ []) }
{
    let mut rows = Vec::new(alloc);
    for _row in 0..ROWS {
        rows.push(Vec::new(alloc))?;
    }
    Ok(rows)
}

/// Puts a step into a row.
fn put(rows: &mut Vec<Vec<Step>>, place: usize, step: Step) -> Result<(), AllocError>
    requires { place < length rows.old.items }
    ensures here { OnOk result (row_at rows.new.items place
        ≡ row_at rows.old.items place ++ step ∷ []) }
    ensures others { OnOk result ((j : ℕ) → j ≢ place
        → row_at rows.new.items j ≡ row_at rows.old.items j) }
    ensures length { OnOk result (length rows.new.items ≡ length rows.old.items) }
{
    rows[place].push(step)?;
    Ok(())
}

impl Table {
    /// How far a stop has come along the paths.
    #[inline(always)]
    pub(crate) fn active(&self, stop: u32) -> Active
        ensures { result ≡ active_at self.now.stops.items stop }
    {
        match self.stops.get(stop as usize) {
            Some(active) => *active,
            None => Active {
                places: Places::none(),
                at: 0,
            },
        }
    }

    /// Where the step from a stop by a name leads, if there is one.
    #[inline(always)]
    pub(crate) fn step(&self, from: u32, name: &[u8]) -> Option<u32>
        ensures { result ≡ step_by self.now from name.now }
    {
        let row = self.rows.get(row_number(from, name))?;
        step_in(row, from, name)
    }

    /// The stop that has come this far, if there is one.
    fn find(&self, active: Active) -> Option<u32>
        requires { length self.now.stops.items ≤ 4096 }
        ensures { IfSome result (λ stop. (stop < length self.now.stops.items)
            × (active_at self.now.stops.items stop ≡ active)) }
    {
        for stop in 0..self.stops.len() {
            if self.stops[stop].is(active) {
                return Some(stop as u32);
            }
        }
        None
    }

    /// The stop that has come this far; a further one, where there is none.
    fn stop(&mut self, active: Active) -> Result<u32, NoTable>
        requires { length self.old.stops.items ≤ 4096 }
        ensures stop { IfOk result (λ stop. (stop < length self.new.stops.items)
            × (active_at self.new.stops.items stop ≡ active)) }
        ensures few { OnOk result (length self.new.stops.items ≤ 4096) }
        ensures more { OnOk result (length self.old.stops.items ≤ length self.new.stops.items) }
        ensures same { OnOk result ((n : ℕ) → n < length self.old.stops.items
            → active_at self.new.stops.items n ≡ active_at self.old.stops.items n) }
        ensures rows { self.new.rows ≡ self.old.rows }
    {
        if let Some(stop) = self.find(active) {
            return Ok(stop);
        }
        if self.stops.len() >= MOST_STOPS {
            return Err(NoTable::Long);
        }
        let stop = self.stops.len() as u32;
        match self.stops.push(active) {
            Ok(()) => Ok(stop),
            Err(_) => Err(NoTable::Memory),
        }
    }

    /// Adds the step from a stop by a name, if it isn't there.
    fn add(&mut self, alloc: Global, paths: &Paths, from: u32, name: &[u8]) -> Result<(), NoTable>
        requires table { IsTable paths.now.paths.items self.old }
        requires from { from < length self.old.stops.items }
        ensures table { OnOk result (IsTable paths.now.paths.items self.new) }
        ensures grown { OnOk result (IsGrown self.old self.new) }
        ensures step { OnOk result (is_some (step_by self.new from name.now) ≡ true) }
    {
        if self.step(from, name).is_some() {
            return Ok(());
        }
        let to = self.stop(paths.under(self.active(from), name))?;
        let step = Step {
            from,
            name: Vec::from_slice(alloc, name)?,
            to,
        };
        put(&mut self.rows, row_number(from, name), step)?;
        Ok(())
    }

    /// Adds the steps from a stop by all names that lead along the rest of a path.
    fn add_all(
        &mut self,
        alloc: Global,
        paths: &Paths,
        from: u32,
        rest: &[u8],
    ) -> Result<(), NoTable>
        requires table { IsTable paths.now.paths.items self.old }
        requires from { from < length self.old.stops.items }
        ensures table { OnOk result (IsTable paths.now.paths.items self.new) }
        ensures grown { OnOk result (IsGrown self.old self.new) }
        ensures steps { OnOk result (Leads self.new from rest.now) }
    {
        for end in 0..rest.len() + 1 {
            let name = &rest[..end];
            if leads(rest, name) {
                self.add(alloc, paths, from, name)?;
            }
        }
        Ok(())
    }

    /// Adds all steps from a stop.
    fn open(&mut self, alloc: Global, paths: &Paths, from: u32) -> Result<(), NoTable>
        requires table { IsTable paths.now.paths.items self.old }
        requires from { from < length self.old.stops.items }
        ensures table { OnOk result (IsTable paths.now.paths.items self.new) }
        ensures grown { OnOk result (IsGrown self.old self.new) }
        ensures opened { OnOk result (IsOpen paths.now.paths.items self.new from) }
    {
        let active = self.active(from);
        let mut left = active.places;
        while let Some(place) = left.take_first() {
            let Some(rest) = paths.rest(place, active.at) else {
                continue;
            };
            self.add_all(alloc, paths, from, rest)?;
        }
        Ok(())
    }

    /// The table of these paths.
    pub(crate) fn of(alloc: Global, paths: &Paths) -> Result<Table, NoTable>
        ensures table { IfOk result (IsTable paths.now.paths.items) }
        ensures opened { IfOk result (λ t. (n : ℕ) → IsOpen paths.now.paths.items t n) }
        ensures whole { IfOk result (λ t. (i : ℕ)
            → rest_on paths.now.paths.items t 0 i ≡ path_at paths.now.paths.items i) }
    {
        let mut table = Table {
            stops: Vec::from_slice(alloc, &[paths.whole()])?,
            rows: empty_rows(alloc)?,
        };
        let mut from = 0;
        while (from as usize) < table.stops.len() {
            table.open(alloc, paths, from)?;
            from += 1;
        }
        Ok(table)
    }
}
