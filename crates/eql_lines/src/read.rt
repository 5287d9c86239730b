//! The reading of a line.
ghost use Rattle.std.specs.Prelude.{◌≡◌, ◌≤◌, ℕ, length, None, Some, IfOk, OnOk};
ghost use Rattle.serde_json.specs.Data.{Data};
ghost use Rattle.serde_json.specs.Read.{read as read_text};
ghost use Rattle.eql_lines.specs.Reach.{reach, over};
ghost use Rattle.eql_lines.specs.Found.{nothing, found_all, found_at};
ghost use Rattle.eql_text.specs.Json.{json_of};
ghost use Rattle.eql_lines.specs.Objects.{is_object};
ghost use Rattle.eql_lines.specs.Lines.{line_of, AreFilled};
ghost use Rattle.eql_lines.specs.LineShape.{IsJson, is_object_line};
ghost use Rattle.eql_lines.specs.Paths.{path_at};
ghost use Rattle.eql_lines.specs.PathTable.{names_of};

use crate::again::read_again;
use crate::line::Line;
use crate::paths::Paths;
use crate::slots::Slot;
use crate::steps::{NoTable, Table};
use crate::stops::{Stops, WHOLE};
use crate::walk::{Broke, walk_value};
use json::{Reader, Scratch};
use std::alloc::{AllocError, Global};

/// How deep arrays and objects may nest.
const MAX_DEPTH: usize = 127;

/// The most paths that one walk goes along.
const MOST_PATHS: usize = 128;

/// What a walk over a line found.
#[derive(Clone, Copy, Drop)]
pub(crate) enum LineShape {
    /// The line is no JSON.
    NotJson,
    /// It is no object.
    NotObject,
    /// It is an object.
    Object,
    /// The line has to be read again, as a value.
    Again,
}

/// The wanted paths, with what the walk needs where they are few enough for it.
#[derive(Drop)]
pub(crate) enum PathTable {
    /// At most 128 paths, with at most 4096 stops.
    Few(Stops),
    /// More: such lines are read as values.
    Many(Vec<String>),
}

impl PathTable {
    /// These paths.
    fn of(alloc: Global, paths: Vec<String>) -> Result<PathTable, AllocError>
        ensures { IfOk result (λ routes. names_of routes ≡ paths.items) }
    {
        if paths.len() > MOST_PATHS {
            return Ok(PathTable::Many(paths));
        }
        let paths = Paths::of(paths);
        match Table::of(alloc, &paths) {
            Ok(table) => Ok(PathTable::Few(Stops::of(paths, table))),
            Err(NoTable::Long) => Ok(PathTable::Many(paths.paths)),
            Err(NoTable::Memory) => Err(AllocError),
        }
    }

    /// The paths, lent.
    fn names(&self) -> &Vec<String>
        ensures { result.now.items ≡ names_of self.now }
    {
        match self {
            PathTable::Few(stops) => &stops.paths.paths,
            PathTable::Many(paths) => paths,
        }
    }
}

/// The walk over lines. It keeps its memory from line to line.
#[derive(Drop)]
pub(crate) struct LineWalk {
    routes: PathTable,
    slots: Vec<Slot>,
    scratch: Scratch,
    alloc: Global,
    ghost matched: { length slots.items ≡ length (names_of routes) },
}

/// Empties all slots.
fn clear(slots: &mut Vec<Slot>)
    ensures length { length slots.new.items ≡ length slots.old.items }
    ensures nothing { (i : ℕ) → found_at slots.new.items i ≡ nothing }
{
    for i in 0..slots.len() {
        slots[i].clear();
    }
}

/// Walks over a whole text.
fn walk_text(
    stops: &Stops,
    slots: &mut Vec<Slot>,
    scratch: &mut Scratch,
    text: &str,
) -> Result<LineShape, AllocError>
    requires { length slots.old.items ≡ length stops.now.paths.paths.items }
    ensures not_json { IfOk result (λ line. line ≡ LineShape.NotJson → read_text text.now ≡ None) }
    ensures json { IfOk result (λ line. IsJson line → (d : Data) × (read_text text.now ≡ Some d)
        × (is_object_line line ≡ is_object d)
        × ((i : ℕ) → found_at slots.new.items i
        ≡ found_all nothing (over (reach d) (path_at stops.now.paths.paths.items i)))) }
    ensures length { length slots.new.items ≡ length slots.old.items }
{
    clear(slots);
    let mut reader = Reader::new(text, scratch)?;
    match walk_value(stops, slots, &mut reader, MAX_DEPTH, WHOLE) {
        Ok(is_object) => if reader.next().is_some() {
            Ok(LineShape::NotJson)
        } else if is_object {
            Ok(LineShape::Object)
        } else {
            Ok(LineShape::NotObject)
        },
        Err(Broke::Invalid) => Ok(LineShape::NotJson),
        Err(Broke::Twice) => Ok(LineShape::Again),
        Err(Broke::Memory) => Err(AllocError),
    }
}

impl LineWalk {
    /// A walk for these paths.
    pub(crate) fn new(alloc: Global, paths: Vec<String>) -> Result<LineWalk, AllocError>
        ensures { IfOk result (λ walk. names_of walk.routes ≡ paths.items) }
    {
        let mut slots = Vec::new(alloc);
        for _place in 0..paths.len() {
            slots.push(Slot::new(alloc))?;
        }
        Ok(LineWalk {
            routes: PathTable::of(alloc, paths)?,
            slots,
            scratch: Scratch::new(alloc),
            alloc,
        })
    }

    /// What was found.
    pub(crate) fn slots(&self) -> &Vec<Slot>
        ensures { result.now ≡ self.now.slots }
    {
        &self.slots
    }

    /// Reads a line. After `Object` the slots hold what the paths reach in it.
    pub(crate) fn read(&mut self, bytes: &[u8]) -> Result<Line, AllocError>
        ensures line { IfOk result (λ line. line ≡ line_of (json_of bytes.now)) }
        ensures slots { OnOk result (AreFilled (names_of self.old.routes)
            self.new.slots.items (json_of bytes.now)) }
        ensures routes { self.new.routes ≡ self.old.routes }
    {
        let Ok(text) = simdutf8::compat::from_utf8(bytes) else {
            return Ok(Line::NotJson);
        };
        let PathTable::Few(stops) = &self.routes else {
            return read_again(self.alloc, self.routes.names(), &mut self.slots, bytes);
        };
        match walk_text(stops, &mut self.slots, &mut self.scratch, text)? {
            LineShape::NotJson => Ok(Line::NotJson),
            LineShape::NotObject => Ok(Line::NotObject),
            LineShape::Object => Ok(Line::Object),
            LineShape::Again => read_again(self.alloc, &stops.paths.paths, &mut self.slots, bytes),
        }
    }
}
