//! The reading of lines.
ghost use Rattle.std.specs.Prelude.{◌≡◌, ◌≤◌, ◌+◌, false, IfOk, OnErr, length, map, string_bytes, encode_utf8_all};
ghost use Rattle.eql_values.specs.Reading.{is_blank as is_blank_line};
ghost use Rattle.eql_text.specs.Json.{json_of};
ghost use Rattle.eql_lines.specs.Gathered.{event_in_slots, line_in_slots};
ghost use Rattle.eql_lines.specs.Reading.{line_read, json_read, IsEventInTime};
ghost use Rattle.eql_lines.specs.PathTable.{names_of};
ghost use Rattle.eql_lines.specs.WantedPaths.{tie_path, wanted_paths};

use crate::blank::is_blank;
use crate::event::event_in;
use crate::line::Line;
use crate::read::LineWalk;
use crate::refused::Refused;
use crate::slots::Slot;
use crate::wanted::{LineRead, Wanted};
use eql_values::{Memory, Reason, Text};
use std::alloc::Global;
use std::marker::Model;

/// The most bytes of a line that is read as JSON.
const LONGEST_LINE: usize = 1_048_576;

/// A reader of lines, seen as what it wants of them. What it needs for the reading is kept from
/// line to line.
#[derive(Drop)]
pub struct LineScan {
    wanted: Wanted,
    walk: Box<LineWalk>,
    ghost paths_are: { map string_bytes (names_of walk.value.routes) ≡ wanted_paths wanted },
}

impl Model for LineScan {
    ghost use Rattle.eql_lines.specs.declared.wanted.Wanted.{Wanted as Wants};

    ghost Value = { Wants };

    ghost view = { λ s. s.wanted };
}

/// The path of a name.
fn name_path(name: &Text) -> Result<String, Memory>
    ensures { IfOk result (λ p. string_bytes p ≡ encode_utf8_all name.now) }
{
    let path = name.to_string()?;
    Ok(path)
}

/// The path of the tiebreaker; the empty one, which leads to nothing, where none is wanted.
fn tie_path(alloc: Global, tie: &Option<Text>) -> Result<String, Memory>
    ensures { IfOk result (λ p. string_bytes p ≡ tie_path tie.now) }
{
    match tie {
        Some(name) => name_path(name),
        None => Ok(String::new(alloc)),
    }
}

/// The paths of all that is wanted.
fn wanted_paths(alloc: Global, wanted: &Wanted) -> Result<Vec<String>, Memory>
    ensures { IfOk result (λ p. map string_bytes p.items ≡ wanted_paths wanted.now) }
{
    let mut paths = Vec::new(alloc);
    paths.push(String::from_str(alloc, "@timestamp")?)?;
    paths.push(String::from_str(alloc, "event.category")?)?;
    paths.push(tie_path(alloc, &wanted.tie)?)?;
    for (name, _) in wanted.fields.items() {
        paths.push(name_path(name)?)?;
    }
    Ok(paths)
}

/// What an object is, from what was found in it.
fn event_of_object(alloc: Global, wanted: &Wanted, slots: &Vec<Slot>) -> Result<LineRead, Memory>
    requires { length slots.now.items ≡ 3 + length wanted.now.fields }
    ensures { IfOk result (λ line. line ≡ event_in_slots wanted.now slots.now.items) }
{
    match event_in(alloc, wanted, slots) {
        Ok(fields) => Ok(LineRead::Event(fields)),
        Err(Refused::Bad(reason)) => Ok(LineRead::Bad(reason)),
        Err(Refused::Memory) => Err(Memory),
    }
}

/// What a line is, from what its walk told and found.
fn line_in(
    alloc: Global,
    line: Line,
    wanted: &Wanted,
    slots: &Vec<Slot>,
) -> Result<LineRead, Memory>
    requires { length slots.now.items ≡ 3 + length wanted.now.fields }
    ensures { IfOk result (λ read. read ≡ line_in_slots line wanted.now slots.now.items) }
{
    match line {
        Line::NotJson => Ok(LineRead::Bad(Reason::NotJson)),
        Line::NotObject => Ok(LineRead::Bad(Reason::NotObject)),
        Line::Object => event_of_object(alloc, wanted, slots),
    }
}

impl LineScan {
    /// A reader of what is wanted.
    pub fn new(alloc: Global, wanted: &Wanted) -> Result<LineScan, Memory>
        ensures { IfOk result (λ scan. scan ≡ wanted.now) }
    {
        let paths = wanted_paths(alloc, wanted)?;
        let walk = Box::new(alloc, LineWalk::new(alloc, paths)?)?;
        Ok(LineScan {
            wanted: wanted.clone()?,
            walk,
        })
    }

    /// Reads a line, given without its line feed: what it is. The reader goes on reading as before.
    /// An event's timestamp is within what whole milliseconds of 64 signed bits can say.
    /// `Memory` is reported only for a line that is read as JSON.
    pub fn read(&mut self, alloc: Global, bytes: &[u8]) -> Result<LineRead, Memory>
        ensures line { IfOk result (λ line. line ≡ line_read self.old bytes.now) }
        ensures in_time { IfOk result IsEventInTime }
        ensures stays { self.new ≡ self.old }
        ensures memory_not_blank { OnErr result (is_blank_line bytes.now ≡ false) }
        ensures memory_not_long { OnErr result (length bytes.now ≤ 1048576) }
    {
        if is_blank(bytes) {
            return Ok(LineRead::Blank);
        }
        if bytes.len() > LONGEST_LINE {
            return Ok(LineRead::Bad(Reason::Long));
        }
        self.json_line(alloc, bytes)
    }

    /// Reads a line that is neither blank nor too long.
    fn json_line(&mut self, alloc: Global, bytes: &[u8]) -> Result<LineRead, Memory>
        ensures line { IfOk result (λ line. line ≡ json_read self.old (json_of bytes.now)) }
        ensures in_time { IfOk result IsEventInTime }
        ensures stays { self.new ≡ self.old }
    {
        let line = self.walk.read(bytes)?;
        line_in(alloc, line, &self.wanted, self.walk.slots())
    }
}

/// Reads a line, given without its line feed: what it is. Many lines are read by one `LineScan`.
/// `Memory` may be reported for any line, since the reader is made first.
pub fn read_line(alloc: Global, wanted: &Wanted, bytes: &[u8]) -> Result<LineRead, Memory>
    ensures line { IfOk result (λ line. line ≡ line_read wanted.now bytes.now) }
    ensures in_time { IfOk result IsEventInTime }
{
    let mut scan = LineScan::new(alloc, wanted)?;
    scan.read(alloc, bytes)
}
