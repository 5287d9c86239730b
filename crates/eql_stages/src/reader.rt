//! The reader of lines that a plan makes.
ghost use Rattle.std.specs.Prelude.{◌≡◌, ◌≤◌, IfOk};
ghost use Rattle.eql_stages.specs.Matching.{reads_by, routes_for};
ghost use Rattle.eql_stages.specs.Planned.{planned_query, line_of};
ghost use Rattle.eql_stages.specs.Standing as stands;

use crate::matchers::ItemMatchers;
use crate::plan::Plan;
use eql_code::Stack;
use eql_lines::{Fields, LineRead, LineScan};
use eql_values::{Item, LineGot, LineReader, Memory, OrderKey, Route, Routes};
use std::alloc::Global;
use std::marker::Model;

/// A reader of lines by a plan. It has all that it needs of the plan, and keeps its rooms from line to line: the stack
/// of the conditions, the list of routes, and what the reading of lines needs.
pub struct PlanReader {
    scan: LineScan,
    matchers: ItemMatchers,
    stack: Stack,
    routes: Vec<Route>,
}

// A drop of its own: where a reader is dropped, also in a crate above, there is one call, and not one for each part of it.
impl Drop for PlanReader {
    fn drop(self) {
        let PlanReader {
            scan: _,
            matchers: _,
            stack: _,
            routes: _,
        } = self;
    }
}

impl Model for PlanReader {
    ghost use Rattle.std.specs.Prelude.{◌≤◌};
    ghost use Rattle.eql_stages.specs.Matching.{Reader};

    ghost Value = { Reader };

    ghost view = { λ r. record {
      wanted = r.scan;
      matchers = r.matchers.items.items;
      until = r.matchers.until;
    } };

    ghost invariant = { λ r. r.matchers.depth ≤ r.stack };
}

/// Moves routes out of a list that keeps its room.
fn taken(alloc: Global, routes: &mut Vec<Route>) -> Result<Vec<Route>, Memory>
    ensures { IfOk result (λ own. own.items ≡ routes.old.items) }
{
    let mut own = Vec::with_capacity(alloc, routes.len())?;
    own.append(routes)?;
    Ok(own)
}

impl PlanReader {
    /// A reader by a plan: lines give it what they give to the plan's query. `Memory` where memory ran out.
    pub fn new(alloc: Global, plan: &Plan) -> Result<PlanReader, Memory>
        ensures { IfOk result (λ reader. reads_by reader ≡ line_of (planned_query plan.now)) }
    {
        let wanted = plan.wanted()?;
        let matchers = plan.matchers().clone()?;
        let stack = Stack::with(alloc, matchers.depth)?;
        Ok(PlanReader {
            scan: LineScan::new(alloc, &wanted)?,
            matchers,
            stack,
            routes: Vec::new(alloc),
        })
    }

    /// What an event says.
    fn routes(&mut self, alloc: Global, event: &Fields) -> Result<Routes, Memory>
        ensures routes { IfOk result
            (λ routes. routes ≡ routes_for self.old.matchers self.old.until event.now) }
        ensures stays { self.new ≡ self.old }
    {
        self.routes.clear();
        self.matchers
            .say(alloc, event, &mut self.stack, &mut self.routes)?;
        let own = taken(alloc, &mut self.routes)?;
        Ok(Routes::of(own))
    }
}

impl LineReader for PlanReader {
    ghost read_of = { reads_by };

    ghost reads_at = { stands.reads_at };

    ghost reads_long = { stands.reads_long };

    fn read(
        &mut self,
        alloc: Global,
        shard: u32,
        line: u32,
        bytes: &[u8],
    ) -> Result<LineGot, Memory> {
        match self.scan.read(alloc, bytes)? {
            LineRead::Blank => Ok(LineGot::Blank),
            LineRead::Bad(reason) => Ok(LineGot::Bad(reason)),
            LineRead::Event(event) => {
                let routes = self.routes(alloc, &event)?;
                let order = OrderKey {
                    ts: event.ts,
                    tie: event.tie,
                    shard,
                    line,
                    at: 0,
                };
                Ok(LineGot::Item(Item { order, routes }))
            }
        }
    }
}
