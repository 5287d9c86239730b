//! The plan of a search, and the readers of lines that it gives the lanes.
ghost use Rattle.std.specs.Prelude.{◌≡◌, IfErr, IfOk, IsTrue};
ghost use Rattle.eql_inputs.specs.Shelves.{ReadsShelf};
ghost use Rattle.eql_inputs.specs.Steps.{HasCheckCause};
ghost use Rattle.eql_cut.specs.CutValues.{names_ascend};
ghost use Rattle.eql_stages.specs.Planned.{line_of, planned_query};
ghost use Rattle.eql_words.specs.Bounds.{FindIsBounded};
ghost use Rattle.eql_find.specs.Finding.{IsPlanOf};
ghost use Rattle.eql_find.specs.Searching.{head_in};

use eql_check::{Checked, Mapping};
use eql_cut::CutHead;
use eql_inputs::{InputError, read_checked};
use eql_outside::Shelf;
use eql_parser::print;
use eql_shards::Readers;
use eql_stages::{Plan, PlanReader};
use eql_values::{Memory, Text};
use eql_words::Find;
use std::alloc::Global;

/// What is searched for: a query that is planned, and the mapping that it was checked against.
#[derive(Drop)]
pub(crate) struct PlannedQuery {
    /// The plan of the query.
    pub plan: Plan,
    /// The mapping.
    pub mapping: Mapping,
}

impl Readers for PlannedQuery {
    type Reader = PlanReader;

    ghost reads = { λ planned. line_of (planned_query planned.plan) };

    fn reader(&self, alloc: Global) -> Result<PlanReader, Memory> {
        PlanReader::new(alloc, &self.plan)
    }
}

/// Reads the query and the mapping of a search, and plans it.
pub(crate) fn read_plan<'a, H: Shelf>(
    alloc: Global,
    find: &'a Find,
    shelf: &mut H,
) -> Result<PlannedQuery, InputError<'a>>
    ensures plan { IfOk result (IsPlanOf find.now (H.files shelf.old)) }
    ensures cause { IfErr result (HasCheckCause find.now.query find.now.fields
        (H.files shelf.old)) }
    ensures shelf { ReadsShelf H.Shelf shelf.old shelf.new result }
{
    let inputs = read_checked(alloc, &find.query, &find.fields, shelf)?;
    match plan_of(alloc, inputs.checked, find) {
        Ok(plan) => Ok(PlannedQuery {
            plan,
            mapping: inputs.mapping,
        }),
        Err(_) => Err(InputError::Memory),
    }
}

/// Plans a checked query.
fn plan_of(alloc: Global, checked: Checked, find: &Find) -> Result<Plan, Memory>
    ensures { IfOk result (λ plan. plan ≡ record { checked = checked; tie = find.now.tie }) }
{
    let tie = copy_tie(&find.tie)?;
    Plan::make(alloc, checked, tie)
}

/// A copy of the tiebreaker.
fn copy_tie(tie: &Option<Text>) -> Result<Option<Text>, Memory>
    ensures { IfOk result (λ copy. copy ≡ tie.now) }
{
    let copy = tie.clone()?;
    Ok(copy)
}

/// What the cuts of a run say of it.
pub(crate) fn head_of(alloc: Global, find: &Find, planned: &PlannedQuery) -> Result<CutHead, Memory>
    requires { FindIsBounded find.now }
    ensures head { IfOk result (λ head. head ≡ head_in find.now planned.now) }
    ensures names { IsTrue (names_ascend planned.now.mapping) }
{
    let names = planned.mapping.names();
    let query = print(alloc, planned.plan.checked().query())?;
    let mapping = names.clone()?;
    let tie = copy_tie(&find.tie)?;
    Ok(CutHead {
        query,
        mapping,
        tie,
        slack: find.slack.unwrap_or(0),
        shards: find.shards.items().len() as u32,
    })
}
