//! What plans tell of their queries.
use crate::tests::trial::plan_of;
use eql_stages::{Plan, PlanReader, readers_fit};
use eql_values::Pipe;
use std::alloc::{AllocError, Global};
use std::marker::Send;
use std::test::Fail;

/// Queries, each with its stages, its span in nanoseconds, its keys and its pipes.
static PLANS: &[(&str, &str)] = &[
    ("any where true", "1 none 0"),
    ("any where true | tail 2 | head 0", "1 none 0 tail 2 head 0"),
    ("sequence [any where true] [any where true]", "2 none 0"),
    (
        "sequence by user.id with maxspan=5ms [any where true] by file.pid [any where true] by process.pid",
        "2 5000000 2",
    ),
    (
        "sequence with maxspan=10s [any where true] with runs=3 [any where true] until [any where true] | head 1000000",
        "4 10000000000 0 head 1000000",
    ),
    (
        "sequence with maxspan=1m [any where true] [any where true]",
        "2 60000000000 0",
    ),
    (
        "sequence with maxspan=2h [any where true] [any where true]",
        "2 7200000000000 0",
    ),
    (
        "sequence with maxspan=36500d [any where true] [any where true]",
        "2 3153600000000000000 0",
    ),
    (
        "sequence [any where true] with runs=100 [any where true] with runs=100 [any where true] with runs=56",
        "256 none 0",
    ),
    (
        "sequence by ?a,?b,?c,?d,?e,?f,?g,?h [any where true] [any where true]",
        "2 none 8",
    ),
];

/// A plan as a text.
fn told(alloc: Global, plan: &Plan) -> Result<String, AllocError> {
    let span = match plan.span() {
        Some(nanos) => format!(in alloc; "{nanos}")?,
        None => String::from_str(alloc, "none")?,
    };
    let (stages, keys) = (plan.stages(), plan.keys());
    let mut text = format!(in alloc; "{stages} {span} {keys}")?;
    for pipe in plan.pipes().items() {
        let one = match pipe {
            Pipe::Head(count) => format!(in alloc; " head {count}")?,
            Pipe::Tail(count) => format!(in alloc; " tail {count}")?,
        };
        text.push_str(one.as_str())?;
    }
    Ok(text)
}

/// The plan of a query as a text.
fn query_told(alloc: Global, query: &str) -> Result<String, Fail> {
    let Some(plan) = plan_of(alloc, query, "")? else {
        return Ok(String::from_str(alloc, "refused")?);
    };
    let text = told(alloc, &plan);
    drop(plan);
    Ok(text?)
}

#[test]
fn plans_tell_their_queries(rt: HostRuntime) -> Result<(), Fail> {
    let alloc = rt.alloc();
    for (query, expected) in PLANS {
        let got = query_told(alloc, *query)?;
        assert_eq!(&rt; got.as_str(), *expected, "{query}");
    }
    readers_fit();
    Ok(())
}

fn crosses_threads<S: Send + Drop>() {}

#[test]
fn readers_cross_threads(_rt: HostRuntime) -> Result<(), Fail> {
    crosses_threads::<PlanReader>();
    Ok(())
}
