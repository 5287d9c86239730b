//! What a run without cuts lists.
use crate::starting::{Way, run_fresh};
use eql_conductor::Keep;
use eql_outside::{MemDisk, MemSink};
use eql_replay::Foreigns;
use eql_stages::Plan;
use std::alloc::Global;
use std::test::Fail;

/// What a run listed, and whether it came to its end.
#[derive(Drop)]
pub(crate) struct Listed {
    pub(crate) listing: String,
    pub(crate) is_done: bool,
}

/// The bytes of a sink as a text.
pub(crate) fn written(alloc: Global, sink: &MemSink) -> Result<String, Fail> {
    let text = str::from_utf8(sink.bytes().as_slice())?;
    Ok(String::from_str(alloc, text)?)
}

/// Those of them that are kept.
pub(crate) fn kept(alloc: Global, sink: &MemSink) -> Result<String, Fail> {
    let text = str::from_utf8(sink.kept())?;
    Ok(String::from_str(alloc, text)?)
}

/// Runs afresh without cuts, with a sink of which no call fails.
pub(crate) fn list(
    alloc: Global,
    plan: &Plan,
    texts: &Vec<Vec<u8>>,
    slack: Option<u64>,
    batch: u32,
    plays: Vec<Foreigns>,
) -> Result<Listed, Fail> {
    let way = Way {
        slack,
        batch,
        every: None,
    };
    let mut sink = MemSink::new(alloc, Vec::new(alloc));
    let mut keep: Option<Keep<MemDisk>> = None;
    let end = run_fresh(alloc, plan, texts, way, plays, &mut sink, &mut keep)?;
    Ok(Listed {
        listing: written(alloc, &sink)?,
        is_done: end.is_ok(),
    })
}
