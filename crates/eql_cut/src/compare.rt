//! Whether a cut is of this run.
ghost use Rattle.std.specs.Prelude.{◌≡◌, IfOk};
ghost use Rattle.eql_cut.specs.Agreeing.{tie_eq, difference};

use crate::cut::{Cut, CutHead};
use eql_values::{Memory, NameKinds, Text};
use std::alloc::{AllocError, Global};

/// What differs between a cut and the run that is to go on from it, by the value of each.
#[derive(Drop)]
pub enum Differs {
    /// The canonical text of the query.
    Query {
        /// That of the cut.
        cut: Text,
        /// That of the run.
        now: Text,
    },
    /// The mapping.
    Mapping {
        /// That of the cut.
        cut: NameKinds,
        /// That of the run.
        now: NameKinds,
    },
    /// The field of the tiebreaker.
    Tie {
        /// That of the cut.
        cut: Option<Text>,
        /// That of the run.
        now: Option<Text>,
    },
    /// The slack, in milliseconds.
    Slack {
        /// That of the cut.
        cut: u64,
        /// That of the run.
        now: u64,
    },
    /// The number of shards.
    Shards {
        /// That of the cut.
        cut: u32,
        /// That of the run.
        now: u32,
    },
}

/// Whether both have the same tiebreaker, or none has one.
fn is_same_tie(a: &Option<Text>, b: &Option<Text>) -> bool
    ensures { result ≡ tie_eq a.now b.now }
{
    match (a, b) {
        (Some(x), Some(y)) => x == y,
        (None, None) => true,
        _ => false,
    }
}

/// A copy of the tiebreaker.
fn copy_tie(tie: &Option<Text>) -> Result<Option<Text>, AllocError>
    ensures { IfOk result (λ copy. copy ≡ tie.now) }
{
    match tie {
        Some(text) => {
            let copy = text.clone()?;
            Ok(Some(copy))
        }
        None => Ok(None),
    }
}

/// The first of query, mapping, tiebreaker, slack and number of shards that differs.
fn first_difference(cut: &CutHead, now: &CutHead) -> Result<Option<Differs>, AllocError>
    ensures { IfOk result (λ told. told ≡ difference cut.now now.now) }
{
    if cut.query != now.query {
        Ok(Some(Differs::Query {
            cut: cut.query.clone()?,
            now: now.query.clone()?,
        }))
    } else if cut.mapping != now.mapping {
        Ok(Some(Differs::Mapping {
            cut: cut.mapping.clone()?,
            now: now.mapping.clone()?,
        }))
    } else if !is_same_tie(&cut.tie, &now.tie) {
        Ok(Some(Differs::Tie {
            cut: copy_tie(&cut.tie)?,
            now: copy_tie(&now.tie)?,
        }))
    } else if cut.slack != now.slack {
        Ok(Some(Differs::Slack {
            cut: cut.slack,
            now: now.slack,
        }))
    } else if cut.shards != now.shards {
        Ok(Some(Differs::Shards {
            cut: cut.shards,
            now: now.shards,
        }))
    } else {
        Ok(None)
    }
}

/// The first of query, mapping, tiebreaker, slack and number of shards in which a cut and a run
/// differ, with both values; `None` exactly when they agree in all of them.
///
/// # Errors
///
/// [`Memory`] where memory ran out.
pub fn agree(_alloc: Global, cut: &Cut, head: &CutHead) -> Result<Option<Differs>, Memory>
    ensures { IfOk result (λ told. told ≡ difference cut.now.head head.now) }
{
    let told = first_difference(&cut.head, head)?;
    Ok(told)
}
