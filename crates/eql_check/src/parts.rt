//! The parts of a query that the rules speak of.
ghost use Rattle.std.specs.Prelude.{◌≡◌, ◌<◌, ◌^◌, IfOk, map};
ghost use Rattle.eql_query.specs.QueryTree.{body_tree, term_tree};
ghost use Rattle.eql_check.specs.Conditions as parts;
ghost use Rattle.eql_check.specs.Rules.{span_of as span_in};
ghost use Rattle.eql_check.specs.Entries.{terms_in};

use eql_query::{Body, FieldRef, Span, Term};
use eql_values::Memory;
use std::alloc::Global;

/// The key fields that all items share.
pub(crate) fn shared_keys(body: &Body) -> &[FieldRef]
    ensures { result.now ≡ parts.shared_keys (body_tree body.now) }
{
    match body {
        Body::Event(_) => &[],
        Body::Sequence { by, .. } => by.items(),
    }
}

/// The items in the order of the text, the until item last.
pub(crate) fn all_items(alloc: Global, body: &Body) -> Result<Vec<&Term>, Memory>
    ensures { IfOk result (λ items. terms_in items.items ≡ parts.all_items (body_tree body.now)) }
{
    let mut all = Vec::new(alloc);
    match body {
        Body::Event(term) => {
            all.push(term)?;
            Ok(all)
        }
        Body::Sequence { items, until, .. } => {
            for item in items.items() {
                all.push(item)?;
            }
            if let Some(until) = until {
                all.push(until)?;
            }
            Ok(all)
        }
    }
}

/// The greatest time from the first event of a sequence to the last.
pub(crate) fn span_of(body: &Body) -> Option<Span>
    ensures { result ≡ span_in (body_tree body.now) }
{
    match body {
        Body::Event(_) => None,
        Body::Sequence { span, .. } => *span,
    }
}

/// How many keys each item has.
pub(crate) fn key_count(body: &Body) -> usize
    ensures { result ≡ parts.key_count (body_tree body.now) }
{
    match body {
        Body::Event(_) => 0,
        Body::Sequence { by, items, .. } => by.items().len() + own_count(items.items()),
    }
}

fn own_count(items: &[Term]) -> usize
    ensures count { result ≡ parts.own_count (map term_tree items.now) }
    ensures small { result < 2 ^ 63 }
{
    match items {
        [] => 0,
        [first, ..] => first.by.items().len(),
    }
}
