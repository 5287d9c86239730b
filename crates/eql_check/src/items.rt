//! The rules of items: their conditions, their own keys and their runs.
ghost use Rattle.std.specs.Prelude.{◌≡◌, ◌≤◌, ◌<◌, length};
ghost use Rattle.eql_query.specs.View.{tree};
ghost use Rattle.eql_query.specs.QueryTree.{term_tree};
ghost use Rattle.eql_check.specs.Kinds.{kind_at};
ghost use Rattle.eql_check.specs.FirstBroken.{kind_of as kind_in};
ghost use Rattle.eql_check.specs.Rules.{item_broken, items_broken, keys_broken, unless, unless_bool, are_runs};
ghost use Rattle.eql_check.specs.Answers.{Judges};
ghost use Rattle.eql_check.specs.Entries.{terms_in};
ghost use Rattle.eql_check.specs.declared.refused.CheckRefused.TheVariants.{Runs};

use crate::expression::kind_of;
use crate::kinds::may_be;
use crate::mapping::Mapping;
use crate::refused::CheckRefused;
use eql_query::{Expr, FieldRef, Term};
use eql_values::Kind;
use std::alloc::Global;

/// The most runs of an item.
const MOST_RUNS: i64 = 100;

/// The condition of an item is Boolean, or always null.
fn check_condition(
    alloc: Global,
    item: u32,
    mapping: &Mapping,
    cond: &Expr,
) -> Result<(), CheckRefused>
    ensures { Judges result
        (unless_bool item (kind_in item (kind_at mapping.now) (tree cond.now))) }
{
    let kind = kind_of(alloc, item, mapping, cond)?;
    if may_be(Kind::Bool, kind) {
        Ok(())
    } else {
        Err(CheckRefused::KindMismatch { item })
    }
}

/// Keys are fields of the mapping, or optional.
pub(crate) fn check_keys(mapping: &Mapping, keys: &[FieldRef]) -> Result<(), CheckRefused>
    ensures { Judges result (keys_broken (kind_at mapping.now) keys.now) }
{
    for key in keys {
        if mapping.kind(&key.name).is_none() && !key.optional {
            let name = key.name.clone()?;
            return Err(CheckRefused::UnknownField { name });
        }
    }
    Ok(())
}

/// An item stands 1 to 100 times in a row.
fn check_runs(count: i64) -> Result<(), CheckRefused>
    ensures { Judges result (unless (are_runs count) (Runs count)) }
{
    if 1 <= count && count <= MOST_RUNS {
        Ok(())
    } else {
        Err(CheckRefused::Runs { count })
    }
}

/// The rules of an item by itself.
fn check_item(
    alloc: Global,
    number: u32,
    mapping: &Mapping,
    item: &Term,
) -> Result<(), CheckRefused>
    ensures { Judges result (item_broken (kind_at mapping.now) number (term_tree item.now)) }
{
    check_condition(alloc, number, mapping, &item.cond)?;
    check_keys(mapping, item.by.items())?;
    check_runs(item.runs)
}

/// The rules of each item by itself, in the order of the text.
pub(crate) fn check_items(
    alloc: Global,
    mapping: &Mapping,
    items: &[&Term],
) -> Result<(), CheckRefused>
    requires { length items.now ≤ 4294967295 }
    ensures { Judges result (items_broken (kind_at mapping.now) 1 (terms_in items.now)) }
{
    for (index, item) in items.iter().enumerate() {
        check_item(alloc, index as u32 + 1, mapping, *item)?;
    }
    Ok(())
}
