//! The check of a query.
ghost use Rattle.std.specs.Prelude.{◌≡◌, ◌≢◌, ◌≤◌, ◌↔◌, Some, true, length, IsTrue, IfOk, IfErr};
ghost use Rattle.std.specs.List.{list_all};
ghost use Rattle.eql_query.specs.QueryTree.{query_tree, body_tree};
ghost use Rattle.eql_check.specs.Kinds.{kind_at};
ghost use Rattle.eql_check.specs.Conditions.{all_items as items_of, key_count as key_count_of};
ghost use Rattle.eql_check.specs.Used.{used_fields};
ghost use Rattle.eql_check.specs.Rules as rules_of;
ghost use Rattle.eql_check.specs.Rules.{first_broken, has_runs, limit_broken, stages_broken, whole_broken};
ghost use Rattle.eql_check.specs.Typing.{IsChecked};
ghost use Rattle.eql_check.specs.Answers.{Answers, Judges, fields_or};
ghost use Rattle.eql_check.specs.Entries.{terms_in};
ghost use Rattle.eql_check.specs.Wants.{check_memory};
ghost use Rattle.eql_check.specs.declared.refused.CheckRefused.TheVariants.{ManyFields, ManyKeys};

use crate::checked::Checked;
use crate::items::{check_items, check_keys};
use crate::keys::{check_counts, check_kinds};
use crate::limits::{check_pipes, check_span, check_stages};
use crate::mapping::Mapping;
use crate::parts::{all_items, key_count, shared_keys, span_of};
use crate::refused::CheckRefused;
use crate::used::{Used, add_key_names, add_names_of};
use eql_query::{Body, Query, Term, copy_query};
use eql_values::{Memory, NameKinds};
use std::alloc::Global;

/// The most items of a query.
const MOST_ITEMS: usize = 4_294_967_295;

/// The most keys.
const MOST_KEYS: usize = 8;

/// The most used fields.
const MOST_FIELDS: usize = 64;

/// The fields that a query uses.
#[tactic(auto, using(crate::proofs::FirstUses::entered_from_none))]
fn used<'q>(
    alloc: Global,
    mapping: &Mapping,
    query: &'q Query,
    items: &[&'q Term],
) -> Result<Used, Memory>
    requires { terms_in items.now ≡ items_of (body_tree query.now.body) }
    ensures { IfOk result
        (λ fields. fields ≡ used_fields (kind_at mapping.now) (query_tree query.now)) }
{
    let mut names = Vec::new(alloc);
    add_key_names(shared_keys(&query.body), &mut names)?;
    add_names_of(items, &mut names)?;
    let mut fields = Used::new(alloc);
    fields.add_all(mapping, &names)?;
    Ok(fields)
}

/// The stages of a query whose items keep their rules.
fn check_body(body: &Body) -> Result<(), CheckRefused>
    requires few { length (items_of (body_tree body.now)) ≤ 4294967295 }
    requires runs { list_all has_runs (items_of (body_tree body.now)) ≡ true }
    ensures { Judges result (stages_broken (body_tree body.now)) }
{
    match body {
        Body::Event(_) => Ok(()),
        Body::Sequence { items, .. } => check_stages(items.items()),
    }
}

/// A count as a refusal tells it.
fn counted(count: usize) -> i64
    ensures { result ≡ rules_of.capped_count count }
{
    i64::try_from(count).unwrap_or(i64::MAX)
}

/// At most 8 keys.
fn check_key_limit(body: &Body) -> Result<(), CheckRefused>
    ensures { Judges result (limit_broken 8 (key_count_of (body_tree body.now)) ManyKeys) }
{
    let count = key_count(body);
    if count <= MOST_KEYS {
        Ok(())
    } else {
        Err(CheckRefused::ManyKeys {
            count: counted(count),
        })
    }
}

/// At most 64 used fields.
fn check_field_limit(fields: &Used) -> Result<(), CheckRefused>
    ensures { Judges result (limit_broken 64 (length fields.now) ManyFields) }
{
    let count = fields.len();
    if count <= MOST_FIELDS {
        Ok(())
    } else {
        Err(CheckRefused::ManyFields {
            count: counted(count),
        })
    }
}

/// The rules of the whole query, once its items keep their own.
fn check_whole(
    alloc: Global,
    mapping: &Mapping,
    query: &Query,
    items: &[&Term],
    fields: &Used,
) -> Result<(), CheckRefused>
    requires items { terms_in items.now ≡ items_of (body_tree query.now.body) }
    requires few { length items.now ≤ 4294967295 }
    requires runs { list_all has_runs (terms_in items.now) ≡ true }
    requires fields { fields.now ≡ used_fields (kind_at mapping.now) (query_tree query.now) }
    ensures { Judges result (whole_broken (kind_at mapping.now) (query_tree query.now)) }
{
    check_counts(items)?;
    check_kinds(alloc, mapping, items)?;
    check_body(&query.body)?;
    check_key_limit(&query.body)?;
    check_field_limit(fields)?;
    check_span(span_of(&query.body))?;
    check_pipes(query.pipes.items())
}

/// The fields that a query uses, where it breaks no rule.
fn check_query(alloc: Global, query: &Query, mapping: &Mapping) -> Result<NameKinds, CheckRefused>
    requires { length (items_of (body_tree query.now.body)) ≤ 4294967295 }
    ensures { Answers result
        (fields_or (first_broken (kind_at mapping.now) (query_tree query.now))
        (used_fields (kind_at mapping.now) (query_tree query.now))) }
{
    let items = all_items(alloc, &query.body)?;
    check_keys(mapping, shared_keys(&query.body))?;
    check_items(alloc, mapping, &items)?;
    let fields = used(alloc, mapping, query, &items)?;
    check_whole(alloc, mapping, query, &items, &fields)?;
    Ok(fields.into_fields(alloc)?)
}

/// Checks a query against a mapping (EQL syntax reference: "Event queries", "Conditions", "Sequences"; EQL function
/// reference). The refusal is the first broken rule. The items are checked in the order of the text: of each its
/// condition, operands before their operator and left before right, then its own keys, then its runs; the keys after
/// `sequence by` come before the first item, and the until item is the last. At one node the order is
/// `UnknownFunction`, `Arity`, `Cidr`, `KindMismatch`, `FieldToField`. Then come the rules of the whole query:
/// `KeyCount`, `KeyKind`, `FewStages`, `ManyStages`, `ManyKeys`, `ManyFields`, `Span`, `Pipe`. Ask `can_check` first: a
/// query may have at most 4,294,967,295 items. `Memory` comes where memory ran out, whatever rule is broken.
pub fn check(alloc: Global, query: &Query, mapping: &Mapping) -> Result<Checked, CheckRefused>
    requires { length (items_of (query_tree query.now).body) ≤ 4294967295 }
    ensures checked { IfOk result
        (λ checked. IsChecked (kind_at mapping.now) (query_tree query.now)) }
    ensures query { IfOk result (λ checked. query_tree checked.query ≡ query_tree query.now) }
    ensures fields { IfOk result
        (λ checked. checked.fields ≡ used_fields (kind_at mapping.now) (query_tree query.now)) }
    ensures refused { IfErr result
        (λ rule. rule ≢ check_memory
        → first_broken (kind_at mapping.now) (query_tree query.now) ≡ Some rule) }
    ensures unchecked { IfErr result
        (λ rule. rule ≢ check_memory
        → ¬ IsChecked (kind_at mapping.now) (query_tree query.now)) }
{
    let fields = check_query(alloc, query, mapping)?;
    let copy = copy_query(alloc, query)?;
    Ok(Checked::of(copy, fields, mapping))
}

/// Whether a query has few enough items to be checked: at most 4,294,967,295, the until item counted.
pub fn can_check(query: &Query) -> bool
    ensures { IsTrue result ↔ length (items_of (query_tree query.now).body) ≤ 4294967295 }
{
    match &query.body {
        Body::Event(_) => true,
        Body::Sequence { items, until, .. } => {
            let count = items.items().len();
            if until.is_some() {
                count < MOST_ITEMS
            } else {
                count <= MOST_ITEMS
            }
        }
    }
}
