//! The items of a checked query, made ready to judge events.
ghost use Rattle.std.specs.Prelude.{◌≡◌, ◌≤◌, ◌++◌, OnOk, IfOk, true, map, length, None};
ghost use Rattle.std.specs.List.{list_all, flat_map};
ghost use Rattle.std.specs.Option.{option_map};
ghost use Rattle.eql_query.specs.QueryTree as body;
ghost use Rattle.eql_query.specs.QueryTree.{query_tree, term_tree};
ghost use Rattle.eql_check.specs.Conditions.{as_list};
ghost use Rattle.eql_check.specs.Rules.{are_runs, has_runs};
ghost use Rattle.eql_stages.specs.Compiling.{MatchStages, MatchesUntil, key_field};
ghost use Rattle.eql_stages.specs.Compiling as compiling;
ghost use Rattle.eql_stages.specs.Matching.{has_stage, is_within, stages_of};
ghost use Rattle.eql_stages.specs.Stages.{count_of, stage_of, item_stages, stages_in, until_in};

use crate::keys::{KeyField, KeyFields};
use crate::matcher::ItemMatcher;
use crate::matchers::ItemMatchers;
use eql_check::Checked;
use eql_code::compile;
use eql_operators::slot_of;
use eql_query::{Body, FieldRef, Term};
use eql_values::{Memory, NameKinds};
use std::alloc::Global;

/// A number of runs, which a checked query has from 1 to 100.
fn runs_in(count: i64) -> u32
    requires { are_runs count ≡ true }
    ensures { result ≡ count_of count }
{
    count as u32
}

/// The runs of an item.
fn runs_of(term: &Term) -> u32
    requires { has_runs (term_tree term.now) ≡ true }
    ensures { result ≡ count_of term.now.runs }
{
    runs_in(term.runs)
}

/// Adds key fields by their slots.
fn add_keys(keys: &mut Vec<KeyField>, fields: &NameKinds, refs: &[FieldRef]) -> Result<(), Memory>
    ensures { OnOk result
        (keys.new.items ≡ keys.old.items ++ map (key_field fields.now) refs.now) }
{
    for key in refs {
        keys.push(KeyField {
            slot: slot_of(fields.items(), &key.name),
            optional: key.optional,
        })?;
    }
    Ok(())
}

/// An item with these keys and runs.
fn matcher_of(
    alloc: Global,
    checked: &Checked,
    term: &Term,
    shared: &[FieldRef],
    own: &[FieldRef],
    runs: u32,
) -> Result<ItemMatcher, Memory>
    ensures matchers { IfOk result (compiling.MatchesStage checked.now.fields
        (record { term = term_tree term.now; keys = shared.now ++ own.now })) }
    ensures runs { IfOk result (λ matcher. matcher.runs ≡ runs) }
{
    let mut keys = Vec::new(alloc);
    add_keys(&mut keys, checked.fields(), shared)?;
    add_keys(&mut keys, checked.fields(), own)?;
    let category = term.category.clone()?;
    let code = compile(alloc, &term.cond, checked)?;
    Ok(ItemMatcher {
        category,
        code,
        keys: KeyFields::of(keys),
        runs,
    })
}

/// The items of a sequence.
fn matchers_of(
    alloc: Global,
    checked: &Checked,
    shared: &[FieldRef],
    items: &[Term],
) -> Result<Vec<ItemMatcher>, Memory>
    requires runs { list_all has_runs (map term_tree items.now) ≡ true }
    ensures matcher { IfOk result (λ matchers. MatchStages checked.now.fields
        (flat_map (item_stages shared.now) (map term_tree items.now)) matchers.items) }
    ensures each { IfOk result (λ matchers. list_all has_stage matchers.items ≡ true) }
{
    let mut matchers = Vec::with_capacity(alloc, items.len())?;
    for term in items {
        let runs = runs_of(term);
        matchers.push(matcher_of(alloc, checked, term, shared, term.by.items(), runs)?)?;
    }
    Ok(matchers)
}

/// The item that ends sequences.
fn until_of(
    alloc: Global,
    checked: &Checked,
    shared: &[FieldRef],
    until: &Option<Term>,
) -> Result<Option<ItemMatcher>, Memory>
    ensures { IfOk result (MatchesUntil checked.now.fields
        (option_map (stage_of shared.now) (option_map term_tree until.now))) }
{
    match until {
        Some(term) => {
            let matcher = matcher_of(alloc, checked, term, shared, term.by.items(), 1)?;
            Ok(Some(matcher))
        }
        None => Ok(None),
    }
}

/// The greatest depth of stack that a condition of these items needs.
fn depth_of(items: &[ItemMatcher], until: &Option<ItemMatcher>) -> u32
    ensures { list_all (is_within result) (items.now ++ as_list until.now) ≡ true }
{
    let mut depth = match until {
        Some(until) => until.code.depth(),
        None => 0,
    };
    for matcher in items {
        depth = depth.max(matcher.code.depth());
    }
    depth
}

/// The items with the depth that they need.
fn with_depth(items: Vec<ItemMatcher>, until: Option<ItemMatcher>) -> ItemMatchers
    requires each { list_all has_stage items.items ≡ true }
    requires few { stages_of items.items ≤ 256 }
    ensures items { result.items.items ≡ items.items }
    ensures until { result.until ≡ until }
{
    let depth = depth_of(&items, &until);
    ItemMatchers {
        items,
        until,
        depth,
    }
}

/// The one item of single events.
fn single(alloc: Global, checked: &Checked, term: &Term) -> Result<ItemMatchers, Memory>
    ensures stages { IfOk result (λ matchers. MatchStages checked.now.fields
        (stages_in (body.event (term_tree term.now))) matchers.items.items) }
    ensures until { IfOk result (λ matchers. matchers.until ≡ None) }
{
    let mut items = Vec::with_capacity(alloc, 1)?;
    items.push(matcher_of(alloc, checked, term, &[], &[], 1)?)?;
    Ok(with_depth(items, None))
}

/// The items of a sequence, and the one that ends sequences.
fn sequence(
    alloc: Global,
    checked: &Checked,
    shared: &[FieldRef],
    items: &[Term],
    until: &Option<Term>,
) -> Result<ItemMatchers, Memory>
    requires runs { list_all has_runs (map term_tree items.now) ≡ true }
    requires few { length (flat_map (item_stages shared.now) (map term_tree items.now)) ≤ 256 }
    ensures stages { IfOk result (λ matchers. MatchStages checked.now.fields
        (flat_map (item_stages shared.now) (map term_tree items.now)) matchers.items.items) }
    ensures until { IfOk result (λ matchers. MatchesUntil checked.now.fields
        (option_map (stage_of shared.now) (option_map term_tree until.now)) matchers.until) }
{
    let items = matchers_of(alloc, checked, shared, items)?;
    let until = until_of(alloc, checked, shared, until)?;
    Ok(with_depth(items, until))
}

/// The items of the query.
pub(crate) fn matchers_in(alloc: Global, checked: &Checked) -> Result<ItemMatchers, Memory>
    ensures stages { IfOk result (λ matchers. MatchStages checked.now.fields
        (stages_in (query_tree checked.now.query).body) matchers.items.items) }
    ensures until { IfOk result (λ matchers. MatchesUntil checked.now.fields
        (until_in (query_tree checked.now.query).body) matchers.until) }
{
    checked.rules_are_kept();
    match &checked.query().body {
        Body::Event(term) => single(alloc, checked, term),
        Body::Sequence {
            by,
            items,
            until,
            ..
        } => sequence(alloc, checked, by.items(), items.items(), until),
    }
}
