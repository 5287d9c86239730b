//! The fields that a query uses, numbered in the order of first use.
ghost use Rattle.std.specs.Prelude.{◌≡◌, ◌++◌, [], length, OnOk, IfOk};
ghost use Rattle.eql_query.specs.View.{tree, trees};
ghost use Rattle.eql_check.specs.Entries.{names_seen, terms_in};
ghost use Rattle.eql_check.specs.Kinds.{kind_at};
ghost use Rattle.eql_check.specs.Entering.{used_after, use_if};
ghost use Rattle.eql_check.specs.Used.{fields_in, fields_among, key_names, item_fields};

use crate::mapping::Mapping;
use eql_query::{Expr, Exprs, FieldRef, Term};
use eql_values::{Kind, Memory, NameKinds, Text};
use indexmap::IndexMap;
use std::alloc::Global;
use std::marker::Model;

/// The fields that are used so far, with their kinds, in the order of first use.
#[derive(Drop)]
pub(crate) struct Used {
    fields: IndexMap<String, Kind>,
}

impl Model for Used {
    ghost use Rattle.std.specs.Prelude.{List, ℕ, map};
    ghost use Rattle.eql_values.specs.declared.value.Kind.{Kind as FieldKind};
    ghost use Rattle.eql_check.specs.Entries.{fields_in_entries};

    ghost Value = { List (List ℕ × FieldKind) };

    ghost view = { λ u. fields_in_entries u.fields.entries };
}

impl Used {
    /// No field.
    pub(crate) fn new(alloc: Global) -> Used
        ensures { result ≡ [] }
    {
        Used {
            fields: IndexMap::new(alloc),
        }
    }

    /// Uses a field, where the mapping has it.
    #[tactic(auto, using(crate::proofs::Entering::entered))]
    fn add(&mut self, mapping: &Mapping, name: &Text) -> Result<(), Memory>
        ensures { OnOk result (self.new
            ≡ use_if (kind_at mapping.now name.now) self.old name.now) }
    {
        match mapping.kind(name) {
            None => Ok(()),
            Some(kind) => {
                let name = name.to_string()?;
                self.fields.insert(name, kind)?;
                Ok(())
            }
        }
    }

    /// Uses some fields, one after another.
    pub(crate) fn add_all(&mut self, mapping: &Mapping, names: &[&Text]) -> Result<(), Memory>
        ensures { OnOk result
            (self.new ≡ used_after (kind_at mapping.now) self.old (names_seen names.now)) }
    {
        for name in names {
            self.add(mapping, *name)?;
        }
        Ok(())
    }

    /// How many fields are used.
    pub(crate) fn len(&self) -> usize
        ensures { result ≡ length self.now }
    {
        self.fields.len()
    }

    /// The fields with their kinds.
    pub(crate) fn into_fields(self, alloc: Global) -> Result<NameKinds, Memory>
        ensures { IfOk result (λ fields. fields ≡ self) }
    {
        let mut fields = Vec::with_capacity(alloc, self.fields.len())?;
        for (name, kind) in self.fields {
            fields.push((Text::of(name), kind))?;
        }
        Ok(NameKinds::of(fields))
    }
}

/// Adds the names of an expression's fields, in the order of the text.
#[cycle(names)]
fn add_names<'q>(expr: &'q Expr, names: &mut Vec<&'q Text>) -> Result<(), Memory>
    ensures { OnOk result
        (names_seen names.new.items ≡ names_seen names.old.items ++ fields_in (tree expr.now)) }
{
    match expr {
        Expr::Null | Expr::Bool(_) | Expr::Long(_) | Expr::Str(_) => Ok(()),
        Expr::Field(field) => {
            names.push(&field.name)?;
            Ok(())
        }
        Expr::Not(a) | Expr::Neg(a) | Expr::Pattern(_, a, _) | Expr::Member { left: a, .. } =>
            add_names(a, names),
        Expr::Cmp(_, a, b) | Expr::Math(_, a, b) => {
            add_names(a, names)?;
            add_names(b, names)
        }
        Expr::And(es) | Expr::Or(es) | Expr::Call { args: es, .. } => add_names_among(es, names),
    }
}

#[cycle(names)]
fn add_names_among<'q>(exprs: &'q Exprs, names: &mut Vec<&'q Text>) -> Result<(), Memory>
    ensures { OnOk result
        (names_seen names.new.items
        ≡ names_seen names.old.items ++ fields_among (trees exprs.now)) }
{
    for item in exprs.items() {
        add_names(item, names)?;
    }
    Ok(())
}

/// Adds the names of key fields.
pub(crate) fn add_key_names<'q>(
    keys: &'q [FieldRef],
    names: &mut Vec<&'q Text>,
) -> Result<(), Memory>
    ensures { OnOk result
        (names_seen names.new.items ≡ names_seen names.old.items ++ key_names keys.now) }
{
    for key in keys {
        names.push(&key.name)?;
    }
    Ok(())
}

/// Adds the names of an item's fields: of its condition and then of its own keys.
fn add_item_names<'q>(item: &'q Term, names: &mut Vec<&'q Text>) -> Result<(), Memory>
    ensures { OnOk result
        (names_seen names.new.items
        ≡ names_seen names.old.items
        ++ (fields_in (tree item.now.cond) ++ key_names item.now.by)) }
{
    add_names(&item.cond, names)?;
    add_key_names(item.by.items(), names)
}

/// Adds the names of the fields of items.
pub(crate) fn add_names_of<'q>(items: &[&'q Term], names: &mut Vec<&'q Text>) -> Result<(), Memory>
    ensures { OnOk result
        (names_seen names.new.items
        ≡ names_seen names.old.items ++ item_fields (terms_in items.now)) }
{
    for item in items {
        add_item_names(*item, names)?;
    }
    Ok(())
}
