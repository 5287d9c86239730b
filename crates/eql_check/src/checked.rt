//! A query that has passed the check.
ghost use Rattle.std.specs.Prelude.{◌≡◌, ◌≤◌, None, length};
ghost use Rattle.eql_query.specs.QueryTree.{query_tree};
ghost use Rattle.eql_check.specs.Kinds.{kind_at};
ghost use Rattle.eql_check.specs.Conditions.{key_count as key_count_of};
ghost use Rattle.eql_check.specs.Used.{used_fields, AreOnce};
ghost use Rattle.eql_check.specs.Rules.{first_broken};
ghost use Rattle.eql_check.specs.Kept.{ConditionsAreBool, OperatorsMeetKinds};
ghost use Rattle.eql_check.specs.RulesKept.{KeepsRules};

use crate::mapping::Mapping;
use crate::parts::key_count;
use eql_query::Query;
use eql_values::NameKinds;
use std::marker::Model;

/// A query that breaks no rule, with the fields that it uses.
pub struct Checked {
    query: Query,
    fields: NameKinds,
}

impl Model for Checked {
    ghost use Rattle.std.specs.Coded.{codes};
    ghost use Rattle.eql_query.specs.contracts.expr.Expr as e;
    ghost use Rattle.eql_query.specs.QueryTree.{query_tree};
    ghost use Rattle.eql_check.specs.Checks.{CheckedQuery};
    ghost use Rattle.eql_check.specs.WasChecked.{WasChecked};

    ghost Value = { CheckedQuery };

    ghost coded = { Prim.hlevel (codes, e.the_row.coded) };

    ghost view = { λ c. record { query = c.query; fields = c.fields } };

    ghost invariant = { λ c. WasChecked (query_tree c.query) c.fields };
}

impl Checked {
    /// The query that was checked against this mapping.
    pub(crate) fn of(query: Query, fields: NameKinds, mapping: &Mapping) -> Checked
        requires kept { first_broken (kind_at mapping.now) (query_tree query) ≡ None }
        requires used { fields ≡ used_fields (kind_at mapping.now) (query_tree query) }
        ensures { result ≡ record { query = query; fields = fields } }
    {
        // For the proof alone, which looks at the mapping's names there.
        let _names = mapping.names();
        Checked { query, fields }
    }

    /// The query, lent.
    pub fn query(&self) -> &Query
        ensures { result.now ≡ self.now.query }
    {
        &self.query
    }

    /// The fields that the query uses, with their kinds, in the order of first use. These are the slots of an event's
    /// values, from 0.
    pub fn fields(&self) -> &NameKinds
        ensures same { result.now ≡ self.now.fields }
        ensures few { length self.now.fields ≤ 64 }
        ensures once { AreOnce self.now.fields }
    {
        &self.fields
    }

    /// How many keys each item of a sequence has, the shared ones and its own. For single events it is 0, also where a
    /// query made by hand gives them keys.
    pub fn keys(&self) -> u32
        ensures same { result ≡ key_count_of (query_tree self.now.query).body }
        ensures few { result ≤ 8 }
    {
        key_count(&self.query.body) as u32
    }

    /// Every checked query keeps the rules, under some mapping from which its used fields come: runs are 1 to 100, a
    /// sequence has 2 to 256 stages, each item has as many keys of its own as the first, the span is 1 ms to 36,500
    /// days, at most 8 pipes have counts from 0 to 1,000,000, and each condition is Boolean or always null.
    pub fn rules_are_kept(&self)
        ensures { KeepsRules (query_tree self.now.query) self.now.fields }
    {
        // For the proof alone, which looks at the query and its fields there.
        let _query = &self.query;
    }
}

impl Drop for Checked {
    fn drop(self) {
        let Checked {
            query: _,
            fields: _,
        } = self;
    }
}

/// A condition of a checked query is true, false or null for all values that fit its fields.
pub fn conditions_are_bool(checked: &Checked)
    ensures { ConditionsAreBool (query_tree checked.now.query) checked.now.fields }
{
    // For the proof alone, which looks at the query and its fields there.
    let _query = &checked.query;
}

/// And no operator in it meets a wrong kind: each takes the values that its operands mean.
pub fn operators_meet_kinds(checked: &Checked)
    ensures { OperatorsMeetKinds (query_tree checked.now.query) checked.now.fields }
{
    // For the proof alone, which looks at the query and its fields there.
    let _query = &checked.query;
}
