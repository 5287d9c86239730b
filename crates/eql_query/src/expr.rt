//! Expressions, and lists of them.
ghost use Rattle.std.specs.Prelude.{◌≡◌, map};
ghost use Rattle.eql_query.specs.View.{tree, trees, trees_of};

use eql_values::{Literals, Text, Texts};
use std::marker::Model;

/// A comparison.
#[derive(Clone, Copy, PartialEq, Eq)]
pub enum CmpOp {
    /// `<`
    Lt,
    /// `<=`
    Le,
    /// `==`
    Eq,
    /// `!=`
    Ne,
    /// `>=`
    Ge,
    /// `>`
    Gt,
}

/// A test of a text against patterns.
#[derive(Clone, Copy, Debug, PartialEq, Eq)]
pub enum PatOp {
    /// `:`, which ignores case.
    Colon,
    /// `like`
    Like,
    /// `like~`, which ignores case.
    LikeFold,
}

/// An operator on whole numbers.
#[derive(Clone, Copy, Debug, PartialEq, Eq)]
pub enum MathOp {
    /// `+`
    Add,
    /// `-`
    Sub,
    /// `*`
    Mul,
    /// `/`
    Div,
    /// `%`
    Mod,
}

/// A field as the query names it.
#[derive(Drop)]
pub struct FieldRef {
    /// The name, with its dots.
    pub name: Text,
    /// Whether it is marked as optional by `?`.
    pub optional: bool,
}

/// Fields in the order of the query, as after `by`.
#[derive(Drop)]
pub struct FieldRefs {
    items: Vec<FieldRef>,
}

impl Model for FieldRefs {
    ghost use Rattle.std.specs.Prelude.{List};
    ghost use Rattle.eql_query.specs.declared.expr.FieldRef.{FieldRef};

    ghost Value = { List FieldRef };

    ghost view = { λ l. l.items.items };
}

impl FieldRefs {
    /// The list of these fields.
    pub fn of(items: Vec<FieldRef>) -> FieldRefs
        ensures { result ≡ items.items }
    {
        FieldRefs { items }
    }

    /// The fields, lent.
    pub fn items(&self) -> &Vec<FieldRef>
        ensures { result.now.items ≡ self.now }
    {
        &self.items
    }

    /// The fields, taken out.
    pub fn into_items(self) -> Vec<FieldRef>
        ensures { result.items ≡ self }
    {
        self.items
    }
}

/// An expression.
#[cycle(expr)]
pub enum Expr {
    /// `null`
    Null,
    /// `true` or `false`
    Bool(bool),
    /// A whole number.
    Long(i64),
    /// A text in quotes.
    Str(Text),
    /// A field.
    Field(FieldRef),
    /// `not A`
    Not(Box<Expr>),
    /// `A and B and ..`, two or more.
    And(Exprs),
    /// `A or B or ..`, two or more.
    Or(Exprs),
    /// A comparison of two sides.
    Cmp(CmpOp, Box<Expr>, Box<Expr>),
    /// A test against patterns, one or more.
    Pattern(PatOp, Box<Expr>, Texts),
    /// `A in (..)` and its kin.
    Member {
        /// Whether case is ignored, as by `in~`.
        fold: bool,
        /// Whether it is `not in`.
        negated: bool,
        /// What is looked for.
        left: Box<Expr>,
        /// The literals of the list, one or more.
        list: Literals,
    },
    /// `-A`
    Neg(Box<Expr>),
    /// An operator on two whole numbers.
    Math(MathOp, Box<Expr>, Box<Expr>),
    /// A call of a function.
    Call {
        /// The function's name, without `~`.
        name: Text,
        /// Whether the name has a `~`, so that case is ignored.
        fold: bool,
        /// The arguments.
        args: Exprs,
    },
}

/// A list of expressions.
#[derive(Drop)]
#[cycle(expr)]
pub struct Exprs {
    items: Vec<Expr>,
}

impl Exprs {
    /// The list of these expressions.
    pub fn of(items: Vec<Expr>) -> Exprs
        ensures { trees result ≡ trees_of (map tree items.items) }
    {
        Exprs { items }
    }

    /// The expressions, lent.
    pub fn items(&self) -> &Vec<Expr>
        ensures same { result.now.items ≡ self.now.items.items }
        ensures trees { trees self.now ≡ trees_of (map tree result.now.items) }
    {
        &self.items
    }

    /// The expressions, taken out.
    pub fn into_items(self) -> Vec<Expr>
        ensures { trees_of (map tree result.items) ≡ trees self }
    {
        self.items
    }
}

impl Drop for Expr {
    #[cycle(expr)]
    fn drop(self) {
        match self {
            Expr::Null => {}
            Expr::Bool(_) => {}
            Expr::Long(_) => {}
            Expr::Str(_) => {}
            Expr::Field(_) => {}
            Expr::Not(_) => {}
            Expr::And(_) => {}
            Expr::Or(_) => {}
            Expr::Cmp(_, _, _) => {}
            Expr::Pattern(_, _, _) => {}
            Expr::Member {
                fold: _,
                negated: _,
                left: _,
                list: _,
            } => {}
            Expr::Neg(_) => {}
            Expr::Math(_, _, _) => {}
            Expr::Call {
                name: _,
                fold: _,
                args: _,
            } => {}
        }
    }
}
