//! Queries: their types, the tree that a query stands for, and copies of them.
#![tactic(auto)]

mod copy;
mod expr;
mod query;

pub use copy::copy_query;
pub use expr::{CmpOp, Expr, Exprs, FieldRef, FieldRefs, MathOp, PatOp};
pub use query::{Body, PipeText, PipeTexts, Query, Span, Term, Terms, Unit};
