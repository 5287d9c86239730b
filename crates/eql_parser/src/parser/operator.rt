//! Operators between two expressions.
ghost use Rattle.std.specs.Prelude.{◌≡◌, ◌∷◌, MatchOption};
ghost use Rattle.eql_parser.specs.Kinds.{kinds, adds, compares, multiplies};
ghost use Rattle.eql_parser.specs.Marks.{LacksOperator, compares_of};
ghost use Rattle.eql_parser.specs.Reading.{adds_of, multiplies_of};

use crate::parser::piece::{Piece, split};
use eql_lexer::Token;
use eql_query::{CmpOp, MathOp};

/// The `+` or `-` that comes first, and what follows it.
pub fn added(tokens: &[Token]) -> Option<(MathOp, &[Token])>
    ensures { MatchOption result (LacksOperator adds_of (kinds tokens.now))
        (λ x. kinds tokens.now ≡ adds x.0 ∷ kinds x.1.now) }
{
    match split(tokens) {
        Some((Piece::Adds(op), rest)) => Some((op, rest)),
        _ => None,
    }
}

/// The `*`, `/` or `%` that comes first, and what follows it.
pub fn multiplied(tokens: &[Token]) -> Option<(MathOp, &[Token])>
    ensures { MatchOption result (LacksOperator multiplies_of (kinds tokens.now))
        (λ x. kinds tokens.now ≡ multiplies x.0 ∷ kinds x.1.now) }
{
    match split(tokens) {
        Some((Piece::Multiplies(op), rest)) => Some((op, rest)),
        _ => None,
    }
}

/// The comparison that comes first, and what follows it.
pub fn comparison(tokens: &[Token]) -> Option<(CmpOp, &[Token])>
    ensures { MatchOption result (LacksOperator compares_of (kinds tokens.now))
        (λ x. kinds tokens.now ≡ compares x.0 ∷ kinds x.1.now) }
{
    match split(tokens) {
        Some((Piece::Compares(op), rest)) => Some((op, rest)),
        _ => None,
    }
}
