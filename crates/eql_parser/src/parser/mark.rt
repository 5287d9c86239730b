//! Keywords and signs that a place may ask for.
ghost use Rattle.std.specs.Prelude.{◌≡◌, ◌∷◌, MatchOption};
ghost use Rattle.eql_parser.specs.Kinds.{kinds};
ghost use Rattle.eql_parser.specs.Pieces.{piece_kind};
ghost use Rattle.eql_parser.specs.Marks.{mark_kind, kind_mark, Lacks};

use crate::parser::piece::{Piece, split};
use eql_lexer::Token;
use eql_query::MathOp;

/// A keyword or a sign that a place may ask for.
#[derive(Clone, Copy, PartialEq, Eq)]
pub enum Mark {
    And,
    By,
    Join,
    Maxspan,
    Not,
    Or,
    Sample,
    Sequence,
    Until,
    Where,
    With,
    Open,
    Close,
    OpenItem,
    CloseItem,
    Comma,
    Dot,
    Bar,
    Question,
    Bang,
    Assign,
    Minus,
}

/// What keyword or sign a piece is, where a place may ask for it.
fn mark_of(piece: Piece<'_>) -> Option<Mark>
    ensures { result ≡ kind_mark (piece_kind piece.entry) }
{
    match piece {
        Piece::And => Some(Mark::And),
        Piece::By => Some(Mark::By),
        Piece::Join => Some(Mark::Join),
        Piece::Maxspan => Some(Mark::Maxspan),
        Piece::Not => Some(Mark::Not),
        Piece::Or => Some(Mark::Or),
        Piece::Sample => Some(Mark::Sample),
        Piece::Sequence => Some(Mark::Sequence),
        Piece::Until => Some(Mark::Until),
        Piece::Where => Some(Mark::Where),
        Piece::With => Some(Mark::With),
        Piece::Open => Some(Mark::Open),
        Piece::Close => Some(Mark::Close),
        Piece::OpenItem => Some(Mark::OpenItem),
        Piece::CloseItem => Some(Mark::CloseItem),
        Piece::Comma => Some(Mark::Comma),
        Piece::Dot => Some(Mark::Dot),
        Piece::Bar => Some(Mark::Bar),
        Piece::Question => Some(Mark::Question),
        Piece::Bang => Some(Mark::Bang),
        Piece::Assign => Some(Mark::Assign),
        Piece::Adds(MathOp::Sub) => Some(Mark::Minus),
        Piece::Adds(MathOp::Add) => None,
        Piece::Adds(MathOp::Mul) => None,
        Piece::Adds(MathOp::Div) => None,
        Piece::Adds(MathOp::Mod) => None,
        Piece::Any => None,
        Piece::False => None,
        Piece::In(_) => None,
        Piece::Matches(_) => None,
        Piece::Null => None,
        Piece::Regex(_) => None,
        Piece::True => None,
        Piece::Name(_) => None,
        Piece::Folding(_) => None,
        Piece::Back(_) => None,
        Piece::Str(_) => None,
        Piece::Number(_) => None,
        Piece::Compares(_) => None,
        Piece::Multiplies(_) => None,
    }
}

/// What follows this keyword or sign, where it comes first.
pub fn after(mark: Mark, tokens: &[Token]) -> Option<&[Token]>
    ensures { MatchOption result (Lacks mark (kinds tokens.now))
        (λ rest. kinds tokens.now ≡ mark_kind mark ∷ kinds rest.now) }
{
    let (first, rest) = split(tokens)?;
    match mark_of(first) {
        Some(found) if found == mark => Some(rest),
        _ => None,
    }
}
