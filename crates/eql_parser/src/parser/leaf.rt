//! Expressions of one level: literals and fields.
ghost use Rattle.std.specs.Prelude.{◌≡◌, Ok, Err, IfOk, length};
ghost use Rattle.eql_parser.specs.Kinds.{kinds};
ghost use Rattle.eql_parser.specs.Limits.{depth};
ghost use Rattle.eql_query.specs.View.{tree};
ghost use Rattle.eql_parser.specs.Marks.{BeginsNoCall, Lacks};
ghost use Rattle.eql_parser.specs.declared.parser.mark.Mark.TheVariants as mark;
ghost use Rattle.eql_parser.specs.Pieces.{piece_kind};
ghost use Rattle.std.specs.Option.{option_map};
ghost use Rattle.eql_query.specs.Tree.{Tree};
ghost use Rattle.eql_parser.specs.Answering.{Answers, IsNode, Stops, constant_tree, node_tree, room, inner};
ghost use Rattle.eql_parser.specs.Reading.{Syntax, at_level, field, field_tree, prim, res_map};

use crate::parser::field::field_of;
use crate::parser::node::Node;
use crate::parser::piece::{Piece, split};
use crate::parser::stop::Stop;
use eql_lexer::Token;
use eql_query::Expr;
use std::alloc::{AllocError, Global};

/// An expression of one level that begins where so many tokens are left.
fn leaf(levels: u32, place: usize, expr: Expr, rest: &[Token]) -> Result<(Node, &[Token]), Stop>
    requires { depth (tree expr) ≡ 1 }
    ensures answers { Answers node_tree result (at_level levels place
        (Ok (tree expr, kinds rest.now))) }
    ensures node { IfOk result (λ x. IsNode levels x.0) }
{
    if levels == 0 {
        return Err(Stop::TooDeep(place));
    }
    Ok((Node { expr, depth: 1 }, rest))
}

/// A field.
fn field_leaf(alloc: Global, levels: u32, tokens: &[Token]) -> Result<(Node, &[Token]), Stop>
    ensures answers { Answers node_tree result (at_level levels (length tokens.now)
        (res_map field_tree (field (kinds tokens.now)))) }
    ensures node { IfOk result (λ x. IsNode levels x.0) }
{
    if levels == 0 {
        return Err(Stop::TooDeep(tokens.len()));
    }
    match field_of(alloc, tokens) {
        Ok((field, rest)) => {
            let expr = Expr::Field(field);
            Ok((Node { expr, depth: 1 }, rest))
        }
        Err(stop) => Err(stop),
    }
}

/// The refusal of a name that ends in `~` and isn't called: so many tokens are left where it begins,
/// and so many behind it.
fn uncalled(levels: u32, place: usize, left: usize) -> Stop
    ensures { Stops result (at_level {A = Tree} levels place (Err (Syntax left))) }
{
    if levels == 0 {
        return Stop::TooDeep(place);
    }
    Stop::Syntax(left)
}

/// A constant.
fn constant(piece: Piece<'_>) -> Result<Option<Expr>, AllocError>
    ensures { IfOk result
        (λ found. option_map tree found ≡ constant_tree (piece_kind piece.entry)) }
{
    match piece {
        Piece::Null => Ok(Some(Expr::Null)),
        Piece::True => Ok(Some(Expr::Bool(true))),
        Piece::False => Ok(Some(Expr::Bool(false))),
        Piece::Number(number) => Ok(Some(Expr::Long(number))),
        Piece::Str(text) => Ok(Some(Expr::Str(text.clone()?))),
        _ => Ok(None),
    }
}

/// A constant or a field.
pub fn leaf_of(
    alloc: Global,
    parens: u32,
    levels: u32,
    tokens: &[Token],
) -> Result<(Node, &[Token]), Stop>
    requires open { Lacks mark.Open (kinds tokens.now) }
    requires call { BeginsNoCall (kinds tokens.now) }
    ensures answers { Answers node_tree result (prim (room parens) (inner parens) levels
        (kinds tokens.now)) }
    ensures node { IfOk result (λ x. IsNode levels x.0) }
{
    let Some((first, rest)) = split(tokens) else {
        return Err(Stop::Syntax(0));
    };
    match constant(first)? {
        Some(expr) => leaf(levels, tokens.len(), expr, rest),
        None => match first {
            Piece::Name(_) => field_leaf(alloc, levels, tokens),
            Piece::Back(_) => field_leaf(alloc, levels, tokens),
            Piece::Question => field_leaf(alloc, levels, tokens),
            Piece::Folding(_) => Err(uncalled(levels, tokens.len(), rest.len())),
            _ => Err(Stop::Syntax(tokens.len())),
        },
    }
}
