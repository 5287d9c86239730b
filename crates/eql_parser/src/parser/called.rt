//! Calls of functions.
ghost use Rattle.std.specs.Prelude.{◌≡◌, ◌≢◌, ◌-◌, ◌∷◌, ◌&&◌, nat_lt, not, true, IfOk, MatchOption};
ghost use Rattle.eql_parser.specs.Grammar.{is_left_out_call};
ghost use Rattle.eql_query.specs.View.{trees_of};
ghost use Rattle.std.specs.List.{list_all};
ghost use Rattle.std.specs.Str.{bytes_eq, chars};
ghost use Rattle.eql_parser.specs.Kinds.{kinds, open_};
ghost use Rattle.eql_parser.specs.Marks.{BeginsNoCall, IsNoCallee, callee_kind};
ghost use Rattle.eql_parser.specs.Pieces.{piece_kind};
ghost use Rattle.eql_parser.specs.Answering.{Answers, IsNode, IsNodes, node_tree, nodes_trees, call_read};

use crate::parser::mark::{Mark, after};
use crate::parser::node::{Node, Nodes};
use crate::parser::piece::{Piece, split};
use crate::parser::stop::{Stop, left_out};
use eql_lexer::Token;
use eql_query::{Expr, Exprs};
use eql_values::Text;
use std::alloc::Global;

/// What may be called: a name without the `~` at its end, and whether it has one.
fn callee_of(piece: Piece<'_>) -> Option<(&str, bool)>
    ensures { MatchOption result (IsNoCallee (piece_kind piece.entry))
        (λ x. piece_kind piece.entry ≡ callee_kind x.1 (chars x.0.now)) }
{
    match piece {
        Piece::Name(name) => Some((name.text(), false)),
        Piece::Folding(name) => Some((name, true)),
        _ => None,
    }
}

/// The function whose call comes first, by its name and by whether it ignores case, and what
/// follows the parenthesis.
pub fn call_at(tokens: &[Token]) -> Option<(&str, bool, &[Token])>
    ensures { MatchOption result (BeginsNoCall (kinds tokens.now))
        (λ x. kinds tokens.now ≡ callee_kind x.1 (chars x.0.now) ∷ open_ ∷ kinds x.2.now) }
{
    let (first, rest) = split(tokens)?;
    let (name, fold) = callee_of(first)?;
    let inside = after(Mark::Open, rest)?;
    Some((name, fold, inside))
}

/// Whether a text is this word.
fn is_spelled(text: &str, word: &[u8]) -> bool
    requires { list_all (λ b. nat_lt b 128) word.now ≡ true }
    ensures { result ≡ bytes_eq (chars text.now) word.now }
{
    text.as_bytes() == word
}

/// Whether a call is one that isn't read: `number` with a base, its second argument.
fn is_based(name: &str, fold: bool, arguments: &Nodes) -> bool
    ensures { result ≡ (not fold && is_left_out_call (chars name.now)
        (trees_of (nodes_trees arguments.now))) }
{
    if fold {
        return false;
    }
    if arguments.items.len() != 2 {
        return false;
    }
    is_spelled(name, b"number")
}

/// A call with these arguments, which begins where so many tokens are left.
pub fn called<'a>(
    alloc: Global,
    levels: u32,
    name: &'a str,
    fold: bool,
    arguments: Nodes,
    place: usize,
    rest: &'a [Token],
) -> Result<(Node, &'a [Token]), Stop>
    requires some { levels ≢ 0 }
    requires nodes { IsNodes (levels - 1) arguments }
    ensures answers { Answers node_tree result (call_read fold (chars name.now) place
        (nodes_trees arguments) (kinds rest.now)) }
    ensures node { IfOk result (λ x. IsNode levels x.0) }
{
    if is_based(name, fold, &arguments) {
        return Err(left_out(alloc, "number", place));
    }
    let depth = arguments.depth + 1;
    let expr = Expr::Call {
        name: Text::copy_of(alloc, name)?,
        fold,
        args: Exprs::of(arguments.items),
    };
    Ok((Node { expr, depth }, rest))
}
