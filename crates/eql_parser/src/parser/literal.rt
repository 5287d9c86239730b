//! Literals and texts, and the lists of them behind `in`, `like` and their kin.
ghost use Rattle.std.specs.Prelude.{◌≡◌, Result};
ghost use Rattle.eql_parser.specs.Kinds.{kinds};
ghost use Rattle.eql_parser.specs.Answering.{Answers, room, inner};
ghost use Rattle.eql_parser.specs.Reading.{literal, negative_at, text_at, members, patterns};

use crate::parser::listed::{Listed, listed_of};
use crate::parser::mark::{Mark, after};
use crate::parser::piece::{Piece, split};
use crate::parser::stop::Stop;
use eql_lexer::Token;
use eql_query::MathOp;
use eql_values::{Literals, Text, Texts, Value};
use std::alloc::Global;

/// The number behind a `-`.
fn negative_of(tokens: &[Token]) -> Result<(Value, &[Token]), Stop>
    ensures { Answers (λ v. v) result (negative_at (kinds tokens.now)) }
{
    let Some((first, rest)) = split(tokens) else {
        return Err(Stop::Syntax(0));
    };
    match first {
        Piece::Number(number) => match number.checked_neg() {
            Some(negative) => Ok((Value::Long(negative), rest)),
            // No token of a text has this number.
            None => Err(Stop::Memory),
        },
        _ => Err(Stop::Syntax(tokens.len())),
    }
}

/// A literal.
fn literal_of(tokens: &[Token]) -> Result<(Value, &[Token]), Stop>
    ensures { Answers (λ v. v) result (literal (kinds tokens.now)) }
{
    if let Some(rest) = after(Mark::Minus, tokens) {
        return negative_of(rest);
    }
    let Some((first, rest)) = split(tokens) else {
        return Err(Stop::Syntax(0));
    };
    match first {
        Piece::Number(number) => Ok((Value::Long(number), rest)),
        Piece::Str(text) => Ok((Value::Text(text.clone()?), rest)),
        Piece::True => Ok((Value::Bool(true), rest)),
        Piece::False => Ok((Value::Bool(false), rest)),
        _ => Err(Stop::Syntax(tokens.len())),
    }
}

/// A text.
fn text_of(tokens: &[Token]) -> Result<(Text, &[Token]), Stop>
    ensures { Answers (λ s. s) result (text_at (kinds tokens.now)) }
{
    let Some((first, rest)) = split(tokens) else {
        return Err(Stop::Syntax(0));
    };
    match first {
        Piece::Str(text) => Ok((text.clone()?, rest)),
        _ => Err(Stop::Syntax(tokens.len())),
    }
}

impl Listed for Value {
    ghost reads = { literal };

    fn read(_alloc: Global, tokens: &[Token]) -> Result<(Value, &[Token]), Stop> {
        literal_of(tokens)
    }
}

impl Listed for Text {
    ghost reads = { text_at };

    fn read(_alloc: Global, tokens: &[Token]) -> Result<(Text, &[Token]), Stop> {
        text_of(tokens)
    }
}

/// The literals in parentheses behind `in` or `in~`, where so many parentheses may still open.
pub fn members_of(
    alloc: Global,
    parens: u32,
    tokens: &[Token],
) -> Result<(Literals, &[Token]), Stop>
    ensures { Answers (λ v. v) result (members (room parens) (inner parens) (kinds tokens.now)) }
{
    let Some(inside) = after(Mark::Open, tokens) else {
        return Err(Stop::Syntax(tokens.len()));
    };
    if parens == 0 {
        return Err(Stop::TooOpen(tokens.len()));
    }
    let (items, rest) = listed_of(alloc, inside)?;
    match after(Mark::Close, rest) {
        Some(behind) => Ok((Literals::of(items), behind)),
        None => Err(Stop::Syntax(rest.len())),
    }
}

/// The text or the texts in parentheses behind `:`, `like` or `like~`, where so many parentheses
/// may still open.
pub fn patterns_of(alloc: Global, parens: u32, tokens: &[Token]) -> Result<(Texts, &[Token]), Stop>
    ensures { Answers (λ v. v) result (patterns (room parens) (inner parens) (kinds tokens.now)) }
{
    let Some(inside) = after(Mark::Open, tokens) else {
        let (text, rest) = text_of(tokens)?;
        let items = Vec::from_array(alloc, [text])?;
        return Ok((Texts::of(items), rest));
    };
    if parens == 0 {
        return Err(Stop::TooOpen(tokens.len()));
    }
    let (items, rest) = listed_of(alloc, inside)?;
    match after(Mark::Close, rest) {
        Some(behind) => Ok((Texts::of(items), behind)),
        None => Err(Stop::Syntax(rest.len())),
    }
}
