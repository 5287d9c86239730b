//! Fields of a query, and lists of them.
ghost use Rattle.std.specs.Prelude.{◌≡◌, length, MatchOption};
ghost use Rattle.std.specs.Option.{option_map};
ghost use Rattle.std.specs.Str.{chars};
ghost use Rattle.eql_parser.specs.Kinds.{kind, kinds, word_kind};
ghost use Rattle.eql_parser.specs.Grammar.{first_part, part};
ghost use Rattle.eql_parser.specs.Pieces.{piece_kind, borrowed_chars, BeginsNoPart, IsPart};
ghost use Rattle.eql_parser.specs.Answering.{Answers};
ghost use Rattle.eql_parser.specs.Reading.{dotted, named_field, field};

use crate::parser::listed::Listed;
use crate::parser::mark::{Mark, after};
use crate::parser::piece::{Piece, split};
use crate::parser::stop::Stop;
use eql_lexer::{Tok, Token};
use eql_query::FieldRef;
use eql_values::Text;
use std::alloc::Global;

/// The first part of a field's name.
fn first_part_of(piece: Piece<'_>) -> Option<&str>
    ensures { option_map borrowed_chars result ≡ first_part (piece_kind piece.entry) }
{
    match piece {
        Piece::Name(name) => Some(name.text()),
        Piece::Back(name) => Some(name.text()),
        _ => None,
    }
}

/// A word as it is spelled, unless it ends in `~`.
fn unmarked(word: &Text) -> Option<&str>
    ensures { option_map borrowed_chars result ≡ part (word_kind word.now) }
{
    let spelling = word.text();
    match spelling.strip_suffix('~') {
        Some(_) => None,
        None => Some(spelling),
    }
}

/// A part of a field's name behind a dot, where keywords are parts too.
fn part_of(token: &Token) -> Option<&str>
    ensures { option_map borrowed_chars result ≡ part (kind token.now.tok) }
{
    match &token.tok {
        Tok::Word(word) => unmarked(word),
        Tok::Back(name) => Some(name.text()),
        Tok::Str(_) => None,
        Tok::Num(_) => None,
        Tok::Sign(_) => None,
    }
}

/// The part behind a dot, and what follows.
fn part_at(tokens: &[Token]) -> Option<(&str, &[Token])>
    ensures { MatchOption result (BeginsNoPart (kinds tokens.now))
        (λ x. IsPart (kinds tokens.now) (chars x.0.now) (kinds x.1.now)) }
{
    match tokens {
        [] => None,
        [first, rest @ ..] => match part_of(first) {
            None => None,
            Some(part) => Some((part, rest)),
        },
    }
}

/// A field's name with its dots, behind its first part.
fn dotted_of<'a>(
    alloc: Global,
    first: &'a str,
    tokens: &'a [Token],
) -> Result<(Text, &'a [Token]), Stop>
    ensures { Answers (λ w. w) result (dotted (length (kinds tokens.now)) (chars first.now)
        (kinds tokens.now)) }
{
    let mut name = String::from_str(alloc, first)?;
    let mut rest = tokens;
    while let Some(behind) = after(Mark::Dot, rest) {
        let Some((part, more)) = part_at(behind) else {
            return Err(Stop::Syntax(behind.len()));
        };
        name.push('.')?;
        name.push_str(part)?;
        rest = more;
    }
    Ok((Text::of(name), rest))
}

/// A field without the `?` that may stand before it.
fn named_of(alloc: Global, optional: bool, tokens: &[Token]) -> Result<(FieldRef, &[Token]), Stop>
    ensures { Answers (λ f. f) result (named_field optional (kinds tokens.now)) }
{
    let Some((first, rest)) = split(tokens) else {
        return Err(Stop::Syntax(0));
    };
    let Some(word) = first_part_of(first) else {
        return Err(Stop::Syntax(tokens.len()));
    };
    let (name, behind) = dotted_of(alloc, word, rest)?;
    Ok((FieldRef { name, optional }, behind))
}

/// A field.
pub fn field_of(alloc: Global, tokens: &[Token]) -> Result<(FieldRef, &[Token]), Stop>
    ensures { Answers (λ f. f) result (field (kinds tokens.now)) }
{
    match after(Mark::Question, tokens) {
        Some(rest) => named_of(alloc, true, rest),
        None => named_of(alloc, false, tokens),
    }
}

impl Listed for FieldRef {
    ghost reads = { field };

    fn read(alloc: Global, tokens: &[Token]) -> Result<(FieldRef, &[Token]), Stop> {
        field_of(alloc, tokens)
    }
}
