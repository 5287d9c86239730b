//! Lists with commas between their items.
ghost use Rattle.eql_parser.specs.Kinds.{kinds};
ghost use Rattle.eql_parser.specs.Answering.{Answers};
ghost use Rattle.eql_parser.specs.Reading.{comma_list};

use crate::parser::mark::{Mark, after};
use crate::parser::stop::Stop;
use eql_lexer::Token;
use std::alloc::Global;

/// What stands in lists.
pub trait Listed: Drop {
    ghost use Rattle.std.specs.Prelude.{List};
    ghost use Rattle.eql_parser.specs.Kinds.{Kind};
    ghost use Rattle.eql_parser.specs.Reading.{Res};

    /// What the descent reads as one.
    ghost reads: { List Kind → Res Self };

    /// One of them, and what follows.
    fn read(alloc: Global, tokens: &[Token]) -> Result<(Self, &[Token]), Stop>
        ensures { Answers (λ x. x) result (reads (kinds tokens.now)) };
}

/// One or more with commas between them, and what follows.
pub fn listed_of<T: Listed>(alloc: Global, tokens: &[Token]) -> Result<(Vec<T>, &[Token]), Stop>
    ensures { Answers (λ v. v.items) result (comma_list T.reads (kinds tokens.now)) }
{
    let mut items = Vec::new(alloc);
    let mut rest = tokens;
    // Each turn reads a token or more.
    for _ in 0..tokens.len() {
        let (item, behind) = match T::read(alloc, rest) {
            Ok(found) => found,
            Err(stop) => return Err(stop),
        };
        items.push(item)?;
        match after(Mark::Comma, behind) {
            None => return Ok((items, behind)),
            Some(more) => rest = more,
        }
    }
    Err(Stop::Syntax(rest.len()))
}
