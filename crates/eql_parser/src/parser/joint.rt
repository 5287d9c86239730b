//! Where several expressions stand.
ghost use Rattle.std.specs.Prelude.{◌≡◌};
ghost use Rattle.eql_parser.specs.Answering.{joint_mark};

use crate::parser::mark::Mark;

/// Where several expressions stand.
#[derive(Clone, Copy)]
pub enum Joint {
    /// Between `or`s.
    Or,
    /// Between `and`s.
    And,
    /// Between commas.
    Comma,
}

/// The keyword or the sign between two of them.
pub fn mark_between(joint: Joint) -> Mark
    ensures { result ≡ joint_mark joint }
{
    match joint {
        Joint::Or => Mark::Or,
        Joint::And => Mark::And,
        Joint::Comma => Mark::Comma,
    }
}
