//! Why a part of a query isn't read.
ghost use Rattle.std.specs.Str.{chars};
ghost use Rattle.eql_parser.specs.Answering.{StopLeavesOut};

use eql_values::Text;
use std::alloc::{AllocError, AllocFailed, Global};

/// Why a part of a query isn't read. A place is counted by the tokens from there on.
#[derive(Drop)]
pub enum Stop {
    /// Memory ran out.
    Memory,
    /// No query goes on with what stands at the place.
    Syntax(usize),
    /// A form of the language stands at the place that isn't read, called by a word.
    LeftOut(Text, usize),
    /// The level too many begins at the place.
    TooDeep(usize),
    /// The parenthesis too many opens at the place.
    TooOpen(usize),
}

impl From<AllocError> for Stop {
    ghost use Rattle.std.specs.Prelude.{◌≡◌};
    ghost use Rattle.eql_parser.specs.declared.parser.stop.Stop.TheVariants.{Memory as NoMemory};

    ghost from_gives = { λ _ e. e ≡ NoMemory };

    fn from(_error: AllocError) -> Stop {
        Stop::Memory
    }
}

impl<T: Drop> From<AllocFailed<T>> for Stop {
    ghost use Rattle.std.specs.Prelude.{◌≡◌};
    ghost use Rattle.eql_parser.specs.declared.parser.stop.Stop.TheVariants.{Memory as NoMemory};

    ghost from_gives = { λ _ e. e ≡ NoMemory };

    fn from(_error: AllocFailed<T>) -> Stop {
        Stop::Memory
    }
}

/// The refusal of a form that is called by this word, where so many tokens are left.
pub fn left_out(alloc: Global, word: &str, place: usize) -> Stop
    ensures { StopLeavesOut result (chars word.now) place }
{
    match String::from_str(alloc, word) {
        Ok(word) => Stop::LeftOut(Text::of(word), place),
        Err(_) => Stop::Memory,
    }
}
