//! Why a text has no tokens.
ghost use Rattle.std.specs.Prelude.{◌≡◌};
ghost use Rattle.eql_lexer.specs.Refusing.{refusal_of};

use std::alloc::{AllocError, AllocFailed};

/// Why `lex` gave no tokens. `at` is the place that breaks the rule, in bytes from 0.
#[derive(Clone, Copy, Debug, PartialEq, Eq, Drop)]
pub enum LexRefused {
    /// A byte that begins no token.
    BadByte { at: u32 },
    /// A string or a name in backticks that isn't closed, or an empty name; the place is its
    /// opening.
    OpenString { at: u32 },
    /// A backslash that begins no escape, in a string that is closed.
    BadEscape { at: u32 },
    /// Digits with a dot and a digit directly behind them; the place is the first digit.
    Fraction { at: u32 },
    /// A `'` outside strings and comments.
    SingleQuote { at: u32 },
    /// Digits of a value above 9223372036854775807.
    NumberRange { at: u32 },
    /// A text of more than 65,536 bytes.
    TooLong,
    /// A `/*` that isn't closed.
    OpenComment { at: u32 },
    /// A text that isn't UTF-8.
    NotUtf8,
    /// Memory ran out.
    Memory,
}

/// A rule of tokens that a place in a text may break.
#[derive(Clone, Copy)]
pub enum Rule {
    BadByte,
    OpenString,
    BadEscape,
    Fraction,
    SingleQuote,
    NumberRange,
    OpenComment,
}

/// Why no token was read: want of memory, or a rule that is broken where so many bytes are left.
#[derive(Drop)]
pub enum Fault {
    Memory,
    Broken(Rule, usize),
}

impl From<AllocError> for Fault {
    ghost use Rattle.std.specs.Prelude.{◌≡◌};
    ghost use Rattle.eql_lexer.specs.declared.refusal.Fault.TheVariants.{Memory as NoMemory};

    ghost from_gives = { λ _ e. e ≡ NoMemory };

    fn from(_error: AllocError) -> Fault {
        Fault::Memory
    }
}

impl<T: Drop> From<AllocFailed<T>> for Fault {
    ghost use Rattle.std.specs.Prelude.{◌≡◌};
    ghost use Rattle.eql_lexer.specs.declared.refusal.Fault.TheVariants.{Memory as NoMemory};

    ghost from_gives = { λ _ e. e ≡ NoMemory };

    fn from(_error: AllocFailed<T>) -> Fault {
        Fault::Memory
    }
}

/// The refusal for a rule that is broken at a place.
pub fn refusal(rule: Rule, at: u32) -> LexRefused
    ensures { result ≡ refusal_of rule at }
{
    match rule {
        Rule::BadByte => LexRefused::BadByte { at },
        Rule::OpenString => LexRefused::OpenString { at },
        Rule::BadEscape => LexRefused::BadEscape { at },
        Rule::Fraction => LexRefused::Fraction { at },
        Rule::SingleQuote => LexRefused::SingleQuote { at },
        Rule::NumberRange => LexRefused::NumberRange { at },
        Rule::OpenComment => LexRefused::OpenComment { at },
    }
}
