//! The lines by which refusals are printed.
ghost use Rattle.std.specs.Prelude.{◌≡◌, IfOk, string_bytes};
ghost use Rattle.eql_lexer.specs.Messages.{message, name, place};

use crate::refusal::LexRefused;
use eql_values::Memory;
use std::alloc::Global;

impl LexRefused {
    /// The refusal as one line without a line feed: `lex: `, its name and, where it has a place, `
    /// at ` and the place in bytes from 0, as in `lex: BadByte at 15`. `Memory` where memory ran
    /// out.
    pub fn message(&self, alloc: Global) -> Result<String, Memory>
        ensures { IfOk result (λ line. string_bytes line ≡ message self.now) }
    {
        let name = name_of(*self);
        match refused_at(*self) {
            None => Ok(format!(in alloc; "lex: {name}")?),
            Some(at) => Ok(format!(in alloc; "lex: {name} at {at}")?),
        }
    }
}

/// The name of a refusal.
fn name_of(refused: LexRefused) -> &'static str
    ensures { result.now ≡ name refused }
{
    match refused {
        LexRefused::BadByte { .. } => "BadByte",
        LexRefused::OpenString { .. } => "OpenString",
        LexRefused::BadEscape { .. } => "BadEscape",
        LexRefused::Fraction { .. } => "Fraction",
        LexRefused::SingleQuote { .. } => "SingleQuote",
        LexRefused::NumberRange { .. } => "NumberRange",
        LexRefused::TooLong => "TooLong",
        LexRefused::OpenComment { .. } => "OpenComment",
        LexRefused::NotUtf8 => "NotUtf8",
        LexRefused::Memory => "Memory",
    }
}

/// The place of a refusal, where it has one.
fn refused_at(refused: LexRefused) -> Option<u32>
    ensures { result ≡ place refused }
{
    match refused {
        LexRefused::BadByte { at }
        | LexRefused::OpenString { at }
        | LexRefused::BadEscape { at }
        | LexRefused::Fraction { at }
        | LexRefused::SingleQuote { at }
        | LexRefused::NumberRange { at }
        | LexRefused::OpenComment { at } => Some(at),
        LexRefused::TooLong | LexRefused::NotUtf8 | LexRefused::Memory => None,
    }
}
