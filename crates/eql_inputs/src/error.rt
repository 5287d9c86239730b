//! Why the reading of a command's files stops.
ghost use Rattle.std.specs.Prelude.{◌≡◌};
ghost use Rattle.eql_inputs.specs.Errors.{status_of};

use eql_check::{CheckRefused, MapRefused};
use eql_lexer::LexRefused;
use eql_parser::ParseRefused;
use eql_words::Name;

/// Why the files are refused.
#[derive(Drop)]
pub enum Refused<'a> {
    /// No file has this name.
    NoFile(&'a Name),
    /// The query's text has no tokens.
    Lex(LexRefused),
    /// Its tokens are no query.
    Parse(ParseRefused),
    /// The mapping's text is no mapping.
    Mapping(MapRefused),
    /// The query breaks a rule of the check.
    Broken(CheckRefused),
}

/// Why the reading stopped.
#[derive(Drop)]
pub enum InputError<'a> {
    /// The files are refused.
    Refused(Refused<'a>),
    /// The file of this name failed.
    Read(&'a Name),
    /// Memory ran out.
    Memory,
}

impl<'a> InputError<'a> {
    /// The status of a run that stops so: 1 where a file isn't there, 3 where the query or the mapping is refused, 4 for
    /// a read fault, 8 for want of memory.
    pub fn status(&self) -> u8
        ensures { result ≡ status_of self.now }
    {
        match self {
            InputError::Refused(Refused::NoFile(_)) => 1,
            InputError::Refused(_) => 3,
            InputError::Read(_) => 4,
            InputError::Memory => 8,
        }
    }
}
