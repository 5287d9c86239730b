//! Why tokens are no query.
use eql_values::{Memory, Text};
use std::alloc::{AllocError, AllocFailed};

/// Why tokens are no query, or none that is read. A place counts the bytes of the text before it;
/// where the tokens end too early, it is the end of the last token, or 0 where there is none.
#[derive(Debug, Drop)]
pub enum ParseRefused {
    /// Some query begins with the tokens before this place, and none with those through it; and
    /// nowhere a form stands that isn't read.
    Syntax {
        /// The place, in bytes.
        at: u32,
    },
    /// A form of the language begins here that isn't read, where a query could go on with another
    /// form.
    LeftOut {
        /// The word by which the form is called.
        word: Text,
        /// The place, in bytes.
        at: u32,
    },
    /// A condition has more than 64 levels, or more than 128 parentheses stand open.
    TooDeep {
        /// The place at which the level too many begins, or the parenthesis too many opens, in
        /// bytes.
        at: u32,
    },
    /// Memory ran out.
    Memory,
}
