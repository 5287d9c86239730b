//! The lines by which refusals are printed.
ghost use Rattle.std.specs.Prelude.{◌≡◌, IfOk, string_bytes};
ghost use Rattle.eql_parser.specs.Messages.{left_out, message};

use crate::refusal::ParseRefused;
use eql_values::{Memory, Text, push_shown};
use std::alloc::Global;

impl ParseRefused {
    /// The refusal as one line without a line feed: `parse: `, its name, for a left-out form its
    /// word, and ` at ` with the place in bytes from 0, as in `parse: LeftOut regex at 27`.
    /// `Memory` where memory ran out.
    pub fn message(&self, alloc: Global) -> Result<String, Memory>
        ensures { IfOk result (λ line. string_bytes line ≡ message self.now) }
    {
        match self {
            ParseRefused::Syntax { at } => Ok(format!(in alloc; "parse: Syntax at {at}")?),
            ParseRefused::LeftOut { word, at } => left_out_line(alloc, word, *at),
            ParseRefused::TooDeep { at } => Ok(format!(in alloc; "parse: TooDeep at {at}")?),
            ParseRefused::Memory => Ok(String::from_str(alloc, "parse: Memory")?),
        }
    }
}

/// The line for a left-out form. A word is printed so that no terminal is steered by it.
fn left_out_line(alloc: Global, word: &Text, at: u32) -> Result<String, Memory>
    ensures { IfOk result (λ line. string_bytes line ≡ left_out word.now at) }
{
    let mut line = String::from_str(alloc, "parse: LeftOut ")?;
    push_shown(&mut line, word.text())?;
    write!(line, " at {at}")?;
    Ok(line)
}
