//! What a run tells on `err`: one text in one write. Where memory runs out as a line with a name or a number is made,
//! nothing is told.
ghost use Rattle.std.specs.Prelude.{◌≡◌, ◌≤◌, ◌++◌, IfOk, codes, string_bytes};
ghost use Rattle.eql_check.specs.Messages.{map_message, check_message};
ghost use Rattle.eql_lexer.specs.Messages as lexing;
ghost use Rattle.eql_parser.specs.Messages as parsing;
ghost use Rattle.eql_outside.specs.Written.{WroteFront};
ghost use Rattle.eql_runs.specs.Refusals.{printed_name, refusal_text};
ghost use Rattle.eql_inputs.specs.Errors.{refusal_of, text_of};

use crate::error::{InputError, Refused};
use eql_check::{CheckRefused, MapRefused};
use eql_lexer::LexRefused;
use eql_outside::Sink;
use eql_parser::ParseRefused;
use eql_values::{Memory, push_shown};
use eql_words::Name;
use std::alloc::Global;

/// Writes a text, as far as the sink takes it.
pub fn tell_text<E: Sink>(alloc: Global, text: &[u8], err: &mut E)
    ensures told { WroteFront text.now (E.written err.old) (E.written err.new) }
    ensures counts { E.fault_count err.old ≤ E.fault_count err.new }
{
    let _ = err.write(alloc, text);
}

/// A line of a cause and a name, as it is printed.
fn name_line(alloc: Global, cause: &str, name: &str) -> Result<String, Memory>
    ensures { IfOk result (λ line. string_bytes line
        ≡ cause.now ++ printed_name name.now ++ codes "\n") }
{
    let mut line = String::from_str(alloc, cause)?;
    push_shown(&mut line, name)?;
    line.push_str("\n")?;
    Ok(line)
}

/// Tells of a file by its name.
fn tell_name<E: Sink>(alloc: Global, cause: &str, name: &Name, err: &mut E)
    ensures told { WroteFront (cause.now ++ printed_name name.now ++ codes "\n")
        (E.written err.old) (E.written err.new) }
    ensures counts { E.fault_count err.old ≤ E.fault_count err.new }
{
    if let Ok(line) = name_line(alloc, cause, name.name().as_str()) {
        tell_text(alloc, line.as_bytes(), err);
    }
}

/// Tells a line that has no line feed yet.
fn tell_line<E: Sink>(alloc: Global, mut line: String, err: &mut E)
    ensures told { WroteFront (string_bytes line ++ codes "\n")
        (E.written err.old) (E.written err.new) }
    ensures counts { E.fault_count err.old ≤ E.fault_count err.new }
{
    if line.push_str("\n").is_ok() {
        tell_text(alloc, line.as_bytes(), err);
    }
}

/// Tells why the query's text has no tokens.
fn tell_lex<E: Sink>(alloc: Global, refused: LexRefused, err: &mut E)
    ensures told { WroteFront (lexing.message refused ++ codes "\n")
        (E.written err.old) (E.written err.new) }
    ensures counts { E.fault_count err.old ≤ E.fault_count err.new }
{
    if let Ok(line) = refused.message(alloc) {
        tell_line(alloc, line, err);
    }
}

/// Tells why the query's tokens are no query.
fn tell_parse<E: Sink>(alloc: Global, refused: &ParseRefused, err: &mut E)
    ensures told { WroteFront (parsing.message refused.now ++ codes "\n")
        (E.written err.old) (E.written err.new) }
    ensures counts { E.fault_count err.old ≤ E.fault_count err.new }
{
    if let Ok(line) = refused.message(alloc) {
        tell_line(alloc, line, err);
    }
}

/// Tells why a text is no mapping.
fn tell_mapping<E: Sink>(alloc: Global, refused: &MapRefused, err: &mut E)
    ensures told { WroteFront (map_message refused.now ++ codes "\n")
        (E.written err.old) (E.written err.new) }
    ensures counts { E.fault_count err.old ≤ E.fault_count err.new }
{
    if let Ok(line) = refused.message(alloc) {
        tell_line(alloc, line, err);
    }
}

/// Tells which rule the query breaks.
fn tell_broken<E: Sink>(alloc: Global, refused: &CheckRefused, err: &mut E)
    ensures told { WroteFront (check_message refused.now ++ codes "\n")
        (E.written err.old) (E.written err.new) }
    ensures counts { E.fault_count err.old ≤ E.fault_count err.new }
{
    if let Ok(line) = refused.message(alloc) {
        tell_line(alloc, line, err);
    }
}

/// Tells why the files are refused.
fn tell_refused<'a, E: Sink>(alloc: Global, refused: &Refused<'a>, err: &mut E)
    ensures told { WroteFront (refusal_text (refusal_of refused.now))
        (E.written err.old) (E.written err.new) }
    ensures counts { E.fault_count err.old ≤ E.fault_count err.new }
{
    match refused {
        Refused::NoFile(name) => tell_name(alloc, "no file ", *name, err),
        Refused::Lex(refused) => tell_lex(alloc, *refused, err),
        Refused::Parse(refused) => tell_parse(alloc, refused, err),
        Refused::Mapping(refused) => tell_mapping(alloc, refused, err),
        Refused::Broken(refused) => tell_broken(alloc, refused, err),
    }
}

/// Tells why the reading of a command's files stopped: one line, with its line feed, or a front of it.
pub fn tell_error<'a, E: Sink>(alloc: Global, error: &InputError<'a>, err: &mut E)
    ensures told { WroteFront (text_of error.now) (E.written err.old) (E.written err.new) }
    ensures counts { E.fault_count err.old ≤ E.fault_count err.new }
{
    match error {
        InputError::Refused(refused) => tell_refused(alloc, refused, err),
        InputError::Read(name) => tell_name(alloc, "read fault: ", *name, err),
        InputError::Memory => tell_text(alloc, b"out of memory\n", err),
    }
}
