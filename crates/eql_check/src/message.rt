//! What refusals say.
ghost use Rattle.std.specs.Prelude.{◌≡◌, ◌++◌, IfOk, string_bytes};
ghost use Rattle.std.specs.Fmt.{decimal, signed_decimal};
ghost use Rattle.eql_check.specs.Messages.{printed_bytes, map_message, check_message};

use crate::mapping::MapRefused;
use crate::refused::CheckRefused;
use eql_values::{Memory, Text, push_shown};
use std::alloc::Global;

/// A line that ends with a name or a text of the input.
fn named(alloc: Global, start: &str, name: &Text) -> Result<String, Memory>
    ensures { IfOk result (λ line. string_bytes line ≡ start.now ++ printed_bytes name.now) }
{
    let mut line = String::from_str(alloc, start)?;
    push_shown(&mut line, name.text())?;
    Ok(line)
}

/// A line that ends with the number of an item.
fn of_item(alloc: Global, start: &str, item: u32) -> Result<String, Memory>
    ensures { IfOk result (λ line. string_bytes line ≡ start.now ++ decimal item) }
{
    let mut line = String::from_str(alloc, start)?;
    write!(line, "{item}")?;
    Ok(line)
}

/// A line that ends with a count.
fn of_count(alloc: Global, start: &str, count: i64) -> Result<String, Memory>
    ensures { IfOk result (λ line. string_bytes line ≡ start.now ++ signed_decimal count) }
{
    let mut line = String::from_str(alloc, start)?;
    write!(line, "{count}")?;
    Ok(line)
}

fn plain(alloc: Global, line: &str) -> Result<String, Memory>
    ensures { IfOk result (λ new. string_bytes new ≡ line.now) }
{
    Ok(String::from_str(alloc, line)?)
}

impl MapRefused {
    /// The line that tells of the refusal, without its end: `mapping:`, the name of the refusal and the name of the
    /// field. Control characters, separators of lines and marks of direction in it are written by escapes. `Memory`
    /// where memory ran out.
    pub fn message(&self, alloc: Global) -> Result<String, Memory>
        ensures { IfOk result (λ line. string_bytes line ≡ map_message self.now) }
    {
        match self {
            MapRefused::MapLong => plain(alloc, "mapping: MapLong"),
            MapRefused::MapSyntax => plain(alloc, "mapping: MapSyntax"),
            MapRefused::MapMany => plain(alloc, "mapping: MapMany"),
            MapRefused::MapKind { name } => named(alloc, "mapping: MapKind ", name),
            MapRefused::Memory => plain(alloc, "out of memory"),
        }
    }
}

impl CheckRefused {
    /// The line that tells of the refusal, without its end: `check:`, the name of the rule, and the name, text, item or
    /// count that belongs to it. Control characters, separators of lines and marks of direction in a name or a text are
    /// written by escapes. `Memory` where memory ran out.
    pub fn message(&self, alloc: Global) -> Result<String, Memory>
        ensures { IfOk result (λ line. string_bytes line ≡ check_message self.now) }
    {
        match self {
            CheckRefused::UnknownField { name } => named(alloc, "check: UnknownField ", name),
            CheckRefused::UnknownFunction { name } => named(alloc, "check: UnknownFunction ", name),
            CheckRefused::Arity { name } => named(alloc, "check: Arity ", name),
            CheckRefused::KindMismatch { item } => of_item(alloc, "check: KindMismatch ", *item),
            CheckRefused::FieldToField { item } => of_item(alloc, "check: FieldToField ", *item),
            CheckRefused::KeyCount { item } => of_item(alloc, "check: KeyCount ", *item),
            CheckRefused::KeyKind { item } => of_item(alloc, "check: KeyKind ", *item),
            CheckRefused::FewStages => plain(alloc, "check: FewStages"),
            CheckRefused::Runs { count } => of_count(alloc, "check: Runs ", *count),
            CheckRefused::ManyStages { count } => of_count(alloc, "check: ManyStages ", *count),
            CheckRefused::ManyKeys { count } => of_count(alloc, "check: ManyKeys ", *count),
            CheckRefused::ManyFields { count } => of_count(alloc, "check: ManyFields ", *count),
            CheckRefused::Span => plain(alloc, "check: Span"),
            CheckRefused::Pipe => plain(alloc, "check: Pipe"),
            CheckRefused::Cidr { text } => named(alloc, "check: Cidr ", text),
            CheckRefused::Memory => plain(alloc, "out of memory"),
        }
    }
}
