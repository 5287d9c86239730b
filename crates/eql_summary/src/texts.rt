//! Made-up texts of events.
ghost use Rattle.std.specs.Prelude.{◌≡◌, ◌++◌, IfOk, OnOk, map, string_bytes};
ghost use Rattle.eql_runs.specs.Made.{made_line, made_text, made_texts, process_name};

use eql_values::Memory;
use std::alloc::Global;

// The name of an event's process.
fn name_of(event: u32) -> &'static str
    ensures { result.now ≡ process_name event }
{
    match event / 100 % 3 {
        0 => "attrib",
        1 => "bash",
        _ => "cat",
    }
}

// Adds the line of an event.
fn push_line(text: &mut String, event: u32) -> Result<(), Memory>
    ensures { OnOk result (string_bytes text.new ≡ string_bytes text.old ++ made_line event) }
{
    let user = event % 100;
    let name = name_of(event);
    write!(
        text,
        "{{\"@timestamp\":{event},\"event\":{{\"category\":\"process\"}},\"user\":{{\"name\":\"u{user}\"}},\"process\":{{\"name\":\"{name}\"}}}}\n"
    )?;
    Ok(())
}

// One of the four texts, from 0, of so many events.
fn text_of(alloc: Global, text: u32, count: u32) -> Result<Vec<u8>, Memory>
    ensures { IfOk result (λ bytes. bytes.items ≡ made_text text count) }
{
    let mut lines = String::new(alloc);
    for event in 0..count {
        if event % 4 == text {
            push_line(&mut lines, event)?;
        }
    }
    Ok(lines.into_bytes())
}

/// Four texts of so many events in all, each event a line. Event i, from 0, is in text i modulo 4.
/// The users are `u0` to `u99`, and the name of the process changes after each hundred events:
/// `attrib`, `bash`, `cat`, and again from the first. The timestamp is i.
pub(crate) fn made(alloc: Global, count: u32) -> Result<Vec<Vec<u8>>, Memory>
    ensures { IfOk result (λ texts. map (λ text. text.items) texts.items ≡ made_texts count) }
{
    let texts = [
        text_of(alloc, 0, count)?,
        text_of(alloc, 1, count)?,
        text_of(alloc, 2, count)?,
        text_of(alloc, 3, count)?,
    ];
    Ok(Vec::from_array(alloc, texts)?)
}
