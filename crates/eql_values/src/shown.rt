//! How names and texts of the input are printed in messages, and what other printers share of
//! that.
ghost use Rattle.std.specs.Prelude.{◌≡◌, ◌<◌, ◌++◌, ◌∷◌, [], encode_utf8_all, string_bytes, OnOk};
ghost use Rattle.std.specs.Str.{chars};
ghost use Rattle.eql_values.specs.Shown.{hex_digit, upper_digits, escape_by_number};
ghost use Rattle.eql_values.specs.Shown.{is_hidden, shown_char, shown_text};

use crate::memory::Memory;
use std::alloc::AllocError;

/// A hexadecimal digit in lower case.
pub fn hex_digit(number: u32) -> char
    requires { number < 16 }
    ensures { result ≡ hex_digit number }
{
    char::from_digit(number, 16).unwrap_or('0')
}

/// Whether a character steers a terminal or changes how a line is read, and so is written by its
/// number: a control character, a separator of lines or paragraphs, or a mark that turns the
/// direction of writing.
pub fn is_hidden(c: char) -> bool
    ensures { result ≡ is_hidden c }
{
    matches!(c,
        '\0'..='\u{1f}'
        | '\u{7f}'..='\u{9f}'
        | '\u{200e}'..='\u{200f}'
        | '\u{2028}'..='\u{202e}'
        | '\u{2066}'..='\u{2069}')
}

/// Puts a hexadecimal digit at the end of a line.
pub fn push_hex_digit(line: &mut String, number: u32) -> Result<(), AllocError>
    requires { number < 16 }
    ensures { OnOk result
        (string_bytes line.new ≡ string_bytes line.old ++ hex_digit number ∷ []) }
{
    line.push(hex_digit(number))
}

/// Puts the upper two hexadecimal digits of a number at the end of a line, where it has more than
/// two.
fn push_upper(line: &mut String, number: u32) -> Result<(), AllocError>
    requires { number < 65536 }
    ensures { OnOk result (string_bytes line.new ≡ string_bytes line.old ++ upper_digits number) }
{
    if number < 256 {
        return Ok(());
    }
    push_hex_digit(line, number / 4096)?;
    push_hex_digit(line, number / 256 % 16)
}

/// Puts the escape of a character's number at the end of a line.
fn push_number(line: &mut String, number: u32) -> Result<(), AllocError>
    requires { number < 65536 }
    ensures { OnOk result (string_bytes line.new
        ≡ string_bytes line.old ++ escape_by_number number) }
{
    line.push_str("\\u{")?;
    push_upper(line, number)?;
    push_hex_digit(line, number / 16 % 16)?;
    push_hex_digit(line, number % 16)?;
    line.push('}')
}

/// Puts a character at the end of a line, as it is printed.
fn push_char(line: &mut String, c: char) -> Result<(), AllocError>
    ensures { let printed = encode_utf8_all (shown_char c) in
        OnOk result (string_bytes line.new ≡ string_bytes line.old ++ printed) }
{
    match c {
        '\n' => line.push_str("\\n"),
        '\r' => line.push_str("\\r"),
        '\t' => line.push_str("\\t"),
        c if is_hidden(c) => push_number(line, c as u32),
        c => line.push(c),
    }
}

/// Puts a text at the end of a line, as it is printed in messages: as it is, but for control
/// characters, separators of lines and paragraphs, and marks that turn the direction of writing.
/// These are written by the escapes `\n`, `\r`, `\t` and `\u{..}`, with the number in hexadecimal
/// digits. Where memory runs out, a front of it may have been put.
pub fn push_shown(line: &mut String, text: &str) -> Result<(), Memory>
    ensures { let printed = encode_utf8_all (shown_text (chars text.now)) in
        OnOk result (string_bytes line.new ≡ string_bytes line.old ++ printed) }
{
    for c in text.chars() {
        push_char(line, c)?;
    }
    Ok(())
}
