//! JSON texts as they stand in a line: what steers a terminal is written by its number.
ghost use Rattle.std.specs.Prelude.{◌≡◌, ◌<◌, ◌++◌, encode_utf8_all, string_bytes, OnOk, true};
ghost use Rattle.std.specs.Str.{chars};
ghost use Rattle.eql_book.specs.Listing.{json_char, json_chars, json_escape};

use eql_values::{is_hidden, push_hex_digit};
use std::alloc::AllocError;

/// Puts the escape of a character's number at the end of a line.
fn push_escape(line: &mut String, number: u32) -> Result<(), AllocError>
    requires { number < 65536 }
    ensures { OnOk result (string_bytes line.new ≡ string_bytes line.old ++ json_escape number) }
{
    line.push_str("\\u")?;
    push_hex_digit(line, number / 4096)?;
    push_hex_digit(line, number / 256 % 16)?;
    push_hex_digit(line, number / 16 % 16)?;
    push_hex_digit(line, number % 16)
}

/// Puts a character at the end of a line.
fn push_char(line: &mut String, c: char) -> Result<(), AllocError>
    ensures { let written = encode_utf8_all (json_char c) in
        OnOk result (string_bytes line.new ≡ string_bytes line.old ++ written) }
{
    if is_hidden(c) {
        return push_escape(line, c as u32);
    }
    line.push(c)
}

/// Puts a text at the end of a line, character by character.
fn push_chars(line: &mut String, text: &str) -> Result<(), AllocError>
    ensures { let written = encode_utf8_all (json_chars (chars text.now)) in
        OnOk result (string_bytes line.new ≡ string_bytes line.old ++ written) }
{
    for c in text.chars() {
        push_char(line, c)?;
    }
    Ok(())
}

/// Whether a text is listed as it is.
fn stays(text: &str) -> bool
    ensures { result ≡ true → json_chars (chars text.now) ≡ chars text.now }
{
    for c in text.chars() {
        if is_hidden(c) {
            return false;
        }
    }
    true
}

/// Puts a text that is listed as it is at the end of a line.
fn push_plain(line: &mut String, text: &str) -> Result<(), AllocError>
    requires { json_chars (chars text.now) ≡ chars text.now }
    ensures { let written = encode_utf8_all (json_chars (chars text.now)) in
        OnOk result (string_bytes line.new ≡ string_bytes line.old ++ written) }
{
    line.push_str(text)?;
    Ok(())
}

/// Puts a JSON text at the end of a line, without a character that steers a terminal.
pub(crate) fn push_json(line: &mut String, text: &str) -> Result<(), AllocError>
    ensures { let written = encode_utf8_all (json_chars (chars text.now)) in
        OnOk result (string_bytes line.new ≡ string_bytes line.old ++ written) }
{
    if stays(text) {
        return push_plain(line, text);
    }
    push_chars(line, text)
}
