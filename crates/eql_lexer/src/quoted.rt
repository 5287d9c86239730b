//! What stands between quotes and between backticks.
ghost use Rattle.std.specs.Prelude.{◌≡◌, ◌≢◌, ◌∷◌, ◌+◌, ◌≤◌, None, Some, false, length, true, IfOk, IfErr, MatchOption, IfSome, drop};
ghost use Rattle.std.specs.Prelude.{if◌then◌else◌};
ghost use Rattle.std.specs.Str.{IsUtf8, chars};
ghost use Rattle.eql_lexer.specs.declared.refusal.Rule.TheVariants as rule;
ghost use Rattle.eql_lexer.specs.declared.refusal.Fault.TheVariants as fault;
ghost use Rattle.eql_lexer.specs.Strings.{IsBadEscape, IsContent, before_triple, is_closed, quoted_name, triple};
ghost use Rattle.eql_lexer.specs.Spelling.{IsRawString, IsLineString, IsQuotedName};
ghost use Rattle.eql_lexer.specs.Refusing.{HasContentFault, HasRawFault, HasNameFault};

use crate::byte::{begins_triple, begins_with, skip, split};
use crate::escape::leading_escape;
use crate::refusal::{Fault, Rule};
use eql_values::Text;
use std::alloc::Global;

/// The text of bytes that are UTF-8.
pub fn text_of(bytes: Vec<u8>) -> Text
    requires { IsUtf8 bytes.items }
    ensures { result ≡ chars bytes.items }
{
    match String::from_utf8(bytes) {
        Ok(string) => Text::of(string),
        Err(_) => unreachable!(),
    }
}

/// How many bytes stand before the first three quotes.
fn raw_len(bytes: &[u8]) -> usize
    ensures value { result ≡ before_triple bytes.now }
    ensures within { result ≤ length bytes.now }
{
    let mut rest = bytes;
    let mut n = 0;
    while let [_, more @ ..] = rest {
        if begins_triple(rest) {
            return n;
        }
        n += 1;
        rest = more;
    }
    n
}

/// The string behind `"""`, up to the next one, and what follows. `opening` is how many bytes are
/// left where the string begins.
pub fn raw_string(alloc: Global, bytes: &[u8], opening: usize) -> Result<(Text, &[u8]), Fault>
    requires { IsUtf8 bytes.now }
    ensures found { IfOk result (λ x. IsRawString bytes.now x.0 x.1.now) }
    ensures refused { IfErr result (HasRawFault bytes.now opening) }
{
    let len = raw_len(bytes);
    let behind = skip(bytes, len);
    if !begins_triple(behind) {
        return Err(Fault::Broken(Rule::OpenString, opening));
    }
    let content = Vec::from_slice(alloc, &bytes[..len])?;
    Ok((text_of(content), skip(behind, 3)))
}

/// A closing quote stands before the end of the line.
fn closes(bytes: &[u8]) -> bool
    ensures { result ≡ is_closed bytes.now }
{
    let mut rest = bytes;
    let mut behind = false;
    while let [b, more @ ..] = rest {
        if *b == b'\n' {
            return false;
        }
        if !behind && *b == b'"' {
            return true;
        }
        behind = !behind && *b == b'\\';
        rest = more;
    }
    false
}

/// The bytes of the string behind a quote, up to the closing one, and what follows. `opening` is
/// how many bytes are left where the string begins.
fn line_content(alloc: Global, bytes: &[u8], opening: usize) -> Result<(Vec<u8>, &[u8]), Fault>
    requires { IsUtf8 bytes.now }
    ensures found { IfOk result (λ x. IsContent bytes.now x.0.items x.1.now) }
    ensures utf8 { IfOk result (λ x. IsUtf8 x.0.items) }
    ensures refused { IfErr result (HasContentFault bytes.now opening) }
{
    let mut out = Vec::new(alloc);
    let mut rest = bytes;
    while let Some((b, more)) = split(rest) {
        if b == b'"' {
            return Ok((out, more));
        }
        if b == b'\n' {
            return Err(Fault::Broken(Rule::OpenString, opening));
        }
        if b == b'\\' {
            let Some((c, behind)) = leading_escape(more) else {
                return Err(bad_escape(rest, opening));
            };
            out.extend_from_slice(c.encode_utf8(&mut [0; 4]).as_bytes())?;
            rest = behind;
        } else {
            out.push(b)?;
            rest = more;
        }
    }
    Err(Fault::Broken(Rule::OpenString, opening))
}

/// Why a string is refused in which a backslash begins no escape.
fn bad_escape(rest: &[u8], opening: usize) -> Fault
    ensures { result ≡ (if is_closed rest.now
        then fault.Broken rule.BadEscape (length rest.now)
        else fault.Broken rule.OpenString opening) }
{
    if closes(rest) {
        Fault::Broken(Rule::BadEscape, rest.len())
    } else {
        Fault::Broken(Rule::OpenString, opening)
    }
}

/// The string behind a quote, up to the closing one on its line, and what follows. `opening` is
/// how many bytes are left where the string begins.
pub fn line_string(alloc: Global, bytes: &[u8], opening: usize) -> Result<(Text, &[u8]), Fault>
    requires { IsUtf8 bytes.now }
    ensures found { IfOk result (λ x. IsLineString bytes.now x.0 x.1.now) }
    ensures refused { IfErr result (HasContentFault bytes.now opening) }
{
    let (content, rest) = line_content(alloc, bytes, opening)?;
    Ok((text_of(content), rest))
}

/// The bytes of the name behind a backtick, up to the closing one on its line, and what follows.
/// `opening` is how many bytes are left where the name begins.
fn name_content(alloc: Global, bytes: &[u8], opening: usize) -> Result<(Vec<u8>, &[u8]), Fault>
    requires { IsUtf8 bytes.now }
    ensures found { IfOk result (λ x. quoted_name bytes.now ≡ Some (x.0.items, x.1.now)) }
    ensures utf8 { IfOk result (λ x. IsUtf8 x.0.items) }
    ensures refused { IfErr result (HasNameFault bytes.now opening) }
{
    let mut out = Vec::new(alloc);
    let mut rest = bytes;
    while let Some((b, more)) = split(rest) {
        if b == b'\n' {
            return Err(Fault::Broken(Rule::OpenString, opening));
        }
        if b != b'`' {
            out.push(b)?;
            rest = more;
        } else if begins_with(b'`', more) {
            out.push(b)?;
            rest = skip(more, 1);
        } else {
            return Ok((out, more));
        }
    }
    Err(Fault::Broken(Rule::OpenString, opening))
}

/// The name behind a backtick, up to the closing one on its line, and what follows. `opening` is
/// how many bytes are left where the name begins.
pub fn back_name(alloc: Global, bytes: &[u8], opening: usize) -> Result<(Text, &[u8]), Fault>
    requires { IsUtf8 bytes.now }
    ensures found { IfOk result (λ x. IsQuotedName bytes.now x.0 x.1.now) }
    ensures refused { IfErr result (HasNameFault bytes.now opening) }
{
    let (content, rest) = name_content(alloc, bytes, opening)?;
    if content.is_empty() {
        return Err(Fault::Broken(Rule::OpenString, opening));
    }
    Ok((text_of(content), rest))
}
