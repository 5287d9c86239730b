//! The scanner: what a text begins with, token by token.
ghost use Rattle.std.specs.Prelude.{◌≡◌, ◌≢◌, ◌+◌, ◌<◌, ◌≤◌, ℕ, List, ◌∷◌, false, true, length, IfOk, IfErr, Err, MatchResult};
ghost use Rattle.std.specs.Str.{IsUtf8};
ghost use Rattle.eql_lexer.specs.declared.token.Token.{Token as Placed};
ghost use Rattle.eql_lexer.specs.declared.refusal.LexRefused.TheVariants.{TooLong, NotUtf8};
ghost use Rattle.eql_lexer.specs.Bytes.{begins, is_digit, is_letter};
ghost use Rattle.eql_lexer.specs.Strings.{triple};
ghost use Rattle.eql_lexer.specs.Spelling.{IsLexeme, Spells, word_more};
ghost use Rattle.eql_lexer.specs.Refusing.{BreaksWithin, IsMemory, RefusesText, Refuses};

use crate::blank::after_gap;
use crate::byte::{
    begins_fraction_at, begins_triple, begins_with, is_digit_byte, is_letter_byte, skip, split,
};
use crate::number::{digits_len, number_of, word_len};
use crate::quoted::{back_name, line_string, raw_string, text_of};
use crate::refusal::{Fault, LexRefused, Rule, refusal};
use crate::sign::{leading_sign, sign_len};
use crate::token::{Tok, Token, Tokens};
use std::alloc::Global;

/// The most bytes that a text may have.
const MAX_BYTES: usize = 65536;

/// How many bytes go on with a word, a `~` at its end among them.
fn word_more_len(bytes: &[u8]) -> usize
    ensures value { result ≡ word_more bytes.now }
    ensures within { result ≤ length bytes.now }
{
    let len = word_len(bytes);
    if begins_with(b'~', skip(bytes, len)) {
        len + 1
    } else {
        len
    }
}

/// The word that a text begins with, and the rest.
fn word<'a>(
    alloc: Global,
    text: &'a [u8],
    first: u8,
    more: &'a [u8],
) -> Result<(Tok, &'a [u8]), Fault>
    requires cons { text.now ≡ first ∷ more.now }
    requires letter { is_letter first ≡ true }
    ensures found { IfOk result (λ x. IsLexeme text.now x.0 x.1.now) }
    ensures refused { IfErr result (Refuses text.now) }
{
    let len = word_more_len(more);
    let name = Vec::from_slice(alloc, &text[..len + 1])?;
    Ok((Tok::Word(text_of(name)), skip(more, len)))
}

/// The number that a text begins with, and the rest.
fn numeral<'a>(text: &'a [u8], first: u8, more: &'a [u8]) -> Result<(Tok, &'a [u8]), Fault>
    requires cons { text.now ≡ first ∷ more.now }
    requires digit { is_digit first ≡ true }
    ensures found { IfOk result (λ x. IsLexeme text.now x.0 x.1.now) }
    ensures refused { IfErr result (Refuses text.now) }
{
    let len = digits_len(more);
    let rest = skip(more, len);
    if begins_fraction_at(rest) {
        return Err(Fault::Broken(Rule::Fraction, text.len()));
    }
    match number_of(&text[..len + 1]) {
        None => Err(Fault::Broken(Rule::NumberRange, text.len())),
        Some(n) => Ok((Tok::Num(n), rest)),
    }
}

/// The string in three quotes that a text begins with, and the rest.
fn raw<'a>(
    alloc: Global,
    text: &'a [u8],
    first: u8,
    more: &'a [u8],
) -> Result<(Tok, &'a [u8]), Fault>
    requires cons { text.now ≡ first ∷ more.now }
    requires quote { first ≡ 34 }
    requires quotes { triple text.now ≡ true }
    requires utf8 { IsUtf8 text.now }
    ensures found { IfOk result (λ x. IsLexeme text.now x.0 x.1.now) }
    ensures refused { IfErr result (Refuses text.now) }
{
    match raw_string(alloc, skip(more, 2), text.len()) {
        Ok((string, rest)) => Ok((Tok::Str(string), rest)),
        Err(fault) => Err(fault),
    }
}

/// The string in quotes on one line that a text begins with, and the rest.
fn line<'a>(
    alloc: Global,
    text: &'a [u8],
    first: u8,
    more: &'a [u8],
) -> Result<(Tok, &'a [u8]), Fault>
    requires cons { text.now ≡ first ∷ more.now }
    requires quote { first ≡ 34 }
    requires quotes { triple text.now ≡ false }
    requires utf8 { IsUtf8 text.now }
    ensures found { IfOk result (λ x. IsLexeme text.now x.0 x.1.now) }
    ensures refused { IfErr result (Refuses text.now) }
{
    match line_string(alloc, more, text.len()) {
        Ok((string, rest)) => Ok((Tok::Str(string), rest)),
        Err(fault) => Err(fault),
    }
}

/// The name in backticks that a text begins with, and the rest.
fn name<'a>(
    alloc: Global,
    text: &'a [u8],
    first: u8,
    more: &'a [u8],
) -> Result<(Tok, &'a [u8]), Fault>
    requires cons { text.now ≡ first ∷ more.now }
    requires tick { first ≡ 96 }
    requires utf8 { IsUtf8 text.now }
    ensures found { IfOk result (λ x. IsLexeme text.now x.0 x.1.now) }
    ensures refused { IfErr result (Refuses text.now) }
{
    match back_name(alloc, more, text.len()) {
        Ok((name, rest)) => Ok((Tok::Back(name), rest)),
        Err(fault) => Err(fault),
    }
}

/// The sign that a text begins with, and the rest.
fn signed<'a>(text: &'a [u8], first: u8, more: &'a [u8]) -> Result<(Tok, &'a [u8]), Fault>
    requires cons { text.now ≡ first ∷ more.now }
    requires letter { is_letter first ≡ false }
    requires digit { is_digit first ≡ false }
    requires quote { first ≢ 34 }
    requires tick { first ≢ 96 }
    requires single { first ≢ 39 }
    ensures found { IfOk result (λ x. IsLexeme text.now x.0 x.1.now) }
    ensures refused { IfErr result (Refuses text.now) }
{
    if first == b'/' && begins_with(b'*', more) {
        return Err(Fault::Broken(Rule::OpenComment, text.len()));
    }
    match leading_sign(text) {
        None => Err(Fault::Broken(Rule::BadByte, text.len())),
        Some(sign) => Ok((Tok::Sign(sign), skip(text, sign_len(sign)))),
    }
}

/// The token that a text begins with, and the rest.
#[tactic(auto, using(crate::proofs::Places::found_shorter, crate::proofs::Places::refused_within))]
fn lexeme<'a>(
    alloc: Global,
    text: &'a [u8],
    first: u8,
    more: &'a [u8],
) -> Result<(Tok, &'a [u8]), Fault>
    requires cons { text.now ≡ first ∷ more.now }
    requires utf8 { first < 128 → IsUtf8 text.now }
    ensures found { IfOk result (λ x. IsLexeme text.now x.0 x.1.now) }
    ensures shorter { IfOk result (λ x. length x.1.now < length text.now) }
    ensures refused { IfErr result (Refuses text.now) }
    ensures within { IfErr result (BreaksWithin text.now) }
{
    if is_letter_byte(first) {
        word(alloc, text, first, more)
    } else if is_digit_byte(first) {
        numeral(text, first, more)
    } else if first == b'"' {
        if begins_triple(text) {
            raw(alloc, text, first, more)
        } else {
            line(alloc, text, first, more)
        }
    } else if first == b'`' {
        name(alloc, text, first, more)
    } else if first == b'\'' {
        Err(Fault::Broken(Rule::SingleQuote, text.len()))
    } else {
        signed(text, first, more)
    }
}

/// The tokens of a text.
#[tactic(auto, using(crate::proofs::Places::one_more, crate::proofs::Places::refused_by))]
fn tokens_of(alloc: Global, text: &[u8]) -> Result<Tokens, LexRefused>
    requires utf8 { IsUtf8 text.now }
    requires short { length text.now ≤ 65536 }
    ensures found { IfOk result (Spells text.now) }
    ensures refused { IfErr result (RefusesText text.now) }
{
    let mut tokens = Vec::new(alloc);
    let mut rest = text;
    loop {
        let from = after_gap(rest);
        let Some((first, more)) = split(from) else {
            return Ok(Tokens::of(tokens));
        };
        let (tok, behind) = match lexeme(alloc, from, first, more) {
            Ok(found) => found,
            Err(Fault::Memory) => return Err(LexRefused::Memory),
            Err(Fault::Broken(rule, left)) => return Err(refusal(rule, place(text, left))),
        };
        let token = Token {
            tok,
            start: place(text, from.len()),
            end: place(text, behind.len()),
        };
        if tokens.push(token).is_err() {
            return Err(LexRefused::Memory);
        }
        rest = behind;
    }
}

/// The place before the last so many bytes.
fn place(text: &[u8], left: usize) -> u32
    requires left { left ≤ length text.now }
    requires short { length text.now ≤ 65536 }
    ensures { result + left ≡ length text.now }
{
    (text.len() - left) as u32
}

/// The tokens of a text of UTF-8 of at most 65,536 bytes. White space and comments stand between
/// tokens and are dropped. The place of a refusal is the first, from left to right, that breaks a
/// rule; what stands before its token spells tokens.
pub fn lex(alloc: Global, text: &[u8]) -> Result<Tokens, LexRefused>
    // What is returned is what the text spells.
    ensures found { IfOk result (Spells text.now) }
    // Each refusal has its cause.
    ensures refused { IfErr result (RefusesText text.now) }
    // A text that is too long, or not UTF-8, is always refused as such.
    ensures too_long { 65536 < length text.now → result ≡ Err TooLong }
    ensures not_utf8 { length text.now ≤ 65536 → (IsUtf8 text.now → ⊥) → result ≡ Err NotUtf8 }
    // Tokens that the text spells are what is returned, unless memory runs out.
    ensures spelled { (tokens : List Placed)
        → Spells text.now tokens → length text.now ≤ 65536 → IsUtf8 text.now
        → MatchResult result (λ answer. answer ≡ tokens) IsMemory }
{
    if text.len() > MAX_BYTES {
        return Err(LexRefused::TooLong);
    }
    if str::from_utf8(text).is_err() {
        return Err(LexRefused::NotUtf8);
    }
    tokens_of(alloc, text)
}
