//! What is returned for texts: by the check of a query, or by a condition.
use crate::tests::condition::given;
use eql_check::{Checked, Mapping, can_check, check};
use eql_lexer::{Tokens, lex};
use eql_parser::parse;
use eql_query::Query;
use eql_values::Memory;
use std::alloc::{AllocError, Global};
use std::process::Abort;
use std::test::Fail;

/// What is asked about texts.
#[derive(Clone, Copy)]
pub enum Asked {
    /// What the check of a query returns.
    Check,
    /// What a condition gives.
    Value,
}

/// The fields that most queries here name.
static OF_QUERIES: &[u8] =
    br#"{"t":"keyword","n":"long","m":"long","b":"boolean","a":"ip","c":"ip"}"#;

/// The fields that conditions name. `nb`, `nl`, `nt`, `ni` and `process.pid` have no value, and `?x` isn't among them.
static OF_CONDITIONS: &[u8] = br#"{"b":"boolean","l":"long","t":"keyword","i":"ip",
"nb":"boolean","nl":"long","nt":"keyword","ni":"ip",
"event.type":"keyword","process.name":"keyword","process.args_count":"long","process.pid":"long",
"destination.ip":"ip","destination.port":"long","user.name":"keyword"}"#;

impl Asked {
    /// The mapping of the fields that texts name.
    fn fields(self) -> &'static [u8] {
        match self {
            Asked::Check => OF_QUERIES,
            Asked::Value => OF_CONDITIONS,
        }
    }

    /// What stands before each text.
    fn front(self) -> &'static str {
        match self {
            Asked::Check => "",
            Asked::Value => "any where ",
        }
    }
}

/// A mapping, and what is asked about texts that name its fields.
#[derive(Drop)]
pub struct Trial {
    /// The mapping.
    pub mapping: Mapping,
    /// What is asked.
    pub asked: Asked,
}

impl Trial {
    /// What is asked, over the fields of its texts.
    pub fn of(alloc: Global, asked: Asked) -> Result<Trial, Fail> {
        Ok(Trial {
            mapping: Mapping::read(alloc, asked.fields())?,
            asked,
        })
    }
}

/// Sees that this is what is wanted of a text.
pub fn see(rt: &impl Abort, text: &str, got: &str, wanted: &str) {
    assert!(rt; got == wanted, "{text}: {got} and not {wanted}");
}

/// What a line says behind this, where it begins with it.
pub fn behind<'a>(line: &'a str, front: &str) -> &'a str {
    match line.strip_prefix(front) {
        Some(rest) => rest,
        None => line,
    }
}

/// A line of these words.
fn plain(alloc: Global, words: &str) -> Result<String, Memory> {
    Ok(String::from_str(alloc, words)?)
}

/// Adds the fields that a checked query uses.
fn push_fields(line: &mut String, checked: &Checked) -> Result<(), AllocError> {
    for field in checked.fields().items() {
        line.push(' ')?;
        line.push_str(field.0.text())?;
    }
    Ok(())
}

/// A checked query as one line: the number of its keys, and the fields that it uses.
fn shown(alloc: Global, checked: &Checked) -> Result<String, Memory> {
    let mut line = format!(in alloc; "{} keys", checked.keys())?;
    push_fields(&mut line, checked)?;
    Ok(line)
}

/// What is asked about a checked query.
fn told(alloc: Global, asked: Asked, checked: &Checked) -> Result<String, Memory> {
    match asked {
        Asked::Check => shown(alloc, checked),
        Asked::Value => plain(alloc, given(alloc, checked)?),
    }
}

/// What is returned for a query.
fn answer_to(alloc: Global, trial: &Trial, query: &Query) -> Result<String, Memory> {
    if !can_check(query) {
        return plain(alloc, "too many items");
    }
    match check(alloc, query, &trial.mapping) {
        Ok(checked) => told(alloc, trial.asked, &checked),
        Err(refused) => refused.message(alloc),
    }
}

/// What is returned for these tokens.
fn answer_to_tokens(alloc: Global, trial: &Trial, tokens: &Tokens) -> Result<String, Memory> {
    match parse(alloc, tokens) {
        Ok(query) => answer_to(alloc, trial, &query),
        Err(_) => plain(alloc, "no query"),
    }
}

/// What is returned for a whole text.
fn answer_to_whole(alloc: Global, trial: &Trial, whole: &str) -> Result<String, Memory> {
    match lex(alloc, whole.as_bytes()) {
        Ok(tokens) => answer_to_tokens(alloc, trial, &tokens),
        Err(_) => plain(alloc, "no tokens"),
    }
}

/// What is returned for a text.
fn answer(alloc: Global, trial: &Trial, text: &str) -> Result<String, Memory> {
    let whole = format!(in alloc; "{}{text}", trial.asked.front())?;
    answer_to_whole(alloc, trial, whole.as_str())
}

/// Sees that this is returned for a text; of a refusal what it says behind `check: `.
fn answers(
    rt: &impl Abort,
    alloc: Global,
    trial: &Trial,
    text: &str,
    wanted: &str,
) -> Result<(), Memory> {
    let got = answer(alloc, trial, text)?;
    see(rt, text, behind(got.as_str(), "check: "), wanted);
    Ok(())
}

/// Sees that this is returned for a query that has this name; of a refusal what it says behind `check: `.
pub fn query_answers(
    rt: &impl Abort,
    alloc: Global,
    trial: &Trial,
    name: &str,
    query: &Query,
    wanted: &str,
) -> Result<(), Memory> {
    let got = answer_to(alloc, trial, query)?;
    see(rt, name, behind(got.as_str(), "check: "), wanted);
    Ok(())
}

/// The text of a row, and what is returned for it: what stands before ` => ` and behind it.
fn row(line: &str) -> (&str, &str) {
    match line.rsplit_once(" => ") {
        Some(row) => row,
        None => (line, ""),
    }
}

/// Whether a line of a table is no row: an empty one or a comment.
fn is_no_row(line: &str) -> bool {
    line.is_empty() || line.starts_with("// ")
}

/// Sees that what a line of a table says is returned.
fn line_answers(rt: &impl Abort, alloc: Global, trial: &Trial, line: &str) -> Result<(), Memory> {
    if is_no_row(line) {
        return Ok(());
    }
    let (text, wanted) = row(line);
    answers(rt, alloc, trial, text, wanted)
}

/// The same for each line.
pub fn each_line_answers(
    rt: &impl Abort,
    alloc: Global,
    trial: &Trial,
    table: &str,
) -> Result<(), Memory> {
    for line in table.lines() {
        line_answers(rt, alloc, trial, line)?;
    }
    Ok(())
}

/// Sees that for the text of each row of a table is returned what stands behind ` => `: for a query the number of its
/// keys and the fields that it uses, or the rule that it breaks; for a condition `true`, `false` or `null`.
pub fn each_answers(rt: &impl Abort, alloc: Global, asked: Asked, table: &str) -> Result<(), Fail> {
    let trial = Trial::of(alloc, asked)?;
    let seen = each_line_answers(rt, alloc, &trial, table);
    drop(trial);
    Ok(seen?)
}

/// The same for one text that can't stand in a table.
pub fn one_answers(
    rt: &impl Abort,
    alloc: Global,
    asked: Asked,
    text: &str,
    wanted: &str,
) -> Result<(), Fail> {
    let trial = Trial::of(alloc, asked)?;
    let seen = answers(rt, alloc, &trial, text, wanted);
    drop(trial);
    Ok(seen?)
}
