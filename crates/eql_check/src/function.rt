//! The functions of the language.
ghost use Rattle.std.specs.Prelude.{◌≡◌};
ghost use Rattle.eql_check.specs.Names.{function_of, has_folding, function_named};

use eql_values::Text;

/// A function of the language (EQL function reference).
#[derive(Clone, Copy, PartialEq, Eq)]
pub enum Function {
    /// `add(a, b)`
    Add,
    /// `subtract(a, b)`
    Subtract,
    /// `multiply(a, b)`
    Multiply,
    /// `divide(a, b)`
    Divide,
    /// `modulo(a, b)`
    Modulo,
    /// `length(s)`
    Length,
    /// `indexOf(s, t[, from])`
    IndexOf,
    /// `startsWith(s, t)`
    StartsWith,
    /// `endsWith(s, t)`
    EndsWith,
    /// `stringContains(s, t)`
    StringContains,
    /// `concat(a, ..)`
    Concat,
    /// `substring(s, a[, b])`
    Substring,
    /// `between(s, l, r[, greedy])`
    Between,
    /// `string(a)`
    String,
    /// `number(s)`
    Number,
    /// `cidrMatch(a, block, ..)`
    CidrMatch,
}

impl Function {
    /// The function that a call names; `fold` says that a `~` follows the name. `None` where there is no such
    /// function, or where it has no form with `~`.
    pub fn of(name: &Text, fold: bool) -> Option<Function>
        ensures { result ≡ function_of name.now fold }
    {
        let function = by_name(name)?;
        if fold && !function.folds() {
            None
        } else {
            Some(function)
        }
    }

    /// Whether the function has a form with `~`, which compares without regard to case.
    pub fn folds(self) -> bool
        ensures { result ≡ has_folding self }
    {
        matches!(
            self,
            Function::IndexOf
                | Function::StartsWith
                | Function::EndsWith
                | Function::StringContains
                | Function::Between
        )
    }
}

/// The function with this name.
fn by_name(name: &Text) -> Option<Function>
    ensures { result ≡ function_named name.now }
{
    match name.text() {
        "add" => Some(Function::Add),
        "subtract" => Some(Function::Subtract),
        "multiply" => Some(Function::Multiply),
        "divide" => Some(Function::Divide),
        "modulo" => Some(Function::Modulo),
        "length" => Some(Function::Length),
        "indexOf" => Some(Function::IndexOf),
        "startsWith" => Some(Function::StartsWith),
        "endsWith" => Some(Function::EndsWith),
        "stringContains" => Some(Function::StringContains),
        "concat" => Some(Function::Concat),
        "substring" => Some(Function::Substring),
        "between" => Some(Function::Between),
        "string" => Some(Function::String),
        "number" => Some(Function::Number),
        "cidrMatch" => Some(Function::CidrMatch),
        _ => None,
    }
}
