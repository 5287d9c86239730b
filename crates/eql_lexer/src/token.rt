//! Tokens: what they are, where they stand, and lists of them.
ghost use Rattle.std.specs.Prelude.{◌≡◌};

use eql_values::Text;
use std::marker::Model;

/// A sign of the query language.
#[derive(Clone, Copy, Debug, PartialEq, Eq)]
pub enum Sign {
    /// `(`
    Open,
    /// `)`
    Close,
    /// `[`
    OpenBracket,
    /// `]`
    CloseBracket,
    /// `,`
    Comma,
    /// `.`
    Dot,
    /// `|`
    Bar,
    /// `?`
    Question,
    /// `!`
    Bang,
    /// `=`
    Assign,
    /// `==`
    Equal,
    /// `!=`
    NotEqual,
    /// `<`
    Less,
    /// `<=`
    AtMost,
    /// `>`
    Greater,
    /// `>=`
    AtLeast,
    /// `:`
    Colon,
    /// `+`
    Plus,
    /// `-`
    Minus,
    /// `*`
    Star,
    /// `/`
    Slash,
    /// `%`
    Percent,
}

/// A token.
#[derive(Drop)]
pub enum Tok {
    /// A word as it is spelled, with its `@`, `_` and the `~` at its end.
    Word(Text),
    /// A name in backticks, without them; a doubled backtick is one.
    Back(Text),
    /// A string without its quotes; escapes stand for their characters.
    Str(Text),
    /// A number from 0 to 9223372036854775807.
    Num(i64),
    /// A sign.
    Sign(Sign),
}

/// A token and where it stands: the bytes of the text from `start` up to `end`, counted from 0,
/// without `end`.
#[derive(Drop)]
pub struct Token {
    pub tok: Tok,
    pub start: u32,
    pub end: u32,
}

/// A list of tokens.
#[derive(Drop)]
pub struct Tokens {
    items: Vec<Token>,
}

impl Model for Tokens {
    ghost use Rattle.std.specs.Prelude.{List};
    ghost use Rattle.eql_lexer.specs.declared.token.Token.{Token as Placed};

    ghost Value = { List Placed };

    ghost view = { λ t. t.items.items };
}

impl Tokens {
    /// The list of these tokens.
    pub fn of(items: Vec<Token>) -> Tokens
        ensures { result ≡ items.items }
    {
        Tokens { items }
    }

    /// The tokens, lent.
    pub fn items(&self) -> &Vec<Token>
        ensures { result.now.items ≡ self.now }
    {
        &self.items
    }

    /// The tokens, taken out.
    pub fn into_items(self) -> Vec<Token>
        ensures { result.items ≡ self }
    {
        self.items
    }
}
