//! Tokens by what they say in the grammar: keywords, names, literals and signs.
ghost use Rattle.std.specs.Prelude.{◌≡◌, ◌∷◌, [], MatchOption};
ghost use Rattle.eql_parser.specs.Kinds.{kind, kinds, sign_kind};
ghost use Rattle.eql_parser.specs.Pieces.{piece_kind};

use crate::parser::word::word_piece;
use eql_lexer::{Sign, Tok, Token};
use eql_query::{CmpOp, MathOp, PatOp};
use eql_values::Text;

/// A token by what it says in the grammar.
#[derive(Clone, Copy, Drop)]
pub enum Piece<'a> {
    And,
    Any,
    By,
    False,
    /// `in`, or `in~`, which ignores case.
    In(bool),
    Join,
    Matches(PatOp),
    Maxspan,
    Not,
    Null,
    Or,
    /// `regex`, or `regex~`, which ignores case.
    Regex(bool),
    Sample,
    Sequence,
    True,
    Until,
    Where,
    With,
    /// A word that is no keyword.
    Name(&'a Text),
    /// A word that is no keyword and ends in `~`, without it.
    Folding(&'a str),
    /// A name in backticks.
    Back(&'a Text),
    Str(&'a Text),
    Number(i64),
    Open,
    Close,
    OpenItem,
    CloseItem,
    Comma,
    Dot,
    Bar,
    Question,
    Bang,
    Assign,
    Compares(CmpOp),
    Adds(MathOp),
    Multiplies(MathOp),
}

/// What a sign says.
fn sign_piece<'a>(sign: Sign) -> Piece<'a>
    ensures { piece_kind result ≡ sign_kind sign }
{
    match sign {
        Sign::Open => Piece::Open,
        Sign::Close => Piece::Close,
        Sign::OpenBracket => Piece::OpenItem,
        Sign::CloseBracket => Piece::CloseItem,
        Sign::Comma => Piece::Comma,
        Sign::Dot => Piece::Dot,
        Sign::Bar => Piece::Bar,
        Sign::Question => Piece::Question,
        Sign::Bang => Piece::Bang,
        Sign::Assign => Piece::Assign,
        Sign::Equal => Piece::Compares(CmpOp::Eq),
        Sign::NotEqual => Piece::Compares(CmpOp::Ne),
        Sign::Less => Piece::Compares(CmpOp::Lt),
        Sign::AtMost => Piece::Compares(CmpOp::Le),
        Sign::Greater => Piece::Compares(CmpOp::Gt),
        Sign::AtLeast => Piece::Compares(CmpOp::Ge),
        Sign::Colon => Piece::Matches(PatOp::Colon),
        Sign::Plus => Piece::Adds(MathOp::Add),
        Sign::Minus => Piece::Adds(MathOp::Sub),
        Sign::Star => Piece::Multiplies(MathOp::Mul),
        Sign::Slash => Piece::Multiplies(MathOp::Div),
        Sign::Percent => Piece::Multiplies(MathOp::Mod),
    }
}

/// What a token says.
fn token_piece(token: &Token) -> Piece<'_>
    ensures { piece_kind result ≡ kind token.now.tok }
{
    match &token.tok {
        Tok::Word(word) => word_piece(word),
        Tok::Back(name) => Piece::Back(name),
        Tok::Str(text) => Piece::Str(text),
        Tok::Num(number) => Piece::Number(*number),
        Tok::Sign(sign) => sign_piece(*sign),
    }
}

/// What the first token says, and the others.
pub fn split(tokens: &[Token]) -> Option<(Piece<'_>, &[Token])>
    ensures { MatchOption result (tokens.now ≡ [])
        (λ x. kinds tokens.now ≡ piece_kind x.0 ∷ kinds x.1.now) }
{
    match tokens {
        [] => None,
        [first, rest @ ..] => Some((token_piece(first), rest)),
    }
}
