//! Words of a query: keywords, names, and words that a place asks for.
ghost use Rattle.std.specs.Prelude.{◌≡◌, nat_lt, true};
ghost use Rattle.std.specs.List.{list_all};
ghost use Rattle.std.specs.Option.{option_map};
ghost use Rattle.std.specs.Str.{bytes_eq};
ghost use Rattle.eql_parser.specs.Kinds.{keywords, plain_kind, word_in, word_kind};
ghost use Rattle.eql_parser.specs.Pieces.{entries, keyword_kind, piece_kind};

use crate::parser::piece::Piece;
use eql_query::PatOp;
use eql_values::Text;

/// A keyword.
#[derive(Clone, Copy)]
enum Keyword {
    And,
    Any,
    By,
    False,
    In,
    /// `in~`, which ignores case.
    InFold,
    Join,
    Like,
    /// `like~`, which ignores case.
    LikeFold,
    Maxspan,
    Not,
    Null,
    Or,
    Regex,
    /// `regex~`, which ignores case.
    RegexFold,
    Sample,
    Sequence,
    True,
    Until,
    Where,
    With,
}

/// The keywords, each with its spelling.
static KEYWORDS: &[(&[u8], Keyword)] = &[
    (b"and", Keyword::And),
    (b"any", Keyword::Any),
    (b"by", Keyword::By),
    (b"false", Keyword::False),
    (b"in", Keyword::In),
    (b"in~", Keyword::InFold),
    (b"join", Keyword::Join),
    (b"like", Keyword::Like),
    (b"like~", Keyword::LikeFold),
    (b"maxspan", Keyword::Maxspan),
    (b"not", Keyword::Not),
    (b"null", Keyword::Null),
    (b"or", Keyword::Or),
    (b"regex", Keyword::Regex),
    (b"regex~", Keyword::RegexFold),
    (b"sample", Keyword::Sample),
    (b"sequence", Keyword::Sequence),
    (b"true", Keyword::True),
    (b"until", Keyword::Until),
    (b"where", Keyword::Where),
    (b"with", Keyword::With),
];

/// What a keyword says.
fn keyword_piece<'a>(keyword: Keyword) -> Piece<'a>
    ensures { piece_kind result ≡ keyword_kind keyword }
{
    match keyword {
        Keyword::And => Piece::And,
        Keyword::Any => Piece::Any,
        Keyword::By => Piece::By,
        Keyword::False => Piece::False,
        Keyword::In => Piece::In(false),
        Keyword::InFold => Piece::In(true),
        Keyword::Join => Piece::Join,
        Keyword::Like => Piece::Matches(PatOp::Like),
        Keyword::LikeFold => Piece::Matches(PatOp::LikeFold),
        Keyword::Maxspan => Piece::Maxspan,
        Keyword::Not => Piece::Not,
        Keyword::Null => Piece::Null,
        Keyword::Or => Piece::Or,
        Keyword::Regex => Piece::Regex(false),
        Keyword::RegexFold => Piece::Regex(true),
        Keyword::Sample => Piece::Sample,
        Keyword::Sequence => Piece::Sequence,
        Keyword::True => Piece::True,
        Keyword::Until => Piece::Until,
        Keyword::Where => Piece::Where,
        Keyword::With => Piece::With,
    }
}

/// The keyword that a table has for a word.
fn look_up(word: &[u8], table: &[(&[u8], Keyword)]) -> Option<Keyword>
    ensures { option_map keyword_kind result ≡ word_in (entries table.now) word.now }
{
    let mut rest = table;
    while let [entry, more @ ..] = rest {
        if word == entry.0 {
            return Some(entry.1);
        }
        rest = more;
    }
    None
}

/// Whether a text is this word.
pub fn is_word(text: &Text, word: &[u8]) -> bool
    requires { list_all (λ b. nat_lt b 128) word.now ≡ true }
    ensures { result ≡ bytes_eq text.now word.now }
{
    text.text().as_bytes() == word
}

/// What a word says that is no keyword.
fn plain_piece(word: &Text) -> Piece<'_>
    ensures { piece_kind result ≡ plain_kind word.now }
{
    match word.text().strip_suffix('~') {
        Some(front) => Piece::Folding(front),
        None => Piece::Name(word),
    }
}

/// What a word says.
pub fn word_piece(word: &Text) -> Piece<'_>
    ensures { piece_kind result ≡ word_kind word.now }
{
    match look_up(word.text().as_bytes(), KEYWORDS) {
        Some(keyword) => keyword_piece(keyword),
        None => plain_piece(word),
    }
}
