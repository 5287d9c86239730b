//! Laws of queries, for any text and tokens: each is the contract of a function that does nothing.
ghost use Rattle.std.specs.Prelude.{◌≡◌, ◌≤◌, ◌⊎◌, ℕ, List, encode_utf8_all};
ghost use Rattle.std.specs.Str.{IsUtf8};
ghost use Rattle.eql_lexer.specs.declared.token.Token.{Token};
ghost use Rattle.eql_lexer.specs.Spelling.{Spells};
ghost use Rattle.eql_parser.specs.declared.refusal.ParseRefused.{ParseRefused};
ghost use Rattle.eql_parser.specs.Limits.{levels, OpensAtMost};
ghost use Rattle.eql_parser.specs.Printed.{query_shown};
ghost use Rattle.eql_parser.specs.QueryGrammar.{IsQuery};
ghost use Rattle.eql_query.specs.QueryTree.{QueryTree};
ghost use Rattle.eql_parser.specs.Refusing.{IsMemory, RefusesTokens};

/// Tokens are one query at most.
pub fn one_query()
    ensures { (tokens : List Token) (p q : QueryTree)
        → IsQuery tokens p → IsQuery tokens q → p ≡ q }
{}

/// Nothing is left out: every list of tokens is a query within the limits, or has a cause of a
/// refusal other than want of memory.
pub fn query_or_refused()
    ensures { (tokens : List Token)
        → ((q : QueryTree) × IsQuery tokens q × (levels q ≤ 64) × OpensAtMost 128 tokens)
        ⊎ ((r : ParseRefused) × (IsMemory r → ⊥) × RefusesTokens tokens r) }
{}

/// Two refusals of the same tokens are the same, with their word and their place, where neither is
/// want of memory.
pub fn one_refusal()
    ensures { (tokens : List Token) (r s : ParseRefused)
        → (IsMemory r → ⊥) → (IsMemory s → ⊥)
        → RefusesTokens tokens r → RefusesTokens tokens s → r ≡ s }
{}

/// The canonical text of a query that a text spells spells this query again. In it at most as many
/// parentheses stand open as the query has levels, so `parse` returns this query for it where the
/// query has at most 64 levels.
pub fn prints_back()
    ensures { (text : List ℕ) (tokens : List Token) (query : QueryTree)
        → Spells text tokens → IsUtf8 text → IsQuery tokens query
        → (us : List Token) × Spells (encode_utf8_all (query_shown query)) us × IsQuery us query
        × OpensAtMost (levels query) us }
{}
