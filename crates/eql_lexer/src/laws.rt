//! Laws of spelling, for any text: each is the contract of a function that does nothing.
ghost use Rattle.std.specs.Prelude.{◌≡◌, ◌⊎◌, ℕ, List};
ghost use Rattle.eql_lexer.specs.declared.token.Token.{Token};
ghost use Rattle.eql_lexer.specs.declared.refusal.Rule.{Rule};
ghost use Rattle.eql_lexer.specs.Spelling.{Spells};
ghost use Rattle.eql_lexer.specs.Refusing.{BreaksAt};

/// A text spells one list of tokens at most.
pub fn one_list()
    ensures { (text : List ℕ) (ts us : List Token) → Spells text ts → Spells text us → ts ≡ us }
{}

/// A text in which a rule is broken spells no tokens.
pub fn none_spelled()
    ensures { (text : List ℕ) (r : Rule) (at : ℕ) (us : List Token)
        → BreaksAt text r at → Spells text us → ⊥ }
{}

/// A text breaks one rule of tokens at one place at most, as `lex` reads it: that of the first
/// token that it lacks.
pub fn one_break()
    ensures { (text : List ℕ) (r s : Rule) (at to : ℕ)
        → BreaksAt text r at → BreaksAt text s to → (r ≡ s) × (at ≡ to) }
{}

/// Nothing is left out: every text spells tokens, or breaks a rule of tokens at a place.
pub fn spelled_or_broken()
    ensures { (text : List ℕ)
        → ((ts : List Token) × Spells text ts)
        ⊎ ((r : Rule) × (at : ℕ) × BreaksAt text r at) }
{}
