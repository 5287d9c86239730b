//! A text that grows by one part after another.
ghost use Rattle.std.specs.Prelude.{◌≡◌, ◌++◌, ◌∷◌, [], IsTrue, OnOk};
ghost use Rattle.eql_parser.specs.Adding.{Adds, all_ascii};
ghost use Rattle.std.specs.Str.{chars};
ghost use Rattle.std.specs.Fmt.{signed_decimal};

use eql_values::{Memory, Text};
use std::alloc::Global;
use std::marker::Model;

/// A text that is being written. Contracts see it as the list of its characters.
#[derive(Drop)]
pub(crate) struct Page {
    text: String,
}

impl Model for Page {
    ghost use Rattle.std.specs.Prelude.{List, ℕ, string_bytes};
    ghost use Rattle.std.specs.Str.{chars};

    ghost Value = { List ℕ };

    ghost view = { λ p. chars (string_bytes p.text) };
}

impl Page {
    /// An empty page.
    pub(crate) fn new(alloc: Global) -> Page
        ensures { result ≡ [] }
    {
        Page {
            text: String::new(alloc),
        }
    }

    /// What is written on it.
    pub(crate) fn into_text(self) -> Text
        ensures { result ≡ self }
    {
        Text::of(self.text)
    }

    /// Writes a word or sign of ASCII characters.
    pub(crate) fn put(&mut self, part: &str) -> Result<(), Memory>
        requires { IsTrue (all_ascii part.now) }
        ensures { OnOk result (Adds self.old self.new (λ rest. part.now ++ rest)) }
    {
        self.text.push_str(part)?;
        Ok(())
    }

    /// Writes a name as it is.
    pub(crate) fn put_name(&mut self, name: &str) -> Result<(), Memory>
        ensures { OnOk result (Adds self.old self.new (λ rest. chars name.now ++ rest)) }
    {
        self.text.push_str(name)?;
        Ok(())
    }

    /// Writes a character.
    pub(crate) fn put_char(&mut self, character: char) -> Result<(), Memory>
        ensures { OnOk result (Adds self.old self.new (λ rest. character ∷ rest)) }
    {
        self.text.push(character)?;
        Ok(())
    }

    /// Writes a number in decimal digits.
    pub(crate) fn put_number(&mut self, number: &i64) -> Result<(), Memory>
        ensures { OnOk result (Adds self.old self.new
            (λ rest. signed_decimal number.now ++ rest)) }
    {
        write!(self.text, "{number}")?;
        Ok(())
    }
}
