//! Names of files, seen as their bytes.
ghost use Rattle.std.specs.Prelude.{◌≡◌, string_bytes};

use std::marker::Model;

/// The name of a file or of a checkpoint. Contracts see it as its bytes, which are UTF-8.
#[derive(Drop)]
pub struct Name {
    name: String,
}

impl Model for Name {
    ghost use Rattle.std.specs.Prelude.{List, ℕ, string_bytes};

    ghost Value = { List ℕ };

    ghost view = { λ n. string_bytes n.name };
}

impl Name {
    /// The name that a string has.
    pub fn of(name: String) -> Name
        ensures { result ≡ string_bytes name }
    {
        Name { name }
    }

    /// The string of the name, lent.
    pub fn name(&self) -> &String
        ensures { string_bytes result.now ≡ self.now }
    {
        &self.name
    }
}

/// A list of names.
#[derive(Drop)]
pub struct Names {
    items: Vec<Name>,
}

impl Model for Names {
    ghost use Rattle.std.specs.Prelude.{List, ℕ};

    ghost Value = { List (List ℕ) };

    ghost view = { λ l. l.items.items };
}

impl Names {
    /// The list of these names.
    pub fn of(items: Vec<Name>) -> Names
        ensures { result ≡ items.items }
    {
        Names { items }
    }

    /// The names, lent.
    pub fn items(&self) -> &Vec<Name>
        ensures { result.now.items ≡ self.now }
    {
        &self.items
    }

    /// The names, taken out.
    pub fn into_items(self) -> Vec<Name>
        ensures { result.items ≡ self }
    {
        self.items
    }
}
