//! Lines of shards, and their places.
ghost use Rattle.std.specs.Prelude.{◌≡◌};

use std::alloc::AllocError;
use std::marker::Model;

/// Lines of a shard, from 1.
#[derive(Drop)]
pub struct Lines {
    items: Vec<u32>,
}

impl Model for Lines {
    ghost use Rattle.std.specs.Prelude.{ℕ, List};

    ghost Value = { List ℕ };

    ghost view = { λ l. l.items.items };
}

impl Lines {
    /// The list of these lines.
    pub fn of(items: Vec<u32>) -> Lines
        ensures { result ≡ items.items }
    {
        Lines { items }
    }

    /// The lines, lent.
    pub fn items(&self) -> &Vec<u32>
        ensures { result.now.items ≡ self.now }
    {
        &self.items
    }

    /// The lines, taken out.
    pub fn into_items(self) -> Vec<u32>
        ensures { result.items ≡ self }
    {
        self.items
    }
}

impl Clone for Lines {
    ghost is_clone = { λ old new. new ≡ old };

    fn clone(&self) -> Result<Lines, AllocError> {
        let items = self.items.clone()?;
        Ok(Lines { items })
    }
}

/// Lines of a shard, from 1, each with its place: the number of bytes of the shard before it.
#[derive(Drop)]
pub struct Places {
    items: Vec<(u32, u64)>,
}

impl Model for Places {
    ghost use Rattle.std.specs.Prelude.{ℕ, List};

    ghost Value = { List (ℕ × ℕ) };

    ghost view = { λ l. l.items.items };
}

impl Places {
    /// The list of these pairs.
    pub fn of(items: Vec<(u32, u64)>) -> Places
        ensures { result ≡ items.items }
    {
        Places { items }
    }

    /// The pairs, lent.
    pub fn items(&self) -> &Vec<(u32, u64)>
        ensures { result.now.items ≡ self.now }
    {
        &self.items
    }

    /// The pairs, taken out.
    pub fn into_items(self) -> Vec<(u32, u64)>
        ensures { result.items ≡ self }
    {
        self.items
    }
}

impl Clone for Places {
    ghost is_clone = { λ old new. new ≡ old };

    fn clone(&self) -> Result<Places, AllocError> {
        let items = self.items.clone()?;
        Ok(Places { items })
    }
}

/// The lines of each shard with their places.
#[derive(Drop)]
pub struct PlaceLists {
    items: Vec<Places>,
}

impl Model for PlaceLists {
    ghost use Rattle.std.specs.Prelude.{ℕ, List};

    ghost Value = { List (List (ℕ × ℕ)) };

    ghost view = { λ l. l.items.items };
}

impl PlaceLists {
    /// The list of these lists.
    pub fn of(items: Vec<Places>) -> PlaceLists
        ensures { result ≡ items.items }
    {
        PlaceLists { items }
    }

    /// The lists, lent.
    pub fn items(&self) -> &Vec<Places>
        ensures { result.now.items ≡ self.now }
    {
        &self.items
    }

    /// The lists, taken out.
    pub fn into_items(self) -> Vec<Places>
        ensures { result.items ≡ self }
    {
        self.items
    }
}

impl Clone for PlaceLists {
    ghost is_clone = { λ old new. new ≡ old };

    fn clone(&self) -> Result<PlaceLists, AllocError> {
        let items = self.items.clone()?;
        Ok(PlaceLists { items })
    }
}
