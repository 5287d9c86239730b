//! What others play.
ghost use Rattle.std.specs.Prelude.{◌≡◌};

use std::marker::Model;

/// An operation of others.
#[derive(Clone, Copy)]
pub enum Foreign {
    /// A lane is fed.
    Feed {
        /// The lane, from 0.
        lane: u32,
        /// How many lines are read at most, from 1 to 4,096.
        max: u32,
    },
    /// A part plays events.
    Turn {
        /// The part, from 0.
        part: u32,
        /// How many are played at most, from 1 to 4,096.
        max: u32,
    },
}

/// Operations of others, in the order in which they are played.
#[derive(Drop)]
pub struct Foreigns {
    items: Vec<Foreign>,
}

impl Model for Foreigns {
    ghost use Rattle.std.specs.Prelude.{List};
    ghost use Rattle.eql_replay.specs.declared.foreign.Foreign.{Foreign};

    ghost Value = { List Foreign };

    ghost view = { λ l. l.items.items };
}

impl Foreigns {
    /// The list of these operations.
    pub fn of(items: Vec<Foreign>) -> Foreigns
        ensures { result ≡ items.items }
    {
        Foreigns { items }
    }

    /// The operations, lent.
    pub fn items(&self) -> &Vec<Foreign>
        ensures { result.now.items ≡ self.now }
    {
        &self.items
    }

    /// The operations, taken out.
    pub fn into_items(self) -> Vec<Foreign>
        ensures { result.items ≡ self }
    {
        self.items
    }
}
