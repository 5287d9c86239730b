//! A list of values that is to be merged.
ghost use Rattle.std.specs.Prelude.{◌≡◌, ◌++◌, [], IfNone, length, slice_get};
ghost use Rattle.std.specs.Option.{option_copied, option_to_list};

use std::collections::VecDeque;
use std::marker::Model;

/// A list of values, which are taken from its front.
#[derive(Drop)]
pub struct Run<T> {
    items: VecDeque<T>,
}

impl<T> Model for Run<T> {
    ghost use Rattle.std.specs.Prelude.{List};

    ghost Value = { List T };

    ghost view = { λ r. r.items.items };
}

impl<T> Run<T> {
    /// The list of these values.
    pub fn of(items: Vec<T>) -> Run<T>
        ensures { result ≡ items.items }
    {
        Run {
            items: VecDeque::from_vec(items),
        }
    }

    /// How many values it has.
    pub fn len(&self) -> usize
        ensures { result ≡ length self.now }
    {
        self.items.len()
    }

    /// The first value, lent.
    pub fn first(&self) -> Option<&T>
        ensures { option_copied result ≡ slice_get self.now 0 }
    {
        self.items.front()
    }

    /// Takes the first value, if there is one.
    pub fn take_first(&mut self) -> Option<T>
        ensures items { self.old ≡ option_to_list result ++ self.new }
        ensures none { IfNone result (self.old ≡ []) }
    {
        self.items.pop_front()
    }

    /// The values, taken out.
    pub fn into_items(self) -> Vec<T>
        ensures { result.items ≡ self }
    {
        self.items.into_vec()
    }
}
