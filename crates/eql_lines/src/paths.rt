//! The wanted paths, and how far a place in a line has come along each.
ghost use Rattle.std.specs.Prelude.{◌≡◌, ◌≤◌, ℕ, length, option_and_then, option_map, drop, string_bytes, slice_get, true, false, None, OnOk};
ghost use Rattle.eql_lines.specs.Reach.{Scalar, leads, behind, is_nil, at_end};
ghost use Rattle.eql_lines.specs.Found.{one, found_by};
ghost use Rattle.eql_lines.specs.Paths.{path_at, rest_at, Gains};
ghost use Rattle.eql_lines.specs.Places.{in_set};

use crate::places::Places;
use crate::slots::{Seen, Slot};
use std::alloc::AllocError;

/// The paths that are wanted, each the name of a field with its dots.
#[derive(Drop)]
pub(crate) struct Paths {
    pub(crate) paths: Vec<String>,
    ghost few: { length paths.items ≤ 128 },
}

/// The paths that a value may add to, by their places, and how many bytes of each are behind.
#[derive(Clone, Copy, Drop)]
pub(crate) struct Active {
    pub(crate) places: Places,
    pub(crate) at: usize,
}

impl Active {
    /// Whether both have come as far.
    pub(crate) fn is(self, other: Active) -> bool
        ensures { result ≡ true → self ≡ other }
    {
        self.places.is(other.places) && self.at == other.at
    }
}

/// Whether the rest of a path, if there is any, is the name, or begins with the name and a dot.
#[inline(always)]
pub(crate) fn leads(rest: &[u8], name: &[u8]) -> bool
    ensures { result ≡ leads name.now rest.now }
{
    let len = name.len();
    if rest.len() <= len {
        !rest.is_empty() && name == rest
    } else {
        rest[len] == b'.' && name == &rest[..len]
    }
}

impl Paths {
    /// These paths.
    pub(crate) fn of(paths: Vec<String>) -> Paths
        requires { length paths.items ≤ 128 }
        ensures { result.paths ≡ paths }
    {
        Paths { paths }
    }

    /// What the value of the whole line may add to.
    pub(crate) fn whole(&self) -> Active
        ensures { (i : ℕ)
            → rest_at self.now.paths.items result i ≡ path_at self.now.paths.items i }
    {
        let mut places = Places::none();
        for place in 0..self.paths.len() {
            places.add(place);
        }
        Active { places, at: 0 }
    }

    /// What is left of the path of this place behind its first `at` bytes.
    #[inline(always)]
    pub(crate) fn rest(&self, place: usize, at: usize) -> Option<&[u8]>
        ensures { option_map (λ r. r.now) result
            ≡ option_map (λ s. drop at (string_bytes s)) (slice_get self.now.paths.items place) }
    {
        let path = self.paths.get(place)?.as_bytes();
        Some(if at < path.len() { &path[at..] } else { &[] })
    }

    /// What the value of a member of this name may add to.
    pub(crate) fn under(&self, active: Active, name: &[u8]) -> Active
        ensures { (i : ℕ) → rest_at self.now.paths.items result i
            ≡ option_and_then (behind name.now) (rest_at self.now.paths.items active i) }
    {
        let mut left = active.places;
        let mut places = Places::none();
        let mut at = 0;
        while let Some(place) = left.take_first() {
            let Some(rest) = self.rest(place, active.at) else {
                continue;
            };
            if leads(rest, name) {
                places.add(place);
                at = active.at + name.len() + 1;
            }
        }
        Active { places, at }
    }

    /// Adds a scalar to the slots of the paths that end here.
    pub(crate) fn add(
        &self,
        slots: &mut Vec<Slot>,
        active: Active,
        seen: Seen,
        text: &str,
    ) -> Result<(), AllocError>
        requires { length slots.old.items ≡ length self.now.paths.items }
        ensures gains { OnOk result ((s : Scalar) → found_by seen text.now ≡ one s
            → Gains self.now.paths.items active (λ path. at_end path s)
            slots.old.items slots.new.items) }
        ensures length { length slots.new.items ≡ length slots.old.items }
    {
        let mut left = active.places;
        while let Some(place) = left.take_first() {
            let Some(rest) = self.rest(place, active.at) else {
                continue;
            };
            if rest.is_empty() {
                slots[place].add(seen, text)?;
            }
        }
        Ok(())
    }
}
