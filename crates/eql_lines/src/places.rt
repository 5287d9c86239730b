//! Sets of places below 128.
ghost use Rattle.std.specs.Prelude.{◌≡◌, ◌≢◌, ℕ, ◌<◌, ◌||◌, ◌&&◌, ◌↔◌, Bool, true, false, None, IfSome, OnSome, IsTrue};
ghost use Rattle.eql_lines.specs.Places.{in_set};

/// A set of places below 128.
#[derive(Clone, Copy, Drop)]
pub(crate) struct Places {
    bits: u128,
}

impl Places {
    /// No place.
    pub(crate) fn none() -> Places
        ensures zero { result ≡ record { bits = 0 } }
        ensures nothing { (i : ℕ) → in_set result i ≡ false }
    {
        Places { bits: 0 }
    }

    /// Whether the sets are the same.
    pub(crate) fn is(self, other: Places) -> bool
        ensures { result ≡ true → self ≡ other }
    {
        self.bits == other.bits
    }

    /// Whether no place is there.
    #[inline]
    pub(crate) fn is_empty(self) -> bool
        ensures empty { result ≡ true → (i : ℕ) → in_set self i ≡ false }
    {
        self.bits == 0
    }

    /// Whether the sets may have a place in common.
    #[inline]
    pub(crate) fn meets(self, other: Places) -> bool
        ensures { result ≡ false → (i : ℕ) → in_set self i ≡ true → in_set other i ≡ false }
    {
        self.bits & other.bits != 0
    }

    /// The places of both.
    #[inline]
    pub(crate) fn with(self, other: Places) -> Places
        ensures { (i : ℕ) → in_set result i ≡ (in_set self i || in_set other i) }
    {
        Places {
            bits: self.bits | other.bits,
        }
    }

    /// The places that both have.
    #[inline]
    pub(crate) fn common(self, other: Places) -> Places
        ensures { (i : ℕ) → in_set result i ≡ (in_set self i && in_set other i) }
    {
        Places {
            bits: self.bits & other.bits,
        }
    }

    /// Adds a place.
    #[inline]
    pub(crate) fn add(&mut self, place: usize)
        requires { place < 128 }
        ensures same { in_set self.new place ≡ true }
        ensures others { (i : ℕ) → i ≢ place → in_set self.new i ≡ in_set self.old i }
    {
        self.bits |= 1u128 << place;
    }

    /// Takes out the least place.
    #[inline]
    pub(crate) fn take_first(&mut self) -> Option<usize>
        ensures none { result ≡ None → (i : ℕ) → in_set self.old i ≡ false }
        ensures first { IfSome result (λ p. (p < 128) × (in_set self.old p ≡ true)
            × (in_set self.new p ≡ false)
            × ((i : ℕ) → i ≢ p → in_set self.new i ≡ in_set self.old i)) }
        ensures fewer { OnSome result (self.new.bits < self.old.bits) }
    {
        if self.bits == 0 {
            return None;
        }
        let place = self.bits.trailing_zeros();
        self.bits &= !(1u128 << place);
        Some(place as usize)
    }
}
