//! What is wanted of a line, and what its reading gives.
ghost use Rattle.std.specs.Prelude.{◌≡◌};

use eql_values::{NameKinds, Reason, Slots, Text, Texts};
use std::alloc::AllocError;

/// What is wanted of a line.
#[derive(Drop)]
pub struct Wanted {
    /// The fields, each by its name and its kind. A name has its parts with dots between.
    pub fields: NameKinds,
    /// The name of the tiebreaker, if one is wanted. It is read as a whole number.
    pub tie: Option<Text>,
}

impl Clone for Wanted {
    ghost is_clone = { λ old new. new ≡ old };

    fn clone(&self) -> Result<Wanted, AllocError> {
        let fields = self.fields.clone()?;
        let tie = self.tie.clone()?;
        Ok(Wanted { fields, tie })
    }
}

/// What an event says.
#[derive(Drop)]
pub struct Fields {
    /// The timestamp, in nanoseconds since the epoch.
    pub ts: i128,
    /// The tiebreaker, if there is one.
    pub tie: Option<i64>,
    /// The texts under `event.category`, in order.
    pub categories: Texts,
    /// The values of the wanted fields, in their order.
    pub slots: Slots,
}

/// What a line is.
#[derive(Drop)]
pub enum LineRead {
    /// Nothing but spaces, tabs and carriage returns.
    Blank,
    /// An event.
    Event(Fields),
    /// It is rejected for this reason.
    Bad(Reason),
}
