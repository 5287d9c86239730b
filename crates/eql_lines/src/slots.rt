//! What a line holds under each wanted path.
ghost use Rattle.std.specs.Prelude.{◌≡◌, ◌≤◌, length, map, string_bytes, option_map, OnOk};
ghost use Rattle.eql_lines.specs.Kept.{kept_texts};
ghost use Rattle.eql_lines.specs.Reach.{Scalar};
ghost use Rattle.eql_lines.specs.Found.{one, nothing, found_of, found_by, found_more, single_scalar, only_found, is_missing};

use crate::kept::Kept;
use crate::number::Num;
use std::alloc::{AllocError, Global};

/// What was found under a path so far.
#[derive(Clone, Copy, Debug, Drop)]
pub(crate) enum Seen {
    /// No scalar.
    Nothing,
    /// One text.
    Text,
    /// One number.
    Number(Num),
    /// One truth value.
    Truth(bool),
    /// Two scalars or more.
    Several,
}

/// The one scalar that was found under a path.
#[derive(Clone, Copy, Drop)]
pub(crate) enum Single<'s> {
    /// A text.
    Text(&'s str),
    /// A number.
    Number(Num),
    /// A truth value.
    Truth(bool),
}

/// What was found under a path, with all its texts. Their memory is kept from line to line.
#[derive(Drop)]
pub(crate) struct Slot {
    seen: Seen,
    kept: Kept,
}

impl Slot {
    /// A slot with nothing.
    pub(crate) fn new(alloc: Global) -> Slot
        ensures { found_of result ≡ nothing }
    {
        Slot {
            seen: Seen::Nothing,
            kept: Kept::new(alloc),
        }
    }

    /// What was found.
    pub(crate) fn seen(&self) -> Seen
        ensures { result ≡ self.now.seen }
    {
        self.seen
    }

    /// The texts that were found, in order.
    pub(crate) fn texts(&self) -> &[String]
        ensures { map string_bytes result.now ≡ kept_texts self.now.kept }
    {
        self.kept.texts()
    }

    /// The scalar, if it is the only one.
    pub(crate) fn single(&self) -> Option<Single<'_>>
        ensures { option_map single_scalar result ≡ only_found (found_of self.now) }
    {
        match self.seen {
            Seen::Nothing | Seen::Several => None,
            Seen::Text => {
                let text = self.kept.texts().first()?;
                Some(Single::Text(text.as_str()))
            }
            Seen::Number(number) => Some(Single::Number(number)),
            Seen::Truth(truth) => Some(Single::Truth(truth)),
        }
    }

    /// Whether no scalar was found.
    pub(crate) fn is_empty(&self) -> bool
        ensures { result ≡ is_missing (found_of self.now) }
    {
        matches!(self.seen, Seen::Nothing)
    }

    /// Adds a scalar.
    pub(crate) fn add(&mut self, seen: Seen, text: &str) -> Result<(), AllocError>
        ensures { OnOk result ((s : Scalar) → found_by seen text.now ≡ one s
            → found_of self.new ≡ found_more (found_of self.old) s) }
    {
        if let Seen::Text = seen {
            self.kept.push(text)?;
        }
        if let Seen::Nothing = self.seen {
            self.seen = seen;
        } else {
            self.seen = Seen::Several;
        }
        Ok(())
    }

    /// Begins anew. The memory of at most 64 texts is kept.
    pub(crate) fn clear(&mut self)
        ensures nothing { found_of self.new ≡ nothing }
        ensures few { length self.new.kept.texts.items ≤ 64 }
    {
        self.seen = Seen::Nothing;
        self.kept.clear();
    }
}
