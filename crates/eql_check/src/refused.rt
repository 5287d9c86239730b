//! The rules that a query can break.
ghost use Rattle.std.specs.Prelude.{◌≡◌};

use eql_values::{Memory, Text};
use std::alloc::{AllocError, AllocFailed};

/// Why the check refuses a query: the first rule that it breaks. Items are numbered from 1 in the order of the text, the
/// until item last; single events are item 1. The name of a function's form with `~` has it at its end.
#[derive(Debug)]
pub enum CheckRefused {
    /// The mapping doesn't have this field, and it isn't marked as optional.
    UnknownField {
        /// The field's name.
        name: Text,
    },
    /// There is no function with this name, or no form of it with `~`.
    UnknownFunction {
        /// The function's name.
        name: Text,
    },
    /// A function has too few or too many arguments.
    Arity {
        /// The function's name.
        name: Text,
    },
    /// An operand has a kind that its operator or function doesn't take, or a condition isn't Boolean.
    KindMismatch {
        /// The item.
        item: u32,
    },
    /// Both sides of a comparison hold a field, also inside a call or a sum.
    FieldToField {
        /// The item.
        item: u32,
    },
    /// An item has another number of keys than the first.
    KeyCount {
        /// The item.
        item: u32,
    },
    /// A key has another kind than the first key at its place, in the items before, that isn't always null.
    KeyKind {
        /// The item.
        item: u32,
    },
    /// A sequence has fewer than two stages.
    FewStages,
    /// An item's runs aren't 1 to 100.
    Runs {
        /// How many runs the item asks for.
        count: i64,
    },
    /// There are more than 256 stages.
    ManyStages {
        /// How many.
        count: i64,
    },
    /// There are more than 8 keys.
    ManyKeys {
        /// How many.
        count: i64,
    },
    /// More than 64 fields are used.
    ManyFields {
        /// How many.
        count: i64,
    },
    /// The span is below a millisecond or above 36,500 days.
    Span,
    /// There are more than 8 pipes, or a pipe's count isn't 0 to 1,000,000.
    Pipe,
    /// A block of `cidrMatch` isn't an IPv4 address, `/` and 0 to 32.
    Cidr {
        /// The block.
        text: Text,
    },
    /// Memory ran out.
    Memory,
}

impl From<Memory> for CheckRefused {
    ghost use Rattle.eql_check.specs.Wants.{check_memory};

    ghost from_gives = { λ _ r. r ≡ check_memory };

    fn from(_error: Memory) -> CheckRefused {
        CheckRefused::Memory
    }
}

impl From<AllocError> for CheckRefused {
    ghost use Rattle.eql_check.specs.Wants.{check_memory};

    ghost from_gives = { λ _ r. r ≡ check_memory };

    fn from(_error: AllocError) -> CheckRefused {
        CheckRefused::Memory
    }
}

impl<T: Drop> From<AllocFailed<T>> for CheckRefused {
    ghost use Rattle.eql_check.specs.Wants.{check_memory};

    ghost from_gives = { λ _ r. r ≡ check_memory };

    fn from(_error: AllocFailed<T>) -> CheckRefused {
        CheckRefused::Memory
    }
}

impl Drop for CheckRefused {
    fn drop(self) {
        match self {
            CheckRefused::UnknownField { name: _ } => {}
            CheckRefused::UnknownFunction { name: _ } => {}
            CheckRefused::Arity { name: _ } => {}
            CheckRefused::KindMismatch { item: _ } => {}
            CheckRefused::FieldToField { item: _ } => {}
            CheckRefused::KeyCount { item: _ } => {}
            CheckRefused::KeyKind { item: _ } => {}
            CheckRefused::FewStages => {}
            CheckRefused::Runs { count: _ } => {}
            CheckRefused::ManyStages { count: _ } => {}
            CheckRefused::ManyKeys { count: _ } => {}
            CheckRefused::ManyFields { count: _ } => {}
            CheckRefused::Span => {}
            CheckRefused::Pipe => {}
            CheckRefused::Cidr { text: _ } => {}
            CheckRefused::Memory => {}
        }
    }
}
