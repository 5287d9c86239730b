//! The events of a sequence so far.
ghost use Rattle.std.specs.Prelude.{◌≡◌, ◌++◌, ◌∷◌, [], IfOk};
ghost use Rattle.eql_values.specs.OrderKeys.{EventsAscend};

use eql_values::{Chain, Memory, OrderKey};
use std::alloc::{AllocError, Global};
use std::marker::Model;

/// The events of a sequence so far, the earliest first.
#[derive(Drop)]
pub struct Sequence {
    events: Vec<OrderKey>,
}

impl Model for Sequence {
    ghost use Rattle.std.specs.Prelude.{List};
    ghost use Rattle.eql_values.specs.declared.order.OrderKey.{OrderKey};

    ghost Value = { List OrderKey };

    ghost view = { λ s. s.events.items };
}

impl Clone for Sequence {
    ghost is_clone = { λ old new. new ≡ old };

    fn clone(&self) -> Result<Sequence, AllocError> {
        let events = self.events.clone()?;
        Ok(Sequence { events })
    }
}

impl Sequence {
    /// The sequence of one event.
    pub fn of(alloc: Global, event: OrderKey) -> Result<Sequence, Memory>
        ensures { IfOk result (λ one. one ≡ event ∷ []) }
    {
        let mut events = Vec::new(alloc);
        events.push(event)?;
        Ok(Sequence { events })
    }

    /// The sequence with one more event.
    pub fn followed_by(&self, event: OrderKey) -> Result<Sequence, Memory>
        ensures { IfOk result (λ longer. longer ≡ self.now ++ event ∷ []) }
    {
        let mut events = self.events.clone()?;
        events.push(event)?;
        Ok(Sequence { events })
    }

    /// The events, lent.
    pub fn events(&self) -> &[OrderKey]
        ensures { result.now ≡ self.now }
    {
        self.events.as_slice()
    }

    /// The chain of these events.
    pub fn to_chain(&self) -> Result<Chain, Memory>
        requires { EventsAscend self.now }
        ensures { IfOk result (λ chain. chain ≡ self.now) }
    {
        let events = self.events.clone()?;
        Ok(Chain::of(events))
    }
}
