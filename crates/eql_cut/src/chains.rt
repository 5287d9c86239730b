//! Sequences and matches.
ghost use Rattle.std.specs.Prelude.{◌≡◌, IsTrue, All};
ghost use Rattle.eql_values.specs.OrderKeys.{events_ascend};
ghost use Rattle.eql_cut.specs.CutValues.{is_full, holders_ascend, numbers_ascend};

use crate::coded::Coded;
use crate::lists::{read_list, write_list};
use crate::ordered::{Ordered, ascends};
use crate::reader::{CutRefused, Reader, Version};
use eql_values::{
    Chain, Holder, Holders, Key, Match, Numbered, Numbereds, OrderKey, order_from_next,
};
use std::alloc::{AllocError, Global};

impl Ordered for OrderKey {
    ghost use Rattle.eql_values.specs.OrderKeys.{order_cmp};

    ghost rank = { order_cmp };

    fn is_before(&self, next: &OrderKey) -> bool {
        self < next
    }
}

/// Whether the events ascend strictly.
pub(crate) fn do_events_ascend(events: &[OrderKey]) -> bool
    ensures { result ≡ events_ascend events.now }
{
    order_from_next();
    ascends(events)
}

impl Coded for Chain {
    ghost use Rattle.eql_cut.specs.CutValues.{chain};

    ghost format = { chain };

    ghost ordered = { λ x. Unit {0} };

    fn write(&self, to: &mut Vec<u8>) -> Result<(), AllocError> {
        self.ascends();
        write_list(self.items(), to)
    }

    fn read(from: &mut Reader, alloc: Global, of: Version) -> Result<Chain, CutRefused> {
        let at = from.place();
        let events: Vec<OrderKey> = read_list(from, alloc, of)?;
        if do_events_ascend(&events) {
            Ok(Chain::of(events))
        } else {
            Err(CutRefused::Damaged { at })
        }
    }
}

impl Coded for Match {
    ghost use Rattle.eql_cut.specs.CutValues.{match_};

    ghost format = { match_ };

    ghost ordered = { λ x. Unit {0} };

    fn write(&self, to: &mut Vec<u8>) -> Result<(), AllocError> {
        self.key.write(to)?;
        self.chain.write(to)
    }

    fn read(from: &mut Reader, alloc: Global, of: Version) -> Result<Match, CutRefused> {
        Ok(Match {
            key: Key::read(from, alloc, of)?,
            chain: Chain::read(from, alloc, of)?,
        })
    }
}

/// Whether the sequence has an event for each stage up to its own.
pub(crate) fn is_full(holder: &Holder) -> bool
    ensures { result ≡ is_full holder.now }
{
    holder.chain.items().len() == holder.stage as usize
}

impl Coded for Holder {
    ghost use Rattle.eql_cut.specs.CutValues.{holder};

    ghost format = { holder };

    ghost ordered = { λ h. IsTrue (is_full h) };

    fn write(&self, to: &mut Vec<u8>) -> Result<(), AllocError> {
        self.key.write(to)?;
        self.stage.write(to)?;
        self.chain.write(to)
    }

    fn read(from: &mut Reader, alloc: Global, of: Version) -> Result<Holder, CutRefused> {
        let at = from.place();
        let key = Key::read(from, alloc, of)?;
        let stage = u32::read(from, alloc, of)?;
        let chain = Chain::read(from, alloc, of)?;
        let holder = Holder { key, stage, chain };
        if is_full(&holder) {
            Ok(holder)
        } else {
            Err(CutRefused::Damaged { at })
        }
    }
}

impl Ordered for Holder {
    ghost use Rattle.std.specs.Ordering.{on};
    ghost use Rattle.eql_values.specs.Matching.{slot_cmp};
    ghost use Rattle.eql_values.specs.declared.found.Holder.{Holder as Pending};

    ghost rank = { on (λ (h : Pending). (h.key, h.stage)) slot_cmp };

    fn is_before(&self, next: &Holder) -> bool {
        self.key
            .cmp(&next.key)
            .then(self.stage.cmp(&next.stage))
            .is_lt()
    }
}

/// Whether the sequences ascend strictly by key and stage.
pub(crate) fn do_holders_ascend(holders: &[Holder]) -> bool
    ensures { result ≡ holders_ascend holders.now }
{
    order_from_next();
    ascends(holders)
}

impl Coded for Holders {
    ghost use Rattle.eql_cut.specs.CutValues.{holders};

    ghost format = { holders };

    ghost ordered = { λ hs. All (λ h. IsTrue (is_full h)) hs × IsTrue (holders_ascend hs) };

    fn write(&self, to: &mut Vec<u8>) -> Result<(), AllocError> {
        write_list(self.items(), to)
    }

    fn read(from: &mut Reader, alloc: Global, of: Version) -> Result<Holders, CutRefused> {
        let at = from.place();
        let holders: Vec<Holder> = read_list(from, alloc, of)?;
        if do_holders_ascend(&holders) {
            Ok(Holders::of(holders))
        } else {
            Err(CutRefused::Damaged { at })
        }
    }
}

impl Coded for Numbered {
    ghost use Rattle.eql_cut.specs.CutValues.{numbered_match};

    ghost format = { numbered_match };

    ghost ordered = { λ x. Unit {0} };

    fn write(&self, to: &mut Vec<u8>) -> Result<(), AllocError> {
        self.number.write(to)?;
        self.found.write(to)
    }

    fn read(from: &mut Reader, alloc: Global, of: Version) -> Result<Numbered, CutRefused> {
        Ok(Numbered {
            number: u64::read(from, alloc, of)?,
            found: Match::read(from, alloc, of)?,
        })
    }
}

impl Ordered for Numbered {
    ghost use Rattle.std.specs.Ordering.{on, nat_cmp};
    ghost use Rattle.eql_values.specs.declared.found.Numbered.{Numbered as Listed};

    ghost rank = { on (λ (n : Listed). n.number) nat_cmp };

    fn is_before(&self, next: &Numbered) -> bool {
        self.number < next.number
    }
}

/// Whether the matches ascend strictly by number.
fn do_numbers_ascend(kept: &[Numbered]) -> bool
    ensures { result ≡ numbers_ascend kept.now }
{
    order_from_next();
    ascends(kept)
}

impl Coded for Numbereds {
    ghost use Rattle.eql_cut.specs.CutValues.{kept_matches};

    ghost format = { kept_matches };

    ghost ordered = { λ k. IsTrue (numbers_ascend k) };

    fn write(&self, to: &mut Vec<u8>) -> Result<(), AllocError> {
        write_list(self.items(), to)
    }

    fn read(from: &mut Reader, alloc: Global, of: Version) -> Result<Numbereds, CutRefused> {
        let at = from.place();
        let kept: Vec<Numbered> = read_list(from, alloc, of)?;
        if do_numbers_ascend(&kept) {
            Ok(Numbereds::of(kept))
        } else {
            Err(CutRefused::Damaged { at })
        }
    }
}
