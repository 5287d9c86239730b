//! What a cut says of its run, and the whole cut.
ghost use Rattle.std.specs.Prelude.{◌≡◌, IsTrue, All};
ghost use Rattle.eql_cut.specs.Values.{items_ascend};
ghost use Rattle.eql_cut.specs.CutValues.{names_ascend, has_lanes, IsOrderedCut};

use crate::coded::Coded;
use crate::cut::{Cut, CutHead};
use crate::lists::{read_list, write_list};
use crate::ordered::{Ordered, ascends};
use crate::reader::{CutRefused, Reader, Version};
use eql_values::{BookCut, Holders, Kind, LaneCut, LaneCuts, NameKinds, Text, order_from_next};
use std::alloc::{AllocError, Global};

impl Coded for Kind {
    ghost use Rattle.eql_cut.specs.CutValues.{field_kind};

    ghost format = { λ v. field_kind };

    ghost ordered = { λ x. Unit {0} };

    fn write(&self, to: &mut Vec<u8>) -> Result<(), AllocError> {
        let rank = match self {
            Kind::Bool => 0,
            Kind::Long => 1,
            Kind::Text => 2,
            Kind::Ip => 3,
        };
        to.extend_from_slice(&[rank])
    }

    fn read(from: &mut Reader, _alloc: Global, _of: Version) -> Result<Kind, CutRefused> {
        let at = from.place();
        match from.take(1) {
            Some([0]) => Ok(Kind::Bool),
            Some([1]) => Ok(Kind::Long),
            Some([2]) => Ok(Kind::Text),
            Some([3]) => Ok(Kind::Ip),
            _ => Err(CutRefused::Damaged { at }),
        }
    }
}

impl Coded for (Text, Kind) {
    ghost use Rattle.eql_cut.specs.Formats.{both};
    ghost use Rattle.eql_cut.specs.Values.{text};
    ghost use Rattle.eql_cut.specs.CutValues.{field_kind};

    ghost format = { λ v. both text field_kind };

    ghost ordered = { λ x. Unit {0} };

    fn write(&self, to: &mut Vec<u8>) -> Result<(), AllocError> {
        self.0.write(to)?;
        self.1.write(to)
    }

    fn read(from: &mut Reader, alloc: Global, of: Version) -> Result<(Text, Kind), CutRefused> {
        let name = Text::read(from, alloc, of)?;
        let kind = Kind::read(from, alloc, of)?;
        Ok((name, kind))
    }
}

impl Ordered for (Text, Kind) {
    ghost use Rattle.std.specs.Prelude.{ℕ, List};
    ghost use Rattle.std.specs.Ordering.{on};
    ghost use Rattle.eql_values.specs.Orders.{text_cmp};
    ghost use Rattle.eql_values.specs.declared.value.Kind.{Kind as FieldKind};

    ghost rank = { on (λ (x : List ℕ × FieldKind). x.0) text_cmp };

    fn is_before(&self, next: &(Text, Kind)) -> bool {
        self.0 < next.0
    }
}

/// Whether the names ascend strictly.
fn do_names_ascend(names: &[(Text, Kind)]) -> bool
    ensures { result ≡ names_ascend names.now }
{
    order_from_next();
    ascends(names)
}

impl Coded for NameKinds {
    ghost use Rattle.eql_cut.specs.CutValues.{mapping};

    ghost format = { λ v. mapping };

    ghost ordered = { λ m. IsTrue (names_ascend m) };

    fn write(&self, to: &mut Vec<u8>) -> Result<(), AllocError> {
        write_list(self.items(), to)
    }

    fn read(from: &mut Reader, alloc: Global, of: Version) -> Result<NameKinds, CutRefused> {
        let at = from.place();
        let names: Vec<(Text, Kind)> = read_list(from, alloc, of)?;
        if do_names_ascend(&names) {
            Ok(NameKinds::of(names))
        } else {
            Err(CutRefused::Damaged { at })
        }
    }
}

impl Coded for CutHead {
    ghost use Rattle.eql_cut.specs.CutValues.{head};

    ghost format = { λ v. head };

    ghost ordered = { λ h. IsTrue (names_ascend h.mapping) };

    fn write(&self, to: &mut Vec<u8>) -> Result<(), AllocError> {
        self.query.write(to)?;
        self.mapping.write(to)?;
        self.tie.write(to)?;
        self.slack.write(to)?;
        self.shards.write(to)
    }

    fn read(from: &mut Reader, alloc: Global, of: Version) -> Result<CutHead, CutRefused> {
        Ok(CutHead {
            query: Text::read(from, alloc, of)?,
            mapping: NameKinds::read(from, alloc, of)?,
            tie: Option::read(from, alloc, of)?,
            slack: u64::read(from, alloc, of)?,
            shards: u32::read(from, alloc, of)?,
        })
    }
}

impl Coded for LaneCuts {
    ghost use Rattle.eql_cut.specs.Formats.{list};
    ghost use Rattle.eql_cut.specs.Values.{lane};

    ghost format = { λ v. list (lane v) };

    ghost ordered = { λ ls. All (λ l. IsTrue (items_ascend l.items)) ls };

    fn write(&self, to: &mut Vec<u8>) -> Result<(), AllocError> {
        write_list(self.items(), to)
    }

    fn read(from: &mut Reader, alloc: Global, of: Version) -> Result<LaneCuts, CutRefused> {
        let lanes: Vec<LaneCut> = read_list(from, alloc, of)?;
        Ok(LaneCuts::of(lanes))
    }
}

/// Whether there is a lane for each shard.
fn has_lanes(cut: &Cut) -> bool
    ensures { result ≡ has_lanes cut.now }
{
    cut.lanes.items().len() == cut.head.shards as usize
}

impl Coded for Cut {
    ghost use Rattle.eql_cut.specs.CutValues.{cut};

    ghost format = { cut };

    ghost ordered = { IsOrderedCut };

    fn write(&self, to: &mut Vec<u8>) -> Result<(), AllocError> {
        self.head.write(to)?;
        self.mark.write(to)?;
        self.lanes.write(to)?;
        self.holders.write(to)?;
        self.book.write(to)
    }

    fn read(from: &mut Reader, alloc: Global, of: Version) -> Result<Cut, CutRefused> {
        let at = from.place();
        let head = CutHead::read(from, alloc, of)?;
        let mark = i128::read(from, alloc, of)?;
        let lanes = LaneCuts::read(from, alloc, of)?;
        let holders = Holders::read(from, alloc, of)?;
        let book = BookCut::read(from, alloc, of)?;
        let cut = Cut {
            head,
            mark,
            lanes,
            holders,
            book,
        };
        if has_lanes(&cut) {
            Ok(cut)
        } else {
            Err(CutRefused::Damaged { at })
        }
    }
}
