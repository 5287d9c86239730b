//! What runs keep on their disk.
use crate::tests::run::{Areas, disk_of};
use eql_ckdisk::{Recovered, recover};
use eql_cut::Cut;
use std::alloc::Global;

/// What a disk keeps: the generation of its cut, the mark in nanoseconds, the offset in the first shard, and how many lines of
/// the listing were written before.
#[derive(Clone, Copy, PartialEq, Eq)]
pub(crate) struct Kept {
    pub(crate) generation: u64,
    pub(crate) mark: i128,
    pub(crate) offset: u64,
    pub(crate) listed: u64,
}

/// A cut of this generation, at a mark in seconds.
macro_rules! cut_at {
    ($generation:expr, $seconds:expr, $offset:expr, $listed:expr) => {
        $crate::tests::kept::Kept {
            generation: $generation,
            mark: $seconds * 1_000_000_000,
            offset: $offset,
            listed: $listed,
        }
    };
}

pub(crate) use cut_at;

/// What a disk keeps that has no cut.
pub(crate) const NOTHING: Kept = cut_at!(0, 0, 0, 0);

/// The cut that the first run of the example keeps after five lines, and the one after ten.
pub(crate) const AFTER_FIVE: Kept = cut_at!(1, 5, 506, 0);

pub(crate) const AFTER_TEN: Kept = cut_at!(2, 10, 1015, 1);

/// A cut's offset in the first shard.
fn offset_in(cut: &Cut) -> u64 {
    match cut.lanes.items().first() {
        Some(lane) => lane.offset,
        None => 0,
    }
}

/// What was found.
fn kept_of(found: &Recovered) -> Kept {
    match &found.cut {
        Some(cut) => Kept {
            generation: found.state.generation(),
            mark: cut.mark,
            offset: offset_in(cut),
            listed: cut.book.listed,
        },
        None => NOTHING,
    }
}

/// What these areas keep, unless they are damaged.
pub(crate) fn kept_in(alloc: Global, areas: &Areas) -> Option<Kept> {
    let Ok(mut disk) = disk_of(alloc, areas, &[], None) else {
        return None;
    };
    let recovered = recover(alloc, &mut disk);
    drop(disk);
    match recovered {
        Ok(found) => {
            let kept = kept_of(&found);
            drop(found);
            Some(kept)
        }
        Err(_) => None,
    }
}
