//! The lines that a cut names.
use crate::tests::bytes::{PARTS, text_in};
use eql_cut::{Cut, decode, named};
use std::alloc::Global;

/// A shard, and the lines of it that a cut names.
type Named = (u32, &'static [u32]);

/// Whether a cut names these lines of each shard.
fn names(alloc: Global, cut: &Cut, shards: &[Named]) -> bool {
    for &(shard, expected) in shards {
        match named(alloc, cut, shard) {
            Ok(lines) if lines.items().as_slice() == expected => {}
            _ => return false,
        }
    }
    true
}

/// Whether bytes are the text of a cut in a format, which names these lines of each shard.
fn are_named_in(alloc: Global, bytes: &[u8], format: u8, shards: &[Named]) -> bool {
    match decode(alloc, bytes) {
        Ok(read) => read.format == format && names(alloc, &read.cut, shards),
        Err(_) => false,
    }
}

/// Whether the cut of these parts in a format names these lines of each shard.
pub fn are_named(alloc: Global, parts: &str, format: u8, shards: &[Named]) -> bool {
    match text_in(alloc, parts, format) {
        Ok(bytes) => are_named_in(alloc, &bytes, format, shards),
        Err(_) => false,
    }
}

/// The lines that the cut names, which has two shards.
static NAMED: &[Named] = &[(0, &[1, 2, 4, 5]), (1, &[1, 2]), (2, &[])];

#[test]
fn lines_are_named(rt: HostRuntime) {
    assert!(rt;
        are_named(rt.alloc(), PARTS, 1, NAMED)
            && are_named(rt.alloc(), PARTS, 2, NAMED)
            && are_named(rt.alloc(), PARTS, 3, NAMED)
            && are_named(rt.alloc(), PARTS, 4, NAMED)
    );
}
