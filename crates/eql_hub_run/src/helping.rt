//! How many further threads can help a run.
ghost use Rattle.std.specs.Prelude.{◌≤◌};

use eql_lane::Lane;
use eql_outside::{Source, Supply};
use eql_values::LineReader;
use std::thread::{Threads, available_parallelism};

// So many bytes of files a hand reads at least: fewer are read sooner than a thread is started and ended beside other work.
const BYTES_A_HAND: u64 = 4_194_304;

// What hands can read: the lanes over files, each of which is read by one thread at a time.
struct Readable {
    files: u32,
    bytes: u64,
}

// What hands can read of these lanes. `None` where the source of a lane doesn't tell.
fn files_among<S: Source, L: LineReader>(lanes: &[Lane<S, L>]) -> Option<Readable> {
    let mut files: u32 = 0;
    let mut all: u64 = 0;
    for lane in lanes {
        match lane.supply() {
            Supply::Untold => return None,
            Supply::File { bytes } => {
                files = files.saturating_add(1);
                all = all.saturating_add(bytes);
            }
            Supply::Pausing => {}
        }
    }
    Some(Readable { files, bytes: all })
}

/// How many of these hands can help a run over the lanes: no more than there are processors beside the conductor's, than there are
/// files among the shards, and than have enough of them to read. All of them where a source doesn't tell what it is.
pub(crate) fn helping<R: Threads, S: Source, L: LineReader>(
    rt: &R,
    lanes: &[Lane<S, L>],
    hands: u32,
) -> u32
    ensures { result ≤ hands }
{
    let Some(Readable { files, bytes }) = files_among(lanes) else {
        return hands;
    };
    let processors = match available_parallelism(rt) {
        Ok(count) => count.get() as u64,
        Err(_) => 1,
    };
    let worth = (bytes / BYTES_A_HAND).min(processors.saturating_sub(1));
    let most = worth.min(files as u64).min(hands as u64);
    most as u32
}
