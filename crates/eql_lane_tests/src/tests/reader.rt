//! A reader of lines for tests. The first byte of a line is its time: `0` is second 0, `1` is
//! second 1, and so on up to `z`. Any other line is no JSON text.
ghost use Rattle.std.specs.Prelude.{◌≡◌, ℕ, List};
ghost use Rattle.eql_values.specs.Reading.{is_blank};
ghost use Rattle.eql_lane_tests.specs.Reader.{first_byte, by_first};

use eql_values::{Item, LineGot, LineReader, Memory, OrderKey, Reason, Routes};
use std::alloc::Global;

/// The reader. It may lack memory at one of its readings.
#[derive(Clone, Copy)]
pub struct FirstByte {
    // How many readings were asked for.
    asked: u32,
    // The reading, from 1, that lacks memory; none for 0.
    lacking: u32,
}

impl FirstByte {
    /// A reader that has memory at each reading.
    pub fn new() -> FirstByte {
        FirstByte::lacking_at(0)
    }

    /// A reader whose reading of this number, from 1, lacks memory.
    pub fn lacking_at(lacking: u32) -> FirstByte {
        FirstByte { asked: 0, lacking }
    }
}

// Whether the bytes are spaces, tabs and carriage returns.
fn are_blank(bytes: &[u8]) -> bool
    ensures { result ≡ is_blank bytes.now }
{
    bytes
        .iter()
        .all(|byte| *byte == 32 || *byte == 9 || *byte == 13)
}

// What a line of a time gives.
fn by_time(alloc: Global, shard: u32, line: u32, bytes: &[u8]) -> LineGot
    ensures { result ≡ by_first shard line bytes.now }
{
    match bytes {
        [] => LineGot::Blank,
        [byte, ..] => {
            if 48 <= *byte && *byte <= 122 {
                LineGot::Item(Item {
                    order: OrderKey {
                        ts: ((*byte - 48) as u64 * 1000000000) as i128,
                        tie: None,
                        shard,
                        line,
                        at: 0,
                    },
                    routes: Routes::of(Vec::new(alloc)),
                })
            } else {
                LineGot::Bad(Reason::NotJson)
            }
        }
    }
}

impl LineReader for FirstByte {
    ghost use Rattle.eql_lane_tests.specs.Reader.{first_byte};
    ghost use Rattle.eql_lane_tests.specs.Laws.{reads_an_event, reads_a_long_line};

    ghost read_of = { λ reader shard line bytes. first_byte shard line bytes };

    fn read(
        &mut self,
        alloc: Global,
        shard: u32,
        line: u32,
        bytes: &[u8],
    ) -> Result<LineGot, Memory> {
        self.asked = self.asked.saturating_add(1);
        if self.asked == self.lacking {
            return Err(Memory);
        }
        if are_blank(bytes) {
            return Ok(LineGot::Blank);
        }
        if bytes.len() > 1048576 {
            return Ok(LineGot::Bad(Reason::Long));
        }
        Ok(by_time(alloc, shard, line, bytes))
    }

    ghost reads_at = { λ reader shard line bytes event is.
        reads_an_event shard line bytes event is };

    ghost reads_long = { λ reader shard line bytes many. reads_a_long_line shard line bytes many };
}
