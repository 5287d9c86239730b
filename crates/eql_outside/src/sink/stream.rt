//! The sink over a standard stream. What stands behind the stream is trusted: it tells nothing of content, and so
//! this tells nothing of it either. Over a writer that tells its bytes, this tells them.
ghost use Rattle.std.specs.Prelude.{◌≡◌, OnOk, OnErr};
ghost use Rattle.eql_outside.specs.Written.{WroteAll, WroteFront};

use crate::refused::{Failed, OutRefused};
use crate::sink::{Sink, WritesAlike};
use std::alloc::Global;
use std::io::{ErrorKind, Write};

/// A sink over a standard stream, or over any other writer that keeps nothing back.
#[derive(Drop)]
pub struct StdSink<W> {
    to: W,
    faults: u64,
}

impl<W: WritesAlike> StdSink<W> {
    /// A sink that writes there.
    pub fn new(to: W) -> StdSink<W>
        ensures written { ⟦<StdSink<W> as Sink>⟧.written result ≡ W.contents to }
        ensures faults { ⟦<StdSink<W> as Sink>⟧.fault_count result ≡ 0 }
    {
        StdSink { to, faults: 0 }
    }

    /// The writer, with all that was written.
    pub fn into_inner(self) -> W
        ensures { W.contents result ≡ ⟦<StdSink<W> as Sink>⟧.written self }
    {
        self.to
    }
}

/// Writes on after a short write and after a signal, until all is written. A write that takes nothing of a piece that
/// isn't empty is a failure.
pub(crate) fn write_on<W: Write>(to: &mut W, bytes: &[u8]) -> Result<(), Failed>
    ensures ok { OnOk result (WroteAll bytes.now (W.contents to.old) (W.contents to.new)) }
    ensures prefix { OnErr result (WroteFront bytes.now (W.contents to.old) (W.contents to.new)) }
{
    let mut at = 0;
    for _ in 0..u64::MAX {
        if at == bytes.len() {
            return Ok(());
        }
        match to.write(&bytes[at..]) {
            Ok(0) => break,
            Ok(n) => at += n,
            Err(error) => if error.kind() != ErrorKind::Interrupted {
                break;
            },
        }
    }
    Err(Failed)
}

impl<W: WritesAlike> Sink for StdSink<W> {
    ghost written = { λ s. W.contents s.to };

    ghost fault_count = { λ s. s.faults };

    fn write(&mut self, _alloc: Global, bytes: &[u8]) -> Result<(), OutRefused> {
        match write_on(&mut self.to, bytes) {
            Ok(()) => Ok(()),
            Err(failed) => {
                self.faults = self.faults.saturating_add(1);
                Err(OutRefused::from(failed))
            }
        }
    }

    fn keep(&mut self, _alloc: Global) -> Result<(), OutRefused> {
        match self.to.keep_written() {
            Ok(()) => Ok(()),
            Err(_) => {
                self.faults = self.faults.saturating_add(1);
                Err(OutRefused::Failed)
            }
        }
    }

    fn faults(&self) -> u64 {
        self.faults
    }
}
