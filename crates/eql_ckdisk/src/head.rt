//! The head of an area: the gate, the generation and the length of the text.
ghost use Rattle.std.specs.Prelude.{◌≡◌, ◌≢◌, ◌≤◌, Err, IfOk, IfSome, length};
ghost use Rattle.std.specs.Int.{w64, from_le_bytes};
ghost use Rattle.eql_outside.specs.Areas.{store};
ghost use Rattle.eql_outside.specs.Outside.{Rose};
ghost use Rattle.eql_outside.specs.Unfailing.{IsUnfailing};
ghost use Rattle.eql_ckdisk.specs.Found as found;

use eql_outside::{Area, Disk, OutRefused, unfailing_stays};
use std::alloc::Global;

/// How many bytes a head has.
pub(crate) const HEAD_BYTES: u64 = 17;

/// The head of an area. Where the area has fewer bytes, generation and length are 0.
#[derive(Clone, Copy)]
pub(crate) struct Head {
    /// Whether the gate is open.
    pub(crate) open: bool,
    /// Whether another program wrote the area.
    pub(crate) foreign: bool,
    /// The generation.
    pub(crate) generation: u64,
    /// The length of the text, in bytes.
    pub(crate) length: u64,
}

// The number of 8 bytes, its lowest byte first.
fn number(bytes: &[u8]) -> u64
    requires { length bytes.now ≡ 8 }
    ensures { result ≡ from_le_bytes w64 bytes.now }
{
    u64::from_le_bytes([
        bytes[0], bytes[1], bytes[2], bytes[3], bytes[4], bytes[5], bytes[6], bytes[7],
    ])
}

// Whether another program wrote an area that begins with these bytes.
fn is_foreign(bytes: &[u8]) -> bool
    ensures { result ≡ found.is_foreign bytes.now }
{
    match bytes.first() {
        Some(&gate) => gate != 0 && gate != 1,
        None => false,
    }
}

impl Head {
    ghost use Rattle.eql_ckdisk.specs.Heads.{IsHead};

    /// The head of an area that begins with these bytes.
    fn of(bytes: &[u8]) -> Head
        ensures { IsHead bytes.now result }
    {
        let open = bytes.first() == Some(&1);
        let foreign = is_foreign(bytes);
        if bytes.len() < 17 {
            return Head {
                open,
                foreign,
                generation: 0,
                length: 0,
            };
        }
        Head {
            open,
            foreign,
            generation: number(&bytes[1..9]),
            length: number(&bytes[9..17]),
        }
    }

    /// Reads the head of an area.
    pub(crate) fn read<D: Disk>(alloc: Global, disk: &mut D, area: Area) -> Result<Head, OutRefused>
        ensures head { IfOk result
            (λ head. IfSome (D.history disk.old) (λ h. IsHead (store area h.now).seen head)) }
        ensures same { D.history disk.new ≡ D.history disk.old }
        ensures cause { result ≡ Err OutRefused.Failed
            → Rose (D.fault_count disk.old) (D.fault_count disk.new) }
        ensures steady { result ≢ Err OutRefused.Failed
            → D.fault_count disk.new ≡ D.fault_count disk.old }
        ensures counts { D.fault_count disk.old ≤ D.fault_count disk.new }
        ensures unfailing { IsUnfailing (D.fault_plan disk.old)
            → (result ≢ Err OutRefused.Failed) × IsUnfailing (D.fault_plan disk.new) }
    {
        unfailing_stays();
        Ok(Head::of(&disk.read(alloc, area, 0, HEAD_BYTES)?))
    }
}
