//! A cut from all of the bytes.
ghost use Rattle.std.specs.Prelude.{◌≡◌, ◌++◌, OnOk, IfOk, IfErr};
ghost use Rattle.eql_cut.specs.declared.reader.Version.TheVariants as version;
ghost use Rattle.eql_cut.specs.Reading.{Reads, Answers, IfDamaged};
ghost use Rattle.std.specs.Int.{w64};
ghost use Rattle.eql_cut.specs.Formats.{the_number};
ghost use Rattle.eql_cut.specs.CutValues.{cut, unclosed, closing, cut_file, cut_text, IsOrderedCut};
ghost use Rattle.eql_cut.specs.CutValues.{header, exactly, version_byte, number_of};
ghost use Rattle.eql_cut.specs.Domain.{IsCut};
ghost use Rattle.eql_cut.specs.Whole.{IsText, IsTextBehind, IsTextOf, IsNoText};

use crate::coded::Coded;
use crate::cut::Cut;
use crate::reader::{CutRefused, Reader, Version};
use eql_digest::checksum;
use eql_values::{Memory, orders_told_alike};
use std::alloc::Global;

/// A cut, with the format of its text.
#[derive(Drop)]
pub struct Decoded {
    /// The cut.
    pub cut: Cut,
    /// The format, 1 to 4.
    pub format: u8,
}

/// Reads one byte, which is to be this one.
fn expect(from: &mut Reader, byte: u8) -> Result<u8, CutRefused>
    ensures { Reads (exactly byte) result from.old.left.now from.new.left.now }
{
    let at = from.place();
    match from.take(1) {
        Some([found]) if *found == byte => Ok(byte),
        _ => Err(CutRefused::Damaged { at }),
    }
}

impl Version {
    /// The number of the format.
    fn number(self) -> u8
        ensures { result ≡ number_of self }
    {
        match self {
            Version::One => 1,
            Version::Two => 2,
            Version::Three => 3,
            Version::Four => 4,
        }
    }

    /// Reads the byte that says the format.
    fn read_byte(from: &mut Reader) -> Result<Version, CutRefused>
        ensures { Reads version_byte result from.old.left.now from.new.left.now }
    {
        let at = from.place();
        match from.take(1) {
            Some([1]) => Ok(Version::One),
            Some([2]) => Ok(Version::Two),
            Some([3]) => Ok(Version::Three),
            Some([4]) => Ok(Version::Four),
            _ => Err(CutRefused::Damaged { at }),
        }
    }

    /// Reads the four bytes at the front, and the format.
    fn read(from: &mut Reader) -> Result<Version, CutRefused>
        ensures { Reads header result from.old.left.now from.new.left.now }
    {
        expect(from, 0x45)?;
        expect(from, 0x51)?;
        expect(from, 0x4c)?;
        expect(from, 0x43)?;
        let version = Version::read_byte(from)?;
        Ok(version)
    }
}

/// Reads the text of a cut up to what closes it.
fn read_unclosed(from: &mut Reader, alloc: Global) -> Result<(Version, Cut), CutRefused>
    ensures { Reads unclosed result from.old.left.now from.new.left.now }
{
    let version = Version::read(from)?;
    let cut = Cut::read(from, alloc, version)?;
    Ok((version, cut))
}

/// Reads a number, which is to be this one.
fn expect_number(from: &mut Reader, alloc: Global, number: u64) -> Result<(), CutRefused>
    ensures { Reads (the_number w64 number) result from.old.left.now from.new.left.now }
{
    let at = from.place();
    let found = u64::read(from, alloc, Version::Four)?;
    if found == number {
        Ok(())
    } else {
        Err(CutRefused::Damaged { at })
    }
}

/// Reads what closes a text of these bytes.
fn read_closing(
    from: &mut Reader,
    alloc: Global,
    of: Version,
    bytes: &[u8],
) -> Result<(), CutRefused>
    ensures { Reads (closing of bytes.now) result from.old.left.now from.new.left.now }
{
    match of {
        Version::One | Version::Two | Version::Three => Ok(()),
        Version::Four => expect_number(from, alloc, checksum(bytes)),
    }
}

/// Writes the text of a cut behind the bytes of a head.
///
/// It takes memory at once for about as much as the text of its pending sequences needs, so that what is written
/// seldom has to move.
fn write_whole(alloc: Global, head: &[u8], given: &Cut) -> Result<Vec<u8>, Memory>
    requires { IsOrderedCut given.now }
    ensures text { IfOk result (λ v. v.items ≡ head.now ++ cut_text version.Four given.now) }
    ensures fits { OnOk result ((cut version.Four).Fits given.now) }
{
    let pending = given.holders.items().len();
    let room = pending.saturating_mul(100).saturating_add(64);
    let mut to = Vec::with_capacity(alloc, head.len().saturating_add(room))?;
    to.extend_from_slice(head)?;
    to.extend_from_slice(&[0x45, 0x51, 0x4c, 0x43, 4])?;
    given.write(&mut to)?;
    let sum = checksum(&to[head.len()..]);
    sum.write(&mut to)?;
    Ok(to)
}

/// Reads a cut, with its format, from all of the bytes.
fn read_whole(alloc: Global, bytes: &[u8]) -> Result<(Version, Cut), CutRefused>
    ensures { Answers cut_file result bytes.now }
{
    let mut from = Reader::new(bytes);
    let (version, cut) = read_unclosed(&mut from, alloc)?;
    let unclosed = &bytes[..bytes.len() - from.count_left()];
    match read_closing(&mut from, alloc, version, unclosed) {
        Ok(()) if from.is_done() => Ok((version, cut)),
        Ok(()) => Err(CutRefused::Damaged { at: from.place() }),
        Err(refused) => Err(refused),
    }
}

/// The text of a cut in format 4.
///
/// The cut is to stand in the orders and counts that a text has; `decode` gives no other.
///
/// # Errors
///
/// [`Memory`] where memory ran out.
pub fn encode(alloc: Global, cut: &Cut) -> Result<Vec<u8>, Memory>
    requires { IsCut cut.now }
    ensures { IfOk result (λ bytes. IsText 4 cut.now bytes.items) }
{
    orders_told_alike();
    write_whole(alloc, &[], cut)
}

/// The bytes of the head, and behind them the text of a cut in format 4.
///
/// So a text that is to stand behind other bytes needs no second copy. The cut is to stand as `encode` asks.
///
/// # Errors
///
/// [`Memory`] where memory ran out.
pub fn encode_behind(alloc: Global, head: &[u8], cut: &Cut) -> Result<Vec<u8>, Memory>
    requires { IsCut cut.now }
    ensures { IfOk result (λ bytes. IsTextBehind head.now cut.now bytes.items) }
{
    orders_told_alike();
    write_whole(alloc, head, cut)
}

/// The cut that the bytes spell, all of them, in any of the four formats.
///
/// # Errors
///
/// [`CutRefused::Damaged`] where the bytes are the text of no cut, with the number of bytes before
/// what couldn't be read; [`CutRefused::Memory`] where memory ran out.
pub fn decode(alloc: Global, bytes: &[u8]) -> Result<Decoded, CutRefused>
    ensures found { IfOk result (λ d. IsTextOf d.format d.cut bytes.now) }
    ensures stands { IfOk result (λ d. IsCut d.cut) }
    ensures damaged { IfErr result (λ e. IfDamaged e (IsNoText bytes.now)) }
{
    orders_told_alike();
    match read_whole(alloc, bytes) {
        Ok((version, cut)) => Ok(Decoded {
            cut,
            format: version.number(),
        }),
        Err(refused) => Err(refused),
    }
}
