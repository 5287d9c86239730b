//! Reading the first bytes of a source.
ghost use Rattle.std.specs.Prelude.{◌≡◌, ◌≤◌, ◌<◌, ◌-◌, true, false, [], Ok, IfOk, IsOk, length, vec_len};
ghost use Rattle.eql_inputs.specs.Fronts.{ReadsSource, TakesFront, HasRead, IsAtEnd};

use eql_outside::{OutRefused, Source};
use std::alloc::Global;

/// How many bytes are asked of a source at a time.
const PIECE_BYTES: usize = 65536;

/// Puts the next piece of a source at the end of a text. `Ok(false)` comes at the source's end.
fn read_piece<S: Source>(
    source: &mut S,
    piece: &mut [u8],
    most: usize,
    text: &mut Vec<u8>,
) -> Result<bool, OutRefused>
    requires room { 0 < length piece.old }
    requires short { vec_len text.old < most }
    ensures more { result ≡ Ok true
        → HasRead (S.left source.old) (S.left source.new) text.old.items text.new.items }
    ensures grows { result ≡ Ok true → vec_len text.old < vec_len text.new }
    ensures end { result ≡ Ok false
        → IsAtEnd (S.left source.old) × (text.new.items ≡ text.old.items) }
    ensures few { IsOk result → vec_len text.new ≤ most }
    ensures source { ReadsSource S.Source (most - vec_len text.old)
        source.old source.new result }
{
    let wanted = piece.len().min(most - text.len());
    let Ok(n) = source.take(&mut piece[..wanted]) else {
        return Err(OutRefused::Failed);
    };
    if n == 0 {
        return Ok(false);
    }
    match text.extend_from_slice(&piece[..n]) {
        Ok(()) => Ok(true),
        Err(_) => Err(OutRefused::Memory),
    }
}

/// Reads a source into an empty text, up to `most` bytes.
fn read_pieces<S: Source>(
    source: &mut S,
    piece: &mut [u8],
    most: usize,
    text: &mut Vec<u8>,
) -> Result<(), OutRefused>
    requires room { 0 < length piece.old }
    requires empty { text.old.items ≡ [] }
    ensures front { IsOk result → TakesFront (S.left source.old) most text.new.items }
    ensures few { IsOk result → length text.new.items ≤ most }
    ensures source { ReadsSource S.Source most source.old source.new result }
{
    'pieces: while text.len() < most {
        match read_piece(source, piece, most, text) {
            Ok(true) => {}
            Ok(false) => return Ok(()),
            Err(refused) => return Err(refused),
        }
    }
    Ok(())
}

/// Reads the first `most` bytes that a source has left, or all where there are fewer. It takes no more than these bytes
/// of the source. `Failed` comes where a take failed, and then the source's count isn't 0; else its count stays.
pub fn read_front<S: Source>(
    alloc: Global,
    source: &mut S,
    most: usize,
) -> Result<Vec<u8>, OutRefused>
    requires { 0 < most }
    ensures front { IfOk result (λ text. TakesFront (S.left source.old) most text.items) }
    ensures few { IfOk result (λ text. length text.items ≤ most) }
    ensures source { ReadsSource S.Source most source.old source.new result }
{
    let Ok(mut piece) = Vec::from_elem(alloc, 0u8, most.min(PIECE_BYTES)) else {
        return Err(OutRefused::Memory);
    };
    let mut text = Vec::new(alloc);
    match read_pieces(source, piece.as_mut_slice(), most, &mut text) {
        Ok(()) => Ok(text),
        Err(refused) => Err(refused),
    }
}
