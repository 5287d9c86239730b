//! The checksum of a text: CRC-64/XZ.
ghost use Rattle.std.specs.Prelude.{◌≡◌, ℕ, ◌<◌, slice_index};
ghost use Rattle.eql_digest.specs.Checksums.{divided, divided_by_bits, checksum_of};

/// The polynomial of ECMA-182, reflected.
const POLYNOMIAL: u64 = 0xC96C_5795_D787_0F42;

fn divide(rest: u64) -> u64
    ensures { result ≡ divided rest }
{
    rest / 2 ^ rest % 2 * POLYNOMIAL
}

fn entry(byte: u64) -> u64
    ensures { result ≡ divided_by_bits 8 byte }
{
    let mut rest = byte;
    'bits: for _ in 0..8usize {
        rest = divide(rest);
    }
    rest
}

fn entries() -> [u64; 256]
    ensures { (byte : ℕ) → byte < 256 → slice_index result byte ≡ divided_by_bits 8 byte }
{
    let mut table = [0; 256];
    for byte in 0..256 {
        table[byte] = entry(byte as u64);
    }
    table
}

/// The checksum of a text: CRC-64 with the polynomial of ECMA-182, reflected, as xz uses it (CRC-64/XZ).
pub fn checksum(bytes: &[u8]) -> u64
    ensures { result ≡ checksum_of bytes.now }
{
    let table = entries();
    let mut rest = u64::MAX;
    for byte in bytes {
        let of = rest ^ u64::from(*byte);
        rest = table[(of % 256) as usize] ^ of / 256;
    }
    rest ^ u64::MAX
}
