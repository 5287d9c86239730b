//! A checksum of a text, and a digest of bytes that come in pieces.
#![tactic(auto)]

mod crc;
mod digest;
mod laws;

pub use crc::checksum;
pub use digest::Digest;
pub use laws::{bursts_are_found, changed_bytes_are_found};
