//! Laws: which changes of a text the checksum and the digest tell for certain.
ghost use Rattle.eql_digest.specs.Laws.{BurstsAreFound, ChangedBytesAreFound};

/// Two texts of one length that differ within 64 bits in a row have two checksums: so a single bit that is turned round is
/// found, and so is whatever happens to 64 bits in a row.
pub fn bursts_are_found()
    ensures { BurstsAreFound }
{}

/// Two texts that differ in one byte have two digests.
pub fn changed_bytes_are_found()
    ensures { ChangedBytesAreFound }
{}
