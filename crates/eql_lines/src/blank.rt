//! Blank lines.
ghost use Rattle.std.specs.Prelude.{◌≡◌};
ghost use Rattle.eql_values.specs.Reading.{is_blank as is_blank_line};

/// Whether the line has nothing but spaces, tabs and carriage returns.
pub(crate) fn is_blank(line: &[u8]) -> bool
    ensures { result ≡ is_blank_line line.now }
{
    line.iter()
        .all(|byte| *byte == b' ' || *byte == b'\t' || *byte == b'\r')
}
