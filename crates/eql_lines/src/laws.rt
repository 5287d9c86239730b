//! Laws of lines.
ghost use Rattle.std.specs.Prelude.{ℕ, List};
ghost use Rattle.eql_lines.specs.Reading.{line_read, IsEventInTime};
ghost use Rattle.eql_lines.specs.declared.wanted.Wanted.{Wanted as Wants};

/// Every event that a line is has a timestamp within what whole milliseconds of 64 signed bits can
/// say. It does nothing.
pub fn events_are_in_time()
    ensures { (wanted : Wants) (bytes : List ℕ) → IsEventInTime (line_read wanted bytes) }
{}
