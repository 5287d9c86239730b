//! Laws of lists of events that ascend together.
ghost use Rattle.eql_laws.specs.Together.{AscendTogether, StandsBefore, NotBelowComesFrom};

/// Two ascending lists, all of the first below a mark and none of the second, ascend together. So does one event below
/// the mark with such a list. What isn't below a time comes at that time or later.
pub fn ascend_together()
    ensures lists { AscendTogether }
    ensures event { StandsBefore }
    ensures times { NotBelowComesFrom }
{}
