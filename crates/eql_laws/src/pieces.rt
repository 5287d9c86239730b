//! Laws of pieces of lists of events: what a part, a beginning or a rest keeps of the order and the times of the whole.
ghost use Rattle.eql_laws.specs.Pieces.{RoutedKeepsPieces, TimesKeep, TimesComeAfter, TimesComeBetween};

/// What the events of a part keep: pieces, number, order and times.
pub fn routed_pieces()
    ensures { RoutedKeepsPieces }
{}

/// Events that come at a time or later: pieces, those after an event, and those from a mark on.
pub fn times_keep()
    ensures pieces { TimesKeep }
    ensures after { TimesComeAfter }
    ensures between { TimesComeBetween }
{}
