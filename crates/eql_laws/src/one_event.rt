//! Laws of pending sequences as a list: what a look-up finds after events, and what one event does.
ghost use Rattle.eql_laws.specs.OneEvent.{AfterLooksUp, AfterHasNoOther, HoldersAreSame, OneItemMovesSlots, OneItemMatches, AfterNoneIsSame};

/// A look-up in what is pending after events finds what the look-back gives, at the stages before the last, and nothing at others.
pub fn after_looks_up()
    ensures there { AfterLooksUp }
    ensures no_other { AfterHasNoOther }
{}

/// Lists of pending sequences in order with the same look-ups are one and the same.
pub fn same_holders()
    ensures { HoldersAreSame }
{}

/// One event moves the slots of each key that it has a route of, and its matches are what comes to their last stages.
pub fn one_more_event()
    ensures after { OneItemMovesSlots }
    ensures matches { OneItemMatches }
{}

/// After no event what is pending is what was.
pub fn after_none()
    ensures { AfterNoneIsSame }
{}
