//! Laws of cuts, each the contract of a function that does nothing.
ghost use Rattle.eql_cut.specs.Changed.{ChangesAreFound, TurnedBitsAreFound};
ghost use Rattle.eql_cut.specs.Lifting.{FirstFormatHasNoPlaces, LiftedStands, LiftedFits};
ghost use Rattle.eql_cut.specs.Lifting.{LiftedIsPlaced};
ghost use Rattle.eql_cut.specs.Whole.{TextsAreDecided};

use eql_digest::bursts_are_found;
use eql_laws::opening_finds;
use eql_values::{orders_agree_with_equality, orders_told_alike};

/// A cut whose text is in the first format has no places, as `lift` asks.
pub fn first_format_has_no_places()
    ensures { FirstFormatHasNoPlaces }
{}

/// A cut whose places are set anew stands in the orders and counts of a text, where it did before,
/// and it fits the same runs.
pub fn lifted_cuts_fit()
    ensures stand { LiftedStands }
    ensures fit { LiftedFits }
{
    orders_told_alike();
    orders_agree_with_equality();
    opening_finds();
}

/// A cut that has lost its places, and nothing else, is had again by the places of its lines.
pub fn lifted_cuts_are_placed()
    ensures { LiftedIsPlaced }
{}

/// Bytes are the text of one cut in one format, or of none.
pub fn texts_are_decided()
    ensures { TextsAreDecided }
{}

/// A text of format 4 in which up to 64 bits in a row are changed is the text of no cut in that format, and one in which a
/// bit is turned round is the text of no cut at all.
pub fn changed_texts_are_found()
    ensures changes { ChangesAreFound }
    ensures bits { TurnedBitsAreFound }
{
    bursts_are_found();
}
