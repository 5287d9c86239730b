//! A law of lanes that were lifted, the contract of a function that does nothing.
ghost use Rattle.eql_resume.specs.Lifted.{LiftedIsCut};

use eql_cut::{events_are_named, noted_places_serve};

/// Lanes that were lifted from a cut without places keep what the cut does once it has the places that they found, which are
/// those of the whole texts.
pub fn lifted_lanes_are_placed()
    ensures { LiftedIsCut }
{
    noted_places_serve();
    events_are_named();
}
