//! A cut of texts has the places of its lines, by which it is had again where it lost them.
ghost use Rattle.eql_cut.specs.PlacedLaws.{EventsHavePlaces, PlacedIsBack};
ghost use Rattle.eql_cut.specs.PlacedLaws.{EventsAreNamed};
ghost use Rattle.eql_cut.specs.PlacedLaws.{WantedWereNoted, NotedIsPlaced, NotedIsBack};
ghost use Rattle.eql_cut.specs.PlacedLaws.{NamedWereRead};
ghost use Rattle.eql_cut.specs.PlacedLaws.{NamesStay, UnplacedIsBack};

use crate::keeping::lifted_cuts_are_placed;
use eql_laws::{events_and_keys_stay, late, pipes_go_on};

/// Each event of a cut of texts has the place of its line. A cut of texts that has lost its places
/// is had again by those of the texts.
pub fn cuts_have_places()
    ensures events { EventsHavePlaces }
    ensures back { PlacedIsBack }
{
    events_and_keys_stay();
    pipes_go_on();
    lifted_cuts_are_placed();
}

/// Places that were noted while the shards were read set the places of the texts. A cut of texts
/// that has lost its places is had again by them. Any lines may be noted beside those of the cut.
pub fn noted_places_serve()
    ensures wanted { WantedWereNoted }
    ensures placed { NotedIsPlaced }
    ensures back { NotedIsBack }
{
    cuts_have_places();
}

/// Each line that a cut of texts at a safe time names was read.
pub fn named_lines_were_read()
    ensures { NamedWereRead }
{
    events_and_keys_stay();
    pipes_go_on();
    late();
}

/// Setting places changes no line that a cut names. A cut without places that is placed, and then
/// loses its places, is what it was.
pub fn places_alone_are_set()
    ensures names { NamesStay }
    ensures back { UnplacedIsBack }
{
    lifted_cuts_are_placed();
}

/// Each event of a cut stands at a line that the cut names.
pub fn events_are_named()
    ensures { EventsAreNamed }
{}
