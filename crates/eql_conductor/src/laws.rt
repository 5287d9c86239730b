//! Laws of the opening of runs, of lanes, parts and all that is found from call to call, of what runs list, and of their cuts. Each
//! is the contract of a function that does nothing.
ghost use Rattle.eql_conductor.specs.Finding.{RoundsFind};
ghost use Rattle.eql_conductor.specs.LaneCalls.{FeedKeepsLane, TakeMovesLane};
ghost use Rattle.eql_conductor.specs.PartCalls.{CollectMovesPart, DeliverMovesPart, TurnKeepsPart};
ghost use Rattle.eql_conductor.specs.Openings.{CutRunsBegin, CutRunsHaveTexts, FitMayBegin, FreshRunsBegin};
ghost use Rattle.eql_conductor.specs.RunLaws.{CutRunsAreTold, FreshRunsAreTold, RunCutsAreOfTexts, RunCutsAreSafe, RunCutsFit, RunsStopInLines, RunsWriteLines};

use crate::bench::Bench;

/// A run may begin where all lanes and parts are fresh, whatever others fed and turned since.
pub fn fresh_runs_begin<B: Bench>(bench: &B)
    ensures { FreshRunsBegin (B.known bench.now) }
{}

/// A run may begin where all lanes and parts began with what a cut keeps that fits, whatever others
/// fed and turned since. Where the cut is one of told texts, the lanes have these texts.
pub fn cut_runs_begin<B: Bench>(bench: &B)
    ensures fitting { CutRunsBegin (B.known bench.now) }
    ensures texts { CutRunsHaveTexts (B.known bench.now) }
{}

/// Each lane, each part and the book may begin with what a cut keeps that fits.
pub fn cuts_may_begin()
    ensures { FitMayBegin }
{}

/// Feeds keep what is known of a lane at a mark, and a take moves it to a greater mark.
pub fn lanes_go_on()
    ensures feeds { FeedKeepsLane }
    ensures takes { TakeMovesLane }
{}

/// Turns keep what is known of a part, deliveries and collections move it on.
pub fn parts_go_on()
    ensures turns { TurnKeepsPart }
    ensures deliveries { DeliverMovesPart }
    ensures collections { CollectMovesPart }
{}

/// What the parts find by the events of a round, merged, are the matches by these events, and each part has its own of what is
/// pending then.
pub fn rounds_find()
    ensures { RoundsFind }
{}

/// Over lanes that tell their texts a run begins so that all events below its mark were played.
pub fn told_runs_begin<B: Bench>(bench: &B)
    ensures fresh { FreshRunsAreTold (B.known bench.now) }
    ensures cut { CutRunsAreTold (B.known bench.now) }
{}

/// The lines of a run over told texts are those of the listing after the ones that its book counts.
/// A run that stops writes a front of them, and its book was given the matches below its mark.
pub fn runs_list()
    ensures whole { RunsWriteLines }
    ensures stopped { RunsStopInLines }
{}

/// A cut that a run over told texts puts is the cut of these texts at places, so a run that goes on
/// from it goes on with the same texts. Where these and the slack, 0 to 36,500 days, are those that a
/// run may have, the cut fits the run.
pub fn run_cuts_are_of_texts()
    ensures texts { RunCutsAreOfTexts }
    ensures fitting { RunCutsFit }
{}

/// At the time of such a cut no further event of its lanes can come below it, so the lanes that begin
/// with it have the texts.
pub fn run_cuts_are_safe()
    ensures { RunCutsAreSafe }
{}
