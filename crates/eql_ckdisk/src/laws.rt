//! Laws of recoveries and of puts one after another, each as the contract of a function that does nothing.
ghost use Rattle.eql_ckdisk.specs.Laws.{FoundIsOne, PutsAreFound, PutsAreNoOlder, PutsGoOn, PutsKeepEachMoment};
ghost use Rattle.eql_ckdisk.specs.Laws.{RecoveryAddsNothing};

use eql_outside::crashes_leave_images;

/// How a run of puts is joined of a recovery, of single puts and of other runs.
pub fn puts_go_on()
    ensures { PutsGoOn }
{
    crashes_leave_images();
}

/// At each moment of a run of puts each image stands for what an image at its start stands for, or for one of the
/// cuts, and none is older than one before it.
pub fn at_each_moment()
    ensures { PutsKeepEachMoment }
{}

/// At each moment of a recovery each image is one of those at its start.
pub fn recovery_adds_nothing()
    ensures { RecoveryAddsNothing }
{}

/// At the end of a run of puts no image is older than all at its start, so what was acknowledged is never followed by
/// something older.
pub fn never_older()
    ensures { PutsAreNoOlder }
{}

/// A recovery that finds a cut that was put returns that cut, in format 4, with its area and its generation.
pub fn puts_are_found()
    ensures { PutsAreFound }
{}

/// What is found has one result of a recovery, and none where it is damaged or another program's.
pub fn found_is_one()
    ensures { FoundIsOne }
{}
