//! Laws of texts that were read up to a place: the lines before it and after it, and what below a safe mark is known there.
ghost use Rattle.eql_laws.specs.Places.{LinesGoOn, LinesStepOn, LinesAreNext, NumberedGoOn, LinesAreOne, LinesEndOn, ReadableGoesOn, AcceptedGoesOn, RestOfShardIsLate, RestIsLate};

/// The lines of two texts are those of the first, and those of the second numbered and placed on.
pub fn lines_go_on()
    ensures once { LinesGoOn }
    ensures step_by_step { LinesStepOn }
    ensures line_by_line { LinesAreNext }
{}

/// The lines of two texts go on with any number and place. A line is one line with its line feed and without it.
pub fn numbered_go_on()
    ensures lines { NumberedGoOn }
    ensures one { LinesAreOne }
    ensures end { LinesEndOn }
{}

/// The readable events of two texts are those of the first, and those of the second numbered and placed on.
pub fn readable_goes_on()
    ensures { ReadableGoesOn }
{}

/// The accepted events of two texts are those of the first, and those of the second with the greatest time kept.
pub fn accepted_goes_on()
    ensures { AcceptedGoesOn }
{}

/// Every accepted event below a safe mark stands before the places at which the mark is safe.
pub fn late()
    ensures of_shard { RestOfShardIsLate }
    ensures of_all { RestIsLate }
{}
