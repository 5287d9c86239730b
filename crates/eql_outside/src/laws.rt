//! Laws over the definitions, each as the contract of a function that does nothing.
ghost use Rattle.eql_outside.specs.DiskLaws.{WholeLands, ImagesAreThere, SeenIsLeft};
ghost use Rattle.eql_outside.specs.Faults.{RosesAgree};
ghost use Rattle.eql_outside.specs.Unfailing.{StaysUnfailing};

/// How counts of faults by name go from call to call: a call in which those of one name rose and one in which none
/// did are, in either order, one in which those of that name rose.
pub fn faults_are_counted_by_name()
    ensures { RosesAgree }
{}

/// Objects of which no call is planned to fail: the next call doesn't, they stay so, and the sources of a shelf whose files
/// have no planned failures are so.
pub fn unfailing_stays()
    ensures { StaysUnfailing }
{}

/// What a crash may always leave of a disk: of a write all or nothing of it, of an area what was kept and what reads
/// give.
pub fn crashes_leave_images()
    ensures lands { WholeLands }
    ensures images { ImagesAreThere }
    ensures seen { SeenIsLeft }
{}
