//! Laws of a listing that goes on from what a cut keeps of the output.
ghost use Rattle.eql_laws.specs.Resuming.{NumberedGoesOn, BookGoesOn, EmittedGoesOn, PipedGoesOn, ListingResumes};

/// What is kept of the output goes on with more matches by itself and them alone.
pub fn book_goes_on()
    ensures numbers { NumberedGoesOn }
    ensures book { BookGoesOn }
{}

/// What was written stays the front of all that will be, and the rest is a function of what is kept of the output and
/// of the matches found after it.
pub fn listing_resumes()
    ensures before_the_end { EmittedGoesOn }
    ensures at_the_end { PipedGoesOn }
    ensures rest { ListingResumes }
{}
