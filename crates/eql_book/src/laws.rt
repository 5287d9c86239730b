//! Laws of what books write, each as the contract of a function that does nothing.
ghost use Rattle.eql_book.specs.Laws.{AllAddsGoOn, FreshIsOfNone, BookIsKept, EndIsWhole, ListingIsWhole};

/// Adding two lists of matches is adding one and then the other, and so are the lines. So a book
/// made from the cut of another goes on as that one would.
pub fn adds_go_on()
    ensures { AllAddsGoOn }
{}

/// What a book keeps is what a cut of a run keeps of its output, as long as each match has a number
/// of 64 bits; what it wrote is what may be written before the end, and with the end the listing.
pub fn listing_is_whole()
    ensures fresh { FreshIsOfNone }
    ensures kept { BookIsKept }
    ensures end { EndIsWhole }
    ensures whole { ListingIsWhole }
{}
