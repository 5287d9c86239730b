//! Laws of bounds of what is read, which so are bounds of what is kept.
ghost use Rattle.eql_laws.specs.Bounds.{KeysFit, MasksFit, TimesFit};

/// Where each key that is read has a number of values, so has each of what is held back, of what is pending and of
/// what was found.
pub fn keys_fit()
    ensures { KeysFit }
{}

/// Where no mask that is read has a stage above the last, none of an event that is held back has.
pub fn masks_fit()
    ensures { MasksFit }
{}

/// The events of what is pending and of what was found have times within the bound.
pub fn times_fit()
    ensures { TimesFit }
{}
