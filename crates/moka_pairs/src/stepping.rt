//! Laws of the access of a call, whatever keys are still to come.

ghost use Rattle.moka_pairs.specs.Laws.{AccessKeepsAll, CountIsKept, EndingIsKnown, FitsAllLasts, GoingFitsAll};

/// A segment stays sound, whichever access a fitting call makes, and its memory is a later one.
pub fn access_keeps_all<K>()
    ensures keeps { AccessKeepsAll K }
{}

/// A call that goes on fits the memory that its access left. The map is as it was, and the call has
/// fewer steps left.
pub fn going_fits_all<K>()
    ensures going { GoingFitsAll K }
{}

/// A call that ends has found the node that was present under its key, and has changed it as it
/// tells.
pub fn ending_is_known<K>()
    ensures ends { EndingIsKnown K }
{}

/// The count of keys stays right, if the access recounts as it exchanges.
pub fn count_is_kept<K>()
    ensures counted { CountIsKept K }
{}

/// A call that fits a memory fits each later one, unless it is asked what is to be done.
pub fn fits_all_lasts<K>()
    ensures lasts { FitsAllLasts K }
{}
