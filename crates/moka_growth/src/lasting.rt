//! Laws of what calls know, while others make their accesses.

ghost use Rattle.moka_growth.specs.Laws.{CallFits, FitsGoesOn, FitsLasts, LaterMemoryGoesOn};

/// A memory later than a later one is later.
pub fn later_memory_goes_on()
    ensures later { LaterMemoryGoesOn }
{}

/// A call that fits a memory fits each later one, unless it has just asked what is to be done: that
/// belongs to the step of the load before.
pub fn fits_lasts()
    ensures fits { FitsLasts }
{}

/// A call that begins fits every memory.
pub fn call_fits()
    ensures fits { CallFits }
{}

/// A call that goes on after its access fits the memory that the access left.
pub fn fits_goes_on()
    ensures fits { FitsGoesOn }
{}
