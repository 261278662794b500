//! What a table may rest on that drives calls.

ghost use Rattle.moka_calls.specs.Laws.{SeenIsTaken, TakenIsMaps};

/// A call may take what its access sees, if the access leads from one sound segment to another, and
/// no array is longer than 2^60.
pub fn seen_is_taken()
    ensures taken { SeenIsTaken }
{}

/// A call that fits a sound segment takes what its access saw there. If the call goes on, it fits what
/// the access left, and the map is as before. If it ends, it has what the map has under its key, and
/// the map is changed there alone.
pub fn taken_is_maps()
    ensures maps { TakenIsMaps }
{}
