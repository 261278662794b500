//! Laws of numbers that get keys and pairs.

ghost use Rattle.moka_pairs.specs.Laws.{GrownIsMaps, GrownIsSound};

/// A segment stays sound while more numbers get keys, and calls that fit it still fit.
pub fn grown_is_sound<K>()
    ensures grown { GrownIsSound K }
{}

/// The map stays the same while more numbers get pairs.
pub fn grown_is_maps<K, V>()
    ensures grown { GrownIsMaps K V }
{}
