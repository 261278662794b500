//! Laws of the keys of one segment, where all segments share the numbers.

ghost use Rattle.moka_pairs.specs.Laws.{SegmentKeysAreKeys, SegmentKeysGrow};

/// The keys of a segment are keys of pairs.
pub fn segment_keys_are_keys<K, V>()
    ensures keys { SegmentKeysAreKeys K V }
{}

/// Where there are more pairs, a segment has the keys that it had, and those of the new pairs that
/// are its own.
pub fn segment_keys_grow<K, V>()
    ensures grow { SegmentKeysGrow K V }
{}
