//! Laws of the map that a segment gives with the pairs of its numbers.

ghost use Rattle.moka_pairs.specs.Laws.{FoundIsMaps, KeptMapStays, PresentHasPair, PutIsCounted, PutIsMaps, RemovalIsCounted, RemovalIsMaps};

/// The map has under a key the pair of the node that is present there.
pub fn found_is_maps<K, V>()
    ensures found { FoundIsMaps K V }
{}

/// A node that is present has a pair.
pub fn present_has_pair<K, V>()
    ensures pair { PresentHasPair K V }
{}

/// Where the same nodes are present, the map is the same.
pub fn kept_map_stays<K, V>()
    ensures stays { KeptMapStays K V }
{}

/// Where a key has another node, the map has the pair of that node under the key, and what it had
/// under others.
pub fn put_is_maps<K, V>()
    ensures put { PutIsMaps K V }
{}

/// Where a key has no node any more, the map has nothing under the key, and what it had under
/// others.
pub fn removal_is_maps<K, V>()
    ensures removed { RemovalIsMaps K V }
{}

/// A put counts one key more, if the map had nothing under the key.
pub fn put_is_counted<K, V>()
    ensures counted { PutIsCounted K V }
{}

/// A removal counts one key fewer.
pub fn removal_is_counted<K>()
    ensures counted { RemovalIsCounted K }
{}
