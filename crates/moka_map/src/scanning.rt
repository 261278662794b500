//! What a scan needs of a map.

ghost use Rattle.std.specs.Prelude.{◌≡◌, ◌↔◌, ◌<◌, ℕ, IfOk, IsSome};
ghost use Rattle.std.specs.Option.{IfSome, option_map};
ghost use Rattle.moka_buckets.specs.Asking.{ListsSegment};
ghost use Rattle.moka_buckets.specs.Views.{segment_for};
ghost use Rattle.moka_map.specs.Maps.{Entries, entries, segments_in};

use crate::HashMap;
use moka_hist::KeyList;
use moka_values::Exact;
use std::alloc::AllocError;
use std::hash::{BuildHasher, Hash};

/// A map whose keys can be listed, a segment at a time, and looked up again.
pub trait ScanningGet<K: Eq, V> {
    /// The pair under each key.
    ghost pairs: { Self → Entries K V };

    /// How many segments there are, and which one a key belongs to.
    ghost segments: { Self → ℕ };

    ghost place: { Self → K → ℕ };

    /// Gives a clone of the value under the key, or `None` where there is none.
    fn scanning_get(&self, key: &K) -> Result<Option<V>, AllocError>
        ensures { IfOk result (λ value. value ≡ option_map (λ p. p.1) (pairs self.now key.now)) };

    /// Lists clones of the keys of the segment, each once, or answers `None` exactly where there is no
    /// such segment.
    fn keys(&self, cht_segment: usize) -> Result<Option<KeyList<K>>, AllocError>
        ensures there { IfOk result (λ keys. IsSome keys ↔ (cht_segment < segments self.now)) }
        ensures lists { IfOk result (λ keys. IfSome keys (λ list. ListsSegment K.eq
            (place self.now) (pairs self.now) cht_segment list)) };
}

impl<K: Eq + Hash + Exact, V: Exact, S: BuildHasher + Drop> ScanningGet<K, V> for HashMap<K, V, S> {
    ghost use Rattle.moka_buckets.specs.Views.{segment_for};
    ghost use Rattle.moka_map.specs.Maps.{entries, segments_in};

    ghost pairs = { λ m. entries S.BuildHasher S.Hasher.Hasher K.eq K.hash_input m };

    ghost segments = { λ m. segments_in m };

    ghost place = { λ m. segment_for S.BuildHasher S.Hasher.Hasher K.eq K.hash_input m };

    fn scanning_get(&self, key: &K) -> Result<Option<V>, AllocError>
        ensures { IfOk result (λ value. value ≡ option_map (λ p. p.1)
            (entries S.BuildHasher S.Hasher.Hasher K.eq K.hash_input self.now key.now)) }
    {
        self.get(self.hash(key), |other| *key == *other)
    }

    #[tactic(auto, using(crate::proofs::Staying::lists_entries))]
    fn keys(&self, cht_segment: usize) -> Result<Option<KeyList<K>>, AllocError>
        ensures there { IfOk result (λ keys.
            IsSome keys ↔ (cht_segment < segments_in self.now)) }
        ensures lists { IfOk result (λ keys. IfSome keys (λ list. ListsSegment K.eq
            (segment_for S.BuildHasher S.Hasher.Hasher K.eq K.hash_input self.now)
            (entries S.BuildHasher S.Hasher.Hasher K.eq K.hash_input self.now)
            cht_segment list)) }
    {
        match self.copies(cht_segment)? {
            None => Ok(None),
            Some(keys) => Ok(Some(KeyList::from_vec(keys))),
        }
    }
}
