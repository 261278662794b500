//! What an iterator gives in a whole run.

ghost use Rattle.std.specs.Prelude.{◌≡◌, ◌↔◌, List, IsSome, None};
ghost use Rattle.moka_map.specs.Coming.{AreEachOnce, Coming, GivesNext, IsToCome, Runs};
ghost use Rattle.moka_map.specs.Maps.{entries};

use std::hash::{BuildHasher, Hash};

/// An iterator that has the pairs of a map to come, gives some pairs one after the other and then None
/// has given each pair of the map exactly once.
pub fn each_pair_once<K: Eq + Hash, V, S: BuildHasher>()
    ensures once { (s mid last : Coming K V S) (given : List (K × V))
        → ((q : K) → IsToCome S.BuildHasher S.Hasher.Hasher K.eq K.hash_input s q
        ↔ IsSome (entries S.BuildHasher S.Hasher.Hasher K.eq K.hash_input s.map q))
        → Runs S.BuildHasher S.Hasher.Hasher K.eq K.hash_input s given mid
        → GivesNext S.BuildHasher S.Hasher.Hasher K.eq K.hash_input mid None last
        → AreEachOnce K.eq (entries S.BuildHasher S.Hasher.Hasher K.eq K.hash_input s.map) given }
{}
