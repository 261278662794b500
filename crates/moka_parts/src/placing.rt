//! The part of a key.
ghost use Rattle.std.specs.Prelude.{◌≡◌, ◌<◌, true};
ghost use Rattle.std.specs.Bool.{OnTrue};
ghost use Rattle.std.specs.Set.{is_member};
ghost use Rattle.moka_parts.specs.Hashing.{part_in};

use crate::open_book::PARTS;
use std::hash::{BuildHasher, Hash};

/// The part of the key, by the hash that a table's hash builder gives it.
pub(crate) fn part_of<K: Hash, S: BuildHasher>(hasher: &S, key: &K) -> usize
    ensures part { result ≡ part_in S.BuildHasher S.Hasher.Hasher K.hash_input hasher.now key.now }
    ensures small { result < 64 }
{
    (hasher.hash_one(key) % PARTS as u64) as usize
}

/// Whether each of the keys is of this part.
pub(crate) fn are_of<K: Eq + Hash, S: BuildHasher>(hasher: &S, keys: &[K], number: usize) -> bool
    ensures { OnTrue result ((q : K) → is_member K.eq keys.now q ≡ true
        → part_in S.BuildHasher S.Hasher.Hasher K.hash_input hasher.now q ≡ number) }
{
    for place in 0..keys.len() {
        if part_of(hasher, &keys[place]) != number {
            return false;
        }
    }
    true
}
