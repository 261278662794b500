//! Keys that fall together under std's fixed seed, found by trying, and others.

use moka_cache::FixedSeed;
use std::alloc::{AllocError, Global};
use std::hash::BuildHasher;

/// At one of so many places std's map begins to look for a key, where it has 18,433 to 36,864
/// entries. A map of fewer has fewer places, and keys of one place here have one there.
const PLACES: u64 = 4096;

/// Finds so many numbers for which std's map of fixed seed begins to look at one place.
pub(crate) fn together(alloc: Global, count: u64) -> Result<Vec<u64>, AllocError> {
    let hasher = FixedSeed::new();
    let mut keys = Vec::new(alloc);
    for key in 0..u64::MAX {
        if keys.len() as u64 >= count {
            break;
        }
        if place_of(&hasher, key) == 0 {
            keys.push(key)?;
        }
    }
    Ok(keys)
}

/// The place at which the map begins to look for the key.
fn place_of(hasher: &FixedSeed, key: u64) -> u64 {
    let hash = hasher.hash_one(key);
    (hash ^ (hash >> 32)) % PLACES
}

/// As many numbers, the first that there are.
pub(crate) fn apart(alloc: Global, count: u64) -> Result<Vec<u64>, AllocError> {
    let mut keys = Vec::new(alloc);
    for key in 0..count {
        keys.push(key)?;
    }
    Ok(keys)
}
