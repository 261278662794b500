//! Calls of maps of numbers.

use moka_map::HashMap;
use std::alloc::AllocError;
use std::hash::BuildHasher;

/// What `get` answers.
pub(crate) fn get<S: BuildHasher + Drop>(
    map: &HashMap<u64, u64, S>,
    key: u64,
) -> Result<Option<u64>, AllocError> {
    map.get(map.hash(&key), |other| key == *other)
}

/// What `contains_key` answers.
pub(crate) fn has<S: BuildHasher + Drop>(
    map: &HashMap<u64, u64, S>,
    key: u64,
) -> Result<bool, AllocError> {
    map.contains_key(map.hash(&key), |other| key == *other)
}

/// Stores the pair, and gives the value that was there.
pub(crate) fn insert<S: BuildHasher + Drop>(
    map: &mut HashMap<u64, u64, S>,
    key: u64,
    value: u64,
) -> Result<Option<u64>, AllocError> {
    let hash = map.hash(&key);
    map.insert_entry_and(key, hash, value, |_, previous| *previous)
}

/// Stores 1 or adds 1, and gives the value that was there.
pub(crate) fn count<S: BuildHasher + Drop>(
    map: &mut HashMap<u64, u64, S>,
    key: u64,
) -> Result<Option<u64>, AllocError> {
    let hash = map.hash(&key);
    map.insert_with_or_modify(key, hash, || 1, |_, value| value.wrapping_add(1))
}

/// Stores 1 or adds 1, and gives the sum of the key and the value that were there.
pub(crate) fn count_pair<S: BuildHasher + Drop>(
    map: &mut HashMap<u64, u64, S>,
    key: u64,
) -> Result<Option<u64>, AllocError> {
    let hash = map.hash(&key);
    map.insert_with_or_modify_entry_and(
        key,
        hash,
        || 1,
        |_, value| value.wrapping_add(1),
        |key, value| key.wrapping_add(*value),
    )
}

/// Removes the key, and gives its value.
pub(crate) fn remove<S: BuildHasher + Drop>(
    map: &mut HashMap<u64, u64, S>,
    key: u64,
) -> Result<Option<u64>, AllocError> {
    let hash = map.hash(&key);
    map.remove(hash, |other| key == *other)
}

/// Removes the key, and gives its pair.
pub(crate) fn remove_pair<S: BuildHasher + Drop>(
    map: &mut HashMap<u64, u64, S>,
    key: u64,
) -> Result<Option<(u64, u64)>, AllocError> {
    let hash = map.hash(&key);
    map.remove_entry(hash, |other| key == *other)
}

/// Removes the key where it is even.
pub(crate) fn remove_even<S: BuildHasher + Drop>(
    map: &mut HashMap<u64, u64, S>,
    key: u64,
) -> Result<Option<u64>, AllocError> {
    let hash = map.hash(&key);
    map.remove_if(hash, |other| key == *other, |even, _| even % 2 == 0)
}

/// Removes the key where its value is this one, and gives the sum of key and value.
pub(crate) fn remove_value<S: BuildHasher + Drop>(
    map: &mut HashMap<u64, u64, S>,
    key: u64,
    value: u64,
) -> Result<Option<u64>, AllocError> {
    let hash = map.hash(&key);
    map.remove_entry_if_and(
        hash,
        |other| key == *other,
        |_, stored| *stored == value,
        |key, stored| key.wrapping_add(*stored),
    )
}

/// The sum of the key and its value.
pub(crate) fn sum<S: BuildHasher + Drop>(
    map: &HashMap<u64, u64, S>,
    key: u64,
) -> Result<Option<u64>, AllocError> {
    map.get_key_value_and(
        map.hash(&key),
        |other| key == *other,
        |key, value| key.wrapping_add(*value),
    )
}

/// The value of the key, where it is even.
pub(crate) fn even_value<S: BuildHasher + Drop>(
    map: &HashMap<u64, u64, S>,
    key: u64,
) -> Result<Option<u64>, AllocError> {
    map.get_key_value_and_then(
        map.hash(&key),
        |other| key == *other,
        |_, value| if *value % 2 == 0 { Some(*value) } else { None },
    )
}
