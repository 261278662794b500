//! Many keys.

ghost use Rattle.std.specs.Prelude.{◌≤◌};

use crate::calls::{get, insert, remove, remove_even};
use crate::hashers::BuildZero;
use crate::pairs::{Map, empty};
use moka_map::HashMap;
use std::alloc::{AllocError, Global};
use std::test::Fail;

/// How many keys there are.
const KEYS: u64 = 512;

// Stores each key with itself and this together; tells whether each answers so.
fn insert_all(map: &mut Map, more: u64, before: Option<u64>) -> Result<bool, AllocError> {
    for key in 0..KEYS {
        if insert(map, key, key.wrapping_add(more))? != before.map(|b| b.wrapping_add(key)) {
            return Ok(false);
        }
    }
    Ok(true)
}

// Whether each key has itself and this together.
fn has_all(map: &Map, more: u64) -> Result<bool, AllocError> {
    for key in 0..KEYS {
        if get(map, key)? != Some(key.wrapping_add(more)) {
            return Ok(false);
        }
    }
    Ok(true)
}

// Whether each key is removed with itself and this together.
fn remove_all(map: &mut Map, more: u64) -> Result<bool, AllocError> {
    for key in 0..KEYS {
        if remove(map, key)? != Some(key.wrapping_add(more)) {
            return Ok(false);
        }
    }
    Ok(true)
}

// Stores, replaces and removes each key.
fn all_keys(alloc: Global, capacity: usize) -> Result<bool, AllocError> {
    let mut map = empty(alloc, capacity)?;
    let stored = insert_all(&mut map, 0, None)?;
    let replaced = insert_all(&mut map, 1000, Some(0))?;
    let found = has_all(&map, 1000)?;
    let removed = remove_all(&mut map, 1000)?;
    Ok(stored && replaced && found && removed && map.is_empty())
}

#[test]
fn all_keys_are_stored_replaced_and_removed(rt: HostRuntime) -> Result<(), Fail> {
    assert!(rt; all_keys(rt.alloc(), 0)?, "from no capacity");
    assert!(rt; all_keys(rt.alloc(), 512)?, "from a capacity of 512");
    Ok(())
}

// Whether the even keys are removed, and the odd ones stay.
fn evens_go(alloc: Global) -> Result<bool, AllocError> {
    let mut map = empty(alloc, 0)?;
    let mut right = insert_all(&mut map, 7, None)?;
    for key in 0..KEYS {
        let want = if key % 2 == 0 {
            Some(key.wrapping_add(7))
        } else {
            None
        };
        right = right && remove_even(&mut map, key)? == want;
    }
    Ok(right && map.len() == 256)
}

#[test]
fn even_keys_are_removed(rt: HostRuntime) -> Result<(), Fail> {
    assert!(rt; evens_go(rt.alloc())?);
    Ok(())
}

/// A map of one segment whose keys have all one hash, with the odd keys up to 199 of 200.
pub(crate) fn odd_keys(alloc: Global) -> Result<Option<HashMap<u64, u64, BuildZero>>, AllocError> {
    let mut map = HashMap::with_num_segments_and_hasher(alloc, 1, BuildZero {})?;
    for key in 0..200u64 {
        if insert(&mut map, key, key)?.is_some() {
            return Ok(None);
        }
    }
    for key in 0..100u64 {
        if remove(&mut map, 2 * key)? != Some(2 * key) {
            return Ok(None);
        }
    }
    Ok(Some(map))
}

/// Whether these are the odd numbers up to 199, each once, in any order.
pub(crate) fn are_odd(keys: &[u64]) -> bool {
    let mut sum = 0u64;
    for key in keys {
        sum = sum.wrapping_add(*key);
    }
    let odd = keys.iter().all(|key| key % 2 == 1 && *key < 200);
    odd && keys.len() == 100 && sum == 10_000
}

// Whether such a map lists its keys.
fn lists_odd(alloc: Global) -> Result<bool, AllocError> {
    let Some(map) = odd_keys(alloc)? else {
        return Ok(false);
    };
    let absent = map.keys(1, |key| *key)?.is_none();
    let listed = match map.keys(0, |key| *key)? {
        None => false,
        Some(keys) => are_odd(keys.as_slice()),
    };
    Ok(absent && listed && map.len() == 100)
}

#[test]
fn keys_of_one_hash_are_listed(rt: HostRuntime) -> Result<(), Fail> {
    assert!(rt; lists_odd(rt.alloc())?);
    Ok(())
}
