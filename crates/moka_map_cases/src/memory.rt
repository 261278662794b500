//! Want of memory. With `rt try --test --fail-alloc N` the Nth allocation is refused, and one at most
//! in a run: so what a test looks at is looked at twice where that was refused memory.

use crate::calls::{get, insert, remove};
use crate::pairs::Map;
use moka_map::{HashMap, Iter};
use std::alloc::{AllocError, Global};
use std::hash::{BuildHasherDefault, FoldHasher};
use std::io::Eprint;
use std::process::Abort;
use std::test::Fail;

/// How many keys are stored. The array of their segment, at first of two words, grows meanwhile.
const KEYS: u64 = 200;

type Pairs<'a> = Iter<'a, u64, u64, BuildHasherDefault<FoldHasher>>;

// Whether these are the numbers below this one, each once, in any order.
fn are_below(keys: &[u64], count: u64) -> bool {
    keys.len() as u64 == count && (0..count).all(|key| keys.contains(&key))
}

// Whether the keys below this one are found, with themselves and this together, and no others.
fn finds(map: &Map, count: u64, more: u64) -> Result<bool, AllocError> {
    for key in 0..KEYS {
        let want = if key < count {
            Some(key.wrapping_add(more))
        } else {
            None
        };
        if get(map, key)? != want {
            return Ok(false);
        }
    }
    Ok(map.len() as u64 == count)
}

// Whether the segment has the keys below this one.
fn lists(map: &Map, count: u64) -> Result<bool, AllocError> {
    match map.keys(0, |key| *key)? {
        None => Ok(false),
        Some(keys) => Ok(are_below(keys.as_slice(), count)),
    }
}

// The next key, where its value is itself and this together.
fn next_key(pairs: &mut Pairs<'_>, more: u64) -> Result<Option<u64>, AllocError> {
    match pairs.next() {
        None => Ok(None),
        Some(Err(error)) => Err(error),
        Some(Ok((key, value))) => {
            let is_right = value == key.wrapping_add(more);
            Ok(if is_right { Some(key) } else { None })
        }
    }
}

// Whether the pairs of the keys below this one are gone over.
fn goes_over(alloc: Global, map: &Map, count: u64, more: u64) -> Result<bool, AllocError> {
    let mut keys = Vec::new(alloc);
    let mut pairs = map.iter();
    while (keys.len() as u64) < count {
        let Some(key) = next_key(&mut pairs, more)? else {
            return Ok(false);
        };
        keys.push(key)?;
    }
    Ok(pairs.next().is_none() && are_below(keys.as_slice(), count))
}

// Whether the map has the keys below this one, with themselves and this together, and no others.
fn has_all(alloc: Global, map: &Map, count: u64, more: u64) -> Result<bool, AllocError> {
    let found = finds(map, count, more)?;
    let listed = lists(map, count)?;
    let gone_over = goes_over(alloc, map, count, more)?;
    Ok(found && listed && gone_over)
}

// Whether the map has those keys, looked at once more where the first look was refused memory.
fn has(alloc: Global, map: &Map, count: u64, more: u64) -> Result<bool, AllocError> {
    match has_all(alloc, map, count, more) {
        Ok(right) => Ok(right),
        Err(_) => has_all(alloc, map, count, more),
    }
}

/// Stores the next key. Where memory is refused the map is as before, and the next insert of the key
/// grows on. Where the array grew, all keys are looked at.
fn grow<R: Abort + Eprint>(rt: &R, alloc: Global, map: &mut Map, key: u64) -> Result<(), Fail> {
    let capacity = map.capacity();
    match insert(map, key, key) {
        Ok(previous) => assert_eq!(rt; previous, None),
        Err(_) => {
            eprintln!(rt; "wanting in insert: key {key}")?;
            assert!(rt; has(alloc, map, key, 0)?);
            assert_eq!(rt; insert(map, key, key)?, None);
            assert!(rt; has(alloc, map, key.wrapping_add(1), 0)?);
        }
    }
    if map.capacity() != capacity {
        assert!(rt; has(alloc, map, key.wrapping_add(1), 0)?);
    }
    Ok(())
}

/// Stores another value, by this more. Where memory is refused the former one is still there.
fn replace<R: Abort + Eprint>(
    rt: &R,
    map: &mut Map,
    key: u64,
    former: u64,
    more: u64,
) -> Result<(), Fail> {
    let there = Some(key.wrapping_add(former));
    let value = key.wrapping_add(more);
    match insert(map, key, value) {
        Ok(previous) => assert_eq!(rt; previous, there),
        Err(_) => {
            eprintln!(rt; "wanting in replacement: key {key}")?;
            assert_eq!(rt; get(map, key)?, there);
            assert_eq!(rt; insert(map, key, value)?, there);
        }
    }
    assert_eq!(rt; get(map, key)?, Some(value));
    Ok(())
}

/// Takes the key out. Where memory is refused it is still there.
fn take<R: Abort + Eprint>(rt: &R, map: &mut Map, key: u64, more: u64) -> Result<(), Fail> {
    let there = Some(key.wrapping_add(more));
    match remove(map, key) {
        Ok(previous) => assert_eq!(rt; previous, there),
        Err(_) => {
            eprintln!(rt; "wanting in removal: key {key}")?;
            assert_eq!(rt; get(map, key)?, there);
            assert_eq!(rt; remove(map, key)?, there);
        }
    }
    assert_eq!(rt; get(map, key)?, None);
    Ok(())
}

/// Stores all keys, then twice other values, by which nodes are given back, and takes all out.
fn fill<R: Abort + Eprint>(rt: &R, alloc: Global, map: &mut Map) -> Result<(), Fail> {
    for key in 0..KEYS {
        grow(rt, alloc, map, key)?;
    }
    for key in 0..KEYS {
        replace(rt, map, key, 0, 1)?;
    }
    for key in 0..KEYS {
        replace(rt, map, key, 1, 2)?;
    }
    assert!(rt; has(alloc, map, KEYS, 2)?);
    for key in 0..KEYS {
        take(rt, map, key, 2)?;
    }
    assert!(rt; map.is_empty());
    Ok(())
}

#[test]
fn memory_is_refused_to_a_map(rt: HostRuntime) -> Result<(), Fail> {
    let made = HashMap::with_num_segments_capacity_and_hasher(
        rt.alloc(),
        1,
        1,
        BuildHasherDefault::new(),
    );
    let Ok(mut map) = made else {
        return Ok(());
    };
    let filled = fill(&rt, rt.alloc(), &mut map);
    drop(map);
    filled
}
