//! Maps that are gone over.

use crate::calls::insert;
use crate::hashers::BuildZero;
use crate::many::{are_odd, odd_keys};
use crate::pairs::{Map, empty};
use moka_map::{Iter, ScanningGet};
use std::alloc::{AllocError, Global};
use std::test::Fail;

// The next key, where it has itself as its value.
fn next_key(pairs: &mut Iter<'_, u64, u64, BuildZero>) -> Option<u64> {
    match pairs.next() {
        Some(Ok((key, value))) => if key == value { Some(key) } else { None },
        _ => None,
    }
}

// Whether a map of the odd keys gives each once, and then None twice.
fn gives_odd(alloc: Global) -> Result<bool, AllocError> {
    let Some(map) = odd_keys(alloc)? else {
        return Ok(false);
    };
    let mut keys = Vec::new(alloc);
    let mut pairs = map.iter();
    for _ in 0..100u32 {
        let Some(key) = next_key(&mut pairs) else {
            return Ok(false);
        };
        keys.push(key)?;
    }
    let ended = pairs.next().is_none() && pairs.next().is_none();
    Ok(ended && are_odd(keys.as_slice()))
}

#[test]
fn each_pair_comes_once(rt: HostRuntime) -> Result<(), Fail> {
    assert!(rt; gives_odd(rt.alloc())?);
    Ok(())
}

// How many keys the segments have together, and how many of them have themselves as values.
fn scanned(map: &Map) -> Result<(usize, usize), AllocError> {
    let mut many = 0usize;
    let mut right = 0usize;
    for segment in 0..64usize {
        let Some(keys) = ScanningGet::keys(map, segment)? else {
            return Ok((0, 0));
        };
        many = many.wrapping_add(keys.len());
        for key in keys.iter() {
            if map.scanning_get(key)? == Some(*key) {
                right = right.wrapping_add(1);
            }
        }
    }
    Ok((many, right))
}

// A map of a thousand keys.
fn thousand(alloc: Global) -> Result<Map, AllocError> {
    let mut map = empty(alloc, 0)?;
    for key in 0..1000u64 {
        insert(&mut map, key, key)?;
    }
    Ok(map)
}

#[test]
fn a_scan_finds_each_key(rt: HostRuntime) -> Result<(), Fail> {
    let map = thousand(rt.alloc())?;
    let found = scanned(&map);
    let absent = ScanningGet::keys(&map, 64);
    drop(map);
    assert!(rt; found? == (1000, 1000));
    assert!(rt; absent?.is_none());
    Ok(())
}
