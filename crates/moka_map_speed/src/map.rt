//! A map that grows to so many keys, and what is done with them then. Standard output has how many
//! calls found what they looked for, how many keys there are, and how many the arrays are meant for.

use moka_map::HashMap;
use std::alloc::AllocError;
use std::hash::{BuildHasherDefault, FoldHasher};

type Map = HashMap<u64, u64, BuildHasherDefault<FoldHasher>>;

/// The number of keys where none is asked for, and that of which turns are.
const KEYS: u64 = 1000;

/// Grows a map to the number of keys that is asked for, and makes the work of this word.
pub fn measure(rt: &HostRuntime, word: &str, number: Option<&String>) -> anyhow::Result<()> {
    let number = number_asked(number);
    let mut map: Map = HashMap::with_capacity(rt.alloc(), 0, BuildHasherDefault::new())?;
    let keys = if word == "turns" { KEYS } else { number };
    let grown = insert_all(&mut map, keys)?;
    println!(rt; "growth {grown}")?;
    let found = work(&mut map, word, number)?;
    println!(rt; "found {found}")?;
    println!(rt; "keys {}, capacity {}", map.len(), map.capacity())?;
    Ok(())
}

/// The number of this word, or 1000.
fn number_asked(word: Option<&String>) -> u64 {
    match word {
        None => KEYS,
        Some(word) => word.as_str().parse::<u64>().unwrap_or(KEYS),
    }
}

/// Makes the work that is asked for; any other word is none.
fn work(map: &mut Map, word: &str, number: u64) -> Result<u64, AllocError> {
    match word {
        "get" => get_all(map, number),
        "churn" => churn(map, number, number),
        "mixed" => get_and_replace(map, number),
        "turns" => churn(map, KEYS, number),
        _ => Ok(0),
    }
}

/// Stores each key, and tells how many were absent.
fn insert_all(map: &mut Map, keys: u64) -> Result<u64, AllocError> {
    let mut absent = 0u64;
    for key in 0..keys {
        if insert(map, key, key)?.is_none() {
            absent = absent.wrapping_add(1);
        }
    }
    Ok(absent)
}

/// Looks each key up, and tells how many are there.
fn get_all(map: &Map, keys: u64) -> Result<u64, AllocError> {
    let mut found = 0u64;
    for key in 0..keys {
        if get(map, key)?.is_some() {
            found = found.wrapping_add(1);
        }
    }
    Ok(found)
}

/// Goes over the keys, looks nine of ten up and stores another value for the tenth, and tells how many
/// were there.
fn get_and_replace(map: &mut Map, keys: u64) -> Result<u64, AllocError> {
    let mut found = 0u64;
    for key in 0..keys {
        let there = if key % 10 == 9 {
            insert(map, key, keys)?
        } else {
            get(map, key)?
        };
        if there.is_some() {
            found = found.wrapping_add(1);
        }
    }
    Ok(found)
}

/// So many times takes the oldest key out and stores a new one, and tells how many were there.
fn churn(map: &mut Map, keys: u64, times: u64) -> Result<u64, AllocError> {
    let mut found = 0u64;
    for key in 0..times {
        if remove(map, key)?.is_some() {
            found = found.wrapping_add(1);
        }
        let _ = insert(map, key.wrapping_add(keys), key)?;
    }
    Ok(found)
}

/// The value of the key.
fn get(map: &Map, key: u64) -> Result<Option<u64>, AllocError> {
    map.get(map.hash(&key), |other| key == *other)
}

/// Stores the pair, and gives the value that was there.
fn insert(map: &mut Map, key: u64, value: u64) -> Result<Option<u64>, AllocError> {
    let hash = map.hash(&key);
    map.insert_entry_and(key, hash, value, |_, previous| *previous)
}

/// Removes the key, and gives its value.
fn remove(map: &mut Map, key: u64) -> Result<Option<u64>, AllocError> {
    let hash = map.hash(&key);
    map.remove(hash, |other| key == *other)
}
