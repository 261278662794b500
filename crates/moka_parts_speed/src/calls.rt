//! The calls of one thread.
ghost use Rattle.std.specs.Prelude.{ℕ};

use crate::works::Work;
use moka_parts::SharedTable;
use std::collections::HashMap;
use std::sync::{Mutex, Wait};

/// A map of numbers under one lock.
pub(crate) type Map = Mutex<HashMap<u64, u64>>;

/// Looks up or puts at a table in parts, and tells how many calls found a pair.
pub(crate) fn of_table<Q: Drop, T: SharedTable<u64, u64, Seat = Q>, R: Wait>(
    rt: &R,
    table: &T,
    work: Work,
    keys: u64,
    thread: u64,
    calls: u64,
) -> u64
    requires { (k v : ℕ) → T.holds k v }
{
    let mut seat = table.seat();
    let mut found = 0u64;
    for call in 0..calls {
        let key = work.key_of(call, thread, keys);
        let hit = if work.is_put(call) {
            table.put(rt, &mut seat, key, call, is_there)
        } else {
            table.look(rt, &mut seat, &key, is_there)
        };
        found = found.wrapping_add(u64::from(hit.unwrap_or(false)));
    }
    found
}

/// Whether a pair is lent.
fn is_there(pair: Option<(&u64, &u64)>) -> bool {
    pair.is_some()
}

/// Looks up or puts at std's map under one lock, and tells how many calls found a pair.
pub(crate) fn of_map<R: Wait>(
    rt: &R,
    map: &Map,
    work: Work,
    keys: u64,
    thread: u64,
    calls: u64,
) -> u64 {
    let mut found = 0u64;
    for call in 0..calls {
        let key = work.key_of(call, thread, keys);
        found = found.wrapping_add(u64::from(one(rt, map, work.is_put(call), key, call)));
    }
    found
}

/// Makes one call of the map, and tells whether it found a pair.
fn one<R: Wait>(rt: &R, map: &Map, is_put: bool, key: u64, value: u64) -> bool {
    let mut pairs = map.lock(rt);
    if is_put {
        return matches!(pairs.insert(key, value), Ok(Some(_)));
    }
    pairs.contains_key(&key)
}
