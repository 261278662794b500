//! Calls with keys, whose answers are kept, however their cache hashes.

use crate::storing::store_all;
use futures::future::ready;
use moka_cache::{Cache, NoListener};
use std::alloc::AllocGlobal;
use std::hash::BuildHasher;
use std::io;
use std::random::RandomSource;
use std::sync::Wait;

/// Stores the keys, takes out some, loads others and looks each up, and gives what calls answered.
pub(crate) fn answers<R: Wait + RandomSource + AllocGlobal, S: BuildHasher + Drop>(
    rt: &R,
    cache: &Cache<u64, u64, (), NoListener, S>,
    keys: &[u64],
) -> io::Result<Vec<Option<u64>>> {
    store_all(rt, cache, keys)?;
    let mut answers = Vec::new(rt.alloc());
    for key in keys {
        if *key % 3 > 0 {
            answers.push(cache.remove(key).block_on(rt, 0)?)?;
        }
        if *key % 3 > 1 {
            let loaded = cache.get_with(*key, ready(1)).block_on(rt, 0)??;
            answers.push(Some(loaded))?;
        }
    }
    for key in keys {
        answers.push(cache.get(key).block_on(rt, 0)?)?;
    }
    Ok(answers)
}
