//! The works on std's map under a lock.

use crate::timed::Shared;
use crate::works::{Job, Work};
use std::collections::HashMap;
use std::io;
use std::sync::{Mutex, Wait};

/// A map of numbers under a lock.
pub(crate) type Map = Mutex<HashMap<u64, u64>>;

impl<R: Wait> Shared<R> for Map {
    fn fill(&self, rt: &R, keys: u64) -> io::Result<u64> {
        for key in 0..keys {
            let _ = make(rt, self, Work::Insert, key, key);
        }
        Ok(keys)
    }

    fn make(&self, rt: &R, keys: &[u64], job: Job, thread: u64, calls: u64) -> io::Result<u64> {
        let mut over = 0u64;
        for call in 0..calls {
            let place = call.wrapping_mul(7919).wrapping_add(thread);
            let key = place.checked_rem(keys.len() as u64).unwrap_or(0);
            over = over.wrapping_add(u64::from(make(rt, self, job.work, key, call)));
        }
        Ok(over)
    }
}

/// Makes one call, and tells whether it is over. A load is of the call's own key, as in a cache.
fn make<R: Wait>(rt: &R, map: &Map, work: Work, key: u64, call: u64) -> bool {
    let mut pairs = map.lock(rt);
    match work {
        Work::Get => pairs.contains_key(&key),
        Work::Load => pairs.contains_key(&call) || pairs.insert(call, call).is_ok(),
        _ => pairs.insert(key, call).is_ok(),
    }
}
