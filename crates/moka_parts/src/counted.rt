//! How many pairs the parts of a table have.

use std::sync::{Mutex, Wait};

/// What lies under the lock of a part.
pub(crate) trait Counted {
    /// How many pairs there are.
    fn len(&self) -> usize;
}

/// How many pairs all parts have. They are counted one after the other, each under its lock.
pub(crate) fn len_of<T: Counted, R: Wait>(rt: &R, parts: &[Mutex<T>]) -> u64 {
    let mut count = 0u64;
    for part in parts {
        let guard = part.lock(rt);
        let part = &*guard;
        count = count.saturating_add(part.len() as u64);
    }
    count
}
