//! A hasher that puts all keys into one part.

use std::hash::Hasher;

/// Gives every key the same hash.
#[derive(Clone, Copy, Default)]
pub(crate) struct Zero {}

impl Hasher for Zero {
    ghost write = { λ s bytes. s };

    ghost finish = { λ s. 0 };

    fn finish(&self) -> u64 {
        0
    }

    fn write(&mut self, _bytes: &[u8]) {}
}
