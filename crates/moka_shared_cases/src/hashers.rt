//! A hasher by which all keys have one hash: the greatest, so that probes begin at the last bucket of
//! the last segment, and wrap.
ghost use Rattle.std.specs.Prelude.{◌-◌, ◌^◌};

use std::hash::{BuildHasher, Hasher};

/// Gives every key the same hash.
#[derive(Clone, Copy)]
pub struct Last {}

impl Hasher for Last {
    ghost write = { λ s bytes. s };

    ghost finish = { λ s. 2 ^ 64 - 1 };

    fn finish(&self) -> u64 {
        u64::MAX
    }

    fn write(&mut self, _bytes: &[u8]) {}
}

/// Makes it.
#[derive(Clone, Copy)]
pub struct BuildLast {}

impl BuildHasher for BuildLast {
    type Hasher = Last;

    ghost build_hasher = { λ s. record {} };

    fn build_hasher(&self) -> Last {
        Last {}
    }
}
