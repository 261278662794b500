//! Hashers by which a key's home bucket is known.

ghost use Rattle.std.specs.Prelude.{slice_index};

use std::hash::{BuildHasher, Hasher};

/// Gives every key the same hash.
#[derive(Clone, Copy)]
pub struct Zero {}

impl Hasher for Zero {
    ghost write = { λ s bytes. s };

    ghost finish = { λ s. 0 };

    fn finish(&self) -> u64 {
        0
    }

    fn write(&mut self, _bytes: &[u8]) {}
}

#[derive(Clone, Copy)]
pub struct BuildZero {}

impl BuildHasher for BuildZero {
    type Hasher = Zero;

    ghost build_hasher = { λ s. record {} };

    fn build_hasher(&self) -> Zero {
        Zero {}
    }
}

/// Gives a key its lowest byte.
#[derive(Clone, Copy)]
pub struct Lowest {
    byte: u8,
}

impl Hasher for Lowest {
    ghost write = { λ s bytes. record { byte = slice_index bytes 0 } };

    ghost finish = { λ s. s.byte };

    fn finish(&self) -> u64 {
        u64::from(self.byte)
    }

    fn write(&mut self, bytes: &[u8]) {
        self.byte = bytes.first().copied().unwrap_or(0);
    }
}

#[derive(Clone, Copy)]
pub struct BuildLowest {}

impl BuildHasher for BuildLowest {
    type Hasher = Lowest;

    ghost build_hasher = { λ s. record { byte = 0 } };

    fn build_hasher(&self) -> Lowest {
        Lowest { byte: 0 }
    }
}
