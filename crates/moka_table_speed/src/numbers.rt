//! An array of numbers, each filled under one hash of its own.

ghost use Rattle.std.specs.Prelude.{◌≡◌, ◌*◌, ◌%◌, ◌^◌, ◌<◌};

use moka_cht::{BucketArray, Insertion};
use std::alloc::{AllocError, Global};
use std::marker::Model;

#[derive(Drop)]
pub struct Numbers {
    array: BucketArray<u64, u64>,
}

impl Model for Numbers {
    ghost use Rattle.std.specs.Prelude.{ℕ, ◌*◌, ◌%◌, ◌^◌, nat_eq};
    ghost use Rattle.moka_cht.specs.Buckets.{Buckets, IsHashOf};

    ghost Value = { Buckets ℕ ℕ };

    ghost view = { λ n. n.array };

    ghost invariant = { λ n. (q : ℕ) → IsHashOf nat_eq n.array q ((q * 11400714819323198485) % 2 ^ 64) };
}

/// Spreads a number over all hashes.
pub fn hash_of(key: u64) -> u64
    ensures { result ≡ (key * 11400714819323198485) % 2 ^ 64 }
{
    key.wrapping_mul(11400714819323198485)
}

impl Numbers {
    /// An array of two to this power.
    pub fn with_power(alloc: Global, power: u32) -> Result<Self, AllocError>
        requires { power < 40 }
    {
        let array = BucketArray::with_length(alloc, 1usize << power)?;
        Ok(Numbers { array })
    }

    /// Stores the value, and tells whether the key was new.
    pub fn insert(&mut self, key: u64, value: u64) -> Result<bool, AllocError> {
        let insertion = self.array.insert_if_not_present(hash_of(key), key, value)?;
        Ok(is_new(&insertion))
    }

    pub fn get(&self, key: u64) -> Option<u64> {
        self.array.get(hash_of(key), |other| key == *other).copied()
    }
}

fn is_new(insertion: &Insertion<u64>) -> bool {
    match insertion {
        Insertion::Inserted => true,
        _ => false,
    }
}
