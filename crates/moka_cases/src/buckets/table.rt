//! An array of numbers, each filled under its remainder by four.

ghost use Rattle.std.specs.Prelude.{◌≡◌, ◌%◌, ◌<◌};

use moka_cht::{BucketArray, Insertion, KeyList};
use std::alloc::{AllocError, Global};
use std::marker::Model;

#[derive(Drop)]
pub struct Table {
    array: BucketArray<u64, u64>,
}

impl Model for Table {
    ghost use Rattle.std.specs.Prelude.{ℕ, ◌%◌, nat_eq};
    ghost use Rattle.moka_cht.specs.Buckets.{Buckets, IsHashOf};

    ghost Value = { Buckets ℕ ℕ };

    ghost view = { λ t. t.array };

    ghost invariant = { λ t. (q : ℕ) → IsHashOf nat_eq t.array q (q % 4) };
}

fn hash_of(key: u64) -> u64
    ensures { result ≡ key % 4 }
{
    key % 4
}

/// What became of an insert, as a word and a number.
pub fn told(insertion: Insertion<u64>) -> (&'static str, u64) {
    match insertion {
        Insertion::Inserted => ("inserted", 0),
        Insertion::ReplacedTombstone => ("replaced", 0),
        Insertion::AlreadyPresent(value) => ("present", value),
        Insertion::NoFree(value) => ("no free", value),
    }
}

impl Table {
    /// An array of two to this power.
    pub fn with_power(alloc: Global, power: u32) -> Result<Self, AllocError>
        requires { power < 20 }
    {
        let array = BucketArray::with_length(alloc, 1usize << power)?;
        Ok(Table { array })
    }

    pub fn capacity(&self) -> usize {
        self.array.capacity()
    }

    pub fn insert(&mut self, key: u64, value: u64) -> Result<Insertion<u64>, AllocError> {
        self.array.insert_if_not_present(hash_of(key), key, value)
    }

    /// Adds to the value under the key; where it is absent, stores the value.
    pub fn add(&mut self, key: u64, more: u64, value: u64) -> Result<Insertion<u64>, AllocError> {
        let hash = hash_of(key);
        self.array
            .insert_or_modify(hash, key, value, |_, old| old.wrapping_add(more))
    }

    pub fn get(&self, key: u64) -> Option<u64> {
        self.array.get(hash_of(key), |other| key == *other).copied()
    }

    /// Removes the key, if its value is at least this.
    pub fn remove(&mut self, key: u64, least: u64) -> Result<Option<u64>, AllocError> {
        let hash = hash_of(key);
        self.array
            .remove_if(hash, |other| key == *other, |_, value| *value >= least)
    }

    pub fn keys(&self, alloc: Global) -> Result<KeyList<u64>, AllocError> {
        self.array.keys(alloc, |key| *key)
    }
}
