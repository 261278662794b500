//! An array beside std's map, and the keys that have buckets, each under itself.

ghost use Rattle.std.specs.Prelude.{◌<◌};

use crate::buckets::table::{Table, told};
use crate::numbers::Numbers;
use std::alloc::{AllocError, Global};

#[derive(Drop)]
pub struct Mirror {
    table: Table,
    map: Numbers,
    filled: Numbers,
    length: usize,
}

impl Mirror {
    pub fn with_power(alloc: Global, power: u32) -> Result<Self, AllocError>
        requires { power < 20 }
    {
        Ok(Mirror {
            table: Table::with_power(alloc, power)?,
            map: Numbers::new(alloc),
            filled: Numbers::new(alloc),
            length: 1usize << power,
        })
    }

    /// Makes the call that the seed says, and tells whether the array answers as the map.
    pub fn call(&mut self, seed: u64, value: u64) -> Result<bool, AllocError> {
        let key = (seed >> 33) % 20;
        match (seed >> 60) % 4 {
            0 => self.insert(key, value),
            1 => self.add(key, value),
            2 => self.remove(key),
            _ => self.get(key),
        }
    }

    // What an insert is to answer: the present value, or what the buckets foretell.
    fn expected(&self, key: u64, value: u64) -> (&'static str, u64) {
        match self.map.get(key) {
            Some(present) => ("present", present),
            None if self.filled.has(key) => ("replaced", 0),
            None if self.filled.len() < self.length => ("inserted", 0),
            None => ("no free", value),
        }
    }

    fn store(&mut self, key: u64, value: u64) -> Result<(), AllocError> {
        self.filled.insert(key, key)?;
        self.map.insert(key, value)
    }

    fn insert(&mut self, key: u64, value: u64) -> Result<bool, AllocError> {
        let expected = self.expected(key, value);
        let answer = told(self.table.insert(key, value)?);
        if expected.0 == "inserted" || expected.0 == "replaced" {
            self.store(key, value)?;
        }
        Ok(answer.0 == expected.0 && answer.1 == expected.1)
    }

    fn add(&mut self, key: u64, value: u64) -> Result<bool, AllocError> {
        let expected = self.expected(key, value);
        let answer = told(self.table.add(key, 1, value)?);
        if expected.0 == "present" {
            self.store(key, expected.1.wrapping_add(1))?;
        } else if expected.0 != "no free" {
            self.store(key, value)?;
        }
        Ok(answer.0 == expected.0 && answer.1 == expected.1)
    }

    fn remove(&mut self, key: u64) -> Result<bool, AllocError> {
        let expected = match self.map.get(key) {
            Some(value) if value >= 100 => Some(value),
            _ => None,
        };
        let answer = self.table.remove(key, 100)?;
        if expected.is_some() {
            self.map.remove(key);
        }
        Ok(answer == expected)
    }

    fn get(&self, key: u64) -> Result<bool, AllocError> {
        Ok(self.table.get(key) == self.map.get(key))
    }
}
