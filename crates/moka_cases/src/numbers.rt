//! Std's map of numbers, which the tests compare with.

use std::alloc::{AllocError, Global};
use std::collections::HashMap;

#[derive(Drop)]
pub struct Numbers {
    map: HashMap<u64, u64>,
}

impl Numbers {
    pub fn new(alloc: Global) -> Self {
        Numbers {
            map: HashMap::new(alloc),
        }
    }

    pub fn len(&self) -> usize {
        self.map.len()
    }

    pub fn get(&self, key: u64) -> Option<u64> {
        self.map.get(&key).copied()
    }

    pub fn has(&self, key: u64) -> bool {
        self.get(key).is_some()
    }

    pub fn insert(&mut self, key: u64, value: u64) -> Result<(), AllocError> {
        let _ = self.map.insert(key, value)?;
        Ok(())
    }

    pub fn remove(&mut self, key: u64) {
        let _ = self.map.remove(&key);
    }
}
