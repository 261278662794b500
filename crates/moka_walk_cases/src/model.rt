//! What a walk has to show, and what it may.

use std::alloc::{AllocError, Global};

/// What is known of a key: whether it is stored, whether it has been all the while since the walk
/// began, whether it ever was then, and how often the walk has shown it.
#[derive(Clone, Copy)]
struct Key {
    is_stored: bool,
    stays: bool,
    was_stored: bool,
    shown: u32,
}

/// The keys from 0 on. A value tells its key: it is that key and a multiple of their number.
#[derive(Drop)]
pub(crate) struct Keys {
    keys: Vec<Key>,
    many: u32,
    // How many values were given.
    values: u32,
}

impl Keys {
    /// So many keys, none of which is stored.
    pub(crate) fn new(alloc: Global, many: u32) -> Result<Self, AllocError> {
        let mut keys = Vec::with_capacity(alloc, many as usize)?;
        for _ in 0..many {
            keys.push(Key {
                is_stored: false,
                stays: false,
                was_stored: false,
                shown: 0,
            })?;
        }
        Ok(Keys {
            keys,
            many,
            values: 0,
        })
    }

    /// A new value of the key.
    pub(crate) fn value_for(&mut self, key: u32) -> u32 {
        self.values = self.values.wrapping_add(1);
        self.values.wrapping_mul(self.many).wrapping_add(key)
    }

    /// The key is stored from now on.
    pub(crate) fn stores(&mut self, key: u32) {
        if let Some(known) = self.keys.get_mut(key as usize) {
            known.is_stored = true;
            known.was_stored = true;
        }
    }

    /// The key isn't stored from now on.
    pub(crate) fn removes(&mut self, key: u32) {
        if let Some(known) = self.keys.get_mut(key as usize) {
            known.is_stored = false;
            known.stays = false;
        }
    }

    /// A walk begins.
    pub(crate) fn begin(&mut self) {
        for known in self.keys.iter_mut() {
            known.stays = known.is_stored;
            known.was_stored = known.is_stored;
            known.shown = 0;
        }
    }

    /// The walk shows the key with this value. Answers whether it may: it hasn't shown the key yet,
    /// which was stored since it began, and the value is of that key.
    pub(crate) fn shows(&mut self, key: u32, value: u32) -> bool {
        let is_its = value.wrapping_sub(key) % self.many.max(1) == 0;
        let Some(known) = self.keys.get_mut(key as usize) else {
            return false;
        };
        known.shown = known.shown.saturating_add(1);
        is_its && known.was_stored && known.shown == 1
    }

    /// Whether each key was shown that has been stored all the while.
    pub(crate) fn are_shown(&self) -> bool {
        self.keys
            .iter()
            .all(|known| !known.stays || known.shown == 1)
    }

    /// How many keys there are.
    pub(crate) fn many(&self) -> u32 {
        self.many
    }
}
