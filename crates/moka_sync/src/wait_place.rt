//! The place of the one call that may wait for a thing.

ghost use Rattle.std.specs.Prelude.{◌≡◌, true, false, cond, [], ◌∷◌, length, IfOk};

use crate::CallList;
use crate::places::{NOBODY, Place};
use std::alloc::{AllocError, Global};
use std::collections::LinkedList;
use std::marker::Model;

/// A place for one call to wait in, with its memory. Contracts see whether the call waits.
#[derive(Drop)]
pub struct WaitPlace {
    alloc: Global,
    node: LinkedList<Place>,
    waits: bool,
}

impl Model for WaitPlace {
    ghost use Rattle.std.specs.Prelude.{Bool};
    ghost use Rattle.moka_sync.specs.OnePlace.{HasNode};

    ghost Value = { Bool };

    ghost view = { λ p. p.waits };

    ghost invariant = { HasNode };
}

impl WaitPlace {
    /// Makes a place in which nobody waits.
    pub fn new(alloc: Global) -> Result<WaitPlace, AllocError>
        ensures { IfOk result (λ place. place ≡ false) }
    {
        let mut node = LinkedList::new(alloc);
        node.push_back(NOBODY)?;
        Ok(WaitPlace {
            alloc,
            node,
            waits: false,
        })
    }

    /// Answers whether the call waits.
    pub fn is_waiting(&self) -> bool
        ensures { result ≡ self.now }
    {
        self.waits
    }

    /// Lets the call wait.
    pub fn wait(&mut self)
        ensures { self.new ≡ true }
    {
        self.waits = true;
    }

    /// Hands out the call, if it waits.
    pub fn take(self, call: u64) -> CallList
        ensures { result ≡ cond self (call ∷ []) [] }
    {
        let mut node = self.node;
        if !self.waits {
            node.clear();
        }
        if let Some(place) = node.front_mut() {
            place.call = call;
        }
        CallList::from_places(node, LinkedList::new(self.alloc))
    }
}
