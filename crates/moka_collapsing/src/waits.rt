//! The requests that wait for one upstream request.

ghost use Rattle.std.specs.Prelude.{◌≡◌, ◌==◌, [], length, OnOk};
ghost use Rattle.std.specs.BTreeMap.{insert_entry};
ghost use Rattle.std.specs.Ordering.{nat_cmp};
ghost use Rattle.moka_collapsing.specs.Upstream.{without};
ghost use Rattle.moka_collapsing.specs.Waiting.{first_of, freed};

use crate::slot::Place;
use std::alloc::{AllocError, Global};
use std::collections::BTreeMap;
use std::marker::Model;

/// The requests that wait for one upstream request, by their numbers. The first of them has the call
/// that asks; each other has the call of its own number, which waits for that one.
#[derive(Drop)]
pub struct WaitList {
    pub asking: u64,
    pub requests: BTreeMap<u64, Place>,
}

impl Model for WaitList {
    ghost use Rattle.moka_collapsing.specs.Waiting.{Waiting};

    ghost Value = { Waiting };

    ghost view = { λ l. record { asking = l.asking; requests = l.requests.entries } };
}

impl WaitList {
    /// Nobody waits yet for what this call asks.
    pub fn new(alloc: Global, asking: u64) -> WaitList
        ensures { result ≡ record { asking = asking; requests = [] } }
    {
        WaitList {
            asking,
            requests: BTreeMap::new(alloc),
        }
    }

    /// The request of this number waits too.
    pub fn join(&mut self, number: u64, place: Place) -> Result<(), AllocError>
        ensures { OnOk result (self.new ≡ record self.old {
          requests = insert_entry nat_cmp self.old.requests number place;
        }) }
    {
        self.requests.insert(number, place)?;
        Ok(())
    }

    /// The request of this number waits no more. Tells the call that nobody needs any more: that of
    /// the request. Where it was the first, its call is handed over to the next request, whose own
    /// call is freed; the call that asks is freed only where nobody is left.
    pub fn leave(&mut self, number: u64) -> Option<u64>
        ensures freed { result ≡ freed self.old number }
        ensures left { self.new ≡
            record self.old { requests = without number self.old.requests } }
    {
        let first = self.first();
        self.requests.remove(&number)?;
        if first != Some(number) {
            return Some(number);
        }
        Some(self.first().unwrap_or(self.asking))
    }

    /// Whether nobody waits.
    pub fn is_empty(&self) -> bool
        ensures { result ≡ (length self.now.requests == 0) }
    {
        self.requests.is_empty()
    }

    // The number of the first request.
    fn first(&self) -> Option<u64>
        ensures { result ≡ first_of self.now.requests }
    {
        match self.requests.first_key_value() {
            Some((number, _)) => Some(*number),
            None => None,
        }
    }
}
