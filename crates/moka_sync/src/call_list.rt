//! Calls that are handed out, to be woken.

ghost use Rattle.std.specs.Prelude.{◌≡◌, ◌↔◌, IsTrue, length, map, [], ◌++◌, slice_get};
ghost use Rattle.std.specs.Iterator.{YieldsFirst, item_count};
ghost use Rattle.moka_sync.specs.CallsLeft.{calls_left};

use crate::places::Place;
use std::alloc::Global;
use std::collections::LinkedList;
use std::collections::linked_list::Iter;
use std::marker::Model;

/// Calls in the order in which they came to wait. Contracts see the list of them.
#[derive(Debug, Drop)]
pub struct CallList {
    places: LinkedList<Place>,
    more: LinkedList<Place>,
}

impl Model for CallList {
    ghost use Rattle.std.specs.Prelude.{ℕ, List, map, ◌++◌};

    ghost Value = { List ℕ };

    ghost view = { λ l. map (λ p. p.call) (l.places ++ l.more) };
}

impl CallList {
    /// Makes the list of no calls. It takes no memory.
    pub fn new(alloc: Global) -> CallList
        ensures { result ≡ [] }
    {
        CallList {
            places: LinkedList::new(alloc),
            more: LinkedList::new(alloc),
        }
    }

    /// Makes the list of the calls of both, those of the first places first.
    pub(crate) fn from_places(places: LinkedList<Place>, more: LinkedList<Place>) -> CallList
        ensures { result ≡ map (λ p. p.call) (places ++ more) }
    {
        CallList { places, more }
    }

    /// Answers how many calls there are.
    pub fn len(&self) -> usize
        ensures { result ≡ length self.now }
    {
        self.places.len() + self.more.len()
    }

    /// Answers whether there is no call.
    pub fn is_empty(&self) -> bool
        ensures { IsTrue result ↔ (length self.now ≡ 0) }
    {
        self.places.is_empty() && self.more.is_empty()
    }

    /// Answers the call at `index`, from 0, or `None` past the end. It walks that far: to go over
    /// all calls take `iter`.
    pub fn get(&self, index: usize) -> Option<u64>
        ensures { result ≡ slice_get self.now index }
    {
        self.iter().nth(index)
    }

    /// Goes over the calls in order.
    pub fn iter(&self) -> Calls<'_>
        ensures { calls_left result ≡ self.now }
    {
        Calls {
            places: self.places.iter(),
            more: self.more.iter(),
        }
    }
}

/// Goes over the calls of a list.
#[derive(Drop)]
pub struct Calls<'a> {
    places: Iter<'a, Place>,
    more: Iter<'a, Place>,
}

impl<'a> Iterator for Calls<'a> {
    type Item = u64;

    ghost next_gives = { YieldsFirst calls_left };

    ghost remaining = { item_count calls_left };

    fn next(&mut self) -> Option<u64> {
        if let Some(place) = self.places.next() {
            return Some(place.call);
        }
        match self.more.next() {
            Some(place) => Some(place.call),
            None => None,
        }
    }
}
