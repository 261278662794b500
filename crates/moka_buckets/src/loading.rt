//! What accesses see that change nothing.

ghost use Rattle.std.specs.Prelude.{◌≡◌, ℕ, ◌<◌, ◌≤◌, Bool, Option, length};
ghost use Rattle.std.specs.Option.{option_map};
ghost use Rattle.std.specs.List.{slice_get};
ghost use Rattle.moka_words.specs.Words.{word_at};
ghost use Rattle.moka_words.specs.Effect.{Effect, StandsBefore, array_at, root, words_of};
ghost use Rattle.moka_words.specs.declared.accesses.Access.TheVariants as access;
ghost use Rattle.moka_buckets.specs.Arrays.{ArePlaced, memory_of, tombstones_of, words_in};

use crate::array::Arrays;
use moka_words::{Seen, Word};

impl Arrays {
    /// The number of the root.
    pub fn root(&self) -> Option<u64>
        ensures { result ≡ root (memory_of self.now) }
    {
        if self.segment.rooted == 0 {
            None
        } else {
            self.segment.arrays.get(self.segment.rooted - 1).copied()
        }
    }

    /// The words of the array, none if there is no such array.
    pub fn words(&self, array: u64) -> &[Word]
        ensures { result.now ≡ words_in self.now.all.items array }
    {
        match self.all.get(array as usize) {
            None => &[],
            Some(array) => array.words.as_slice(),
        }
    }

    /// How long the array is; 0 without one.
    pub fn size(&self, array: Option<u64>) -> usize
        ensures { result ≡ length (words_of (memory_of self.now) array) }
    {
        match array {
            None => 0,
            Some(array) => self.words(array).len(),
        }
    }

    /// A word of the array.
    pub fn word(&self, array: u64, index: usize) -> Word
        ensures { result ≡ word_at (words_in self.now.all.items array) index }
    {
        match self.words(array).get(index) {
            None => Word::Unset,
            Some(word) => *word,
        }
    }

    /// How many tombstones were put into the array.
    pub fn tombstones(&self, array: u64) -> u64
        ensures { result ≡ tombstones_of self.now.all.items array }
    {
        match self.all.get(array as usize) {
            None => 0,
            Some(array) => array.tombstones,
        }
    }

    /// Reads which array is the root.
    pub fn load_root(&self) -> Seen
        ensures { (hash : ℕ → ℕ) (own : ℕ → Bool) →
            Effect hash own access.LoadRoot result (memory_of self.now) (memory_of self.now) }
    {
        match self.root() {
            None => Seen::Root {
                array: None,
                length: 0,
                tombstones: 0,
                len: self.segment.len,
            },
            Some(array) => Seen::Root {
                array: Some(array),
                length: self.words(array).len(),
                tombstones: self.tombstones(array),
                len: self.segment.len,
            },
        }
    }

    // Where the array stands.
    fn place_of(&self, array: u64) -> Option<usize>
        ensures { result ≡ option_map (λ array. array.place) (slice_get self.now.all.items array) }
    {
        self.all.get(array as usize).map(|array| array.place)
    }

    /// The place right after the array; the first one after none.
    pub fn place_after(&self, array: Option<u64>) -> usize
        requires placed { ArePlaced self.now }
        requires stands { (place : ℕ) × StandsBefore (memory_of self.now) place array }
        ensures { StandsBefore (memory_of self.now) result array }
    {
        match array {
            None => 0,
            Some(array) => match self.place_of(array) {
                None => unreachable!(),
                Some(place) => place + 1,
            },
        }
    }

    /// Reads which array comes next.
    pub fn load_next(&self, array: Option<u64>) -> Seen
        requires placed { ArePlaced self.now }
        requires stands { (place : ℕ) × StandsBefore (memory_of self.now) place array }
        ensures { (hash : ℕ → ℕ) (own : ℕ → Bool) → Effect hash own (access.LoadNext array) result
            (memory_of self.now) (memory_of self.now) }
    {
        let next = self.segment.arrays.get(self.place_after(array)).copied();
        Seen::Next {
            array: next,
            length: self.size(next),
        }
    }
}
