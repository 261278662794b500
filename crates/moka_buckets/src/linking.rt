//! How an array is linked.

ghost use Rattle.std.specs.Prelude.{◌≡◌, ◌≢◌, ℕ, ◌+◌, ◌<◌, ◌≤◌, ◌^◌, Bool, IfOk, OnErr, Option, Some, None, length};
ghost use Rattle.moka_words.specs.Effect.{Effect, Links, StandsBefore, array_at};
ghost use Rattle.moka_words.specs.declared.accesses.Access.TheVariants as access;
ghost use Rattle.moka_words.specs.declared.accesses.Seen.TheVariants as seen;
ghost use Rattle.moka_growth.specs.Counts.{Recounts};
ghost use Rattle.moka_calls.specs.Standing.{MayWant};
ghost use Rattle.moka_buckets.specs.Arrays.{ArePlaced, memory_of, tombstones_of};

use crate::array::{Array, Arrays};
use moka_words::{Seen, Word};
use std::alloc::AllocError;

/// No array is longer.
pub const MOST_WORDS: usize = 1 << 60;

impl Arrays {
    /// Puts a new array of unset words after this one, where none is there. Longer than 2^60 is
    /// want of memory; without memory nothing has changed.
    pub fn link(&mut self, array: Option<u64>, size: usize) -> Result<Seen, AllocError>
        requires placed { ArePlaced self.old }
        requires stands { (place : ℕ) × StandsBefore (memory_of self.old) place array }
        ensures effect { (hash : ℕ → ℕ) (own : ℕ → Bool) → IfOk result (λ saw.
            Effect hash own (access.Link array size) saw
            (memory_of self.old) (memory_of self.new)) }
        ensures counts { IfOk result (λ saw. Recounts (access.Link array size) saw
            (memory_of self.old) (memory_of self.new)) }
        ensures placed { ArePlaced self.new }
        ensures same { IfOk result (λ saw. MayWant (access.Link array size) saw
            → memory_of self.new ≡ memory_of self.old) }
        ensures err { OnErr result (memory_of self.new ≡ memory_of self.old) }
    {
        let place = self.place_after(array);
        match self.segment.arrays.get(place).copied() {
            Some(next) => Ok(Seen::Linked {
                array: next,
                length: self.words(next).len(),
            }),
            None => self.link_new(place, size),
        }
    }

    // A new array after the last one.
    fn link_new(&mut self, place: usize, size: usize) -> Result<Seen, AllocError>
        requires placed { ArePlaced self.old }
        requires last { place ≡ length self.old.segment.arrays.items }
        ensures links { IfOk result (λ saw.
            (saw ≡ seen.Linked (length self.old.all.items) size)
            × Links size (memory_of self.old) (memory_of self.new)) }
        ensures tombstones { IfOk result (λ saw. Recounts (access.Link None size) saw
            (memory_of self.old) (memory_of self.new)) }
        ensures placed { ArePlaced self.new }
        ensures err { OnErr result (memory_of self.new ≡ memory_of self.old) }
    {
        if size > MOST_WORDS {
            return Err(AllocError);
        }
        let words = vec![in self.alloc; Word::Unset; size]?;
        self.all.reserve(1)?;
        self.segment.arrays.reserve(1)?;
        let number = self.all.len() as u64;
        self.all.push_reserved(Array {
            place,
            words,
            tombstones: 0,
        });
        self.segment.arrays.push_reserved(number);
        Ok(Seen::Linked {
            array: number,
            length: size,
        })
    }
}
