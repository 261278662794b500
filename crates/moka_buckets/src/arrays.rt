//! What accesses change: words, and which array is the root.

ghost use Rattle.std.specs.Prelude.{◌≡◌, ◌≢◌, ℕ, ◌+◌, ◌<◌, ◌≤◌, ◌^◌, Bool, true, nat_eq, IsSome, Some, None};
ghost use Rattle.std.specs.Prelude.{if◌then◌else◌, length, slice_set};
ghost use Rattle.std.specs.Option.{option_to_list};
ghost use Rattle.moka_words.specs.Words.{stored_in, word_at};
ghost use Rattle.moka_words.specs.Effect.{Effect, KeepsArrays, SetsWord, array_at, root};
ghost use Rattle.moka_words.specs.declared.accesses.Access.TheVariants as access;
ghost use Rattle.moka_words.specs.declared.accesses.Seen.TheVariants as seen;
ghost use Rattle.moka_growth.specs.Counts.{Recounts, tombstones_after};
ghost use Rattle.moka_buckets.specs.Arrays.{ArePlaced, memory_of, words_in};
ghost use Rattle.moka_buckets.specs.Making.{is_tomb};

use crate::array::{Array, Arrays};
use crate::words::{is_same, stored_in, tombstones_after};
use moka_words::Word;

impl Array {
    /// Sets a word; past the end there is none to set.
    pub fn set(&mut self, index: usize, to: Word)
        ensures words { self.new.words.items ≡ slice_set self.old.words.items index to }
        ensures place { self.new.place ≡ self.old.place }
        ensures tombstones { self.new.tombstones ≡ self.old.tombstones }
    {
        if index < self.words.len() {
            self.words[index] = to;
        }
    }

    /// Sets a word in place of another, and counts it where it is a tombstone.
    pub fn put(&mut self, index: usize, to: Word)
        ensures words { self.new.words.items ≡ slice_set self.old.words.items index to }
        ensures place { self.new.place ≡ self.old.place }
        ensures tombstones { self.new.tombstones ≡ tombstones_after self.old.tombstones to }
    {
        self.set(index, to);
        self.tombstones = tombstones_after(self.tombstones, to);
    }
}

impl Arrays {
    /// Sets a word of the array.
    pub fn set(&mut self, array: u64, index: usize, to: Word)
        requires placed { ArePlaced self.old }
        ensures sets { SetsWord array index to (memory_of self.old) (memory_of self.new) }
        ensures tombstones { (a : ℕ) → (memory_of self.new).tombstones a
            ≡ (memory_of self.old).tombstones a }
        ensures len { self.new.segment.len ≡ self.old.segment.len }
        ensures placed { ArePlaced self.new }
    {
        let at = array as usize;
        if at < self.all.len() {
            self.all[at].set(index, to);
        }
    }

    // Sets a word of the array in place of another, and counts it where it is a tombstone.
    fn put(&mut self, array: u64, index: usize, to: Word)
        requires placed { ArePlaced self.old }
        requires there { is_tomb to ≡ true → array < length self.old.all.items }
        ensures sets { SetsWord array index to (memory_of self.old) (memory_of self.new) }
        ensures tombstones { (a : ℕ) → (memory_of self.new).tombstones a ≡ (if nat_eq a array
            then tombstones_after ((memory_of self.old).tombstones a) to
            else (memory_of self.old).tombstones a) }
        ensures len { self.new.segment.len ≡ self.old.segment.len }
        ensures placed { ArePlaced self.new }
    {
        let at = array as usize;
        if at < self.all.len() {
            self.all[at].put(index, to);
        }
    }

    /// Replaces a word, where it still is `from`; None where that was done, else the word met. Keys
    /// and tombstones are counted.
    pub fn exchange(&mut self, array: u64, index: usize, from: Word, to: Word) -> Option<Word>
        requires placed { ArePlaced self.old }
        requires counted { word_at (words_in self.old.all.items array) index ≡ from
            → IsSome (stored_in from) → 0 < self.old.segment.len }
        requires buries { is_tomb to ≡ true → IsSome (stored_in from) }
        requires few { self.old.segment.len < 2 ^ 63 }
        ensures effect { (hash : ℕ → ℕ) (own : ℕ → Bool) →
            Effect hash own (access.Exchange array index from to) (seen.Exchanged result)
            (memory_of self.old) (memory_of self.new) }
        ensures counts { Recounts (access.Exchange array index from to) (seen.Exchanged result)
            (memory_of self.old) (memory_of self.new) }
        ensures placed { ArePlaced self.new }
    {
        let met = self.word(array, index);
        if is_same(met, from) {
            self.put(array, index, to);
            self.count_key(from, to);
            None
        } else {
            Some(met)
        }
    }

    // Counts the key that is stored in place of none, and the one in whose place none is.
    fn count_key(&mut self, from: Word, to: Word)
        requires counted { IsSome (stored_in from) → 0 < self.old.segment.len }
        requires few { self.old.segment.len < 2 ^ 63 }
        ensures counted { self.new.segment.len + length (option_to_list (stored_in from))
            ≡ self.old.segment.len + length (option_to_list (stored_in to)) }
        ensures all { self.new.all ≡ self.old.all }
        ensures arrays { self.new.segment.arrays ≡ self.old.segment.arrays }
        ensures rooted { self.new.segment.rooted ≡ self.old.segment.rooted }
    {
        match (stored_in(from), stored_in(to)) {
            (None, Some(_)) => self.segment.len += 1,
            (Some(_), None) => self.segment.len -= 1,
            (_, _) => {}
        }
    }

    /// Sets a word, where it is unset.
    pub fn copy(&mut self, array: u64, index: usize, to: Word)
        requires placed { ArePlaced self.old }
        ensures effect { (hash : ℕ → ℕ) (own : ℕ → Bool) →
            Effect hash own (access.Copy array index to) seen.Copied
            (memory_of self.old) (memory_of self.new) }
        ensures counts { Recounts (access.Copy array index to) seen.Copied
            (memory_of self.old) (memory_of self.new) }
        ensures placed { ArePlaced self.new }
    {
        if is_same(self.word(array, index), Word::Unset) {
            self.set(array, index, to);
        }
    }

    /// Makes the array after the root the root, where that still is `from`.
    pub fn swing(&mut self, from: Option<u64>, to: u64)
        requires placed { ArePlaced self.old }
        requires next { root (memory_of self.old) ≡ from
            → array_at (memory_of self.old) self.old.segment.rooted ≡ Some to }
        ensures effect { (hash : ℕ → ℕ) (own : ℕ → Bool) →
            Effect hash own (access.Swing from to) seen.Swung
            (memory_of self.old) (memory_of self.new) }
        ensures counts { Recounts (access.Swing from to) seen.Swung
            (memory_of self.old) (memory_of self.new) }
        ensures placed { ArePlaced self.new }
    {
        if self.root() == from {
            self.segment.rooted += 1;
        }
    }
}
