//! The table.
ghost use Rattle.std.specs.Prelude.{◌≡◌, [], ◌<◌, ◌+◌, ◌*◌, length};
ghost use Rattle.moka_words.specs.Arrays.{bucket_at};
ghost use Rattle.moka_shared.specs.Hashing.{hash_in, place_in, segment_of};
ghost use Rattle.moka_shared.specs.Probing.{IsLogOf, Loads};
ghost use Rattle.moka_shared.specs.Tables.{word_named};

use crate::book::Law;
use crate::front::look;
use crate::node::Node;
use crate::segments::{Place, bucket_at, position, segment_of};
use crate::words::word_of;
use crate::{Anything, Fact};
use logbook::{Seen, Word as Bucket};
use moka_history::Note;
use moka_shelf::{OnceShelf, Shelf};
use moka_words::Word;
use std::hash::{BuildHasher, Hash};
use std::marker::{Model, PhantomData};

/// A table that threads share, without a lock: each bucket is a word of one book, and what a call
/// answers is what the map of the book's history gives. What is stored owes the fact P, and lies on
/// a shelf L. Contracts see its hash builder, how many segments it has, how many words each of them
/// has, and the book.
#[derive(Drop)]
pub struct HashMap<
    K: Eq + Hash,
    V,
    S: BuildHasher,
    P: Fact<K, V> = Anything,
    L: Shelf<Node<K, V, S, P>> = OnceShelf<Node<K, V, S, P>>,
> {
    pub(crate) build_hasher: S,
    pub(crate) segments: usize,
    pub(crate) size: usize,
    pub(crate) start: Seen<Note<K, V, S>, u64, Law>,
    pub(crate) door: Bucket<Note<K, V, S>, u64, Law>,
    pub(crate) buckets: Vec<Bucket<Note<K, V, S>, u64, Law>>,
    pub(crate) nexts: Vec<Bucket<Note<K, V, S>, u64, Law>>,
    pub(crate) roots: Vec<Bucket<Note<K, V, S>, u64, Law>>,
    pub(crate) shelf: L,
    pub(crate) of: PhantomData<P>,
}

impl<K: Eq + Hash, V, S: BuildHasher, P: Fact<K, V>, L: Shelf<Node<K, V, S, P>>> Model
    for HashMap<K, V, S, P, L> {
    ghost use Rattle.moka_shared.specs.Tables.{IsTable, Table};

    ghost Value = { Table S };

    ghost view = { λ t. record {
      hasher = t.build_hasher;
      segments = t.segments;
      size = t.size;
      book = t.start.book;
    } };

    ghost invariant = { λ t. IsTable record {
      hasher = t.build_hasher;
      segments = t.segments;
      size = t.size;
      book = t.start.book;
    } t.start.log t.door t.buckets.items t.nexts.items t.roots.items (L.owner t.shelf) };
}

impl<K: Eq + Hash, V, S: BuildHasher, P: Fact<K, V>, L: Shelf<Node<K, V, S, P>>> HashMap<
    K,
    V,
    S,
    P,
    L,
> {
    /// The hash of the key.
    pub fn hash(&self, key: &K) -> u64
        ensures { result
            ≡ hash_in S.BuildHasher S.Hasher.Hasher K.hash_input self.now.hasher key.now }
    {
        self.build_hasher.hash_one(key)
    }

    /// How many segments the table has.
    pub fn actual_num_segments(&self) -> usize
        ensures { result ≡ self.now.segments }
    {
        self.segments
    }

    /// How many words the array of each segment has.
    pub fn words_per_segment(&self) -> usize
        ensures { result ≡ self.now.size }
    {
        self.size
    }

    /// The bucket to which a hash leads, past so many others.
    pub(crate) fn place_of(&self, hash: u64, passed: usize) -> Place
        requires within { passed < self.now.size }
        ensures segment { result.segment ≡ segment_of self.now.segments hash }
        ensures index { result.index ≡ bucket_at self.now.size hash passed }
        ensures below { result.segment < self.now.segments }
        ensures inside { result.index < self.now.size }
    {
        let segment = segment_of(self.segments, hash);
        let index = bucket_at(self.size, hash, passed);
        Place { segment, index }
    }

    /// The word of a bucket.
    pub(crate) fn bucket(&self, segment: usize, index: usize) -> &Bucket<Note<K, V, S>, u64, Law>
        requires segment { segment < self.now.segments }
        requires index { index < self.now.size }
        ensures { result.now
            ≡ word_named self.now.book (1 + (segment * self.now.size + index)) }
    {
        let at = position(self.segments, self.size, segment, index);
        &self.buckets[at]
    }

    /// The word that names the array after the segment's first one, 0 while there is none.
    pub(crate) fn next(&self, segment: usize) -> &Bucket<Note<K, V, S>, u64, Law>
        requires segment { segment < self.now.segments }
        ensures { result.now ≡ word_named self.now.book
            (1 + self.now.segments * self.now.size + segment) }
    {
        &self.nexts[segment]
    }

    /// The word that names the segment's root, 0 while that is its first array.
    pub(crate) fn root(&self, segment: usize) -> &Bucket<Note<K, V, S>, u64, Law>
        requires segment { segment < self.now.segments }
        ensures { result.now ≡ word_named self.now.book
            (1 + self.now.segments * self.now.size + self.now.segments + segment) }
    {
        &self.roots[segment]
    }

    /// Reads the word of a bucket. The front becomes the log at the load.
    pub(crate) fn load(
        &self,
        front: &mut Seen<Note<K, V, S>, u64, Law>,
        segment: usize,
        index: usize,
    ) -> Word
        requires book { front.old.book ≡ self.now.book }
        requires log { IsLogOf K.eq (hash_in S.BuildHasher S.Hasher.Hasher K.hash_input)
            (place_in S.BuildHasher S.Hasher.Hasher K.hash_input) self.now front.old.log }
        requires segment { segment < self.now.segments }
        requires index { index < self.now.size }
        ensures book { front.new.book ≡ front.old.book }
        ensures loads { Loads K.eq (hash_in S.BuildHasher S.Hasher.Hasher K.hash_input)
            (place_in S.BuildHasher S.Hasher.Hasher K.hash_input) self.now segment index result
            front.old.log front.new.log }
    {
        let bucket = self.bucket(segment, index);
        let number = look(front, bucket);
        word_of(number)
    }
}
