//! How a table begins.
ghost use Rattle.std.specs.Prelude.{◌≡◌, [], ◌∷◌, ◌+◌, ◌-◌, ◌*◌, ◌/◌, ◌<◌, ◌≤◌, ◌^◌, min, IfOk};
ghost use Rattle.std.specs.Int.{IsNextPowerOfTwo, IsPowerOfTwo};
ghost use mathlib.Core.List.{IsPrefix};
ghost use Rattle.moka_history.specs.Entries.{IsLegal};
ghost use Rattle.moka_history.specs.Logs.{entries_of};
ghost use Rattle.moka_shared.specs.Changes.{AreMade};
ghost use Rattle.moka_shared.specs.Tables.{AreWords, names_of};

use crate::Fact;
use crate::book::Law;
use crate::node::Node;
use crate::seat::Seat;
use crate::table::HashMap;
use boxcar::tag::{Names, Tag};
use logbook::{Opening, Pens, Seen, Start, Word as Bucket};
use moka_history::Note;
use moka_shelf::Shelf;
use std::alloc::{AllocError, Global};
use std::hash::{BuildHasher, Hash};
use std::marker::PhantomData;

/// How many segments a table has where none are asked for.
const SEGMENTS: usize = 64;

/// An array has at most so many words, and so have all arrays of a table.
const MOST: usize = 1 << 60;

/// How many segments a table has, how many words the array of each, and its hash builder.
#[derive(Drop)]
pub(crate) struct Plan<S> {
    segments: usize,
    size: usize,
    hasher: S,
}

/// The log of a book that was just opened.
pub(crate) struct Opens;

impl<K, V, S> Opening<Plan<S>, Note<K, V, S>> for Opens {
    ghost use Rattle.std.specs.Prelude.{[], ◌∷◌};
    ghost use Rattle.moka_history.specs.declared.note.Note.TheVariants.{Opened};

    ghost log = { λ count plan. Opened plan.segments plan.size plan.hasher ∷ [] };
}

/// The names of the book of what was seen.
pub struct OfBook;

impl<K: Eq + Hash, V, S: BuildHasher> Names<Seen<Note<K, V, S>, u64, Law>> for OfBook {
    ghost use Rattle.moka_shared.specs.Tables.{names_of};

    ghost numbers = { λ seen. names_of seen.book };
}

// How long the array of each of so many segments is. Longer than 2^60 is want of memory.
fn first_size(capacity: usize, segments: usize) -> Result<usize, AllocError>
    requires { 0 < segments }
    ensures next { IfOk result
        (IsNextPowerOfTwo (min (capacity * 2) (2 ^ 64 - 1) / segments)) }
    ensures power { IfOk result IsPowerOfTwo }
    ensures short { IfOk result (λ size. size ≤ 2 ^ 60) }
{
    let wanted = capacity.saturating_mul(2) / segments;
    if wanted > 1 << 63 {
        return Err(AllocError);
    }
    let size = wanted.next_power_of_two();
    if size > MOST {
        return Err(AllocError);
    }
    Ok(size)
}

// How many words so many segments have. More than 2^60 is want of memory.
fn all_words(segments: usize, size: usize) -> Result<usize, AllocError>
    ensures count { IfOk result (λ count. count ≡ segments * size) }
    ensures short { IfOk result (λ count. count ≤ 2 ^ 60) }
{
    let Some(count) = segments.checked_mul(size) else {
        return Err(AllocError);
    };
    if count > MOST {
        return Err(AllocError);
    }
    Ok(count)
}

// So many words of a book, the next ones that haven't been made.
fn make_words<K: Eq + Hash, V, S: BuildHasher>(
    alloc: Global,
    pens: &mut Pens,
    count: usize,
) -> Result<Vec<Bucket<Note<K, V, S>, u64, Law>>, AllocError>
    requires { count ≤ pens.old.left }
    ensures words { IfOk result (λ words. AreWords pens.old.book pens.old.next count
        words.items) }
    ensures book { IfOk result (λ words. pens.new.book ≡ pens.old.book) }
    ensures next { IfOk result (λ words. pens.new.next ≡ pens.old.next + count) }
    ensures left { IfOk result (λ words. pens.new.left ≡ pens.old.left - count) }
{
    let mut words = Vec::with_capacity(alloc, count)?;
    let mut made = 0;
    while made < count {
        words.push_reserved(Bucket::tracked(0, &mut pens.take()));
        made += 1;
    }
    Ok(words)
}

impl<
    K: Eq + Hash + Drop,
    V: Drop,
    S: BuildHasher + Drop,
    P: Fact<K, V>,
    L: Shelf<Node<K, V, S, P>> + Drop,
> HashMap<K, V, S, P, L> {
    /// A table without pairs, of so many segments, rounded up to a power of two, with arrays for so
    /// many pairs. It is an error only where memory is wanting.
    pub fn with_num_segments_capacity_and_hasher(
        alloc: Global,
        num_segments: usize,
        capacity: usize,
        build_hasher: S,
    ) -> Result<Self, AllocError>
        requires some { 0 < num_segments }
        requires few { num_segments ≤ 65536 }
        requires capacity { 0 < capacity }
        ensures segments { IfOk result (λ t. IsNextPowerOfTwo num_segments t.segments) }
        ensures size { IfOk result (λ t. IsNextPowerOfTwo
            (min (capacity * 2) (2 ^ 64 - 1) / t.segments) t.size) }
        ensures hasher { IfOk result (λ t. t.hasher ≡ build_hasher) }
    {
        let segments = num_segments.next_power_of_two();
        let size = first_size(capacity, segments)?;
        Self::opened(
            alloc,
            Plan {
                segments,
                size,
                hasher: build_hasher,
            },
        )
    }

    /// A table without pairs, of 64 segments.
    pub fn with_capacity(
        alloc: Global,
        capacity: usize,
        build_hasher: S,
    ) -> Result<Self, AllocError>
        requires capacity { 0 < capacity }
        ensures segments { IfOk result (λ t. t.segments ≡ 64) }
        ensures size { IfOk result (λ t. IsNextPowerOfTwo
            (min (capacity * 2) (2 ^ 64 - 1) / 64) t.size) }
        ensures hasher { IfOk result (λ t. t.hasher ≡ build_hasher) }
    {
        let size = first_size(capacity, SEGMENTS)?;
        Self::opened(
            alloc,
            Plan {
                segments: SEGMENTS,
                size,
                hasher: build_hasher,
            },
        )
    }

    fn opened(alloc: Global, plan: Plan<S>) -> Result<Self, AllocError>
        requires some { 0 < plan.segments }
        requires few { plan.segments ≤ 2 ^ 60 }
        requires power { IsPowerOfTwo plan.size }
        requires short { plan.size ≤ 2 ^ 60 }
        ensures segments { IfOk result (λ t. t.segments ≡ plan.segments) }
        ensures size { IfOk result (λ t. t.size ≡ plan.size) }
        ensures hasher { IfOk result (λ t. t.hasher ≡ plan.hasher) }
    {
        let count = all_words(plan.segments, plan.size)?;
        let all = count + plan.segments + plan.segments + 1;
        let (start, mut pens) = Seen::open_row::<Plan<S>, Opens>(&plan, Start::alone(), all);
        let door = Bucket::tracked(0, &mut pens.take());
        let buckets = make_words(alloc, &mut pens, count)?;
        let nexts = make_words(alloc, &mut pens, plan.segments)?;
        let roots = make_words(alloc, &mut pens, plan.segments)?;
        let names = Tag::of::<Seen<Note<K, V, S>, u64, Law>, OfBook>(&start);
        let shelf = L::for_table(alloc, &names)?;
        let Plan {
            segments,
            size,
            hasher,
        } = plan;
        Ok(HashMap {
            build_hasher: hasher,
            segments,
            size,
            start,
            door,
            buckets,
            nexts,
            roots,
            shelf,
            of: PhantomData,
        })
    }
}

impl<K: Eq + Hash + Drop, V: Drop, S: BuildHasher + Drop, P: Fact<K, V>> HashMap<K, V, S, P> {
    /// Gives all nodes back, as to drop the table does. Each seat of the table stays what it was.
    pub fn close(self) {}
}

impl<K: Eq + Hash, V, S: BuildHasher, P: Fact<K, V>, L: Shelf<Node<K, V, S, P>>> HashMap<
    K,
    V,
    S,
    P,
    L,
> {
    /// A seat that has seen the beginning alone. It takes no memory.
    pub fn seat(&self) -> Seat<K, V, S, L::Look>
        ensures seat { result.front.book ≡ self.now.book }
        ensures mine { (result.mine.numbers ≡ []) × (result.drawn.numbers ≡ []) }
        ensures none { (entries_of result.front.log ≡ []) × (L.hidden result.hidden ≡ 0) }
    {
        Seat {
            front: self.start.again(),
            hidden: self.shelf.fresh_look(),
            drawn: Tag::empty(),
            mine: Tag::empty(),
        }
    }

    /// Each seat has seen then what either had seen, and one of them all that the other has.
    pub fn meet(&self, a: &mut Seat<K, V, S, L::Look>, b: &mut Seat<K, V, S, L::Look>)
        requires a { a.old.front.book ≡ self.now.book }
        requires b { b.old.front.book ≡ self.now.book }
        ensures a { a.new.front.book ≡ self.now.book }
        ensures b { b.new.front.book ≡ self.now.book }
        ensures a_has { IsPrefix a.old.front.log a.new.front.log
            × IsPrefix b.old.front.log a.new.front.log }
        ensures b_has { IsPrefix a.old.front.log b.new.front.log
            × IsPrefix b.old.front.log b.new.front.log }
        ensures order { IsPrefix a.new.front.log b.new.front.log }
        ensures legal { IsLegal K.eq (entries_of a.new.front.log)
            × IsLegal K.eq (entries_of b.new.front.log) }
        ensures mine { (a.new.mine ≡ a.old.mine) × (b.new.mine ≡ b.old.mine) }
        ensures drawn { (a.new.drawn ≡ a.old.drawn) × (b.new.drawn ≡ b.old.drawn) }
        ensures a_made { AreMade a.old.mine.numbers (entries_of a.old.front.log)
            → AreMade a.new.mine.numbers (entries_of a.new.front.log) }
        ensures b_made { AreMade b.old.mine.numbers (entries_of b.old.front.log)
            → AreMade b.new.mine.numbers (entries_of b.new.front.log) }
        ensures hidden { (a.new.hidden ≡ a.old.hidden) × (b.new.hidden ≡ b.old.hidden) }
    {
        a.front.learn(&self.start);
        a.front.learn(&b.front);
        b.front.learn(&a.front);
    }
}
