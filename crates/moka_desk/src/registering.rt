//! The visit that registers a predicate, and the records that registered predicates hit.

ghost use Rattle.std.specs.Prelude.{◌≡◌, true, Err, IfOk, length, map};
ghost use Rattle.moka_desk.specs.Predicates.{Draws, OnMemory, UnlessMemory};

use crate::Desk;
use moka_hist::{Ids, PredicateError, Registered, Stored, TestList, Tests};
use moka_values::Exact;
use std::alloc::{AllocError, Global};
use std::hash::{BuildHasher, Hash};

/// How many ids are drawn at most for one predicate.
const MOST_DRAWN: u32 = 1000;

impl<K: Eq + Hash + Exact, V: Drop, E: Drop, S: BuildHasher + Drop> Desk<K, V, E, S> {
    ghost use Rattle.moka_hist.specs.State.{DeskPart};
    ghost use Rattle.moka_hist.specs.Visits.{is_hit, registered_with, registering};
    ghost use Rattle.moka_desk.specs.History.{KeepsAsBefore};
    ghost use Rattle.moka_desk.specs.ListedMiss.{MissWith};
    ghost use Rattle.moka_desk.specs.StandsFor.{StandsFor, Stays};
    ghost use Rattle.moka_desk.specs.Waits.{NobodyMoves};
    ghost use Rattle.moka_desk.specs.WakeList.{NobodyWakes};

    /// Registers the predicate of this number at the clock's moment. Its id is the first of the next
    /// 1000 under which none is registered.
    ///
    /// | Answer | When | Ids drawn |
    /// |---|---|---|
    /// | `InvalidationClosuresDisabled` | the cache was built without closures | none |
    /// | `Memory` | memory was wanting; the desk stays as it was | none |
    /// | `NoId` | each of the next 1000 ids is registered | 1000 |
    /// | an id | else | up to that one |
    #[cold]
    #[inline(never)]
    pub fn register<G: Ids>(&mut self, test: u64, ids: &mut G) -> Result<u128, PredicateError>
        // what is registered, and drawn
        ensures finds { UnlessMemory result ((w : DeskPart K V E) → StandsFor K.eq self.old w
            → Draws (G.stream ids.old) w → result ≡ registering w) }
        ensures makes { UnlessMemory result ((w : DeskPart K V E) → StandsFor K.eq self.old w
            → Draws (G.stream ids.old) w → StandsFor K.eq self.new (registered_with w test)) }
        ensures draws { UnlessMemory result ((w : DeskPart K V E) → StandsFor K.eq self.old w
            → Draws (G.stream ids.old) w → Draws (G.stream ids.new) (registered_with w test)) }
        // want of memory
        ensures err { OnMemory result (Stays K.eq self.old self.new) }
        ensures undrawn { OnMemory result (ids.new ≡ ids.old) }
        ensures needs { OnMemory result (self.old.rules.closures ≡ true) }
        // who waits, and what is kept
        ensures quiet { NobodyMoves self.old self.new }
        ensures wakes { NobodyWakes self.old self.new }
        ensures misses { MissWith K.eq self.old (λ w. registered_with w test) self.new }
        ensures misses_still { OnMemory result (MissWith K.eq self.old (λ w. w) self.new) }
        ensures kept { KeepsAsBefore self.old self.new }
    {
        if !self.rules.closures {
            return Err(PredicateError::InvalidationClosuresDisabled);
        }
        if self.predicates.reserve().is_err() {
            return Err(PredicateError::Memory);
        }
        let Some(id) = self.predicates.draw(ids, MOST_DRAWN) else {
            return Err(PredicateError::NoId);
        };
        self.predicates.push(Registered {
            id,
            test,
            moment: self.clock,
        });
        Ok(id)
    }

    /// Answers whether a registered predicate hits the record: one that was registered no earlier
    /// than the record was last written, and that holds on it.
    pub fn hits<T: Tests<K, V>>(&self, tests: &T, key: &K, stored: &Stored<V>) -> bool
        ensures { (w : DeskPart K V E) → StandsFor K.eq self.now w
            → T.hides tests.now ≡ w.predicates → result ≡ is_hit w key.now stored.now }
    {
        if self.predicates.registered.is_empty() {
            return false;
        }
        self.predicates.hits(tests, key, stored)
    }

    /// How many predicates are registered.
    pub fn predicate_count(&self) -> usize
        ensures { (w : DeskPart K V E) → StandsFor K.eq self.now w → result ≡ length w.registered }
    {
        self.predicates.registered.len()
    }

    /// The number of each registered predicate, oldest first, with the moment at which it was
    /// registered, in nanoseconds.
    pub fn tests(&self, alloc: Global) -> Result<TestList, AllocError>
        ensures { IfOk result (λ tests. (w : DeskPart K V E) → StandsFor K.eq self.now w
            → tests ≡ map (λ r. (r.test, r.moment)) w.registered) }
    {
        let mut tests = Vec::with_capacity(alloc, self.predicates.registered.len())?;
        for registered in &self.predicates.registered {
            tests.push((registered.test, registered.moment))?;
        }
        Ok(TestList::from_vec(tests))
    }
}
