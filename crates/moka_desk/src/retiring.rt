//! The visits by which maintenance lets predicates go: which of them may leave, which hide a record,
//! and their leaving.

ghost use Rattle.std.specs.Prelude.{◌≡◌, IfOk};

use crate::Desk;
use moka_hist::{IdList, Stored, Tests};
use moka_values::Exact;
use std::alloc::AllocError;
use std::hash::{BuildHasher, Hash};

impl<K: Eq + Hash + Exact, V: Drop, E: Drop, S: BuildHasher + Drop> Desk<K, V, E, S> {
    ghost use Rattle.moka_hist.specs.State.{DeskPart};
    ghost use Rattle.moka_hist.specs.Visits.{candidates, retired, struck};
    ghost use Rattle.moka_desk.specs.History.{KeepsAsBefore};
    ghost use Rattle.moka_desk.specs.ListedMiss.{MissWith};
    ghost use Rattle.moka_desk.specs.StandsFor.{StandsFor, Becomes};
    ghost use Rattle.moka_desk.specs.Waits.{NobodyMoves};
    ghost use Rattle.moka_desk.specs.WakeList.{NobodyWakes};

    /// The predicates that may leave once they hide no record, by id and moment, oldest first: those
    /// whose moment is before the clock, and before each moment that is pending with a call.
    #[cold]
    #[inline(never)]
    pub fn candidates(&self) -> Result<IdList, AllocError>
        ensures { IfOk result (λ ids. (w : DeskPart K V E) → StandsFor K.eq self.now w
            → ids ≡ candidates w) }
    {
        let pending = self.writes.held.holdings.earliest(self.last);
        let over = self.predicates.over(self.clock, pending)?;
        Ok(IdList::from_vec(over))
    }

    /// Gives those of these predicates that don't hide the record. One does that is still registered
    /// under its id since its moment, that was registered no earlier than the record was last
    /// written, and that holds on it. It takes no memory.
    #[cold]
    #[inline(never)]
    pub fn strike<T: Tests<K, V>>(
        &self,
        tests: &T,
        ids: IdList,
        key: &K,
        stored: &Stored<V>,
    ) -> IdList
        ensures { (w : DeskPart K V E) → StandsFor K.eq self.now w
            → T.hides tests.now ≡ w.predicates → result ≡ struck w ids key.now stored.now }
    {
        let predicates = &self.predicates;
        let mut left = ids.into_vec();
        left.retain(|named| !predicates.strikes(tests, named.0, named.1, key, stored));
        IdList::from_vec(left)
    }

    /// Lets these predicates leave. One that was registered anew under such an id, since another
    /// moment, stays. It takes no memory.
    #[cold]
    #[inline(never)]
    pub fn retire(&mut self, ids: &IdList)
        ensures makes { Becomes K.eq self.old (λ w. retired w ids.now) self.new }
        ensures quiet { NobodyMoves self.old self.new }
        ensures wakes { NobodyWakes self.old self.new }
        ensures misses { MissWith K.eq self.old (λ w. retired w ids.now) self.new }
        ensures kept { KeepsAsBefore self.old self.new }
    {
        self.predicates.retire(ids.as_slice());
    }
}
