//! What a cache tells of its records, and what hides all, in one hold of the lock and by no call.
ghost use Rattle.std.specs.Prelude.{◌≡◌, IfOk, true};

use crate::cache::{Cache, Shared};
use moka_facts::Fact;
use moka_values::Exact;
use std::alloc::AllocError;
use std::hash::{BuildHasher, Hash};
use std::sync::Wait;

impl<K, V, E, L, S, P> Cache<K, V, E, L, S, P>
where
    K: Eq + Hash + Exact,
    V: Exact,
    E: Exact,
    L: Drop,
    S: BuildHasher + Drop,
    P: Fact<K, V>,
{
    /// Whether a get would show a record of the key at `moment`, in nanoseconds; one before the
    /// clock counts as the clock. It is no access to the record, so it puts off no time to idle. An
    /// error comes where memory is wanting for a copy of the key or of its record, and nothing but
    /// the clock has changed then. Where there is one, some value meets the fact for the key.
    pub fn contains_key<R: Wait>(&self, rt: &R, key: &K, moment: u64) -> Result<bool, AllocError>
        ensures { IfOk result (λ there. there ≡ true → (value : V) × P.holds key.now value) }
    {
        let shared: &Shared<K, V, E, L, S, P> = &self.shared;
        shared.guarded.contains_key(rt, key, moment)
    }

    /// Invalidates all records that were written before `moment`, in nanoseconds; one before the
    /// clock counts as the clock. No look shows such a record from then on; one that was written at
    /// that very moment is spared. The records stay stored, and count, until a write takes their
    /// place or a call takes them out. A later call hides what was written meanwhile, too. It takes
    /// no memory and no call number, wakes nobody, and does nothing else.
    pub fn invalidate_all<R: Wait>(&self, rt: &R, moment: u64) {
        let shared: &Shared<K, V, E, L, S, P> = &self.shared;
        shared.guarded.invalidate_all(rt, moment);
    }

    /// How many records the cache has, as the last turn of maintenance counted them. Writes that
    /// wait in the log count later.
    pub fn entry_count<R: Wait>(&self, rt: &R) -> u64 {
        let shared: &Shared<K, V, E, L, S, P> = &self.shared;
        shared.guarded.entry_count(rt)
    }

    /// What the records weigh, as the last turn of maintenance counted them: each weighs 1.
    pub fn weighted_size<R: Wait>(&self, rt: &R) -> u64 {
        self.entry_count(rt)
    }
}
