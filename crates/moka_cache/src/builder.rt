//! How a cache is built.
ghost use Rattle.std.specs.Prelude.{◌≡◌, Some, None, Err, IfErr, IfNone, IfOk, IfSome};
ghost use Rattle.std.specs.Option.{option_map};
ghost use Rattle.std.specs.String.{string_bytes};

use crate::cache::Cache;
use crate::errors::BuildError;
use moka_facts::{Anything, Fact};
use moka_hist::Rules;
use moka_kept::{Listener, NoListener};
use moka_room::FixedSeed;
use moka_values::Exact;
use std::alloc::Global;
use std::fmt;
use std::hash::{BuildHasher, Hash};
use std::marker::PhantomData;
use std::time::Duration;

/// What a cache is built by. No setter takes memory, and of each the last call counts.
#[derive(Drop)]
pub struct CacheBuilder<K, V, E = (), L = NoListener, P = Anything> {
    pub(crate) name: Option<String>,
    pub(crate) max_capacity: Option<u64>,
    pub(crate) initial_capacity: Option<usize>,
    pub(crate) time_to_live: Option<Duration>,
    pub(crate) time_to_idle: Option<Duration>,
    pub(crate) listener: Option<L>,
    types: PhantomData<(K, V, E, P)>,
}

impl<K, V, E> Default for CacheBuilder<K, V, E> {
    ghost is_default = { λ b. (b.name ≡ None) × (b.max_capacity ≡ None)
        × (b.initial_capacity ≡ None) × (b.time_to_live ≡ None) × (b.time_to_idle ≡ None)
        × (b.listener ≡ None) };

    /// Begins to build a cache without a name and a listener, whose capacity has no bound, and whose
    /// records don't expire.
    fn default() -> Self {
        CacheBuilder {
            name: None,
            max_capacity: None,
            initial_capacity: None,
            time_to_live: None,
            time_to_idle: None,
            listener: None,
            types: PhantomData,
        }
    }
}

/// Writes what was set, and of the listener only whether there is one.
impl<K, V, E, L, P> fmt::Debug for CacheBuilder<K, V, E, L, P> {
    fn fmt<W: fmt::Write>(&self, f: &mut fmt::Formatter<W>) -> fmt::Result {
        f.debug_struct("CacheBuilder")
            .field("name", &self.name)
            .field("max_capacity", &self.max_capacity)
            .field("initial_capacity", &self.initial_capacity)
            .field("time_to_live", &self.time_to_live)
            .field("time_to_idle", &self.time_to_idle)
            .field("has_listener", &self.listener.is_some())
            .finish()
    }
}

impl<K, V, E> CacheBuilder<K, V, E> {
    /// Begins to build a cache of this capacity, which has no effect yet but at 0: such a cache
    /// stores nothing. It has no name and no listener, and its records don't expire.
    pub fn new(max_capacity: u64) -> Self
        ensures name { result.name ≡ None }
        ensures capacity { result.max_capacity ≡ Some max_capacity }
        ensures initial { result.initial_capacity ≡ None }
        ensures live { result.time_to_live ≡ None }
        ensures idle { result.time_to_idle ≡ None }
        ensures listener { result.listener ≡ None }
    {
        let mut built = CacheBuilder::default();
        built.max_capacity = Some(max_capacity);
        built
    }
}

impl<K, V, E, L, P> CacheBuilder<K, V, E, L, P>
where
    K: Eq + Hash + Exact,
    V: Exact,
    E: Exact,
    L: Drop,
    P: Fact<K, V>,
{
    ghost use Rattle.moka_hist.specs.Settings.{refusal_of};
    ghost use Rattle.moka_cache.specs.Errors.{refused_by};
    ghost use Rattle.moka_cache.specs.Settings.{hasher_of, listener_of, name_of, rules_of};
    ghost use Rattle.moka_cache.specs.Settings.{rules_asked};

    /// Sets the name of the cache.
    pub fn name(self, name: String) -> Self
        ensures { result ≡ record self { name = Some name } }
    {
        let mut built = self;
        built.name = Some(name);
        built
    }

    /// Sets the capacity, which has no effect yet but at 0: such a cache stores nothing.
    pub fn max_capacity(self, max_capacity: u64) -> Self
        ensures { result ≡ record self { max_capacity = Some max_capacity } }
    {
        let mut built = self;
        built.max_capacity = Some(max_capacity);
        built
    }

    /// Sets how many records the cache is expected to keep. It has no effect yet.
    pub fn initial_capacity(self, initial_capacity: usize) -> Self
        ensures { result ≡ record self { initial_capacity = Some initial_capacity } }
    {
        let mut built = self;
        built.initial_capacity = Some(initial_capacity);
        built
    }

    /// Sets how long after its last write a record has expired: from its last nanosecond on no look
    /// shows it. At a time of 0 it has expired at once. An expired record stays stored until a write
    /// takes its place or a call takes it out.
    pub fn time_to_live(self, duration: Duration) -> Self
        ensures { result ≡ record self { time_to_live = Some duration } }
    {
        let mut built = self;
        built.time_to_live = Some(duration);
        built
    }

    /// Sets how long after its last access a record has expired, as `time_to_live` does: its write,
    /// and each look that shows it, is an access. `contains_key` is none.
    pub fn time_to_idle(self, duration: Duration) -> Self
        ensures { result ≡ record self { time_to_idle = Some duration } }
    {
        let mut built = self;
        built.time_to_idle = Some(duration);
        built
    }

    /// Sets the listener, which hears of each record that a write replaces or a call takes out: a
    /// closure, or a value of a type of one's own. One that was set before is dropped.
    pub fn eviction_listener<H: Listener<K, V>>(self, listener: H) -> CacheBuilder<K, V, E, H, P>
        ensures listener { result.listener ≡ Some listener }
        // All else is kept.
        ensures name { result.name ≡ self.name }
        ensures capacity { result.max_capacity ≡ self.max_capacity }
        ensures initial { result.initial_capacity ≡ self.initial_capacity }
        ensures live { result.time_to_live ≡ self.time_to_live }
        ensures idle { result.time_to_idle ≡ self.time_to_idle }
    {
        CacheBuilder {
            name: self.name,
            max_capacity: self.max_capacity,
            initial_capacity: self.initial_capacity,
            time_to_live: self.time_to_live,
            time_to_idle: self.time_to_idle,
            listener: Some(listener),
            types: PhantomData,
        }
    }

    /// Sets the listener, as `eviction_listener` does: a cache has one listener, which is polled.
    pub fn async_eviction_listener<H: Listener<K, V>>(
        self,
        listener: H,
    ) -> CacheBuilder<K, V, E, H, P>
        ensures listener { result.listener ≡ Some listener }
        // All else is kept.
        ensures name { result.name ≡ self.name }
        ensures capacity { result.max_capacity ≡ self.max_capacity }
        ensures initial { result.initial_capacity ≡ self.initial_capacity }
        ensures live { result.time_to_live ≡ self.time_to_live }
        ensures idle { result.time_to_idle ≡ self.time_to_idle }
    {
        self.eviction_listener(listener)
    }

    /// Sets the fact that each key and value of the cache is to meet. Who hands a value in owes it, and
    /// who gets one has it, for the key by which it was asked for.
    pub fn such<Q: Fact<K, V>>(self) -> CacheBuilder<K, V, E, L, Q>
        ensures name { result.name ≡ self.name }
        ensures capacity { result.max_capacity ≡ self.max_capacity }
        ensures initial { result.initial_capacity ≡ self.initial_capacity }
        ensures live { result.time_to_live ≡ self.time_to_live }
        ensures idle { result.time_to_idle ≡ self.time_to_idle }
        ensures listener { result.listener ≡ self.listener }
    {
        let CacheBuilder {
            name,
            max_capacity,
            initial_capacity,
            time_to_live,
            time_to_idle,
            listener,
            types: _,
        } = self;
        CacheBuilder {
            name,
            max_capacity,
            initial_capacity,
            time_to_live,
            time_to_idle,
            listener,
            types: PhantomData,
        }
    }

    /// Builds the cache. It is refused where a time is longer than 31,536,000,000 seconds, a
    /// thousand years of 365 days, even by a nanosecond: by `TimeToLiveTooLong`, and where only the
    /// time to idle is, by `TimeToIdleTooLong`, whatever memory there is. Else `Memory` is the only
    /// error.
    pub fn build(self, alloc: Global) -> Result<Cache<K, V, E, L, FixedSeed, P>, BuildError>
        ensures rules { IfOk result (λ cache. rules_of cache ≡ rules_asked self) }
        ensures name { IfOk result (λ cache. name_of cache ≡ option_map string_bytes self.name) }
        ensures listener { IfOk result (λ cache. listener_of cache ≡ self.listener) }
        ensures refused { IfSome (refusal_of (rules_asked self))
            (λ refusal. result ≡ Err (refused_by refusal)) }
        ensures memory { IfNone (refusal_of (rules_asked self))
            (IfErr result (λ e. e ≡ BuildError.Memory)) }
    {
        self.build_with_hasher(alloc, FixedSeed::new())
    }

    /// Builds the cache, as `build` does, whose keys are hashed by clones of this: where records lie,
    /// who owns the load of a key, and who holds its lock. `build` takes std's hasher of fixed seed:
    /// whoever picks the keys can pick ones that fall together there, and each call walks them under
    /// the lock. For keys that strangers pick hand in a `RandomState`. An error of the hasher's
    /// clone is `Memory`.
    pub fn build_with_hasher<S: BuildHasher + Clone + Drop>(
        self,
        alloc: Global,
        hasher: S,
    ) -> Result<Cache<K, V, E, L, S, P>, BuildError>
        ensures rules { IfOk result (λ cache. rules_of cache ≡ rules_asked self) }
        ensures name { IfOk result (λ cache. name_of cache ≡ option_map string_bytes self.name) }
        ensures listener { IfOk result (λ cache. listener_of cache ≡ self.listener) }
        ensures hasher { IfOk result (λ cache. hasher_of cache ≡ hasher) }
        ensures refused { IfSome (refusal_of (rules_asked self))
            (λ refusal. result ≡ Err (refused_by refusal)) }
        ensures memory { IfNone (refusal_of (rules_asked self))
            (IfErr result (λ e. e ≡ BuildError.Memory)) }
    {
        let rules = self.rules();
        if let Some(refusal) = rules.refusal() {
            return Err(BuildError::of(refusal));
        }
        match Cache::made(alloc, self.name, rules, self.listener, hasher, 0) {
            Ok(cache) => Ok(cache),
            Err(_) => Err(BuildError::Memory),
        }
    }

    // The rules of the cache that is to be built.
    fn rules(&self) -> Rules
        ensures { result ≡ rules_asked self.now }
    {
        Rules {
            max_capacity: self.max_capacity,
            time_to_live: self.time_to_live,
            time_to_idle: self.time_to_idle,
            listener: self.listener.is_some(),
            closures: false,
        }
    }
}
