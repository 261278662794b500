//! The cache.
ghost use Rattle.std.specs.Prelude.{◌≡◌, Some, None, false, IfOk, map};
ghost use Rattle.std.specs.Option.{option_map};
ghost use Rattle.std.specs.Arc.{arc_value};
ghost use Rattle.std.specs.String.{string_bytes};

use crate::builder::CacheBuilder;
use moka_engine::Policy;
use moka_facts::{Anything, Fact};
use moka_hist::Rules;
use moka_kept::{Guarded, NoListener};
use moka_room::FixedSeed;
use moka_values::Exact;
use std::alloc::{AllocError, Global};
use std::fmt;
use std::hash::{BuildHasher, Hash};
use std::sync::Arc;

// What the clones of a cache share.
#[derive(Drop)]
pub(crate) struct Shared<K: Eq + Hash, V, E, L, S: BuildHasher, P: Fact<K, V>> {
    pub(crate) name: Option<String>,
    pub(crate) guarded: Guarded<K, V, E, S, P>,
    pub(crate) listener: Option<L>,
    pub(crate) hasher: S,
}

/// A cache, which any number of tasks on any threads share by its clones. `E` is the type of errors
/// of its loads that may fail, `()` where it has none; `L` is that of its listener, and `S` of what
/// makes the hashers of its keys, clones of which its maps by key have. `P` is the fact that its keys
/// and values meet, `Anything` where none is asked; no value of it is ever made.
#[derive(Drop)]
pub struct Cache<
    K: Eq + Hash,
    V,
    E = (),
    L = NoListener,
    S: BuildHasher = FixedSeed,
    P: Fact<K, V> = Anything,
> {
    pub(crate) shared: Arc<Shared<K, V, E, L, S, P>, Global>,
}

impl<K, V, E> Cache<K, V, E>
where
    K: Eq + Hash + Exact,
    V: Exact,
    E: Exact,
{
    ghost use Rattle.moka_cache.specs.Settings.{listener_of, name_of, rules_of, rules_with};

    /// Makes an empty cache of this capacity, which has no effect yet but at 0: such a cache stores
    /// nothing. It has no name and no listener.
    pub fn new(alloc: Global, max_capacity: u64) -> Result<Self, AllocError>
        ensures rules { IfOk result
            (λ cache. rules_of cache ≡ rules_with (Some max_capacity) false) }
        ensures name { IfOk result (λ cache. name_of cache ≡ None) }
        ensures listener { IfOk result (λ cache. listener_of cache ≡ None) }
    {
        Cache::starting_after(alloc, None, Some(max_capacity), 0)
    }

    /// Begins to build a cache: one without a name and a listener, whose capacity has no bound, and
    /// whose records don't expire.
    pub fn builder() -> CacheBuilder<K, V, E>
        ensures name { result.name ≡ None }
        ensures capacity { result.max_capacity ≡ None }
        ensures live { result.time_to_live ≡ None }
        ensures idle { result.time_to_idle ≡ None }
        ensures listener { result.listener ≡ None }
    {
        CacheBuilder::default()
    }

    /// Makes an empty cache of this name and capacity, without a bound where it is None, of which
    /// this call number and those before it were given out. It has no listener. It is an error only
    /// where memory is wanting. Tests make so a cache whose numbers end soon.
    pub fn starting_after(
        alloc: Global,
        name: Option<String>,
        max_capacity: Option<u64>,
        last: u64,
    ) -> Result<Self, AllocError>
        ensures rules { IfOk result (λ cache. rules_of cache ≡ rules_with max_capacity false) }
        ensures name { IfOk result (λ cache. name_of cache ≡ option_map string_bytes name) }
        ensures listener { IfOk result (λ cache. listener_of cache ≡ None) }
    {
        let rules = Rules {
            max_capacity,
            time_to_live: None,
            time_to_idle: None,
            listener: false,
            closures: false,
        };
        Cache::made(alloc, name, rules, None, FixedSeed::new(), last)
    }
}

impl<K, V, E, L, S, P> Cache<K, V, E, L, S, P>
where
    K: Eq + Hash + Exact,
    V: Exact,
    E: Exact,
    L: Drop,
    S: BuildHasher + Drop,
    P: Fact<K, V>,
{
    ghost use Rattle.moka_cache.specs.Settings.{hasher_of, listener_of, name_of, rules_of};

    /// Makes an empty cache of all this, of which this call number and those before it were given
    /// out.
    pub(crate) fn made(
        alloc: Global,
        name: Option<String>,
        rules: Rules,
        listener: Option<L>,
        hasher: S,
        last: u64,
    ) -> Result<Self, AllocError>
    where
        S: Clone,
        ensures rules { IfOk result (λ cache. rules_of cache ≡ rules) }
        ensures name { IfOk result (λ cache. name_of cache ≡ option_map string_bytes name) }
        ensures listener { IfOk result (λ cache. listener_of cache ≡ listener) }
        ensures hasher { IfOk result (λ cache. hasher_of cache ≡ hasher) }
    {
        let of_keys = hasher.clone()?;
        let guarded = Guarded::starting_after(alloc, rules, last, of_keys)?;
        let shared = Arc::new(
            alloc,
            Shared {
                name,
                guarded,
                listener,
                hasher,
            },
        )?;
        Ok(Cache { shared })
    }

    /// The name that the cache was built with.
    pub fn name(&self) -> Option<&str>
        ensures { option_map (λ s. s.now) result ≡ name_of self.now }
    {
        let shared: &Shared<K, V, E, L, S, P> = &self.shared;
        match &shared.name {
            Some(name) => Some(name.as_str()),
            None => None,
        }
    }

    /// What the cache was built with.
    pub fn policy(&self) -> Policy
        ensures { result.rules ≡ rules_of self.now }
    {
        let shared: &Shared<K, V, E, L, S, P> = &self.shared;
        Policy {
            rules: shared.guarded.rules,
        }
    }
}

/// Writes the name and the policy, and takes no lock for it.
impl<K, V, E, L, S, P> fmt::Debug for Cache<K, V, E, L, S, P>
where
    K: Eq + Hash + Exact,
    V: Exact,
    E: Exact,
    L: Drop,
    S: BuildHasher + Drop,
    P: Fact<K, V>,
{
    fn fmt<W: fmt::Write>(&self, f: &mut fmt::Formatter<W>) -> fmt::Result {
        f.debug_struct("Cache")
            .field("name", &self.name())
            .field("policy", &self.policy())
            .finish()
    }
}

/// A clone shares the cache. It is an error only where no further owner can be counted.
impl<K, V, E, L, S, P> Clone for Cache<K, V, E, L, S, P>
where
    K: Eq + Hash + Exact,
    V: Exact,
    E: Exact,
    L: Drop,
    S: BuildHasher + Drop,
    P: Fact<K, V>,
{
    ghost is_clone = { λ cache copy. arc_value copy.shared ≡ arc_value cache.shared };

    fn clone(&self) -> Result<Self, AllocError> {
        let shared = Arc::try_clone(&self.shared)?;
        Ok(Cache { shared })
    }
}
