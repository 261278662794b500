//! Computing what a key has, which may fail.
ghost use Rattle.std.specs.Prelude.{◌≡◌, Some, None, IsSome, IfOk, Ok};
ghost use Rattle.moka_laws.specs.Given.{value_done};
ghost use Rattle.moka_cache.specs.Asked.{Accords, Untested};
ghost use Rattle.moka_cache.specs.Meets.{GivesSo, MeetsFact};
ghost use Rattle.moka_hist.specs.declared.events.Op.TheVariants as op;
ghost use Rattle.moka_hist.specs.declared.events.Start.TheVariants as Start;
ghost use Rattle.moka_cache.specs.Computes.{GivesOp};
ghost use Rattle.moka_cache.specs.Entries.{try_computed_in};
ghost use Rattle.moka_cache.specs.Keys.{key_of};
ghost use Rattle.moka_cache.specs.Settings.{rules_of};
ghost use Rattle.moka_cache.specs.Stages.{BeginsWith, MayPoll};
ghost use Rattle.moka_cache.specs.Starts.{called};
ghost use Rattle.moka_cache.specs.Suits.{Tells};

use crate::begin::{Begin, Begun};
use crate::by_compute::{ByCompute, ComputeStage};
use crate::call::CacheCall;
use crate::compute::Compute;
use crate::entry::EntrySelector;
use crate::key::CallKey;
use moka_facts::{Anything, Fact};
use moka_hist::{Answer, CompResult, Start};
use moka_kept::{Listener, NoListener};
use moka_room::FixedSeed;
use moka_values::Exact;
use std::hash::{BuildHasher, Hash};

/// What a compute is of that may fail.
#[derive(Drop)]
pub struct ToTryCompute<'a, K> {
    key: CallKey<'a, K>,
}

impl<K: Exact, V: Drop, E: Drop> Begin<K, V, E> for ToTryCompute<'_, K> {
    type Output = Result<CompResult<K, V>, E>;

    ghost start = { λ compute. Start.TryCompute (key_of compute.key) };

    ghost named = { λ compute. None };

    ghost output = { λ named answer. try_computed_in answer };

    fn start(self) -> Result<Begun<K, V>, Self> {
        match self.key.into_key() {
            Ok(key) => Ok(Begun::unnamed(Start::TryCompute { key })),
            Err(key) => Err(ToTryCompute { key }),
        }
    }

    fn output(_key: Option<K>, answer: Answer<K, V, E>) -> Result<CompResult<K, V>, E>
        requires { IsSome (try_computed_in answer) }
        ensures told { Some result ≡ try_computed_in answer }
    {
        match answer {
            Answer::Computed(done) => Ok(done),
            Answer::ComputeErr(error) => Err(error),
            _ => unreachable!(),
        }
    }
}

/// What a compute is of that goes alone or not at all.
#[derive(Drop)]
pub struct ToComputeAlone<'a, K> {
    key: CallKey<'a, K>,
}

impl<K: Exact, V: Drop, E: Drop> Begin<K, V, E> for ToComputeAlone<'_, K> {
    type Output = Result<CompResult<K, V>, E>;

    ghost start = { λ compute. Start.ComputeAlone (key_of compute.key) };

    ghost named = { λ compute. None };

    ghost output = { λ named answer. try_computed_in answer };

    fn start(self) -> Result<Begun<K, V>, Self> {
        match self.key.into_key() {
            Ok(key) => Ok(Begun::unnamed(Start::ComputeAlone { key })),
            Err(key) => Err(ToComputeAlone { key }),
        }
    }

    fn output(_key: Option<K>, answer: Answer<K, V, E>) -> Result<CompResult<K, V>, E>
        requires { IsSome (try_computed_in answer) }
        ensures told { Some result ≡ try_computed_in answer }
    {
        match answer {
            Answer::Computed(done) => Ok(done),
            Answer::ComputeErr(error) => Err(error),
            _ => unreachable!(),
        }
    }
}

/// Asks what is to be done with a key, and does it, polled until that is logged, or failed.
pub type TryComputeWith<'a, K, V, E, C, L = NoListener, S = FixedSeed, P = Anything> = CacheCall<
    'a,
    ToTryCompute<'a, K>,
    K,
    V,
    E,
    ByCompute<C>,
    L,
    S,
    P,
>;

/// Asks what is to be done with a key, and does it, where no other compute of the key goes; polled
/// until that is logged, or failed.
pub type TryComputeAlone<'a, K, V, E, C, L = NoListener, S = FixedSeed, P = Anything> = CacheCall<
    'a,
    ToComputeAlone<'a, K>,
    K,
    V,
    E,
    ByCompute<C>,
    L,
    S,
    P,
>;

impl<'a, K, V, E, L, S, P> EntrySelector<'a, K, V, E, L, S, P>
where
    K: Eq + Hash + Exact,
    V: Exact,
    E: Exact,
    L: Listener<K, V>,
    S: BuildHasher + Drop,
    P: Fact<K, V>,
{
    /// Computes, as `and_compute_with` does. Where the compute gives an error, the call answers
    /// that, and what the key has stays.
    pub fn and_try_compute_with<C: Compute<K, V, E>>(
        self,
        compute: C,
    ) -> TryComputeWith<'a, K, V, E, C, L, S, P>
        requires fact { (value : V) → C.gives compute (Ok (op.Put value)) → P.holds
            (key_of self.key) value }
        ensures fresh { BeginsWith result.stage (λ begin. begin.key ≡ self.entry.key) }
        ensures may { MayPoll result.stage }
        ensures compute { result.asked.stage ≡ ComputeStage.Fresh compute }
        ensures tells { Tells K.eq (GivesOp C.gives result.asked) (called
            (rules_of result.cache.now) (λ begin. Start.TryCompute (key_of begin.key)))
            (λ named answer. try_computed_in answer) result.stage }
        // What it stores, tells and answers meets the fact.
        ensures so { MeetsFact K.eq P.holds (λ begin. None) (GivesOp C.gives result.asked) Untested
            (called (rules_of result.cache.now) (λ begin. Start.TryCompute (key_of begin.key)))
            result.stage result.named }
        ensures gives { GivesSo K.eq P.holds (Accords (GivesOp C.gives result.asked) Untested)
            (rules_of result.cache.now) (λ begin. Start.TryCompute (key_of begin.key))
            (λ begin. None) (λ named answer. try_computed_in answer) result.stage result.named
            (λ told. IfOk told (λ done. (value : V) → value_done done ≡ Some value → P.holds
            (key_of self.entry.key) value)) }
        ensures cache { result.cache.now ≡ self.entry.cache.now }
    {
        moka_shapes::computes_tell::<K, V, E>();
        let EntrySelector { cache, key } = self;
        let stage = ComputeStage::Fresh(compute);
        cache.call_asking(ToTryCompute { key }, ByCompute { stage })
    }

    /// Computes, as `and_try_compute_with` does, where no other compute of the key goes. Beside
    /// another it asks nothing, and answers what the key has: `Unchanged`, or `StillNone`.
    pub fn and_try_compute_if_nobody_else<C: Compute<K, V, E>>(
        self,
        compute: C,
    ) -> TryComputeAlone<'a, K, V, E, C, L, S, P>
        requires fact { (value : V) → C.gives compute (Ok (op.Put value)) → P.holds
            (key_of self.key) value }
        ensures fresh { BeginsWith result.stage (λ begin. begin.key ≡ self.entry.key) }
        ensures may { MayPoll result.stage }
        ensures compute { result.asked.stage ≡ ComputeStage.Fresh compute }
        ensures tells { Tells K.eq (GivesOp C.gives result.asked) (called
            (rules_of result.cache.now) (λ begin. Start.ComputeAlone (key_of begin.key)))
            (λ named answer. try_computed_in answer) result.stage }
        // What it stores, tells and answers meets the fact.
        ensures so { MeetsFact K.eq P.holds (λ begin. None) (GivesOp C.gives result.asked) Untested
            (called (rules_of result.cache.now) (λ begin. Start.ComputeAlone (key_of begin.key)))
            result.stage result.named }
        ensures gives { GivesSo K.eq P.holds (Accords (GivesOp C.gives result.asked) Untested)
            (rules_of result.cache.now) (λ begin. Start.ComputeAlone (key_of begin.key))
            (λ begin. None) (λ named answer. try_computed_in answer) result.stage result.named
            (λ told. IfOk told (λ done. (value : V) → value_done done ≡ Some value → P.holds
            (key_of self.entry.key) value)) }
        ensures cache { result.cache.now ≡ self.entry.cache.now }
    {
        moka_shapes::computes_tell::<K, V, E>();
        let EntrySelector { cache, key } = self;
        let stage = ComputeStage::Fresh(compute);
        cache.call_asking(ToComputeAlone { key }, ByCompute { stage })
    }
}
