//! Computing what a key has.
ghost use Rattle.std.specs.Prelude.{◌≡◌, Some, None, Result, IsSome, IsOk, Ok};
ghost use Rattle.moka_laws.specs.Given.{value_done};
ghost use Rattle.moka_cache.specs.Asked.{Accords, Untested};
ghost use Rattle.moka_cache.specs.Meets.{GivesSo, MeetsFact};
ghost use Rattle.moka_hist.specs.declared.events.Op.TheVariants as op;
ghost use Rattle.moka_hist.specs.declared.events.Start.TheVariants as Start;
ghost use Rattle.moka_hist.specs.declared.events.Op.{Op};
ghost use Rattle.moka_cache.specs.Computes.{GivesOp};
ghost use Rattle.moka_cache.specs.Entries.{computed_in};
ghost use Rattle.moka_cache.specs.Keys.{key_of};
ghost use Rattle.moka_cache.specs.Settings.{rules_of};
ghost use Rattle.moka_cache.specs.Stages.{BeginsWith, MayPoll};
ghost use Rattle.moka_cache.specs.Starts.{called};
ghost use Rattle.moka_cache.specs.Suits.{Tells};

use crate::begin::{Begin, Begun};
use crate::by_compute::{ByCompute, ComputeStage};
use crate::call::CacheCall;
use crate::compute::Compute;
use crate::entry::EntrySelector;
use crate::key::CallKey;
use moka_facts::{Anything, Fact};
use moka_hist::{Answer, CompResult, Op, Start};
use moka_kept::{Listener, NoListener};
use moka_room::FixedSeed;
use moka_values::Exact;
use std::hash::{BuildHasher, Hash};

/// What a compute is of.
#[derive(Drop)]
pub struct ToCompute<'a, K> {
    key: CallKey<'a, K>,
}

impl<K: Exact, V: Drop, E: Drop> Begin<K, V, E> for ToCompute<'_, K> {
    type Output = CompResult<K, V>;

    ghost start = { λ compute. Start.Compute (key_of compute.key) };

    ghost named = { λ compute. None };

    ghost output = { λ named answer. computed_in answer };

    fn start(self) -> Result<Begun<K, V>, Self> {
        match self.key.into_key() {
            Ok(key) => Ok(Begun::unnamed(Start::Compute { key })),
            Err(key) => Err(ToCompute { key }),
        }
    }

    fn output(_key: Option<K>, answer: Answer<K, V, E>) -> CompResult<K, V>
        requires { IsSome (computed_in answer) }
        ensures told { Some result ≡ computed_in answer }
    {
        match answer {
            Answer::Computed(done) => done,
            _ => unreachable!(),
        }
    }
}

/// Asks what is to be done with a key, and does it, polled until that is logged.
pub type ComputeWith<'a, K, V, E, C, L = NoListener, S = FixedSeed, P = Anything> = CacheCall<
    'a,
    ToCompute<'a, K>,
    K,
    V,
    E,
    ByCompute<C>,
    L,
    S,
    P,
>;

impl<'a, K, V, E, L, S, P> EntrySelector<'a, K, V, E, L, S, P>
where
    K: Eq + Hash + Exact,
    V: Exact,
    E: Exact,
    L: Listener<K, V>,
    S: BuildHasher + Drop,
    P: Fact<K, V>,
{
    /// Waits until no other compute of the key goes, looks the key up, asks what is to be done with
    /// what it has, and does that. Answers what it has done.
    pub fn and_compute_with<C: Compute<K, V, E>>(
        self,
        compute: C,
    ) -> ComputeWith<'a, K, V, E, C, L, S, P>
        requires fine { (r : Result (Op V) E) → C.gives compute r → IsOk r }
        requires fact { (value : V) → C.gives compute (Ok (op.Put value)) → P.holds
            (key_of self.key) value }
        ensures fresh { BeginsWith result.stage (λ begin. begin.key ≡ self.entry.key) }
        ensures may { MayPoll result.stage }
        ensures compute { result.asked.stage ≡ ComputeStage.Fresh compute }
        ensures tells { Tells K.eq (GivesOp C.gives result.asked) (called
            (rules_of result.cache.now) (λ begin. Start.Compute (key_of begin.key)))
            (λ named answer. computed_in answer) result.stage }
        // What it stores, tells and answers meets the fact.
        ensures so { MeetsFact K.eq P.holds (λ begin. None) (GivesOp C.gives result.asked) Untested
            (called (rules_of result.cache.now) (λ begin. Start.Compute (key_of begin.key)))
            result.stage result.named }
        ensures gives { GivesSo K.eq P.holds (Accords (GivesOp C.gives result.asked) Untested)
            (rules_of result.cache.now) (λ begin. Start.Compute (key_of begin.key))
            (λ begin. None) (λ named answer. computed_in answer) result.stage result.named
            (λ done. (value : V) → value_done done ≡ Some value → P.holds (key_of self.entry.key)
            value) }
        ensures cache { result.cache.now ≡ self.entry.cache.now }
    {
        moka_shapes::computes_tell::<K, V, E>();
        let EntrySelector { cache, key } = self;
        let stage = ComputeStage::Fresh(compute);
        cache.call_asking(ToCompute { key }, ByCompute { stage })
    }
}
