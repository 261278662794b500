//! A call that a thread runs to its end.
ghost use Rattle.std.specs.Prelude.{◌≡◌, Ok, Err, IfErr, IfOk, IsErrAnd};
ghost use Rattle.std.specs.IoError.{error_kind};
ghost use Rattle.moka_cache.specs.Asked.{Accords};
ghost use Rattle.moka_cache.specs.Errors.{kind_of};
ghost use Rattle.moka_cache.specs.Settings.{rules_of};
ghost use Rattle.moka_cache.specs.Stages.{MayPoll};
ghost use Rattle.moka_cache.specs.Starts.{called};
ghost use Rattle.moka_cache.specs.Meets.{MeetsFact};
ghost use Rattle.moka_cache.specs.Suits.{StateAnswers, Tells};

use crate::asked::Asked;
use crate::begin::Begin;
use crate::call::CacheCall;
use crate::errors::PollError;
use crate::moments::Moments;
use crate::polled::{Polled, State};
use futures::executor::block_on;
use moka_facts::Fact;
use moka_kept::Listener;
use moka_values::Exact;
use std::alloc::AllocGlobal;
use std::hash::{BuildHasher, Hash};
use std::io;
use std::random::RandomSource;
use std::sync::Wait;

impl<A, K, V, E, Q, L, S, P> CacheCall<'_, A, K, V, E, Q, L, S, P>
where
    A: Begin<K, V, E>,
    Q: Asked<K, V, E, P>,
    K: Eq + Hash + Exact,
    V: Exact,
    E: Exact,
    L: Listener<K, V>,
    S: BuildHasher + Drop,
    P: Fact<K, V>,
{
    /// Polls the call on this thread until it answers, each time at a moment that comes from there;
    /// while the call waits the thread sleeps. It is `futures::executor::block_on` of a `Polled` of
    /// the call.
    ///
    /// It is an error where no call number was left, as `PollError::CallsSpent` becomes one; and
    /// where there is no memory for the thread's task: the call is cancelled then. Where the call
    /// itself finds no memory it is polled again.
    pub fn block_on<R, M>(self, rt: &R, moments: M) -> io::Result<A::Output>
    where
        R: Wait + RandomSource + AllocGlobal,
        M: Moments + Drop,
        requires may { MayPoll self.stage }
        requires so { MeetsFact K.eq P.holds A.named (Q.gives self.asked) (Q.tests self.asked)
            (called (rules_of self.cache.now) A.start) self.stage self.named }
        requires asks { Q.can_poll self.asked }
        requires hears { (l : L) (key : K) (value : V) → P.holds key value
            → L.hears l key value }
        requires tells { Tells K.eq (Q.gives self.asked)
            (called (rules_of self.cache.now) A.start) A.output self.stage }
        // What its call may come to.
        ensures answers { IfOk result
            (StateAnswers K.eq P.holds (Accords (Q.gives self.entry.asked)
            (Q.tests self.entry.asked))
            (rules_of self.entry.cache.now) A.start A.named A.output
            self.entry.stage self.entry.named) }
    {
        run(rt, self, moments)
    }
}

// Runs a state to its answer. That a call is a future of its own is so shown for any state, once.
fn run<R, S, M>(rt: &R, state: S, moments: M) -> io::Result<S::Output>
where
    R: Wait + RandomSource + AllocGlobal,
    S: State<R>,
    M: Moments + Drop,
    requires { S.can_poll state }
    ensures answers { IfOk result (S.gives state) }
{
    answer_of(block_on(rt, Polled::new(rt, state, moments)))
}

// What a call answered that ran to its end. It is an error where the run was one, and where the call
// had none.
fn answer_of<T>(ended: io::Result<Result<T, PollError>>) -> io::Result<T>
    ensures answered { IfOk ended (λ r. IfOk r (λ answer. result ≡ Ok answer)) }
    ensures unanswered { IfOk ended (λ r. IfErr r (λ e.
        IsErrAnd result (λ told. error_kind told ≡ kind_of e))) }
    ensures failed { IfErr ended (λ e. result ≡ Err e) }
{
    Ok(ended??)
}
