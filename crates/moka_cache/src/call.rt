//! A call of a cache, as a state that is polled.
ghost use Rattle.std.specs.Prelude.{◌≡◌, ◌↔◌, Bool, Some, IfOk, IfErr, IsSome, OnOk, OnErr};
ghost use Rattle.moka_laws.specs.Starts.{key_started};
ghost use Rattle.std.specs.Option.{option_map};
ghost use Rattle.futures.specs.Poll.{IfReady, OnPending};
ghost use Rattle.futures.specs.Task.{IsArmed, Keeps};
ghost use Rattle.moka_cache.specs.Asked.{Accords, Untested};
ghost use Rattle.moka_cache.specs.Hearing.{Unheard};
ghost use Rattle.moka_cache.specs.Settings.{listener_of, rules_of};
ghost use Rattle.moka_hist.specs.declared.events.Told.{Told};
ghost use Rattle.moka_cache.specs.Polled.{KeepsName, StagePollIs};
ghost use Rattle.moka_cache.specs.Stages.{CameOnWith, IsNamed, MayPoll, StagePends};
ghost use Rattle.moka_cache.specs.Stages.{held_in, number_in};
ghost use Rattle.moka_cache.specs.Stays.{AskedStays, ContextStays};
ghost use Rattle.moka_cache.specs.Starts.{called};
ghost use Rattle.moka_cache.specs.Suits.{StateAnswers, Suits, Tells};
ghost use Rattle.moka_cache.specs.Meets.{AnswersSo, BringsSo, IsOwnKey, MeetsFact, TellsKey};
ghost use Rattle.moka_kept.specs.Facts.{facts};
ghost use Rattle.moka_kept.specs.Taking.{NoAnswer};

use crate::asked::{Asked, Nobody};
use crate::begin::Begin;
use crate::cache::Cache;
use crate::errors::PollError;
use crate::polled::State;
use crate::stage::{Nested, Stage, put};
use futures::task::{Context, Poll};
use moka_facts::{Anything, Fact};
use moka_hist::Answer;
use moka_kept::{Left, Listener, NoListener};
use moka_room::FixedSeed;
use moka_values::Exact;
use std::hash::{BuildHasher, Hash};
use std::marker::PhantomData;
use std::mem;
use std::sync::Wait;

/// A call of a cache, polled until it has answered. `A` is what it begins with, and `Q` who answers
/// its own ask, if it has one; `L`, `S` and `P` are those of its cache. The states of the calls by name,
/// as `Get`, are of this type.
///
/// It has no `Drop`: one that has answered is finished, and any other is cancelled.
pub struct CacheCall<
    'a,
    A,
    K: Eq + Hash,
    V,
    E,
    Q,
    L = NoListener,
    S: BuildHasher = FixedSeed,
    P: Fact<K, V> = Anything,
> {
    cache: &'a Cache<K, V, E, L, S, P>,
    stage: Stage<A, K, V, E>,
    named: Option<K>,
    asked: Q,
    nested: Nested<K, V, E>,
}

impl<K, V, E, L, S, P> Cache<K, V, E, L, S, P>
where
    K: Eq + Hash + Exact,
    V: Exact,
    E: Exact,
    L: Listener<K, V>,
    S: BuildHasher + Drop,
    P: Fact<K, V>,
{
    /// A call that is to begin so, and asks nothing. It takes no memory, number or lock before its
    /// first poll. What it brings is to meet the fact; what it answers does then.
    pub(crate) fn call<'a, A: Begin<K, V, E>>(
        &'a self,
        begin: A,
    ) -> CacheCall<'a, A, K, V, E, Nobody, L, S, P>
        requires keyed { IsSome (key_started (A.start begin)) }
        requires brings { BringsSo P.holds (A.start begin) }
        requires names { IsOwnKey (A.start begin) (A.named begin) }
        ensures so { MeetsFact K.eq P.holds A.named NoAnswer Untested
            (called (rules_of result.cache.now) A.start) result.stage result.named }
        ensures answers { AnswersSo K.eq P.holds NoAnswer Untested (A.start begin)
            (called (rules_of result.cache.now) A.start) result.stage }
        ensures stage { result.stage ≡ Stage.Fresh begin }
        ensures cache { result.cache.now ≡ self.now }
    {
        self.call_asking(begin, Nobody)
    }

    /// Makes a call that is to begin so, and whose own ask is answered by this one. It takes no
    /// memory, number or lock before its first poll. What it brings, and what is answered to its ask,
    /// is to meet the fact for its key; what it answers does then.
    pub(crate) fn call_asking<'a, A: Begin<K, V, E>, Q: Asked<K, V, E, P>>(
        &'a self,
        begin: A,
        asked: Q,
    ) -> CacheCall<'a, A, K, V, E, Q, L, S, P>
        requires keyed { IsSome (key_started (A.start begin)) }
        requires brings { BringsSo P.holds (A.start begin) }
        requires names { IsOwnKey (A.start begin) (A.named begin) }
        requires gives { TellsKey P.holds (A.start begin) (Q.gives asked) }
        ensures so { MeetsFact K.eq P.holds A.named (Q.gives result.asked) (Q.tests result.asked)
            (called (rules_of result.cache.now) A.start) result.stage result.named }
        ensures answers { AnswersSo K.eq P.holds (Q.gives result.asked) (Q.tests result.asked)
            (A.start begin) (called (rules_of result.cache.now) A.start) result.stage }
        ensures stage { result.stage ≡ Stage.Fresh begin }
        ensures asked { result.asked ≡ asked }
        ensures cache { result.cache.now ≡ self.now }
    {
        CacheCall {
            cache: self,
            stage: Stage::Fresh(begin),
            named: None,
            asked,
            nested: PhantomData,
        }
    }

    /// Goes on with a state at the moment. One that is fresh is begun first, and keeps the key that
    /// its answer needs; without memory for copies of its key it stays fresh.
    pub(crate) fn poll_stage<R: Wait, A: Begin<K, V, E>, Q: Asked<K, V, E, P>>(
        &self,
        rt: &R,
        stage: &mut Stage<A, K, V, E>,
        named: &mut Option<K>,
        asked: &mut Q,
        cx: &mut Context<'_>,
        moment: u64,
    ) -> Poll<Result<Answer<K, V, E>, PollError>>
        requires may { MayPoll stage.old }
        requires so { MeetsFact K.eq P.holds A.named (Q.gives asked.old) (Q.tests asked.old)
            (called (rules_of self.now) A.start) stage.old named.old }
        requires asks { Q.can_poll asked.old }
        requires hears { (l : L) (key : K) (value : V) → P.holds key value
            → L.hears l key value }
        ensures polled { StagePollIs (facts K.eq P.holds)
            (Accords (Q.gives asked.old) (Q.tests asked.old))
            (called (rules_of self.now) A.start) stage.old result stage.new }
        ensures names { KeepsName A.named stage.old named.old result stage.new named.new }
        ensures cause { OnPending result (StagePends K.eq Q.pends
            (Unheard L.pends (listener_of self.now)) asked.new stage.new) }
        ensures asked { AskedStays Q.can_poll Q.gives Q.tests asked.old asked.new }
        ensures context { ContextStays cx.old cx.new (Some result) }
    {
        match stage {
            Stage::Fresh(_) => self.begin(rt, stage, named, asked, cx, moment),
            Stage::Running(_) => self.advance(rt, stage, named, asked, cx, moment),
            Stage::Spent => Poll::Ready(Err(PollError::CallsSpent)),
            Stage::Answered => unreachable!(),
        }
    }

    // Begins the call of a state that is known to be fresh.
    fn begin<R: Wait, A: Begin<K, V, E>, Q: Asked<K, V, E, P>>(
        &self,
        rt: &R,
        stage: &mut Stage<A, K, V, E>,
        named: &mut Option<K>,
        asked: &mut Q,
        cx: &mut Context<'_>,
        moment: u64,
    ) -> Poll<Result<Answer<K, V, E>, PollError>>
        requires fresh { (begin : A) × (stage.old ≡ Stage.Fresh begin) }
        requires so { MeetsFact K.eq P.holds A.named (Q.gives asked.old) (Q.tests asked.old)
            (called (rules_of self.now) A.start) stage.old named.old }
        requires asks { Q.can_poll asked.old }
        requires hears { (l : L) (key : K) (value : V) → P.holds key value
            → L.hears l key value }
        ensures polled { StagePollIs (facts K.eq P.holds)
            (Accords (Q.gives asked.old) (Q.tests asked.old))
            (called (rules_of self.now) A.start) stage.old result stage.new }
        ensures names { KeepsName A.named stage.old named.old result stage.new named.new }
        ensures cause { OnPending result (StagePends K.eq Q.pends
            (Unheard L.pends (listener_of self.now)) asked.new stage.new) }
        ensures asked { AskedStays Q.can_poll Q.gives Q.tests asked.old asked.new }
        ensures context { ContextStays cx.old cx.new (Some result) }
    {
        match mem::replace(stage, Stage::Spent) {
            Stage::Fresh(begin) => self.begin_so(rt, begin, stage, named, asked, cx, moment),
            _ => unreachable!(),
        }
    }

    // Begins a call so. Its stage is made in its place, since a flow is large.
    fn begin_so<R: Wait, A: Begin<K, V, E>, Q: Asked<K, V, E, P>>(
        &self,
        rt: &R,
        begin: A,
        stage: &mut Stage<A, K, V, E>,
        named: &mut Option<K>,
        asked: &mut Q,
        cx: &mut Context<'_>,
        moment: u64,
    ) -> Poll<Result<Answer<K, V, E>, PollError>>
        requires spent { stage.old ≡ Stage.Spent }
        requires so { MeetsFact K.eq P.holds A.named (Q.gives asked.old) (Q.tests asked.old)
            (called (rules_of self.now) A.start) (Stage.Fresh begin) named.old }
        requires asks { Q.can_poll asked.old }
        requires hears { (l : L) (key : K) (value : V) → P.holds key value
            → L.hears l key value }
        ensures polled { StagePollIs (facts K.eq P.holds)
            (Accords (Q.gives asked.old) (Q.tests asked.old))
            (called (rules_of self.now) A.start) (Stage.Fresh begin) result stage.new }
        ensures names { KeepsName A.named (Stage.Fresh begin) named.old result stage.new
            named.new }
        ensures cause { OnPending result (StagePends K.eq Q.pends
            (Unheard L.pends (listener_of self.now)) asked.new stage.new) }
        ensures asked { AskedStays Q.can_poll Q.gives Q.tests asked.old asked.new }
        ensures context { ContextStays cx.old cx.new (Some result) }
    {
        match begin.start() {
            Ok(begun) => {
                *named = begun.named;
                self.enter(rt, begun.start, stage, named, asked, cx, moment)
            }
            Err(kept) => {
                put(stage, Stage::Fresh(kept));
                Poll::Ready(Err(PollError::Memory))
            }
        }
    }

    /// Lets a state go. Where its call was begun, and has not answered, that leaves as it stands,
    /// and those that wait for it are woken.
    pub(crate) fn let_go<R: Wait, A: Drop>(&self, rt: &R, stage: Stage<A, K, V, E>) -> Option<Left>
        ensures left { option_map (λ left. left.call) result ≡ number_in stage }
        ensures held { option_map (λ left. left.held) result ≡ held_in stage }
    {
        match stage {
            Stage::Running(flow) => Some(self.leave(rt, flow)),
            Stage::Fresh(begin) => {
                drop(begin);
                None
            }
            Stage::Spent => None,
            Stage::Answered => None,
        }
    }
}

impl<A, K, V, E, Q, L, S, P> CacheCall<'_, A, K, V, E, Q, L, S, P>
where
    A: Begin<K, V, E>,
    Q: Asked<K, V, E, P>,
    K: Eq + Hash + Exact,
    V: Exact,
    E: Exact,
    L: Listener<K, V>,
    S: BuildHasher + Drop,
    P: Fact<K, V>,
{
    /// Goes on at `moment`, in nanoseconds; one before the clock counts as the clock. Answers Ready
    /// once its call has answered. After `Memory` it can be polled again, and what was done stands;
    /// `CallsSpent` comes where the greatest number was given out before the call took one.
    pub fn poll<R: Wait>(
        &mut self,
        rt: &R,
        cx: &mut Context<'_>,
        moment: u64,
    ) -> Poll<Result<A::Output, PollError>>
        requires may { MayPoll self.old.stage }
        requires so { MeetsFact K.eq P.holds A.named (Q.gives self.old.asked)
            (Q.tests self.old.asked)
            (called (rules_of self.old.cache.now) A.start) self.old.stage self.old.named }
        requires asks { Q.can_poll self.old.asked }
        requires hears { (l : L) (key : K) (value : V) → P.holds key value
            → L.hears l key value }
        requires tells { Tells K.eq (Q.gives self.old.asked)
            (called (rules_of self.old.cache.now) A.start) A.output self.old.stage }
        // What was done.
        ensures answers { IfReady result (λ r. IfOk r
            (StateAnswers K.eq P.holds (Accords (Q.gives self.old.asked) (Q.tests self.old.asked))
            (rules_of self.old.cache.now) A.start A.named A.output
            self.old.stage self.old.named)) }
        ensures failed { IfReady result (λ r. OnErr r
            (CameOnWith (facts K.eq P.holds)
            (Accords (Q.gives self.old.asked) (Q.tests self.old.asked))
            (called (rules_of self.old.cache.now) A.start) self.old.stage self.new.stage)) }
        ensures came { OnPending result
            (CameOnWith (facts K.eq P.holds)
            (Accords (Q.gives self.old.asked) (Q.tests self.old.asked))
            (called (rules_of self.old.cache.now) A.start) self.old.stage self.new.stage) }
        // The key that its answer needs is kept.
        ensures names { OnPending result
            (IsNamed A.named self.old.stage self.old.named self.new.stage self.new.named) }
        ensures names_on { IfReady result (λ r. OnErr r
            (IsNamed A.named self.old.stage self.old.named self.new.stage self.new.named)) }
        // Why it answers nothing.
        ensures cause { OnPending result
            (StagePends K.eq Q.pends (Unheard L.pends (listener_of self.old.cache.now))
            self.new.asked self.new.stage) }
        ensures spent { IfReady result (λ r. IfErr r (λ e.
            (e ≡ PollError.CallsSpent) ↔ (self.new.stage ≡ Stage.Spent))) }
        // It can be polled again, until it has answered.
        ensures pending { OnPending result (MayPoll self.new.stage) }
        ensures again { IfReady result (λ r. OnErr r (MayPoll self.new.stage)) }
        ensures over { IfReady result (λ r. OnOk r (self.new.stage ≡ Stage.Answered)) }
        ensures suits { Suits K.eq A.start self.old.stage → Suits K.eq A.start self.new.stage }
        ensures tells { Tells K.eq (Q.gives self.new.asked)
            (called (rules_of self.new.cache.now) A.start) A.output self.new.stage }
        ensures so { MeetsFact K.eq P.holds A.named (Q.gives self.new.asked)
            (Q.tests self.new.asked)
            (called (rules_of self.new.cache.now) A.start) self.new.stage self.new.named }
        ensures cache { self.new.cache.now ≡ self.old.cache.now }
        // Who is asked can still be polled, and may give no other answer.
        ensures asks { Q.can_poll self.new.asked }
        ensures same { (told : Told V E) → Q.gives self.new.asked told
            → Q.gives self.old.asked told }
        ensures tested { (value : V) (replaced : Bool) → Q.tests self.new.asked value replaced
            → Q.tests self.old.asked value replaced }
        // The task is woken.
        ensures armed { OnPending result (IsArmed cx.new) }
        ensures kept { Keeps cx.old cx.new }
    {
        moka_laws::shapes_fit::<K, V, E>();
        match self.cache.poll_stage(
            rt,
            &mut self.stage,
            &mut self.named,
            &mut self.asked,
            cx,
            moment,
        ) {
            Poll::Ready(Ok(answer)) => Poll::Ready(Ok(A::output(self.named.take(), answer))),
            Poll::Ready(Err(e)) => Poll::Ready(Err(e)),
            Poll::Pending => Poll::Pending,
        }
    }

    /// Drops the call, whatever its last poll answered: under one hold of the lock it leaves, with
    /// the write that it held, which is left to others. Those that wait for it are woken. It takes
    /// no memory. Where no call was begun, or it has answered, it does nothing, and the answer is
    /// None.
    pub fn cancel<R: Wait>(self, rt: &R) -> Option<Left>
        ensures left { option_map (λ left. left.call) result ≡ number_in self.entry.stage }
        ensures held { option_map (λ left. left.held) result ≡ held_in self.entry.stage }
    {
        let CacheCall {
            cache,
            stage,
            named,
            asked,
            nested: _,
        } = self;
        drop(named);
        drop(asked);
        cache.let_go(rt, stage)
    }

    /// Lets a state go that has answered.
    pub fn finish(self)
        requires { self.stage ≡ Stage.Answered }
    {
        let CacheCall {
            cache: _,
            stage,
            named,
            asked,
            nested: _,
        } = self;
        drop(named);
        drop(asked);
        match stage {
            Stage::Answered => {}
            _ => unreachable!(),
        }
    }
}

impl<R, A, K, V, E, Q, L, S, P> State<R> for CacheCall<'_, A, K, V, E, Q, L, S, P>
where
    R: Wait,
    A: Begin<K, V, E>,
    Q: Asked<K, V, E, P>,
    K: Eq + Hash + Exact,
    V: Exact,
    E: Exact,
    L: Listener<K, V>,
    S: BuildHasher + Drop,
    P: Fact<K, V>,
{
    ghost use Rattle.moka_cache.specs.declared.stage.Stage.TheVariants as Stage;

    type Output = A::Output;

    ghost can_poll = { λ call. MayPoll call.stage × Q.can_poll call.asked
        × ((l : L) (key : K) (value : V) → P.holds key value → L.hears l key value)
        × MeetsFact K.eq P.holds A.named (Q.gives call.asked) (Q.tests call.asked)
        (called (rules_of call.cache.now) A.start) call.stage call.named
        × Tells K.eq (Q.gives call.asked)
        (called (rules_of call.cache.now) A.start) A.output call.stage };

    ghost gives = { λ call. StateAnswers K.eq P.holds
        (Accords (Q.gives call.asked) (Q.tests call.asked))
        (rules_of call.cache.now) A.start A.named A.output call.stage call.named };

    ghost is_spent = { λ call. call.stage ≡ Stage.Spent };

    fn poll(
        &mut self,
        rt: &R,
        cx: &mut Context<'_>,
        moment: u64,
    ) -> Poll<Result<A::Output, PollError>> {
        CacheCall::poll(self, rt, cx, moment)
    }

    fn cancel(self, rt: &R) {
        let _ = CacheCall::cancel(self, rt);
    }
}
