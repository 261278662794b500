//! The polls of all states: steps under the lock, hold by hold.
ghost use Rattle.std.specs.Prelude.{◌≡◌, ◌⊎◌, ◌↔◌, ℕ, Option, Some, IfOk, IfErr, IfSome};
ghost use Rattle.std.specs.Prelude.{OnOk, OnErr};
ghost use Rattle.futures.specs.Poll.{IfReady, OnPending};
ghost use Rattle.futures.specs.Task.{IsArmed};
ghost use Rattle.moka_init.specs.FlowPlan.{call_of, tested_in};
ghost use Rattle.moka_kept.specs.Facts.{facts};
ghost use Rattle.moka_kept.specs.Meets.{CallMeets, FlowMeets, StopSo};
ghost use Rattle.moka_kept.specs.Rests.{Rests};
ghost use Rattle.moka_kept.specs.Taking.{Brings, NoAnswer, Taken};
ghost use Rattle.moka_cache.specs.Asked.{Accords, IsAskedFor};
ghost use Rattle.moka_cache.specs.Stays.{AskedStays, ContextStays};

use crate::asked::{Asked, is_polled};
use crate::cache::{Cache, Shared};
use crate::errors::PollError;
use crate::hearing::Turned;
use crate::stage::{Stage, end, keep, put};
use futures::task::{Context, Poll};
use moka_facts::Fact;
use moka_hist::{Answer, Start};
use moka_kept::{Brought, Entered, Heard, Left, Listener, Live, Stop};
use moka_values::Exact;
use std::hash::{BuildHasher, Hash};
use std::sync::Wait;

impl<K, V, E, L, S, P> Cache<K, V, E, L, S, P>
where
    K: Eq + Hash + Exact,
    V: Exact,
    E: Exact,
    L: Listener<K, V>,
    S: BuildHasher + Drop,
    P: Fact<K, V>,
{
    ghost use Rattle.moka_hist.specs.Plan.{held_by};
    ghost use Rattle.moka_hist.specs.Run.{fresh_call};
    ghost use Rattle.moka_hist.specs.State.{Call};
    ghost use Rattle.moka_init.specs.declared.flow.Flow.{Flow};
    ghost use Rattle.moka_kept.specs.Stops.{IsWaiting, StopIs, Waits};
    ghost use Rattle.moka_cache.specs.Polled.{FirstIs};
    ghost use Rattle.moka_cache.specs.Hearing.{StandsAtOne, Unheard, over_in};
    ghost use Rattle.moka_cache.specs.Polls.{CameToAsk, Pends, PollIs, TurnIs};
    ghost use Rattle.moka_cache.specs.Settings.{listener_of, rules_of};
    ghost use Rattle.moka_cache.specs.Stages.{AnswersWith, CameOnWith, IsNamed, MayPoll};
    ghost use Rattle.moka_cache.specs.Stages.{RunsSo, StageAsks, StagePends, name_in};

    /// Begins the call of this start in one hold of the lock, and goes on with it, up to where it
    /// waits, answers, or finds no memory. Its stage is made then; that keeps this key, if any.
    pub(crate) fn enter<R: Wait, A: Drop, Q: Asked<K, V, E, P>>(
        &self,
        rt: &R,
        start: Start<K, V>,
        stage: &mut Stage<A, K, V, E>,
        key: &Option<K>,
        asked: &mut Q,
        cx: &mut Context<'_>,
        moment: u64,
    ) -> Poll<Result<Answer<K, V, E>, PollError>>
        requires spent { stage.old ≡ Stage.Spent }
        requires so { (n : ℕ) → CallMeets (facts K.eq P.holds) key.now
            (Accords (Q.gives asked.old) (Q.tests asked.old)) n
            (fresh_call {E = E} 1 (rules_of self.now) start) }
        requires asks { Q.can_poll asked.old }
        requires hears { (l : L) (key : K) (value : V) → P.holds key value
            → L.hears l key value }
        ensures first { FirstIs (facts K.eq P.holds)
            (Accords (Q.gives asked.old) (Q.tests asked.old))
            (fresh_call 1 (rules_of self.now) start) result stage.new }
        // Who is asked is begun, polled, or asked its test, only where the call came to that.
        ensures unasked { (asked.new ≡ asked.old) ⊎ ((fresh : Flow K V E)
            × (call_of fresh ≡ fresh_call 1 (rules_of self.now) start)
            × CameToAsk (facts K.eq P.holds) (Accords (Q.gives asked.old) (Q.tests asked.old))
            fresh) }
        ensures cause { OnPending result (StagePends K.eq Q.pends
            (Unheard L.pends (listener_of self.now)) asked.new stage.new) }
        ensures asked { AskedStays Q.can_poll Q.gives Q.tests asked.old asked.new }
        ensures context { ContextStays cx.old cx.new (Some result) }
    {
        let shared: &Shared<K, V, E, L, S, P> = &self.shared;
        match shared.guarded.begin(rt, start, key, cx, moment) {
            Entered::Spent => Poll::Ready(Err(PollError::CallsSpent)),
            Entered::Answers(answer) => {
                put(stage, Stage::Answered);
                Poll::Ready(Ok(answer))
            }
            Entered::Goes(flow, stop) => {
                let mut flow = flow;
                let poll = self.follow(rt, &mut flow, stop, key, asked, cx, moment);
                keep(stage, flow, poll)
            }
        }
    }

    // Goes on with the call of the flow, which its first hold left so.
    fn follow<R: Wait, Q: Asked<K, V, E, P>>(
        &self,
        rt: &R,
        flow: &mut Live<K, V, E>,
        stop: Stop<K, V, E>,
        key: &Option<K>,
        asked: &mut Q,
        cx: &mut Context<'_>,
        moment: u64,
    ) -> Poll<Result<Answer<K, V, E>, PollError>>
        requires left { (fresh : Flow K V E) × StopIs (facts K.eq P.holds) NoAnswer fresh stop
            flow.old × FlowMeets (facts K.eq P.holds) key.now
            (Accords (Q.gives asked.old) (Q.tests asked.old)) fresh }
        requires waits { IsWaiting stop → IsArmed cx.old }
        requires so { StopSo (facts K.eq P.holds) stop }
        requires asks { Q.can_poll asked.old }
        requires hears { (l : L) (key : K) (value : V) → P.holds key value
            → L.hears l key value }
        ensures polled { (fresh : Flow K V E)
            → StopIs (facts K.eq P.holds) NoAnswer fresh stop flow.old
            → PollIs (facts K.eq P.holds) (Accords (Q.gives asked.old) (Q.tests asked.old))
            fresh result flow.new }
        // Who is asked is begun, polled, or asked its test, only where the call came to that.
        ensures unasked { (fresh : Flow K V E)
            → StopIs (facts K.eq P.holds) NoAnswer fresh stop flow.old
            → (asked.new ≡ asked.old) ⊎ CameToAsk (facts K.eq P.holds)
            (Accords (Q.gives asked.old) (Q.tests asked.old)) fresh }
        ensures cause { OnPending result (Pends K.eq Q.pends
            (Unheard L.pends (listener_of self.now)) asked.new flow.new) }
        ensures asked { AskedStays Q.can_poll Q.gives Q.tests asked.old asked.new }
        ensures context { ContextStays cx.old cx.new (Some result) }
    {
        let shared: &Shared<K, V, E, L, S, P> = &self.shared;
        match shared.after(flow, stop, asked, cx) {
            Turned::Over(poll) => poll,
            Turned::On(heard) => self.go_on(rt, flow, key, asked, heard, cx, moment),
        }
    }

    /// Goes on with a state at the moment whose call was begun, and which keeps this key, if any. Where
    /// its own ask is open who answers it is polled.
    pub(crate) fn advance<R: Wait, A: Drop, Q: Asked<K, V, E, P>>(
        &self,
        rt: &R,
        stage: &mut Stage<A, K, V, E>,
        key: &Option<K>,
        asked: &mut Q,
        cx: &mut Context<'_>,
        moment: u64,
    ) -> Poll<Result<Answer<K, V, E>, PollError>>
        requires may { MayPoll stage.old }
        requires begun { (flow : Flow K V E) × (stage.old ≡ Stage.Running flow) }
        requires so { RunsSo (facts K.eq P.holds) key.now
            (Accords (Q.gives asked.old) (Q.tests asked.old)) stage.old }
        requires asks { Q.can_poll asked.old }
        requires hears { (l : L) (key : K) (value : V) → P.holds key value
            → L.hears l key value }
        // What was done.
        ensures answers { IfReady result (λ r. IfOk r (λ answer. (begins : A → Call K V E)
            → AnswersWith (facts K.eq P.holds) (Accords (Q.gives asked.old) (Q.tests asked.old))
            begins stage.old answer)) }
        ensures failed { IfReady result (λ r. OnErr r ((begins : A → Call K V E)
            → CameOnWith (facts K.eq P.holds) (Accords (Q.gives asked.old) (Q.tests asked.old))
            begins stage.old stage.new)) }
        ensures came { OnPending result ((begins : A → Call K V E)
            → CameOnWith (facts K.eq P.holds) (Accords (Q.gives asked.old) (Q.tests asked.old))
            begins stage.old stage.new) }
        // Why it isn't ready.
        ensures cause { OnPending result (StagePends K.eq Q.pends
            (Unheard L.pends (listener_of self.now)) asked.new stage.new) }
        ensures spent { IfReady result (λ r. IfErr r (λ e.
            (e ≡ PollError.CallsSpent) ↔ (stage.new ≡ Stage.Spent))) }
        // Who is asked is begun, polled, or asked its test, only where the call came to that.
        ensures unasked { (asked.new ≡ asked.old)
            ⊎ StageAsks (facts K.eq P.holds) (Accords (Q.gives asked.old) (Q.tests asked.old))
            stage.old }
        // It can be polled again, until it has answered.
        ensures pending { OnPending result (MayPoll stage.new) }
        ensures again { IfReady result (λ r. OnErr r (MayPoll stage.new)) }
        ensures over { IfReady result (λ r. OnOk r (stage.new ≡ Stage.Answered)) }
        // It was begun before, where its call goes on.
        ensures names { OnPending result ((names : A → Option K) (kept : Option K)
            → IsNamed names stage.old kept stage.new kept) }
        ensures names_on { IfReady result (λ r. OnErr r ((names : A → Option K) (kept : Option K)
            → IsNamed names stage.old kept stage.new kept)) }
        ensures begun { IfReady result (λ r. OnOk r ((names : A → Option K) (kept : Option K)
            → name_in names stage.old kept ≡ kept)) }
        // Who is asked can still be polled, and may give no other answer.
        ensures asked { AskedStays Q.can_poll Q.gives Q.tests asked.old asked.new }
        // The task is woken.
        ensures context { ContextStays cx.old cx.new (Some result) }
    {
        match stage {
            Stage::Running(flow) => match self.go_on(rt, flow, key, asked, None, cx, moment) {
                Poll::Ready(Ok(answer)) => {
                    end(stage);
                    Poll::Ready(Ok(answer))
                }
                Poll::Ready(Err(e)) => Poll::Ready(Err(e)),
                Poll::Pending => Poll::Pending,
            },
            _ => unreachable!(),
        }
    }

    // Goes on with the call of the flow at the moment, up to where it waits, answers, or finds no
    // memory. What the listener has answered, if it has, is told first. What was done stands.
    fn go_on<R: Wait, Q: Asked<K, V, E, P>>(
        &self,
        rt: &R,
        flow: &mut Live<K, V, E>,
        key: &Option<K>,
        asked: &mut Q,
        first: Option<Heard>,
        cx: &mut Context<'_>,
        moment: u64,
    ) -> Poll<Result<Answer<K, V, E>, PollError>>
        requires rests { Rests flow.old }
        requires so { FlowMeets (facts K.eq P.holds) key.now
            (Accords (Q.gives asked.old) (Q.tests asked.old)) flow.old }
        requires asks { Q.can_poll asked.old }
        requires hears { (l : L) (key : K) (value : V) → P.holds key value
            → L.hears l key value }
        ensures polled { PollIs (facts K.eq P.holds)
            (Accords (Q.gives asked.old) (Q.tests asked.old))
            flow.old result flow.new }
        // Who is asked is begun, polled, or asked its test, only where the call came to that.
        ensures unasked { (asked.new ≡ asked.old)
            ⊎ CameToAsk (facts K.eq P.holds) (Accords (Q.gives asked.old) (Q.tests asked.old))
            flow.old }
        ensures cause { OnPending result (Pends K.eq Q.pends
            (Unheard L.pends (listener_of self.now)) asked.new flow.new) }
        ensures asked { AskedStays Q.can_poll Q.gives Q.tests asked.old asked.new }
        ensures context { ContextStays cx.old cx.new (Some result) }
    {
        let mut heard = first;
        for _ in rt.forever() {
            match self.turn(rt, flow, key, asked, heard, cx, moment) {
                Turned::Over(poll) => return poll,
                Turned::On(next) => heard = next,
            }
        }
        unreachable!()
    }

    // Makes a turn. What the listener has answered is told first, and who is asked is polled in a
    // turn that has nothing to tell.
    fn turn<R: Wait, Q: Asked<K, V, E, P>>(
        &self,
        rt: &R,
        flow: &mut Live<K, V, E>,
        key: &Option<K>,
        asked: &mut Q,
        heard: Option<Heard>,
        cx: &mut Context<'_>,
        moment: u64,
    ) -> Turned<Result<Answer<K, V, E>, PollError>>
        requires rests { Rests flow.old }
        requires so { FlowMeets (facts K.eq P.holds) key.now
            (Accords (Q.gives asked.old) (Q.tests asked.old)) flow.old }
        requires asks { Q.can_poll asked.old }
        requires hears { (l : L) (key : K) (value : V) → P.holds key value
            → L.hears l key value }
        ensures turns { TurnIs (facts K.eq P.holds)
            (Accords (Q.gives asked.old) (Q.tests asked.old))
            flow.old (over_in result) flow.new }
        ensures unasked { (asked.new ≡ asked.old)
            ⊎ CameToAsk (facts K.eq P.holds) (Accords (Q.gives asked.old) (Q.tests asked.old))
            flow.old }
        ensures cause { IfSome (over_in result) (λ poll. OnPending poll (Pends K.eq Q.pends
            (Unheard L.pends (listener_of self.now)) asked.new flow.new)) }
        ensures asked { AskedStays Q.can_poll Q.gives Q.tests asked.old asked.new }
        ensures context { ContextStays cx.old cx.new (over_in result) }
    {
        match heard {
            Some(heard) => {
                self.round(
                    rt,
                    flow,
                    key,
                    asked,
                    Brought::Nothing,
                    Some(heard),
                    cx,
                    moment,
                )
            }
            None => self.ask(rt, flow, key, asked, cx, moment),
        }
    }

    // Polls who is asked, where the own ask of the flow is open; asks its replace test, where the
    // next visit judges a record by that. Once the own ask is answered, or where none is open, it
    // makes steps in one hold of the lock, and what follows it.
    fn ask<R: Wait, Q: Asked<K, V, E, P>>(
        &self,
        rt: &R,
        flow: &mut Live<K, V, E>,
        key: &Option<K>,
        asked: &mut Q,
        cx: &mut Context<'_>,
        moment: u64,
    ) -> Turned<Result<Answer<K, V, E>, PollError>>
        requires rests { Rests flow.old }
        requires so { FlowMeets (facts K.eq P.holds) key.now
            (Accords (Q.gives asked.old) (Q.tests asked.old)) flow.old }
        requires asks { Q.can_poll asked.old }
        requires hears { (l : L) (key : K) (value : V) → P.holds key value
            → L.hears l key value }
        ensures turns { TurnIs (facts K.eq P.holds)
            (Accords (Q.gives asked.old) (Q.tests asked.old))
            flow.old (over_in result) flow.new }
        ensures unasked { (asked.new ≡ asked.old)
            ⊎ CameToAsk (facts K.eq P.holds) (Accords (Q.gives asked.old) (Q.tests asked.old))
            flow.old }
        ensures cause { IfSome (over_in result) (λ poll. OnPending poll (Pends K.eq Q.pends
            (Unheard L.pends (listener_of self.now)) asked.new flow.new)) }
        ensures asked { AskedStays Q.can_poll Q.gives Q.tests asked.old asked.new }
        ensures context { ContextStays cx.old cx.new (over_in result) }
    {
        if !is_polled::<K, V, E, Q, P>(asked, flow) {
            let brought = ask_test::<K, V, E, Q, P>(asked, flow);
            return self.round(rt, flow, key, asked, brought, None, cx, moment);
        }
        match asked.poll(cx) {
            Poll::Ready(Some(answer)) => {
                self.round(
                    rt,
                    flow,
                    key,
                    asked,
                    Brought::Told(answer),
                    None,
                    cx,
                    moment,
                )
            }
            Poll::Ready(None) => Turned::Over(Poll::Ready(Err(PollError::Memory))),
            Poll::Pending => Turned::Over(Poll::Pending),
        }
    }

    // Makes steps in one hold of the lock, and what follows it. Where an answer of who is asked was
    // brought, the first step goes by that. Where the ask of a compute is opened who is asked
    // begins.
    #[inline(always)]
    fn round<R: Wait, Q: Asked<K, V, E, P>>(
        &self,
        rt: &R,
        flow: &mut Live<K, V, E>,
        key: &Option<K>,
        asked: &mut Q,
        brought: Brought<V, E>,
        heard: Option<Heard>,
        cx: &mut Context<'_>,
        moment: u64,
    ) -> Turned<Result<Answer<K, V, E>, PollError>>
        requires rests { Rests flow.old }
        requires so { FlowMeets (facts K.eq P.holds) key.now
            (Brings (tested_in (call_of flow.old).plan) brought) flow.old }
        requires asks { Q.can_poll asked.old }
        requires hears { (l : L) (key : K) (value : V) → P.holds key value
            → L.hears l key value }
        ensures turns { TurnIs (facts K.eq P.holds)
            (Brings (tested_in (call_of flow.old).plan) brought)
            flow.old (over_in result) flow.new }
        ensures unasked { (asked.new ≡ asked.old)
            ⊎ CameToAsk (facts K.eq P.holds) (Brings (tested_in (call_of flow.old).plan) brought)
            flow.old }
        ensures cause { IfSome (over_in result) (λ poll. OnPending poll (Waits K.eq flow.new
            ⊎ StandsAtOne K.eq (Unheard L.pends (listener_of self.now)) flow.new)) }
        ensures asked { AskedStays Q.can_poll Q.gives Q.tests asked.old asked.new }
        ensures context { ContextStays cx.old cx.new (over_in result) }
    {
        let shared: &Shared<K, V, E, L, S, P> = &self.shared;
        let stop = shared
            .guarded
            .hold(rt, flow, key, brought, heard, cx, moment);
        shared.after(flow, stop, asked, cx)
    }

    /// Lets the call of the flow leave, where it stands, and wakes those that wait for it.
    pub(crate) fn leave<R: Wait>(&self, rt: &R, flow: Live<K, V, E>) -> Left
        ensures call { result.call ≡ flow.call }
        ensures held { result.held ≡ held_by (call_of flow).plan }
    {
        let shared: &Shared<K, V, E, L, S, P> = &self.shared;
        shared.guarded.leave(rt, flow)
    }
}

// What the next hold is brought where no ask of the call is open: the answer of its replace test,
// where its next visit judges a record by that, which meets the fact. A call that waits for another is
// never asked.
fn ask_test<K: Eq, V, E, Q: Asked<K, V, E, P>, P: Fact<K, V>>(
    asked: &mut Q,
    flow: &Live<K, V, E>,
) -> Brought<V, E>
    requires asks { Q.can_poll asked.old }
    requires so { (value : V) → tested_in (call_of flow.now).plan ≡ Some value
        → (key : K) × P.holds key value }
    ensures brings { (taken : Taken V E)
        → Brings (tested_in (call_of flow.now).plan) result taken
        → Accords (Q.gives asked.old) (Q.tests asked.old) taken }
    ensures once { IsAskedFor Q.asks (tested_in (call_of flow.now).plan) asked.old result
        asked.new }
    ensures asked { AskedStays Q.can_poll Q.gives Q.tests asked.old asked.new }
{
    match flow.tested() {
        Some(value) => Brought::Tested(asked.replaces(value)),
        None => Brought::Nothing,
    }
}
