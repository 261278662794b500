//! A machine whose calls are polled whole.
ghost use Rattle.std.specs.Prelude.{◌≡◌, ◌≢◌, ◌≤◌, ◌+◌, Some, None, true, false, IfOk, OnOk, OnErr};

use crate::no_tests::NoTests;
use crate::outcomes::{call_of, is_told, outcome_of};
use moka_hist::{Event, Reply, Rules, Start, Told};
use moka_machine::Machine;
use moka_small::Outcome;
use moka_table::EntryList;
use moka_values::Exact;
use std::alloc::{AllocError, Global};
use std::hash::Hash;

/// How many writes the log has room for, as in moka.
const LOG: usize = 384;

/// A cache on one thread whose calls are polled whole, without a listener and durations. What a poll
/// comes to is a function of a small state.
///
/// Want of memory spends a `PolledMachine`: from then on each call that can answer it does.
#[derive(Drop)]
pub struct PolledMachine<K: Eq + Hash, V, E> {
    machine: Machine<K, V, E, NoTests>,
    spent: bool,
}

impl<K: Eq + Hash + Exact, V: Exact, E: Exact> PolledMachine<K, V, E> {
    ghost use Rattle.moka_hist.specs.State.{State};
    ghost use Rattle.moka_hist.specs.declared.loads.Load.{Load};
    ghost use Rattle.moka_machine.specs.WantOfMemory.{MayStopServing};
    ghost use Rattle.moka_small.specs.Small.{Small, Stand, End, Was_told, empty, is_plain_start, started, with_stand};
    ghost use Rattle.moka_small.specs.Laws.{takes};
    ghost use Rattle.moka_small.specs.Polled.{gone_waiter, polled};
    ghost use Rattle.moka_small.specs.Seen.{answer_of};
    ghost use Rattle.moka_polled.specs.Polled.{AnswersGiven, AnySmall, AreEntries, is_end, IsLive, IsPolled, IsServed, IsSpent, IsTold, IsUsable, ListsStored, MayDrop, Takes, TakesAnswer};

    /// Builds an empty cache of this capacity, if one is given. A capacity of 0 stores nothing, and is
    /// out of scope here.
    pub fn new(alloc: Global, capacity: Option<u64>) -> Result<Self, AllocError>
        requires stores { capacity ≢ Some 0 }
        ensures empty { IfOk result (λ p. IsPolled K.eq p (empty capacity)) }
        ensures usable { IfOk result (λ p. IsUsable K.eq p AnySmall) }
    {
        PolledMachine::with_log(alloc, capacity, LOG)
    }

    /// Builds an empty cache whose log has room for this many writes, 1 to 65536. How long the log is
    /// makes no difference to what calls come to.
    pub fn with_log(alloc: Global, capacity: Option<u64>, log: usize) -> Result<Self, AllocError>
        requires stores { capacity ≢ Some 0 }
        requires least { 1 ≤ log }
        requires most { log ≤ 65536 }
        ensures empty { IfOk result (λ p. IsPolled K.eq p (empty capacity)) }
        ensures usable { IfOk result (λ p. IsUsable K.eq p AnySmall) }
    {
        moka_small::fresh_is_empty::<K, V, E>();
        let rules = Rules {
            max_capacity: capacity,
            time_to_live: None,
            time_to_idle: None,
            listener: false,
            closures: false,
        };
        match Machine::build(alloc, rules, log, 0, NoTests) {
            Ok(machine) => Ok(PolledMachine {
                machine,
                spent: false,
            }),
            Err(_) => Err(AllocError),
        }
    }

    /// Starts a call, and answers its number. The call has no replace test, is no compute and no walk,
    /// and invalidates neither all nor by a predicate. The end of the numbers counts as want of memory.
    pub fn start(&mut self, start: Start<K, V>) -> Result<u64, AllocError>
        requires plain { is_plain_start start ≡ true }
        requires usable { IsUsable K.eq self.old AnySmall }
        ensures started { IfOk result (λ call. (m : Small K V E) → IsPolled K.eq self.old m
            → (call ≡ m.last + 1) × IsPolled K.eq self.new (started m start)) }
        ensures usable { IsUsable K.eq self.new AnySmall }
        ensures spent { OnErr result (IsSpent self.new) }
        ensures stays { IsSpent self.old → OnOk result ⊥ }
    {
        moka_small::start_is_started::<K, V, E>();
        let reply = self.serve(Event::Start { start })?;
        match call_of(reply) {
            Some(call) => Ok(call),
            None => Err(self.spend()),
        }
    }

    /// Polls a live call up to where it waits, asks or answers, and tells what that came to.
    pub fn poll(&mut self, call: u64) -> Result<Outcome<V, E>, AllocError>
        requires live { IsUsable K.eq self.old (IsLive call) }
        ensures polled { IfOk result (λ outcome. (m : Small K V E) (stand : Stand K V E)
            → IsPolled K.eq self.old m → m.stands call ≡ Some stand
            → (outcome ≡ (polled K.eq m call stand).0)
            × IsPolled K.eq self.new (polled K.eq m call stand).1) }
        ensures given { IfOk result (λ outcome. (m : Small K V E) (stand : Stand K V E)
            → IsPolled K.eq self.old m → m.stands call ≡ Some stand
            → AnswersGiven K.eq m call stand outcome) }
        ensures usable { IsUsable K.eq self.new AnySmall }
        ensures spent { OnErr result (IsSpent self.new) }
        ensures stays { IsSpent self.old → OnOk result ⊥ }
    {
        match self.poll_if_live(call)? {
            Some(outcome) => Ok(outcome),
            None => unreachable!(),
        }
    }

    /// Polls a call, if it is live: one that was never started, has answered or was dropped comes to
    /// nothing, and nothing changes.
    pub fn poll_if_live(&mut self, call: u64) -> Result<Option<Outcome<V, E>>, AllocError>
        requires usable { IsUsable K.eq self.old AnySmall }
        ensures polled { IfOk result (λ outcome. (m : Small K V E) (stand : Stand K V E)
            → IsPolled K.eq self.old m → m.stands call ≡ Some stand
            → (outcome ≡ Some (polled K.eq m call stand).0)
            × IsPolled K.eq self.new (polled K.eq m call stand).1) }
        ensures given { IfOk result (λ came. (m : Small K V E) (stand : Stand K V E)
            (outcome : Outcome V E) → IsPolled K.eq self.old m → m.stands call ≡ Some stand
            → came ≡ Some outcome → AnswersGiven K.eq m call stand outcome) }
        ensures none { IfOk result (λ outcome. (m : Small K V E) → IsPolled K.eq self.old m
            → m.stands call ≡ None → (outcome ≡ None) × IsPolled K.eq self.new m) }
        ensures usable { IsUsable K.eq self.new AnySmall }
        ensures spent { OnErr result (IsSpent self.new) }
        ensures stays { IsSpent self.old → OnOk result ⊥ }
    {
        moka_small::poll_is_polled::<K, V, E>();
        moka_small::answers_are_given::<K, V, E>();
        let reply = self.serve(Event::Poll { call })?;
        Ok(outcome_of(reply))
    }

    /// Tells a call that asks how its initializer ended.
    pub fn tell(&mut self, call: u64, answer: Told<V, E>) -> Result<(), AllocError>
        requires asks { IsUsable K.eq self.old (TakesAnswer call answer) }
        ensures told { OnOk result ((m : Small K V E) (load : Load K) (end : End V E)
            → IsPolled K.eq self.old m → Takes call answer load end m
            → IsPolled K.eq self.new (with_stand m call (Some (Was_told load end)))) }
        ensures usable { IsUsable K.eq self.new AnySmall }
        ensures spent { OnErr result (IsSpent self.new) }
        ensures stays { IsSpent self.old → OnOk result ⊥ }
    {
        moka_small::tell_is_told::<K, V, E>();
        let _took = self.told(call, answer)?;
        Ok(())
    }

    /// Tells a call how its initializer ended, if it asks and takes such an answer, and answers whether
    /// it did. Else nothing changes.
    pub fn tell_if_asked(&mut self, call: u64, answer: Told<V, E>) -> Result<bool, AllocError>
        requires end { is_end answer ≡ true }
        requires usable { IsUsable K.eq self.old AnySmall }
        ensures told { IfOk result (λ took. (m : Small K V E) (load : Load K) (end : End V E)
            → IsPolled K.eq self.old m → Takes call answer load end m
            → (took ≡ true) × IsPolled K.eq self.new (with_stand m call (Some (Was_told load end)))) }
        ensures refused { IfOk result (λ took. (m : Small K V E) (end : End V E)
            → IsPolled K.eq self.old m → answer ≡ answer_of end → takes (m.stands call) end ≡ false
            → (took ≡ false) × IsPolled K.eq self.new m) }
        ensures usable { IsUsable K.eq self.new AnySmall }
        ensures spent { OnErr result (IsSpent self.new) }
        ensures stays { IsSpent self.old → OnOk result ⊥ }
    {
        moka_small::tell_is_told::<K, V, E>();
        self.told(call, answer)
    }

    /// Drops a live call for which no call waits. It takes no memory; a value that is spent does
    /// nothing.
    pub fn drop_call(&mut self, call: u64)
        requires alone { IsUsable K.eq self.old (MayDrop call) }
        ensures gone { (m : Small K V E) → IsPolled K.eq self.old m → MayDrop call m
            → IsPolled K.eq self.new (gone_waiter m call) }
        ensures usable { IsUsable K.eq self.new AnySmall }
        ensures stays { IsSpent self.old → IsSpent self.new }
    {
        moka_small::drop_is_gone::<K, V, E>();
        let _ = self.serve(Event::Drop { call });
    }

    /// Lists each stored pair once, in any order, with its stamp.
    pub fn entries(&self, alloc: Global) -> Result<EntryList<K, V>, AllocError>
        ensures entries { IfOk result (λ pairs. (m : Small K V E) → IsPolled K.eq self.now m
            → AreEntries K.eq pairs m.stored) }
        ensures listed { IfOk result (λ pairs. (m : Small K V E) → IsPolled K.eq self.now m
            → ListsStored K.eq pairs m.stored) }
        ensures stays { IsSpent self.now → OnOk result ⊥ }
    {
        moka_laws::stored_under_own_keys::<K, V, E>();
        if self.spent {
            return Err(AllocError);
        }
        self.machine.entries(alloc)
    }

    // Gives an answer to a call, and tells whether the call took it.
    fn told(&mut self, call: u64, answer: Told<V, E>) -> Result<bool, AllocError>
        requires usable { IsUsable K.eq self.old AnySmall }
        ensures serves { IfOk result (λ took. (m : Small K V E) → IsPolled K.eq self.old m
            → IsTold K.eq m call answer took self.new) }
        ensures spent { OnErr result (IsSpent self.new) }
        ensures stays { IsSpent self.old → OnOk result ⊥ }
    {
        let reply = self.serve(Event::Tell { call, answer })?;
        Ok(is_told(reply))
    }

    // Carries one event out, and lets it go.
    fn serve(&mut self, event: Event<K, V, E>) -> Result<Reply<K, V, E>, AllocError>
        requires usable { IsUsable K.eq self.old AnySmall }
        ensures serves { IfOk result (λ r. (m : Small K V E) → IsPolled K.eq self.old m
            → IsServed K.eq m event r self.new) }
        ensures needs { OnErr result ((m : Small K V E) → IsPolled K.eq self.old m
            → (s : State K V E) × MayStopServing s event) }
        ensures spent { OnErr result (IsSpent self.new) }
        ensures stays { IsSpent self.old → OnOk result ⊥ }
    {
        self.carry_out(&event)
    }

    // Carries one event out. Want of memory spends the value; it comes only where the event may need
    // some.
    fn carry_out(&mut self, event: &Event<K, V, E>) -> Result<Reply<K, V, E>, AllocError>
        requires usable { IsUsable K.eq self.old AnySmall }
        ensures serves { IfOk result (λ r. (m : Small K V E) → IsPolled K.eq self.old m
            → IsServed K.eq m event.now r self.new) }
        ensures needs { OnErr result ((m : Small K V E) → IsPolled K.eq self.old m
            → (s : State K V E) × MayStopServing s event.now) }
        ensures spent { OnErr result (IsSpent self.new) }
        ensures stays { IsSpent self.old → OnOk result ⊥ }
    {
        if self.spent {
            return Err(AllocError);
        }
        match self.machine.serve(event) {
            Ok(reply) => Ok(reply),
            Err(_) => Err(self.spend()),
        }
    }

    // Spends the value.
    fn spend(&mut self) -> AllocError
        ensures { self.new ≡ record self.old { spent = true } }
    {
        self.spent = true;
        AllocError
    }
}
