//! Steps and polls of the live calls.
ghost use Rattle.std.specs.Prelude.{◌≡◌, ◌<◌, ℕ, Option, Some, None, IfOk, IfErr, IfSome, IfNone, OnErr, OnSome};
ghost use Rattle.moka_hist.specs.Finite.{put_at};

use crate::call_places::Running;
use crate::machine::Machine;
use moka_hist::{Answer, Refusal, Reply, Tests, Turn};
use moka_init::{Flow, Unfinished, poll, step};
use moka_values::Exact;
use std::alloc::AllocError;
use std::hash::Hash;

impl<K: Eq + Hash + Exact, V: Exact, E: Exact, T: Tests<K, V> + Drop> Machine<K, V, E, T> {
    ghost use Rattle.moka_hist.specs.State.{Call, State, World};
    ghost use Rattle.moka_hist.specs.Run.{reply_of};
    ghost use Rattle.moka_hist.specs.declared.events.Event.{Event};
    ghost use Rattle.moka_hist.specs.Step.{May, IsSafe};
    ghost use Rattle.moka_init.specs.FlowPlan.{Leaves, call_of, left_in};
    ghost use Rattle.moka_init.specs.Grounds.{IsOn, access_at};
    ghost use Rattle.moka_layers.specs.Needing.{StepNeedsMemory};
    ghost use Rattle.moka_layers.specs.Layers.{account_of};
    ghost use Rattle.moka_machine.specs.Calls.{HasPlace};
    ghost use Rattle.moka_machine.specs.Machine.{MachineIs, Reaches, Without, TakenOut, IsOut};
    ghost use Rattle.moka_machine.specs.Machine.{IsValid, ServesEvent, KeepsState};
    ghost use Rattle.moka_machine.specs.Machine.{Stops, StepOut, KeepsOut, PollOut, UnfinishedOut};
    ghost use Rattle.moka_machine.specs.WantOfMemory.{CallNeedsMemory};
    ghost use Rattle.moka_machine.specs.TheTable.{the_table};

    /// Makes one step of a call. After want of memory nothing has changed.
    pub(crate) fn step(&mut self, call: u64) -> Result<Reply<K, V, E>, AllocError>
        requires valid { IsValid K.eq T.Tests self.old }
        ensures serves { IfOk result (λ r.
            ServesEvent K.eq T.Tests self.old (Event.Step call) r self.new) }
        ensures err { OnErr result (KeepsState K.eq T.Tests self.old self.new) }
        ensures err_needs { OnErr result ((s : State K V E) → MachineIs K.eq T.Tests self.new s
            → CallNeedsMemory s call) }
    {
        moka_laws::calls_are_safe::<K, V, E>();
        moka_laws::move_is_step::<K, V, E>();
        match self.take_out(call) {
            None => Ok(Reply::Refused(Refusal::UnknownCall)),
            Some(flow) => self.step_out(call, flow),
        }
    }

    /// Makes steps of a call up to the first whose reply is not Going. After want of memory the
    /// steps made so far stand.
    pub(crate) fn poll(&mut self, call: u64) -> Result<Reply<K, V, E>, Unfinished>
        requires valid { IsValid K.eq T.Tests self.old }
        ensures serves { IfOk result (λ r.
            ServesEvent K.eq T.Tests self.old (Event.Poll call) r self.new) }
        ensures stops { IfErr result (λ u.
            Stops K.eq T.Tests self.old (Event.Poll call) u.steps self.new) }
        ensures needs { OnErr result ((s : State K V E) → MachineIs K.eq T.Tests self.new s
            → CallNeedsMemory s call) }
    {
        moka_laws::calls_are_safe::<K, V, E>();
        moka_laws::moves_are_steps::<K, V, E>();
        moka_laws::polled_is_poll::<K, V, E>();
        moka_laws::logs_have_room::<K, V, E>();
        match self.take_out(call) {
            None => Ok(Reply::Refused(Refusal::UnknownCall)),
            Some(flow) => self.poll_out(call, flow),
        }
    }

    /// Takes a live call out, with the table operation that it has begun. Until it is put back, or
    /// its place given up, the machine is the ground of this call alone.
    #[inline(always)]
    pub fn take_out(&mut self, call: u64) -> Option<Box<Flow<K, V, E>>>
        ensures none { IfNone result ((s : State K V E) → MachineIs K.eq T.Tests self.old s
            → (s.calls call ≡ None)) }
        ensures same { IfNone result (KeepsState K.eq T.Tests self.old self.new) }
        ensures some { IfSome result (λ flow. (s : State K V E) → MachineIs K.eq T.Tests self.old s
            → TakenOut K.eq T.Tests self.new call flow.value s
            × IsOut K.eq self.new flow.value) }
        ensures place { OnSome result (HasPlace self.new.calls call) }
    {
        match self.calls.take(call) {
            Some(running) => Some(self.lend(call, running)),
            None => None,
        }
    }

    // The flow of a running call, whose table operation the layers take over.
    fn lend(&mut self, call: u64, running: Running<K, V, E>) -> Box<Flow<K, V, E>>
        ensures flow { result.value ≡ running.flow.value }
        ensures machine { self.new ≡ record self.old {
          layers = record self.old.layers { call = call; begun = running.begun };
        } }
    {
        let Running { flow, begun } = running;
        self.layers.call = call;
        self.layers.begun = begun;
        flow
    }

    /// Puts the call back that was taken out.
    #[inline(always)]
    pub fn put_in(&mut self, call: u64, flow: Box<Flow<K, V, E>>)
        requires place { HasPlace self.old.calls call }
        ensures { (others : ℕ → Option (Call K V E)) (w : World K V E)
            → Without K.eq T.Tests self.old call others w → IsOut K.eq self.old flow.value
            → MachineIs K.eq T.Tests self.new
            (record { world = w; calls = put_at others call (Some (call_of flow.value)) }) }
    {
        let begun = self.layers.begun.take();
        self.calls.put_back(call, Running { flow, begun });
    }

    // The call has ended, and gives its place up.
    #[inline(always)]
    pub(crate) fn end(&mut self, call: u64)
        ensures stands { (others : ℕ → Option (Call K V E)) (w : World K V E)
            → Without K.eq T.Tests self.old call others w
            → MachineIs K.eq T.Tests self.new
            (record { world = w; calls = put_at others call None }) }
        ensures begun { self.new.layers.begun ≡ None }
    {
        self.layers.begun = None;
        self.calls.forget(call);
    }

    /// The call that was taken out has made a step: it is put back, or has ended.
    #[inline(always)]
    pub fn after_step(
        &mut self,
        call: u64,
        flow: Box<Flow<K, V, E>>,
        turn: Turn<K, V, E>,
    ) -> Reply<K, V, E>
        requires place { HasPlace self.old.calls call }
        ensures reply { result ≡ reply_of turn }
        ensures stands { (others : ℕ → Option (Call K V E)) (w : World K V E)
            → Without K.eq T.Tests self.old call others w
            → IsOn (account_of (the_table K.eq) self.old.layers) flow.value → Leaves turn flow.value
            → MachineIs K.eq T.Tests self.new
            (record { world = w; calls = put_at others call (left_in turn flow.value) }) }
    {
        match turn {
            Turn::Answer(answer) => self.end_with(call, flow, answer),
            Turn::Going => self.put_in_with(call, flow, Reply::Going),
            Turn::Wait => self.put_in_with(call, flow, Reply::Wait),
            Turn::Ask(ask) => self.put_in_with(call, flow, Reply::Ask(ask)),
            Turn::Item(key, value) => self.put_in_with(call, flow, Reply::Item(key, value)),
        }
    }

    // The call that was taken out has answered this, and gives its place up.
    #[inline(always)]
    fn end_with(
        &mut self,
        call: u64,
        flow: Box<Flow<K, V, E>>,
        answer: Answer<K, V, E>,
    ) -> Reply<K, V, E>
        ensures reply { result ≡ Reply.Answer answer }
        ensures stands { (others : ℕ → Option (Call K V E)) (w : World K V E)
            → Without K.eq T.Tests self.old call others w
            → MachineIs K.eq T.Tests self.new
            (record { world = w; calls = put_at others call None }) }
    {
        self.layers.begun = None;
        self.calls.end(call, flow);
        Reply::Answer(answer)
    }

    // Puts the call back that was taken out, and replies this.
    #[inline(always)]
    fn put_in_with(
        &mut self,
        call: u64,
        flow: Box<Flow<K, V, E>>,
        reply: Reply<K, V, E>,
    ) -> Reply<K, V, E>
        requires place { HasPlace self.old.calls call }
        ensures reply { result ≡ reply }
        ensures stands { (others : ℕ → Option (Call K V E)) (w : World K V E)
            → Without K.eq T.Tests self.old call others w → IsOut K.eq self.old flow.value
            → MachineIs K.eq T.Tests self.new
            (record { world = w; calls = put_at others call (Some (call_of flow.value)) }) }
    {
        self.put_in(call, flow);
        reply
    }

    // Makes a step of the call that was taken out, and puts it back unless it has ended.
    fn step_out(
        &mut self,
        call: u64,
        mut flow: Box<Flow<K, V, E>>,
    ) -> Result<Reply<K, V, E>, AllocError>
        requires place { HasPlace self.old.calls call }
        requires out { IsOut K.eq self.old flow.value }
        requires may { (w : World K V E) × Reaches K.eq T.Tests self.old w
            × May w (access_at flow.value) }
        ensures steps { IfOk result (λ r. StepOut K.eq T.Tests self.old call flow.value r self.new) }
        ensures err { OnErr result (KeepsOut K.eq T.Tests self.old call flow.value self.new) }
        ensures err_needs { OnErr result ((w : World K V E) → Reaches K.eq T.Tests self.old w
            → May w (access_at flow.value) → StepNeedsMemory w (access_at flow.value)) }
    {
        match step(&mut *flow, self) {
            Ok(turn) => Ok(self.after_step(call, flow, turn)),
            Err(e) => {
                self.put_in(call, flow);
                Err(e)
            }
        }
    }

    // Makes steps of the call that was taken out, up to the first that doesn't leave it going, and
    // puts it back unless it has ended.
    #[inline(always)]
    fn poll_out(
        &mut self,
        call: u64,
        mut flow: Box<Flow<K, V, E>>,
    ) -> Result<Reply<K, V, E>, Unfinished>
        requires place { HasPlace self.old.calls call }
        requires out { IsOut K.eq self.old flow.value }
        requires safe { (w : World K V E) × Reaches K.eq T.Tests self.old w
            × IsSafe K.eq flow.value.call (call_of flow.value) w × (0 < w.desk.size) }
        ensures polls { IfOk result (λ r. PollOut K.eq T.Tests self.old call flow.value r self.new) }
        ensures unfinished { IfErr result (λ u.
            UnfinishedOut K.eq T.Tests self.old call flow.value u.steps self.new) }
    {
        match poll(&mut *flow, self) {
            Ok(turn) => Ok(self.after_step(call, flow, turn)),
            Err(stopped) => {
                self.put_in(call, flow);
                Err(stopped)
            }
        }
    }
}
