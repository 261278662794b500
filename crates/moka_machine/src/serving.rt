//! The events of a schedule, one at a time.
ghost use Rattle.std.specs.Prelude.{◌≡◌, ◌<◌, ℕ, Some, None, IsSome, IfOk, IfErr, is_ok, false, OnOk, OnErr, MatchResult, if◌then◌else◌};
ghost use Rattle.std.specs.HashMap.{spare};
ghost use Rattle.moka_machine.specs.WantOfMemory.{ToldNeedsMemory};

use crate::call_places::Running;
use crate::machine::Machine;
use moka_hist::{Mode, Refusal, Reply, Start, Tests, Told};
use moka_init::{Flow, Unfinished};
use moka_table::Table;
use moka_values::Exact;
use std::alloc::AllocError;
use std::hash::Hash;

impl<K: Eq + Hash + Exact, V: Exact, E: Exact, T: Tests<K, V> + Drop> Machine<K, V, E, T> {
    ghost use Rattle.moka_hist.specs.declared.events.Event.{Event};
    ghost use Rattle.moka_hist.specs.Dropping.{dropped};
    ghost use Rattle.moka_laws.specs.Held.{MayAllLeave};
    ghost use Rattle.moka_hist.specs.Run.{Drops};
    ghost use Rattle.moka_hist.specs.State.{DeskPart, State};
    ghost use Rattle.moka_hist.specs.Telling.{is_asked, told};
    ghost use Rattle.moka_desk.specs.History.{KeepsAsBefore};
    ghost use Rattle.moka_desk.specs.StandsFor.{StandsFor as DeskStandsFor, Becomes as DeskBecomes};
    ghost use Rattle.moka_init.specs.FlowPlan.{call_of};
    ghost use Rattle.moka_machine.specs.Calls.{HasPlace};
    ghost use Rattle.moka_machine.specs.Machine.{MachineIs, TakenOut, IsOut, IsValid};
    ghost use Rattle.moka_machine.specs.Machine.{ServesEvent, KeepsState};

    /// Moves the clock on. It takes no memory.
    pub(crate) fn at(&mut self, moment: u64) -> Reply<K, V, E>
        ensures { ServesEvent K.eq T.Tests self.old (Event.At moment) result self.new }
    {
        if self.layers.desk.at(moment) {
            Reply::At
        } else {
            Reply::Refused(Refusal::ClockBack)
        }
    }

    /// Starts a call under the next number.
    pub(crate) fn start(&mut self, start: &Start<K, V>) -> Result<Reply<K, V, E>, AllocError>
        ensures serves { IfOk result (λ r.
            ServesEvent K.eq T.Tests self.old (Event.Start start.now) r self.new) }
        ensures err { OnErr result (KeepsState K.eq T.Tests self.old self.new) }
    {
        let start = copy_of(start)?;
        let spent = self.make_room()?;
        self.enter(start, spent)
    }

    // Makes room for one more call, and gives the box of a flow that has answered, if there is one.
    fn make_room(&mut self) -> Result<Option<Box<Flow<K, V, E>>>, AllocError>
        ensures room { OnOk result (0 < spare self.new.calls.places) }
        ensures same { KeepsState K.eq T.Tests self.old self.new }
    {
        self.calls.reserve()
    }

    // Starts a call, for which there is room. Its flow is made before its number is given out.
    fn enter(
        &mut self,
        start: Start<K, V>,
        spent: Option<Box<Flow<K, V, E>>>,
    ) -> Result<Reply<K, V, E>, AllocError>
        requires { 0 < spare self.old.calls.places }
        ensures serves { IfOk result (λ r.
            ServesEvent K.eq T.Tests self.old (Event.Start start) r self.new) }
        ensures err { OnErr result (KeepsState K.eq T.Tests self.old self.new) }
    {
        moka_laws::lists_are_started::<K, V, E>();
        let last = self.layers.desk.last();
        let next = last.saturating_add(1);
        let rules = self.layers.desk.rules();
        let flow = Flow::new(start, next, rules, self.layers.table.parts());
        let boxed = self.calls.boxed(flow, spent)?;
        match self.layers.desk.enter() {
            None => Ok(Reply::Refused(Refusal::CallsSpent)),
            Some(call) => {
                let running = Running {
                    flow: boxed,
                    begun: None,
                };
                self.calls.add(call, running);
                Ok(Reply::Call(call))
            }
        }
    }

    /// Answers the open ask of a call, or of the listener by the number of its notice. Where no such
    /// ask is open, or it doesn't take such an answer, the event is refused and nothing changes. It
    /// takes no memory.
    pub fn tell(&mut self, call: u64, answer: Told<V, E>) -> Reply<K, V, E>
        ensures { ServesEvent K.eq T.Tests self.old (Event.Tell call answer) result self.new }
    {
        // Who waited for it is let go: nobody polls calls here but events.
        if self.tell_desk(call, answer) {
            Reply::Told
        } else {
            Reply::Refused(Refusal::NotAsked)
        }
    }

    /// Answers the open ask with a copy of the answer.
    pub(crate) fn tell_copy(
        &mut self,
        call: u64,
        answer: &Told<V, E>,
    ) -> Result<Reply<K, V, E>, AllocError>
        ensures serves { IfOk result (λ r.
            ServesEvent K.eq T.Tests self.old (Event.Tell call answer.now) r self.new) }
        ensures err { OnErr result (KeepsState K.eq T.Tests self.old self.new) }
        ensures err_needs { OnErr result (ToldNeedsMemory answer.now) }
    {
        let answer = answer.clone()?;
        Ok(self.tell(call, answer))
    }

    // Tells the desk the answer. Answers whether an ask was open that takes it.
    fn tell_desk(&mut self, call: u64, answer: Told<V, E>) -> bool
        ensures finds { (w : DeskPart K V E) → DeskStandsFor K.eq self.old.layers.desk w
            → result ≡ is_asked w call answer }
        ensures makes { DeskBecomes K.eq self.old.layers.desk
            (λ w. if result then told w call answer else w) self.new.layers.desk }
        ensures rest { self.new ≡ record self.old {
          layers = record self.old.layers { desk = self.new.layers.desk };
        } }
        ensures kept { KeepsAsBefore self.old.layers.desk self.new.layers.desk }
    {
        self.layers.desk.tell(call, answer).is_some()
    }

    /// Drops a call where it stands, unless it is between two steps. It takes no memory.
    pub(crate) fn drop_call(&mut self, call: u64) -> Reply<K, V, E>
        requires { IsValid K.eq T.Tests self.old }
        ensures { ServesEvent K.eq T.Tests self.old (Event.Drop call) result self.new }
    {
        moka_laws::calls_may_leave::<K, V, E>();
        match self.take_out(call) {
            None => Reply::Refused(Refusal::UnknownCall),
            Some(flow) => self.drop_out(call, flow),
        }
    }

    // Drops the call that was taken out, or puts it back.
    #[inline(always)]
    fn drop_out(&mut self, call: u64, flow: Box<Flow<K, V, E>>) -> Reply<K, V, E>
        requires place { HasPlace self.old.calls call }
        requires is { IsOut K.eq self.old flow.value }
        requires taken { (s : State K V E) × TakenOut K.eq T.Tests self.old call flow.value s
            × MayAllLeave s }
        ensures { (s : State K V E) → TakenOut K.eq T.Tests self.old call flow.value s → MayAllLeave s
            → (t : State K V E) × Drops s call (call_of flow.value) flow.value.mode result t
            × MachineIs K.eq T.Tests self.new t }
    {
        match flow.mode() {
            Mode::Mid => {
                self.put_in(call, flow);
                Reply::Refused(Refusal::NotParked)
            }
            Mode::Fresh => self.leave(call, flow),
            Mode::Parked => self.leave(call, flow),
        }
    }

    // Drops the call that was taken out: what it holds is left to others.
    fn leave(&mut self, call: u64, flow: Box<Flow<K, V, E>>) -> Reply<K, V, E>
        requires is { IsOut K.eq self.old flow.value }
        requires taken { (s : State K V E) × TakenOut K.eq T.Tests self.old call flow.value s
            × MayAllLeave s }
        ensures reply { result ≡ Reply.Dropped }
        ensures leaves { (s : State K V E) → TakenOut K.eq T.Tests self.old call flow.value s
            → MayAllLeave s
            → MachineIs K.eq T.Tests self.new (dropped s call (call_of flow.value)) }
    {
        let held = flow.held();
        drop(flow);
        let _ = self.layers.desk.leave(call, held);
        self.end(call);
        Reply::Dropped
    }
}

// An event that isn't a poll makes no steps.
pub(crate) fn unpolled<K, V, E>(
    reply: Result<Reply<K, V, E>, AllocError>,
) -> Result<Reply<K, V, E>, Unfinished>
    ensures { MatchResult result (λ r. reply ≡ Ok r) (λ u. (u.steps ≡ 0) × (is_ok reply ≡ false)) }
{
    match reply {
        Ok(reply) => Ok(reply),
        Err(_) => Err(Unfinished { steps: 0 }),
    }
}

// A copy of the start.
fn copy_of<K: Exact, V: Exact>(start: &Start<K, V>) -> Result<Start<K, V>, AllocError>
    ensures same { IfOk result (λ copy. copy ≡ start.now) }
{
    start.clone()
}
