//! Runs of events on a machine.
ghost use Rattle.std.specs.Prelude.{◌≡◌, ◌≢◌, ◌+◌, ◌<◌, ◌≤◌, ◌++◌, ◌∷◌, [], ℕ, List, IfOk, IfErr, OnOk, OnErr, length, vec_len};
ghost use Rattle.std.specs.Vec.{vec_capacity};
ghost use Rattle.moka_hist.specs.State.{State};
ghost use Rattle.moka_hist.specs.Run.{IsReached};
ghost use Rattle.moka_laws.specs.Laws.{LawsOfReached};
ghost use Rattle.moka_callers.specs.Laws.{LawsForCallers};
ghost use Rattle.moka_same.specs.Determined.{RunsAreDetermined};
ghost use Rattle.moka_hist.specs.declared.events.Told.{Told};
ghost use Rattle.moka_machine.specs.Machine.{IsValid, MachineIs, ServesEvent, Stops};
ghost use Rattle.moka_machine.specs.WantOfMemory.{MayStopIn};
ghost use Rattle.moka_run.specs.Running.{Answers, StopsAt, asked_in, told_by, told_in};
ghost use Rattle.moka_run.specs.Report.{Reports};

use crate::report::{Memory, ReplyList, Report, list_all, report_of};
use moka_hist::{Event, Reply, Tests, Told};
use moka_init::Unfinished;
use moka_machine::Machine;
use moka_values::Exact;
use std::alloc::{AllocError, Global};
use std::collections::VecDeque;
use std::hash::Hash;

/// Runs the events on the machine, one after the other.
///
/// On Ok the replies answer every event in order, and they are, with the state left behind, a run
/// of the reference cache, in which no key and kind has two open initializers and each committed
/// write stands in exactly one place, and each that replaced a record has its notice where a
/// listener is set. The report's lists are those of the last state.
///
/// `Memory` tells how far it came, with a reply for each event done; the machine stands in that
/// state, and can be run on. It comes at the start, in a start, a step or a poll that needs memory
/// there, or after the last event, for the lists. The answers that events tell are copied at the
/// start, so it never comes in an `at`, a `tell` or a `drop`.
///
/// Of every state that a run can reach, all laws of `moka_laws` hold: `laws` is their record, with a
/// field for each. `callers` is that of `moka_callers`: what you conclude of this run by its events
/// and its replies. `determined` says that any two runs on the same events reply the same, where no
/// walk is live or starts and no call is stepped singly.
pub fn run<K: Eq + Hash + Exact, V: Exact, E: Exact, T: Tests<K, V> + Drop>(
    alloc: Global,
    cache: &mut Machine<K, V, E, T>,
    events: &[Event<K, V, E>],
) -> Result<Report<K, V, E>, Memory<K, V, E>>
    requires valid { IsValid K.eq T.Tests cache.old }
    ensures run { IfOk result (λ report. (s : State K V E)
        → MachineIs K.eq T.Tests cache.old s → IsReached K.eq s
        → (a : Answers K.eq T.Tests events.now report.replies cache.new s)
        × Reports K.eq report.entries report.places report.notices report.tests a.final) }
    ensures answered { IfOk result (λ report. length report.replies ≡ length events.now) }
    ensures memory { IfErr result (λ m. (s : State K V E)
        → MachineIs K.eq T.Tests cache.old s → IsReached K.eq s
        → StopsAt K.eq T.Tests events.now m.done m.steps m.replies cache.new s) }
    ensures counted { IfErr result (λ m. length m.replies ≡ m.done) }
    ensures valid { IsValid K.eq T.Tests cache.new }
    // of every state that a run can reach, not of this run alone
    ensures laws { LawsOfReached K V E K.eq }
    ensures callers { LawsForCallers K V E K.eq }
    ensures determined { RunsAreDetermined K V E K.eq }
{
    moka_laws::laws_of_reached::<K, V, E>();
    moka_callers::laws_for_callers::<K, V, E>();
    moka_same::runs_are_determined::<K, V, E>();
    let replies = run_events(alloc, cache, events)?;
    let replies = ReplyList::from_vec(replies);
    match list_all(alloc, cache) {
        Ok(lists) => Ok(report_of(replies, lists)),
        Err(_) => Err(Memory {
            done: events.len() as u64,
            steps: 0,
            replies,
        }),
    }
}

/// The replies to the events, in order.
pub(crate) fn run_events<K: Eq + Hash + Exact, V: Exact, E: Exact, T: Tests<K, V> + Drop>(
    alloc: Global,
    cache: &mut Machine<K, V, E, T>,
    events: &[Event<K, V, E>],
) -> Result<Vec<Reply<K, V, E>>, Memory<K, V, E>>
    requires valid { IsValid K.eq T.Tests cache.old }
    ensures run { IfOk result (λ replies. (s : State K V E)
        → MachineIs K.eq T.Tests cache.old s → IsReached K.eq s
        → Answers K.eq T.Tests events.now replies.items cache.new s) }
    ensures answered { IfOk result (λ replies. length replies.items ≡ length events.now) }
    ensures memory { IfErr result (λ m. (s : State K V E)
        → MachineIs K.eq T.Tests cache.old s → IsReached K.eq s
        → StopsAt K.eq T.Tests events.now m.done m.steps m.replies cache.new s) }
    ensures counted { IfErr result (λ m. length m.replies ≡ m.done) }
    ensures valid { IsValid K.eq T.Tests cache.new }
{
    moka_laws::reached_by_event::<K, V, E>();
    moka_laws::reached_by_steps::<K, V, E>();
    moka_laws::event_is_lawful::<K, V, E>();
    moka_laws::steps_are_lawful::<K, V, E>();
    moka_laws::reached_is_lawful::<K, V, E>();
    moka_laws::lawful_run_goes_on::<K, V, E>();
    let (mut replies, mut told) = match room_for(alloc, events) {
        Ok(room) => room,
        Err(_) => return Err(stopped(Vec::new(alloc), 0)),
    };
    for event in events {
        match serve_next(cache, event, &mut told) {
            Ok(reply) => push_reserved(&mut replies, reply),
            Err(unfinished) => return Err(stopped(replies, unfinished.steps)),
        }
    }
    Ok(replies)
}

/// The room of the replies, and copies of the answers that the events tell, in order.
fn room_for<K: Drop, V: Exact, E: Exact>(
    alloc: Global,
    events: &[Event<K, V, E>],
) -> Result<(Vec<Reply<K, V, E>>, VecDeque<Told<V, E>>), AllocError>
    ensures empty { IfOk result (λ room. room.0.items ≡ []) }
    ensures len { IfOk result (λ room. vec_len room.0 ≡ 0) }
    ensures capacity { IfOk result (λ room. length events.now ≤ vec_capacity room.0) }
    ensures told { IfOk result (λ room. room.1.items ≡ told_in events.now) }
{
    let replies = Vec::with_capacity(alloc, events.len())?;
    let mut told = VecDeque::new(alloc);
    for event in events {
        copy_told(event, &mut told)?;
    }
    Ok((replies, told))
}

/// Appends a copy of the answer that the event tells, if it tells one.
fn copy_told<K, V: Exact, E: Exact>(
    event: &Event<K, V, E>,
    told: &mut VecDeque<Told<V, E>>,
) -> Result<(), AllocError>
    ensures { OnOk result (told.new.items ≡ told.old.items ++ told_by event.now) }
{
    match event {
        Event::Tell { answer, .. } => told.push_back(answer.clone()?)?,
        _ => {}
    }
    Ok(())
}

/// Carries the event out; what it tells, if it tells, is the front of the copies.
fn serve_next<K: Eq + Hash + Exact, V: Exact, E: Exact, T: Tests<K, V> + Drop>(
    cache: &mut Machine<K, V, E, T>,
    event: &Event<K, V, E>,
    told: &mut VecDeque<Told<V, E>>,
) -> Result<Reply<K, V, E>, Unfinished>
    requires valid { IsValid K.eq T.Tests cache.old }
    requires front { (rest : List (Told V E)) × (told.old.items ≡ told_by event.now ++ rest) }
    ensures serves { IfOk result (λ r. ServesEvent K.eq T.Tests cache.old event.now r cache.new) }
    ensures stops { IfErr result (λ u. Stops K.eq T.Tests cache.old event.now u.steps cache.new) }
    ensures needs { OnErr result ((s : State K V E) → MachineIs K.eq T.Tests cache.new s
        → MayStopIn s event.now) }
    ensures rest { (rest : List (Told V E)) → told.old.items ≡ told_by event.now ++ rest
        → told.new.items ≡ rest }
{
    match asked_in(event) {
        Some(call) => Ok(cache.tell(call, next_of(told))),
        None => cache.serve(event),
    }
}

/// The number of the ask that the event answers, if it tells.
fn asked_in<K, V, E>(event: &Event<K, V, E>) -> Option<u64>
    ensures { result ≡ asked_in event.now }
{
    match event {
        Event::Tell { call, .. } => Some(*call),
        _ => None,
    }
}

/// Takes the front of the copies, of which there is one.
fn next_of<V, E>(told: &mut VecDeque<Told<V, E>>) -> Told<V, E>
    requires some { told.old.items ≢ [] }
    ensures { told.old.items ≡ result ∷ told.new.items }
{
    match told.pop_front() {
        Some(answer) => answer,
        None => unreachable!(),
    }
}

/// Appends a reply that has its place. It takes no memory.
fn push_reserved<K: Drop, V: Drop, E: Drop>(
    replies: &mut Vec<Reply<K, V, E>>,
    reply: Reply<K, V, E>,
)
    requires { vec_len replies.old < vec_capacity replies.old }
    ensures items { replies.new.items ≡ replies.old.items ++ reply ∷ [] }
    ensures len { vec_len replies.new ≡ vec_len replies.old + 1 }
    ensures capacity { vec_capacity replies.old ≤ vec_capacity replies.new }
{
    match replies.push(reply) {
        Ok(()) => {}
        Err(_) => unreachable!(),
    }
}

/// Memory was wanting after these replies, and so many steps of a poll.
fn stopped<K, V, E>(replies: Vec<Reply<K, V, E>>, steps: u64) -> Memory<K, V, E>
    ensures { result ≡ record { done = vec_len replies; steps = steps; replies = replies.items } }
{
    Memory {
        done: replies.len() as u64,
        steps,
        replies: ReplyList::from_vec(replies),
    }
}
