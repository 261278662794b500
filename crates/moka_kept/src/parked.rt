//! The wakers of tasks whose calls wait, in places that are handed out without memory.
ghost use Rattle.std.specs.Prelude.{◌≡◌, ◌<◌, ◌+◌, ◌^◌, ◌++◌, ◌⊎◌, ℕ, List, Option, Some};
ghost use Rattle.std.specs.Prelude.{IfSome, None, OnOk, cond, false, true, length, nat_eq};
ghost use Rattle.std.specs.HashMap.{get};
ghost use Rattle.futures.specs.declared.task.waker.Waker.{Waker};
ghost use Rattle.futures.specs.Task.{IsArmed, Keeps};
ghost use Rattle.moka_sync.specs.Waiting.{waits};
ghost use Rattle.moka_kept.specs.Parked.{IsOwn, is_parked};

use crate::guarded::ToWake;
use futures::task::{Context, Poll, Source, Waker};
use moka_init::Flow;
use moka_room::map_room;
use moka_sync::CallList;
use std::alloc::{AllocError, Global};
use std::collections::{HashMap, LinkedList};

/// Wakers that were handed out. Each wakes its task as it is dropped.
pub(crate) type Wakers = LinkedList<Option<Waker>>;

/// The calls that a visit handed out, whose wakers are to leave. It has no `Drop`, so nobody can
/// let it go: `Parked::hand_out` alone takes it.
pub(crate) struct HandedOut {
    calls: CallList,
}

impl HandedOut {
    /// These calls.
    pub(crate) fn of(calls: CallList) -> HandedOut
        ensures { result.calls ≡ calls }
    {
        HandedOut { calls }
    }
}

/// The task of the call of this number is parked: its waker lies under that number. `Parked::park`
/// alone makes one.
#[derive(Drop)]
pub struct ParkedTask {
    call: u64,
}

/// The wakers of the tasks whose calls wait, each in a list of one node.
#[derive(Drop)]
pub(crate) struct Parked {
    alloc: Global,
    source: Source,
    pub(crate) places: HashMap<u64, Wakers>,
}

impl Parked {
    /// No task is parked.
    pub(crate) fn new(alloc: Global) -> Parked
        ensures { (call : ℕ) → is_parked result call ≡ false }
    {
        Parked {
            alloc,
            source: Source::new(),
            places: HashMap::new(alloc),
        }
    }

    /// The task's waker goes to the place of the flow's call. Without memory for one the task asks to
    /// be polled again, and None comes.
    pub(crate) fn park<K, V, E>(
        &mut self,
        flow: &Flow<K, V, E>,
        cx: &mut Context<'_>,
    ) -> Option<ParkedTask>
        ensures armed { IsArmed cx.new }
        ensures kept { Keeps cx.old cx.new }
        ensures parked { (is_parked self.new flow.now.call ≡ true) ⊎ (cx.new.is_woken ≡ true) }
        ensures own { IsOwn result flow.now.call cx.new }
        ensures task { IfSome result (λ task. is_parked self.new task.call ≡ true) }
        ensures others { (n : ℕ) → (n ≡ flow.now.call → ⊥)
            → is_parked self.new n ≡ is_parked self.old n }
    {
        let call = flow.number();
        let Ok(()) = self.make_place(call) else {
            return ask_again(cx);
        };
        match self.places.get_mut(&call) {
            Some(place) => park_in(&self.source, place, call, cx),
            None => ask_again(cx),
        }
    }

    // The call has a place from then on. Room for far more calls than wait is given back.
    fn make_place(&mut self, call: u64) -> Result<(), AllocError>
        ensures there { OnOk result (is_parked self.new call ≡ true) }
        ensures others { (n : ℕ) → (n ≡ call → ⊥) → is_parked self.new n ≡ is_parked self.old n }
    {
        if self.places.contains_key(&call) {
            return Ok(());
        }
        let mut place = LinkedList::new(self.alloc);
        place.push_back(None)?;
        map_room::reserve(&mut self.places, 1)?;
        self.places.insert(call, place)?;
        Ok(())
    }

    /// Hands the wakers of these calls out, after those that were handed out before.
    pub(crate) fn hand_out(&mut self, handed: HandedOut, out: &mut ToWake)
        ensures { (n : ℕ) →
            is_parked self.new n ≡ cond (waits n handed.calls) false (is_parked self.old n) }
    {
        let HandedOut { calls } = handed;
        self.hand_each(&calls, out);
    }

    // Hands the wakers of these calls out, one call after another.
    fn hand_each(&mut self, calls: &CallList, out: &mut ToWake)
        ensures { (n : ℕ) →
            is_parked self.new n ≡ cond (waits n calls.now) false (is_parked self.old n) }
    {
        for call in calls.iter() {
            self.hand_one(call, out);
        }
    }

    /// Hands the waker of the call out, if it has one.
    pub(crate) fn hand_one(&mut self, call: u64, out: &mut ToWake)
        ensures parked { (n : ℕ) →
            is_parked self.new n ≡ cond (nat_eq call n) false (is_parked self.old n) }
        ensures woken { (place : List (Option Waker)) → get nat_eq self.old.places call ≡ Some place
            → length out.old.wakers + length place < 2 ^ 63
            → out.new.wakers ≡ out.old.wakers ++ place }
    {
        if let Some(mut place) = take_place(&mut self.places, call) {
            out.take(&mut place);
        }
    }
}

// Takes the place of this call out, if it has one. Nothing is hashed where no call has one.
#[inline(always)]
fn take_place(places: &mut HashMap<u64, Wakers>, call: u64) -> Option<Wakers>
    ensures value { result ≡ get nat_eq places.old call }
    ensures gone { (n : ℕ) → get nat_eq places.new n
        ≡ cond (nat_eq call n) None (get nat_eq places.old n) }
{
    if places.is_empty() {
        return None;
    }
    places.remove(&call)
}

// Leaves the task's waker in the place, which is that of this call.
fn park_in(
    source: &Source,
    place: &mut Wakers,
    call: u64,
    cx: &mut Context<'_>,
) -> Option<ParkedTask>
    ensures armed { IsArmed cx.new }
    ensures kept { Keeps cx.old cx.new }
    ensures own { IsOwn result call cx.new }
{
    match place.front_mut() {
        Some(slot) => Some(register(source, slot, call, cx)),
        None => ask_again(cx),
    }
}

// Leaves the task's waker in the slot, which is that of this call.
fn register(
    source: &Source,
    slot: &mut Option<Waker>,
    call: u64,
    cx: &mut Context<'_>,
) -> ParkedTask
    ensures armed { IsArmed cx.new }
    ensures kept { Keeps cx.old cx.new }
    ensures own { result.call ≡ call }
{
    let _: Poll<()> = cx.register(source, slot);
    ParkedTask { call }
}

// The task asks to be polled again.
fn ask_again(cx: &mut Context<'_>) -> Option<ParkedTask>
    ensures none { result ≡ None }
    ensures armed { IsArmed cx.new }
    ensures kept { Keeps cx.old cx.new }
    ensures woken { cx.new.is_woken ≡ true }
{
    let _: Poll<()> = cx.yield_now();
    None
}
