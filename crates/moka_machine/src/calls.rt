//! The live calls, by number.
ghost use Rattle.std.specs.Prelude.{◌≡◌, ◌≢◌, ℕ, ◌<◌, ◌≤◌, None, Some, IfOk, OnOk, OnSome};
ghost use Rattle.std.specs.Option.{option_map};
ghost use Rattle.std.specs.HashMap.{spare};
ghost use Rattle.moka_hist.specs.Finite.{put_at};

use crate::call_places::{
    Running, give_up, newest_due, newest_held, other_due, other_held, push_some, put,
    put_back_among, set_place, take_among, take_newest,
};
use moka_hist::Visit;
use moka_init::Flow;
use moka_values::Exact;
use std::alloc::{AllocError, Global};
use std::collections::HashMap;

/// The live calls, by number. A call that is being stepped is taken out, and its place stays until
/// it is put back or forgotten. The place of the greatest number that was added stands apart: most
/// calls end before the next one starts, and are never hashed. What the map has at that number
/// counts for nothing. The box of a flow that has answered is kept for the next call.
#[derive(Drop)]
pub(crate) struct Calls<K, V, E> {
    last: u64,
    newest: Option<Option<Running<K, V, E>>>,
    places: HashMap<u64, Option<Running<K, V, E>>>,
    spent: Option<Box<Flow<K, V, E>>>,
    alloc: Global,
}

impl<K: Drop, V: Drop, E: Drop> Calls<K, V, E> {
    ghost use Rattle.moka_machine.specs.Calls.{place_at, emptied, running_at};
    ghost use Rattle.moka_machine.specs.Calls.{HasPlace, AreDue, AreNumbered};
    ghost use Rattle.moka_machine.specs.Machine.{call_in};
    ghost use Rattle.moka_machine.specs.Listed.{AreHeld};

    /// No calls. It takes no memory.
    pub(crate) fn new(alloc: Global) -> Self
        ensures { (n : ℕ) → place_at result n ≡ None }
    {
        Calls {
            last: 0,
            newest: None,
            places: HashMap::new(alloc),
            spent: None,
            alloc,
        }
    }

    /// Puts the flow of a call where it stays while the call runs: in the box of one that has
    /// answered, if there is one.
    pub(crate) fn boxed(
        &self,
        flow: Flow<K, V, E>,
        spent: Option<Box<Flow<K, V, E>>>,
    ) -> Result<Box<Flow<K, V, E>>, AllocError>
        ensures { IfOk result (λ boxed. boxed.value ≡ flow) }
    {
        match spent {
            Some(spent) => Ok(put_in(spent, flow)),
            None => Ok(Box::new(self.alloc, flow)?),
        }
    }

    /// Makes room for one more call, and gives the box of a flow that has answered, if there is one.
    pub(crate) fn reserve(&mut self) -> Result<Option<Box<Flow<K, V, E>>>, AllocError>
        ensures room { OnOk result (0 < spare self.new.places) }
        ensures same { (n : ℕ) → place_at self.new n ≡ place_at self.old n }
    {
        self.places.reserve(1)?;
        Ok(self.spent.take())
    }

    /// A call starts to run. There is room, so it takes no memory.
    pub(crate) fn add(&mut self, call: u64, running: Running<K, V, E>)
        requires { 0 < spare self.old.places }
        ensures { (n : ℕ) → place_at self.new n
            ≡ put_at (place_at self.old) call (Some (Some running)) n }
    {
        if call < self.last {
            put(&mut self.places, call, Some(running));
            return;
        }
        self.go_on_to(call);
        self.newest = Some(Some(running));
    }

    // Makes this the greatest number: what stands apart for the one before goes among the others.
    fn go_on_to(&mut self, call: u64)
        requires room { 0 < spare self.old.places }
        requires later { self.old.last ≤ call }
        ensures last { self.new.last ≡ call }
        ensures others { (n : ℕ) → n ≢ call → place_at self.new n ≡ place_at self.old n }
    {
        if self.last < call {
            set_place(&mut self.places, self.last, self.newest.take());
            self.last = call;
        }
    }

    /// Takes a running call out, and leaves its place.
    #[inline(always)]
    pub(crate) fn take(&mut self, call: u64) -> Option<Running<K, V, E>>
        ensures taken { result ≡ running_at self.old call }
        ensures rest { (n : ℕ) → place_at self.new n
            ≡ put_at (place_at self.old) call (emptied (place_at self.old call)) n }
        ensures place { OnSome result (HasPlace self.new call) }
    {
        if call == self.last {
            take_newest(&mut self.newest)
        } else {
            take_among(&mut self.places, call)
        }
    }

    /// Puts a call back that was taken out. It takes no memory.
    #[inline(always)]
    pub(crate) fn put_back(&mut self, call: u64, running: Running<K, V, E>)
        requires { HasPlace self.old call }
        ensures { (n : ℕ) → place_at self.new n
            ≡ put_at (place_at self.old) call (Some (Some running)) n }
    {
        if call == self.last {
            self.newest = Some(Some(running));
        } else {
            put_back_among(&mut self.places, call, running);
        }
    }

    /// Gives the place of a call up that has ended.
    #[inline(always)]
    pub(crate) fn forget(&mut self, call: u64)
        ensures { (n : ℕ) → place_at self.new n ≡ put_at (place_at self.old) call None n }
    {
        if call == self.last {
            self.newest = None;
        } else {
            give_up(&mut self.places, call);
        }
    }

    /// Gives the place of a call up whose flow has answered, and keeps its box.
    #[inline(always)]
    pub(crate) fn end(&mut self, call: u64, flow: Box<Flow<K, V, E>>)
        ensures { (n : ℕ) → place_at self.new n ≡ put_at (place_at self.old) call None n }
    {
        self.forget(call);
        self.spent = Some(flow);
    }

    /// Lists the numbers of the writes that running calls hold.
    pub(crate) fn held(&self, alloc: Global) -> Result<Vec<u64>, AllocError>
        ensures { IfOk result (λ numbers. AreHeld numbers.items
            (λ n. option_map call_in (running_at self.now n))) }
    {
        let mut numbers = newest_held(alloc, &self.newest)?;
        for (call, place) in self.places.iter() {
            push_some(&mut numbers, other_held(self.last, *call, place))?;
        }
        Ok(numbers)
    }

    /// Lists the visits that open the notices of running calls that are due.
    pub(crate) fn due(&self, alloc: Global) -> Result<Vec<Visit<K, V, E>>, AllocError>
    where
        K: Exact,
        V: Exact,
        E: Exact,
        ensures { IfOk result (λ visits. AreNumbered (running_at self.now)
            → AreDue visits.items (λ n. option_map call_in (running_at self.now n))) }
    {
        let mut visits = newest_due(alloc, &self.newest)?;
        for (call, place) in self.places.iter() {
            let visit = other_due(self.last, *call, place)?;
            push_some(&mut visits, visit)?;
        }
        Ok(visits)
    }
}

// Puts the flow in the box, in the place of the one that is there.
fn put_in<K: Drop, V: Drop, E: Drop>(
    mut boxed: Box<Flow<K, V, E>>,
    flow: Flow<K, V, E>,
) -> Box<Flow<K, V, E>>
    ensures { result.value ≡ flow }
{
    *boxed = flow;
    boxed
}
