//! The calls that wait for the things of others, thing by thing.

ghost use Rattle.std.specs.Prelude.{◌≡◌, ℕ, ◌==◌, true, false, cond, ◌&&◌, Some, [], ◌++◌, nat_eq, OnOk, OnErr};
ghost use Rattle.std.specs.HashMap.{get};
ghost use Rattle.moka_sync.specs.Waiting.{waits, without};
ghost use Rattle.moka_desk.specs.Lines.{calls_in, is_at, line_at, with_call};

use crate::maps::{at, put};
use moka_room::map_room;
use moka_sync::{CallList, WaitList};
use std::alloc::{AllocError, Global};
use std::collections::HashMap;

/// The calls that wait for things of one kind, each of which has the number of a call: the turn or
/// the lock that it holds, how it settles, the end of its notice. Each call has a place from its
/// listing on until its next visit, also once it was handed out: it is woken then.
#[derive(Drop)]
pub(crate) struct Lines {
    pub(crate) alloc: Global,
    pub(crate) lists: HashMap<u64, WaitList>,
    pub(crate) places: HashMap<u64, u64>,
    ghost placed: { (number call : ℕ) → waits call (line_at lists number) ≡ true
        → get nat_eq places call ≡ Some number },
}

impl Lines {
    ghost use Rattle.moka_desk.specs.Woken.{all_but, and_calls, is_out};

    /// Nobody waits.
    pub(crate) fn new(alloc: Global) -> Self
        ensures none { (number : ℕ) → line_at result.lists number ≡ [] }
        ensures unwoken { (call : ℕ) → is_out result call ≡ false }
    {
        Lines {
            alloc,
            lists: HashMap::new(alloc),
            places: HashMap::new(alloc),
        }
    }

    /// Lists the call, once, for the thing of this number, and for no other. Where it is listed for
    /// that already, nothing changes and no memory is wanted. For want of memory nothing has
    /// changed.
    pub(crate) fn wait(&mut self, number: u64, call: u64) -> Result<(), AllocError>
        ensures ok { OnOk result ((n : ℕ) → line_at self.new.lists n
            ≡ cond (number == n) (with_call call (line_at self.old.lists n))
            (without call (line_at self.old.lists n))) }
        ensures err { OnErr result ((n : ℕ) → line_at self.new.lists n ≡ line_at self.old.lists n) }
        ensures needs { OnErr result (waits call (line_at self.old.lists number) ≡ false) }
        // who is woken
        ensures back { OnOk result ((c : ℕ) →
            is_out self.new c ≡ all_but call (is_out self.old) c) }
        ensures still { OnErr result ((c : ℕ) → is_out self.new c ≡ is_out self.old c) }
    {
        let before = at(&self.places, call).copied();
        if self.is_listed_at(before, number, call) {
            return Ok(());
        }
        map_room::reserve(&mut self.places, 1)?;
        add_to(self.alloc, &mut self.lists, number, call)?;
        move_off(&mut self.lists, before, number, call);
        put(&mut self.places, call, number);
        Ok(())
    }

    /// The call waits for none of the things any more, and is not to be woken.
    pub(crate) fn leave(&mut self, call: u64)
        ensures off { (n : ℕ) → line_at self.new.lists n ≡ without call (line_at self.old.lists n) }
        ensures back { (c : ℕ) → is_out self.new c ≡ all_but call (is_out self.old) c }
    {
        if self.places.is_empty() {
            return;
        }
        if let Some(number) = self.places.remove(&call) {
            remove_from(&mut self.lists, number, call);
        }
    }

    /// Takes the list of those that wait for the thing of this number, which has come; None where
    /// nobody ever waited for it.
    #[inline(always)]
    pub(crate) fn take(&mut self, number: u64) -> Option<WaitList>
        ensures all { calls_in result ≡ line_at self.old.lists number }
        ensures none { (n : ℕ) → line_at self.new.lists n ≡
            cond (number == n) [] (line_at self.old.lists n) }
        ensures woken { (c : ℕ) → is_out self.new c
            ≡ and_calls (line_at self.old.lists number) (is_out self.old) c }
    {
        if self.lists.is_empty() {
            return None;
        }
        self.lists.remove(&number)
    }

    /// Takes the list of those that wait for the thing of this number, if that has come.
    pub(crate) fn take_if(&mut self, number: u64, come: bool) -> Option<WaitList>
        ensures all { calls_in result ≡ cond come (line_at self.old.lists number) [] }
        ensures none { (n : ℕ) → line_at self.new.lists n ≡
            cond (come && number == n) [] (line_at self.old.lists n) }
        ensures woken { (c : ℕ) → is_out self.new c
            ≡ and_calls (cond come (line_at self.old.lists number) []) (is_out self.old) c }
    {
        match come {
            true => self.take(number),
            false => None,
        }
    }

    /// Hands out those that wait for the thing of this number, which has come.
    pub(crate) fn hand_out(&mut self, number: u64) -> CallList
        ensures all { result ≡ line_at self.old.lists number }
        ensures none { (n : ℕ) → line_at self.new.lists n ≡
            cond (number == n) [] (line_at self.old.lists n) }
        ensures woken { (c : ℕ) → is_out self.new c
            ≡ and_calls (line_at self.old.lists number) (is_out self.old) c }
    {
        let list = self.take(number);
        hand_all(self.alloc, list)
    }

    /// Whether the call was handed out and has not come back since.
    pub(crate) fn is_woken(&self, call: u64) -> bool
        ensures { result ≡ is_out self.now call }
    {
        let Some(number) = at(&self.places, call).copied() else {
            return false;
        };
        !self.is_listed(number, call)
    }

    // Whether the call, which has this place, is listed for the thing of this number. Nothing is
    // looked up where its place is another.
    fn is_listed_at(&self, place: Option<u64>, number: u64, call: u64) -> bool
        requires { place ≡ get nat_eq self.now.places call }
        ensures { result ≡ waits call (line_at self.now.lists number) }
    {
        if is_at(place, number) {
            return self.is_listed(number, call);
        }
        false
    }

    // Whether the call is listed for the thing of this number.
    fn is_listed(&self, number: u64, call: u64) -> bool
        ensures { result ≡ waits call (line_at self.now.lists number) }
    {
        match self.lists.get(&number) {
            Some(list) => list.contains(call),
            None => false,
        }
    }
}

/// Hands out those on the list, if there is one.
#[inline(always)]
fn hand_all(alloc: Global, list: Option<WaitList>) -> CallList
    ensures { result ≡ calls_in list }
{
    match list {
        Some(list) => list.into_calls(),
        None => CallList::new(alloc),
    }
}

/// Hands out those on the first list, and then those on the second, where there are such lists.
#[inline(always)]
pub(crate) fn hand_both(
    alloc: Global,
    first: Option<WaitList>,
    second: Option<WaitList>,
) -> CallList
    ensures { result ≡ calls_in first ++ calls_in second }
{
    match first {
        Some(first) => hand_with(first, second),
        None => hand_all(alloc, second),
    }
}

// Hands out those on the first list, and then those on the second, if there is one.
#[inline(never)]
fn hand_with(first: WaitList, second: Option<WaitList>) -> CallList
    ensures { result ≡ first.calls ++ calls_in second }
{
    match second {
        Some(second) => first.take_both(second),
        None => first.into_calls(),
    }
}

// Lists the call on the list of this number.
fn add_to(
    alloc: Global,
    lists: &mut HashMap<u64, WaitList>,
    number: u64,
    call: u64,
) -> Result<(), AllocError>
    ensures ok { OnOk result ((n : ℕ) → line_at lists.new n
        ≡ cond (number == n) (with_call call (line_at lists.old n)) (line_at lists.old n)) }
    ensures err { OnErr result ((n : ℕ) → line_at lists.new n ≡ line_at lists.old n) }
{
    if let Some(list) = lists.get_mut(&number) {
        return list.add(call);
    }
    map_room::reserve(lists, 1)?;
    let mut list = WaitList::new(alloc);
    list.add(call)?;
    put(lists, number, list);
    Ok(())
}

// Takes the call off the list of the number before, if that is another than this one.
fn move_off(lists: &mut HashMap<u64, WaitList>, before: Option<u64>, number: u64, call: u64)
    ensures { (n : ℕ) → line_at lists.new n ≡ cond (number == n) (line_at lists.old n)
        (cond (is_at before n) (without call (line_at lists.old n)) (line_at lists.old n)) }
{
    match before {
        Some(before) if before != number => remove_from(lists, before, call),
        _ => {}
    }
}

// Whether the place is the one of this number.
fn is_at(place: Option<u64>, number: u64) -> bool
    ensures { result ≡ is_at place number }
{
    match place {
        Some(there) => there == number,
        None => false,
    }
}

// Takes the call off the list of this number. Nothing is hashed where nobody is listed.
fn remove_from(lists: &mut HashMap<u64, WaitList>, number: u64, call: u64)
    ensures { (n : ℕ) → line_at lists.new n
        ≡ cond (number == n) (without call (line_at lists.old n)) (line_at lists.old n) }
{
    if lists.is_empty() {
        return;
    }
    if let Some(list) = lists.get_mut(&number) {
        list.remove(call);
    }
}
