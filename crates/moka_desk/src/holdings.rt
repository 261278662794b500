//! What each call holds of writes, by the call.

ghost use Rattle.std.specs.Prelude.{◌≡◌, ℕ, ◌+◌, ◌≤◌, ◌<◌, ◌==◌, ◌||◌, nat_le, true, false, cond, length, min, Option, Some, None, is_some, nat_eq, vec_capacity, OnOk, if◌then◌else◌};
ghost use Rattle.std.specs.Map.{lookup};
ghost use Rattle.std.specs.HashMap.{get, hash_map_len, keys};
ghost use Rattle.std.specs.List.{list_any};
ghost use Rattle.std.specs.Option.{option_map_or};
ghost use Rattle.moka_desk.specs.Held.{held_by, held_count, holding_room, decided_holding, others_of};
ghost use Rattle.moka_desk.specs.Held.{pends_up_to, some_pends_by};

use crate::maps::{at, take_at};
use moka_hist::Holding;
use moka_room::{map_room, vec_room};
use std::alloc::{AllocError, Global};
use std::collections::HashMap;

/// The place of a write of its own that a call holds, or the write that it took up. A call takes a
/// write up without memory: it stands among the rest, which has room for each, where nothing else
/// does, or the map has no place for it.
#[derive(Drop)]
pub(crate) struct Holdings {
    pub(crate) by_call: HashMap<u64, Holding>,
    pub(crate) rest: Vec<(u64, Holding)>,
}

impl Holdings {
    /// No call holds anything.
    pub(crate) fn new(alloc: Global) -> Self
        ensures none { (n : ℕ) → held_by result n ≡ None }
        ensures count { held_count result ≡ 0 }
        ensures room { holding_room result ≡ 0 }
    {
        Holdings {
            by_call: HashMap::new(alloc),
            rest: Vec::new(alloc),
        }
    }

    /// What the call holds.
    pub(crate) fn get(&self, call: u64) -> Option<Holding>
        ensures { result ≡ held_by self.now call }
    {
        match at(&self.by_call, call).copied() {
            Some(holding) => Some(holding),
            None => find_in(&self.rest, call),
        }
    }

    /// Makes room for so many calls that hold something. Room that is far more than that is given
    /// back.
    pub(crate) fn reserve(&mut self, room: usize) -> Result<(), AllocError>
        ensures same { (n : ℕ) → held_by self.new n ≡ held_by self.old n }
        ensures count { held_count self.new ≡ held_count self.old }
        ensures kept { min room (holding_room self.old) ≤ holding_room self.new }
        ensures room { OnOk result (room ≤ holding_room self.new) }
    {
        map_room::give_back(&mut self.by_call, 0);
        vec_room::reserve(&mut self.rest, room)
    }

    /// The call, which holds nothing, holds this from then on. There is room for it. Where nothing
    /// stands among the rest it stands there, and is not hashed: mostly one call writes at a time.
    #[inline(always)]
    pub(crate) fn put(&mut self, call: u64, holding: Holding)
        requires room { held_count self.old < holding_room self.old }
        requires free { held_by self.old call ≡ None }
        ensures holds { (n : ℕ) →
            held_by self.new n ≡ cond (call == n) (Some holding) (held_by self.old n) }
        ensures count { held_count self.new ≤ held_count self.old + 1 }
        ensures room { holding_room self.new ≡ holding_room self.old }
    {
        if self.rest.is_empty() {
            self.put_beside(call, holding);
        } else {
            self.put_in_map(call, holding);
        }
    }

    // The call, which holds nothing, holds this from then on, beside the map. There is room for it.
    #[inline(always)]
    fn put_beside(&mut self, call: u64, holding: Holding)
        requires room { held_count self.old < holding_room self.old }
        requires free { held_by self.old call ≡ None }
        ensures holds { (n : ℕ) →
            held_by self.new n ≡ cond (call == n) (Some holding) (held_by self.old n) }
        ensures count { held_count self.new ≤ held_count self.old + 1 }
        ensures room { holding_room self.new ≡ holding_room self.old }
    {
        self.rest.push_reserved((call, holding));
    }

    // The call, which holds nothing, holds this from then on, in the map where that has a place.
    #[inline(never)]
    fn put_in_map(&mut self, call: u64, holding: Holding)
        requires room { held_count self.old < holding_room self.old }
        requires free { held_by self.old call ≡ None }
        ensures holds { (n : ℕ) →
            held_by self.new n ≡ cond (call == n) (Some holding) (held_by self.old n) }
        ensures count { held_count self.new ≤ held_count self.old + 1 }
        ensures room { holding_room self.new ≡ holding_room self.old }
    {
        match self.by_call.insert(call, holding) {
            Ok(_) => {}
            Err(_) => self.rest.push_reserved((call, holding)),
        }
    }

    /// The call, which holds something, holds this from then on, and nothing else.
    pub(crate) fn replace(&mut self, call: u64, holding: Holding)
        requires few { held_count self.old ≤ holding_room self.old }
        requires held { is_some (held_by self.old call) ≡ true }
        ensures holds { (n : ℕ) →
            held_by self.new n ≡ cond (call == n) (Some holding) (held_by self.old n) }
        ensures count { held_count self.new ≤ held_count self.old }
        ensures room { holding_room self.new ≡ holding_room self.old }
    {
        self.remove(call);
        self.put(call, holding);
    }

    /// The call holds nothing from then on.
    #[inline(always)]
    pub(crate) fn remove(&mut self, call: u64)
        ensures holds { (n : ℕ) →
            held_by self.new n ≡ cond (call == n) None (held_by self.old n) }
        ensures count { held_count self.new + (if is_some (held_by self.old call) then 1 else 0)
            ≤ held_count self.old }
        ensures room { holding_room self.new ≡ holding_room self.old }
    {
        take_at(&mut self.by_call, call);
        remove_from(&mut self.rest, call);
    }

    /// The moment that is pending with what the call holds is so no longer.
    pub(crate) fn decide(&mut self, call: u64)
        requires { held_count self.old ≤ holding_room self.old }
        ensures holds { (n : ℕ) → held_by self.new n
            ≡ cond (call == n) (decided_holding (held_by self.old call)) (held_by self.old n) }
        ensures count { held_count self.new ≤ held_count self.old }
        ensures room { holding_room self.new ≡ holding_room self.old }
    {
        match self.get(call) {
            Some(Holding::Own { .. }) => self.replace(call, Holding::Own { pending: None }),
            Some(Holding::TookUp { .. }) => {}
            None => {}
        }
    }

    /// The earliest moment that is pending with a call up to this number, if any is: the one at
    /// or before just those moments by which one is.
    pub(crate) fn earliest(&self, last: u64) -> Option<u64>
        ensures { (moment : ℕ) → some_pends_by self.now moment last
            ≡ option_map_or (λ taken. nat_le taken moment) result false }
    {
        let mut earliest = self.earliest_mapped(last);
        for held in &self.rest {
            earliest = self.earlier(held.0, last, earliest);
        }
        earliest
    }

    // The earliest moment that is pending with a call up to this number that is in the map.
    fn earliest_mapped(&self, last: u64) -> Option<u64>
        ensures { (moment : ℕ) → option_map_or (λ taken. nat_le taken moment) result false
            ≡ list_any (pends_up_to self.now last moment) (keys self.now.by_call) }
    {
        let mut earliest = None;
        for call in self.by_call.keys() {
            earliest = self.earlier(*call, last, earliest);
        }
        earliest
    }

    // The earlier one of this moment and of that which is pending with the call, if its number is
    // no greater than this.
    fn earlier(&self, call: u64, last: u64, than: Option<u64>) -> Option<u64>
        ensures { (moment : ℕ) → option_map_or (λ taken. nat_le taken moment) result false
            ≡ (option_map_or (λ taken. nat_le taken moment) than false
            || pends_up_to self.now last moment call) }
    {
        if last < call {
            return than;
        }
        match self.get(call) {
            Some(Holding::Own { pending }) => earlier_of(pending, than),
            Some(Holding::TookUp { .. }) => than,
            None => than,
        }
    }
}

// The earlier one of these moments, if there is one.
fn earlier_of(one: Option<u64>, other: Option<u64>) -> Option<u64>
    ensures { (moment : ℕ) → option_map_or (λ taken. nat_le taken moment) result false
        ≡ (option_map_or (λ taken. nat_le taken moment) other false
        || option_map_or (λ taken. nat_le taken moment) one false) }
{
    match one {
        Some(first) => Some(first_of(first, other)),
        None => other,
    }
}

// The earlier one of these moments.
fn first_of(first: u64, other: Option<u64>) -> u64
    ensures { (moment : ℕ) → nat_le result moment
        ≡ (option_map_or (λ taken. nat_le taken moment) other false || nat_le first moment) }
{
    match other {
        Some(second) => first.min(second),
        None => first,
    }
}

// What this call holds, where it is among these.
fn find_in(rest: &[(u64, Holding)], call: u64) -> Option<Holding>
    ensures { result ≡ lookup (nat_eq call) rest.now }
{
    for held in rest {
        if call == held.0 {
            return Some(held.1);
        }
    }
    None
}

// Takes out what this call holds among these.
fn remove_from(rest: &mut Vec<(u64, Holding)>, call: u64)
    ensures others { rest.new.items ≡ others_of call rest.old.items }
    ensures room { vec_capacity rest.new ≡ vec_capacity rest.old }
{
    if rest.is_empty() {
        return;
    }
    rest.retain(|held| held.0 != call);
}
