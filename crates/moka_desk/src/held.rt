//! The writes that are held or owed, by the numbers of the calls that made them.

ghost use Rattle.std.specs.Prelude.{◌≡◌, ℕ, ◌+◌, ◌≤◌, ◌<◌, ◌==◌, ◌||◌, true, false, cond, min, Option, Some, None, is_some, nat_eq, OnOk, if◌then◌else◌};
ghost use Rattle.std.specs.HashMap.{get, spare, hash_map_len};
ghost use Rattle.moka_hist.specs.Visits.{number_of as written_by};
ghost use Rattle.moka_desk.specs.Held.{decided_holding, held_by, held_count, holding_room, holds_number, is_holder, owed_at};

use crate::holdings::Holdings;
use crate::maps::{at, put, replace};
use moka_hist::{Holding, Write};
use moka_room::map_room;
use std::alloc::{AllocError, Global};
use std::collections::HashMap;

/// What each call holds; and under the number of each write that is held or owed the call that
/// holds it, or nobody where it is owed. Who holds a write changes in its place, so that no call
/// takes memory to take one up or to leave one.
#[derive(Drop)]
pub(crate) struct Held {
    pub(crate) holders: HashMap<u64, Option<u64>>,
    pub(crate) holdings: Holdings,
    ghost agree: { (number n : ℕ) → is_holder (get nat_eq holders number) n
        ≡ holds_number n number (held_by holdings n) },
}

impl Held {
    ghost use Rattle.moka_hist.specs.declared.writes.Holding.TheVariants as holding;

    /// Nothing is held or owed.
    pub(crate) fn new(alloc: Global) -> Self
        ensures none { (n : ℕ) → held_by result.holdings n ≡ None }
        ensures owed { (n : ℕ) → owed_at (get nat_eq result.holders n) ≡ 0 }
        ensures places { hash_map_len result.holders ≡ 0 }
        ensures count { held_count result.holdings ≡ 0 }
        ensures room { holding_room result.holdings ≡ 0 }
    {
        Held {
            holders: HashMap::new(alloc),
            holdings: Holdings::new(alloc),
        }
    }

    /// What the call holds.
    pub(crate) fn get(&self, call: u64) -> Option<Holding>
        ensures { result ≡ held_by self.now.holdings call }
    {
        self.holdings.get(call)
    }

    /// Whether a write of this number is held or owed.
    pub(crate) fn contains(&self, number: u64) -> bool
        ensures { result ≡ is_some (get nat_eq self.now.holders number) }
    {
        at(&self.holders, number).is_some()
    }

    /// Makes room for so many writes that are held, and for one more that is held or owed. Room that
    /// is far more than that is given back.
    pub(crate) fn reserve(&mut self, room: usize) -> Result<(), AllocError>
        ensures same { (n : ℕ) → held_by self.new.holdings n ≡ held_by self.old.holdings n }
        ensures holders { (n : ℕ) → get nat_eq self.new.holders n ≡ get nat_eq self.old.holders n }
        ensures places { hash_map_len self.new.holders ≡ hash_map_len self.old.holders }
        ensures count { held_count self.new.holdings ≡ held_count self.old.holdings }
        ensures kept { min room (holding_room self.old.holdings)
            ≤ holding_room self.new.holdings }
        ensures room { OnOk result ((room ≤ holding_room self.new.holdings)
            × (0 < spare self.new.holders)) }
    {
        map_room::reserve(&mut self.holders, 1)?;
        self.holdings.reserve(room)
    }

    /// Gives the call, which holds nothing, the place of its own write, with the moment. There is
    /// room for it, and no write of its number is held or owed.
    pub(crate) fn stamp(&mut self, call: u64, moment: u64)
        requires place { 0 < spare self.old.holders }
        requires room { held_count self.old.holdings < holding_room self.old.holdings }
        requires unused { get nat_eq self.old.holders call ≡ None }
        requires free { held_by self.old.holdings call ≡ None }
        ensures holds { (n : ℕ) → held_by self.new.holdings n
            ≡ cond (call == n) (Some (holding.Own (Some moment))) (held_by self.old.holdings n) }
        ensures owed { (n : ℕ) → owed_at (get nat_eq self.new.holders n)
            ≡ owed_at (get nat_eq self.old.holders n) }
        ensures known { (n : ℕ) → is_some (get nat_eq self.new.holders n)
            ≡ (is_some (get nat_eq self.old.holders n) || (call == n)) }
        ensures places { hash_map_len self.new.holders ≡ hash_map_len self.old.holders + 1 }
        ensures count { held_count self.new.holdings ≤ held_count self.old.holdings + 1 }
        ensures kept { holding_room self.new.holdings ≡ holding_room self.old.holdings }
    {
        put(&mut self.holders, call, Some(call));
        self.holdings.put(
            call,
            Holding::Own {
                pending: Some(moment),
            },
        );
    }

    /// Gives the call, which holds nothing, a write that is owed. There is room for it.
    pub(crate) fn take_up(&mut self, call: u64, write: Write)
        requires room { held_count self.old.holdings < holding_room self.old.holdings }
        requires owed { owed_at (get nat_eq self.old.holders (written_by write)) ≡ 1 }
        requires free { held_by self.old.holdings call ≡ None }
        ensures holds { (n : ℕ) → held_by self.new.holdings n
            ≡ cond (call == n) (Some (holding.TookUp write)) (held_by self.old.holdings n) }
        ensures owed { (n : ℕ) → owed_at (get nat_eq self.new.holders n)
            + cond (n == written_by write) 1 0 ≡ owed_at (get nat_eq self.old.holders n) }
        ensures known { (n : ℕ) → is_some (get nat_eq self.new.holders n)
            ≡ is_some (get nat_eq self.old.holders n) }
        ensures places { hash_map_len self.new.holders ≡ hash_map_len self.old.holders }
        ensures count { held_count self.new.holdings ≤ held_count self.old.holdings + 1 }
        ensures kept { holding_room self.new.holdings ≡ holding_room self.old.holdings }
    {
        replace(&mut self.holders, write.number(), Some(call));
        self.holdings.put(call, Holding::TookUp { write });
    }

    /// The call leaves the write of this number, which it holds: it is owed from then on.
    pub(crate) fn leave(&mut self, call: u64, number: u64)
        requires { holds_number call number (held_by self.old.holdings call) ≡ true }
        ensures holds { (n : ℕ) → held_by self.new.holdings n
            ≡ cond (call == n) None (held_by self.old.holdings n) }
        ensures owed { (n : ℕ) → owed_at (get nat_eq self.new.holders n)
            ≡ owed_at (get nat_eq self.old.holders n) + cond (n == number) 1 0 }
        ensures known { (n : ℕ) → is_some (get nat_eq self.new.holders n)
            ≡ is_some (get nat_eq self.old.holders n) }
        ensures places { hash_map_len self.new.holders ≡ hash_map_len self.old.holders }
        ensures count { held_count self.new.holdings + 1 ≤ held_count self.old.holdings }
        ensures kept { holding_room self.new.holdings ≡ holding_room self.old.holdings }
    {
        replace(&mut self.holders, number, None);
        self.holdings.remove(call);
    }

    /// The call gives up the write of this number, which it holds: it is neither held nor owed.
    pub(crate) fn clear(&mut self, call: u64, number: u64)
        requires { holds_number call number (held_by self.old.holdings call) ≡ true }
        ensures holds { (n : ℕ) → held_by self.new.holdings n
            ≡ cond (call == n) None (held_by self.old.holdings n) }
        ensures owed { (n : ℕ) → owed_at (get nat_eq self.new.holders n)
            ≡ owed_at (get nat_eq self.old.holders n) }
        ensures known { (n : ℕ) → is_some (get nat_eq self.new.holders n)
            ≡ cond (number == n) false (is_some (get nat_eq self.old.holders n)) }
        ensures places { hash_map_len self.new.holders + 1 ≡ hash_map_len self.old.holders }
        ensures count { held_count self.new.holdings + 1 ≤ held_count self.old.holdings }
        ensures kept { holding_room self.new.holdings ≡ holding_room self.old.holdings }
    {
        let _ = self.holders.remove(&number);
        self.holdings.remove(call);
    }

    /// Ends the pending moment of the call, if it has one.
    pub(crate) fn decide(&mut self, call: u64)
        requires { held_count self.old.holdings ≤ holding_room self.old.holdings }
        ensures holds { (n : ℕ) → held_by self.new.holdings n
            ≡ cond (call == n) (decided_holding (held_by self.old.holdings call))
            (held_by self.old.holdings n) }
        ensures holders { self.new.holders ≡ self.old.holders }
        ensures count { held_count self.new.holdings ≤ held_count self.old.holdings }
        ensures kept { holding_room self.new.holdings ≡ holding_room self.old.holdings }
    {
        self.holdings.decide(call);
    }
}
