//! The writes that were committed, in the places where the desk keeps them.

ghost use Rattle.std.specs.Prelude.{◌≡◌, ℕ, ◌+◌, ◌≤◌, true, None, Some, nat_lt, cond, [], ◌∷◌, ◌++◌, length, map, take, drop, false, IsNone, IfSome, option_to_list, nat_eq, OnOk, OnErr, IfOk, IsTrue, is_some, ◌↔◌};
ghost use Rattle.std.specs.HashMap.{get, hash_map_len};
ghost use Rattle.std.specs.HashSet as hash_set;
ghost use Rattle.std.specs.Option.{option_map};
ghost use Rattle.std.specs.VecDeque.{deque_capacity};
ghost use Rattle.moka_hist.specs.Finite.{times};
ghost use Rattle.moka_hist.specs.Visits.{number_of as written_by};
ghost use Rattle.moka_desk.specs.Held.{held_by, held_count, holding_room, holds_number, owed_at, owed_numbers};

use crate::applied::Applied;
use crate::held::Held;
use crate::maps::add;
use moka_hist::{Holding, Owed, Write};
use moka_room::{deque_room, set_room};
use std::alloc::{AllocError, Global};
use std::collections::{HashSet, VecDeque};

/// The writes that calls hold, those that dropped calls left, the log with its numbers, and what
/// was applied; the lists oldest first. Each write that isn't applied yet has its places in all that
/// follow, and no other places are kept.
#[derive(Drop)]
pub(crate) struct Writes {
    pub(crate) held: Held,
    pub(crate) owed: VecDeque<Owed>,
    pub(crate) log: VecDeque<Write>,
    pub(crate) posted: HashSet<u64>,
    pub(crate) applied: Applied,
    pub(crate) size: usize,
    ghost log_is_short: { length log.items ≤ size },
    ghost log_has_room: { size ≤ deque_capacity log },
    ghost owed_has_room: { applied.room ≤ deque_capacity owed },
    ghost held_has_room: { applied.room ≤ holding_room held.holdings },
    ghost posted_has_room: { hash_map_len held.holders ≤ hash_set.spare posted },
    ghost few_hold: { held_count held.holdings + length owed.items ≤ hash_map_len held.holders },
    ghost all_have_places: { hash_map_len held.holders + length log.items ≡ applied.room },
    ghost posted_are: { (n : ℕ) → times n (map written_by log.items)
        ≡ cond (hash_set.contains nat_eq posted n) 1 0 },
    ghost posted_by_none: { (n : ℕ) → is_some (get nat_eq held.holders n) ≡ true
        → hash_set.contains nat_eq posted n ≡ false },
    ghost nobody_holds_owed: { (n : ℕ) → times n (owed_numbers owed.items)
        ≡ owed_at (get nat_eq held.holders n) },
}

impl Writes {
    ghost use Rattle.moka_hist.specs.Finite.{put_at};
    ghost use Rattle.moka_hist.specs.Conditions.{MayLeaveWith};
    ghost use Rattle.moka_hist.specs.Visits.{first_of, holding_with, number_of, once_freed, without_moment};
    ghost use Rattle.moka_hist.specs.declared.writes.Holding.{Holding};
    ghost use Rattle.moka_hist.specs.declared.writes.Holding.TheVariants as holding;
    ghost use Rattle.moka_hist.specs.declared.writes.Write.{Write};
    ghost use Rattle.moka_desk.specs.Forgetting.{is_kept};
    ghost use Rattle.moka_desk.specs.Writes.{ForgetsIn, IsUnusedIn, WritePart, WritesAre, WritesBecome, WritesBecomeIf};

    /// No write yet, and a log of this size; with a history, or without one. Without one applied
    /// writes are listed as `lately` says.
    pub(crate) fn new(
        alloc: Global,
        size: usize,
        history: bool,
        lately: bool,
    ) -> Result<Self, AllocError>
        ensures none { IfOk result (λ writes. WritesAre writes
            (record { holding = λ _. None; owed = []; log = []; applied = []; size = size })) }
        ensures kind { IfOk result (λ writes. writes.applied.history ≡ history) }
    {
        Ok(Writes {
            held: Held::new(alloc),
            owed: VecDeque::new(alloc),
            log: VecDeque::with_capacity(alloc, size)?,
            posted: HashSet::new(alloc),
            applied: Applied::new(alloc, history, lately),
            size,
        })
    }

    /// What the call holds.
    pub(crate) fn held_by(&self, call: u64) -> Option<Holding>
        ensures { (p : WritePart) → WritesAre self.now p → result ≡ p.holding call }
    {
        self.held.get(call)
    }

    /// Whether no write of this number is held, owed, logged or applied, as far as is remembered.
    pub(crate) fn is_unused(&self, number: u64) -> bool
        ensures no { (p : WritePart) → WritesAre self.now p → IsUnusedIn p number → IsTrue result }
        ensures exact { self.now.applied.history ≡ true → (p : WritePart) → WritesAre self.now p
            → IsTrue result ↔ IsUnusedIn p number }
        ensures forgotten { IsTrue result → (p : WritePart) → WritesAre self.now p
            → ForgetsIn self.now p number }
    {
        if self.held.contains(number) {
            return false;
        }
        if self.posted.contains(&number) {
            return false;
        }
        !self.applied.recalls(number)
    }

    /// Whether the record of this stamp may still be seen: it stands by the applied writes, or its
    /// write is held, owed or logged.
    pub(crate) fn keeps(&self, stamp: u64) -> bool
        ensures { result ≡ is_kept self.now stamp }
    {
        self.applied.records.stands(stamp)
            || self.held.contains(stamp)
            || self.posted.contains(&stamp)
    }

    /// Gives the list of applied writes up, where there is no history.
    pub(crate) fn give_list_up(&mut self)
        requires { self.old.applied.history ≡ false }
        ensures makes { WritesBecome self.old (λ p. p) self.new }
        ensures kind { self.new.applied.history ≡ self.old.applied.history }
        ensures empty { self.new.applied.writes.items ≡ [] }
    {
        self.applied.give_list_up();
    }

    /// Gives the call the places of a write of its own, with the moment: held, owed, logged where
    /// the log has room, and applied. It holds nothing, and no write of its number is held or owed.
    pub(crate) fn stamp(&mut self, call: u64, moment: u64) -> Result<(), AllocError>
        requires unused { get nat_eq self.old.held.holders call ≡ None }
        requires unposted { hash_set.contains nat_eq self.old.posted call ≡ false }
        requires free { held_by self.old.held.holdings call ≡ None }
        ensures ok { OnOk result (WritesBecomeIf self.old (λ p. IsUnusedIn p call)
            (λ p. record p { holding = put_at p.holding call (Some (holding.Own (Some moment))) })
            self.new) }
        ensures err { OnErr result (WritesBecome self.old (λ p. p) self.new) }
        ensures kind { self.new.applied.history ≡ self.old.applied.history }
    {
        let room = self.applied.room.checked_add(1).ok_or(AllocError)?;
        self.held.reserve(room)?;
        deque_room::reserve(&mut self.owed, room)?;
        set_room::reserve(&mut self.posted, self.held.holders.len() + 1)?;
        self.applied.reserve()?;
        self.held.stamp(call, moment);
        Ok(())
    }

    /// Ends the pending moment of the call.
    pub(crate) fn decide(&mut self, call: u64)
        ensures makes { WritesBecome self.old (λ p. record p {
          holding = put_at p.holding call (option_map without_moment (p.holding call));
        }) self.new }
        ensures kind { self.new.applied.history ≡ self.old.applied.history }
    {
        self.held.decide(call);
    }

    /// Ends the pending moment of the call. Where it wrote nothing its places of a write are given
    /// back.
    pub(crate) fn conclude(&mut self, call: u64, wrote: bool)
        ensures makes { WritesBecomeIf self.old (λ p. wrote ≡ false →
            MayLeaveWith (p.holding call) call None)
            (λ p. record p {
              holding = put_at p.holding call (once_freed (p.holding call) wrote);
            }) self.new }
        ensures kind { self.new.applied.history ≡ self.old.applied.history }
    {
        match wrote {
            true => self.decide(call),
            false => self.give_up(call),
        }
    }

    /// Lets the call, which holds none, take the oldest owed write up.
    pub(crate) fn take_owed(&mut self, call: u64) -> Option<Owed>
        requires free { held_by self.old.held.holdings call ≡ None }
        ensures first { result ≡ first_of self.old.owed.items }
        ensures makes { WritesBecome self.old (λ p. record p {
          holding = holding_with p.holding call (option_map (λ o. o.write) (first_of p.owed));
          owed = drop 1 p.owed;
        }) self.new }
        ensures kind { self.new.applied.history ≡ self.old.applied.history }
    {
        let owed = self.owed.pop_front()?;
        self.held.take_up(call, owed.write);
        Some(owed)
    }

    /// Appends the write, which the call holds, to the log, where that has room. A pending moment
    /// of the call ends in either case.
    pub(crate) fn post(&mut self, call: u64, write: Write) -> bool
        requires { holds_number call (number_of write) (held_by self.old.held.holdings call)
            ≡ true }
        ensures room { result ≡ nat_lt (length self.old.log.items) self.old.size }
        ensures makes { WritesBecome self.old (λ p.
            let room = nat_lt (length p.log) p.size in
            record p {
              holding = put_at p.holding call
                  (cond room None (option_map without_moment (p.holding call)));
              log = cond room (p.log ++ write ∷ []) p.log;
            }) self.new }
        ensures kind { self.new.applied.history ≡ self.old.applied.history }
    {
        if self.log.len() >= self.size {
            self.held.decide(call);
            return false;
        }
        self.log_write(call, write);
        true
    }

    // Appends the write, which the call holds, to the log, which has room.
    fn log_write(&mut self, call: u64, write: Write)
        requires held { holds_number call (number_of write) (held_by self.old.held.holdings call)
            ≡ true }
        requires room { length self.old.log.items + 1 ≤ self.old.size }
        ensures makes { WritesBecome self.old (λ p. record p {
          holding = put_at p.holding call None;
          log = p.log ++ write ∷ [];
        }) self.new }
        ensures kind { self.new.applied.history ≡ self.old.applied.history }
    {
        let number = write.number();
        self.held.clear(call, number);
        self.log.push_back_reserved(write);
        add(&mut self.posted, number);
    }

    /// Applies the front of the log, and answers whether there was one.
    pub(crate) fn apply_one(&mut self) -> bool
        ensures found { result ≡ nat_lt 0 (length self.old.log.items) }
        ensures makes { WritesBecome self.old
            (λ p. record p { log = drop 1 p.log; applied = p.applied ++ take 1 p.log }) self.new }
        ensures kind { self.new.applied.history ≡ self.old.applied.history }
    {
        let Some(write) = self.log.pop_front() else {
            return false;
        };
        let _ = self.posted.remove(&write.number());
        self.applied.push(write);
        true
    }

    /// A call leaves: the write that it held is owed from then on. Where it hands none in, the
    /// place that it has for one is given up.
    pub(crate) fn leave(&mut self, call: u64, held: Option<Owed>)
        requires { IfSome held (λ o. holds_number call (number_of o.write)
            (held_by self.old.held.holdings call) ≡ true) }
        ensures makes { WritesBecomeIf self.old
            (λ p. MayLeaveWith (p.holding call) call (option_map (λ o. o.write) held))
            (λ p. record p {
              holding = put_at p.holding call None;
              owed = p.owed ++ option_to_list held;
            }) self.new }
        ensures kind { self.new.applied.history ≡ self.old.applied.history }
    {
        match held {
            Some(owed) => self.leave_owed(call, owed),
            None => self.give_up(call),
        }
    }

    // The held write is owed from then on.
    fn leave_owed(&mut self, call: u64, owed: Owed)
        requires { holds_number call (number_of owed.write) (held_by self.old.held.holdings call)
            ≡ true }
        ensures makes { WritesBecome self.old (λ p. record p {
          holding = put_at p.holding call None;
          owed = p.owed ++ owed ∷ [];
        }) self.new }
        ensures kind { self.new.applied.history ≡ self.old.applied.history }
    {
        self.held.leave(call, owed.write.number());
        self.owed.push_back_reserved(owed);
    }

    /// Gives up the places that the call has for its own write, if any: where it wrote nothing.
    pub(crate) fn give_up(&mut self, call: u64)
        ensures makes { WritesBecomeIf self.old (λ p. MayLeaveWith (p.holding call) call None)
            (λ p. record p { holding = put_at p.holding call None }) self.new }
        ensures kind { self.new.applied.history ≡ self.old.applied.history }
    {
        match self.held.get(call) {
            Some(Holding::Own { .. }) => self.give_place_up(call),
            Some(Holding::TookUp { .. }) => {}
            None => {}
        }
    }

    // Gives up the place of its own write, which the call holds.
    fn give_place_up(&mut self, call: u64)
        requires { holds_number call call (held_by self.old.held.holdings call) ≡ true }
        ensures makes { WritesBecome self.old (λ p. record p { holding = put_at p.holding call None })
            self.new }
        ensures kind { self.new.applied.history ≡ self.old.applied.history }
    {
        self.held.clear(call, call);
        self.applied.give_up();
    }
}
