//! The visits that see to writes: owed, logged and applied.

ghost use Rattle.std.specs.Prelude.{◌≡◌, ◌+◌, ◌≤◌, ℕ, true, false, Some, None, cond, IfOk, OnOk, OnErr};
ghost use Rattle.std.specs.Bool.{OnTrue, OnFalse};
ghost use Rattle.std.specs.HashMap.{hash_map_len, spare};
ghost use Rattle.moka_sync.specs.Holders.{is_others};
ghost use Rattle.moka_sync.specs.Waiting.{waits};

use crate::Desk;
use moka_hist::{Owed, Write};
use moka_sync::CallList;
use moka_values::Exact;
use std::alloc::AllocError;
use std::hash::{BuildHasher, Hash};

impl<K: Eq + Hash + Exact, V: Drop, E: Drop, S: BuildHasher + Drop> Desk<K, V, E, S> {
    ghost use Rattle.moka_hist.specs.State.{DeskPart};
    ghost use Rattle.moka_hist.specs.Visits.{is_free_for, decided as with_decided};
    ghost use Rattle.moka_hist.specs.declared.visits.Visit.TheVariants as visit;
    ghost use Rattle.moka_hist.specs.declared.visits.Found.TheVariants as found;
    ghost use Rattle.moka_desk.specs.StandsFor.{StandsFor, Can, Finds, Becomes, Makes, Stays};
    ghost use Rattle.moka_desk.specs.History.{KeepsAsBefore};
    ghost use Rattle.moka_desk.specs.ListedMiss.{MissAfter, MissWith};
    ghost use Rattle.moka_desk.specs.Waits.{comes, leaves, stays, turn_line, waits_at, NobodyMoves, TurnsMove};
    ghost use Rattle.moka_desk.specs.WakeList.{NobodyWakes, TurnsWake};
    ghost use Rattle.moka_desk.specs.Woken.{all_but, and_calls};

    /// Gives the clock's moment, in nanoseconds. Gives back the places that the call has for a
    /// write and doesn't need: it took no owed write up.
    pub fn read_clock(&mut self, call: u64) -> u64
        requires { Can K.eq self.old (visit.Clock call) }
        ensures finds { Finds K.eq self.old (visit.Clock call) (found.Clock result) }
        ensures makes { Makes K.eq self.old (visit.Clock call) self.new }
        ensures quiet { NobodyMoves self.old self.new }
        ensures wakes { NobodyWakes self.old self.new }
        ensures misses { MissAfter K.eq self.old (visit.Clock call) self.new }
        ensures kept { KeepsAsBefore self.old self.new }
    {
        self.writes.give_up(call);
        self.clock
    }

    /// Takes the oldest owed write up, if there is one, for a call that holds none. Its notice is
    /// that of which the listener was still hearing when its call left.
    pub fn take_owed(&mut self, call: u64) -> Option<Owed>
        requires { Can K.eq self.old (visit.TakeOwed call) }
        ensures finds { Finds K.eq self.old (visit.TakeOwed call) (found.TakeOwed result) }
        ensures makes { Makes K.eq self.old (visit.TakeOwed call) self.new }
        ensures quiet { NobodyMoves self.old self.new }
        ensures wakes { NobodyWakes self.old self.new }
        ensures misses { MissAfter K.eq self.old (visit.TakeOwed call) self.new }
        ensures kept { KeepsAsBefore self.old self.new }
    {
        self.writes.take_owed(call)
    }

    /// Takes the clock's moment for a write that follows, together with the places of that write,
    /// and of its notice, if there is a listener. The call holds no write, and none of its number
    /// stands anywhere.
    pub fn stamp_moment(&mut self, call: u64) -> Result<u64, AllocError>
        requires { Can K.eq self.old (visit.StampMoment call) }
        ensures finds { IfOk result (λ moment. Finds K.eq self.old (visit.StampMoment call)
            (found.StampMoment moment)) }
        ensures makes { OnOk result (Makes K.eq self.old (visit.StampMoment call) self.new) }
        ensures err { OnErr result (Stays K.eq self.old self.new) }
        ensures quiet { NobodyMoves self.old self.new }
        ensures wakes { NobodyWakes self.old self.new }
        ensures misses { OnOk result (MissAfter K.eq self.old (visit.StampMoment call) self.new) }
        ensures misses_still { OnErr result (MissWith K.eq self.old (λ w. w) self.new) }
        // A place for the notice of each call that has places for a write, and of this one.
        ensures place { OnOk result (self.old.rules.listener ≡ true
            → hash_map_len self.old.writes.held.holders + 1 ≤ spare self.new.notices.running) }
        ensures kept { KeepsAsBefore self.old self.new }
    {
        let calls = self.writes.held.holders.len() + 1;
        self.notices.reserve(self.rules.listener, calls)?;
        self.writes.stamp(call, self.clock)?;
        Ok(self.clock)
    }

    /// Ends the pending moment of the call.
    pub fn decided(&mut self, call: u64)
        ensures makes { Becomes K.eq self.old (λ w. with_decided w call) self.new }
        ensures quiet { NobodyMoves self.old self.new }
        ensures wakes { NobodyWakes self.old self.new }
        ensures misses { MissWith K.eq self.old (λ w. with_decided w call) self.new }
        ensures kept { KeepsAsBefore self.old self.new }
    {
        self.writes.decide(call);
    }

    /// Appends the write that the call holds to the log. Answers false where the log is full; the
    /// call goes on holding the write then. A pending moment of the call ends in either case.
    pub fn post_write(&mut self, call: u64, write: Write) -> bool
        requires { Can K.eq self.old (visit.PostWrite call write) }
        ensures finds { Finds K.eq self.old (visit.PostWrite call write) (found.PostWrite result) }
        ensures makes { Makes K.eq self.old (visit.PostWrite call write) self.new }
        ensures quiet { NobodyMoves self.old self.new }
        ensures wakes { NobodyWakes self.old self.new }
        ensures misses { MissAfter K.eq self.old (visit.PostWrite call write) self.new }
        ensures kept { KeepsAsBefore self.old self.new }
    {
        self.writes.post(call, write)
    }

    /// Takes the maintenance turn for the call, which doesn't have it. Answers false where another
    /// call has it; the call waits for it then. Only there, and where it isn't listed for it yet,
    /// memory may be wanting.
    #[cold]
    #[inline(never)]
    pub fn take_turn(&mut self, call: u64) -> Result<bool, AllocError>
        requires { Can K.eq self.old (visit.TakeTurn call) }
        ensures finds { IfOk result (λ taken. Finds K.eq self.old (visit.TakeTurn call)
            (found.TakeTurn taken)) }
        ensures makes { OnOk result (Makes K.eq self.old (visit.TakeTurn call) self.new) }
        ensures err { OnErr result (Stays K.eq self.old self.new) }
        // who waits
        ensures taken { IfOk result (λ taken. OnTrue taken
            (TurnsMove self.old (leaves call) self.new)) }
        ensures waits { IfOk result
            (λ taken. OnFalse taken (TurnsMove self.old (waits_at self.old.turn call) self.new)) }
        ensures back { OnOk result (TurnsWake self.old (all_but call) self.new) }
        // want of memory
        ensures unlisted { OnErr result (TurnsMove self.old stays self.new) }
        ensures still { OnErr result (NobodyWakes self.old self.new) }
        ensures needs { OnErr result ((w : DeskPart K V E) → StandsFor K.eq self.old w
            → is_free_for w call ≡ false) }
        ensures needs_place { OnErr result ((holder : ℕ) → self.old.turn ≡ Some holder
            → waits call (turn_line self.old holder) ≡ false) }
        // who is listed misses that thing
        ensures misses { OnOk result (MissAfter K.eq self.old (visit.TakeTurn call) self.new) }
        ensures misses_still { OnErr result (MissWith K.eq self.old (λ w. w) self.new) }
        ensures kept { KeepsAsBefore self.old self.new }
    {
        if let Some(holder) = self.turn_of_another(call) {
            self.waits.turns.wait(holder, call)?;
            return Ok(false);
        }
        self.waits.turns.leave(call);
        self.turn = Some(call);
        Ok(true)
    }

    // The call that has the turn, if that is another.
    fn turn_of_another(&self, call: u64) -> Option<u64>
        ensures { result ≡ cond (is_others self.now.turn call) self.now.turn None }
    {
        self.turn.filter(|holder| *holder != call)
    }

    /// Applies the oldest write of the log, for the call that has the turn. Answers whether there
    /// was one.
    #[cold]
    #[inline(never)]
    pub fn apply_one(&mut self, call: u64) -> bool
        requires { Can K.eq self.old (visit.ApplyOne call) }
        ensures finds { Finds K.eq self.old (visit.ApplyOne call) (found.ApplyOne result) }
        ensures makes { Makes K.eq self.old (visit.ApplyOne call) self.new }
        ensures quiet { NobodyMoves self.old self.new }
        ensures wakes { NobodyWakes self.old self.new }
        ensures misses { MissAfter K.eq self.old (visit.ApplyOne call) self.new }
        ensures kept { KeepsAsBefore self.old self.new }
    {
        self.writes.apply_one()
    }

    /// Publishes how many applied upserts stand unreplaced, gives up the turn, which the call has,
    /// and hands out all calls that wait for it.
    #[cold]
    #[inline(never)]
    pub fn end_turn(&mut self, call: u64) -> CallList
        requires { Can K.eq self.old (visit.EndTurn call) }
        ensures makes { Makes K.eq self.old (visit.EndTurn call) self.new }
        ensures woken { result ≡ turn_line self.old call }
        ensures waits { TurnsMove self.old (comes call) self.new }
        ensures wakes { TurnsWake self.old (and_calls result) self.new }
        ensures misses { MissAfter K.eq self.old (visit.EndTurn call) self.new }
        ensures kept { KeepsAsBefore self.old self.new }
    {
        self.published = self.writes.applied.standing();
        self.turn = None;
        self.waits.turns.hand_out(call)
    }
}
