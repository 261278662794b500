//! The visits that see to keys' locks and to the listener.

ghost use Rattle.std.specs.Prelude.{◌≡◌, ◌≢◌, ℕ, true, false, cond, Some, None, IfOk, OnOk, OnErr};
ghost use Rattle.std.specs.Bool.{OnTrue, OnFalse};
ghost use Rattle.std.specs.HashMap.{spare};
ghost use Rattle.moka_sync.specs.Waiting.{waits};

use crate::Desk;
use crate::lines::hand_both;
use crate::notices::Heard;
use moka_hist::{Cause, LockTaken};
use moka_sync::CallList;
use moka_values::Exact;
use std::alloc::AllocError;
use std::hash::{BuildHasher, Hash};

impl<K: Eq + Hash + Exact, V: Drop, E: Drop, S: BuildHasher + Drop> Desk<K, V, E, S> {
    ghost use Rattle.moka_hist.specs.State.{DeskPart};
    ghost use Rattle.moka_hist.specs.Telling.{heard, MayEnd};
    ghost use Rattle.moka_hist.specs.Visits.{is_running, keeper};
    ghost use Rattle.moka_hist.specs.declared.visits.Visit.TheVariants as visit;
    ghost use Rattle.moka_hist.specs.declared.visits.Found.TheVariants as found;
    ghost use Rattle.moka_hist.specs.declared.visits.LockTaken.TheVariants as lock;
    ghost use Rattle.moka_desk.specs.Waits.{comes, ended_line, is_keeper, leaves, lock_line, notice_line, stays, waits_at, EndedMove, LocksMove, NoticesMove, NobodyMoves};
    ghost use Rattle.moka_desk.specs.WakeList.{EndedWake, LocksWake, NobodyWakes, NoticesWake};
    ghost use Rattle.moka_desk.specs.Woken.{all_but, and_calls};
    ghost use Rattle.moka_desk.specs.History.{KeepsAsBefore, keeps_heard};
    ghost use Rattle.moka_desk.specs.Locks.{holder_of};
    ghost use Rattle.moka_desk.specs.StandsFor.{StandsFor, Can, Finds, Makes, Stays};
    ghost use Rattle.moka_desk.specs.ListedMiss.{MissAfter, MissWith};

    /// Takes the key's lock for the call, under whose number none is held. Where another call holds
    /// it, or the running notice of a dropped call keeps it, it answers so, and the call waits for
    /// it; where it is listed for that already no memory is wanted.
    #[cold]
    #[inline(never)]
    pub fn lock_key(&mut self, call: u64, key: &K) -> Result<LockTaken, AllocError>
        requires free { Can K.eq self.old (visit.LockKey call key.now) }
        ensures finds { IfOk result (λ taken. Finds K.eq self.old (visit.LockKey call key.now)
            (found.LockKey taken)) }
        ensures makes { OnOk result (Makes K.eq self.old (visit.LockKey call key.now) self.new) }
        ensures err { OnErr result (Stays K.eq self.old self.new) }
        // who waits
        ensures locked { IfOk result (λ taken. taken ≡ lock.Taken
            → LocksMove self.old (leaves call) self.new) }
        ensures waits { IfOk result (λ taken. taken ≢ lock.Taken → LocksMove self.old
            (waits_at (holder_of K.eq self.old.locks key.now) call) self.new) }
        ensures unlisted { OnErr result (LocksMove self.old stays self.new) }
        ensures back { OnOk result (LocksWake self.old (all_but call) self.new) }
        ensures still { OnErr result (NobodyWakes self.old self.new) }
        ensures needs_place { OnErr result ((holder : ℕ)
            → holder_of K.eq self.old.locks key.now ≡ Some holder
            → waits call (lock_line self.old holder) ≡ false) }
        // who is listed misses that thing
        ensures misses { OnOk result
            (MissAfter K.eq self.old (visit.LockKey call key.now) self.new) }
        ensures misses_still { OnErr result (MissWith K.eq self.old (λ w. w) self.new) }
        ensures kept { KeepsAsBefore self.old self.new }
    {
        if let Some(holder) = self.locks.holder(key) {
            self.waits.locks.wait(holder, call)?;
            return Ok(self.locks.taken(holder));
        }
        self.locks.lock(call, key)?;
        self.waits.locks.leave(call);
        Ok(LockTaken::Taken)
    }

    /// The notice that keeps the key's lock, if one does.
    pub fn keeper(&self, key: &K) -> Option<u64>
        ensures { (w : DeskPart K V E) → StandsFor K.eq self.now w → result ≡ keeper w key.now }
    {
        match self.locks.holder(key) {
            Some(holder) => self.if_kept(holder),
            None => None,
        }
    }

    // The number, where its notice keeps a lock.
    fn if_kept(&self, number: u64) -> Option<u64>
        ensures { result ≡ cond (is_keeper self.now number) (Some number) None }
    {
        match self.locks.is_kept(number) {
            true => Some(number),
            false => None,
        }
    }

    /// Frees the lock that the call holds, and hands out all calls that wait for it. A pending
    /// moment of the call ends. Where nothing was written under the lock (`wrote` is false), gives
    /// the call's places for a write back; the call took no owed write up then.
    #[cold]
    #[inline(never)]
    pub fn unlock_key(&mut self, call: u64, wrote: bool) -> CallList
        requires { Can K.eq self.old (visit.UnlockKey call wrote) }
        ensures makes { Makes K.eq self.old (visit.UnlockKey call wrote) self.new }
        ensures woken { result ≡ lock_line self.old call }
        ensures waits { LocksMove self.old (comes call) self.new }
        ensures wakes { LocksWake self.old (and_calls result) self.new }
        ensures misses { MissAfter K.eq self.old (visit.UnlockKey call wrote) self.new }
        ensures kept { KeepsAsBefore self.old self.new }
    {
        self.writes.conclude(call, wrote);
        self.locks.free(call);
        self.waits.locks.hand_out(call)
    }

    /// Opens the notice of the call's number for a record that its write took out: the record of
    /// this stamp, last written at the moment `modified`, in nanoseconds. Answers why the record
    /// left: the cause handed in, or else, by `upsert`, that of a record that a write replaced or a
    /// call took out. Where the listener is off the notice is skipped, and the answer is None. The
    /// call has no notice yet, and its pending moment ends.
    #[cold]
    #[inline(never)]
    pub fn open_notice(
        &mut self,
        call: u64,
        key: K,
        value: V,
        stamp: u64,
        modified: u64,
        cause: Option<Cause>,
        upsert: bool,
    ) -> Result<Option<Cause>, AllocError>
        requires { Can K.eq self.old (visit.OpenNotice call key value stamp modified cause upsert) }
        ensures finds { IfOk result (λ told. Finds K.eq self.old
            (visit.OpenNotice call key value stamp modified cause upsert) (found.OpenNotice told)) }
        ensures makes { OnOk result (Makes K.eq self.old
            (visit.OpenNotice call key value stamp modified cause upsert) self.new) }
        ensures err { OnErr result (Stays K.eq self.old self.new) }
        ensures quiet { NobodyMoves self.old self.new }
        ensures wakes { NobodyWakes self.old self.new }
        ensures misses { OnOk result (MissAfter K.eq self.old
            (visit.OpenNotice call key value stamp modified cause upsert) self.new) }
        ensures misses_still { OnErr result (MissWith K.eq self.old (λ w. w) self.new) }
        ensures kept { KeepsAsBefore self.old self.new }
    {
        let cause = self.cause_of(stamp, modified, cause, upsert);
        let asked = self.notices.open(call, Heard { key, value, cause })?;
        self.writes.decide(call);
        Ok(asked.then_some(cause))
    }

    /// Whether it is kept what the listener hears by notices: where there is a history.
    pub fn keeps_heard(&self) -> bool
        ensures { result ≡ keeps_heard self.now }
    {
        self.notices.history
    }

    /// Opens the notice of the call's number, as `open_notice` does, where it isn't kept what the
    /// listener hears by it: whatever the key and the value are, neither is needed. Memory is
    /// wanting only where no place is left of those that were taken with the moments of writes.
    #[cold]
    #[inline(never)]
    pub fn open_unheard(
        &mut self,
        call: u64,
        stamp: u64,
        modified: u64,
        cause: Option<Cause>,
        upsert: bool,
    ) -> Result<Option<Cause>, AllocError>
        requires { keeps_heard self.old ≡ false }
        ensures finds { IfOk result (λ told. (key : K) (value : V) → Finds K.eq self.old
            (visit.OpenNotice call key value stamp modified cause upsert) (found.OpenNotice told)) }
        ensures makes { OnOk result ((key : K) (value : V) → Makes K.eq self.old
            (visit.OpenNotice call key value stamp modified cause upsert) self.new) }
        ensures err { OnErr result (Stays K.eq self.old self.new) }
        ensures quiet { NobodyMoves self.old self.new }
        ensures wakes { NobodyWakes self.old self.new }
        ensures misses { OnOk result ((key : K) (value : V) → MissAfter K.eq self.old
            (visit.OpenNotice call key value stamp modified cause upsert) self.new) }
        ensures misses_still { OnErr result (MissWith K.eq self.old (λ w. w) self.new) }
        ensures needs_place { OnErr result (spare self.old.notices.running ≡ 0) }
        ensures kept { KeepsAsBefore self.old self.new }
    {
        let cause = self.cause_of(stamp, modified, cause, upsert);
        let asked = self.notices.open_unheard(call)?;
        self.writes.decide(call);
        Ok(asked.then_some(cause))
    }

    /// Whether the notice of this number runs no longer. Where it runs the call waits for its end.
    /// Only there, and where it isn't listed for that yet, memory may be wanting.
    #[cold]
    #[inline(never)]
    pub fn notice_ended(&mut self, call: u64, notice: u64) -> Result<bool, AllocError>
        ensures finds { IfOk result (λ ended. Finds K.eq self.old (visit.NoticeEnded call notice)
            (found.NoticeEnded ended)) }
        ensures makes { OnOk result (Makes K.eq self.old (visit.NoticeEnded call notice) self.new) }
        ensures err { OnErr result (Stays K.eq self.old self.new) }
        // who waits
        ensures ended { IfOk result (λ ended. OnTrue ended
            (NoticesMove self.old (leaves call) self.new)) }
        ensures waits { IfOk result
            (λ ended. OnFalse ended (NoticesMove self.old (waits_at (Some notice) call) self.new)) }
        ensures back { OnOk result (NoticesWake self.old (all_but call) self.new) }
        // want of memory
        ensures unlisted { OnErr result (NoticesMove self.old stays self.new) }
        ensures still { OnErr result (NobodyWakes self.old self.new) }
        ensures needs { OnErr result ((w : DeskPart K V E) → StandsFor K.eq self.old w
            → is_running w notice ≡ true) }
        ensures needs_place { OnErr result (waits call (notice_line self.old notice) ≡ false) }
        // who is listed misses that thing
        ensures misses { OnOk result
            (MissAfter K.eq self.old (visit.NoticeEnded call notice) self.new) }
        ensures misses_still { OnErr result (MissWith K.eq self.old (λ w. w) self.new) }
        ensures kept { KeepsAsBefore self.old self.new }
    {
        if self.notices.is_running(notice) {
            self.waits.notices.wait(notice, call)?;
            return Ok(false);
        }
        self.waits.notices.leave(call);
        Ok(true)
    }

    /// Ends the notice of this number, of which the listener was asked, and frees the lock that it
    /// keeps, if it keeps one. Hands out all calls that wait for its end, and then those that wait
    /// for that lock. Turns the listener off, if `off`. A notice that has ended stays so.
    pub fn end_notice(&mut self, notice: u64, off: bool) -> CallList
        requires { (w : DeskPart K V E) × StandsFor K.eq self.old w × MayEnd (w.notices notice) }
        ensures makes { (w : DeskPart K V E) → StandsFor K.eq self.old w → MayEnd (w.notices notice)
            → StandsFor K.eq self.new (heard w notice off) }
        ensures woken { result ≡ ended_line self.old notice }
        ensures waits { EndedMove self.old notice self.new }
        ensures wakes { EndedWake self.old notice self.new }
        ensures misses { MissWith K.eq self.old (λ w. heard w notice off) self.new }
        ensures kept { KeepsAsBefore self.old self.new }
    {
        self.end(notice, off)
    }

    /// Ends the notice of this number, if it runs, as `end_notice` does.
    pub(crate) fn end(&mut self, notice: u64, off: bool) -> CallList
        ensures makes { (w : DeskPart K V E) → StandsFor K.eq self.old w → MayEnd (w.notices notice)
            → StandsFor K.eq self.new (heard w notice off) }
        ensures woken { result ≡ ended_line self.old notice }
        ensures waits { EndedMove self.old notice self.new }
        ensures wakes { EndedWake self.old notice self.new }
        ensures misses { MissWith K.eq self.old (λ w. heard w notice off) self.new }
        ensures kept { KeepsAsBefore self.old self.new }
    {
        self.notices.end(notice, off);
        let kept = self.locks.release(notice);
        let heard = self.waits.notices.take(notice);
        let lock = self.waits.locks.take_if(notice, kept);
        hand_both(self.waits.notices.alloc, heard, lock)
    }
}
