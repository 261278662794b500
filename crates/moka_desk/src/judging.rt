//! The visits that judge records: whether they may be seen, and why they leave; and that which
//! invalidates all.

ghost use Rattle.std.specs.Prelude.{◌≡◌, ◌≤◌, ℕ, true, false, not, ◌&&◌, IfOk, OnOk, OnErr};
ghost use Rattle.std.specs.Bool.{OnFalse};

use crate::Desk;
use moka_engine::{chosen_holds, remove_cause, upsert_cause, visible};
use moka_hist::{Cause, Times};
use moka_room::map_room;
use moka_values::Exact;
use std::alloc::AllocError;
use std::hash::{BuildHasher, Hash};

impl<K: Eq + Hash + Exact, V: Drop, E: Drop, S: BuildHasher + Drop> Desk<K, V, E, S> {
    ghost use Rattle.moka_hist.specs.State.{DeskPart};
    ghost use Rattle.moka_hist.specs.Causes.{chosen_holds};
    ghost use Rattle.moka_hist.specs.Visits.{accessed_at, cause_of, judged, times_at};
    ghost use Rattle.moka_hist.specs.declared.visits.Visit.TheVariants as visit;
    ghost use Rattle.moka_desk.specs.StandsFor.{StandsFor, Becomes, Makes, Stays};
    ghost use Rattle.moka_desk.specs.History.{KeepsAsBefore, keeps_moments};
    ghost use Rattle.moka_desk.specs.ListedMiss.{MissAfter, MissWith};
    ghost use Rattle.moka_desk.specs.Moments.{AreAlike, is_shown, reads_moments};
    ghost use Rattle.moka_desk.specs.Waits.{NobodyMoves};
    ghost use Rattle.moka_desk.specs.WakeList.{NobodyWakes};

    /// Judges whether a call sees the record of this stamp, last written at the moment `modified`,
    /// in nanoseconds. It doesn't where a predicate hits the record (`hit`), nor where its replace
    /// test holds on that (`replaced`), nor where the record isn't visible by the clock. The access
    /// moment of a record that is seen is raised to the clock, where moments are kept; only that may
    /// want memory. Of one that isn't seen nothing changes.
    pub fn judge(
        &mut self,
        hit: bool,
        replaced: bool,
        stamp: u64,
        modified: u64,
    ) -> Result<bool, AllocError>
        ensures finds { IfOk result (λ seen. (w : DeskPart K V E) → StandsFor K.eq self.old w
            → seen ≡ (not replaced && is_shown w hit stamp modified)) }
        ensures makes { OnOk result (Becomes K.eq self.old
            (λ w. judged w stamp modified (not replaced && is_shown w hit stamp modified)) self.new) }
        ensures err { OnErr result (Stays K.eq self.old self.new) }
        ensures needs { OnErr result ((w : DeskPart K V E) → StandsFor K.eq self.old w
            → (not replaced && is_shown w hit stamp modified) ≡ true) }
        ensures needs_moments { OnErr result (keeps_moments self.old ≡ true) }
        ensures unkept { keeps_moments self.old ≡ false → self.new ≡ self.old }
        ensures quiet { NobodyMoves self.old self.new }
        ensures wakes { NobodyWakes self.old self.new }
        ensures misses { OnOk result (MissWith K.eq self.old
            (λ w. judged w stamp modified (not replaced && is_shown w hit stamp modified)) self.new) }
        ensures misses_still { OnErr result (MissWith K.eq self.old (λ w. w) self.new) }
        ensures kept { KeepsAsBefore self.old self.new }
    {
        if hit || replaced || (self.may_hide() && !self.scan(false, stamp, modified)) {
            return Ok(false);
        }
        self.see(stamp, modified)?;
        Ok(true)
    }

    // Answers whether anything may hide a record: a time is set, or all was invalidated. Most caches
    // have neither, so a look asks this before it gathers the record's times.
    #[inline(always)]
    fn may_hide(&self) -> bool
        ensures hides_none { OnFalse result ((w : DeskPart K V E) (stamp modified : ℕ)
            → StandsFor K.eq self.now w → is_shown w false stamp modified ≡ true) }
    {
        self.rules.time_to_live.is_some()
            || self.rules.time_to_idle.is_some()
            || self.valid_after.is_some()
    }

    // Raises the access moment of the record of this stamp, written at the moment `modified`, to
    // the clock, where moments are kept.
    #[inline(never)]
    fn see(&mut self, stamp: u64, modified: u64) -> Result<(), AllocError>
        ensures makes { OnOk result (Becomes K.eq self.old
            (λ w. judged w stamp modified true) self.new) }
        ensures err { OnErr result (Stays K.eq self.old self.new) }
        ensures needs { OnErr result (keeps_moments self.old ≡ true) }
        ensures unkept { keeps_moments self.old ≡ false → self.new ≡ self.old }
        ensures quiet { NobodyMoves self.old self.new }
        ensures wakes { NobodyWakes self.old self.new }
        ensures kept { KeepsAsBefore self.old self.new }
        ensures misses { OnOk result
            (MissWith K.eq self.old (λ w. judged w stamp modified true) self.new) }
        ensures misses_still { OnErr result (MissWith K.eq self.old (λ w. w) self.new) }
    {
        if self.keeps_moments() {
            let accessed = self.accessed.get(&stamp).copied().unwrap_or(modified);
            map_room::reserve_half(&mut self.accessed, &mut self.accessed_places, 1)?;
            self.accessed
                .insert(stamp, modified.max(accessed).max(self.clock))?;
        }
        Ok(())
    }

    /// Invalidates all records: no look shows one any more that was written before the clock. It
    /// takes no record out, and no memory.
    #[cold]
    #[inline(never)]
    pub fn invalidate_all(&mut self)
        ensures makes { Makes K.eq self.old visit.InvalidateAll self.new }
        ensures quiet { NobodyMoves self.old self.new }
        ensures wakes { NobodyWakes self.old self.new }
        ensures misses { MissAfter K.eq self.old visit.InvalidateAll self.new }
        ensures kept { KeepsAsBefore self.old self.new }
    {
        self.valid_after = Some(self.clock);
    }

    /// Answers whether the record of this stamp, last written at the moment `modified`, is visible
    /// by the clock, where a predicate hits it or none does. It changes nothing: no access moment is
    /// raised.
    #[inline(never)]
    pub fn scan(&self, hit: bool, stamp: u64, modified: u64) -> bool
        ensures { (w : DeskPart K V E) → StandsFor K.eq self.now w
            → result ≡ is_shown w hit stamp modified }
    {
        visible(&self.rules, &self.times(stamp, modified), hit)
    }

    /// Answers why the record of this stamp, last written at the moment `modified`, leaves now: for
    /// the cause handed in, or else as `upsert` says whether a write takes its place.
    pub fn cause_of(&self, stamp: u64, modified: u64, cause: Option<Cause>, upsert: bool) -> Cause
        ensures { (w : DeskPart K V E) → StandsFor K.eq self.now w
            → result ≡ cause_of w stamp modified cause upsert }
    {
        match cause {
            Some(cause) => cause,
            None if upsert => upsert_cause(&self.rules, &self.times(stamp, modified)),
            None => remove_cause(&self.rules, &self.times(stamp, modified)),
        }
    }

    /// Judges by the clock whether the record that was chosen to leave for `cause` still has to.
    /// The record has this stamp, and was last written at the moment `modified`, in nanoseconds.
    /// `Size` holds where a capacity is set, `Explicit` where all was invalidated since the record
    /// was written, or a predicate hits it (`hit`), `Expired` past its time to live or to idle, and
    /// `Replaced` never.
    pub fn holds(&self, hit: bool, stamp: u64, modified: u64, cause: Cause) -> bool
        ensures { (w : DeskPart K V E) → StandsFor K.eq self.now w
            → result ≡ chosen_holds w.rules (times_at w stamp modified) hit cause }
    {
        chosen_holds(&self.rules, &self.times(stamp, modified), hit, cause)
    }

    /// Gives the times of the record of this stamp, last written at the moment `modified`: those by
    /// which the rules judge it now. Where no rule reads when it was last accessed, the moment of
    /// its write stands for that.
    pub fn times(&self, stamp: u64, modified: u64) -> Times
        ensures { (w : DeskPart K V E) → StandsFor K.eq self.now w
            → AreAlike w.rules result (times_at w stamp modified) }
    {
        Times {
            clock: self.clock,
            valid_after: self.valid_after,
            modified,
            accessed: self.accessed_at(stamp, modified),
        }
    }

    // Gives the moment at which the record was last accessed, where a rule reads that: the later of
    // its write's and the one that is kept. Else gives that of its write, without a look-up.
    fn accessed_at(&self, stamp: u64, modified: u64) -> u64
        ensures read { (w : DeskPart K V E) → StandsFor K.eq self.now w
            → reads_moments w.rules ≡ true → result ≡ accessed_at w stamp modified }
        ensures since { modified ≤ result }
    {
        if self.rules.time_to_idle.is_none() {
            return modified;
        }
        modified.max(self.accessed.get(&stamp).copied().unwrap_or(modified))
    }
}
