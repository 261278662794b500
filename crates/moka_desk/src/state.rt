//! The desk, its clock and its numbers.

ghost use Rattle.moka_desk.specs.Moments.{reads_moments};
ghost use Rattle.std.specs.Prelude.{◌≡◌, ℕ, Bool, true, false, ◌+◌, ◌==◌, nat_lt, not, Option, Some, None, MatchOption, IfOk, if◌then◌else◌};

use crate::asks::Asks;
use crate::loads::Loads;
use crate::locks::Locks;
use crate::notices::Notices;
use crate::predicates::Predicates;
use crate::waits::Waits;
use crate::writes::Writes;
use moka_hist::{Notice, Owed, Rules, Write};
use moka_room::FixedSeed;
use moka_values::Exact;
use std::alloc::{AllocError, Global};
use std::collections::{HashMap, VecDeque};
use std::hash::{BuildHasher, Hash};

/// What calls leave for one another: the clock, the writes that aren't applied yet, the owners of
/// loads and those that wait for them, and open asks. Moments are nanoseconds, and calls go by
/// their numbers. A call that takes a moment, owns a load or opens an ask gets the places of what
/// follows, so that a later visit never fails for want of memory where its signature has no error.
/// Keys of loads and locks are hashed by S.
#[derive(Drop)]
pub struct Desk<K: Eq + Hash, V, E, S: BuildHasher = FixedSeed> {
    pub(crate) rules: Rules,
    pub(crate) clock: u64,
    pub(crate) valid_after: Option<u64>,
    pub(crate) predicates: Predicates,
    pub(crate) moments: bool,
    pub(crate) accessed: HashMap<u64, u64>,
    pub(crate) accessed_places: usize,
    pub(crate) turn: Option<u64>,
    pub(crate) published: u64,
    pub(crate) last: u64,
    pub(crate) writes: Writes,
    pub(crate) loads: Loads<K, V, E, S>,
    pub(crate) locks: Locks<K, S>,
    pub(crate) notices: Notices<K, V>,
    pub(crate) asks: Asks<V, E>,
    pub(crate) waits: Waits,
}

impl<K: Eq + Hash + Exact, V: Drop, E: Drop> Desk<K, V, E> {
    ghost use Rattle.moka_hist.specs.State.{DeskPart, Handed, fresh_desk};
    ghost use Rattle.moka_desk.specs.StandsFor.{StandsFor};
    ghost use Rattle.moka_desk.specs.History.{keeps_history};
    ghost use Rattle.moka_desk.specs.ListedMiss.{ListedMiss};
    ghost use Rattle.moka_desk.specs.WakeList.{is_on, wake_list};

    /// Makes a desk by these rules, where nothing has happened, with a log of this many writes. It
    /// keeps a history: the applied writes, each notice, and when each record was seen.
    pub fn new(alloc: Global, rules: Rules, log: usize) -> Result<Self, AllocError>
        ensures stands { IfOk result (λ desk. (handed : Handed K V)
            → StandsFor K.eq desk (fresh_desk K V E rules log handed)) }
        ensures history { IfOk result (λ desk. keeps_history desk ≡ true) }
        ensures misses { IfOk result (λ desk. (w : DeskPart K V E) → ListedMiss desk w) }
        ensures unwoken { IfOk result (λ desk. (call : ℕ) → is_on (wake_list desk) call ≡ false) }
    {
        Desk::starting_after(alloc, rules, log, 0)
    }

    /// Makes a desk with a history, where this call number and those before it were given out.
    pub fn starting_after(
        alloc: Global,
        rules: Rules,
        log: usize,
        last: u64,
    ) -> Result<Self, AllocError>
        ensures stands { IfOk result (λ desk. (handed : Handed K V)
            → StandsFor K.eq desk (record (fresh_desk K V E rules log handed) { last = last })) }
        ensures history { IfOk result (λ desk. keeps_history desk ≡ true) }
        ensures misses { IfOk result (λ desk. (w : DeskPart K V E) → ListedMiss desk w) }
        ensures unwoken { IfOk result (λ desk. (call : ℕ) → is_on (wake_list desk) call ≡ false) }
    {
        Desk::made(alloc, rules, log, last, true, FixedSeed::new())
    }
}

impl<K: Eq + Hash + Exact, V: Drop, E: Drop, S: BuildHasher + Drop> Desk<K, V, E, S> {
    ghost use Rattle.moka_hist.specs.State.{DeskPart, Handed, fresh_desk};
    ghost use Rattle.moka_hist.specs.Run.{last_call};
    ghost use Rattle.moka_desk.specs.StandsFor.{StandsFor, Becomes};
    ghost use Rattle.moka_desk.specs.History.{KeepsAll, KeepsAsBefore, keeps_history, keeps_moments};
    ghost use Rattle.moka_desk.specs.ListedMiss.{ListedMiss, MissWith};
    ghost use Rattle.moka_desk.specs.Waits.{NobodyMoves};
    ghost use Rattle.moka_desk.specs.WakeList.{is_on, wake_list, ListedAreUnwoken, NobodyWakes};

    /// Makes a desk where nothing has happened, and that keeps no history: of the past it keeps
    /// what a later visit may ask for. Keys are hashed by clones of this hasher.
    pub fn without_history(
        alloc: Global,
        rules: Rules,
        log: usize,
        last: u64,
        hasher: S,
    ) -> Result<Self, AllocError>
    where
        S: Clone,
        ensures stands { IfOk result (λ desk. (handed : Handed K V)
            → StandsFor K.eq desk (record (fresh_desk K V E rules log handed) { last = last })) }
        ensures history { IfOk result (λ desk. keeps_history desk ≡ false) }
        ensures kind { IfOk result (λ desk. KeepsAll false desk) }
        ensures misses { IfOk result (λ desk. (w : DeskPart K V E) → ListedMiss desk w) }
        ensures unwoken { IfOk result (λ desk. (call : ℕ) → is_on (wake_list desk) call ≡ false) }
    {
        Desk::made(alloc, rules, log, last, false, hasher)
    }

    // A desk where this call number and those before it were given out, with a history or without
    // one.
    fn made(
        alloc: Global,
        rules: Rules,
        log: usize,
        last: u64,
        history: bool,
        hasher: S,
    ) -> Result<Self, AllocError>
    where
        S: Clone,
        ensures stands { IfOk result (λ desk. (handed : Handed K V)
            → StandsFor K.eq desk (record (fresh_desk K V E rules log handed) { last = last })) }
        ensures history { IfOk result (λ desk. keeps_history desk ≡ history) }
        ensures kind { IfOk result (λ desk. KeepsAll history desk) }
        ensures misses { IfOk result (λ desk. (w : DeskPart K V E) → ListedMiss desk w) }
        ensures unwoken { IfOk result (λ desk. (call : ℕ) → is_on (wake_list desk) call ≡ false) }
    {
        let of_loads = hasher.clone()?;
        Ok(Desk {
            rules,
            clock: 0,
            valid_after: None,
            predicates: Predicates::new(alloc),
            moments: history,
            accessed: HashMap::new(alloc),
            accessed_places: 0,
            turn: None,
            published: 0,
            last,
            writes: Writes::new(alloc, log, history, reads_moments(&rules))?,
            loads: Loads::new(alloc, of_loads),
            locks: Locks::new(alloc, hasher),
            notices: Notices::new(alloc, history),
            asks: Asks::new(alloc),
            waits: Waits::new(alloc),
        })
    }

    /// What the cache was built with.
    pub fn rules(&self) -> Rules
        ensures { (w : DeskPart K V E) → StandsFor K.eq self.now w → result ≡ w.rules }
    {
        self.rules
    }

    /// The clock's moment.
    pub fn clock(&self) -> u64
        ensures { (w : DeskPart K V E) → StandsFor K.eq self.now w → result ≡ w.clock }
    {
        self.clock
    }

    /// The greatest call number that was given out, or 0.
    pub fn last(&self) -> u64
        ensures { (w : DeskPart K V E) → StandsFor K.eq self.now w → result ≡ w.last }
    {
        self.last
    }

    /// Moves the clock on to the moment. Answers false where that is before the clock; nothing has
    /// changed then.
    pub fn at(&mut self, moment: u64) -> bool
        ensures finds { (w : DeskPart K V E) → StandsFor K.eq self.old w →
            result ≡ not (nat_lt moment w.clock) }
        ensures makes { Becomes K.eq self.old
            (λ w. if nat_lt moment w.clock then w else record w { clock = moment }) self.new }
        ensures misses { MissWith K.eq self.old
            (λ w. if nat_lt moment w.clock then w else record w { clock = moment }) self.new }
        ensures quiet { NobodyMoves self.old self.new }
        ensures wakes { NobodyWakes self.old self.new }
        ensures kept { KeepsAsBefore self.old self.new }
    {
        if moment < self.clock {
            return false;
        }
        self.clock = moment;
        true
    }

    /// Gives the next call number out. Answers None where the greatest one was given out; nothing
    /// has changed then.
    pub fn enter(&mut self) -> Option<u64>
        ensures finds { (w : DeskPart K V E) → StandsFor K.eq self.old w
            → result ≡ (if w.last == last_call then None else Some (w.last + 1)) }
        ensures makes { (w : DeskPart K V E) → StandsFor K.eq self.old w
            → MatchOption result (StandsFor K.eq self.new w)
            (λ n. StandsFor K.eq self.new (record w { last = n })) }
        ensures misses { (w : DeskPart K V E) → ListedMiss self.old w
            → MatchOption result (ListedMiss self.new w)
            (λ n. ListedMiss self.new (record w { last = n })) }
        ensures quiet { NobodyMoves self.old self.new }
        ensures wakes { NobodyWakes self.old self.new }
        ensures kept { KeepsAsBefore self.old self.new }
    {
        let next = self.last.checked_add(1)?;
        self.last = next;
        Some(next)
    }

    /// The writes that dropped calls left, oldest first, with the notices that ran then.
    pub fn owed(&self) -> &VecDeque<Owed>
        ensures { (w : DeskPart K V E) → StandsFor K.eq self.now w → result.now.items ≡ w.owed }
    {
        &self.writes.owed
    }

    /// The writes in the log, oldest first.
    pub fn logged(&self) -> &VecDeque<Write>
        ensures { (w : DeskPart K V E) → StandsFor K.eq self.now w → result.now.items ≡ w.log }
    {
        &self.writes.log
    }

    /// The applied writes, oldest first, where there is a history; none where there isn't.
    pub fn applied(&self) -> &[Write]
        ensures { keeps_history self.now ≡ true → (w : DeskPart K V E)
            → StandsFor K.eq self.now w → result.now ≡ w.applied }
    {
        self.writes.applied.writes.as_slice()
    }

    /// How many applied upserts stood unreplaced as the last turn ended.
    pub fn published(&self) -> u64
        ensures { (w : DeskPart K V E) → StandsFor K.eq self.now w → result ≡ w.published }
    {
        self.published
    }

    /// The notice of this number, if one was opened, where there is a history; without one it isn't
    /// kept what the listener hears by it.
    pub fn notice(&self, number: u64) -> Result<Option<Notice<K, V>>, AllocError>
    where
        V: Exact,
        ensures whole { IfOk result (λ notice. keeps_history self.now ≡ true → (w : DeskPart K V E)
            → StandsFor K.eq self.now w → notice ≡ w.notices number) }
    {
        self.notices.notice(number)
    }

    /// The numbers of the notices that were opened, in the order in which they were, where there is
    /// a history; none where there isn't.
    pub fn opened(&self) -> &[u64]
        ensures { keeps_history self.now ≡ true → (w : DeskPart K V E)
            → StandsFor K.eq self.now w → result.now ≡ w.opened }
    {
        self.notices.opened.as_slice()
    }

    /// Whether the listener has answered that it is off.
    pub fn is_off(&self) -> bool
        ensures { (w : DeskPart K V E) → StandsFor K.eq self.now w → result ≡ w.off }
    {
        self.notices.off
    }

    // Whether it is kept when records were seen: where there is a history, or a rule reads that.
    pub(crate) fn keeps_moments(&self) -> bool
        ensures { result ≡ keeps_moments self.now }
    {
        self.moments || reads_moments(&self.rules)
    }

    /// Whether the call was handed out, and since then has neither come back to the visit at which
    /// it waited nor left.
    pub fn is_woken(&self, call: u64) -> bool
        ensures woken { result ≡ is_on (wake_list self.now) call }
        ensures once { ListedAreUnwoken self.now }
    {
        self.waits.is_woken(call) || self.asks.is_woken(call)
    }
}

/// Whether a rule reads when a record was last seen: a time to idle. A capacity alone doesn't,
/// since no visit chooses records by size.
fn reads_moments(rules: &Rules) -> bool
    ensures { result ≡ reads_moments rules.now }
{
    rules.time_to_idle.is_some()
}
