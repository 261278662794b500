//! The calls that wait for what another call has or brings.

ghost use Rattle.std.specs.Prelude.{◌≡◌, ◌++◌, ◌||◌, ◌&&◌, false, not, cond, ◌==◌, [], ℕ};
ghost use Rattle.moka_sync.specs.Waiting.{without};
ghost use Rattle.moka_desk.specs.Lines.{line_at};
ghost use Rattle.moka_desk.specs.Woken.{all_but, and_calls, is_out};

use crate::lines::{Lines, hand_both};
use moka_sync::CallList;
use std::alloc::Global;

/// Those that wait, by the number of the call that they wait for: for the turn or the lock that it
/// has, for how it settles its load, and for the end of the notice of its number.
#[derive(Drop)]
pub(crate) struct Waits {
    pub(crate) turns: Lines,
    pub(crate) settlements: Lines,
    pub(crate) locks: Lines,
    pub(crate) notices: Lines,
}

impl Waits {
    /// Nobody waits.
    pub(crate) fn new(alloc: Global) -> Self
        ensures turns { (n : ℕ) → line_at result.turns.lists n ≡ [] }
        ensures settlements { (n : ℕ) → line_at result.settlements.lists n ≡ [] }
        ensures locks { (n : ℕ) → line_at result.locks.lists n ≡ [] }
        ensures notices { (n : ℕ) → line_at result.notices.lists n ≡ [] }
        ensures unwoken { (call : ℕ) → is_out result.turns call || is_out result.settlements call
            || is_out result.locks call || is_out result.notices call ≡ false }
    {
        Waits {
            turns: Lines::new(alloc),
            settlements: Lines::new(alloc),
            locks: Lines::new(alloc),
            notices: Lines::new(alloc),
        }
    }

    /// A call leaves: it waits for nothing any more; those that wait for how it settles its load,
    /// and then those that wait for its lock, are handed out. The latter go on waiting where the
    /// call's notice `runs`, which keeps that lock.
    pub(crate) fn leave(&mut self, call: u64, runs: bool) -> CallList
        ensures woken { result ≡ without call (line_at self.old.settlements.lists call)
            ++ without call (cond runs [] (line_at self.old.locks.lists call)) }
        // who waits
        ensures turns { (n : ℕ) → line_at self.new.turns.lists n
            ≡ without call (line_at self.old.turns.lists n) }
        ensures settlements { (n : ℕ) → line_at self.new.settlements.lists n
            ≡ cond (call == n) [] (without call (line_at self.old.settlements.lists n)) }
        ensures locks { (n : ℕ) → line_at self.new.locks.lists n
            ≡ cond (not runs && call == n) [] (without call (line_at self.old.locks.lists n)) }
        ensures notices { (n : ℕ) → line_at self.new.notices.lists n
            ≡ without call (line_at self.old.notices.lists n) }
        // who is woken
        ensures turns_woken { (c : ℕ) → is_out self.new.turns c
            ≡ all_but call (is_out self.old.turns) c }
        ensures settlements_woken { (c : ℕ) → is_out self.new.settlements c ≡ all_but call
            (and_calls (line_at self.old.settlements.lists call) (is_out self.old.settlements)) c }
        ensures locks_woken { (c : ℕ) → is_out self.new.locks c ≡ all_but call
            (and_calls (cond runs [] (line_at self.old.locks.lists call))
            (is_out self.old.locks)) c }
        ensures notices_woken { (c : ℕ) → is_out self.new.notices c
            ≡ all_but call (is_out self.old.notices) c }
    {
        self.turns.leave(call);
        self.settlements.leave(call);
        self.locks.leave(call);
        self.notices.leave(call);
        let load = self.settlements.take(call);
        let lock = self.locks.take_if(call, !runs);
        hand_both(self.locks.alloc, load, lock)
    }

    /// Whether the call was handed out and has not come back since.
    pub(crate) fn is_woken(&self, call: u64) -> bool
        ensures { result ≡ is_out self.now.turns call || is_out self.now.settlements call
            || is_out self.now.locks call || is_out self.now.notices call }
    {
        self.turns.is_woken(call)
            || self.settlements.is_woken(call)
            || self.locks.is_woken(call)
            || self.notices.is_woken(call)
    }
}
