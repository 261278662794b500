//! Forgetting when records were seen that have left.

ghost use Rattle.std.specs.Prelude.{◌≡◌, ℕ, ◌==◌, ◌&&◌, [], not, cond, false, None, nat_eq};
ghost use Rattle.std.specs.HashMap.{get};
ghost use Rattle.std.specs.List.{list_any};
ghost use Rattle.moka_desk.specs.Forgetting.{is_kept, names};
ghost use Rattle.moka_hist.specs.Visits.{old_of};

use crate::Desk;
use crate::writes::Writes;
use moka_hist::Write;
use moka_values::Exact;
use std::collections::HashMap;
use std::hash::{BuildHasher, Hash};

impl<K: Eq + Hash + Exact, V: Drop, E: Drop, S: BuildHasher + Drop> Desk<K, V, E, S> {
    ghost use Rattle.moka_desk.specs.StandsFor.{Becomes};
    ghost use Rattle.moka_desk.specs.History.{KeepsAsBefore};
    ghost use Rattle.moka_desk.specs.Forgetting.{forgotten, has_left};
    ghost use Rattle.moka_desk.specs.ListedMiss.{MissWith};
    ghost use Rattle.moka_desk.specs.Waits.{NobodyMoves};
    ghost use Rattle.moka_desk.specs.WakeList.{NobodyWakes};

    /// Forgets when those records were seen that have left by the writes which were applied since
    /// this was last called. Afterwards the desk stands for a state without their moments. A desk
    /// with a history forgets nothing. While a call is still to judge a record that it found, this
    /// is not to be called, since the call judges by that moment. It takes no memory.
    pub fn forget_left(&mut self)
        ensures makes { Becomes K.eq self.old (forgotten (has_left self.old.writes)) self.new }
        ensures done { self.old.writes.applied.history ≡ false
            → self.new.writes.applied.writes.items ≡ [] }
        ensures quiet { NobodyMoves self.old self.new }
        ensures wakes { NobodyWakes self.old self.new }
        ensures misses { MissWith K.eq self.old (forgotten (has_left self.old.writes)) self.new }
        ensures kept { KeepsAsBefore self.old self.new }
    {
        if self.writes.applied.history || self.writes.applied.writes.is_empty() {
            return;
        }
        forget_listed(&mut self.accessed, &self.writes);
        self.writes.give_list_up();
    }
}

// Forgets the moments of the records that the listed writes made or let go, and that have left.
#[inline(never)]
fn forget_listed(accessed: &mut HashMap<u64, u64>, writes: &Writes)
    ensures { (n : ℕ) → get nat_eq accessed.new n
        ≡ cond (list_any (names n) writes.now.applied.writes.items && not (is_kept writes.now n))
        None (get nat_eq accessed.old n) }
{
    forget_named(accessed, writes, &writes.applied.writes);
}

// Forgets the moments of the records that these writes made or let go, and that have left.
fn forget_named(accessed: &mut HashMap<u64, u64>, writes: &Writes, named: &[Write])
    ensures { (n : ℕ) → get nat_eq accessed.new n
        ≡ cond (list_any (names n) named.now && not (is_kept writes.now n)) None
        (get nat_eq accessed.old n) }
{
    for write in named {
        forget_by(accessed, writes, write);
    }
}

// Forgets the moments of the records that the write made or let go, and that have left.
fn forget_by(accessed: &mut HashMap<u64, u64>, writes: &Writes, write: &Write)
    ensures { (n : ℕ) → get nat_eq accessed.new n
        ≡ cond (names n write.now && not (is_kept writes.now n)) None (get nat_eq accessed.old n) }
{
    forget(accessed, writes, write.number());
    match old_of(write) {
        Some(old) => forget(accessed, writes, old),
        None => {}
    }
}

// The stamp of the record that the write let go, if it did.
fn old_of(write: &Write) -> Option<u64>
    ensures { result ≡ old_of write.now }
{
    match write {
        Write::Upsert { old, .. } => *old,
        Write::Remove { old, .. } => Some(*old),
    }
}

// Forgets the moment of the record of this stamp, if that has left.
fn forget(accessed: &mut HashMap<u64, u64>, writes: &Writes, stamp: u64)
    ensures { (n : ℕ) → get nat_eq accessed.new n
        ≡ cond ((stamp == n) && not (is_kept writes.now n)) None (get nat_eq accessed.old n) }
{
    if !writes.keeps(stamp) {
        let _ = accessed.remove(&stamp);
    }
}
