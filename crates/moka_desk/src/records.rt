//! The records that stand by the writes that were applied.

ghost use Rattle.std.specs.Prelude.{◌≡◌, ℕ, ◌+◌, ◌≤◌, ◌<◌, ◌==◌, Bool, false, not, ◌||◌, ◌&&◌, cond, [], ◌∷◌, ◌++◌, List, Option, min, nat_eq, OnOk, if◌then◌else◌};
ghost use Rattle.std.specs.HashSet as hash_set;
ghost use Rattle.moka_hist.specs.Visits.{is_replaced, number_of, standing};
ghost use Rattle.moka_hist.specs.declared.writes.Write.{Write as write_of};
ghost use Rattle.moka_hist.specs.declared.writes.Write.TheVariants.{Upsert as upsert};
ghost use Rattle.moka_desk.specs.Records.{and_this, is_made, RecordsAre, RecordsStay};

use crate::maps::{add, take_out};
use moka_hist::Write;
use moka_room::set_room;
use std::alloc::{AllocError, Global};
use std::collections::HashSet;

/// The stamps of the records that applied writes made, and none of them replaced or removed; and
/// the stamps that were replaced or removed before the write was applied that makes their record.
/// Each goes out of these as its record comes and goes, so they hold what is stored or under way.
/// `places` is how many stamps of standing records there was room for when that last changed.
#[derive(Drop)]
pub(crate) struct Records {
    pub(crate) standing: HashSet<u64>,
    pub(crate) places: usize,
    pub(crate) early: HashSet<u64>,
}

impl Records {
    /// No write was applied.
    pub(crate) fn new(alloc: Global) -> Self
        ensures { RecordsAre result [] (is_replaced []) }
    {
        Records {
            standing: HashSet::new(alloc),
            places: 0,
            early: HashSet::new(alloc),
        }
    }

    /// How many records stand.
    pub(crate) fn count(&self) -> u64
        ensures { (writes : List write_of) → RecordsAre self.now writes (is_replaced writes)
            → result ≡ standing writes }
    {
        self.standing.len() as u64
    }

    /// Whether the record of this stamp stands.
    pub(crate) fn stands(&self, stamp: u64) -> bool
        ensures { result ≡ hash_set.contains nat_eq self.now.standing stamp }
    {
        self.standing.contains(&stamp)
    }

    /// Makes room for so many writes that are applied. Room that is far more than that is given back.
    pub(crate) fn reserve(&mut self, room: usize) -> Result<(), AllocError>
        ensures same { RecordsStay self.old self.new }
        ensures standing { min room (hash_set.spare self.old.standing)
            ≤ hash_set.spare self.new.standing }
        ensures early { min room (hash_set.spare self.old.early) ≤ hash_set.spare self.new.early }
        ensures room { OnOk result ((room ≤ hash_set.spare self.new.standing)
            × (room ≤ hash_set.spare self.new.early)) }
    {
        set_room::reserve_half(&mut self.standing, &mut self.places, room)?;
        set_room::reserve(&mut self.early, room)
    }

    /// Applies the write, whose number made no record before. There is room for it.
    pub(crate) fn apply(&mut self, write: Write)
        requires standing { 0 < hash_set.spare self.old.standing }
        requires early { 0 < hash_set.spare self.old.early }
        ensures applies { (writes : List write_of) → RecordsAre self.old writes (is_replaced writes)
            → is_made writes (number_of write) ≡ false → RecordsAre self.new
            (writes ++ write ∷ []) (is_replaced (writes ++ write ∷ [])) }
        ensures standing { hash_set.spare self.old.standing
            ≤ hash_set.spare self.new.standing + 1 }
        ensures early { hash_set.spare self.old.early ≤ hash_set.spare self.new.early + 1 }
    {
        match write {
            Write::Upsert { number, old } => self.upsert(number, old),
            Write::Remove { number: _, old } => self.go(old),
        }
    }

    // Applies an upsert of this number, by which the record of the old stamp goes, if there is one.
    fn upsert(&mut self, number: u64, old: Option<u64>)
        requires standing { 0 < hash_set.spare self.old.standing }
        requires early { 0 < hash_set.spare self.old.early }
        ensures applies { (writes : List write_of) (gone : ℕ → Bool)
            → RecordsAre self.old writes gone → is_made writes number ≡ false
            → RecordsAre self.new (writes ++ upsert number old ∷ []) (and_this gone old) }
        ensures standing { hash_set.spare self.old.standing
            ≤ hash_set.spare self.new.standing + 1 }
        ensures early { hash_set.spare self.old.early ≤ hash_set.spare self.new.early + 1 }
    {
        self.come(number);
        if let Some(stamp) = old {
            self.go(stamp);
        }
    }

    // The record of this number comes: it stands, unless it went before.
    fn come(&mut self, number: u64)
        requires { 0 < hash_set.spare self.old.standing }
        ensures comes { (writes : List write_of) (gone : ℕ → Bool) (old : Option ℕ)
            → RecordsAre self.old writes gone → is_made writes number ≡ false
            → RecordsAre self.new (writes ++ upsert number old ∷ []) gone }
        ensures standing { hash_set.spare self.old.standing
            ≤ hash_set.spare self.new.standing + 1 }
        ensures early { hash_set.spare self.old.early ≤ hash_set.spare self.new.early }
    {
        if !take_out(&mut self.early, number) {
            add(&mut self.standing, number);
        }
    }

    // The record of this stamp goes: it stands no longer, or never will.
    fn go(&mut self, stamp: u64)
        requires { 0 < hash_set.spare self.old.early }
        ensures goes { (writes : List write_of) (gone : ℕ → Bool) → RecordsAre self.old writes gone
            → RecordsAre self.new writes (and_this gone (Some stamp)) }
        ensures standing { hash_set.spare self.old.standing ≤ hash_set.spare self.new.standing }
        ensures early { hash_set.spare self.old.early ≤ hash_set.spare self.new.early + 1 }
    {
        if !self.standing.remove(&stamp) {
            add(&mut self.early, stamp);
        }
    }
}
