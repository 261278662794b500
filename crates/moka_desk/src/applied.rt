//! The writes that maintenance has applied, as far as anybody asks for them.

ghost use Rattle.std.specs.Prelude.{◌≡◌, ℕ, ◌+◌, ◌≤◌, ◌<◌, ◌==◌, ◌||◌, true, false, [], ◌∷◌, ◌++◌, List, nat_eq, OnOk, OnErr, vec_len, vec_capacity};
ghost use Rattle.std.specs.HashSet as hash_set;
ghost use Rattle.std.specs.List.{list_any};
ghost use Rattle.moka_hist.specs.Visits.{number_of, standing as standing_of};
ghost use Rattle.moka_hist.specs.declared.writes.Write.{Write as write_of};

use crate::records::Records;
use moka_hist::Write;
use std::alloc::{AllocError, Global};

/// The records that applied writes left standing, kept as they come; and writes, oldest first: with a
/// history all, and else, where they are listed, those since the list was last given up. Each place
/// that was reserved takes one more write without memory.
#[derive(Drop)]
pub(crate) struct Applied {
    pub(crate) history: bool,
    pub(crate) listed: bool,
    pub(crate) writes: Vec<Write>,
    pub(crate) records: Records,
    pub(crate) room: usize,
    ghost history_is_listed: { history ≡ true → listed ≡ true },
    ghost room_for_writes: { listed ≡ true → vec_len writes + room ≤ vec_capacity writes },
    ghost room_to_stand: { room ≤ hash_set.spare records.standing },
    ghost room_to_go: { room ≤ hash_set.spare records.early },
}

impl Applied {
    ghost use Rattle.moka_desk.specs.Applied.{AppliedAre, AppliedStays};
    ghost use Rattle.moka_desk.specs.Records.{is_made};

    /// Nothing was applied, and no place is reserved. Writes are listed with a history, and else as
    /// `lately` says.
    pub(crate) fn new(alloc: Global, history: bool, lately: bool) -> Self
        ensures none { AppliedAre result [] }
        ensures kind { result.history ≡ history }
        ensures listed { result.listed ≡ (history || lately) }
        ensures empty { result.writes.items ≡ [] }
        ensures room { result.room ≡ 0 }
    {
        Applied {
            history,
            listed: history || lately,
            writes: Vec::new(alloc),
            records: Records::new(alloc),
            room: 0,
        }
    }

    /// How many of the records that the applied writes made were replaced or removed by none of
    /// them.
    pub(crate) fn standing(&self) -> u64
        ensures { (writes : List write_of) → AppliedAre self.now writes
            → result ≡ standing_of writes }
    {
        self.records.count()
    }

    /// Reserves a place for one more write. For want of memory no place is added.
    pub(crate) fn reserve(&mut self) -> Result<(), AllocError>
        ensures same { AppliedStays self.old self.new }
        ensures kind { self.new.history ≡ self.old.history }
        ensures ok { OnOk result (self.new.room ≡ self.old.room + 1) }
        ensures err { OnErr result (self.new.room ≡ self.old.room) }
    {
        let room = self.room.checked_add(1).ok_or(AllocError)?;
        self.records.reserve(room)?;
        self.reserve_writes(room)?;
        self.room = room;
        Ok(())
    }

    // Makes room for so many more writes in the list, if there is one.
    fn reserve_writes(&mut self, room: usize) -> Result<(), AllocError>
        ensures same { AppliedStays self.old self.new }
        ensures kind { self.new.history ≡ self.old.history }
        ensures records { self.new.records ≡ self.old.records }
        ensures places { self.new.room ≡ self.old.room }
        ensures room { OnOk result (self.new.listed ≡ true
            → vec_len self.new.writes + room ≤ vec_capacity self.new.writes) }
    {
        if self.listed {
            self.writes.reserve(room)?;
        }
        Ok(())
    }

    /// Gives a place up.
    pub(crate) fn give_up(&mut self)
        requires { 0 < self.old.room }
        ensures same { AppliedStays self.old self.new }
        ensures kind { self.new.history ≡ self.old.history }
        ensures room { self.new.room + 1 ≡ self.old.room }
    {
        self.room -= 1;
    }

    /// Applies a write whose number made no record before, in a place that was reserved.
    pub(crate) fn push(&mut self, write: Write)
        requires { 0 < self.old.room }
        ensures applies { (writes : List write_of) → AppliedAre self.old writes
            → is_made writes (number_of write) ≡ false
            → AppliedAre self.new (writes ++ write ∷ []) }
        ensures kind { self.new.history ≡ self.old.history }
        ensures room { self.new.room + 1 ≡ self.old.room }
    {
        self.records.apply(write);
        if self.listed {
            self.writes.push_reserved(write);
        }
        self.room -= 1;
    }

    /// Gives the list of the writes up, where there is no history. Its room stays.
    pub(crate) fn give_list_up(&mut self)
        requires { self.old.history ≡ false }
        ensures same { AppliedStays self.old self.new }
        ensures kind { self.new.history ≡ self.old.history }
        ensures empty { self.new.writes.items ≡ [] }
        ensures records { self.new.records ≡ self.old.records }
        ensures room { self.new.room ≡ self.old.room }
    {
        self.writes.clear();
    }

    /// Whether a write of this number was applied, as far as is remembered: without a history, where
    /// its record stands.
    pub(crate) fn recalls(&self, number: u64) -> bool
        ensures all { self.now.history ≡ true
            → result ≡ list_any (λ w. number_of w == number) self.now.writes.items }
        ensures standing { self.now.history ≡ false
            → result ≡ hash_set.contains nat_eq self.now.records.standing number }
    {
        match self.history {
            true => is_among(&self.writes, number),
            false => self.records.stands(number),
        }
    }
}

// Whether one of the writes is of this number.
fn is_among(writes: &[Write], number: u64) -> bool
    ensures { result ≡ list_any (λ w. number_of w == number) writes.now }
{
    for write in writes {
        if write.number() == number {
            return true;
        }
    }
    false
}
