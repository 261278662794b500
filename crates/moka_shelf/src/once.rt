//! A shelf of slots that are each written once.
ghost use Rattle.std.specs.Prelude.{◌≡◌, ◌≤◌, ◌<◌, ◌+◌, ◌^◌, [], ◌∷◌, IfNone, IfOk, IfSome};
ghost use Rattle.moka_shelf.specs.Looks.{Rises};

use crate::rows::{
    FIRST_PLACES, FIRST_ROWS, FirstRow, GROUPS, Group, LONGEST, LaterRow, NEAR_ROWS, OwnItem, Row,
    RowsOfGroup, copy_of, first_length, in_first, in_group, in_later, new_slots,
};
use crate::shelf::{Numbered, Shelf};
use boxcar::slot::OnceSlot;
use boxcar::tag::Tag;
use std::alloc::{AllocError, Global};
use std::marker::Model;

/// Numbers from here on have no place.
const NUMBERS: u64 = 1 << 63;

/// What a `OnceShelf` has hidden from one caller.
#[derive(Drop, Debug)]
pub struct Hidden {
    count: u64,
    last: u64,
}

impl Hidden {
    /// How often an item was hidden; it stops at the greatest number.
    pub fn count(&self) -> u64
        ensures { result ≡ self.now.count }
    {
        self.count
    }

    /// The number of the last item that was hidden; 0 where none was.
    pub fn last(&self) -> u64
        ensures { result ≡ self.now.last }
    {
        self.last
    }

    // The item of this number is hidden.
    fn hides(&mut self, number: u64)
        ensures rises { Rises self.old.count self.new.count }
        ensures last { self.new.last ≡ number }
    {
        self.count = self.count.saturating_add(1);
        self.last = number;
    }
}

/// A shelf of slots that are each written once, in rows: the first has 32 slots, each further one
/// twice as many as the one before, up to 65,536, which all later rows have.
///
/// A row is made when an item of it is first set, and the next one where it is seven eighths full.
/// It hides a number at which nothing was set, and one whose row or whose item another thread is
/// about to store. Numbers from 2^63 on have no place: setting one is an error. Numbers should be
/// given in order: one far from the others makes room for the rows before its own.
#[derive(Drop)]
pub struct OnceShelf<T: Numbered> {
    alloc: Global,
    names: Tag,
    first: Vec<OnceSlot<Row<T>, FirstRow>>,
    near: Vec<OnceSlot<Row<T>, LaterRow>>,
    later: Vec<OnceSlot<Group<T>, RowsOfGroup>>,
}

impl<T: Numbered> Model for OnceShelf<T> {
    ghost use Rattle.std.specs.Prelude.{ℕ, List};
    ghost use Rattle.moka_shelf.specs.Rows.{AreRows};

    ghost Value = { List ℕ };

    ghost view = { λ shelf. shelf.names.numbers };

    ghost invariant = { λ shelf. AreRows shelf.names.numbers shelf.first.items shelf.near.items
        shelf.later.items };
}

impl<T: Numbered + Drop> OnceShelf<T> {
    /// Makes a shelf on which nothing is set, for a table of these names. An error comes where
    /// memory is wanting.
    pub fn new(alloc: Global, names: &Tag) -> Result<Self, AllocError>
        ensures { IfOk result (λ shelf. shelf ≡ names.now.numbers) }
    {
        let first = new_slots(alloc, names, 0, FIRST_ROWS)?;
        let near = new_slots(alloc, names, 0, NEAR_ROWS)?;
        let later = new_slots(alloc, names, 0, GROUPS)?;
        Ok(OnceShelf {
            alloc,
            names: copy_of(names),
            first,
            near,
            later,
        })
    }

    // Makes the row of this place, unless it is there.
    #[cold]
    fn lay(&self, place: usize) -> Result<(), AllocError>
        requires least { 32 ≤ place }
        requires most { place < 2 ^ 63 + 65536 }
    {
        if place < FIRST_PLACES {
            self.lay_first(in_first(place).0)
        } else {
            self.lay_later(in_later(place).0)
        }
    }

    fn lay_first(&self, row: usize) -> Result<(), AllocError>
        requires row { row < 12 }
    {
        let slot = &self.first[row];
        if slot.get().is_none() {
            let length = first_length(row);
            drop(slot.set_written(new_slots(self.alloc, &self.names, length, length)?));
        }
        Ok(())
    }

    fn lay_later(&self, row: usize) -> Result<(), AllocError>
        requires some { 0 < row }
        requires most { row < 2 ^ 47 + 1 }
    {
        if row < NEAR_ROWS {
            return self.lay_row(&self.near[row], row);
        }
        let (group, at) = in_group(row);
        self.lay_group(group)?;
        match self.later[group].get().and_then(|rows| rows.get(at)) {
            Some(slot) => self.lay_row(slot, row),
            None => Err(AllocError),
        }
    }

    // Makes the later row of this number in its slot, unless it is there.
    fn lay_row(&self, slot: &OnceSlot<Row<T>, LaterRow>, row: usize) -> Result<(), AllocError>
        requires slot { slot.now.tag ≡ row ∷ self.now }
        requires most { row < 2 ^ 47 + 1 }
    {
        if slot.get().is_none() {
            drop(slot.set_written(new_slots(self.alloc, &self.names, row * LONGEST, LONGEST)?));
        }
        Ok(())
    }

    // Makes the group, unless it is there.
    fn lay_group(&self, group: usize) -> Result<(), AllocError>
        requires group { group < 48 }
    {
        let slot = &self.later[group];
        if slot.get().is_none() {
            let count = 1 << group;
            drop(slot.set_written(new_slots(self.alloc, &self.names, count, count)?));
        }
        Ok(())
    }
}

impl<T: Numbered> OnceShelf<T> {
    // The slot of this place, where its row is there.
    #[inline(always)]
    fn slot(&self, place: usize) -> Option<&OnceSlot<T, OwnItem>>
        requires least { 32 ≤ place }
        ensures { IfSome result (λ slot. slot.now.tag ≡ place ∷ self.now) }
    {
        if place < FIRST_PLACES {
            let (row, offset) = in_first(place);
            return self.first[row].get()?.get(offset);
        }
        let (row, offset) = in_later(place);
        if row < NEAR_ROWS {
            return self.near[row].get()?.get(offset);
        }
        let (group, at) = in_group(row);
        self.later[group].get()?.get(at)?.get()?.get(offset)
    }

    // The item of this number, where it is there.
    #[inline(always)]
    fn find(&self, number: u64) -> Option<&T>
        ensures number { IfSome result (λ item. T.number item.now ≡ number) }
        ensures names { IfSome result (λ item. T.names item.now ≡ self.now) }
    {
        if number >= NUMBERS {
            return None;
        }
        self.slot(number as usize + 32)?.get()
    }
}

impl<T: Numbered + Drop> OnceShelf<T> {
    // The slot of this place, whose row is made where it isn't there.
    fn laid(&self, place: usize) -> Result<&OnceSlot<T, OwnItem>, AllocError>
        requires least { 32 ≤ place }
        requires most { place < 2 ^ 63 + 32 }
        ensures { IfOk result (λ slot. slot.now.tag ≡ place ∷ self.now) }
    {
        if let Some(slot) = self.slot(place) {
            return Ok(slot);
        }
        self.lay(place)?;
        match self.slot(place) {
            Some(slot) => Ok(slot),
            None => Err(AllocError),
        }
    }

    // Makes the next row where this place is at seven eighths of its own. Want of memory is met
    // again when an item of that row is set.
    fn lay_ahead(&self, place: usize)
        requires least { 32 ≤ place }
        requires most { place < 2 ^ 63 + 32 }
    {
        let (length, offset) = if place < FIRST_PLACES {
            let (row, offset) = in_first(place);
            (first_length(row), offset)
        } else {
            (LONGEST, in_later(place).1)
        };
        if offset == length - length / 8 {
            let _ = self.lay(place + length / 8);
        }
    }
}

impl<T: Numbered> Shelf<T> for OnceShelf<T> {
    type Look = Hidden;

    ghost hidden = { λ look. look.count };

    ghost last = { λ look. look.last };

    ghost owner = { λ shelf. shelf };

    fn for_table(alloc: Global, names: &Tag) -> Result<Self, AllocError>
    where
        T: Drop,
    {
        OnceShelf::new(alloc, names)
    }

    fn fresh_look(&self) -> Hidden {
        Hidden { count: 0, last: 0 }
    }

    fn set(&self, number: u64, item: T) -> Result<(), AllocError>
    where
        T: Drop,
    {
        if number >= NUMBERS {
            return Err(AllocError);
        }
        let place = number as usize + 32;
        let slot = self.laid(place)?;
        drop(slot.set_written(item));
        self.lay_ahead(place);
        Ok(())
    }

    #[inline(always)]
    fn shown<'a>(&'a self, look: &mut Hidden, number: u64) -> Option<&'a T> {
        match self.find(number) {
            Some(item) => Some(item),
            None => {
                look.hides(number);
                None
            }
        }
    }
}
