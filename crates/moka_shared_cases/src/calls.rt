//! Calls of tables of numbers, made by the tests.
ghost use Rattle.std.specs.Prelude.{◌≡◌};

use moka_shared::{
    HashMap, Seat, TryChange, TryFill, TryGet, TryInsert, TryLink, TrySeal, TrySwing, Unopened,
};
use moka_words::Word;
use std::alloc::{AllocError, Global};
use std::hash::BuildHasher;

/// What the last step told that was made of a segment's growth.
#[derive(Drop)]
pub(crate) enum Grown {
    /// No row was opened.
    Unopened(Unopened),
    /// The row was to be linked.
    Link(TryLink),
    /// Its array was to be filled.
    Fill(TryFill),
    /// The segment's root was to be swung to it, the row of this ticket, and once more.
    Swing {
        swing: TrySwing,
        again: TrySwing,
        ticket: u64,
    },
}

/// A table of numbers, and what one caller has seen of it.
#[derive(Drop)]
pub(crate) struct Caller<'a, S: BuildHasher> {
    table: &'a HashMap<u64, u64, S>,
    seat: Seat<u64, u64, S>,
    ghost own: { seat.front.book ≡ table.now.book },
}

impl<'a, S: BuildHasher + Drop> Caller<'a, S> {
    /// A caller that has seen nothing yet.
    pub(crate) fn new(table: &'a HashMap<u64, u64, S>) -> Self {
        Caller {
            table,
            seat: table.seat(),
        }
    }

    /// How many segments the table has.
    pub(crate) fn segments(&self) -> usize {
        self.table.actual_num_segments()
    }

    /// Puts the pair where its key is absent.
    pub(crate) fn put(&mut self, key: u64, value: u64) -> TryInsert<u64, u64> {
        let hash = self.table.hash(&key);
        self.table
            .try_insert_if_not_present(&mut self.seat, key, hash, value)
    }

    /// Puts the value in place of the one under the key.
    pub(crate) fn replace(&mut self, key: u64, value: u64) -> TryChange<u64> {
        let hash = self.table.hash(&key);
        self.table.try_replace(&mut self.seat, &key, hash, &value)
    }

    /// Removes the pair of the key.
    pub(crate) fn remove(&mut self, key: u64) -> TryChange<u64> {
        let hash = self.table.hash(&key);
        self.table.try_remove(&mut self.seat, &key, hash)
    }

    /// Looks for the key.
    pub(crate) fn get(&mut self, key: u64) -> Result<TryGet<u64>, AllocError> {
        let hash = self.table.hash(&key);
        self.table
            .try_get(&mut self.seat, hash, |other: &u64| *other == key)
    }

    /// Whether the pair is put.
    pub(crate) fn is_put(&mut self, key: u64, value: u64) -> bool {
        matches!(self.put(key, value), TryInsert::Inserted)
    }

    /// Whether the key is found with this value.
    pub(crate) fn has(&mut self, key: u64, value: u64) -> bool {
        matches!(self.get(key), Ok(TryGet::Found(Some(found))) if found == value)
    }

    /// Puts each key from the first one up to the end with itself as its value. Answers how many are
    /// put.
    pub(crate) fn put_all(&mut self, first: u64, end: u64) -> usize {
        let mut count = 0usize;
        for key in first..end {
            if self.is_put(key, key) {
                count = count.wrapping_add(1);
            }
        }
        count
    }

    /// Looks for each key from the first one up to the end. Answers how many are found with themselves
    /// as their values.
    pub(crate) fn get_all(&mut self, first: u64, end: u64) -> usize {
        let mut count = 0usize;
        for key in first..end {
            if self.has(key, key) {
                count = count.wrapping_add(1);
            }
        }
        count
    }

    /// Makes a row of so many words for the first segment. Answers how many it has, and its ticket.
    pub(crate) fn row(&mut self, alloc: Global, length: usize) -> Result<(usize, u64), Unopened> {
        if self.table.actual_num_segments() == 0 {
            return Err(Unopened::Memory);
        }
        match self.table.try_open_row(alloc, &mut self.seat, 0, length) {
            Ok(row) => Ok((row.len(), row.ticket())),
            Err(why) => Err(why),
        }
    }

    /// Makes a row of so many words for the first segment, and links it. Answers what comes of it, and
    /// the row's ticket.
    pub(crate) fn link(
        &mut self,
        alloc: Global,
        length: usize,
    ) -> Result<(TryLink, u64), Unopened> {
        if self.table.actual_num_segments() == 0 {
            return Err(Unopened::Memory);
        }
        match self.table.try_open_row(alloc, &mut self.seat, 0, length) {
            Ok(mut row) => {
                let link = self.table.try_link(&mut self.seat, 0, &mut row);
                Ok((link, row.ticket()))
            }
            Err(why) => Err(why),
        }
    }

    /// Makes a row of so many words for the first segment, links it, fills its array, and swings the
    /// root to it, twice.
    pub(crate) fn grow(&mut self, alloc: Global, length: usize) -> Grown {
        if self.table.actual_num_segments() == 0 {
            return Grown::Unopened(Unopened::Memory);
        }
        match self.table.try_open_row(alloc, &mut self.seat, 0, length) {
            Ok(mut row) => match self.table.try_link(&mut self.seat, 0, &mut row) {
                TryLink::Linked => match self.table.try_fill(alloc, &mut self.seat, 0, &row) {
                    TryFill::Filled => {
                        let swing = self.table.try_swing(&mut self.seat, 0, &row);
                        let again = self.table.try_swing(&mut self.seat, 0, &row);
                        let ticket = row.ticket();
                        Grown::Swing {
                            swing,
                            again,
                            ticket,
                        }
                    }
                    fill => Grown::Fill(fill),
                },
                link => Grown::Link(link),
            },
            Err(why) => Grown::Unopened(why),
        }
    }

    /// The same, but its array isn't filled.
    pub(crate) fn swing(&mut self, alloc: Global, length: usize) -> Grown {
        if self.table.actual_num_segments() == 0 {
            return Grown::Unopened(Unopened::Memory);
        }
        match self.table.try_open_row(alloc, &mut self.seat, 0, length) {
            Ok(mut row) => match self.table.try_link(&mut self.seat, 0, &mut row) {
                TryLink::Linked => {
                    let swing = self.table.try_swing(&mut self.seat, 0, &row);
                    let again = self.table.try_swing(&mut self.seat, 0, &row);
                    let ticket = row.ticket();
                    Grown::Swing {
                        swing,
                        again,
                        ticket,
                    }
                }
                link => Grown::Link(link),
            },
            Err(why) => Grown::Unopened(why),
        }
    }

    /// Seals the word of this bucket of the first segment, if there is one.
    pub(crate) fn seal(&mut self, index: usize) -> Option<TrySeal> {
        if self.table.actual_num_segments() == 0 || index >= self.table.words_per_segment() {
            return None;
        }
        Some(self.table.try_seal(&mut self.seat, 0, index))
    }

    /// Seals the words of the first segment before this bucket. Answers how many of them were empty.
    pub(crate) fn seal_all(&mut self, end: usize) -> usize {
        let mut count = 0usize;
        for index in 0..end {
            if self.seal(index) == Some(TrySeal::Sealed(Word::SealedEmpty)) {
                count = count.wrapping_add(1);
            }
        }
        count
    }
}
