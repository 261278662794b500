//! The calls of one thread.
ghost use Rattle.std.specs.Prelude.{◌≡◌};

use crate::asked::Asked;
use crate::counts::Counts;
use moka_shared::{HashMap, Seat, TryGet, TryInsert};
use std::hash::{BuildHasherDefault, FoldHasher};

/// Std's hasher.
type Fold = BuildHasherDefault<FoldHasher>;

/// A table of numbers.
pub(crate) type Table = HashMap<u64, u64, Fold>;

/// A table, what one thread has seen of it, and what the thread's calls were answered.
#[derive(Drop)]
struct Caller<'a> {
    table: &'a Table,
    seat: Seat<u64, u64, Fold>,
    counts: Counts,
    ghost own: { seat.front.book ≡ table.now.book },
}

impl<'a> Caller<'a> {
    // A caller that has made no call.
    fn new(table: &'a Table) -> Self {
        Caller {
            table,
            seat: table.seat(),
            counts: Counts::none(),
        }
    }

    // Looks up the key.
    fn look(&mut self, key: u64) {
        let hash = self.table.hash(&key);
        match self
            .table
            .try_get(&mut self.seat, hash, |other: &u64| *other == key)
        {
            Ok(TryGet::Found(value)) => self.counts.count_done(value.is_some()),
            Ok(TryGet::Again(_)) => self.counts.count_again(),
            Err(_) => {}
        }
    }

    // Inserts the key.
    fn insert(&mut self, key: u64) {
        let hash = self.table.hash(&key);
        match self
            .table
            .try_insert_if_not_present(&mut self.seat, key, hash, key)
        {
            TryInsert::Inserted => self.counts.count_done(true),
            TryInsert::Again { .. } => self.counts.count_again(),
            _ => {}
        }
    }
}

/// Makes this thread's share of the calls, by a seat of its own. Where an insert has to be made again,
/// the next call makes it.
pub(crate) fn calls_of(table: &Table, asked: &Asked, thread: u64) -> Counts {
    let mut caller = Caller::new(table);
    let first = asked.share().wrapping_mul(thread);
    for call in 0..asked.share() {
        let inserted = caller.counts.done;
        if asked.work.is_insert() {
            caller.insert(first.wrapping_add(inserted));
        } else {
            caller.look(asked.work.key_of(first.wrapping_add(call), asked.keys));
        }
    }
    caller.counts
}
