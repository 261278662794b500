//! The tables, each made for what is done with it.
ghost use Rattle.std.specs.Prelude.{◌≡◌, ℕ};

use crate::asked::Asked;
use crate::cases::{all_together, fill, one_seat};
use crate::timed::time_table;
use moka_parts::{NamedParts, Naming, OpenBook, Parts, SharedTable};
use std::alloc::{AllocError, Global};
use std::hash::{BuildHasherDefault, FoldHasher, Hasher};
use std::marker::Brand;
use std::rt::Clock;
use std::sync::Wait;
use std::thread::Threads;

/// Std's hasher.
pub(crate) type Fold = FoldHasher;

/// A table without a name, whose keys are hashed by H.
pub(crate) type Plain<H> = Parts<u64, u64, BuildHasherDefault<H>>;

/// A table whose history has the name J.
type Called<H, J> = NamedParts<u64, u64, BuildHasherDefault<H>, J>;

/// What is done with a new table.
#[derive(Clone, Copy)]
pub(crate) enum Deed {
    /// Two callers in one thread.
    Seats,
    /// Calls whose memory may be refused.
    Memory,
    /// Many threads, whose seats meet.
    Share,
    /// The calls of threads are timed.
    Time(Asked),
}

impl Deed {
    /// Does it with a new table of this name, lets the table go, and tells whether it came out right.
    fn holds<
        Q: Drop + Send,
        T: SharedTable<u64, u64, Seat = Q> + Sync + Drop,
        R: Threads + Wait + Clock + Print + Eprint + Sync,
    >(self, rt: &R, alloc: Global, name: &str, table: T) -> bool
        requires { (k v : ℕ) → T.holds k v }
    {
        match self {
            Deed::Seats => one_seat(rt, alloc, &table),
            Deed::Memory => fill(rt, alloc, &table),
            Deed::Share => all_together(rt, alloc, &table),
            Deed::Time(asked) => time_table(rt, alloc, name, &table, &asked),
        }
    }
}

/// Does it with a table of each kind.
pub(crate) fn on_both<
    H: Hasher + Default + Copy + Send + Sync,
    R: Threads + Wait + Clock + Print + Eprint + Sync,
>(rt: &R, alloc: Global, deed: Deed) -> Result<bool, AllocError> {
    if on_parts::<H, R>(rt, alloc, deed)? {
        return on_named::<H, R>(rt, alloc, deed);
    }
    Ok(false)
}

/// A table without a name.
pub(crate) fn new_parts<H: Hasher + Default + Copy>(alloc: Global) -> Result<Plain<H>, AllocError> {
    Parts::new(alloc, BuildHasherDefault::new())
}

/// Does it with a table without a name.
pub(crate) fn on_parts<
    H: Hasher + Default + Copy + Send + Sync,
    R: Threads + Wait + Clock + Print + Eprint + Sync,
>(rt: &R, alloc: Global, deed: Deed) -> Result<bool, AllocError> {
    Ok(deed.holds(rt, alloc, "parts", new_parts::<H>(alloc)?))
}

/// Does it with a table whose history has a name.
pub(crate) fn on_named<
    H: Hasher + Default + Copy + Send + Sync,
    R: Threads + Wait + Clock + Print + Eprint + Sync,
>(rt: &R, alloc: Global, deed: Deed) -> Result<bool, AllocError> {
    on_book::<H, Brand, R>(rt, alloc, OpenBook::new(BuildHasherDefault::new()), deed)
}

fn on_book<
    H: Hasher + Default + Copy + Send + Sync,
    J: Naming + Send + Sync,
    R: Threads + Wait + Clock + Print + Eprint + Sync,
>(
    rt: &R,
    alloc: Global,
    book: OpenBook<u64, u64, BuildHasherDefault<H>>,
    deed: Deed,
) -> Result<bool, AllocError>
    requires { book.0 ≡ J.book }
{
    let table: Called<H, J> = NamedParts::new(alloc, book)?;
    Ok(deed.holds(rt, alloc, "named", table))
}
