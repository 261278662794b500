//! What is done with the cache, line by line.

use moka_cache_runs::calls::Call;

/// How often a call's poll is made again at most where it finds no memory.
const TRIES: u32 = 1000;

/// How the calls are made.
#[derive(Clone, Copy, PartialEq, Eq)]
pub(crate) enum Way {
    /// Each is polled to its answer, but those that a line drops.
    Whole,
    /// Each is cancelled at its first poll that pends.
    Cancelled,
    /// Each is cancelled at its first poll that pends, or finds no memory.
    Dropped,
}

impl Way {
    /// How many polls of a call may pend, the last of which cancels it.
    pub(crate) fn pends(self, most: u64) -> u64 {
        match self {
            Way::Whole => most,
            Way::Cancelled | Way::Dropped => 1,
        }
    }

    /// How many polls of a call may find no memory, the last of which ends it.
    pub(crate) fn tries(self) -> u32 {
        match self {
            Way::Whole | Way::Cancelled => TRIES,
            Way::Dropped => 1,
        }
    }
}

/// What is done with the cache.
#[derive(Clone, Copy)]
pub(crate) enum Deed {
    /// A call is made.
    One(Call),
    /// A call is polled to its answer, in each way.
    Whole(Call),
    /// Two calls are made at once.
    Both(Call, Call),
    /// Two calls are made at once, and the first is cancelled at the last of so many polls that pend.
    Dropping(u64, Call, Call),
    /// So many keys from this one on are stored, one after the other.
    Fill(u32, u32),
    /// It is asked whether the key is there.
    Has(u32),
}

/// What is done, and how that is called.
#[derive(Clone, Copy)]
pub(crate) struct Line(pub(crate) &'static str, pub(crate) Deed);
