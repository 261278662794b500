//! What calls of caches of numbers replied.

use moka_cache::{LoadError, PollError, RetriesExhausted};
use moka_hist::{CompResult, Entry};

/// An entry that a call told of: its key and its value.
#[derive(Clone, Copy, PartialEq, Eq, Debug)]
pub enum Seen {
    /// The call stored it, where there was none.
    Fresh(u32, u32),
    /// The call stored it in the place of another.
    Replaced(u32, u32),
    /// The call found it.
    Found(u32, u32),
    /// It has no key, or is said to replace another and was not stored.
    Wrong,
}

/// What a call replied.
#[derive(Clone, Copy, PartialEq, Eq, Debug)]
pub enum Reply {
    /// Nothing: there was no such call, or it was dropped.
    Dropped,
    Done,
    Value(u32),
    Nothing,
    Error(u32),
    GaveUp,
    Entry(Seen),
    Inserted(Seen),
    ReplacedWith(Seen),
    Removed(Seen),
    Unchanged(Seen),
    StillNone(u32),
    Refused(PollError),
    /// Whether the key is there.
    Is(bool),
    /// How many entries there are, and how much they weigh.
    Counts(u64, u64),
}

/// What calls answer, told as a reply.
pub trait Replies: Drop {
    fn reply(self) -> Reply;
}

/// The reply of a call that was polled to its end, or dropped.
pub fn reply_of<O: Replies>(answer: Option<Result<O, PollError>>) -> Reply {
    match answer {
        Some(Ok(answer)) => answer.reply(),
        Some(Err(e)) => Reply::Refused(e),
        None => Reply::Dropped,
    }
}

// How a call told of an entry.
fn seen_in(entry: Entry<u32, u32>) -> Seen {
    match (entry.key, entry.fresh, entry.replaced) {
        (Some(key), true, false) => Seen::Fresh(key, entry.value),
        (Some(key), true, true) => Seen::Replaced(key, entry.value),
        (Some(key), false, false) => Seen::Found(key, entry.value),
        _ => Seen::Wrong,
    }
}

impl Replies for () {
    fn reply(self) -> Reply {
        Reply::Done
    }
}

impl Replies for Option<u32> {
    fn reply(self) -> Reply {
        match self {
            Some(value) => Reply::Value(value),
            None => Reply::Nothing,
        }
    }
}

impl Replies for Result<u32, RetriesExhausted> {
    fn reply(self) -> Reply {
        match self {
            Ok(value) => Reply::Value(value),
            Err(RetriesExhausted) => Reply::GaveUp,
        }
    }
}

impl Replies for Result<Option<u32>, RetriesExhausted> {
    fn reply(self) -> Reply {
        match self {
            Ok(found) => found.reply(),
            Err(RetriesExhausted) => Reply::GaveUp,
        }
    }
}

impl Replies for Result<u32, LoadError<u32>> {
    fn reply(self) -> Reply {
        match self {
            Ok(value) => Reply::Value(value),
            Err(LoadError::Init(error)) => Reply::Error(error),
            Err(LoadError::RetriesExhausted) => Reply::GaveUp,
        }
    }
}

impl Replies for Entry<u32, u32> {
    fn reply(self) -> Reply {
        Reply::Entry(seen_in(self))
    }
}

impl Replies for Result<Entry<u32, u32>, RetriesExhausted> {
    fn reply(self) -> Reply {
        match self {
            Ok(entry) => entry.reply(),
            Err(RetriesExhausted) => Reply::GaveUp,
        }
    }
}

impl Replies for Result<Option<Entry<u32, u32>>, RetriesExhausted> {
    fn reply(self) -> Reply {
        match self {
            Ok(Some(entry)) => entry.reply(),
            Ok(None) => Reply::Nothing,
            Err(RetriesExhausted) => Reply::GaveUp,
        }
    }
}

impl Replies for Result<Entry<u32, u32>, LoadError<u32>> {
    fn reply(self) -> Reply {
        match self {
            Ok(entry) => entry.reply(),
            Err(LoadError::Init(error)) => Reply::Error(error),
            Err(LoadError::RetriesExhausted) => Reply::GaveUp,
        }
    }
}

impl Replies for CompResult<u32, u32> {
    fn reply(self) -> Reply {
        match self {
            CompResult::Inserted(entry) => Reply::Inserted(seen_in(entry)),
            CompResult::ReplacedWith(entry) => Reply::ReplacedWith(seen_in(entry)),
            CompResult::Removed(entry) => Reply::Removed(seen_in(entry)),
            CompResult::Unchanged(entry) => Reply::Unchanged(seen_in(entry)),
            CompResult::StillNone(key) => Reply::StillNone(key),
        }
    }
}

impl Replies for Result<CompResult<u32, u32>, u32> {
    fn reply(self) -> Reply {
        match self {
            Ok(done) => done.reply(),
            Err(error) => Reply::Error(error),
        }
    }
}
