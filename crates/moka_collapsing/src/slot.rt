//! The requests of a client that were not answered to it yet.

use crate::answer::Answer;

/// Where a request stands among those of all clients: its client, and its index among the requests
/// of that client, counted from its first.
#[derive(Clone, Copy, PartialEq, Eq, Debug)]
pub struct Place {
    pub client: u64,
    pub index: u64,
}

/// How a request stands: it waits for what the upstream request of its key brings, under its number
/// among all requests `get K`; or it has its answer.
#[derive(Clone, Copy, PartialEq, Eq, Debug)]
pub enum Slot {
    Waits { key: u32, number: u64 },
    Answered(Answer),
}

/// How a request has come to stand, and the key whose upstream request it opens, if it does.
#[derive(Clone, Copy, PartialEq, Eq, Debug)]
pub struct Asked {
    pub slot: Slot,
    pub fetch: Option<u32>,
}

/// A request that waited, and the answer that it has now.
#[derive(Clone, Copy, PartialEq, Eq, Debug)]
pub struct Given {
    pub place: Place,
    pub answer: Answer,
}
