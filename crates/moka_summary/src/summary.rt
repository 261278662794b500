//! What a run came to.

use crate::Tally;

/// What a run on a workload came to: its turns, its replies by kind, and what stood at its end.
#[derive(Drop)]
pub struct Summary {
    /// The workload's turns.
    pub turns: u64,
    /// The replies, by kind.
    pub replies: Tally,
    /// The records stored.
    pub entries: u64,
    /// The writes that dropped calls left.
    pub owed: u64,
    /// The writes in the log.
    pub logged: u64,
    /// The writes that maintenance has applied.
    pub applied: u64,
    /// The notices, also those that are due.
    pub notices: u64,
}
