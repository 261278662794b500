//! What a listener is told of records that leave.

use crate::Cause;

/// How far a notice is.
#[derive(Clone, Copy, PartialEq, Eq, Debug)]
pub enum NoticeState {
    /// It is due: the write is committed, and the visit that opens the notice is still to come.
    Waiting,
    /// The listener was asked, and hasn't answered yet.
    Running,
    /// The listener has answered.
    Ended,
    /// The listener was off when the notice was to be opened: it was not asked.
    Skipped,
}

/// What a listener hears of one record that has left: the number of the call whose write took it
/// out, under which key it stood, its value, and why it left.
#[derive(Clone, PartialEq, Debug, Drop)]
pub struct Notice<K, V> {
    pub number: u64,
    pub key: K,
    pub value: V,
    pub cause: Cause,
    pub state: NoticeState,
}
