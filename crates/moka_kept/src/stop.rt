//! How a hold of the lock leaves a call.

use crate::due::DueNotice;
use crate::parked::ParkedTask;
use moka_hist::Answer;

/// What a call asks of its own caller.
#[derive(Drop)]
pub enum OwnAsk<K, V> {
    /// The initializer of a load is to be run.
    Init,
    /// A compute is to be asked what to do with the pair that the key has, if any.
    Compute(Option<(K, V)>),
}

/// How a hold of the lock left the call. It has no `Drop`, since a notice that is due has none.
pub enum Stop<K, V, E> {
    /// It goes on, by another hold.
    Going,
    /// Something is missing; the task is parked, or asked to be polled again, where that is None.
    /// Where it is a key's lock which a notice keeps, the number of that notice stands beside.
    Waits(Option<ParkedTask>, Option<u64>),
    /// It asks its caller.
    Asks(OwnAsk<K, V>),
    /// It asks the listener, by this notice.
    Due(DueNotice<K, V>),
    /// It has answered.
    Answers(Answer<K, V, E>),
    /// Memory was wanting. So it is left too where the desk does not allow its next visit, or has
    /// an end for it that is of another kind: no run is known that comes to that; or where it gave
    /// a record of a walk, which no call of a cache makes. What was done stands.
    Memory,
}
