//! The replies to events.

use crate::{Cause, CompResult, Id};

/// What a call asks of its caller.
#[derive(Clone, PartialEq, Debug, Drop)]
pub enum Ask<K, V> {
    /// The initializer of a load is to be run, and what it gives told.
    Init,
    /// It is to be told what to do with the pair that the key has, if any.
    Compute(Option<(K, V)>),
    /// The listener is to hear of a record that has left, and its answer is to be told.
    Listener { key: K, value: V, cause: Cause },
}

/// What a call answers in the end.
#[derive(Clone, PartialEq, Debug, Drop)]
pub enum Answer<K, V, E> {
    /// The call has done what it was started for, and has nothing to tell: an insert has stored its
    /// value, and after an invalidation no record stands that it was to take out.
    Done,
    /// What a look or a removal found under the key, if anything.
    Found(Option<V>),
    /// The value of a load; `fresh` where this call's own initializer gave it.
    Loaded { value: V, fresh: bool },
    /// The initializer of the load gave neither a value nor an error.
    Nothing,
    /// The initializer of the load gave this error.
    InitErr(E),
    /// What a compute has done.
    Computed(CompResult<K, V>),
    /// The compute was told this error.
    ComputeErr(E),
    /// The owner that the call waited for was dropped, for the 200th time.
    RetriesExhausted,
    /// The record was taken out, by this call.
    Evicted,
    /// The record stays, or left by another call: the key is absent, its record is another, or the
    /// cause doesn't hold.
    Kept,
    /// A walk has given all its records.
    End,
    /// The predicate was registered under this id.
    Id(Id),
    /// The cache was built without invalidation closures, so no predicate was registered.
    ClosuresDisabled,
    /// Each of the next 1000 ids was registered already, so no predicate was registered.
    NoId,
}

/// Why an event was refused. A refused event changes nothing.
#[derive(Clone, Copy, PartialEq, Eq, Debug)]
pub enum Refusal {
    /// The number was never given out, or its call has answered or was dropped.
    UnknownCall,
    /// The call is between two steps: it can't be dropped there.
    NotParked,
    /// No ask of that number is open, or it doesn't take such an answer.
    NotAsked,
    /// The moment is less than the clock.
    ClockBack,
    /// The greatest call number was given out.
    CallsSpent,
}

/// The reply to one event.
#[derive(Clone, PartialEq, Debug, Drop)]
pub enum Reply<K, V, E> {
    At,
    Call(u64),
    Going,
    Wait,
    Ask(Ask<K, V>),
    Answer(Answer<K, V, E>),
    /// A walk gives a record: its key and its value.
    Item(K, V),
    Told,
    Dropped,
    Refused(Refusal),
}
