//! The events of a schedule.

use crate::Cause;

/// What a call is started for.
#[derive(Clone, PartialEq, Debug, Drop)]
pub enum Start<K, V> {
    Get { key: K },
    Insert { key: K, value: V },
    /// Where the replace test of this number holds on the record that is there, it is loaded again.
    GetWith { key: K, replace: Option<u64> },
    Optional { key: K },
    Try { key: K },
    /// The value is stored where no record is found.
    OrInsert { key: K, value: V },
    /// The four computes ask what is to be done with what the key has. One at a time of a key goes.
    Compute { key: K },
    TryCompute { key: K },
    /// Asks nothing where another compute of the key goes.
    ComputeAlone { key: K },
    /// Is told a value.
    Upsert { key: K },
    Invalidate { key: K },
    Remove { key: K },
    /// The record of this stamp is taken out, where it still stands under the key and the cause
    /// holds.
    Evict { key: K, stamp: u64, cause: Cause },
    /// No look shows a record any more that was written before the clock. Nothing is taken out.
    InvalidateAll,
    /// The predicate of this number is registered, and hides each record on which it holds, but for
    /// those that are written later.
    InvalidateIf { test: u64 },
    /// Maintenance: what dropped calls left is posted, the log is applied, and predicates go that
    /// hide no record any more.
    Pending,
    /// A walk: gives each record that is visible as the walk comes to it, part by part of the table.
    Iter,
}

/// What a compute is told to do: nothing, to store a value, or to take the record out.
#[derive(Clone, PartialEq, Debug, Drop)]
pub enum Op<V> {
    Nop,
    Put(V),
    Remove,
}

/// What an open ask is told: by an initializer a value, that there is none, or why it gives none;
/// `Done` by a listener, or `Off`, after which it hears of no further record.
#[derive(Clone, PartialEq, Debug, Drop)]
pub enum Told<V, E> {
    Value(V),
    Nothing,
    Err(E),
    Op(Op<V>),
    Done,
    Off,
}

/// One event of a schedule. Moments are nanoseconds, and calls go by their numbers.
#[derive(Clone, PartialEq, Debug, Drop)]
pub enum Event<K, V, E> {
    /// The clock moves on to the moment.
    At { moment: u64 },
    /// A call is started, and gets the next number.
    Start { start: Start<K, V> },
    /// The call makes one step.
    Step { call: u64 },
    /// The call makes steps up to the first whose reply is not Going.
    Poll { call: u64 },
    /// The call's open ask is answered.
    Tell { call: u64, answer: Told<V, E> },
    /// The call is dropped where it stands.
    Drop { call: u64 },
}
