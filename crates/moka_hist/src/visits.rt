//! The visits of the desk that calls make, and what they find.

use crate::{Cause, Id, IdList, Kind, Owed, PredicateError, Stored, Told, Write};

/// How a load stands for a call that asks: it is the owner now, or an earlier call is.
#[derive(Clone, Copy, PartialEq, Eq, Debug)]
pub enum Claim {
    Owner,
    Waits { owner: u64 },
}

/// How an owner ended, for those that wait for it: with a value, with an error, with neither, or
/// dropped.
#[derive(Debug, Drop)]
pub enum Settled<V, E> {
    NotYet,
    Ready(V),
    Err(E),
    Nothing,
    Aborted,
}

/// Which answers an open ask takes.
#[derive(Clone, Copy, PartialEq, Eq, Debug)]
pub enum Takes {
    /// A value, and nothing else.
    Value,
    /// A value, or that there is none.
    Optional,
    /// A value or an error.
    Try,
    /// What is to be done.
    Op,
    /// What is to be done, or an error.
    TryOp,
}

/// How a call finds a key's lock: it has taken it, another live call holds it, or the notice of
/// this number keeps it, which still runs though its call was dropped.
#[derive(Clone, Copy, PartialEq, Eq, Debug)]
pub enum LockTaken {
    Taken,
    Held,
    Kept { notice: u64 },
}

/// A visit of the desk, with the number of the call that makes it.
#[derive(Drop)]
pub enum Visit<K, V, E> {
    /// Reads the clock. Places of a write that the call has taken and doesn't need are given back.
    Clock {
        call: u64,
    },
    /// Takes the front of the owed list up, if there is one.
    TakeOwed {
        call: u64,
    },
    /// Looks whether the notice of this number still runs.
    NoticeEnded {
        call: u64,
        notice: u64,
    },
    /// Takes the key's lock, where no other call holds it and no notice keeps it.
    LockKey {
        call: u64,
        key: K,
    },
    /// Frees the lock that the call holds. Where nothing was written under it (`wrote` is false)
    /// the places of its write are given back.
    UnlockKey {
        call: u64,
        wrote: bool,
    },
    /// Takes the moment of a write that follows.
    StampMoment {
        call: u64,
    },
    /// Judges whether a record may be seen, and if so raises its access moment. A call doesn't see
    /// a record on which its replace test holds.
    Judge {
        replace: Option<u64>,
        key: K,
        stored: Stored<V>,
    },
    /// Judges whether a record that a walk found is visible, and changes nothing.
    Scan {
        key: K,
        stored: Stored<V>,
    },
    /// Judges whether a record that was chosen to leave for this cause has still to.
    Holds {
        key: K,
        stored: Stored<V>,
        cause: Cause,
    },
    /// Becomes the owner of a load, or joins its waiters.
    WaitOrOwn {
        call: u64,
        key: K,
        kind: Kind,
    },
    /// Becomes the owner of the key's computes, where there is none, and does nothing else.
    OwnAlone {
        call: u64,
        key: K,
    },
    /// Reads how the owner ended that the call waits for.
    ReadSettled {
        call: u64,
    },
    /// Ends the call's ownership.
    Settle {
        call: u64,
        with: Settled<V, E>,
    },
    /// Opens the notice of the record that the call's write took out: the record of this stamp,
    /// last written at the moment `modified`. Its cause is the one handed in, or else that of a
    /// record whose place a write takes (`upsert`) or that a call removes.
    OpenNotice {
        call: u64,
        key: K,
        value: V,
        stamp: u64,
        modified: u64,
        cause: Option<Cause>,
        upsert: bool,
    },
    /// Opens the call's ask.
    OpenAsk {
        call: u64,
        takes: Takes,
    },
    /// Takes the answer to the call's ask.
    TakeTold {
        call: u64,
    },
    /// Appends a held write to the log, where the log has room.
    PostWrite {
        call: u64,
        write: Write,
    },
    /// Takes the maintenance turn, where no other call has it.
    TakeTurn {
        call: u64,
    },
    /// Applies the log's front.
    ApplyOne {
        call: u64,
    },
    /// Publishes the count of applied upserts, and gives the turn up.
    EndTurn {
        call: u64,
    },
    /// Hides all records that were written before the clock.
    InvalidateAll,
    /// Registers the predicate of this number, under an id that is drawn for it.
    Register {
        test: u64,
    },
    /// Looks which predicates may leave: those whose moment is past, and before that of each write
    /// that isn't decided yet.
    Candidates,
    /// Looks which of these predicates hide the record.
    Strike {
        ids: IdList,
        key: K,
        stored: Stored<V>,
    },
    /// Lets these predicates go. One that was registered anew under such an id stays.
    Retire {
        ids: IdList,
    },
}

/// What the visit of the same name finds.
#[derive(Drop)]
pub enum Found<V, E> {
    Clock(u64),
    TakeOwed(Option<Owed>),
    NoticeEnded(bool),
    LockKey(LockTaken),
    UnlockKey,
    StampMoment(u64),
    Judge(bool),
    Scan(bool),
    Holds(bool),
    WaitOrOwn(Claim),
    /// Whether another call is the owner.
    OwnAlone(bool),
    ReadSettled(Settled<V, E>),
    Settle,
    OpenNotice(Option<Cause>),
    OpenAsk,
    TakeTold(Option<Told<V, E>>),
    PostWrite(bool),
    TakeTurn(bool),
    ApplyOne(bool),
    EndTurn,
    InvalidateAll,
    /// The id, or why none is registered; want of memory is the visit's own.
    Register(Result<Id, PredicateError>),
    Candidates(IdList),
    /// Those of the predicates that don't hide the record.
    Strike(IdList),
    Retire,
}
