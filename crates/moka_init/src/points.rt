//! Where a call stands: one variant for each item that can come first, with all that is still to
//! do; what can be next with a write that the call holds is a step of one variant (`PostStep`).
//!
//! These types are public for one reason: a crate whose states hold a `Flow` beside a borrow has to
//! name all that lies in it. Nothing but a `Flow` makes or reads them.

use crate::keys_left::KeysLeft;
use moka_hist::{Answer, Cause, CompResult, IdList, Load, Sought, Stored, Write};

/// What the ask of a compute takes.
#[derive(Clone, Copy)]
pub enum Asks {
    /// What is to be done.
    Op,
    /// What is to be done, or an error.
    TryOp,
    /// A value that is to be stored.
    Value,
}

/// A compute of a key, and what its ask takes.
#[derive(Drop)]
pub struct KeyCompute<K> {
    pub key: K,
    pub asks: Asks,
}

/// A key that is looked up, and what for.
#[derive(Drop)]
pub enum Look<K, V> {
    /// To answer what is found.
    Answer { key: K },
    /// To answer what is found, or else to load it.
    Load(Sought<K>),
    /// To load it, by its owner, unless it is found.
    Own(Sought<K>),
    /// To answer what is found, or else to store the value.
    Insert { key: K, value: V },
    /// To ask what is to be done with what is found.
    Compute(KeyCompute<K>),
    /// To answer what is found, beside another compute that goes.
    Report { key: K },
}

/// A record that was chosen to leave for the cause, by its key and its stamp.
#[derive(Drop)]
pub struct Chosen<K> {
    pub key: K,
    pub stamp: u64,
    pub cause: Cause,
}

/// What follows once a value is stored.
#[derive(Clone, Copy)]
pub enum Then {
    /// That it is stored is answered.
    Done,
    /// It is told to those that wait, and answered.
    Settle,
    /// It is answered.
    Loaded,
    /// The compute is over, and answers that it stored the value: in the place of another, if its
    /// look had found one (`replaced`).
    Compute { replaced: bool },
}

/// A value that is to be stored, and what follows then.
#[derive(Drop)]
pub struct Put<K, V> {
    pub key: K,
    pub value: V,
    pub then: Then,
}

/// What a record is taken out for.
#[derive(Clone, Copy)]
pub enum Removal {
    /// To be gone.
    Invalidate,
    /// To answer its value.
    Remove,
    /// For the cause that it was chosen for, where it is the record of this stamp.
    Evict { stamp: u64, cause: Cause },
    /// As a compute was told.
    Compute,
}

/// A key whose record is to be taken out, and what for.
#[derive(Drop)]
pub struct TakeOut<K> {
    pub key: K,
    pub removal: Removal,
}

/// What is done under a key's lock.
#[derive(Drop)]
pub enum Locked<K, V> {
    /// A value is stored.
    Put(Put<K, V>),
    /// The record is taken out.
    TakeOut(TakeOut<K>),
    /// The record that was chosen to leave is looked up.
    Find(Chosen<K>),
}

/// What follows once nothing is owed any more.
#[derive(Drop)]
pub enum Drained<K, V> {
    Look(Look<K, V>),
    /// A load is owned or waited for: a disabled cache is not looked at.
    Own(Sought<K>),
    /// A value is stored.
    Put(Put<K, V>),
    /// A record is taken out.
    TakeOut(TakeOut<K>),
    /// The key's lock is taken first.
    Lock(Locked<K, V>),
    /// The value is answered: a disabled cache stores nothing.
    Loaded(V),
    /// What is to be done with nothing is asked: a disabled cache is not looked at.
    Ask(KeyCompute<K>),
    /// That the key has no value is answered, since a disabled cache is not looked at.
    StillNone(K),
    /// The log is applied, and predicates go that hide nothing any more; the table has so many parts.
    Maintain { parts: usize },
}

/// What follows once a write is posted.
#[derive(Drop)]
pub enum Posted<K, V> {
    /// The write was owed: the next one is taken up.
    Drain(Drained<K, V>),
    /// It was that of an insert, or of an invalidation.
    Done,
    /// It was a load's own: the value is told to those that wait.
    Settle(V),
    /// It stored a value where none was found: the value is answered.
    Loaded(V),
    /// It took a record out whose value is answered.
    Found(V),
    /// It took out a record that was chosen to leave.
    Evicted,
    /// It was a compute's: that is over, and answers what it has done.
    Compute(CompResult<K, V>),
}

/// What is next done with a write that a call holds.
#[derive(Clone, Copy)]
pub enum PostStep {
    /// Hearing how its notice ended, which the call opened.
    Hear,
    /// Freeing its key's lock.
    Unlock,
    /// Appending it to the log, where that has room.
    Post,
    /// Taking the turn to apply the log, which is full.
    Turn,
    /// Applying the oldest write of the log, until it is empty.
    Apply,
    /// Ending that turn.
    End,
}

/// Taking up owed writes, and what is done with a write until it is posted.
#[derive(Drop)]
pub enum Posting<K, V> {
    Drain(Drained<K, V>),
    Held {
        step: PostStep,
        write: Write,
        then: Posted<K, V>,
    },
}

/// Looking a key up, and judging the record that was found.
#[derive(Drop)]
pub enum Looking<K, V> {
    Get(Look<K, V>),
    Judge {
        look: Look<K, V>,
        key: K,
        stored: Stored<V>,
    },
}

/// How an owner ends: what it tells those that wait, and then answers.
#[derive(Drop)]
pub enum Ending<V, E> {
    /// The value; `fresh` where the call's own initializer gave it.
    Ready { value: V, fresh: bool },
    /// The error that its initializer gave.
    Err(E),
    /// Its initializer gave neither.
    Nothing,
}

/// Owning a load or waiting for its owner, asking what it gives, and telling that to those that
/// wait.
#[derive(Drop)]
pub enum Loading<K, V, E> {
    Own(Sought<K>),
    Read(Sought<K>),
    Settle(Ending<V, E>),
    Ask(Load<K>),
    Told(Load<K>),
}

/// Owning a key's computes or waiting for their owner, asking what is to be done with what the key
/// has, and telling those that wait that it is done.
#[derive(Drop)]
pub enum Computing<K, V, E> {
    Own(KeyCompute<K>),
    OwnAlone(K),
    Read(KeyCompute<K>),
    /// The pair that was found is asked with. Its copy is given out, since the pair itself is needed
    /// for the answer; it is made as the ask is about to open.
    Ask {
        compute: KeyCompute<K>,
        found: Option<(K, V)>,
        copy: Option<(K, V)>,
    },
    Told {
        compute: KeyCompute<K>,
        found: Option<(K, V)>,
    },
    /// The compute is over, which those that wait are told, and answers this.
    Settle(Answer<K, V, E>),
}

/// Taking the moment of a write, and writing.
#[derive(Drop)]
pub enum Writing<K, V> {
    Moment(Put<K, V>),
    Write { put: Put<K, V>, moment: u64 },
}

/// Finding a chosen record and judging whether it has still to leave, and taking a record out.
#[derive(Drop)]
pub enum Removing<K, V> {
    Find(Chosen<K>),
    Holds {
        chosen: Chosen<K>,
        key: K,
        stored: Stored<V>,
    },
    Moment(TakeOut<K>),
    Out(TakeOut<K>),
    /// Reading the clock, where no record was found to be taken out.
    Idle(TakeOut<K>),
}

/// What follows once a write is posted, of whose notice the key or the value is answered too.
#[derive(Drop)]
pub enum Uncopied<V> {
    /// The removed value is answered.
    Found,
    /// A compute has taken the value out, which it answers with the key.
    Removed,
    /// A compute has stored the value, which it answers with the key: in the place of another, if
    /// its look had found one (`replaced`).
    Put { value: V, replaced: bool },
}

/// Taking a key's lock, and telling the listener of a record that left.
#[derive(Drop)]
pub enum Listening<K, V> {
    /// Hearing how the notice of an owed write ended.
    Ended {
        notice: u64,
        write: Write,
        then: Drained<K, V>,
    },
    Lock(Locked<K, V>),
    /// The notice is due of a record that left, by a write in its place (`upsert`) or a removal.
    Notice {
        key: K,
        old: Stored<V>,
        cause: Option<Cause>,
        upsert: bool,
        write: Write,
        then: Posted<K, V>,
    },
    /// The notice is due of a removed record whose key or value is answered too, and not copied
    /// yet.
    Uncopied {
        key: K,
        old: Stored<V>,
        write: Write,
        then: Uncopied<V>,
    },
    /// Freeing the lock, under which nothing was written.
    Release(TakeOut<K>),
}

/// A part of the table, by its number from 0, and the number of the last part.
#[derive(Clone, Copy)]
pub struct Part {
    pub number: usize,
    pub last: usize,
}

/// The listed keys that a walk has still to look up, and the part that they are of.
#[derive(Drop)]
pub struct PartKeys<K> {
    pub keys: KeysLeft<K>,
    pub part: Part,
}

/// Walking over the records: listing the keys of a part, looking each of them up, and judging the
/// record that was found. The later parts follow.
#[derive(Drop)]
pub enum Walk<K, V> {
    List(Part),
    Find {
        key: K,
        rest: PartKeys<K>,
    },
    Scan {
        key: K,
        stored: Stored<V>,
        rest: PartKeys<K>,
    },
}

/// Applying the log, and letting predicates go that hide no record any more. Those that may leave are
/// chosen (`Candidates`); the keys of a part are listed, each is looked up, and those are struck that
/// hide the record that was found. The later parts follow, and then those leave that are left.
#[derive(Drop)]
pub enum Maintenance<K, V> {
    Turn {
        parts: usize,
    },
    Apply {
        parts: usize,
    },
    End {
        parts: usize,
    },
    Candidates {
        parts: usize,
    },
    List {
        part: Part,
        ids: IdList,
    },
    Find {
        key: K,
        rest: PartKeys<K>,
        ids: IdList,
    },
    Strike {
        key: K,
        stored: Stored<V>,
        rest: PartKeys<K>,
        ids: IdList,
    },
    Retire {
        ids: IdList,
    },
}

/// Where a call stands.
#[derive(Drop)]
pub enum Point<K, V, E> {
    Posting(Posting<K, V>),
    Looking(Looking<K, V>),
    Loading(Loading<K, V, E>),
    Computing(Computing<K, V, E>),
    Writing(Writing<K, V>),
    Removing(Removing<K, V>),
    Listening(Listening<K, V>),
    Walking(Walk<K, V>),
    Maintaining(Maintenance<K, V>),
    /// All records are invalidated, which is answered with that step.
    InvalidatingAll,
    /// Registers the predicate of this number.
    Registering(u64),
    /// Nothing is left but this answer: the cache is disabled, or a walk has given its last record.
    Answering(Answer<K, V, E>),
    /// The call has answered.
    Spent,
}
