//! The rules of the caches, what is started, and what accesses give, by their names, of the key 3.

use moka_hist::{
    Cause, Claim, Found, Got, Id, LockTaken, Op, Owed, PredicateError, Rules, Settled, Start,
    Stored, TableAnswer, TableTurn, Told, Write,
};

const KEY: u32 = 3;

// No rule is set.
pub(crate) const RULES: Rules = Rules {
    max_capacity: None,
    time_to_live: None,
    time_to_idle: None,
    listener: false,
    closures: false,
};

// A listener is set.
const HEARD: Rules = Rules {
    listener: true,
    ..RULES
};

// The cache is disabled.
const DISABLED: Rules = Rules {
    max_capacity: Some(0),
    ..RULES
};

/// The rules of this name; None where there are none.
pub(crate) fn rules_named(name: &str) -> Option<Rules> {
    match name {
        "no rule" => Some(RULES),
        "a listener" => Some(HEARD),
        "disabled" => Some(DISABLED),
        _ => None,
    }
}

// The record of the call 2 is chosen to leave, or that of another call, since it expired.
fn evict(stamp: u64) -> Option<Start<u32, u32>> {
    Some(Start::Evict {
        key: KEY,
        stamp,
        cause: Cause::Expired,
    })
}

/// What is started, by its name; None where there is no such name.
pub(crate) fn start_named(name: &str) -> Option<Start<u32, u32>> {
    match name {
        "get" => Some(Start::Get { key: KEY }),
        "insert" => Some(Start::Insert { key: KEY, value: 5 }),
        "remove" => Some(Start::Remove { key: KEY }),
        "invalidate" => Some(Start::Invalidate { key: KEY }),
        "invalidate all" => Some(Start::InvalidateAll),
        "invalidate if" => Some(Start::InvalidateIf { test: 2 }),
        "iter" => Some(Start::Iter),
        "pending" => Some(Start::Pending),
        "evict" => evict(2),
        "evict another" => evict(1),
        _ => load_named(name),
    }
}

fn load_with(replace: Option<u64>) -> Option<Start<u32, u32>> {
    Some(Start::GetWith { key: KEY, replace })
}

fn load_named(name: &str) -> Option<Start<u32, u32>> {
    match name {
        "get with" => load_with(None),
        "get with a test" => load_with(Some(2)),
        "optional" => Some(Start::Optional { key: KEY }),
        "try" => Some(Start::Try { key: KEY }),
        "or insert" => Some(Start::OrInsert { key: KEY, value: 5 }),
        "compute" => Some(Start::Compute { key: KEY }),
        "compute alone" => Some(Start::ComputeAlone { key: KEY }),
        "upsert" => Some(Start::Upsert { key: KEY }),
        _ => None,
    }
}

/// What the access gives, by a word of its own kind; None where there is no such word.
pub(crate) fn given(access: &str, word: &str) -> Option<Got<u32, u32, u32>> {
    match access {
        "get" | "insert" | "insert if absent" | "remove" | "table" => of_table(word),
        "list the first part" | "list another part" => of_table(word),
        "take owed" | "post write" => of_writes(word),
        "lock key" | "unlock key" | "open notice" | "notice ended" => of_notices(word),
        "take told" => of_asks(word),
        "wait or own" | "own alone" | "read settled" => of_loads(word),
        _ => of_others(word),
    }
}

fn desk(found: Found<u32, u32>) -> Option<Got<u32, u32, u32>> {
    Some(Got::Desk(found))
}

fn decided(answer: TableAnswer<u32, u32>) -> Option<Got<u32, u32, u32>> {
    Some(Got::Table(TableTurn::Decided(answer)))
}

// A record of the call 2 under the key.
fn record() -> TableAnswer<u32, u32> {
    TableAnswer::Some {
        key: KEY,
        stored: Stored {
            value: 9,
            stamp: 2,
            modified: 1,
        },
    }
}

fn of_table(word: &str) -> Option<Got<u32, u32, u32>> {
    match word {
        "absent" => decided(TableAnswer::None),
        "found" => decided(record()),
        "undecided" => Some(Got::Table(TableTurn::Going)),
        _ => None,
    }
}

// A write of the call 2, which is owed with its notice or without one.
fn owed(notice: Option<u64>) -> Option<Got<u32, u32, u32>> {
    let write = Write::Upsert {
        number: 2,
        old: None,
    };
    desk(Found::TakeOwed(Some(Owed { write, notice })))
}

fn of_writes(word: &str) -> Option<Got<u32, u32, u32>> {
    match word {
        "none" => desk(Found::TakeOwed(None)),
        "a write" => owed(None),
        "a write with a notice" => owed(Some(2)),
        "posted" => desk(Found::PostWrite(true)),
        "the log is full" => desk(Found::PostWrite(false)),
        _ => None,
    }
}

fn of_notices(word: &str) -> Option<Got<u32, u32, u32>> {
    match word {
        "locked" => desk(Found::LockKey(LockTaken::Taken)),
        "held by another" => desk(Found::LockKey(LockTaken::Held)),
        "kept by a notice" => desk(Found::LockKey(LockTaken::Kept { notice: 7 })),
        "unlocked" => desk(Found::UnlockKey),
        "replaced" => desk(Found::OpenNotice(Some(Cause::Replaced))),
        "explicit" => desk(Found::OpenNotice(Some(Cause::Explicit))),
        "the listener is off" => desk(Found::OpenNotice(None)),
        "heard" => desk(Found::NoticeEnded(true)),
        "not yet" => desk(Found::NoticeEnded(false)),
        _ => None,
    }
}

fn told(answer: Told<u32, u32>) -> Option<Got<u32, u32, u32>> {
    desk(Found::TakeTold(Some(answer)))
}

fn of_asks(word: &str) -> Option<Got<u32, u32, u32>> {
    match word {
        "not yet" => desk(Found::TakeTold(None)),
        "value 9" => told(Told::Value(9)),
        "value 5" => told(Told::Value(5)),
        "nothing" => told(Told::Nothing),
        "error 3" => told(Told::Err(3)),
        "error 4" => told(Told::Err(4)),
        "nop" => told(Told::Op(Op::Nop)),
        "put 5" => told(Told::Op(Op::Put(5))),
        "remove" => told(Told::Op(Op::Remove)),
        _ => None,
    }
}

fn read(settled: Settled<u32, u32>) -> Option<Got<u32, u32, u32>> {
    desk(Found::ReadSettled(settled))
}

fn of_loads(word: &str) -> Option<Got<u32, u32, u32>> {
    match word {
        "owns" => desk(Found::WaitOrOwn(Claim::Owner)),
        "waits" => desk(Found::WaitOrOwn(Claim::Waits { owner: 2 })),
        "owned by another" => desk(Found::OwnAlone(true)),
        "owned by nobody" => desk(Found::OwnAlone(false)),
        "not yet" => read(Settled::NotYet),
        "ready 6" => read(Settled::Ready(6)),
        "error 3" => read(Settled::Err(3)),
        "nothing" => read(Settled::Nothing),
        "aborted" => read(Settled::Aborted),
        _ => None,
    }
}

fn of_others(word: &str) -> Option<Got<u32, u32, u32>> {
    match word {
        "stamped" => desk(Found::StampMoment(4)),
        "told" => desk(Found::Clock(4)),
        "seen" => desk(Found::Judge(true)),
        "not seen" => desk(Found::Judge(false)),
        "visible" => desk(Found::Scan(true)),
        "hidden" => desk(Found::Scan(false)),
        "it does" => desk(Found::Holds(true)),
        "no more" => desk(Found::Holds(false)),
        "opened" => desk(Found::OpenAsk),
        "settled" => desk(Found::Settle),
        _ => of_turns(word),
    }
}

fn of_turns(word: &str) -> Option<Got<u32, u32, u32>> {
    match word {
        "taken" => desk(Found::TakeTurn(true)),
        "taken by another" => desk(Found::TakeTurn(false)),
        "applied" => desk(Found::ApplyOne(true)),
        "none is left" => desk(Found::ApplyOne(false)),
        "ended" => desk(Found::EndTurn),
        "invalidated" => desk(Found::InvalidateAll),
        "retired" => desk(Found::Retire),
        _ => of_ids(word),
    }
}

fn registered(answer: Result<Id, PredicateError>) -> Option<Got<u32, u32, u32>> {
    desk(Found::Register(answer))
}

fn of_ids(word: &str) -> Option<Got<u32, u32, u32>> {
    match word {
        "registered" => registered(Ok(Id::new(6))),
        "closures are disabled" => registered(Err(PredicateError::InvalidationClosuresDisabled)),
        "every id is registered" => registered(Err(PredicateError::NoId)),
        _ => None,
    }
}
