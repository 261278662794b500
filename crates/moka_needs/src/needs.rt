//! What visits need of the desk.

use moka_hist::{Load, Write};

/// How an owner ends, but for the value and the error.
#[derive(Clone, Copy, PartialEq, Eq, Debug)]
pub enum Ending {
    NotYet,
    Ready,
    Err,
    Nothing,
    Aborted,
}

/// What the visit of the same name needs of the desk: what its condition speaks of, beside the call
/// that makes it.
#[derive(PartialEq, Debug, Drop)]
pub enum Need<K> {
    Clock,
    TakeOwed,
    NoticeEnded,
    LockKey,
    UnlockKey { wrote: bool },
    StampMoment,
    Judge,
    Scan,
    Holds,
    WaitOrOwn { load: Load<K> },
    OwnAlone,
    ReadSettled,
    Settle { with: Ending },
    OpenNotice,
    OpenAsk,
    TakeTold,
    PostWrite { write: Write },
    TakeTurn,
    ApplyOne,
    EndTurn,
    InvalidateAll,
    Register,
    Candidates,
    Strike,
    Retire,
}
