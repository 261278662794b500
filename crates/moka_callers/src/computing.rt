//! What a call changes that is told, and until when it owns the computes of a key.

ghost use Rattle.moka_callers.specs.Computing.{AsksComeFirst, ComputeErrorsWereTold, ComputesAnswerAsTold, NopsLeaveAll, OwnedUntilOver};

/// A call that has asked, and has still to take the answer, has changed nothing that is stored.
pub fn asks_come_first<K: Eq, V, E>()
    ensures first { AsksComeFirst K V E K.eq }
{}

/// A compute that takes a nop or an error changes nothing that is stored, from its start to its end.
pub fn nops_leave_all<K: Eq, V, E>()
    ensures leaves { NopsLeaveAll K V E K.eq }
{}

/// Whatever events follow, a call that owns the computes of a key owns them still, or has settled, or
/// was dropped.
pub fn owned_until_over<K: Eq, V, E>()
    ensures owned { OwnedUntilOver K V E K.eq }
{}

/// A compute that took a nop, a value or an error answers just that, by the step with which it ends:
/// that it changed nothing, that it inserted or replaced, or that error.
pub fn computes_answer_as_told<K: Eq, V, E>()
    ensures says { ComputesAnswerAsTold K V E K.eq }
{}

/// A compute that answers an error took that error as the answer to its own ask.
pub fn compute_errors_were_told<K: Eq, V, E>()
    ensures told { ComputeErrorsWereTold K V E K.eq }
{}
