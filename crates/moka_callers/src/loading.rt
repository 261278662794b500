//! What a load answers that was told, and what it does whose owner was dropped.

ghost use Rattle.moka_callers.specs.Loading.{AbortedGoesOn, ComputesBeginAnew, FreshWasTold, LoadsAnswerTold};

/// A load that took what it was told answers just that, by the step with which it ends so for those
/// that wait: a value, as fresh; that there is none; or the error.
pub fn loads_answer_told<K: Eq, V, E>()
    ensures says { LoadsAnswerTold K V E K.eq }
{}

/// A load that answers a value as fresh took that value as the answer to its own ask.
pub fn fresh_was_told<K: Eq, V, E>()
    ensures told { FreshWasTold K V E K.eq }
{}

/// A load that reads that its owner was dropped, and doesn't give up, takes part in the load anew: by
/// its next step it owns the load, or waits for its owner.
pub fn aborted_goes_on<K: Eq, V, E>()
    ensures anew { AbortedGoesOn K V E K.eq }
{}

/// A compute that reads how its owner ended takes part in the computes of its key anew: by its next
/// step it owns them, or waits for their owner.
pub fn computes_begin_anew<K: Eq, V, E>()
    ensures anew { ComputesBeginAnew K V E K.eq }
{}
