//! The outcome of a poll, by its reply.
ghost use Rattle.std.specs.Prelude.{◌≡◌};
ghost use Rattle.moka_polled.specs.Outcomes.{call_in, outcome_by, outcome_in, says_told};

use moka_hist::{Answer, Reply};
use moka_small::Outcome;

/// The outcome of a poll that replied so: none where the poll was refused.
pub(crate) fn outcome_of<K: Drop, V: Drop, E: Drop>(reply: Reply<K, V, E>) -> Option<Outcome<V, E>>
    ensures { result ≡ outcome_in reply }
{
    match reply {
        Reply::Wait => Some(Outcome::Waits),
        Reply::Ask(_) => Some(Outcome::Asks),
        Reply::Answer(answer) => outcome_of_answer(answer),
        _ => None,
    }
}

// The outcome of a poll that answered so: none where a compute answered, a call gave up, a walk
// ended, or a predicate was or wasn't registered.
fn outcome_of_answer<K: Drop, V: Drop, E: Drop>(answer: Answer<K, V, E>) -> Option<Outcome<V, E>>
    ensures { result ≡ outcome_by answer }
{
    match answer {
        Answer::Done => Some(Outcome::Done),
        Answer::Found(found) => Some(Outcome::Found(found)),
        Answer::Loaded { value, fresh } => Some(Outcome::Loaded { value, fresh }),
        Answer::Nothing => Some(Outcome::Nothing),
        Answer::InitErr(error) => Some(Outcome::Failed(error)),
        Answer::Evicted => Some(Outcome::Evicted),
        Answer::Kept => Some(Outcome::Kept),
        _ => None,
    }
}

/// The number that a start gave: none where the reply says none.
pub(crate) fn call_of<K: Drop, V: Drop, E: Drop>(reply: Reply<K, V, E>) -> Option<u64>
    ensures { result ≡ call_in reply }
{
    match reply {
        Reply::Call(call) => Some(call),
        _ => None,
    }
}

/// Whether the reply says that an answer was taken.
pub(crate) fn is_told<K: Drop, V: Drop, E: Drop>(reply: Reply<K, V, E>) -> bool
    ensures { result ≡ says_told reply }
{
    matches!(reply, Reply::Told)
}
