//! How far a state is.
ghost use Rattle.std.specs.Prelude.{◌≡◌, OnOk};
ghost use Rattle.futures.specs.Poll.{IfReady};
ghost use Rattle.moka_init.specs.FlowPlan.{IsOver};
ghost use Rattle.moka_cache.specs.Polled.{kept_as};
ghost use Rattle.moka_cache.specs.Stages.{MayEnd};

use crate::errors::PollError;
use futures::task::Poll;
use moka_hist::{
    Answer, Cause, CompResult, Entry, Id, IdList, Kind, Load, Mode, Rules, Sought, Stored, Write,
};
use moka_init::points::{
    Asks, Chosen, Computing, Drained, Ending, KeyCompute, Listening, Loading, Locked, Look,
    Looking, Maintenance, Part, PartKeys, Point, Posted, Posting, Put, Removal, Removing, TakeOut,
    Then, Uncopied, Walk, Writing,
};
use moka_init::{Flow, KeysLeft};
use moka_kept::Live;
use std::marker::PhantomData;
use std::mem;

/// How far a state is: it has no number yet, and only what it is to begin with; its call goes on as
/// this flow; no number was left for it; or its call has answered. It has no `Drop`, since a flow of
/// a call that has a number has none.
pub(crate) enum Stage<A, K, V, E> {
    Fresh(A),
    Running(Live<K, V, E>),
    Spent,
    Answered,
}

/// The types that lie in a stage, by name. A struct that has a stage beside a borrow has a field of
/// this type, since its proof is to know them all.
pub(crate) type Nested<K, V, E> = PhantomData<
    (
        (Live<K, V, E>, Flow<K, V, E>, Option<E>, Rules),
        (Mode, Write, Cause),
        (Answer<K, V, E>, CompResult<K, V>, Entry<K, V>),
        (Stored<V>, Load<K>, Sought<K>, Kind),
        (
            Point<K, V, E>,
            Posting<K, V>,
            Looking<K, V>,
            Loading<K, V, E>,
        ),
        (
            Computing<K, V, E>,
            Writing<K, V>,
            Removing<K, V>,
            Listening<K, V>,
        ),
        (
            Posted<K, V>,
            Drained<K, V>,
            Locked<K, V>,
            Look<K, V>,
            Uncopied<V>,
        ),
        (
            KeyCompute<K>,
            Chosen<K>,
            Put<K, V>,
            TakeOut<K>,
            Ending<V, E>,
        ),
        (
            Walk<K, V>,
            Maintenance<K, V>,
            PartKeys<K>,
            Part,
            KeysLeft<K>,
        ),
        (Asks, Then, Removal, IdList, Id),
    ),
>;

/// The stage, whose call was known to have no number, is this one from then on.
pub(crate) fn put<A: Drop, K: Drop, V: Drop, E: Drop>(
    stage: &mut Stage<A, K, V, E>,
    new: Stage<A, K, V, E>,
)
    requires { stage.old ≡ Stage.Spent }
    ensures { stage.new ≡ new }
{
    match mem::replace(stage, new) {
        Stage::Spent => {}
        _ => unreachable!(),
    }
}

/// The state, for whose call no stage was made yet, is left by the first poll of that so: it has
/// answered, or goes on as this flow.
pub(crate) fn keep<A: Drop, K: Drop, V: Drop, E: Drop>(
    stage: &mut Stage<A, K, V, E>,
    flow: Live<K, V, E>,
    poll: Poll<Result<Answer<K, V, E>, PollError>>,
) -> Poll<Result<Answer<K, V, E>, PollError>>
    requires spent { stage.old ≡ Stage.Spent }
    requires over { IfReady poll (λ r. OnOk r (IsOver flow)) }
    ensures poll { result ≡ poll }
    ensures stage { stage.new ≡ kept_as flow poll }
{
    match poll {
        Poll::Ready(Ok(answer)) => {
            flow.end();
            put(stage, Stage::Answered);
            Poll::Ready(Ok(answer))
        }
        Poll::Ready(Err(e)) => {
            put(stage, Stage::Running(flow));
            Poll::Ready(Err(e))
        }
        Poll::Pending => {
            put(stage, Stage::Running(flow));
            Poll::Pending
        }
    }
}

/// The state has answered: nothing is left of its call, if that was begun.
pub(crate) fn end<A: Drop, K: Drop, V: Drop, E: Drop>(stage: &mut Stage<A, K, V, E>)
    requires { MayEnd stage.old }
    ensures { stage.new ≡ Stage.Answered }
{
    match mem::replace(stage, Stage::Answered) {
        Stage::Running(flow) => flow.end(),
        Stage::Fresh(begin) => drop(begin),
        Stage::Spent => {}
        Stage::Answered => {}
    }
}
