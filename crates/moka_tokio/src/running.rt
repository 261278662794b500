//! Running a call on a runtime of `tokio`.
ghost use Rattle.std.specs.Prelude.{IfOk};

use futures::Future;
use moka_cache::{Moments, Polled, State};
use std::alloc::AllocGlobal;
use std::io;
use std::random::RandomSource;
use std::sync::Wait;
use std::thread::Threads;
use std::time::{Clock, Duration};
use tokio::runtime::Runtime;

/// Runs a call, as a `Polled` of its state, to its answer on this thread, while the timers and
/// sockets of the runtime go on. It is an error where there is no memory for the task, or the system
/// refused a call of the runtime; the call is cancelled then.
pub fn beside<R, F>(rt: &R, runtime: &mut Runtime, call: F) -> io::Result<F::Output>
where
    R: Wait + Threads + Clock + RandomSource + AllocGlobal + Sync,
    F: Future,
    requires { F.can_poll call }
    ensures answers { IfOk result (F.gives call) }
{
    runtime.block_on(rt, call)
}

/// Runs a call as `beside` does, for at most this long; each poll has a moment of `moments`.
/// Where the time is over first the call is cancelled, and the error is of the kind `TimedOut`.
/// An error of the call itself becomes one as `PollError` does.
pub fn within<R, S, M>(
    rt: &R,
    runtime: &mut Runtime,
    limit: Duration,
    call: S,
    moments: M,
) -> io::Result<S::Output>
where
    R: Wait + Threads + Clock + RandomSource + AllocGlobal + Sync,
    S: State<R>,
    M: Moments + Drop,
    requires { S.can_poll call }
    ensures answers { IfOk result (S.gives call) }
{
    let call = Polled::new(rt, call, moments);
    let limited = runtime.handle().time().timeout(rt, limit, call)?;
    Ok(beside(rt, runtime, limited)???)
}
