//! Calls of any kind, made in each way.

use crate::calls::{Begins, make_calls};
use crate::ways::Way;
use futures::FutureExt;
use futures::executor::block_on;
use futures::future::join;
use moka_cache::{Polled, State};
use std::alloc::AllocGlobal;
use std::io;
use std::random::RandomSource;
use std::sync::Wait;

/// The rounds from one up to another, without that.
#[derive(Clone, Copy)]
pub(crate) struct Span {
    pub(crate) first: u64,
    pub(crate) end: u64,
}

impl Span {
    /// So many rounds.
    pub(crate) fn below(end: u64) -> Span {
        Span { first: 0, end }
    }

    /// This round alone.
    pub(crate) fn of(round: u64) -> Span {
        Span {
            first: round,
            end: round.saturating_add(1),
        }
    }
}

/// Makes the rounds by calls that come from there: those that are made once as one task. Tells how
/// many are over.
pub(crate) fn run<R, S, B>(rt: &R, begins: &B, way: Way, span: Span) -> io::Result<u64>
where
    R: Wait + RandomSource + AllocGlobal,
    S: State<R, Output: Drop>,
    B: Begins<R, S>,
{
    match way {
        Way::Once => make_calls(rt, begins, span.first, span.end),
        _ => make_each(rt, begins, way, span),
    }
}

/// Makes each of the rounds as a task of its own.
fn make_each<R, S, B>(rt: &R, begins: &B, way: Way, span: Span) -> io::Result<u64>
where
    R: Wait + RandomSource + AllocGlobal,
    S: State<R, Output: Drop>,
    B: Begins<R, S>,
{
    let mut over = 0u64;
    for round in span.first..span.end {
        let done = match way {
            Way::Twice => finish_both(rt, begins.begin(round), begins.begin(round))?,
            _ => make_alone(rt, way, begins.begin(round))?,
        };
        over = over.wrapping_add(u64::from(done));
    }
    Ok(over)
}

/// Makes the one call of a round, and tells whether it is over: to its end, or polled once and
/// dropped where it waits.
pub(crate) fn make_alone<R, S>(rt: &R, way: Way, state: S) -> io::Result<bool>
where
    R: Wait + RandomSource + AllocGlobal,
    S: State<R, Output: Drop>,
    requires { S.can_poll state }
{
    match way {
        Way::Dropped => poll_once(rt, state),
        _ => finish(rt, state),
    }
}

/// Runs the call to its end, and tells whether it answered.
fn finish<R: Wait + RandomSource + AllocGlobal, S: State<R, Output: Drop>>(
    rt: &R,
    call: S,
) -> io::Result<bool>
    requires { S.can_poll call }
{
    Ok(block_on(rt, Polled::new(rt, call, 0))?.is_ok())
}

/// Polls the call once, and drops it where it waits. It is over then.
fn poll_once<R: Wait + RandomSource + AllocGlobal, S: State<R, Output: Drop>>(
    rt: &R,
    call: S,
) -> io::Result<bool>
    requires { S.can_poll call }
{
    drop(Polled::new(rt, call, 0).now_or_never(rt)?);
    Ok(true)
}

/// Runs both calls to their end as one task, and tells whether they answered.
pub(crate) fn finish_both<R, S>(rt: &R, one: S, other: S) -> io::Result<bool>
where
    R: Wait + RandomSource + AllocGlobal,
    S: State<R, Output: Drop>,
    requires one { S.can_poll one }
    requires other { S.can_poll other }
{
    let one = Polled::new(rt, one, 0);
    let other = Polled::new(rt, other, 0);
    let (one, other) = block_on(rt, join(one, other))?;
    Ok(one.is_ok() && other.is_ok())
}
