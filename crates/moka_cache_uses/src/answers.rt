//! The runtime of a use, and what two calls of a cache answer.

use futures::executor::block_on;
use futures::future::join;
use moka_cache::{PollError, Polled, State};
use std::alloc::AllocGlobal;
use std::io;
use std::random::RandomSource;
use std::sync::Wait;

/// A runtime that calls of a cache may wait with, and that prints.
pub(crate) trait Runtime: Wait + RandomSource + AllocGlobal + Print {}

impl<R: Wait + RandomSource + AllocGlobal + Print> Runtime for R {}

/// What two calls answered.
pub(crate) type Both<A, B> = (Result<A, PollError>, Result<B, PollError>);

/// Runs two calls to their answers, in one task.
pub(crate) fn both<R: Runtime, A, B>(
    rt: &R,
    one: A,
    other: B,
) -> io::Result<Both<A::Output, B::Output>>
where
    A: State<R, Output: Drop>,
    B: State<R, Output: Drop>,
    requires one { A.can_poll one }
    requires other { B.can_poll other }
{
    let one = Polled::new(rt, one, 0);
    block_on(rt, join(one, Polled::new(rt, other, 0)))
}
