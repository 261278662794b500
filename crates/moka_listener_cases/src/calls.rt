//! Calls of key 1 of caches with a listener, at moment 0.

use crate::keeping::{Board, Opens};
use futures::executor::block_on;
use moka_cache::{Polled, State};
use moka_cache_runs::asks::{Asks, Told};
use moka_cache_runs::caches::{Heard, HearsAny};
use moka_cache_runs::calls::Call::Own;
use moka_cache_runs::calls::Kind::OfKey;
use moka_cache_runs::calls::OfKey::Insert;
use moka_cache_runs::calls::{Call, Caller};
use moka_cache_runs::replies::{Replies, Reply, reply_of};
use moka_cache_runs::tasks::Task;
use std::alloc::AllocGlobal;
use std::io;
use std::random::RandomSource;
use std::sync::Wait;

// The call is run to its end, and the listener let go after each poll.
#[derive(Drop)]
struct Opening<'a>(&'a Board);

impl<R: Wait + RandomSource + AllocGlobal> Task<R> for Opening<'_> {
    fn run<S: State<R, Output: Replies>>(self, rt: &R, call: S) -> io::Result<(Reply, Reply)> {
        let future = Polled::new(rt, call, 0);
        let board = self.0;
        let answer = block_on(rt, Opens { future, board })?;
        Ok((reply_of(Some(answer)), Reply::Dropped))
    }
}

/// Runs the call to its end, lets the listener go after each poll, and tells what it replied.
pub(crate) fn run_opening<R: Wait + RandomSource + AllocGlobal, L: HearsAny>(
    rt: &R,
    cache: &Heard<L>,
    call: &Call,
    board: &Board,
) -> io::Result<Told> {
    let asks = &Asks::new();
    let caller = Caller { rt, cache, asks };
    let (reply, _) = caller.make(call, Opening(board))?;
    Ok(asks.told(reply))
}

/// Polls the call once, drops it where that is pending, and tells what it replied.
pub(crate) fn once<R: Wait + RandomSource + AllocGlobal, L: HearsAny>(
    rt: &R,
    cache: &Heard<L>,
    call: &Call,
) -> io::Result<Told> {
    let asks = &Asks::new();
    let caller = Caller { rt, cache, asks };
    let reply = caller.poll_once(call)?;
    Ok(asks.told(reply))
}

/// Polls an insert of the value under key 1 once, drops it where that is pending, and tells what it
/// replied.
pub(crate) fn insert_once<R: Wait + RandomSource + AllocGlobal, L: HearsAny>(
    rt: &R,
    cache: &Heard<L>,
    value: u32,
) -> io::Result<Reply> {
    let told = once(rt, cache, &Own(1, OfKey(Insert(value))))?;
    Ok(told.0)
}
