//! How a call is run, once it is made.
//!
//! What runs a call is generic over its state: so a call of each kind is made in one place, and
//! run in each way.
ghost use Rattle.std.specs.Prelude.{⊤};

use crate::asks::Asks;
use crate::caches::{Heard, HearsAny};
use crate::calls::{Call, Caller, Group};
use crate::inits::{DropsAfter, Sets};
use crate::replies::{Replies, Reply, reply_of};
use futures::FutureExt;
use futures::executor::block_on;
use futures::future::join;
use moka_cache::{Polled, State};
use std::alloc::AllocGlobal;
use std::io;
use std::random::RandomSource;
use std::sync::Wait;
use std::sync::atomic::AtomicBool;

/// What is done with a call. It tells what the call replied, and another beside it.
pub trait Task<R: Wait + RandomSource + AllocGlobal> {
    /// Holds of the tasks that can be done.
    ghost is_ready: { Self → Type 0 } = { λ _. ⊤ };

    fn run<S: State<R, Output: Replies>>(self, rt: &R, call: S) -> io::Result<(Reply, Reply)>
        requires ready { is_ready self }
        requires can { S.can_poll call };
}

/// The call is run to its end, at this moment.
#[derive(Drop)]
pub struct Alone(pub u64);

impl<R: Wait + RandomSource + AllocGlobal> Task<R> for Alone {
    fn run<S: State<R, Output: Replies>>(self, rt: &R, call: S) -> io::Result<(Reply, Reply)> {
        let answer = block_on(rt, Polled::new(rt, call, self.0))?;
        Ok((reply_of(Some(answer)), Reply::Dropped))
    }
}

/// The call is run to its end, and the flag is set after each poll.
#[derive(Drop)]
pub struct Setting<'a>(pub &'a AtomicBool);

impl<R: Wait + RandomSource + AllocGlobal> Task<R> for Setting<'_> {
    fn run<S: State<R, Output: Replies>>(self, rt: &R, call: S) -> io::Result<(Reply, Reply)> {
        let future = Polled::new(rt, call, 0);
        let flag = self.0;
        let answer = block_on(rt, Sets { future, flag })?;
        Ok((reply_of(Some(answer)), Reply::Dropped))
    }
}

/// The call is polled once, and dropped where that is pending.
#[derive(Drop)]
pub struct Once;

impl<R: Wait + RandomSource + AllocGlobal> Task<R> for Once {
    fn run<S: State<R, Output: Replies>>(self, rt: &R, call: S) -> io::Result<(Reply, Reply)> {
        let answer = Polled::new(rt, call, 0).now_or_never(rt)?;
        Ok((reply_of(answer), Reply::Dropped))
    }
}

/// The call is dropped before it was polled: as a future, or as a state.
#[derive(Drop)]
pub enum Unpolled {
    Future,
    State,
}

impl<R: Wait + RandomSource + AllocGlobal> Task<R> for Unpolled {
    fn run<S: State<R, Output: Replies>>(self, rt: &R, call: S) -> io::Result<(Reply, Reply)> {
        match self {
            Unpolled::Future => drop(Polled::new(rt, call, 0)),
            Unpolled::State => call.cancel(rt),
        }
        Ok((Reply::Dropped, Reply::Dropped))
    }
}

/// The call is run beside another of one group, in one task that polls both in turn. It is dropped
/// after so many polls, and the flag is set after each poll of the other.
#[derive(Drop)]
pub struct First<'a, L, G> {
    pub cache: &'a Heard<L>,
    pub asks: &'a Asks,
    pub other: &'a Call,
    pub kind: G,
    pub polls: u64,
    pub flag: &'a AtomicBool,
}

impl<R, L, G> Task<R> for First<'_, L, G>
where
    R: Wait + RandomSource + AllocGlobal,
    L: HearsAny,
    G: Group,
{
    fn run<S: State<R, Output: Replies>>(self, rt: &R, call: S) -> io::Result<(Reply, Reply)> {
        let second = Second {
            first: call,
            polls: self.polls,
            flag: self.flag,
        };
        let caller = Caller {
            rt,
            cache: self.cache,
            asks: self.asks,
        };
        self.kind.make(&caller, self.other, second)
    }
}

// The other call, beside the first.
struct Second<'a, S> {
    first: S,
    polls: u64,
    flag: &'a AtomicBool,
}

impl<R: Wait + RandomSource + AllocGlobal, F: State<R, Output: Replies>> Task<R> for Second<'_, F> {
    ghost is_ready = { λ second. F.can_poll second.first };

    fn run<S: State<R, Output: Replies>>(self, rt: &R, call: S) -> io::Result<(Reply, Reply)> {
        let Second { first, polls, flag } = self;
        let future = Some(Polled::new(rt, first, 0));
        let first = DropsAfter { polls, future };
        let future = Polled::new(rt, call, 0);
        let second = Sets { future, flag };
        let (first, second) = block_on(rt, join(first, second))?;
        Ok((reply_of(first), reply_of(Some(second))))
    }
}
