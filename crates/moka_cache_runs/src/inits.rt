//! Who is asked by the calls of the tests, and futures that go with them.
ghost use Rattle.std.specs.Prelude.{IsOk, IsSome, IfSome};
ghost use Rattle.moka_cache.specs.Asked.{IsPut};

use crate::asks::Asks;
use futures::Future;
use futures::task::{Context, Poll};
use moka_cache::{Compute, Init};
use moka_hist::{Entry, Op};
use std::sync::atomic::{AtomicBool, Ordering};

/// Gives its output once it was polled so often, or is let, and counts its polls.
#[derive(Drop)]
pub struct After<'a, T = u32> {
    left: u64,
    output: T,
    asks: &'a Asks,
}

impl<'a, T> After<'a, T> {
    /// One that is pending at so many polls.
    pub fn polls(left: u64, output: T, asks: &'a Asks) -> After<'a, T> {
        After { left, output, asks }
    }
}

impl<T: Copy + Drop> Init<T> for After<'_, T> {
    fn poll(&mut self, cx: &mut Context<'_>) -> Poll<T> {
        self.asks.count_poll();
        if self.left == 0 || self.asks.is_let().load(Ordering::SeqCst) {
            return Poll::Ready(self.output);
        }
        self.left -= 1;
        cx.yield_now()
    }
}

/// What a compute is told to do.
#[derive(Clone, Copy)]
pub enum Act {
    Nop,
    Put(u32),
    Remove,
}

/// The op of an act.
pub fn op_of(act: Act) -> Op<u32> {
    match act {
        Act::Nop => Op::Nop,
        Act::Put(value) => Op::Put(value),
        Act::Remove => Op::Remove,
    }
}

// The value of what a compute is started with.
fn value_of(found: Option<&Entry<u32, u32>>) -> Option<u32> {
    match found {
        Some(entry) => Some(entry.value),
        None => None,
    }
}

/// Tells an act, once it was polled so often.
#[derive(Drop)]
pub struct Tells<'a> {
    after: After<'a, Act>,
}

impl<'a> Tells<'a> {
    /// One that is pending at so many polls.
    pub fn after(polls: u64, act: Act, asks: &'a Asks) -> Tells<'a> {
        let after = After::polls(polls, act, asks);
        Tells { after }
    }
}

impl Compute<u32, u32, u32> for Tells<'_> {
    ghost gives = { λ tells r. IsOk r };

    fn start(&mut self, found: Option<&Entry<u32, u32>>) {
        self.after.asks.count_start(value_of(found));
    }

    fn poll(&mut self, cx: &mut Context<'_>) -> Poll<Result<Op<u32>, u32>> {
        match self.after.poll(cx) {
            Poll::Ready(act) => Poll::Ready(Ok(op_of(act))),
            Poll::Pending => Poll::Pending,
        }
    }
}

/// Tells an error, once it was polled so often.
#[derive(Drop)]
pub struct Fails<'a> {
    after: After<'a>,
}

impl<'a> Fails<'a> {
    /// One that is pending at so many polls.
    pub fn after(polls: u64, error: u32, asks: &'a Asks) -> Fails<'a> {
        let after = After::polls(polls, error, asks);
        Fails { after }
    }
}

impl Compute<u32, u32, u32> for Fails<'_> {
    fn start(&mut self, found: Option<&Entry<u32, u32>>) {
        self.after.asks.count_start(value_of(found));
    }

    fn poll(&mut self, cx: &mut Context<'_>) -> Poll<Result<Op<u32>, u32>> {
        match self.after.poll(cx) {
            Poll::Ready(error) => Poll::Ready(Err(error)),
            Poll::Pending => Poll::Pending,
        }
    }
}

/// Tells to store one more than what was found, or 1, once it was polled so often.
#[derive(Drop)]
pub struct Counts<'a> {
    after: After<'a>,
}

impl<'a> Counts<'a> {
    /// One that is pending at so many polls.
    pub fn after(polls: u64, asks: &'a Asks) -> Counts<'a> {
        let after = After::polls(polls, 0, asks);
        Counts { after }
    }
}

impl Compute<u32, u32, u32> for Counts<'_> {
    ghost gives = { λ counts r. IsPut r };

    fn start(&mut self, found: Option<&Entry<u32, u32>>) {
        let found = value_of(found);
        self.after.asks.count_start(found);
        self.after.output = found.map_or(1, |value| value.saturating_add(1));
    }

    fn poll(&mut self, cx: &mut Context<'_>) -> Poll<Result<Op<u32>, u32>> {
        match self.after.poll(cx) {
            Poll::Ready(value) => Poll::Ready(Ok(Op::Put(value))),
            Poll::Pending => Poll::Pending,
        }
    }
}

/// Sets the flag after each poll of the future.
#[derive(Drop)]
pub struct Sets<'a, F> {
    pub future: F,
    pub flag: &'a AtomicBool,
}

impl<F: Future> Future for Sets<'_, F> {
    type Output = F::Output;

    ghost can_poll = { λ sets. F.can_poll sets.future };

    fn poll(&mut self, cx: &mut Context<'_>) -> Poll<F::Output> {
        let polled = self.future.poll(cx);
        self.flag.store(true, Ordering::SeqCst);
        polled
    }
}

/// Polls a future so often, and then drops it. Gives its output, if it came to that.
#[derive(Drop)]
pub struct DropsAfter<F> {
    pub polls: u64,
    pub future: Option<F>,
}

impl<F: Future<Output: Drop>> Future for DropsAfter<F> {
    type Output = Option<F::Output>;

    ghost can_poll = { λ drops. IsSome drops.future × IfSome drops.future F.can_poll };

    fn poll(&mut self, cx: &mut Context<'_>) -> Poll<Option<F::Output>> {
        if self.polls == 0 {
            self.future = None;
            return Poll::Ready(None);
        }
        self.polls -= 1;
        match &mut self.future {
            Some(future) => match future.poll(cx) {
                Poll::Ready(output) => Poll::Ready(Some(output)),
                Poll::Pending => Poll::Pending,
            },
            None => unreachable!(),
        }
    }
}
