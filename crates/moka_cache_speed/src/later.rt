//! Who is asked by the loads and computes.
ghost use Rattle.std.specs.Prelude.{IsOk};
ghost use Rattle.moka_cache.specs.Asked.{IsPut};

use futures::task::{Context, Poll};
use moka_cache::{Compute, Init};
use moka_hist::{Entry, Op};

/// Gives this output: at once, or at its second poll.
#[derive(Drop)]
pub(crate) struct Later<T> {
    pub(crate) output: T,
    pub(crate) pends: bool,
}

impl<T: Copy + Drop> Init<T> for Later<T> {
    fn poll(&mut self, cx: &mut Context<'_>) -> Poll<T> {
        if self.pends {
            self.pends = false;
            return cx.yield_now();
        }
        Poll::Ready(self.output)
    }
}

/// Stores a value.
#[derive(Drop)]
pub(crate) struct Puts(pub(crate) Later<u64>);

impl Compute<u64, u64, u64> for Puts {
    ghost gives = { λ puts r. IsOk r × IsPut r };

    fn start(&mut self, _found: Option<&Entry<u64, u64>>) {}

    fn poll(&mut self, cx: &mut Context<'_>) -> Poll<Result<Op<u64>, u64>> {
        match self.0.poll(cx) {
            Poll::Ready(value) => Poll::Ready(Ok(Op::Put(value))),
            Poll::Pending => Poll::Pending,
        }
    }
}

/// Stores a value, or fails.
#[derive(Drop)]
pub(crate) struct MayFail(pub(crate) Later<Result<u64, u64>>);

impl Compute<u64, u64, u64> for MayFail {
    fn start(&mut self, _found: Option<&Entry<u64, u64>>) {}

    fn poll(&mut self, cx: &mut Context<'_>) -> Poll<Result<Op<u64>, u64>> {
        match self.0.poll(cx) {
            Poll::Ready(Ok(value)) => Poll::Ready(Ok(Op::Put(value))),
            Poll::Ready(Err(error)) => Poll::Ready(Err(error)),
            Poll::Pending => Poll::Pending,
        }
    }
}
