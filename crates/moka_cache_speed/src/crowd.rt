//! Calls of a cache that are all under way at once.
ghost use Rattle.futures.specs.Task.{Keeps};

use crate::calls::Begins;
use futures::Future;
use futures::executor::block_on;
use futures::task::{Context, Poll};
use moka_cache::{Polled, State};
use std::alloc::{AllocError, AllocGlobal, Global};
use std::io;
use std::marker::PhantomData;
use std::random::RandomSource;
use std::sync::Wait;

/// Calls that were polled once.
type UnderWay<'a, R, S> = Vec<Polled<'a, R, S, u64>>;

/// Makes so many calls that come from there, polls each once, and cancels them. Prints how many
/// there are while they are under way, and once they are cancelled.
pub(crate) fn call_at_once<R, S, B>(rt: &R, alloc: Global, begins: &B, calls: u64) -> io::Result<()>
where
    R: Wait + RandomSource + AllocGlobal + Print,
    S: State<R, Output: Drop>,
    B: Begins<R, S>,
{
    let crowd = Crowd {
        rt,
        alloc,
        begins,
        calls,
        state: PhantomData,
    };
    let begun: UnderWay<'_, R, S> = block_on(rt, crowd)??;
    let count = begun.len();
    println!(rt; "under way {count}")?;
    drop(begun);
    println!(rt; "cancelled {count}")
}

/// A future that makes calls, polls each once, and gives them.
#[derive(Drop)]
struct Crowd<'a, R, S, B> {
    rt: &'a R,
    alloc: Global,
    begins: &'a B,
    calls: u64,
    state: PhantomData<S>,
}

impl<'a, R, S, B> Future for Crowd<'a, R, S, B>
where
    R: Wait,
    S: State<R, Output: Drop>,
    B: Begins<R, S>,
{
    type Output = Result<UnderWay<'a, R, S>, AllocError>;

    fn poll(&mut self, cx: &mut Context<'_>) -> Poll<Self::Output> {
        let mut begun = Vec::new(self.alloc);
        for call in 0..self.calls {
            let state = self.begins.begin(call);
            if begun.push(polled_once(self.rt, state, cx)).is_err() {
                return Poll::Ready(Err(AllocError));
            }
        }
        Poll::Ready(Ok(begun))
    }
}

/// Polls the call once.
fn polled_once<'a, R: Wait, S: State<R, Output: Drop>>(
    rt: &'a R,
    state: S,
    cx: &mut Context<'_>,
) -> Polled<'a, R, S, u64>
    requires { S.can_poll state }
    ensures { Keeps cx.old cx.new }
{
    let mut call = Polled::new(rt, state, 0);
    drop(call.poll(cx));
    call
}
