//! A call that reads how its owner ended once that is gone, and many calls were made since.

use futures::Future;
use futures::executor::block_on;
use futures::future::join;
use futures::task::{Context, Poll};
use moka_cache::{Cache, PollError, Polled, RetriesExhausted, State};
use moka_cache_runs::asks::Asks;
use moka_cache_runs::caches::Numbers;
use moka_cache_runs::inits::After;
use moka_cache_runs::numbers::numbers;
use moka_cache_runs::run::run;
use std::alloc::AllocGlobal;
use std::io;
use std::random::RandomSource;
use std::sync::Wait;
use std::test::Fail;

// Polls a future, and right before its second poll makes a thousand calls of other keys.
#[derive(Drop)]
struct AfterCalls<'a, R, F> {
    rt: &'a R,
    cache: &'a Numbers,
    polls: u64,
    future: F,
}

impl<R: Wait + RandomSource + AllocGlobal, F: Future> Future for AfterCalls<'_, R, F> {
    type Output = F::Output;

    ghost can_poll = { λ after. F.can_poll after.future };

    fn poll(&mut self, cx: &mut Context<'_>) -> Poll<F::Output> {
        if self.polls == 1 {
            store_others(self.rt, self.cache);
        }
        self.polls = self.polls.saturating_add(1);
        self.future.poll(cx)
    }
}

// Stores a thousand values under keys from 2 on.
fn store_others<R: Wait + RandomSource + AllocGlobal>(rt: &R, cache: &Numbers) {
    for key in 2..1002 {
        let _ = run(rt, cache.insert(key, 0));
    }
}

// What two calls answered.
type Both<A, B> = (Result<A, PollError>, Result<B, PollError>);

// Polls two calls in one task. The second poll of the second one comes after a thousand calls.
fn beside<R: Wait + RandomSource + AllocGlobal, S: State<R, Output: Drop>, T>(
    rt: &R,
    cache: &Numbers,
    first: S,
    second: T,
) -> io::Result<Both<S::Output, T::Output>>
where
    T: State<R, Output: Drop>,
    requires first { S.can_poll first }
    requires second { T.can_poll second }
{
    let late = AfterCalls {
        rt,
        cache,
        polls: 0,
        future: Polled::new(rt, second, 0),
    };
    block_on(rt, join(Polled::new(rt, first, 0), late))
}

// What a load answered, or that it gave up.
type Loaded = Result<u32, RetriesExhausted>;

// Loads key 1 twice at once: the owner is asked once in vain, and the waiter reads late.
fn load_twice<'a, R: Wait + RandomSource + AllocGlobal>(
    rt: &'a R,
    cache: &'a Numbers,
    owns: &'a Asks,
    waits: &'a Asks,
) -> io::Result<Both<Loaded, Loaded>> {
    let owner = numbers(cache.get_with(1, After::polls(1, 5, owns)));
    let waiter = numbers(cache.get_with(1, After::polls(0, 6, waits)));
    beside(rt, cache, owner, waiter)
}

#[test]
fn a_waiter_reads_an_end_after_a_thousand_calls(rt: HostRuntime) -> Result<(), Fail> {
    let cache: Numbers = Cache::new(rt.alloc(), 100)?;
    let (owns, waits) = (Asks::new(), Asks::new());
    let (owned, read) = load_twice(&rt, &cache, &owns, &waits)?;
    assert_eq!(rt; owned, Ok(Ok(5)));
    assert_eq!(rt; read, Ok(Ok(5)));
    assert_eq!(rt; (owns.polls(), waits.polls()), (2, 0));
    Ok(())
}
