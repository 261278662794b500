//! A call that waits for what another thread does.

use futures::FutureExt;
use futures::channel::oneshot;
use futures::channel::oneshot::{Receiver, Sender};
use moka_cache::Cache;
use moka_cache_runs::asks::Asks;
use moka_cache_runs::caches::Numbers;
use moka_cache_runs::calls::Call::Own;
use moka_cache_runs::calls::Kind::Load;
use moka_cache_runs::calls::Load::GetWith;
use moka_cache_runs::calls::{Caller, Gives};
use moka_cache_runs::replies::Reply;
use moka_cache_runs::run::run;
use std::alloc::AllocGlobal;
use std::random::RandomSource;
use std::sync::Wait;
use std::test::Fail;
use std::thread::Threads;
use std::{io, thread};

/// How often each waits for the other at most.
const TURNS: u64 = 10_000_000;

/// Waits until there was a poll.
fn wait_for(asks: &Asks) {
    for _ in 0..TURNS {
        if asks.polls() > 0 {
            break;
        }
        thread::yield_now();
    }
}

/// Loads key 1 by an initializer that waits until it is let.
fn own<R: Wait + RandomSource + AllocGlobal>(
    rt: &R,
    cache: &Numbers,
    asks: &Asks,
) -> io::Result<Reply> {
    let caller = Caller { rt, cache, asks };
    caller.run(&Own(1, Load(GetWith(Gives(TURNS, 5)))))
}

/// Loads key 1, once its owner was polled, and lets that one's initializer after each poll.
fn join_owner<R: Wait + RandomSource + AllocGlobal>(
    rt: &R,
    cache: &Numbers,
    owner: &Asks,
    asks: &Asks,
) -> io::Result<Reply> {
    wait_for(owner);
    let caller = Caller { rt, cache, asks };
    caller.run_setting(&Own(1, Load(GetWith(Gives(0, 6)))), owner.is_let())
}

/// Makes both, each in a thread of its own.
fn load_both<'a, R: Threads + Wait + RandomSource + AllocGlobal + Sync>(
    rt: &'a R,
    cache: &'a Numbers,
    first: &'a Asks,
    second: &'a Asks,
) -> (io::Result<Reply>, io::Result<Reply>) {
    thread::join(
        rt,
        || own(rt, cache, first),
        || join_owner(rt, cache, first, second),
    )
}

#[test]
fn an_owner_waits_for_its_waiter_on_another_thread(rt: HostRuntime) -> Result<(), Fail> {
    let cache: Numbers = Cache::new(rt.alloc(), 100)?;
    let (first, second) = (Asks::new(), Asks::new());
    let (a, b) = load_both(&rt, &cache, &first, &second);
    assert_eq!(rt; a?, Reply::Value(5));
    assert_eq!(rt; b?, Reply::Value(5));
    assert!(rt; first.polls() <= TURNS);
    assert_eq!(rt; second.polls(), 0);
    Ok(())
}

/// Loads key 1 by what comes through the channel, which another thread sends.
fn load_sent<'a, R: Threads + Wait + RandomSource + AllocGlobal + Sync>(
    rt: &'a R,
    cache: &'a Numbers,
    sender: Sender<u32>,
    receiver: Receiver<u32>,
) -> (bool, io::Result<Option<u32>>) {
    thread::join(
        rt,
        || sender.send(7).is_ok(),
        || receive(rt, cache, receiver),
    )
}

/// Loads key 1 by what comes through the channel. None where the load gives up.
fn receive<R: Wait + RandomSource + AllocGlobal>(
    rt: &R,
    cache: &Numbers,
    receiver: Receiver<u32>,
) -> io::Result<Option<u32>> {
    let sent = receiver.map(|sent| sent.ok());
    Ok(run(rt, cache.optionally_get_with(1, sent))?.unwrap_or(None))
}

#[test]
fn a_load_takes_what_another_thread_sends(rt: HostRuntime) -> Result<(), Fail> {
    let cache: Numbers = Cache::new(rt.alloc(), 100)?;
    let (sender, receiver) = oneshot::channel(rt.alloc())?;
    let (is_sent, received) = load_sent(&rt, &cache, sender, receiver);
    assert!(rt; is_sent);
    assert_eq!(rt; received?, Some(7));
    Ok(())
}
