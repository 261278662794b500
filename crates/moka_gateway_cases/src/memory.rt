//! A gateway for which memory was wanting. `tools/fail-alloc` makes each allocation of the test fail in
//! turn.
//!
//! One allocation fails at most, so what the test takes beside the gateway's calls is tried twice.
ghost use Rattle.std.specs.Prelude.{IfOk};
ghost use Rattle.moka_gateway.specs.Gateway.{IsUsable};

use crate::acts::{Act, Cut, Trace, play};
use moka_gateway::Gateway;
use std::alloc::{AllocError, Global};
use std::test::Fail;

/// Two clients share requests, one of which ends in an error; then both are closed.
const ACTS: [Act; 12] = [
    Act::Open,
    Act::Open,
    Act::Feed(1, "get 1;get 2;bad;get 3;"),
    Act::Feed(2, "get 2;get"),
    Act::Feed(2, " 1;"),
    Act::Value(2, 5),
    Act::Error(1, 6),
    Act::Feed(2, "get 2;get 1;"),
    Act::Close(1),
    Act::Value(1, 7),
    Act::Feed(2, "get 9;"),
    Act::Close(2),
];

/// What comes of it.
const TEXT: &str =
    "client 1 / client 2 / up fetch 1 / up fetch 2 / up fetch 3 / to 2 value 5; / to 1 error 6;value 5;bad; / to 2 error 6; / up fetch 1 / to 2 value 5; / closed / up cancel 3 / to 2 value 7; / up fetch 9 / closed / up cancel 9";

fn play_at_last(alloc: Global) -> Result<Trace, AllocError> {
    match play(alloc, &ACTS, Cut::Whole) {
        Ok(trace) => Ok(trace),
        Err(_) => play(alloc, &ACTS, Cut::Whole),
    }
}

fn gateway_at_last(alloc: Global) -> Result<Gateway, AllocError>
    ensures { IfOk result IsUsable }
{
    match Gateway::new(alloc) {
        Ok(gateway) => Ok(gateway),
        Err(_) => Gateway::new(alloc),
    }
}

/// Does one thing, and tells whether memory was wanting.
fn is_wanting(gateway: &mut Gateway, act: Act) -> bool
    requires { IsUsable gateway.old }
    ensures { IsUsable gateway.new }
{
    match act {
        Act::Open => gateway.open().is_err(),
        Act::Feed(client, text) => gateway.feed(client, text.as_bytes()).is_err(),
        Act::Value(key, value) => gateway.reply(key, Ok(value)).is_err(),
        Act::Error(key, error) => gateway.reply(key, Err(error)).is_err(),
        Act::Close(client) => gateway.close(client).is_err(),
    }
}

/// Whether each call after one for which memory was wanting answers that too.
fn stays_spent(gateway: &mut Gateway) -> bool
    requires { IsUsable gateway.old }
    ensures { IsUsable gateway.new }
{
    let mut wanting = false;
    for act in &ACTS {
        let now = is_wanting(gateway, *act);
        if wanting && !now {
            return false;
        }
        wanting = now;
    }
    true
}

/// Where an allocation fails nothing comes of the row; without it all does.
#[test]
fn a_row_comes_to_all_or_nothing(rt: HostRuntime) -> Result<(), Fail> {
    let trace = play_at_last(rt.alloc())?;
    assert_eq!(rt; trace.lines.as_str(), TEXT);
    Ok(())
}

/// A gateway for which memory was wanting answers nothing else any more.
#[test]
fn a_spent_gateway_stays_spent(rt: HostRuntime) -> Result<(), Fail> {
    let mut gateway = gateway_at_last(rt.alloc())?;
    let stays = stays_spent(&mut gateway);
    drop(gateway);
    assert!(rt; stays);
    Ok(())
}
