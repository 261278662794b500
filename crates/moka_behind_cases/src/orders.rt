//! Random orders of calls beside the plain model.

use crate::calls::{Call, push_call};
use crate::in_memory::{keeper_of, run_before};
use crate::model::{Model, is_failing};
use moka_lines::Status;
use rand_core::Rng;
use rand_pcg::Pcg32;
use std::alloc::{AllocError, Global};
use std::test::Fail;

/// How many orders are tried, and how long each is.
const ORDERS: u64 = 200;

const CALLS: u32 = 60;

/// A number below the bound, which isn't 0.
fn below(random: &mut Pcg32, bound: u32) -> u32 {
    random.next_u32() % bound.max(1)
}

/// A call, at one of four keys.
fn call(random: &mut Pcg32) -> Call {
    let key = below(random, 4);
    match below(random, 11) {
        0 | 1 | 2 => Call::Set(key, below(random, 3)),
        3 | 4 => Call::Del(key),
        5 | 6 | 7 | 8 => Call::Get(key),
        9 => Call::Shed,
        _ => Call::Drain,
    }
}

/// The numbers of the calls of the keeper that fail, of as many as an order makes at most and more.
fn failing(alloc: Global) -> Result<Vec<u64>, AllocError> {
    let mut calls = Vec::new(alloc);
    for call in 0..200u64 {
        if is_failing(call) {
            calls.push(call)?;
        }
    }
    Ok(calls)
}

/// Carries a random order out on the model. Answers its lines, and their text.
fn made(alloc: Global, order: u64) -> Result<(String, String), AllocError> {
    let mut random = Pcg32::new(order, 54);
    let mut lines = String::new(alloc);
    let mut model = Model::new(alloc, [Some(7), Some(8), None, None]);
    for _ in 0..CALLS {
        let next = call(&mut random);
        push_call(&mut lines, next)?;
        model.carry_out(next)?;
    }
    Ok((lines, model.text()?))
}

/// Whether the program writes of a random order what the model does.
fn is_as_modelled(alloc: Global, failing: &[u64], order: u64) -> Result<bool, AllocError> {
    let (lines, text) = made(alloc, order)?;
    let mut keeper = keeper_of(alloc, &[(0, 7), (1, 8)], failing)?;
    let ended = run_before(alloc, &lines, &mut keeper)?;
    Ok(ended.came_to(Status::Done, &text))
}

#[test]
fn random_orders_come_to_what_the_model_says(rt: HostRuntime) -> Result<(), Fail> {
    let failing = failing(rt.alloc())?;
    for order in 0..ORDERS {
        assert!(rt;
            is_as_modelled(rt.alloc(), &failing, order)?,
            "order {order}"
        );
    }
    Ok(())
}
