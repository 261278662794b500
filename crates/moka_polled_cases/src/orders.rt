//! Random orders of calls, polled and told, beside the plain model.
ghost use Rattle.std.specs.Prelude.{nat_eq};
ghost use Rattle.moka_polled.specs.Polled.{AnySmall, IsUsable};

use crate::acts::{Act, Begin, End, Polled, cache, carry_out};
use crate::model::Model;
use rand_core::Rng;
use rand_pcg::Pcg32;
use std::alloc::AllocError;
use std::test::Fail;

/// How many orders are tried.
const ORDERS: u64 = 2000;

/// How many calls an order has at most.
const CALLS: u64 = 30;

/// A number below the bound, which isn't 0.
fn below(random: &mut Pcg32, bound: u32) -> u32 {
    random.next_u32() % bound.max(1)
}

/// What a call may be started for, at one of three keys.
fn begin(random: &mut Pcg32) -> Begin {
    let key = below(random, 3);
    let value = below(random, 100);
    match below(random, 12) {
        0 => Begin::Get(key),
        1 => Begin::Insert(key, value),
        2 => Begin::OrInsert(key, value),
        3 => Begin::Invalidate(key),
        4 => Begin::Remove(key),
        5 => Begin::Evict(key, u64::from(below(random, 12))),
        6 | 7 => Begin::GetWith(key),
        8 | 9 => Begin::Optional(key),
        _ => Begin::Try(key),
    }
}

/// How an initializer may end.
fn end(random: &mut Pcg32) -> End {
    match below(random, 4) {
        0 => End::Nothing,
        1 => End::Error(below(random, 100)),
        _ => End::Value(below(random, 100)),
    }
}

/// What is done next, once so many calls were started.
fn act(random: &mut Pcg32, started: u64) -> Act {
    let call = u64::from(below(random, 31));
    match below(random, 9) {
        0 | 1 | 2 if started < CALLS => Act::Start(begin(random)),
        8 if started < CALLS => Act::Whole(begin(random)),
        3 => Act::Tell(call % started.max(1) + 1, end(random)),
        _ => Act::Poll(call % started.max(1) + 1),
    }
}

/// Carries a random order out on a cache and on the model. Answers the first act after which they
/// differ, if there is one.
fn first_difference(
    polled: &mut Polled,
    random: &mut Pcg32,
    bounded: bool,
) -> Result<Option<Act>, AllocError>
    requires { IsUsable nat_eq polled.old AnySmall }
    ensures { IsUsable nat_eq polled.new AnySmall }
{
    let mut model = Model::new(bounded);
    for _ in 0..90u32 {
        let next = act(random, model.last());
        let came = carry_out(polled, next)?;
        if came != model.carry_out(next) {
            return Ok(Some(next));
        }
    }
    Ok(None)
}

#[test]
fn random_orders_come_to_what_the_model_says(rt: HostRuntime) -> Result<(), Fail> {
    for order in 0..ORDERS {
        let mut random = Pcg32::new(order, 54);
        let bounded = order % 2 == 1;
        let capacity = if bounded { Some(8) } else { None };
        let mut polled = cache(rt.alloc(), capacity)?;
        let differs = first_difference(&mut polled, &mut random, bounded);
        drop(polled);
        assert_eq!(rt; differs?, None, "in order {order}");
    }
    Ok(())
}
