//! Random orders of writes, moments and the steps of walks, beside a plain model.
ghost use Rattle.std.specs.Prelude.{nat_eq, IfOk};
ghost use Rattle.moka_machine.specs.Machine.{IsValid};
ghost use Rattle.moka_machine.specs.NumberTest.{number_tests};

use crate::fresh::reply_to;
use crate::walk_model::{Act, Begin, KEYS, Model, Seen, Times};
use moka_hist::{Answer, Cause, Event, Refusal, Reply, Rules, Start};
use moka_run::{Machine, NumberTests};
use rand_core::Rng;
use rand_pcg::Pcg32;
use std::alloc::{AllocError, Global};
use std::test::Fail;
use std::time::Duration;

/// How many orders are tried.
const ORDERS: u64 = 400;

/// How many acts an order has, before its walks are polled to their ends.
const ACTS: u32 = 100;

/// How many writes the cache's log has room for.
const LOG: usize = 4;

/// The machine of these orders.
type Walked = Machine<u32, u32, u32, NumberTests>;

/// A number below the bound, which isn't 0.
fn below(random: &mut Pcg32, bound: u32) -> u32 {
    random.next_u32() % bound.max(1)
}

/// What a call may be started for that is polled whole.
fn begin(random: &mut Pcg32) -> Begin {
    let key = below(random, KEYS);
    match below(random, 32) {
        0..=4 => Begin::Get(key),
        5..=7 => Begin::Invalidate(key),
        8..=10 => Begin::Remove(key),
        11..=13 => Begin::Evict(key, u64::from(below(random, 100))),
        14 => Begin::InvalidateAll,
        _ => Begin::Insert(key, below(random, 100)),
    }
}

/// What is done next.
fn act(random: &mut Pcg32, model: &Model) -> Act {
    let place = below(random, 4) as usize;
    let walk = model.walk_at(place);
    match below(random, 16) {
        0 | 1 => Act::At(
            model
                .clock()
                .saturating_add(u64::from(below(random, 3)) + 1),
        ),
        2 | 3 if model.has_room() => Act::Walk,
        4 => Act::Drop(walk),
        5 => Act::Poll(walk),
        6..=10 => Act::Step(walk),
        _ => Act::Whole(begin(random)),
    }
}

fn start_of(begin: Begin) -> Start<u32, u32> {
    match begin {
        Begin::Get(key) => Start::Get { key },
        Begin::Insert(key, value) => Start::Insert { key, value },
        Begin::Invalidate(key) => Start::Invalidate { key },
        Begin::Remove(key) => Start::Remove { key },
        Begin::Evict(key, stamp) => Start::Evict {
            key,
            stamp,
            cause: Cause::Size,
        },
        Begin::InvalidateAll => Start::InvalidateAll,
    }
}

/// The event of the act; of a call that is polled whole, its start.
fn event_of(act: Act) -> Event<u32, u32, u32> {
    match act {
        Act::At(moment) => Event::At { moment },
        Act::Whole(begin) => Event::Start {
            start: start_of(begin),
        },
        Act::Walk => Event::Start { start: Start::Iter },
        Act::Step(call) => Event::Step { call },
        Act::Poll(call) => Event::Poll { call },
        Act::Drop(call) => Event::Drop { call },
    }
}

/// Does it, and answers the reply; of a call that is polled whole, that to its poll.
fn carry_out(
    alloc: Global,
    machine: &mut Walked,
    act: Act,
) -> Result<Reply<u32, u32, u32>, AllocError>
    requires { IsValid nat_eq number_tests machine.old }
    ensures { IsValid nat_eq number_tests machine.new }
{
    let event = event_of(act);
    match reply_to(alloc, machine, &event).ok_or(AllocError)? {
        Reply::Call(call) if matches!(act, Act::Whole(_)) => {
            reply_to(alloc, machine, &Event::Poll { call }).ok_or(AllocError)
        }
        reply => Ok(reply),
    }
}

/// Does it, and answers what is seen of the reply.
fn seen_of(alloc: Global, machine: &mut Walked, act: Act) -> Result<Seen, AllocError>
    requires { IsValid nat_eq number_tests machine.old }
    ensures { IsValid nat_eq number_tests machine.new }
{
    let reply = carry_out(alloc, machine, act)?;
    let seen = match &reply {
        Reply::At => Seen::At,
        Reply::Call(call) => Seen::Call(*call),
        Reply::Going => Seen::Going,
        Reply::Item(key, value) => Seen::Item(*key, *value),
        Reply::Answer(Answer::Done) => Seen::Done,
        Reply::Answer(Answer::Found(found)) => Seen::Found(*found),
        Reply::Answer(Answer::Evicted) => Seen::Evicted,
        Reply::Answer(Answer::Kept) => Seen::Kept,
        Reply::Answer(Answer::End) => Seen::End,
        Reply::Dropped => Seen::Dropped,
        Reply::Refused(Refusal::UnknownCall) => Seen::UnknownCall,
        Reply::Refused(Refusal::NotParked) => Seen::NotParked,
        _ => Seen::Other,
    };
    drop(reply);
    Ok(seen)
}

/// Does it on the machine and on the model. Answers whether what is seen is right.
fn agrees(
    alloc: Global,
    machine: &mut Walked,
    model: &mut Model,
    act: Act,
) -> Result<bool, AllocError>
    requires { IsValid nat_eq number_tests machine.old }
    ensures { IsValid nat_eq number_tests machine.new }
{
    let seen = seen_of(alloc, machine, act)?;
    Ok(model.takes(act, seen))
}

/// Carries a random order out. Answers the first act whose reply is wrong, if there is one.
fn first_wrong(
    alloc: Global,
    machine: &mut Walked,
    model: &mut Model,
    random: &mut Pcg32,
) -> Result<Option<Act>, AllocError>
    requires { IsValid nat_eq number_tests machine.old }
    ensures { IsValid nat_eq number_tests machine.new }
{
    for _ in 0..ACTS {
        let next = act(random, model);
        if !agrees(alloc, machine, model, next)? {
            return Ok(Some(next));
        }
    }
    Ok(None)
}

/// Polls the walks to their ends: each gives at most one record a key.
fn first_wrong_to_the_end(
    alloc: Global,
    machine: &mut Walked,
    model: &mut Model,
) -> Result<Option<Act>, AllocError>
    requires { IsValid nat_eq number_tests machine.old }
    ensures { IsValid nat_eq number_tests machine.new }
{
    for turn in 0..40usize {
        let next = Act::Poll(model.walk_at(turn));
        if !agrees(alloc, machine, model, next)? {
            return Ok(Some(next));
        }
    }
    Ok(None)
}

/// Whether the machine stores what the model does, and no walk is left.
fn ends_alike(alloc: Global, machine: &Walked, model: &Model) -> Result<bool, AllocError> {
    let entries = machine.entries(alloc)?.into_vec();
    Ok(model.has_stored(&entries) && !model.walks())
}

/// The times of an order, of which there are four kinds.
fn times_of(order: u64) -> Times {
    match order % 4 {
        0 => Times {
            live: None,
            idle: None,
            is_bounded: false,
        },
        1 => Times {
            live: Some(12),
            idle: None,
            is_bounded: true,
        },
        2 => Times {
            live: None,
            idle: Some(5),
            is_bounded: false,
        },
        _ => Times {
            live: Some(20),
            idle: Some(8),
            is_bounded: true,
        },
    }
}

/// A fresh machine of these times.
fn machine_of(alloc: Global, times: Times) -> Result<Walked, AllocError>
    ensures { IfOk result (λ machine. IsValid nat_eq number_tests machine) }
{
    let rules = Rules {
        max_capacity: times.is_bounded.then_some(8),
        time_to_live: times.live.map(|nanos| Duration::from_nanos(nanos)),
        time_to_idle: times.idle.map(|nanos| Duration::from_nanos(nanos)),
        listener: false,
        closures: false,
    };
    Machine::build(alloc, rules, LOG, 0, NumberTests).map_err(|_| AllocError)
}

/// Carries an order out, and then its walks to their ends. Answers the first act whose reply is
/// wrong, if there is one, and whether all was well in the end.
fn went(alloc: Global, machine: &mut Walked, order: u64) -> Result<(Option<Act>, bool), AllocError>
    requires { IsValid nat_eq number_tests machine.old }
{
    let mut model = Model::new(times_of(order));
    let mut random = Pcg32::new(order, 47);
    let mut wrong = first_wrong(alloc, machine, &mut model, &mut random)?;
    if wrong.is_none() {
        wrong = first_wrong_to_the_end(alloc, machine, &mut model)?;
    }
    Ok((wrong, ends_alike(alloc, machine, &model)?))
}

#[test]
fn random_walks_give_what_the_model_says(rt: HostRuntime) -> Result<(), Fail> {
    for order in 0..ORDERS {
        let mut machine = machine_of(rt.alloc(), times_of(order))?;
        let went = went(rt.alloc(), &mut machine, order);
        drop(machine);
        assert_eq!(rt; went?, (None, true), "in order {order}");
    }
    Ok(())
}
