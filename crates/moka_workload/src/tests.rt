//! Words, turns and counts that another program found.

ghost use Rattle.std.specs.Prelude.{◌≤◌};

use crate::{MOST_TURNS, Workload, all_events};
use moka_hist::{Event, Op, Start, Told};
use rand_core::SeedableRng;
use rand_core::utils::NextWord;
use rand_pcg::Lcg128Xsl64;
use std::alloc::Global;

type Happening = Event<u32, u32, u32>;

#[test]
fn the_first_words_are_those_of_the_seed(rt: HostRuntime) {
    let cases = [(7, 9_351_779_398_707_215), (1, 15_492_934_433_077_865_799)];
    for (seed, want) in cases {
        let word: u64 = Lcg128Xsl64::seed_from_u64(seed).next_word();
        assert_eq!(rt; word, want, "seed {seed}");
    }
}

// How many events and calls so many turns of the seed's workload have.
fn counted(turns: u32, seed: u64) -> (usize, u32)
    requires { turns ≤ MOST_TURNS }
{
    let mut made = Workload::new(seed);
    let (mut events, mut calls) = (0, 0);
    for _ in 0..turns {
        let turn = made.next_turn();
        events = turn.len().saturating_add(events);
        calls = turn.calls().saturating_add(calls);
    }
    (events, calls)
}

#[test]
fn workloads_have_as_many_events_and_calls(rt: HostRuntime) {
    let cases = [
        (1, 7, 11, 2),
        (1, 0, 5, 1),
        (1, u64::MAX, 3, 1),
        (99, 0, 447, 106),
        (100, 0, 460, 109),
        (2000, 5, 9404, 2206),
        (20_000, 1, 94_594, 22_216),
        (200_000, 1, 944_342, 221_981),
    ];
    for (turns, seed, events, calls) in cases {
        assert_eq!(rt; counted(turns, seed), (events, calls), "{turns} {seed}");
    }
}

fn start(start: Start<u32, u32>) -> Happening {
    Event::Start { start }
}

fn poll(call: u64) -> Happening {
    Event::Poll { call }
}

fn tell(call: u64, answer: Told<u32, u32>) -> Happening {
    Event::Tell { call, answer }
}

// Whether the events of the seed's first turn, after that of the clock, are these.
fn is_first_turn(alloc: Global, seed: u64, want: &[Happening]) -> bool {
    match all_events(alloc, 1, seed) {
        Ok(events) => match events.as_slice() {
            [Event::At { moment: 10 }, found @ ..] => found == want,
            _ => false,
        },
        Err(_) => false,
    }
}

#[test]
fn a_turn_gets(rt: HostRuntime) {
    let want = [start(Start::Get { key: 893 }), poll(1)];
    assert!(rt; is_first_turn(rt.alloc(), 2, &want));
}

#[test]
fn a_turn_inserts(rt: HostRuntime) {
    let insert = Start::Insert {
        key: 475,
        value: 674,
    };
    let want = [start(insert), poll(1), tell(1, Told::Done), poll(1)];
    assert!(rt; is_first_turn(rt.alloc(), 0, &want));
}

#[test]
fn a_turn_drops_its_insert(rt: HostRuntime) {
    let insert = Start::Insert {
        key: 501,
        value: 736,
    };
    let want = [
        start(insert),
        poll(1),
        Event::Drop { call: 1 },
        tell(1, Told::Done),
    ];
    assert!(rt; is_first_turn(rt.alloc(), 3, &want));
}

#[test]
fn a_turn_loads_by_two_calls(rt: HostRuntime) {
    let want = [
        start(Start::GetWith {
            key: 215,
            replace: None,
        }),
        start(Start::GetWith {
            key: 215,
            replace: None,
        }),
        poll(1),
        poll(2),
        Event::Drop { call: 1 },
        poll(2),
        tell(2, Told::Value(203)),
        poll(2),
        tell(2, Told::Done),
        poll(2),
    ];
    assert!(rt; is_first_turn(rt.alloc(), 7, &want));
}

#[test]
fn a_turn_removes(rt: HostRuntime) {
    let want = [
        start(Start::Remove { key: 945 }),
        poll(1),
        tell(1, Told::Done),
        poll(1),
    ];
    assert!(rt; is_first_turn(rt.alloc(), 8, &want));
}

#[test]
fn a_turn_computes(rt: HostRuntime) {
    let want = [
        start(Start::Compute { key: 799 }),
        poll(1),
        tell(1, Told::Op(Op::Put(478))),
        poll(1),
        tell(1, Told::Done),
        poll(1),
    ];
    assert!(rt; is_first_turn(rt.alloc(), 1, &want));
}

#[test]
fn maintenance_comes_after_the_hundredth_turn(rt: HostRuntime) {
    let events = all_events(rt.alloc(), 100, 0).expect(&rt, "there is memory");
    assert!(rt;
        events
            .as_slice()
            .ends_with(&[start(Start::Pending), poll(109)])
    );
}
