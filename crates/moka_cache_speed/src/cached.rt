//! The works on a cache.

use crate::crowd::call_at_once;
use crate::heard::HearsAny;
use crate::kinds::make;
use crate::later::Later;
use crate::numbers::{NumberCall, Numbers};
use crate::rounds::Rounds;
use crate::runs::Span;
use crate::timed::{Shared, keys_below};
use crate::ways::{Kind, Way};
use crate::works::{Burst, Job, Work};
use moka_cache::{ByInit, ToLoad};
use std::alloc::{AllocGlobal, Global};
use std::io;
use std::random::RandomSource;
use std::sync::Wait;

/// One call of a round, and how it is made.
type Turn = (Kind, Way);

/// The turns with a key that is stored and taken out.
const REMOVED: [Turn; 2] = [(Kind::Insert, Way::Apart), (Kind::Remove, Way::Apart)];

/// The turns with a key that is stored and looked up.
const SEEN: [Turn; 2] = [(Kind::Insert, Way::Apart), (Kind::Get, Way::Apart)];

/// The turns with a key of which three loads become owners, the first to be dropped.
const CANCELLED: [Turn; 5] = [
    (Kind::GetWith, Way::Dropped),
    (Kind::GetWith, Way::Apart),
    (Kind::Remove, Way::Apart),
    (Kind::GetWith, Way::Apart),
    (Kind::Remove, Way::Apart),
];

impl<R: Wait + RandomSource + AllocGlobal, L: HearsAny> Shared<R> for Numbers<L> {
    fn fill(&self, rt: &R, keys: u64) -> io::Result<u64> {
        let rounds = Rounds::below(self, keys);
        make(rt, &rounds, Kind::Insert, Way::Once, Span::below(keys))
    }

    fn make(&self, rt: &R, keys: &[u64], job: Job, thread: u64, calls: u64) -> io::Result<u64> {
        let rounds = Rounds::over(self, keys, thread);
        match job.work {
            Work::Get => make(rt, &rounds, Kind::Get, Way::Once, Span::below(calls)),
            Work::Insert => make(rt, &rounds, Kind::Insert, Way::Once, Span::below(calls)),
            Work::Load => load(rt, self, calls),
            Work::Remove => in_turn(rt, &rounds, &REMOVED, calls / 2),
            Work::See => in_turn(rt, &rounds, &SEEN, calls / 2),
            Work::Cancel => in_turn(rt, &rounds, &CANCELLED, calls / 5),
            Work::Calls(kind) => make_kind(rt, &rounds, kind, job.way, calls),
            Work::Burst(_) => Ok(0),
        }
    }
}

/// Makes so many loads, each of the next key.
fn load<R: Wait + RandomSource + AllocGlobal, L: HearsAny>(
    rt: &R,
    cache: &Numbers<L>,
    calls: u64,
) -> io::Result<u64> {
    let rounds = Rounds::below(cache, u64::MAX);
    make(rt, &rounds, Kind::GetWith, Way::Once, Span::below(calls))
}

/// Makes so many rounds of the kind. Tells how many are over.
fn make_kind<R: Wait + RandomSource + AllocGlobal, L: HearsAny>(
    rt: &R,
    rounds: &Rounds<'_, L>,
    kind: Kind,
    way: Way,
    count: u64,
) -> io::Result<u64> {
    match way {
        Way::Taken => {
            let turns = [(kind, Way::Apart), (Kind::Remove, Way::Apart)];
            Ok(in_turn(rt, rounds, &turns, count)? / 2)
        }
        _ => make(rt, rounds, kind, way, Span::below(count)),
    }
}

/// Makes so many rounds: all turns with one key, then all with the next one. Tells how many turns are
/// over.
fn in_turn<R: Wait + RandomSource + AllocGlobal, L: HearsAny>(
    rt: &R,
    rounds: &Rounds<'_, L>,
    turns: &[Turn],
    count: u64,
) -> io::Result<u64> {
    let mut over = 0u64;
    for round in 0..count {
        for (kind, way) in turns {
            let made = make(rt, rounds, *kind, *way, Span::of(round))?;
            over = over.wrapping_add(made);
        }
    }
    Ok(over)
}

/// Lets many records or calls come and go, of calls few too, and then stores few keys. Each part is
/// told by a line of its own, so that the memory after each can be seen from outside.
pub(crate) fn come_and_store<R: Wait + RandomSource + AllocGlobal + Print, L: HearsAny>(
    rt: &R,
    alloc: Global,
    cache: &Numbers<L>,
    burst: Burst,
    many: u64,
    few: u64,
) -> io::Result<()> {
    match burst {
        Burst::Records => come_and_go(rt, alloc, cache, many)?,
        Burst::Owners => {
            load_at_once(rt, alloc, cache, many, many)?;
            load_at_once(rt, alloc, cache, few, few)?;
        }
        Burst::Waiters => {
            load_at_once(rt, alloc, cache, 1, many)?;
            load_at_once(rt, alloc, cache, 1, few)?;
        }
    }
    let stored = cache.fill(rt, few)?;
    println!(rt; "stored afterwards {stored}")
}

/// Stores so many keys and takes each out.
fn come_and_go<R: Wait + RandomSource + AllocGlobal + Print, L: HearsAny>(
    rt: &R,
    alloc: Global,
    cache: &Numbers<L>,
    many: u64,
) -> io::Result<()> {
    let stored = cache.fill(rt, many)?;
    println!(rt; "stored {stored}")?;
    let taken = take_below(rt, alloc, cache, many)?;
    println!(rt; "taken out {taken}")
}

/// Takes the keys below a number out. Tells how many of the calls answered.
fn take_below<R: Wait + RandomSource + AllocGlobal, L: HearsAny>(
    rt: &R,
    alloc: Global,
    cache: &Numbers<L>,
    many: u64,
) -> io::Result<u64> {
    let keys = keys_below(alloc, many)?;
    let rounds = Rounds::in_order(cache, keys.as_slice());
    make(rt, &rounds, Kind::Remove, Way::Apart, Span::below(many))
}

/// Makes so many loads over so many keys, which are all under way at once.
fn load_at_once<'a, R: Wait + RandomSource + AllocGlobal + Print, L: HearsAny>(
    rt: &R,
    alloc: Global,
    cache: &'a Numbers<L>,
    keys: u64,
    calls: u64,
) -> io::Result<()> {
    let rounds = Rounds::below(cache, keys).made(Kind::GetWith, Way::Dropped);
    call_at_once::<R, NumberCall<'a, ToLoad<'a, u64>, ByInit<Later<u64>>, L>, Rounds<'a, L>>(
        rt, alloc, &rounds, calls,
    )
}
