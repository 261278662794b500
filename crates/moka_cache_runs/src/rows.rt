//! Worked cases as rows: what is done with a cache, and what it tells.

use crate::asks::{Asks, Told};
use crate::caches::{Heard, HearsAny, Numbers};
use crate::calls::{Call, Caller, Group, Kind};
use crate::replies::Reply;
use crate::tasks::{Alone, First, Once, Unpolled};
use moka_cache::Cache;
use std::alloc::AllocGlobal;
use std::io;
use std::random::RandomSource;
use std::sync::Wait;
use std::sync::atomic::AtomicBool;

/// What is done with a cache, at moment 0 where it has none.
#[derive(Clone, Copy)]
pub enum Event {
    /// A call is run to its end.
    Run(Call),
    /// A call is run to its end at this moment.
    RunAt(u64, Call),
    /// It is polled once, and dropped where that is pending.
    Once(Call),
    /// It is dropped as a future before it was polled.
    Unpolled(Call),
    /// It is cancelled before it was polled.
    Cancelled(Call),
    /// Two calls are run to their ends, in one task that polls them in turn.
    Both(Call, Call),
    /// The first of the two is dropped after so many polls.
    DropFirst(u64, Call, Call),
    /// The initializer of the first gives its output once the second was polled.
    LetFirst(Call, Call),
    /// It is asked whether the key is there.
    Has(u32),
    /// It is asked whether the key is there at this moment.
    HasAt(u64, u32),
    /// All is invalidated, at this moment.
    InvalidateAll(u64),
    /// It is asked how many entries there are.
    Count,
}

/// An event, and what is told of its call and of the one beside it.
#[derive(Clone, Copy)]
pub struct Row(pub Event, pub Told, pub Told);

/// A row of which another thing is told, by its place, with that.
#[derive(Clone, Copy, PartialEq, Eq, Debug)]
pub struct Wrong(pub usize, pub Told, pub Told);

/// Plays the rows on a new cache of this capacity, and gives the first of which another thing is
/// told.
pub fn wrong_row<R: Wait + RandomSource + AllocGlobal>(
    rt: &R,
    capacity: u64,
    rows: &[Row],
) -> io::Result<Option<Wrong>> {
    let cache: Numbers = Cache::new(rt.alloc(), capacity)?;
    let wrong = wrong_row_on(rt, &cache, rows);
    drop(cache);
    wrong
}

/// Plays the rows on a cache that is there, and gives the first of which another thing is told.
pub fn wrong_row_on<R: Wait + RandomSource + AllocGlobal, L: HearsAny>(
    rt: &R,
    cache: &Heard<L>,
    rows: &[Row],
) -> io::Result<Option<Wrong>> {
    for (place, row) in rows.iter().enumerate() {
        let (first, second) = told(rt, cache, &row.0)?;
        if first != row.1 || second != row.2 {
            return Ok(Some(Wrong(place, first, second)));
        }
    }
    Ok(None)
}

// What is told of the event.
fn told<R: Wait + RandomSource + AllocGlobal, L: HearsAny>(
    rt: &R,
    cache: &Heard<L>,
    event: &Event,
) -> io::Result<(Told, Told)> {
    let free = AtomicBool::new(false);
    let (first, second) = (Asks::new(), Asks::new());
    let caller = Caller {
        rt,
        cache,
        asks: &first,
    };
    let (one, other) = match event {
        Event::Run(call) => caller.make(call, Alone(0))?,
        Event::RunAt(moment, call) => caller.make(call, Alone(*moment))?,
        Event::Once(call) => caller.make(call, Once)?,
        Event::Unpolled(call) => caller.make(call, Unpolled::Future)?,
        Event::Cancelled(call) => caller.make(call, Unpolled::State)?,
        Event::Both(call, other) => run_beside(
            &caller,
            &Beside::of(call, other, &second, u64::MAX, &free),
        )?,
        Event::DropFirst(polls, call, other) => run_beside(
            &caller,
            &Beside::of(call, other, &second, *polls, &free),
        )?,
        Event::LetFirst(call, other) => {
            run_beside(
                &caller,
                &Beside::of(call, other, &second, u64::MAX, first.is_let()),
            )?
        }
        Event::Has(key) => (has(&caller, key, 0)?, Reply::Dropped),
        Event::HasAt(moment, key) => (has(&caller, key, *moment)?, Reply::Dropped),
        Event::InvalidateAll(moment) => (invalidate_all(&caller, *moment), Reply::Dropped),
        Event::Count => (count(&caller), Reply::Dropped),
    };
    Ok((first.told(one), second.told(other)))
}

// How a call is run beside another.
#[derive(Drop)]
struct Beside<'a> {
    call: &'a Call,
    other: &'a Call,
    asks: &'a Asks,
    polls: u64,
    flag: &'a AtomicBool,
}

impl<'a> Beside<'a> {
    fn of(
        call: &'a Call,
        other: &'a Call,
        asks: &'a Asks,
        polls: u64,
        flag: &'a AtomicBool,
    ) -> Beside<'a> {
        Beside {
            call,
            other,
            asks,
            polls,
            flag,
        }
    }
}

// Runs the call beside the other. Fewer pairs of kinds are made than there are, since each is
// compiled: of any further one it is told that both were dropped.
fn run_beside<R: Wait + RandomSource + AllocGlobal, L: HearsAny>(
    caller: &Caller<'_, R, L>,
    pair: &Beside<'_>,
) -> io::Result<(Reply, Reply)> {
    match (pair.call.kind(), pair.other.kind()) {
        (Kind::Load(one), Kind::Load(other)) => make_both(caller, pair, one, other),
        (Kind::OfEntry(one), Kind::OfEntry(other)) => make_both(caller, pair, one, other),
        (Kind::Compute(one), Kind::Compute(other)) => make_both(caller, pair, one, other),
        (Kind::Compute(one), Kind::OfKey(other)) => make_both(caller, pair, one, other),
        _ => Ok((Reply::Dropped, Reply::Dropped)),
    }
}

// Runs two calls of these kinds beside one another.
fn make_both<R, L, F, G>(
    caller: &Caller<'_, R, L>,
    pair: &Beside<'_>,
    one: F,
    kind: G,
) -> io::Result<(Reply, Reply)>
where
    R: Wait + RandomSource + AllocGlobal,
    L: HearsAny,
    F: Group,
    G: Group,
{
    let task = First {
        cache: caller.cache,
        asks: pair.asks,
        other: pair.other,
        kind,
        polls: pair.polls,
        flag: pair.flag,
    };
    one.make(caller, pair.call, task)
}

// Whether the key is there at this moment.
fn has<R: Wait, L: HearsAny>(
    caller: &Caller<'_, R, L>,
    key: &u32,
    moment: u64,
) -> io::Result<Reply> {
    let there = caller.cache.contains_key(caller.rt, key, moment)?;
    Ok(Reply::Is(there))
}

// Invalidates all at this moment.
fn invalidate_all<R: Wait, L: HearsAny>(caller: &Caller<'_, R, L>, moment: u64) -> Reply {
    caller.cache.invalidate_all(caller.rt, moment);
    Reply::Done
}

// How many entries there are.
fn count<R: Wait, L: HearsAny>(caller: &Caller<'_, R, L>) -> Reply {
    let cache = caller.cache;
    Reply::Counts(cache.entry_count(caller.rt), cache.weighted_size(caller.rt))
}
