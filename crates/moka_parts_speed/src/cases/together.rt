//! Many threads, each with a seat, on both tables.
ghost use Rattle.std.specs.Prelude.{ℕ};

use super::rows::{Bases, Call, Row, listed, right};
use moka_parts::SharedTable;
use std::alloc::Global;
use std::sync::Wait;
use std::thread;
use std::thread::Threads;

const THREADS: usize = 64;

const KEYS: u64 = 512;

/// What all threads do at once, each with a seat of its own.
struct Round {
    /// The calls that a thread makes 512 times.
    rows: [Row; 3],
    /// How far their base moves from one thread to the next.
    by_thread: u64,
    /// How far it moves from one of the times to the next.
    by_time: u64,
    /// How many calls of all answer what their rows say.
    right: u64,
    /// How many pairs the table has then.
    pairs: u64,
    /// How many keys have themselves as their values then.
    found: u64,
}

/// How many calls all threads make.
const CALLS: u64 = 3 * KEYS * THREADS as u64;

const ROUNDS: [Round; 3] = [OWN_KEYS, SAME_KEYS, ONE_KEY];

/// Each thread puts, finds and takes out keys of its own.
const OWN_KEYS: Round = Round {
    rows: [
        (0, Call::Put(0), None),
        (0, Call::Look, Some(0)),
        (0, Call::TakeOut(0), Some(0)),
    ],
    by_thread: KEYS,
    by_time: 1,
    right: CALLS,
    pairs: 0,
    found: 0,
};

/// All put the same keys where these are absent: each is put by one of the threads, for which alone
/// the first row is right, and stays as it is then.
const SAME_KEYS: Round = Round {
    rows: [
        (0, Call::PutIfAbsent(0), None),
        (0, Call::Look, Some(0)),
        (0, Call::PutIfAbsent(1), Some(0)),
    ],
    by_thread: 0,
    by_time: 1,
    right: CALLS - KEYS * (THREADS as u64 - 1),
    pairs: KEYS,
    found: KEYS,
};

/// All put 1 at one key, at which 0 stands. Each put finds 1 there, but for the first: each of the
/// values that were put is the former one of one other put, but for the last, so no value is lost.
const ONE_KEY: Round = Round {
    rows: [(0, Call::Put(1), Some(1)); 3],
    by_thread: 0,
    by_time: 0,
    right: CALLS - 1,
    pairs: KEYS,
    found: KEYS - 1,
};

/// Whether all threads do what each round says, one round after the other.
pub(crate) fn all_together<
    Q: Drop + Send,
    T: SharedTable<u64, u64, Seat = Q> + Sync,
    R: Threads + Wait + Sync,
>(rt: &R, alloc: Global, table: &T) -> bool
    requires { (k v : ℕ) → T.holds k v }
{
    for round in &ROUNDS {
        if !is_as_said(rt, alloc, table, round) {
            return false;
        }
    }
    true
}

/// Whether as many calls of all threads are right as the round says. Each thread hands its seat back,
/// and one seat meets all of them: then the table is checked by that one.
fn is_as_said<Q: Drop + Send, T: SharedTable<u64, u64, Seat = Q> + Sync, R: Threads + Wait + Sync>(
    rt: &R,
    alloc: Global,
    table: &T,
    round: &Round,
) -> bool
    requires { (k v : ℕ) → T.holds k v }
{
    let run = &|thread| done(rt, table, round, thread as u64);
    let Ok(mut ends) = thread::map_indices(rt, alloc, THREADS, run) else {
        return false;
    };
    let mut seat = table.seat();
    let mut count = 0u64;
    for end in &mut ends {
        count = count.wrapping_add(end.right);
        table.meet(&mut seat, &mut end.seat);
    }
    count == round.right && leaves(rt, alloc, table, &mut seat, round)
}

/// What a thread hands back: how many of its calls answer what they should, and its seat.
#[derive(Drop)]
struct End<Q> {
    right: u64,
    seat: Q,
}

/// What one of the threads does.
fn done<Q: Drop, T: SharedTable<u64, u64, Seat = Q>, R: Wait>(
    rt: &R,
    table: &T,
    round: &Round,
    thread: u64,
) -> End<Q>
    requires { (k v : ℕ) → T.holds k v }
{
    let mut seat = table.seat();
    let bases = Bases {
        first: thread.wrapping_mul(round.by_thread),
        by: round.by_time,
        times: KEYS,
    };
    let right = right(rt, table, &mut seat, &round.rows, &bases);
    End { right, seat }
}

/// A key is found, with itself as its value.
const FOUND: [Row; 1] = [(0, Call::Look, Some(0))];

/// The keys that all share.
const EACH_KEY: Bases = Bases {
    first: 0,
    by: 1,
    times: KEYS,
};

/// Whether the seat finds and lists what the round leaves.
fn leaves<Q: Drop, T: SharedTable<u64, u64, Seat = Q>, R: Wait>(
    rt: &R,
    alloc: Global,
    table: &T,
    seat: &mut Q,
    round: &Round,
) -> bool
    requires { (k v : ℕ) → T.holds k v }
{
    let found = right(rt, table, seat, &FOUND, &EACH_KEY);
    let listed = listed(rt, alloc, table, seat, round.pairs);
    found == round.found && listed == round.pairs && table.len(rt) == round.pairs
}
