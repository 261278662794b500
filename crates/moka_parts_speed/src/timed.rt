//! The time that the calls of threads take.
ghost use Rattle.std.specs.Prelude.{ℕ};

use crate::asked::Asked;
use crate::calls::{Map, of_map, of_table};
use crate::totals::total;
use crate::works::Work;
use moka_parts::SharedTable;
use std::alloc::Global;
use std::collections::HashMap;
use std::rt::Clock;
use std::sync::{Mutex, Wait};
use std::thread::Threads;
use std::time::Instant;

/// Fills the table, and times the calls of all threads. Answers whether the time could be told.
pub(crate) fn time_table<
    Q: Drop + Send,
    T: SharedTable<u64, u64, Seat = Q> + Sync,
    R: Threads + Wait + Clock + Print + Eprint + Sync,
>(rt: &R, alloc: Global, name: &str, table: &T, asked: &Asked) -> bool
    requires { (k v : ℕ) → T.holds k v }
{
    let (work, keys, calls) = (asked.work, asked.keys, asked.share());
    let _ = of_table(rt, table, Work::Put, keys, 0, keys);
    time(
        rt,
        alloc,
        name,
        asked,
        &|number| of_table(rt, table, work, keys, number as u64, calls),
    )
}

/// Times the calls of std's map. Answers whether the time could be told.
pub(crate) fn time_map<R: Threads + Wait + Clock + Print + Eprint + Sync>(
    rt: &R,
    alloc: Global,
    asked: &Asked,
) -> bool {
    let map: Map = Mutex::new(HashMap::new(alloc));
    let is_told = time_lent(rt, alloc, asked, &map);
    drop(map);
    is_told
}

/// Fills the map, and times the calls of all threads. Answers whether the time could be told.
fn time_lent<R: Threads + Wait + Clock + Print + Eprint + Sync>(
    rt: &R,
    alloc: Global,
    asked: &Asked,
    map: &Map,
) -> bool {
    let (work, keys, calls) = (asked.work, asked.keys, asked.share());
    let _ = of_map(rt, map, Work::Put, keys, 0, keys);
    time(
        rt,
        alloc,
        "map",
        asked,
        &|number| of_map(rt, map, work, keys, number as u64, calls),
    )
}

/// Runs what each of the threads does, and prints how many of its calls found a pair, and the time
/// that a call took in its thread. Answers whether that could be told.
fn time<F: Fn(usize) -> u64 + Sync, R: Threads + Clock + Print + Eprint + Sync>(
    rt: &R,
    alloc: Global,
    name: &str,
    asked: &Asked,
    run: &F,
) -> bool
    requires { (thread : ℕ) → F.pre run.now thread }
{
    let Ok(start) = Instant::now(rt) else {
        return false;
    };
    let Ok(found) = total(rt, alloc, asked.threads as usize, run) else {
        return false;
    };
    match start.elapsed(rt) {
        Ok(taken) => tell(rt, name, asked, found, taken.as_nanos()),
        Err(_) => false,
    }
}

/// Prints how many of the calls found a pair, and the time a call took in its thread. Answers whether
/// that could be printed.
fn tell<R: Print + Eprint>(rt: &R, name: &str, asked: &Asked, found: u64, nanos: u128) -> bool {
    let each = nanos / u128::from(asked.share().max(1));
    println!(rt; "{name} {found}").is_ok() && eprintln!(rt; "{name}: {each} ns a call").is_ok()
}
