//! Threads that put pairs at the same time, and threads that grow a segment. A pass that lost a bucket or a
//! ticket to another thread is made again.

use crate::calls::{Caller, Grown};
use crate::seats::{Fold, Table, of_capacity};
use moka_shared::{TryInsert, TryLink, TrySwing};
use std::alloc::Global;
use std::sync::Wait;
use std::test::*;
use std::thread;
use std::thread::Threads;

// Puts the pair, however often the pass has to be made again. Tells whether this call put it.
fn puts<R: Wait>(rt: &R, caller: &mut Caller<'_, Fold>, key: u64) -> bool {
    for _ in rt.forever() {
        match caller.put(key, key) {
            TryInsert::Inserted => return true,
            TryInsert::Present { .. } => return false,
            TryInsert::Again { .. } => {}
            TryInsert::Memory { .. } => {}
        }
    }
    false
}

// Puts so many keys from this one on, and tells how many of them this thread put.
fn puts_from<R: Wait>(rt: &R, table: &Table, from: u64, keys: u64) -> u64 {
    let mut caller = Caller::new(table);
    let mut count = 0u64;
    for number in 0..keys {
        if puts(rt, &mut caller, from.wrapping_add(number)) {
            count = count.wrapping_add(1);
        }
    }
    count
}

// Four threads put so many keys each, from its own first one on. Tells how many pairs they put.
fn put_by_four<R: Threads + Wait + Sync>(
    rt: &R,
    table: &Table,
    firsts: [u64; 4],
    keys: u64,
) -> u64 {
    let [a, b, c, d] = firsts;
    let (left, right) = thread::join(
        rt,
        || {
            let (x, y) = thread::join(
                rt,
                || puts_from(rt, table, a, keys),
                || puts_from(rt, table, b, keys),
            );
            x.wrapping_add(y)
        },
        || {
            let (x, y) = thread::join(
                rt,
                || puts_from(rt, table, c, keys),
                || puts_from(rt, table, d, keys),
            );
            x.wrapping_add(y)
        },
    );
    left.wrapping_add(right)
}

// How many keys before the end are found.
fn found(table: &Table, end: u64) -> usize {
    Caller::new(table).get_all(0, end)
}

#[test]
fn what_four_threads_put_all_find(rt: HostRuntime) -> Result<(), Fail> {
    let table = of_capacity(rt.alloc(), 40_000)?;
    assert_eq!(rt;
        put_by_four(&rt, &table, [0, 10_000, 20_000, 30_000], 10_000),
        40_000
    );
    assert_eq!(rt; found(&table, 40_000), 40_000);
    Ok(())
}

#[test]
fn a_key_of_four_threads_is_put_once(rt: HostRuntime) -> Result<(), Fail> {
    let table = of_capacity(rt.alloc(), 1024)?;
    assert_eq!(rt; put_by_four(&rt, &table, [0, 0, 0, 0], 512), 512);
    assert_eq!(rt; found(&table, 512), 512);
    Ok(())
}

// Seals the two words of the first segment, and grows it, however often a pass has to be made again.
// Tells how many roots this thread swung.
fn grows<R: Wait>(rt: &R, alloc: Global, table: &Table) -> u64 {
    let mut caller = Caller::new(table);
    caller.seal_all(2);
    for _ in rt.forever() {
        match caller.grow(alloc, 2) {
            Grown::Swing {
                swing: TrySwing::Swung,
                ..
            } => return 1,
            Grown::Link(TryLink::There(_)) => return 0,
            _ => {}
        }
    }
    0
}

// Four threads do so. Tells how many roots they swung.
fn grown_by_four<R: Threads + Wait + Sync>(rt: &R, alloc: Global, table: &Table) -> u64 {
    let (left, right) = thread::join(
        rt,
        || {
            let (x, y) = thread::join(rt, || grows(rt, alloc, table), || grows(rt, alloc, table));
            x.wrapping_add(y)
        },
        || {
            let (x, y) = thread::join(rt, || grows(rt, alloc, table), || grows(rt, alloc, table));
            x.wrapping_add(y)
        },
    );
    left.wrapping_add(right)
}

#[test]
fn a_segment_of_four_threads_grows_once(rt: HostRuntime) -> Result<(), Fail> {
    let alloc = rt.alloc();
    let table = of_capacity(alloc, 64)?;
    assert_eq!(rt; grown_by_four(&rt, alloc, &table), 1);
    Ok(())
}
