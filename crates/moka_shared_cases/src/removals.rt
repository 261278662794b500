//! Removals, and values that are put in place of others.

use crate::calls::Caller;
use crate::hashers::BuildLast;
use crate::rows::Deed::{Get, GetAll, Put, PutAll, Remove, Replace};
use crate::rows::Told::{Count, Inserted, Nothing, PutBack, Value};
use crate::rows::{Row, wrong_row};
use crate::seats::{Table, fold, of_capacity};
use moka_shared::{Missed, TryChange};
use std::sync::Wait;
use std::test::*;
use std::thread;
use std::thread::Threads;

/// How often a thread puts or removes a pair.
const ROUNDS: u64 = 1_000_000;

#[test]
fn a_pair_is_replaced_removed_and_put_again(rt: HostRuntime) -> Result<(), Fail> {
    let rows = [
        Row(Remove(1), Nothing),
        Row(Replace(1, 9), Nothing),
        Row(Put(1, 10), Inserted),
        Row(Replace(1, 11), Value(10)),
        Row(Get(1), Value(11)),
        Row(Remove(1), Value(11)),
        Row(Get(1), Nothing),
        Row(Remove(1), Nothing),
        Row(Put(1, 12), Inserted),
        Row(Get(1), Value(12)),
    ];
    assert_eq!(rt; wrong_row(rt.alloc(), 64, 64, fold(), &rows)?, None);
    Ok(())
}

#[test]
fn a_removal_frees_a_bucket_for_its_key_alone(rt: HostRuntime) -> Result<(), Fail> {
    let full = Missed::NoFree { length: 128 };
    let rows = [
        Row(PutAll(0, 128), Count(128)),
        Row(Remove(5), Value(5)),
        Row(Put(128, 128), PutBack(full, 128, 128)),
        Row(Put(5, 50), Inserted),
        Row(Put(129, 129), PutBack(full, 129, 129)),
        Row(GetAll(0, 5), Count(5)),
        Row(Get(5), Value(50)),
        Row(GetAll(6, 128), Count(122)),
    ];
    assert_eq!(rt; wrong_row(rt.alloc(), 1, 64, fold(), &rows)?, None);
    Ok(())
}

#[test]
fn keys_of_one_hash_are_found_past_a_removed_one(rt: HostRuntime) -> Result<(), Fail> {
    let rows = [
        Row(PutAll(0, 16), Count(16)),
        Row(Remove(3), Value(3)),
        Row(GetAll(4, 16), Count(12)),
        Row(Remove(15), Value(15)),
        Row(Replace(15, 1), Nothing),
        Row(Put(15, 2), Inserted),
        Row(Get(15), Value(2)),
    ];
    assert_eq!(rt; wrong_row(rt.alloc(), 1, 8, BuildLast {}, &rows)?, None);
    Ok(())
}

/// How many pairs a thread put or removed, and the sum of their values.
#[derive(Clone, Copy, PartialEq, Eq, Debug)]
struct Tally {
    count: u64,
    sum: u64,
}

impl Tally {
    fn one_more(self, value: u64) -> Tally {
        Tally {
            count: self.count.wrapping_add(1),
            sum: self.sum.wrapping_add(value),
        }
    }
}

const NONE: Tally = Tally { count: 0, sum: 0 };

// Puts a pair of this key in each round, where it is absent, each with another value.
fn puts_often(table: &Table, key: u64) -> Tally {
    let mut caller = Caller::new(table);
    let mut tally = NONE;
    for value in 0..ROUNDS {
        if caller.is_put(key, value) {
            tally = tally.one_more(value);
        }
    }
    tally
}

// Removes the pair of this key in each round, where there is one.
fn removes_often(table: &Table, key: u64) -> Tally {
    let mut caller = Caller::new(table);
    let mut tally = NONE;
    for _ in 0..ROUNDS {
        if let TryChange::Changed(value) = caller.remove(key) {
            tally = tally.one_more(value);
        }
    }
    tally
}

// One thread puts pairs of this key, and another removes them. Tells what each of them did.
fn puts_and_removes<R: Threads + Wait + Sync>(rt: &R, table: &Table, key: u64) -> (Tally, Tally) {
    thread::join(rt, || puts_often(table, key), || removes_often(table, key))
}

#[test]
fn each_removal_has_its_own_insert(rt: HostRuntime) -> Result<(), Fail> {
    let table = of_capacity(rt.alloc(), 64)?;
    let (put, removed) = puts_and_removes(&rt, &table, 7);
    let left = match Caller::new(&table).remove(7) {
        TryChange::Changed(value) => removed.one_more(value),
        _ => removed,
    };
    assert_eq!(rt; left, put);
    Ok(())
}
