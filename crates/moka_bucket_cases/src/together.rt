//! Operations of all kinds that run at once, beside std's map.

ghost use Rattle.std.specs.Prelude.{◌≡◌, ◌<◌, ◌≤◌, IfOk, OnOk, length};
ghost use Rattle.std.specs.List.{All};

use crate::hashers::BuildZero;
use crate::keys::Zero;
use crate::pace::most_steps;
use moka_buckets::BucketTable;
use moka_hist::{Stored, TableAnswer, TableOp, TableTurn};
use moka_table::Table;
use std::alloc::{AllocError, Global};
use std::collections::HashMap;
use std::hash::{BuildHasherDefault, FoldHasher};
use std::test::Fail;

/// The value and the stamp of each key.
pub(crate) type Map = HashMap<u64, (u64, u64)>;

// An operation, and what it has answered.
type Done = (TableOp<u64, u64>, TableAnswer<u64, u64>);

// An operation under way, and the number that it was made from.
#[derive(Drop)]
struct Running<C> {
    call: C,
    seed: u64,
}

// Makes so many turns, each of one operation at random: one step mostly, and in one turn of 32 as many
// as it needs to decide, if it may make so many alone. One that has decided is followed by another.
// Gives the first turn after which answer or count isn't the map's, or one has not decided.
fn run_at_random<C: Drop, T: Table<u64, u64, Call = C> + Drop>(
    table: &mut T,
    calls: &mut Vec<Running<C>>,
    map: &mut Map,
    keys: u64,
    turns: u32,
) -> Result<Option<u32>, AllocError>
    requires { All (λ one. T.fits table.old one.call) calls.old.items }
{
    let mut seed = 1;
    let mut peak = map.len();
    for turn in 0..turns {
        if calls.is_empty() {
            return Ok(None);
        }
        seed = after(seed);
        let place = (seed >> 40) as usize % calls.len();
        let alone = (seed >> 52) % 32 == 0;
        let most = if alone { most_steps(128, peak) } else { 1 };
        let done = run_on(table, calls, place, seed, keys, most)?;
        if alone && done.is_none() || !are_alike(map, done)? || table.len() != map.len() {
            return Ok(Some(turn));
        }
        peak = peak.max(map.len());
    }
    Ok(None)
}

// So many operations, of which none has made a step.
fn begin_all<C: Drop, T: Table<u64, u64, Call = C> + Drop>(
    alloc: Global,
    table: &T,
    count: u64,
    keys: u64,
) -> Result<Vec<Running<C>>, AllocError>
    ensures { IfOk result (λ calls. All (λ one. T.fits table.now one.call) calls.items) }
{
    let mut calls = Vec::new(alloc);
    for seed in 0..count {
        calls.push(begin(table, after(seed), keys))?;
    }
    Ok(calls)
}

// Makes at most so many steps of the operation in this place, until it has decided.
fn run_on<C: Drop, T: Table<u64, u64, Call = C> + Drop>(
    table: &mut T,
    calls: &mut Vec<Running<C>>,
    place: usize,
    next: u64,
    keys: u64,
    most: u64,
) -> Result<Option<Done>, AllocError>
    requires within { place < length calls.old.items }
    requires fit { All (λ one. T.fits table.old one.call) calls.old.items }
    ensures fit { OnOk result (All (λ one. T.fits table.new one.call) calls.new.items) }
{
    for _ in 0..most {
        let done = go_at(table, calls, place, next, keys)?;
        if done.is_some() {
            return Ok(done);
        }
    }
    Ok(None)
}

// Makes one step of the operation in this place.
fn go_at<C: Drop, T: Table<u64, u64, Call = C> + Drop>(
    table: &mut T,
    calls: &mut Vec<Running<C>>,
    place: usize,
    next: u64,
    keys: u64,
) -> Result<Option<Done>, AllocError>
    requires within { place < length calls.old.items }
    requires fit { All (λ one. T.fits table.old one.call) calls.old.items }
    ensures fit { OnOk result (All (λ one. T.fits table.new one.call) calls.new.items) }
    ensures long { length calls.new.items ≡ length calls.old.items }
{
    go(table, &mut calls[place], next, keys)
}

// Makes ten steps of two operations in the order of the bits and then some in turn, until four
// operations have decided. Tells whether they have, with each answer and each count the map's.
fn run_in_order<C: Drop, T: Table<u64, u64, Call = C> + Drop>(
    table: &mut T,
    map: &mut Map,
    seeds: (u64, u64),
    order: u32,
) -> Result<bool, AllocError> {
    let mut first = begin(table, seeds.0, 2);
    let mut second = begin(table, seeds.1, 2);
    let mut decided: u32 = 0;
    for turn in 0..1_000u32 {
        let bit = if turn < 10 {
            (order >> turn) & 1
        } else {
            turn & 1
        };
        let next = if bit == 0 { seeds.1 } else { seeds.0 };
        let done = go_two(table, &mut first, &mut second, bit == 0, next, 2)?;
        decided = decided.wrapping_add(u32::from(done.is_some()));
        if !are_alike(map, done)? || table.len() != map.len() {
            return Ok(false);
        }
        if decided == 4 {
            return Ok(true);
        }
    }
    Ok(false)
}

fn begin<C: Drop, T: Table<u64, u64, Call = C> + Drop>(
    table: &T,
    seed: u64,
    keys: u64,
) -> Running<C>
    ensures { T.fits table.now result.call }
{
    Running {
        call: table.begin(operation(seed, keys)),
        seed,
    }
}

// Makes one step of the operation, or none without memory: that one is made again in its turn. Once
// the operation has decided another one takes its place.
fn go<C: Drop, T: Table<u64, u64, Call = C> + Drop>(
    table: &mut T,
    one: &mut Running<C>,
    next: u64,
    keys: u64,
) -> Result<Option<Done>, AllocError>
    requires fits { T.fits table.old one.old.call }
    ensures fits { OnOk result (T.fits table.new one.new.call) }
    ensures others { (other : C) → T.fits table.old other → T.fits table.new other }
{
    let Ok(turn) = table.step(&mut one.call) else {
        return Ok(None);
    };
    match turn {
        TableTurn::Going => Ok(None),
        TableTurn::Decided(answer) => {
            let seed = one.seed;
            *one = begin(table, next, keys);
            Ok(Some((operation(seed, keys), answer)))
        }
    }
}

// Makes one step of one of the two.
fn go_two<C: Drop, T: Table<u64, u64, Call = C> + Drop>(
    table: &mut T,
    first: &mut Running<C>,
    second: &mut Running<C>,
    of_first: bool,
    next: u64,
    keys: u64,
) -> Result<Option<Done>, AllocError>
    requires first { T.fits table.old first.old.call }
    requires second { T.fits table.old second.old.call }
    ensures first { OnOk result (T.fits table.new first.new.call) }
    ensures second { OnOk result (T.fits table.new second.new.call) }
    ensures others { (other : C) → T.fits table.old other → T.fits table.new other }
{
    if of_first {
        go(table, first, next, keys)
    } else {
        go(table, second, next, keys)
    }
}

// Tells whether what is done, if anything is, was answered as by the map, which is changed with it.
fn are_alike(map: &mut Map, done: Option<Done>) -> Result<bool, AllocError> {
    match done {
        None => Ok(true),
        Some((operation, answer)) => answers(map, &operation, &answer),
    }
}

// Makes the operation on the map. Tells whether the answer is the map's.
pub(crate) fn answers(
    map: &mut Map,
    operation: &TableOp<u64, u64>,
    answer: &TableAnswer<u64, u64>,
) -> Result<bool, AllocError> {
    match operation {
        TableOp::Get { key } => Ok(is_pair(answer, *key, map.get(key).copied())),
        TableOp::InsertOrModify { key, stored } => {
            let right = is_pair(answer, *key, map.get(key).copied());
            let _ = map.insert(*key, (stored.value, stored.stamp))?;
            Ok(right)
        }
        TableOp::InsertIfAbsent { key, stored } => {
            let there = map.get(key).copied();
            if there.is_none() {
                let _ = map.insert(*key, (stored.value, stored.stamp))?;
            }
            Ok(is_pair(answer, *key, there))
        }
        TableOp::RemoveIf { key, stamp } => {
            let out = taken(map.get(key).copied(), *stamp);
            if out.is_some() {
                let _ = map.remove(key);
            }
            Ok(is_pair(answer, *key, out))
        }
        TableOp::Keys { .. } => Ok(false),
    }
}

// The value and the stamp, where that is the one asked for.
fn taken(there: Option<(u64, u64)>, stamp: Option<u64>) -> Option<(u64, u64)> {
    match (there, stamp) {
        (Some(pair), Some(stamp)) => { if pair.1 == stamp { Some(pair) } else { None } }
        (there, _) => there,
    }
}

fn is_pair(answer: &TableAnswer<u64, u64>, key: u64, pair: Option<(u64, u64)>) -> bool {
    match answer {
        TableAnswer::None => pair.is_none(),
        TableAnswer::Some { key: of, stored } => {
            *of == key && pair == Some((stored.value, stored.stamp))
        }
        TableAnswer::Keys(_) => false,
    }
}

// A pseudo-random number, by a linear congruence.
fn after(seed: u64) -> u64 {
    seed.wrapping_mul(6364136223846793005)
        .wrapping_add(1442695040888963407)
}

// An operation of any kind, by the highest three bits, under one of so many keys; stamps are 0 to 2.
fn operation(seed: u64, keys: u64) -> TableOp<u64, u64> {
    let key = if keys == 0 { 0 } else { (seed >> 33) % keys };
    let stored = Stored {
        value: seed,
        stamp: (seed >> 12) % 3,
        modified: 2,
    };
    match (seed >> 61) % 8 {
        0 => TableOp::Get { key },
        1 => TableOp::InsertIfAbsent { key, stored },
        2 => TableOp::RemoveIf { key, stamp: None },
        3 => TableOp::RemoveIf {
            key,
            stamp: Some((seed >> 20) % 3),
        },
        _ => TableOp::InsertOrModify { key, stored },
    }
}

// Runs so many operations at random on a new table. Gives the first turn that isn't right, and
// whether there are as many pairs as in the map then.
fn run_many<C: Drop, T: Table<u64, u64, Call = C> + Drop>(
    alloc: Global,
    table: &mut T,
    count: u64,
    keys: u64,
    turns: u32,
) -> Result<(Option<u32>, bool), AllocError> {
    let mut calls = begin_all(alloc, table, count, keys)?;
    let mut map = HashMap::new(alloc);
    let turn = run_at_random(table, &mut calls, &mut map, keys, turns)?;
    Ok((turn, table.pairs(alloc)?.len() == map.len()))
}

// Runs three operations at random on a new table, hashed as std does. Gives the first turn that
// isn't right, and whether there are as many pairs as in the map then.
fn run_hashed(
    alloc: Global,
    keys: u64,
    segments: usize,
    capacity: usize,
) -> Result<(Option<u32>, bool), AllocError>
    requires some { 0 < segments }
    requires few { segments ≤ 65536 }
{
    let mut table: BucketTable<u64, u64, BuildHasherDefault<FoldHasher>> =
        BucketTable::with_segments(alloc, segments, capacity, BuildHasherDefault::new())?;
    let ended = run_many(alloc, &mut table, 3, keys, 20_000);
    drop(table);
    ended
}

#[test]
fn operations_at_random_answer_as_the_map_of_std(rt: HostRuntime) -> Result<(), Fail> {
    let cases = [(1u64, 1, 0), (3, 4, 2), (40, 1, 8), (40, 2, 8), (400, 3, 0)];
    for (keys, segments, capacity) in cases {
        let (wrong, as_many) = run_hashed(rt.alloc(), keys, segments, capacity)?;
        assert!(rt;
            wrong.is_none() && as_many,
            "{keys} keys, {segments} segments, a capacity of {capacity}"
        );
    }
    Ok(())
}

// Runs ten operations at random on a new table, whose keys have one hash. Gives the first turn that
// isn't right, and whether there are as many pairs as in the map then.
fn run_colliding(
    alloc: Global,
    keys: u64,
    segments: usize,
    capacity: usize,
) -> Result<(Option<u32>, bool), AllocError>
    requires some { 0 < segments }
    requires few { segments ≤ 65536 }
{
    let mut table: Zero = BucketTable::with_segments(alloc, segments, capacity, BuildZero {})?;
    let ended = run_many(alloc, &mut table, 10, keys, 4_000);
    drop(table);
    ended
}

// Keys of one hash, all in the first segment, whose first array has 1 word to 16.
#[test]
fn ten_operations_on_colliding_keys_answer_as_the_map_of_std(rt: HostRuntime) -> Result<(), Fail> {
    for (segments, capacity) in [(4usize, 1usize), (1, 1), (1, 2), (1, 4), (1, 8)] {
        for keys in [1u64, 3, 40] {
            let (wrong, as_many) = run_colliding(rt.alloc(), keys, segments, capacity)?;
            assert!(rt;
                wrong.is_none() && as_many,
                "{keys} keys, {segments} segments, a capacity of {capacity}"
            );
        }
    }
    Ok(())
}

// Whether two operations on a new table answer as the map, with their steps in this order.
fn is_right(
    alloc: Global,
    capacity: usize,
    seeds: (u64, u64),
    order: u32,
) -> Result<bool, AllocError> {
    let mut table: Zero = BucketTable::with_segments(alloc, 1, capacity, BuildZero {})?;
    let mut map = HashMap::new(alloc);
    let right = run_in_order(&mut table, &mut map, seeds, order);
    drop(table);
    right
}

// The first of so many orders in which two operations of these kinds don't answer as the map.
fn first_wrong(
    alloc: Global,
    capacity: usize,
    kinds: u64,
    orders: u32,
) -> Result<Option<u32>, AllocError> {
    let seeds = (((kinds % 5) << 61) | 7, ((kinds / 5) << 61) | (1 << 33) | 9);
    for order in 0..orders {
        if !is_right(alloc, capacity, seeds, order)? {
            return Ok(Some(order));
        }
    }
    Ok(None)
}

// No first array, which is 128 words long once there is one, and first arrays of two and of four
// words; keys of one hash.
#[test]
fn two_operations_in_each_order_answer_as_the_map_of_std(rt: HostRuntime) -> Result<(), Fail> {
    for (capacity, orders) in [(0usize, 16u32), (1, 1024), (2, 64)] {
        for kinds in 0..25u64 {
            let wrong = first_wrong(rt.alloc(), capacity, kinds, orders)?;
            assert!(rt; wrong.is_none(), "kinds {kinds}, a capacity of {capacity}");
        }
    }
    Ok(())
}
