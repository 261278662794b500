//! Random orders of a walk's steps and of writes, on tables of 1, 4 and 64 parts.

ghost use Rattle.std.specs.Prelude.{◌<◌, ◌≤◌};
ghost use Rattle.moka_table.specs.Empty.{IsEmptyTable};
ghost use Rattle.moka_walk_cases.specs.Standing.{Stands};

use crate::accesses::Below;
use crate::changes::{change, insert, remove};
use crate::layers::{RULES, over, walk};
use crate::model::Keys;
use crate::walks::step;
use moka_buckets::BucketTable;
use moka_hist::{Answer, Turn};
use moka_init::Flow;
use moka_table::{PlainTable, Table};
use rand_core::Rng;
use rand_pcg::Pcg32;
use std::alloc::{AllocError, Global};
use std::hash::{BuildHasherDefault, FoldHasher};

/// No walk here makes as many steps, with the writes beside it.
const MOST: u32 = 10_000_000;

/// How many keys are taken out where that is all that others do.
const REMOVALS: u32 = 1000;

/// How many orders are tried of each table.
const ORDERS: u64 = 40;

/// How often writes come beside the steps: one of so many acts is a write.
#[derive(Clone, Copy)]
struct Pace {
    of: u32,
    // Whether writes are removals of the keys from 0 on, and no others.
    removes: bool,
}

// What a turn tells.
enum Told {
    Item(u32, u32),
    End,
    Other,
}

fn seen_in(turn: Turn<u32, u32, u32>) -> Told {
    match turn {
        Turn::Item(key, value) => Told::Item(key, value),
        Turn::Answer(Answer::End) => Told::End,
        other => {
            drop(other);
            Told::Other
        }
    }
}

// Stores a new value under the key. Answers whether that ended.
fn store<C: Drop, T: Table<u32, u32, Call = C> + Drop>(
    layers: &mut Below<T, C>,
    keys: &mut Keys,
    key: u32,
) -> bool
    requires { Stands T.Table layers.old }
    ensures { Stands T.Table layers.new }
{
    let value = keys.value_for(key);
    keys.stores(key);
    change(layers, insert(key, value))
}

// Takes the key out. Answers whether that ended.
fn take_out<C: Drop, T: Table<u32, u32, Call = C> + Drop>(
    layers: &mut Below<T, C>,
    keys: &mut Keys,
    key: u32,
) -> bool
    requires { Stands T.Table layers.old }
    ensures { Stands T.Table layers.new }
{
    keys.removes(key);
    change(layers, remove(key))
}

// A write at random: a key is stored, or taken out.
fn write<C: Drop, T: Table<u32, u32, Call = C> + Drop>(
    layers: &mut Below<T, C>,
    keys: &mut Keys,
    random: &mut Pcg32,
) -> bool
    requires { Stands T.Table layers.old }
    ensures { Stands T.Table layers.new }
{
    let key = random.next_u32() % keys.many().max(1);
    if random.next_u32() % 2 == 0 {
        store(layers, keys, key)
    } else {
        take_out(layers, keys, key)
    }
}

// A step of the walk: Some where it has ended, and whether it showed just what it may. Where memory
// is wanting it is made anew by the next.
fn go_on<C: Drop, T: Table<u32, u32, Call = C> + Drop>(
    flow: &mut Flow<u32, u32, u32>,
    layers: &mut Below<T, C>,
    keys: &mut Keys,
) -> Option<bool>
    requires { Stands T.Table layers.old }
    ensures { Stands T.Table layers.new }
{
    match step(flow, layers) {
        Err(_) => None,
        Ok(None) => Some(false),
        Ok(Some(turn)) => match seen_in(turn) {
            Told::Item(key, value) => {
                if keys.shows(key, value) {
                    None
                } else {
                    Some(false)
                }
            }
            Told::End => Some(keys.are_shown()),
            Told::Other => None,
        },
    }
}

// What is done between two steps of a walk, for the time of this number.
fn others_write<C: Drop, T: Table<u32, u32, Call = C> + Drop>(
    layers: &mut Below<T, C>,
    keys: &mut Keys,
    random: &mut Pcg32,
    pace: Pace,
    number: u32,
) -> bool
    requires { Stands T.Table layers.old }
    ensures { Stands T.Table layers.new }
{
    if !pace.removes {
        return write(layers, keys, random);
    }
    if number >= REMOVALS {
        return true;
    }
    take_out(layers, keys, number)
}

// The walk's steps, between writes. Answers whether it showed what it had to, and nothing that it may
// not.
fn walks_between<C: Drop, T: Table<u32, u32, Call = C> + Drop>(
    flow: &mut Flow<u32, u32, u32>,
    layers: &mut Below<T, C>,
    keys: &mut Keys,
    random: &mut Pcg32,
    pace: Pace,
) -> bool
    requires { Stands T.Table layers.old }
{
    let mut number: u32 = 0;
    for _ in 0..MOST {
        if random.next_u32() % pace.of.max(1) == 0 {
            if !others_write(layers, keys, random, pace, number) {
                return false;
            }
            number = number.saturating_add(1);
            continue;
        }
        if let Some(right) = go_on(flow, layers, keys) {
            return right;
        }
    }
    false
}

// Stores the keys below this number. Answers whether that ended.
fn fill<C: Drop, T: Table<u32, u32, Call = C> + Drop>(
    layers: &mut Below<T, C>,
    keys: &mut Keys,
    number: u32,
) -> bool
    requires { Stands T.Table layers.old }
    ensures { Stands T.Table layers.new }
{
    for key in 0..number {
        if !store(layers, keys, key) {
            return false;
        }
    }
    true
}

// A walk over the table, of whose keys some are stored before. Want of memory comes before the walk.
fn play<C: Drop, T: Table<u32, u32, Call = C> + Drop>(
    alloc: Global,
    table: T,
    many: u32,
    seed: u64,
    pace: Pace,
) -> Result<bool, AllocError>
    requires { IsEmptyTable T.Table table }
{
    let mut keys = Keys::new(alloc, many)?;
    let mut layers = over(alloc, RULES, table)?;
    let mut random = Pcg32::new(seed, 1);
    let filled = fill(&mut layers, &mut keys, many - many / 3);
    let mut flow = walk(&layers);
    keys.begin();
    let right = filled && walks_between(&mut flow, &mut layers, &mut keys, &mut random, pace);
    drop(flow);
    drop(layers);
    Ok(right)
}

// Whether so many orders go right on plain tables.
fn plain_orders(alloc: Global) -> Result<bool, AllocError> {
    let pace = Pace {
        of: 3,
        removes: false,
    };
    for seed in 0..ORDERS {
        if !play(alloc, PlainTable::new(alloc), 24, seed, pace)? {
            return Ok(false);
        }
    }
    Ok(true)
}

#[test]
fn a_plain_table_is_walked_over_beside_writes(rt: HostRuntime) {
    assert_eq!(rt; plain_orders(rt.alloc()), Ok(true));
}

// A walk over a table of so many segments.
fn play_segments(
    alloc: Global,
    segments: usize,
    many: u32,
    seed: u64,
    pace: Pace,
) -> Result<bool, AllocError>
    requires some { 0 < segments }
    requires few { segments ≤ 65536 }
{
    let hasher = BuildHasherDefault::<FoldHasher>::new();
    let table = BucketTable::with_segments(alloc, segments, 0, hasher)?;
    play(alloc, table, many, seed, pace)
}

// Whether so many orders go right on tables of so many segments.
fn orders(alloc: Global, segments: usize, many: u32) -> Result<bool, AllocError>
    requires some { 0 < segments }
    requires few { segments ≤ 65536 }
{
    let pace = Pace {
        of: 40,
        removes: false,
    };
    for seed in 0..ORDERS {
        if !play_segments(alloc, segments, many, seed, pace)? {
            return Ok(false);
        }
    }
    Ok(true)
}

#[test]
fn a_table_of_one_segment_is_walked_over_beside_writes(rt: HostRuntime) {
    assert_eq!(rt; orders(rt.alloc(), 1, 24), Ok(true));
}

#[test]
fn a_table_of_four_segments_is_walked_over_beside_writes(rt: HostRuntime) {
    assert_eq!(rt; orders(rt.alloc(), 4, 100), Ok(true));
}

#[test]
fn a_table_of_64_segments_is_walked_over_beside_writes(rt: HostRuntime) {
    assert_eq!(rt; orders(rt.alloc(), 64, 300), Ok(true));
}

#[test]
fn of_ten_thousand_keys_a_thousand_are_removed_meanwhile(rt: HostRuntime) {
    let pace = Pace {
        of: 9,
        removes: true,
    };
    assert_eq!(rt; play_segments(rt.alloc(), 64, 15_000, 1, pace), Ok(true));
}

// Plays an order whole; where memory is wanting before its walk, it is played anew.
fn plays(alloc: Global) -> bool {
    let pace = Pace {
        of: 40,
        removes: false,
    };
    for _ in 0..3 {
        if let Ok(right) = play_segments(alloc, 4, 12, 5, pace) {
            return right;
        }
    }
    false
}

#[test]
fn a_walk_goes_on_where_memory_was_wanting(rt: HostRuntime) {
    assert!(rt; plays(rt.alloc()));
}

// How many steps a walk over a table of so many segments takes that has this many keys; None where it
// doesn't end.
fn steps_of(alloc: Global, segments: usize, many: u32) -> Result<Option<u64>, AllocError>
    requires some { 0 < segments }
    requires few { segments ≤ 65536 }
{
    let hasher = BuildHasherDefault::<FoldHasher>::new();
    let table = BucketTable::with_segments(alloc, segments, 0, hasher)?;
    count(alloc, table, many)
}

// How many steps a walk over the table takes, once so many keys were stored.
fn count<C: Drop, T: Table<u32, u32, Call = C> + Drop>(
    alloc: Global,
    table: T,
    many: u32,
) -> Result<Option<u64>, AllocError>
    requires { IsEmptyTable T.Table table }
{
    let mut keys = Keys::new(alloc, many)?;
    let mut layers = over(alloc, RULES, table)?;
    let filled = fill(&mut layers, &mut keys, many);
    let mut flow = walk(&layers);
    keys.begin();
    let steps = steps_to_end(&mut flow, &mut layers, &mut keys);
    drop(flow);
    drop(layers);
    Ok(if filled { steps } else { None })
}

fn steps_to_end<C: Drop, T: Table<u32, u32, Call = C> + Drop>(
    flow: &mut Flow<u32, u32, u32>,
    layers: &mut Below<T, C>,
    keys: &mut Keys,
) -> Option<u64>
    requires { Stands T.Table layers.old }
{
    for steps in 0..MOST {
        if let Some(right) = go_on(flow, layers, keys) {
            return if right {
                Some(u64::from(steps) + 1)
            } else {
                None
            };
        }
    }
    None
}

#[test]
fn a_list_takes_a_step_of_an_absent_array_and_129_of_128_words(rt: HostRuntime) {
    // Segments, keys, and the steps of the walk: its lists; for a key a look, which loads the root and
    // a word, and a scan; and a step for the end after a last item.
    let cases = [(1, 0, 1), (4, 0, 4), (64, 0, 64), (1, 1, 129 + 2 + 1 + 1)];
    for (segments, many, steps) in cases {
        let found = steps_of(rt.alloc(), segments, many);
        assert_eq!(rt; found, Ok(Some(steps)), "{segments} segments, {many} keys");
    }
}
