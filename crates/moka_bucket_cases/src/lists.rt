//! Lists of the keys of all parts, by the trait, while operations run between their steps.

ghost use Rattle.std.specs.Prelude.{◌<◌, ◌≤◌};

use moka_buckets::BucketTable;
use moka_hist::{KeyList, Stored, TableAnswer, TableOp, TableTurn};
use moka_table::Table;
use std::alloc::{AllocError, Global};
use std::collections::HashMap;
use std::hash::{BuildHasherDefault, FoldHasher};
use std::test::Fail;

type Numbers = BucketTable<u64, u64, BuildHasherDefault<FoldHasher>>;

// The keys that stay are those below the first number. Between steps of a list one of the others is
// removed, from that number on, or one is inserted, from a million on; each of both below the ends.
#[derive(Clone, Copy)]
struct Changes {
    stay: u64,
    removed: u64,
    removed_end: u64,
    inserted: u64,
    inserted_end: u64,
}

const MILLION: u64 = 1_000_000;

fn insert(key: u64) -> TableOp<u64, u64> {
    let stored = Stored {
        value: key,
        stamp: 1,
        modified: 2,
    };
    TableOp::InsertOrModify { key, stored }
}

// The next change, if any is left.
fn next_change(changes: &mut Changes) -> Option<TableOp<u64, u64>> {
    if changes.removed < changes.removed_end {
        let key = changes.removed;
        changes.removed = key.wrapping_add(1);
        return Some(TableOp::RemoveIf { key, stamp: None });
    }
    if changes.inserted < changes.inserted_end {
        let key = changes.inserted;
        changes.inserted = key.wrapping_add(1);
        return Some(insert(key));
    }
    None
}

// Makes the steps of the operation that are left, beside a call. Tells whether it ended.
fn finish<C: Drop, T: Table<u64, u64, Call = C> + Drop>(
    table: &mut T,
    beside: &C,
    other: &mut C,
) -> Result<bool, AllocError>
    requires beside { T.fits table.old beside.now }
    requires other { T.fits table.old other.old }
    ensures { T.fits table.new beside.now }
{
    for _ in 0..1_000_000u32 {
        match table.step(other)? {
            TableTurn::Going => {}
            TableTurn::Decided(_) => return Ok(true),
        }
    }
    Ok(false)
}

// Runs the operation to its end, beside a call.
fn run<C: Drop, T: Table<u64, u64, Call = C> + Drop>(
    table: &mut T,
    beside: &C,
    operation: TableOp<u64, u64>,
) -> Result<bool, AllocError>
    requires { T.fits table.old beside.now }
    ensures { T.fits table.new beside.now }
{
    let mut other = table.begin(operation);
    let ended = finish(table, beside, &mut other);
    drop(other);
    ended
}

// Makes the next change, if any is left.
fn change<C: Drop, T: Table<u64, u64, Call = C> + Drop>(
    table: &mut T,
    beside: &C,
    changes: &mut Changes,
) -> Result<bool, AllocError>
    requires { T.fits table.old beside.now }
    ensures { T.fits table.new beside.now }
{
    match next_change(changes) {
        None => Ok(true),
        Some(operation) => run(table, beside, operation),
    }
}

// Makes the steps of the list, with a change before each. None where it doesn't end with keys.
fn list_on<C: Drop, T: Table<u64, u64, Call = C> + Drop>(
    table: &mut T,
    call: &mut C,
    changes: &mut Changes,
) -> Result<Option<KeyList<u64>>, AllocError>
    requires { T.fits table.old call.old }
{
    for _ in 0..1_000_000u32 {
        if !change(table, call, changes)? {
            return Ok(None);
        }
        match table.step(call)? {
            TableTurn::Going => {}
            TableTurn::Decided(TableAnswer::Keys(keys)) => return Ok(Some(keys)),
            TableTurn::Decided(_) => return Ok(None),
        }
    }
    Ok(None)
}

fn list_part<C: Drop, T: Table<u64, u64, Call = C> + Drop>(
    table: &mut T,
    part: usize,
    changes: &mut Changes,
) -> Result<Option<KeyList<u64>>, AllocError> {
    let mut call = table.begin(TableOp::Keys { part });
    let listed = list_on(table, &mut call, changes);
    drop(call);
    listed
}

type Seen = HashMap<u64, u64>;

// Notes the keys; tells whether none of them was noted before.
fn note(seen: &mut Seen, keys: &KeyList<u64>) -> Result<bool, AllocError> {
    for key in keys.iter() {
        if seen.insert(*key, 1)?.is_some() {
            return Ok(false);
        }
    }
    Ok(true)
}

// Lists all parts, one after the other; tells whether no key came twice.
fn list_all(
    table: &mut Numbers,
    changes: &mut Changes,
    seen: &mut Seen,
) -> Result<bool, AllocError> {
    for part in 0..table.parts() {
        let Some(keys) = list_part(table, part, changes)? else {
            return Ok(false);
        };
        let apart = note(seen, &keys);
        drop(keys);
        if !apart? {
            return Ok(false);
        }
    }
    Ok(true)
}

// Whether each key that stayed was listed, and none that never was there.
fn is_right(seen: &Seen, changes: &Changes) -> bool {
    for key in 0..changes.stay {
        if !seen.contains_key(&key) {
            return false;
        }
    }
    seen.keys().all(|key| *key < changes.removed_end || MILLION <= *key && *key < changes.inserted)
}

fn fill(table: &mut Numbers, keys: u64) -> Result<bool, AllocError> {
    for key in 0..keys {
        let mut call = table.begin(insert(key));
        let ended = run_alone(table, &mut call);
        drop(call);
        if !ended? {
            return Ok(false);
        }
    }
    Ok(true)
}

fn run_alone<C: Drop, T: Table<u64, u64, Call = C> + Drop>(
    table: &mut T,
    call: &mut C,
) -> Result<bool, AllocError>
    requires { T.fits table.old call.old }
{
    for _ in 0..1_000_000u32 {
        match table.step(call)? {
            TableTurn::Going => {}
            TableTurn::Decided(_) => return Ok(true),
        }
    }
    Ok(false)
}

// So many keys stay in a table of so many segments, and so many are removed and inserted while it is
// listed. Tells whether the lists are right.
fn lists_right(
    alloc: Global,
    segments: usize,
    stay: u64,
    removed: u64,
    inserted: u64,
) -> Result<bool, AllocError>
    requires some { 0 < segments }
    requires few { segments ≤ 65536 }
{
    let keys = stay.wrapping_add(removed);
    let mut changes = Changes {
        stay,
        removed: stay,
        removed_end: keys,
        inserted: MILLION,
        inserted_end: MILLION.wrapping_add(inserted),
    };
    let mut seen = HashMap::new(alloc);
    let mut table: Numbers = BucketTable::with_segments(
        alloc,
        segments,
        0,
        BuildHasherDefault::new(),
    )?;
    let listed = fill(&mut table, keys)? && list_all(&mut table, &mut changes, &mut seen)?;
    drop(table);
    let right = listed && is_right(&seen, &changes);
    drop(seen);
    Ok(right)
}

#[test]
fn each_key_that_stays_is_listed_once_while_others_come_and_go(
    rt: HostRuntime,
) -> Result<(), Fail> {
    for segments in [1usize, 4, 64, 128] {
        let right = lists_right(rt.alloc(), segments, 100, 60, 300)?;
        assert!(rt; right, "{segments} segments");
    }
    Ok(())
}

#[test]
fn ten_thousand_keys_are_listed_while_a_thousand_are_removed(rt: HostRuntime) -> Result<(), Fail> {
    for segments in [1usize, 64] {
        let right = lists_right(rt.alloc(), segments, 9_000, 1_000, 0)?;
        assert!(rt; right, "{segments} segments");
    }
    Ok(())
}

// By how many steps the first part of a table with so many keys is listed.
fn steps_of_list(alloc: Global, keys: u64) -> Result<u32, AllocError> {
    let mut table: Numbers = BucketTable::with_segments(alloc, 1, 0, BuildHasherDefault::new())?;
    let filled = fill(&mut table, keys)?;
    let mut call = table.begin(TableOp::Keys { part: 0 });
    let steps = count_steps(&mut table, &mut call);
    drop(call);
    drop(table);
    if filled { steps } else { Err(AllocError) }
}

fn count_steps<C: Drop, T: Table<u64, u64, Call = C> + Drop>(
    table: &mut T,
    call: &mut C,
) -> Result<u32, AllocError>
    requires { T.fits table.old call.old }
{
    for steps in 1..100_000u32 {
        match table.step(call)? {
            TableTurn::Going => {}
            TableTurn::Decided(_) => return Ok(steps),
        }
    }
    Err(AllocError)
}

#[test]
fn a_part_is_listed_in_a_step_for_each_word_and_one(rt: HostRuntime) -> Result<(), Fail> {
    for (keys, steps) in [(0u64, 1u32), (1, 129), (90, 129)] {
        let made = steps_of_list(rt.alloc(), keys)?;
        assert_eq!(rt; made, steps, "{keys} keys");
    }
    Ok(())
}
