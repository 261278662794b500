//! How many steps operations make that run alone, and how many words there are.

ghost use Rattle.std.specs.Prelude.{◌<◌, ◌≤◌};

use crate::hashers::{BuildLowest, BuildZero};
use crate::keys::Zero;
use moka_buckets::BucketTable;
use moka_hist::{Stored, TableAnswer, TableOp, TableTurn};
use moka_table::Table;
use std::alloc::{AllocError, Global};
use std::test::Fail;

fn insert(key: u64, value: u64) -> TableOp<u64, u64> {
    TableOp::InsertOrModify {
        key,
        stored: Stored {
            value,
            stamp: 1,
            modified: 2,
        },
    }
}

fn remove(key: u64) -> TableOp<u64, u64> {
    TableOp::RemoveIf { key, stamp: None }
}

fn value_in(answer: &TableAnswer<u64, u64>) -> Option<u64> {
    match answer {
        TableAnswer::None => None,
        TableAnswer::Some { stored, .. } => Some(stored.value),
        TableAnswer::Keys(_) => None,
    }
}

// Runs the operation to its end: how many steps it made, and the value that was there. One that
// doesn't end is refused as want of memory.
fn run<C: Drop, T: Table<u64, u64, Call = C> + Drop>(
    table: &mut T,
    operation: TableOp<u64, u64>,
) -> Result<(u32, Option<u64>), AllocError> {
    let mut call = table.begin(operation);
    for steps in 1..100_000u32 {
        match table.step(&mut call)? {
            TableTurn::Going => {}
            TableTurn::Decided(answer) => return Ok((steps, value_in(&answer))),
        }
    }
    Err(AllocError)
}

/// Keys whose hash is their lowest byte.
type Lowest = BucketTable<u64, u64, BuildLowest>;

fn zero(alloc: Global) -> Result<Zero, AllocError> {
    BucketTable::with_segments(alloc, 1, 0, BuildZero {})
}

fn lowest(alloc: Global) -> Result<Lowest, AllocError> {
    BucketTable::with_segments(alloc, 1, 0, BuildLowest {})
}

// What is done to key 7.
#[derive(Clone, Copy)]
enum Act {
    Look,
    Put(u64),
    Remove,
}

fn operation(act: Act) -> TableOp<u64, u64> {
    match act {
        Act::Look => TableOp::Get { key: 7 },
        Act::Put(value) => insert(7, value),
        Act::Remove => remove(7),
    }
}

// Runs what is done to key 7: how many steps each made, and the value that was there.
fn run_act(table: &mut Lowest, act: Act) -> Result<(u32, Option<u64>), AllocError> {
    run(table, operation(act))
}

// What is done to key 7 one after the other: how many steps each makes, and the value that was there.
const ACTS: [(Act, u32, Option<u64>); 7] = [
    (Act::Look, 1, None),
    (Act::Put(70), 135, None),
    (Act::Look, 2, Some(70)),
    (Act::Put(71), 3, Some(70)),
    (Act::Remove, 3, Some(71)),
    (Act::Look, 2, None),
    (Act::Put(72), 3, None),
];

// The first of these that makes other steps or finds something else.
fn first_wrong(table: &mut Lowest) -> Result<Option<usize>, AllocError> {
    for place in 0..ACTS.len() {
        let (act, steps, there) = ACTS[place];
        let (made, found) = run_act(table, act)?;
        if made != steps || found != there {
            return Ok(Some(place));
        }
    }
    Ok(None)
}

#[test]
fn steps_of_operations_on_an_empty_table(rt: HostRuntime) -> Result<(), Fail> {
    let mut table = lowest(rt.alloc())?;
    let before = table.words();
    let wrong = first_wrong(&mut table);
    let (words, len, segments) = (table.words(), table.len(), table.segments());
    drop(table);
    assert_eq!(rt; wrong?, None);
    assert!(rt; before == 0 && words == 128 && len == 1 && segments == 1);
    Ok(())
}

// Inserts the keys below this one.
fn fill<C: Drop, T: Table<u64, u64, Call = C> + Drop>(
    table: &mut T,
    end: u64,
) -> Result<(), AllocError> {
    for key in 0..end {
        let _ = run(table, insert(key, key))?;
    }
    Ok(())
}

// Removes these keys; tells whether each was there.
fn clear<C: Drop, T: Table<u64, u64, Call = C> + Drop>(
    table: &mut T,
    start: u64,
    end: u64,
) -> Result<bool, AllocError> {
    for key in start..end {
        if run(table, remove(key))?.1 != Some(key) {
            return Ok(false);
        }
    }
    Ok(true)
}

// By how many steps the 91st key grows the array of 128 words.
fn grow<C: Drop, T: Table<u64, u64, Call = C> + Drop>(
    table: &mut T,
) -> Result<(u32, Option<u64>), AllocError> {
    fill(table, 90)?;
    run(table, insert(90, 90))
}

#[test]
fn the_ninety_first_key_grows_the_array(rt: HostRuntime) -> Result<(), Fail> {
    let mut one = zero(rt.alloc())?;
    let grown = grow(&mut one);
    let words = one.words();
    drop(one);
    assert!(rt; matches!(grown, Ok((609, None))));
    assert!(rt; words == 256);
    Ok(())
}

#[test]
fn the_ninety_first_key_apart_grows_the_array(rt: HostRuntime) -> Result<(), Fail> {
    let mut apart = lowest(rt.alloc())?;
    let grown = grow(&mut apart);
    let (words, len) = (apart.words(), apart.len());
    drop(apart);
    assert!(rt; matches!(grown, Ok((519, None))));
    assert!(rt; words == 256 && len == 91);
    Ok(())
}

// Removes 14 of 20 keys; tells whether the first 13 were there, the last was removed by so many
// steps, and six keys are left.
fn removes_fourteen(table: &mut Zero, steps: u32) -> Result<bool, AllocError> {
    fill(table, 20)?;
    let cleared = clear(table, 0, 13)?;
    let (made, there) = run(table, remove(13))?;
    Ok(cleared && made == steps && there == Some(13) && table.len() == 6)
}

// Of 20 keys with one hash, 14 removals: that many tombstones call for a new array.
#[test]
fn the_fourteenth_removal_grows_the_array(rt: HostRuntime) -> Result<(), Fail> {
    let mut table = zero(rt.alloc())?;
    let removed = removes_fourteen(&mut table, 391);
    drop(table);
    assert!(rt; removed?);
    Ok(())
}

// Whether a new table, asked for so many segments, has so many of them, and so many words.
fn has_words(
    alloc: Global,
    segments: usize,
    capacity: usize,
    count: usize,
    words: usize,
) -> Result<bool, AllocError>
    requires some { 0 < segments }
    requires few { segments ≤ 65536 }
{
    let table: Zero = BucketTable::with_segments(alloc, segments, capacity, BuildZero {})?;
    let is_so = table.segments() == count && table.words() == words;
    drop(table);
    Ok(is_so)
}

#[test]
fn first_arrays_are_as_long_as_the_capacity_asks(rt: HostRuntime) -> Result<(), Fail> {
    let cases = [
        (1, 0, 1, 0),
        (1, 1, 1, 2),
        (1, 100, 1, 256),
        (3, 1, 4, 4),
        (4, 100, 4, 256),
        (65_536, 0, 65_536, 0),
    ];
    for (segments, capacity, count, words) in cases {
        let is_so = has_words(rt.alloc(), segments, capacity, count, words)?;
        assert!(rt; is_so, "{segments} segments, a capacity of {capacity}");
    }
    assert!(rt; has_words(rt.alloc(), 1, usize::MAX, 1, 0).is_err());
    Ok(())
}

// Whether a table with 90 keys has 256 words once it is compact, in place of 128, and its last key
// there.
fn compacts_full(table: &mut Zero) -> Result<bool, AllocError> {
    fill(table, 90)?;
    let words = table.words();
    table.compact()?;
    let last = run(table, TableOp::Get { key: 89 })?.1;
    Ok(words == 128 && table.words() == 256 && last == Some(89))
}

// Whether that table has 128 words once it is compact without its first key, and 89 keys.
fn compacts_fewer(table: &mut Zero) -> Result<bool, AllocError> {
    let _ = run(table, remove(0))?;
    table.compact()?;
    Ok(table.words() == 128 && table.len() == 89)
}

// Whether the other keys were there, and there is no word once it is compact without them.
fn compacts_none(table: &mut Zero) -> Result<bool, AllocError> {
    let cleared = clear(table, 1, 90)?;
    table.compact()?;
    Ok(cleared && table.words() == 0)
}

#[test]
fn compacting_leaves_as_few_words_as_the_keys_allow(rt: HostRuntime) -> Result<(), Fail> {
    let mut table = zero(rt.alloc())?;
    let full = compacts_full(&mut table);
    let fewer = compacts_fewer(&mut table);
    let none = compacts_none(&mut table);
    drop(table);
    assert!(rt; full?);
    assert!(rt; fewer?);
    assert!(rt; none?);
    Ok(())
}
