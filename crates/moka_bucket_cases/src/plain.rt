//! Operations of `PlainTable`, which succeed with ample memory.

use moka_table::{PlainTable, Stored, Table, TableAnswer, TableOp, TableTurn};
use std::alloc::{AllocError, Global};
use std::test::Fail;

// What is done: a look, an insert with a stamp, one if the key is absent, or a removal, of the record
// with a stamp or of any.
#[derive(Clone, Copy)]
enum Act {
    Get(u32),
    Put(u32, u64),
    PutIfAbsent(u32, u64),
    Remove(u32, Option<u64>),
}

fn operation(act: Act) -> TableOp<u32, u32> {
    match act {
        Act::Get(key) => TableOp::Get { key },
        Act::Put(key, stamp) => {
            let stored = stored(key, stamp);
            TableOp::InsertOrModify { key, stored }
        }
        Act::PutIfAbsent(key, stamp) => {
            let stored = stored(key, stamp);
            TableOp::InsertIfAbsent { key, stored }
        }
        Act::Remove(key, stamp) => TableOp::RemoveIf { key, stamp },
    }
}

fn stored(value: u32, stamp: u64) -> Stored<u32> {
    Stored {
        value,
        stamp,
        modified: 5,
    }
}

// The stamp that was decided on.
fn stamp_in(turn: &TableTurn<u32, u32>) -> Option<u64> {
    match turn {
        TableTurn::Decided(TableAnswer::Some { stored, .. }) => Some(stored.stamp),
        TableTurn::Decided(TableAnswer::None) => None,
        TableTurn::Decided(TableAnswer::Keys(_)) => None,
        TableTurn::Going => None,
    }
}

// Makes one step of what is done; tells whether it is undecided, and the stamp that it found.
fn run(table: &mut PlainTable<u32, u32>, act: Act) -> Result<(bool, Option<u64>), AllocError> {
    let mut call = table.begin(operation(act));
    let turn = table.step(&mut call)?;
    let found = (turn.is_going(), stamp_in(&turn));
    drop(turn);
    Ok(found)
}

// Operations of each kind, one after the other on an empty table: the stamp that each finds, and how
// many keys there are then.
const ACTS: [(Act, Option<u64>, usize); 13] = [
    (Act::Get(3), None, 0),
    (Act::Put(3, 1), None, 1),
    (Act::Put(3, 2), Some(1), 1),
    (Act::Put(4, 3), None, 2),
    (Act::Get(3), Some(2), 2),
    (Act::PutIfAbsent(3, 4), Some(2), 2),
    (Act::PutIfAbsent(5, 5), None, 3),
    (Act::Remove(3, Some(4)), None, 3),
    (Act::Remove(3, Some(2)), Some(2), 2),
    (Act::Remove(3, None), None, 2),
    (Act::Remove(4, None), Some(3), 1),
    (Act::Get(4), None, 1),
    (Act::PutIfAbsent(4, 6), None, 2),
];

// Runs them. Gives the first that isn't decided at once, or finds something else.
fn first_wrong(table: &mut PlainTable<u32, u32>) -> Result<Option<usize>, AllocError> {
    for place in 0..ACTS.len() {
        let (act, stamp, len) = ACTS[place];
        let (going, found) = run(table, act)?;
        if going || found != stamp || table.len() != len {
            return Ok(Some(place));
        }
    }
    Ok(None)
}

#[test]
fn each_operation_succeeds_with_ample_memory(rt: HostRuntime) -> Result<(), Fail> {
    let mut table: PlainTable<u32, u32> = PlainTable::new(rt.alloc());
    let wrong = first_wrong(&mut table);
    drop(table);
    assert_eq!(rt; wrong?, None);
    Ok(())
}

// Stores two keys, and tells whether two pairs are listed then, each with its stamp.
fn lists_both(alloc: Global, table: &mut PlainTable<u32, u32>) -> Result<bool, AllocError> {
    let _ = run(table, Act::Put(3, 1))?;
    let _ = run(table, Act::Put(4, 2))?;
    let pairs = table.pairs(alloc)?.into_vec();
    let right = pairs.len() == 2 && pairs.iter().all(|pair| is_stored(pair));
    drop(pairs);
    Ok(right)
}

fn is_stored(pair: &(u32, Stored<u32>)) -> bool {
    pair.0 == if pair.1.stamp == 1 { 3 } else { 4 }
}

#[test]
fn the_pairs_of_two_keys_are_listed(rt: HostRuntime) -> Result<(), Fail> {
    let mut table: PlainTable<u32, u32> = PlainTable::new(rt.alloc());
    let listed = lists_both(rt.alloc(), &mut table);
    drop(table);
    assert!(rt; listed?);
    Ok(())
}
