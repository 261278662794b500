//! A table of buckets that grows to so many keys, and what is done with them then. Standard output
//! has how many operations found what they looked for, and how many words there are.

use moka_buckets::BucketTable;
use moka_hist::{Stored, TableAnswer, TableOp, TableTurn};
use moka_table::Table;
use std::alloc::AllocError;
use std::hash::{BuildHasherDefault, FoldHasher};

type Numbers = BucketTable<u64, u64, BuildHasherDefault<FoldHasher>>;

/// The segments of the table, as many as moka's has by default.
const SEGMENTS: usize = 64;

/// The number of keys where none is asked for.
const KEYS: u64 = 1000;

/// Grows a table to the number of keys that is asked for, and makes the work of this word.
pub fn measure(rt: &HostRuntime, word: &str, keys: Option<&String>) -> anyhow::Result<()> {
    let keys = keys_asked(keys);
    let mut table: Numbers = BucketTable::with_segments(
        rt.alloc(),
        SEGMENTS,
        0,
        BuildHasherDefault::new(),
    )?;
    let grown = insert_all(&mut table, keys)?;
    println!(rt; "growth {grown}")?;
    let found = work(&mut table, word, keys)?;
    println!(rt; "found {found}")?;
    println!(rt; "words {}", table.words())?;
    Ok(())
}

/// The number of this word, or 1000.
fn keys_asked(word: Option<&String>) -> u64 {
    match word {
        None => KEYS,
        Some(word) => word.as_str().parse::<u64>().unwrap_or(KEYS),
    }
}

/// Makes the work that is asked for: `get`, `find` or `churn`; any other word is none.
fn work(table: &mut Numbers, word: &str, keys: u64) -> Result<u64, AllocError> {
    match word {
        "get" => get_all(table, keys),
        "find" => Ok(find_all(table, keys)),
        "churn" => churn_all(table, keys),
        _ => Ok(0),
    }
}

/// Stores each key, and tells how many were absent.
fn insert_all<C: Drop, T: Table<u64, u64, Call = C> + Drop>(
    table: &mut T,
    keys: u64,
) -> Result<u64, AllocError> {
    let mut absent = 0u64;
    for key in 0..keys {
        if !run(table, insert(key))? {
            absent = absent.wrapping_add(1);
        }
    }
    Ok(absent)
}

/// Looks each key up, and tells how many are there.
fn get_all<C: Drop, T: Table<u64, u64, Call = C> + Drop>(
    table: &mut T,
    keys: u64,
) -> Result<u64, AllocError> {
    let mut found = 0u64;
    for key in 0..keys {
        if run(table, TableOp::Get { key })? {
            found = found.wrapping_add(1);
        }
    }
    Ok(found)
}

/// Finds each key past any operation, and tells how many are there.
fn find_all(table: &Numbers, keys: u64) -> u64 {
    let mut found = 0u64;
    for key in 0..keys {
        if table.find(&key).is_some() {
            found = found.wrapping_add(1);
        }
    }
    found
}

/// Takes each key out and stores a new one for it, and tells how many were there.
fn churn_all<C: Drop, T: Table<u64, u64, Call = C> + Drop>(
    table: &mut T,
    keys: u64,
) -> Result<u64, AllocError> {
    let mut found = 0u64;
    for key in 0..keys {
        if run(table, TableOp::RemoveIf { key, stamp: None })? {
            found = found.wrapping_add(1);
        }
        let _ = run(table, insert(key.wrapping_add(keys)))?;
    }
    Ok(found)
}

/// Runs the operation to its end, and tells whether it found its key. One that doesn't end is
/// refused as want of memory.
fn run<C: Drop, T: Table<u64, u64, Call = C> + Drop>(
    table: &mut T,
    operation: TableOp<u64, u64>,
) -> Result<bool, AllocError> {
    let mut call = table.begin(operation);
    for _ in 0..1_000_000_000u64 {
        match table.step(&mut call)? {
            TableTurn::Going => {}
            TableTurn::Decided(answer) => return Ok(is_some(&answer)),
        }
    }
    Err(AllocError)
}

fn is_some(answer: &TableAnswer<u64, u64>) -> bool {
    match answer {
        TableAnswer::None => false,
        TableAnswer::Some { .. } => true,
        TableAnswer::Keys(_) => false,
    }
}

fn insert(key: u64) -> TableOp<u64, u64> {
    TableOp::InsertOrModify {
        key,
        stored: Stored {
            value: key,
            stamp: 1,
            modified: 2,
        },
    }
}
