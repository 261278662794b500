//! What no clause says: that calls succeed with ample memory; and moka's own cases, worked.

mod mirror;
mod table;

ghost use Rattle.std.specs.Prelude.{◌<◌};

use crate::buckets::mirror::Mirror;
use crate::buckets::table::{Table, told};
use crate::rows::{Wrong, all_right};
use moka_cht::BucketArray;
use std::alloc::{AllocError, Global};
use std::test::Fail;

// The names of three keys.
const FOO: u64 = 1;

const BAR: u64 = 5;

const BAZ: u64 = 14;

// Inserts the key, and tells whether this became of that.
fn puts(
    table: &mut Table,
    key: u64,
    value: u64,
    word: &str,
    number: u64,
) -> Result<bool, AllocError> {
    let told = told(table.insert(key, value)?);
    Ok(told.0 == word && told.1 == number)
}

// Removes the key, if its value is at least this, and tells whether just this value went, and this
// one stays.
fn takes(
    table: &mut Table,
    key: u64,
    least: u64,
    gone: Option<u64>,
    stays: Option<u64>,
) -> Result<bool, AllocError> {
    let out = table.remove(key, least)?;
    Ok(out == gone && table.get(key) == stays)
}

// Whether the keys are these, in this order.
fn lists(alloc: Global, table: &Table, want: &[u64]) -> Result<bool, AllocError> {
    let keys = table.keys(alloc)?;
    let is_so = keys.as_slice() == want;
    drop(keys);
    Ok(is_so)
}

// How many keys there are.
fn count(alloc: Global, table: &Table) -> Result<usize, AllocError> {
    let keys = table.keys(alloc)?;
    let count = keys.len();
    drop(keys);
    Ok(count)
}

// The names with the values that are stored.
const NAMES: [(u64, u64); 3] = [(FOO, 5), (BAR, 10), (BAZ, 15)];

fn stores_names(alloc: Global, table: &mut Table) -> Result<bool, AllocError> {
    let room = table.capacity();
    for (key, value) in NAMES {
        if !puts(table, key, value, "inserted", 0)? || table.get(key) != Some(value) {
            return Ok(false);
        }
    }
    Ok(room == 8 && count(alloc, table)? == 3)
}

fn takes_names(alloc: Global, table: &mut Table) -> Result<bool, AllocError> {
    let present = told(table.add(FOO, 1, 0)?);
    for (key, value) in [(FOO, 6), (BAR, 10), (BAZ, 15)] {
        if !takes(table, key, 0, Some(value), None)? {
            return Ok(false);
        }
    }
    Ok(present.0 == "present" && present.1 == 5 && count(alloc, table)? == 0)
}

#[test]
fn three_names_are_stored_changed_and_removed(rt: HostRuntime) -> Result<(), Fail> {
    let mut table = Table::with_power(rt.alloc(), 4)?;
    let stored = stores_names(rt.alloc(), &mut table);
    let taken = takes_names(rt.alloc(), &mut table);
    drop(table);
    assert!(rt; stored?);
    assert!(rt; taken?);
    Ok(())
}

fn fills_one_bucket(table: &mut Table) -> Result<bool, AllocError> {
    let room = table.capacity();
    let first = puts(table, 1, 10, "inserted", 0)?;
    let second = puts(table, 2, 20, "no free", 20)?;
    let stays = takes(table, 1, 11, None, Some(10))?;
    Ok(room == 0 && first && second && stays)
}

fn empties_one_bucket(table: &mut Table) -> Result<bool, AllocError> {
    let gone = takes(table, 1, 10, Some(10), None)?;
    let other = puts(table, 2, 20, "no free", 20)?;
    let again = puts(table, 1, 30, "replaced", 0)?;
    Ok(gone && other && again && table.get(1) == Some(30))
}

#[test]
fn one_bucket_stays_its_keys(rt: HostRuntime) -> Result<(), Fail> {
    let mut table = Table::with_power(rt.alloc(), 0)?;
    let filled = fills_one_bucket(&mut table);
    let emptied = empties_one_bucket(&mut table);
    drop(table);
    assert!(rt; filled?);
    assert!(rt; emptied?);
    Ok(())
}

// Fills four buckets with keys of one hash, which go round the end.
fn fills_four_buckets(alloc: Global, table: &mut Table) -> Result<bool, AllocError> {
    for key in [3, 7, 11, 15] {
        if !puts(table, key, key, "inserted", 0)? {
            return Ok(false);
        }
    }
    let listed = lists(alloc, table, &[7, 11, 15, 3])?;
    Ok(listed && puts(table, 19, 5, "no free", 5)?)
}

fn empties_four_buckets(alloc: Global, table: &mut Table) -> Result<bool, AllocError> {
    for key in [3, 7, 11] {
        if !takes(table, key, 0, Some(key), None)? {
            return Ok(false);
        }
    }
    let last = table.get(15) == Some(15);
    let full = puts(table, 19, 5, "no free", 5)?;
    Ok(last && full && lists(alloc, table, &[15])?)
}

#[test]
fn four_buckets_stay_full_of_removed_keys(rt: HostRuntime) -> Result<(), Fail> {
    let mut table = Table::with_power(rt.alloc(), 2)?;
    let filled = fills_four_buckets(rt.alloc(), &mut table);
    let emptied = empties_four_buckets(rt.alloc(), &mut table);
    drop(table);
    assert!(rt; filled?);
    assert!(rt; emptied?);
    Ok(())
}

// Pseudo-random numbers, by a linear congruence.
fn after(seed: u64) -> u64 {
    seed.wrapping_mul(6364136223846793005)
        .wrapping_add(1442695040888963407)
}

// Makes 400 calls at random, from this seed on. Gives the seed after them, and the first call that
// isn't answered as by the map.
fn play(mirror: &mut Mirror, from: u64) -> Result<(u64, Option<u64>), AllocError> {
    let mut seed = from;
    for call in 0..400 {
        seed = after(seed);
        if !mirror.call(seed, call)? {
            return Ok((seed, Some(call)));
        }
    }
    Ok((seed, None))
}

// Plays on so many buckets, as a power of two. Gives the seed after the last call, and whether each
// was answered as by the map.
fn play_anew(alloc: Global, power: u32, from: u64) -> Result<(u64, bool), AllocError>
    requires { power < 20 }
{
    let mut mirror = Mirror::with_power(alloc, power)?;
    let played = play(&mut mirror, from);
    drop(mirror);
    let (next, wrong) = played?;
    Ok((next, wrong.is_none()))
}

// The first power of two so many buckets of which aren't right.
fn misplayed(alloc: Global) -> Wrong {
    let mut seed = 1;
    for power in 0..5 {
        let (next, right) = play_anew(alloc, power, seed)?;
        if !right {
            return Ok(Some(u64::from(power)));
        }
        seed = next;
    }
    Ok(None)
}

#[test]
fn random_calls_answer_as_the_standard_map(rt: HostRuntime) {
    all_right(&rt, misplayed(rt.alloc()));
}

// More than 2^60 buckets are want of memory, and so is a length for which there is none.
#[test]
fn too_many_buckets_are_want_of_memory(rt: HostRuntime) {
    let array: Result<BucketArray<u64, u64>, _> = BucketArray::with_length(rt.alloc(), 1 << 61);
    assert!(rt; array.is_err());
}
