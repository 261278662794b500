//! Calls that list the keys of a segment, alone and while operations run.

ghost use Rattle.std.specs.Prelude.{◌≡◌, IfOk, OnOk, None};
ghost use Rattle.moka_calls.specs.Standing.{IsGoing};
ghost use Rattle.moka_buckets.specs.Views.{fits_in, fits_keys_in};

use crate::hashers::BuildZero;
use moka_buckets::{BucketCall, BucketTable, KeyOp, KeysCall};
use moka_hist::{Stored, TableAnswer, TableTurn};
use moka_values::Exact;
use std::alloc::{AllocError, Global};
use std::hash::{BuildHasher, Hash};
use std::test::Fail;

/// Keys of one hash, all in the first segment.
pub(crate) type Zero = BucketTable<u64, u64, BuildZero>;

/// Makes the steps of the operation that are left, beside the call. Gives its answer; None where it
/// doesn't end.
pub(crate) fn finish<K: Eq + Hash + Exact, V: Exact, S: BuildHasher + Drop>(
    table: &mut BucketTable<K, V, S>,
    call: &KeysCall,
    other: &mut BucketCall<K, V>,
) -> Result<Option<TableAnswer<K, V>>, AllocError>
    requires listing { fits_keys_in S.BuildHasher S.Hasher.Hasher K.eq K.hash_input
        table.old call.now }
    requires fits { fits_in S.BuildHasher S.Hasher.Hasher K.eq K.hash_input
        table.old other.old }
    ensures listing { fits_keys_in S.BuildHasher S.Hasher.Hasher K.eq K.hash_input
        table.new call.now }
{
    for _ in 0..10_000u32 {
        match table.step_key(other)? {
            TableTurn::Going => {}
            TableTurn::Decided(answer) => return Ok(Some(answer)),
        }
    }
    Ok(None)
}

/// Runs the operation to its end, beside the call.
pub(crate) fn run<K: Eq + Hash + Exact, V: Exact, S: BuildHasher + Drop>(
    table: &mut BucketTable<K, V, S>,
    call: &KeysCall,
    operation: KeyOp<K, V>,
) -> Result<(), AllocError>
    requires fits { fits_keys_in S.BuildHasher S.Hasher.Hasher K.eq K.hash_input
        table.old call.now }
    ensures fits { fits_keys_in S.BuildHasher S.Hasher.Hasher K.eq K.hash_input
        table.new call.now }
{
    let mut other = table.begin_key(operation);
    let answer = finish(table, call, &mut other);
    drop(other);
    match answer? {
        Some(_) => Ok(()),
        None => Err(AllocError),
    }
}

pub(crate) fn insert(key: u64) -> KeyOp<u64, u64> {
    KeyOp::InsertOrModify {
        key,
        stored: Stored {
            value: key,
            stamp: 1,
            modified: 2,
        },
    }
}

/// Makes at most so many steps of the call; tells by how many it decided.
pub(crate) fn list<K: Eq + Hash + Exact, V: Exact, S: BuildHasher + Drop>(
    table: &mut BucketTable<K, V, S>,
    call: &mut KeysCall,
    most: u32,
) -> Result<Option<u32>, AllocError>
    requires fits { fits_keys_in S.BuildHasher S.Hasher.Hasher K.eq K.hash_input
        table.old call.old }
    requires going { IsGoing call.old.table }
    ensures fits { fits_keys_in S.BuildHasher S.Hasher.Hasher K.eq K.hash_input
        table.new call.new }
    ensures going { IfOk result (λ steps. steps ≡ None → IsGoing call.new.table) }
{
    for steps in 0..most {
        if table.step_keys(call)? {
            return Ok(Some(steps.wrapping_add(1)));
        }
    }
    Ok(None)
}

// Makes steps of the call where it has not decided yet.
fn list_on<K: Eq + Hash + Exact, V: Exact, S: BuildHasher + Drop>(
    table: &mut BucketTable<K, V, S>,
    call: &mut KeysCall,
    early: Option<u32>,
) -> Result<Option<u32>, AllocError>
    requires fits { fits_keys_in S.BuildHasher S.Hasher.Hasher K.eq K.hash_input
        table.old call.old }
    requires going { early ≡ None → IsGoing call.old.table }
    ensures { fits_keys_in S.BuildHasher S.Hasher.Hasher K.eq K.hash_input table.new call.new }
{
    match early {
        Some(steps) => Ok(Some(steps)),
        None => list(table, call, 1_000),
    }
}

// What a list of keys came to: whether there were keys before its steps, by how many it decided, and
// the keys then.
type Listed<K> = (bool, Option<u32>, Option<Vec<K>>);

// Makes the steps of the call.
fn listed<K: Eq + Hash + Exact, V: Exact, S: BuildHasher + Drop>(
    table: &mut BucketTable<K, V, S>,
    call: &mut KeysCall,
) -> Result<Listed<K>, AllocError>
    requires fits { fits_keys_in S.BuildHasher S.Hasher.Hasher K.eq K.hash_input
        table.old call.old }
    requires going { IsGoing call.old.table }
{
    let early = table.keys(call)?.is_some();
    let steps = list(table, call, 1_000)?;
    Ok((early, steps, table.keys(call)?))
}

// Makes the steps of the call after those of the operation.
fn listed_after<K: Eq + Hash + Exact, V: Exact, S: BuildHasher + Drop>(
    table: &mut BucketTable<K, V, S>,
    call: &mut KeysCall,
    operation: KeyOp<K, V>,
) -> Result<Listed<K>, AllocError>
    requires fits { fits_keys_in S.BuildHasher S.Hasher.Hasher K.eq K.hash_input
        table.old call.old }
    requires going { IsGoing call.old.table }
{
    run(table, call, operation)?;
    listed(table, call)
}

// Whether there were no keys before its steps, and it decided by so many, with these.
fn came(listed: Listed<u64>, steps: u32, keys: &[u64]) -> bool {
    let (early, made, came) = listed;
    let is_so = match &came {
        Some(listed) => listed.as_slice() == keys,
        None => false,
    };
    drop(came);
    is_so && !early && made == Some(steps)
}

#[test]
fn a_segment_without_an_array_is_listed_in_one_step(rt: HostRuntime) -> Result<(), Fail> {
    let mut table: Zero = BucketTable::with_segments(rt.alloc(), 1, 0, BuildZero {})?;
    let mut call = table.begin_keys(0);
    let listed = listed(&mut table, &mut call);
    drop(call);
    assert!(rt; came(listed?, 1, &[]));
    Ok(())
}

#[test]
fn keys_are_listed_in_129_steps(rt: HostRuntime) -> Result<(), Fail> {
    let mut table: Zero = BucketTable::with_segments(rt.alloc(), 1, 0, BuildZero {})?;
    let mut call = table.begin_keys(0);
    let listed = listed_after(&mut table, &mut call, insert(7));
    drop(call);
    assert!(rt; came(listed?, 129, &[7]));
    Ok(())
}

#[test]
fn a_segment_that_is_not_there_has_no_keys(rt: HostRuntime) -> Result<(), Fail> {
    let mut table: Zero = BucketTable::with_segments(rt.alloc(), 4, 1, BuildZero {})?;
    for segment in [4usize, 5, usize::MAX] {
        let mut call = table.begin_keys(segment);
        let listed = listed_after(&mut table, &mut call, insert(7));
        drop(call);
        assert!(rt; came(listed?, 1, &[]), "segment {segment}");
    }
    Ok(())
}

// Stores these keys, each with itself, one after the other, beside the call.
fn store_all<K: Eq + Hash + Exact, S: BuildHasher + Drop>(
    table: &mut BucketTable<K, K, S>,
    call: &KeysCall,
    keys: &[K],
) -> Result<(), AllocError>
    requires fits { fits_keys_in S.BuildHasher S.Hasher.Hasher K.eq K.hash_input
        table.old call.now }
    ensures { OnOk result (fits_keys_in S.BuildHasher S.Hasher.Hasher K.eq K.hash_input
        table.new call.now) }
{
    for key in keys {
        let stored = Stored {
            value: key.clone()?,
            stamp: 1,
            modified: 2,
        };
        run(
            table,
            call,
            KeyOp::InsertOrModify {
                key: key.clone()?,
                stored,
            },
        )?;
    }
    Ok(())
}

// Makes so many steps of the call once the first keys are stored, and the steps that are left once
// the others are. Gives the keys then; None where it doesn't end.
fn listed_between<K: Eq + Hash + Exact, S: BuildHasher + Drop>(
    table: &mut BucketTable<K, K, S>,
    call: &mut KeysCall,
    steps: u32,
    first: &[K],
    others: &[K],
) -> Result<Option<Vec<K>>, AllocError>
    requires fits { fits_keys_in S.BuildHasher S.Hasher.Hasher K.eq K.hash_input
        table.old call.old }
    requires going { IsGoing call.old.table }
{
    store_all(table, call, first)?;
    let early = list(table, call, steps)?;
    store_all(table, call, others)?;
    let _ = list_on(table, call, early)?;
    table.keys(call)
}

// How often key 1 is listed by a call that made so many steps before the array grew; None where it
// doesn't end.
fn ones_listed(alloc: Global, steps: u32) -> Result<Option<usize>, AllocError> {
    let mut table: Zero = BucketTable::with_segments(alloc, 1, 1, BuildZero {})?;
    let mut call = table.begin_keys(0);
    let keys = listed_between(&mut table, &mut call, steps, &[1], &[2, 3, 4, 5]);
    drop(call);
    Ok(keys?.map(|keys| keys.iter().filter(|key| **key == 1).count()))
}

// An array of two words grows while its keys are listed: the list begins again in the new one.
#[test]
fn keys_that_stay_are_listed_while_the_array_grows(rt: HostRuntime) -> Result<(), Fail> {
    for steps in 0..8u32 {
        let ones = ones_listed(rt.alloc(), steps)?;
        assert!(rt; ones == Some(1), "after {steps} steps");
    }
    Ok(())
}
