//! A list of keys beside an operation, in each order of all their steps.

ghost use Rattle.std.specs.Prelude.{◌≡◌, IfOk};
ghost use Rattle.moka_calls.specs.Standing.{IsGoing};
ghost use Rattle.moka_buckets.specs.Views.{fits_in, fits_keys_in};

use crate::hashers::BuildZero;
use crate::keys::{Zero, finish, insert, list, run};
use moka_buckets::{BucketCall, BucketTable, KeyOp, KeysCall};
use moka_hist::{TableAnswer, TableTurn};
use moka_values::Exact;
use std::alloc::{AllocError, Global};
use std::hash::{BuildHasher, Hash};
use std::test::Fail;

// What an order gave: the last of its bits that was read, the operation's answer, and whether that
// came before the first step of the list.
#[derive(Drop)]
struct Played<K, V> {
    last: u64,
    answer: TableAnswer<K, V>,
    before: bool,
}

// The steps of the two in this order: its bits, from the highest, tell whose each step is. Once one
// has decided the other goes on alone. None where 64 bits were too few, or one doesn't end.
fn play<K: Eq + Hash + Exact, V: Exact, S: BuildHasher + Drop>(
    table: &mut BucketTable<K, V, S>,
    call: &mut KeysCall,
    other: &mut BucketCall<K, V>,
    order: u64,
) -> Result<Option<Played<K, V>>, AllocError>
    requires listing { fits_keys_in S.BuildHasher S.Hasher.Hasher K.eq K.hash_input
        table.old call.old }
    requires going { IsGoing call.old.table }
    requires fits { fits_in S.BuildHasher S.Hasher.Hasher K.eq K.hash_input
        table.old other.old }
    ensures { fits_keys_in S.BuildHasher S.Hasher.Hasher K.eq K.hash_input table.new call.new }
{
    let mut before = true;
    for turn in 0..64u32 {
        let last = (1u64 << 63) >> turn;
        if order & last == 0 {
            before = false;
            if table.step_keys(call)? {
                return match finish(table, call, other)? {
                    None => Ok(None),
                    Some(answer) => Ok(Some(Played {
                        last,
                        answer,
                        before,
                    })),
                };
            }
        } else {
            match table.step_key(other)? {
                TableTurn::Going => {}
                TableTurn::Decided(answer) => {
                    return match list(table, call, 1_000)? {
                        None => Ok(None),
                        Some(_) => Ok(Some(Played {
                            last,
                            answer,
                            before,
                        })),
                    };
                }
            }
        }
    }
    Ok(None)
}

// An operation beside which keys are listed: on a table that has key 0 it inserts key 1, or removes
// key 0.
fn operation(inserts: bool) -> KeyOp<u64, u64> {
    if inserts {
        insert(1)
    } else {
        KeyOp::RemoveIf {
            key: 0,
            stamp: None,
        }
    }
}

// Runs the first operation to its end, and then plays the order beside the second. Gives what
// `play` gives, and the keys that are listed.
fn play_after<K: Eq + Hash + Exact, V: Exact, S: BuildHasher + Drop>(
    table: &mut BucketTable<K, V, S>,
    call: &mut KeysCall,
    first: KeyOp<K, V>,
    second: KeyOp<K, V>,
    order: u64,
) -> Result<(Option<Played<K, V>>, Option<Vec<K>>), AllocError>
    requires fits { fits_keys_in S.BuildHasher S.Hasher.Hasher K.eq K.hash_input
        table.old call.old }
    requires going { IsGoing call.old.table }
{
    run(table, call, first)?;
    let mut other = table.begin_key(second);
    let played = play(table, call, &mut other, order);
    drop(other);
    Ok((played?, table.keys(call)?))
}

// Plays the order on a new table, whose first array has one word, with key 0 in it. Gives the last
// bit that was read; None where the answer or the list isn't right.
fn play_new(alloc: Global, inserts: bool, order: u64) -> Result<Option<u64>, AllocError> {
    let mut table: Zero = BucketTable::with_segments(alloc, 4, 1, BuildZero {})?;
    let mut call = table.begin_keys(0);
    let ended = play_after(&mut table, &mut call, insert(0), operation(inserts), order);
    drop(call);
    let (played, keys) = ended?;
    let Some(played) = played else {
        return Ok(None);
    };
    let Some(keys) = keys else {
        return Ok(None);
    };
    let right = is_answered(&played.answer, inserts)
        && is_listed(keys.as_slice(), inserts, played.before);
    Ok(if right { Some(played.last) } else { None })
}

// Key 1 was absent, and key 0 is taken out.
fn is_answered(answer: &TableAnswer<u64, u64>, inserts: bool) -> bool {
    match answer {
        TableAnswer::None => inserts,
        TableAnswer::Some { key, .. } => !inserts && *key == 0,
        TableAnswer::Keys(_) => false,
    }
}

// A key that is there all the while is listed once; one that is inserted or removed meanwhile once
// or not at all; no other.
fn is_listed(keys: &[u64], inserts: bool, before: bool) -> bool {
    let zeros = keys.iter().filter(|key| **key == 0).count();
    let ones = keys.iter().filter(|key| **key == 1).count();
    let right = if inserts {
        zeros == 1 && (ones == 1 || ones == 0 && !before)
    } else {
        ones == 0 && (zeros == 0 || zeros == 1 && !before)
    };
    right && keys.iter().all(|key| *key < 2)
}

// Plays each order. Gives how many there are; None where one isn't right, or where there are `most`
// or more.
fn orders(alloc: Global, inserts: bool, most: u32) -> Result<Option<u32>, AllocError> {
    let mut order = 0u64;
    for count in 1..most {
        let Some(last) = play_new(alloc, inserts, order)? else {
            return Ok(None);
        };
        // The next order: the last bit read that is zero is one, and those after it are zero.
        match order.checked_add(last) {
            None => return Ok(Some(count)),
            Some(next) => order = next,
        }
    }
    Ok(None)
}

// An array of one word with a key: each update makes it grow.
#[test]
fn a_list_of_keys_beside_a_removal_that_grows_the_array(rt: HostRuntime) -> Result<(), Fail> {
    assert!(rt; orders(rt.alloc(), false, 1_000_000)? == Some(236_262));
    Ok(())
}

#[test]
fn a_list_of_keys_beside_an_insert_that_grows_the_array(rt: HostRuntime) -> Result<(), Fail> {
    assert!(rt; orders(rt.alloc(), true, 1_000_000)? == Some(491_998));
    Ok(())
}
