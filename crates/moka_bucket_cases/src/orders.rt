//! Two operations in each order of all their steps, beside std's map.

use crate::hashers::BuildZero;
use crate::pace::{Pace, most_steps};
use crate::together::{Map, answers};
use moka_buckets::BucketTable;
use moka_hist::{Stored, TableAnswer, TableOp, TableTurn};
use moka_table::Table;
use std::alloc::{AllocError, Global};
use std::collections::HashMap;
use std::test::Fail;

// How the table begins: with a first array of one word or of two, and so many keys.
#[derive(Clone, Copy)]
struct Beginning {
    one_word: bool,
    present: u64,
}

// The first array has one word, with key 0 in it.
const ONE_KEY: Beginning = Beginning {
    one_word: true,
    present: 1,
};

// No pair has as many orders.
const MOST_ORDERS: u32 = 2_000_000;

// An operation of each kind under each of three keys; the last kind is a removal of the stamp with
// which these keys were stored at first.
fn operation(number: u64) -> TableOp<u64, u64> {
    let key = number % 3;
    let stored = Stored {
        value: number.wrapping_add(10),
        stamp: number,
        modified: 2,
    };
    match number / 3 {
        0 => TableOp::Get { key },
        1 => TableOp::InsertIfAbsent { key, stored },
        2 => TableOp::RemoveIf { key, stamp: None },
        3 => TableOp::InsertOrModify { key, stored },
        _ => TableOp::RemoveIf {
            key,
            stamp: Some(key.wrapping_add(9)),
        },
    }
}

// The steps of the two operations in this order: its bits, from the highest, tell whose each step
// is. Once one has decided the other goes on alone. Gives the last bit that was read; None where an
// answer or a count isn't the map's, where one makes too many steps in a row, or where 64 bits were
// too few.
fn play<C: Drop, T: Table<u64, u64, Call = C> + Drop>(
    table: &mut T,
    map: &mut Map,
    numbers: (u64, u64),
    order: u64,
) -> Result<Option<u64>, AllocError> {
    let mut first = table.begin(operation(numbers.0));
    let mut second = table.begin(operation(numbers.1));
    let played = play_both(table, map, numbers, order, &mut first, &mut second);
    drop(first);
    drop(second);
    played
}

// Plays the order with these two, which were begun.
fn play_both<C: Drop, T: Table<u64, u64, Call = C> + Drop>(
    table: &mut T,
    map: &mut Map,
    numbers: (u64, u64),
    order: u64,
    first: &mut C,
    second: &mut C,
) -> Result<Option<u64>, AllocError>
    requires first { T.fits table.old first.old }
    requires second { T.fits table.old second.old }
{
    let mut pace = Pace::new(map.len());
    for turn in 0..64u32 {
        let bit = (1u64 << 63) >> turn;
        if !pace.is_kept(order & bit == 0, map.len()) {
            return Ok(None);
        }
        if order & bit == 0 {
            if let TableTurn::Decided(answer) = table.step(first)? {
                let right = ends_right(table, map, second, numbers, &answer)?;
                return Ok(if right { Some(bit) } else { None });
            }
        } else {
            if let TableTurn::Decided(answer) = table.step(second)? {
                let right = ends_right(table, map, first, (numbers.1, numbers.0), &answer)?;
                return Ok(if right { Some(bit) } else { None });
            }
        }
    }
    Ok(None)
}

// Tells whether the answer of the first operation is the map's, and then the other's, which goes on
// alone.
fn ends_right<C: Drop, T: Table<u64, u64, Call = C> + Drop>(
    table: &mut T,
    map: &mut Map,
    other: &mut C,
    numbers: (u64, u64),
    answer: &TableAnswer<u64, u64>,
) -> Result<bool, AllocError>
    requires { T.fits table.old other.old }
{
    Ok(
        answers(map, &operation(numbers.0), answer)?
            && table.len() == map.len()
            && finish(table, map, other, operation(numbers.1))?,
    )
}

// Makes the steps that are left, no more than an operation may make alone. Tells whether answer and
// count are the map's.
fn finish<C: Drop, T: Table<u64, u64, Call = C> + Drop>(
    table: &mut T,
    map: &mut Map,
    call: &mut C,
    operation: TableOp<u64, u64>,
) -> Result<bool, AllocError>
    requires { T.fits table.old call.old }
{
    for _ in 0..most_steps(128, map.len()) {
        if let TableTurn::Decided(answer) = table.step(call)? {
            return Ok(answers(map, &operation, &answer)? && table.len() == map.len());
        }
    }
    Ok(false)
}

// Tells whether each of the keys is answered as by the map, and the pairs are as many.
fn ends_alike<T: Table<u64, u64> + Drop>(
    alloc: Global,
    table: &mut T,
    map: &mut Map,
) -> Result<bool, AllocError>
where
    T::Call: Drop,
{
    for key in 0..4u64 {
        let mut call = table.begin(TableOp::Get { key });
        if !finish(table, map, &mut call, TableOp::Get { key })? {
            return Ok(false);
        }
    }
    Ok(table.pairs(alloc)?.len() == map.len())
}

// Stores the key, and tells whether the answer is the map's.
fn is_stored<C: Drop, T: Table<u64, u64, Call = C> + Drop>(
    table: &mut T,
    map: &mut Map,
    key: u64,
) -> Result<bool, AllocError> {
    let mut call = table.begin(operation(9 + key % 3));
    finish(table, map, &mut call, operation(9 + key % 3))
}

// Plays the order on a new table. Gives what `play` gives, or None where the pairs at the end
// aren't the map's.
fn play_new(
    alloc: Global,
    beginning: Beginning,
    numbers: (u64, u64),
    order: u64,
) -> Result<Option<u64>, AllocError> {
    // A capacity of one makes half a word for each of four segments, which is one, or else two.
    let segments = if beginning.one_word { 4 } else { 1 };
    let mut table: BucketTable<u64, u64, BuildZero> = BucketTable::with_segments(
        alloc,
        segments,
        1,
        BuildZero {},
    )?;
    let mut map = HashMap::new(alloc);
    for key in 0..beginning.present {
        if !is_stored(&mut table, &mut map, key)? {
            return Ok(None);
        }
    }
    let last = play(&mut table, &mut map, numbers, order)?;
    let alike = ends_alike(alloc, &mut table, &mut map)?;
    Ok(if alike { last } else { None })
}

// Plays the two operations in each order. Gives how many orders there are; None where one isn't
// right, or where there are `most` or more.
fn orders(
    alloc: Global,
    beginning: Beginning,
    numbers: (u64, u64),
    most: u32,
) -> Result<Option<u32>, AllocError> {
    let mut order = 0u64;
    for count in 1..most {
        let Some(last) = play_new(alloc, beginning, numbers, order)? else {
            return Ok(None);
        };
        // The next order: the last bit read that is zero is one, and those after it are zero.
        match order.checked_add(last) {
            None => return Ok(Some(count)),
            Some(next) => order = next,
        }
    }
    Ok(None)
}

// How many orders the pairs of this operation and a later one have; None where one isn't right.
fn orders_from(alloc: Global, beginning: Beginning, first: u64) -> Result<Option<u32>, AllocError> {
    let mut total: u32 = 0;
    for second in first..12u64 {
        match orders(alloc, beginning, (first, second), 1_000)? {
            None => return Ok(None),
            Some(count) => total = total.wrapping_add(count),
        }
    }
    Ok(Some(total))
}

// How many orders all pairs of operations have; None where one isn't right.
fn all_orders(alloc: Global, beginning: Beginning) -> Result<Option<u32>, AllocError> {
    let mut total: u32 = 0;
    for first in 0..12u64 {
        match orders_from(alloc, beginning, first)? {
            None => return Ok(None),
            Some(count) => total = total.wrapping_add(count),
        }
    }
    Ok(Some(total))
}

// No array grows here.
#[test]
fn two_operations_in_each_order_to_their_ends(rt: HostRuntime) -> Result<(), Fail> {
    for (one_word, present, all) in [(true, 0u64, 906u32), (false, 0, 906), (false, 1, 2_218)] {
        let total = all_orders(rt.alloc(), Beginning { one_word, present })?;
        assert!(rt; total == Some(all), "{present} keys, one word: {one_word}");
    }
    Ok(())
}

// An array of one word with a key: each update makes it grow.
#[test]
fn a_look_beside_an_update_that_grows_the_array(rt: HostRuntime) -> Result<(), Fail> {
    let cases = [
        ("get 0 beside remove 0", (0u64, 6u64), 130_760u32),
        ("get 0 beside insert 1", (0, 10), 255_742),
    ];
    for (name, numbers, all) in cases {
        let count = orders(rt.alloc(), ONE_KEY, numbers, MOST_ORDERS)?;
        assert!(rt; count == Some(all), "{name}");
    }
    Ok(())
}

#[test]
fn an_insert_if_absent_beside_an_insert_that_grows_the_array(rt: HostRuntime) -> Result<(), Fail> {
    let count = orders(rt.alloc(), ONE_KEY, (3, 10), MOST_ORDERS)?;
    assert!(rt;
        count == Some(491_246),
        "insert 0 if absent beside insert 1"
    );
    Ok(())
}

#[test]
fn an_insert_beside_an_insert_that_grows_the_array(rt: HostRuntime) -> Result<(), Fail> {
    let count = orders(rt.alloc(), ONE_KEY, (9, 10), MOST_ORDERS)?;
    assert!(rt; count == Some(1_043_970), "insert 0 beside insert 1");
    Ok(())
}

#[test]
fn a_removal_beside_an_insert_that_grows_the_array(rt: HostRuntime) -> Result<(), Fail> {
    let count = orders(rt.alloc(), ONE_KEY, (12, 9), MOST_ORDERS)?;
    assert!(rt;
        count == Some(552_724),
        "remove 0 of its stamp beside insert 0"
    );
    Ok(())
}
