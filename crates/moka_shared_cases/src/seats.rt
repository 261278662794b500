//! One seat, and two.
ghost use Rattle.std.specs.Prelude.{◌<◌};

use crate::rows::Deed::{Get, Put, Segments};
use crate::rows::Told::{Count, Inserted, Nothing, Present, Value};
use crate::rows::{Row, get_told, insert_told, wrong_row};
use moka_shared::HashMap;
use std::alloc::{AllocError, Global};
use std::hash::{BuildHasherDefault, FoldHasher};
use std::test::*;

/// What makes the hashers of most tables.
pub(crate) type Fold = BuildHasherDefault<FoldHasher>;

/// A table of numbers.
pub(crate) type Table = HashMap<u64, u64, Fold>;

/// What makes its hashers.
pub(crate) fn fold() -> Fold {
    BuildHasherDefault::new()
}

/// A table for so many pairs, of as many segments as one has where none are asked for.
pub(crate) fn of_capacity(alloc: Global, capacity: usize) -> Result<Table, AllocError>
    requires { 0 < capacity }
{
    HashMap::with_capacity(alloc, capacity, fold())
}

#[test]
fn a_pair_is_put_once(rt: HostRuntime) -> Result<(), Fail> {
    let rows = [
        Row(Segments, Count(64)),
        Row(Get(1), Nothing),
        Row(Put(1, 10), Inserted),
        Row(Put(1, 11), Present(10, 1, 11)),
        Row(Get(1), Value(10)),
        Row(Get(2), Nothing),
    ];
    assert_eq!(rt; wrong_row(rt.alloc(), 64, 64, fold(), &rows)?, None);
    Ok(())
}

#[test]
fn what_one_seat_put_another_finds(rt: HostRuntime) -> Result<(), Fail> {
    let table = of_capacity(rt.alloc(), 64)?;
    assert_eq!(rt; table.actual_num_segments(), 64);
    let hash = table.hash(&7);
    let (mut one, mut other) = (table.seat(), table.seat());
    let first = table.try_insert_if_not_present(&mut one, 7, hash, 70);
    assert_eq!(rt; insert_told(&first), Inserted);
    table.meet(&mut one, &mut other);
    let found = table.try_get(&mut other, hash, |key: &u64| *key == 7);
    assert_eq!(rt; get_told(&found), Value(70));
    let second = table.try_insert_if_not_present(&mut other, 7, hash, 71);
    assert_eq!(rt; insert_told(&second), Present(70, 7, 71));
    Ok(())
}
