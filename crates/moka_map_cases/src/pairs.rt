//! One pair, with values of moka's own tests of its map.

use crate::calls::{
    count, count_pair, even_value, get, has, insert, remove, remove_pair, remove_value, sum,
};
use moka_map::{HashMap, ScanningGet};
use std::alloc::{AllocError, Global};
use std::hash::{BuildHasherDefault, FoldHasher};
use std::test::Fail;

pub(crate) type Map = HashMap<u64, u64, BuildHasherDefault<FoldHasher>>;

pub(crate) fn empty(alloc: Global, capacity: usize) -> Result<Map, AllocError> {
    HashMap::with_capacity(alloc, capacity, BuildHasherDefault::new())
}

// A key that is absent, present with 10, present with 11, and absent again.
fn one_key(map: &mut Map) -> Result<[Option<u64>; 7], AllocError> {
    Ok([
        get(map, 1)?,
        insert(map, 1, 10)?,
        insert(map, 1, 11)?,
        get(map, 1)?,
        remove(map, 1)?,
        remove(map, 1)?,
        get(map, 1)?,
    ])
}

#[test]
fn a_pair_is_stored_replaced_and_removed(rt: HostRuntime) -> Result<(), Fail> {
    let mut map = empty(rt.alloc(), 0)?;
    let answers = one_key(&mut map);
    let (len, segments, capacity) = (map.len(), map.actual_num_segments(), map.capacity());
    drop(map);
    assert!(rt; answers? == [None, None, Some(10), Some(11), Some(11), None, None]);
    assert!(rt; len == 0 && segments == 64 && capacity == 64);
    Ok(())
}

type Named = HashMap<&'static str, u64, BuildHasherDefault<FoldHasher>>;

// "key1" is stored with the value where it is absent.
fn insert_key1(map: &mut Named, value: u64) -> Result<Option<u64>, AllocError> {
    let hash = map.hash(&"key1");
    map.insert_if_not_present("key1", hash, value)
}

// "key1" is stored where it is absent, with 5 and then with 6.
fn absent_once(map: &mut Named) -> Result<[Option<u64>; 3], AllocError> {
    Ok([
        insert_key1(map, 5)?,
        insert_key1(map, 6)?,
        map.scanning_get(&"key1")?,
    ])
}

#[test]
fn a_present_value_stays(rt: HostRuntime) -> Result<(), Fail> {
    let mut map = HashMap::with_capacity(rt.alloc(), 0, BuildHasherDefault::new())?;
    let answers = absent_once(&mut map);
    drop(map);
    assert!(rt; answers? == [None, Some(5), Some(5)]);
    Ok(())
}

// Key 1 is counted twice.
fn counted(map: &mut Map) -> Result<[Option<u64>; 3], AllocError> {
    Ok([count(map, 1)?, count(map, 1)?, get(map, 1)?])
}

#[test]
fn a_value_is_modified(rt: HostRuntime) -> Result<(), Fail> {
    let mut map = empty(rt.alloc(), 0)?;
    let answers = counted(&mut map);
    drop(map);
    assert!(rt; answers? == [None, Some(1), Some(2)]);
    Ok(())
}

// Looks at the pair of 1 and 10, a count of it, and removals.
fn looked(map: &mut Map) -> Result<[Option<u64>; 8], AllocError> {
    insert(map, 1, 10)?;
    Ok([
        get(map, 1)?,
        sum(map, 1)?,
        even_value(map, 1)?,
        count_pair(map, 1)?,
        get(map, 1)?,
        even_value(map, 1)?,
        remove_value(map, 1, 10)?,
        map.scanning_get(&1)?,
    ])
}

#[test]
fn closures_get_the_stored_pair(rt: HostRuntime) -> Result<(), Fail> {
    let mut map = empty(rt.alloc(), 0)?;
    let answers = looked(&mut map);
    let before = has(&map, 1);
    let pair = remove_pair(&mut map, 1);
    let after = has(&map, 1);
    drop(map);
    assert!(rt;
        answers?
            == [
                Some(10),
                Some(11),
                Some(10),
                Some(11),
                Some(11),
                None,
                None,
                Some(11),
            ]
    );
    assert!(rt; before? && pair? == Some((1, 11)) && !after?);
    Ok(())
}

// A value that is 11 is removed.
fn removed_value(map: &mut Map) -> Result<Option<u64>, AllocError> {
    insert(map, 1, 11)?;
    remove_value(map, 1, 11)
}

#[test]
fn a_pair_is_removed_where_the_condition_holds(rt: HostRuntime) -> Result<(), Fail> {
    let mut map = empty(rt.alloc(), 0)?;
    let answer = removed_value(&mut map);
    let len = map.len();
    drop(map);
    assert!(rt; answer? == Some(12) && len == 0);
    Ok(())
}
