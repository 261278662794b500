//! Places come back, which no clause says.

use moka_room::{deque_room, map_room, set_room, vec_room};
use std::alloc::{AllocError, Global};
use std::collections::{HashMap, HashSet, VecDeque};

/// How many entries a burst has, and how many stay.
const MANY: u64 = 5000;

const STAY: u64 = 10;

/// Fills the map, which has places for all then, and takes most out of it. Tells whether few places
/// are left, with the entries that stay.
fn map_gives_back(map: &mut HashMap<u64, u64>) -> Result<bool, AllocError> {
    for number in 0..MANY {
        map_room::reserve(map, 1)?;
        map.insert(number, number)?;
    }
    let places = map.capacity();
    for number in STAY..MANY {
        let _ = map.remove(&number);
    }
    map_room::reserve(map, 5)?;
    let few = places >= 5000 && map.capacity() < 200;
    Ok(few && map.len() == 10 && map.get(&9).copied() == Some(9))
}

#[test]
fn a_map_gives_places_back(rt: HostRuntime) {
    let mut map = HashMap::new(rt.alloc());
    let gives = map_gives_back(&mut map);
    drop(map);
    assert!(rt; matches!(gives, Ok(true)));
}

/// Fills the set, which has places for all then, and takes most out of it. Tells whether few places
/// are left, with the entries that stay.
fn set_gives_back(set: &mut HashSet<u64>) -> Result<bool, AllocError> {
    for number in 0..MANY {
        set_room::reserve(set, 1)?;
        set.insert(number)?;
    }
    for number in STAY..MANY {
        let _ = set.remove(&number);
    }
    set_room::reserve(set, 5)?;
    Ok(set.capacity() < 200 && set.len() == 10)
}

#[test]
fn a_set_gives_places_back(rt: HostRuntime) {
    let mut set = HashSet::new(rt.alloc());
    let gives = set_gives_back(&mut set);
    drop(set);
    assert!(rt; matches!(gives, Ok(true)));
}

/// How often a key comes and the oldest goes.
const ROUNDS: u64 = 300_000;

/// Lets keys come and go, 1000 of them there at a time, with room for 400 more. Tells whether the
/// map never grew for those that went, and gives its places back once few keys are left.
fn map_stays(map: &mut HashMap<u64, u64>) -> Result<bool, AllocError> {
    let mut places = 0;
    for number in 0..1000 {
        map_room::reserve_half(map, &mut places, 400)?;
        map.insert(number, number)?;
    }
    let full = map.capacity();
    for number in 1000..ROUNDS {
        map_room::reserve_half(map, &mut places, 400)?;
        map.insert(number, number)?;
        let _ = map.remove(&(number - 1000));
    }
    let grew = map.capacity() > full;
    for number in (ROUNDS - 1000)..(ROUNDS - STAY) {
        let _ = map.remove(&number);
    }
    map_room::reserve_half(map, &mut places, 5)?;
    Ok(!grew && map.capacity() < 200 && map.len() == 10)
}

#[test]
fn a_map_stays_as_large_while_keys_come_and_go(rt: HostRuntime) {
    let mut map = HashMap::new(rt.alloc());
    let stays = map_stays(&mut map);
    drop(map);
    assert!(rt; matches!(stays, Ok(true)));
}

/// Lets keys come and go, 1000 of them there at a time, with room for 400 more. Tells whether the
/// set never grew for those that went, and gives its places back once few keys are left.
fn set_stays(set: &mut HashSet<u64>) -> Result<bool, AllocError> {
    let mut places = 0;
    for number in 0..1000 {
        set_room::reserve_half(set, &mut places, 400)?;
        set.insert(number)?;
    }
    let full = set.capacity();
    for number in 1000..ROUNDS {
        set_room::reserve_half(set, &mut places, 400)?;
        set.insert(number)?;
        let _ = set.remove(&(number - 1000));
    }
    let grew = set.capacity() > full;
    for number in (ROUNDS - 1000)..(ROUNDS - STAY) {
        let _ = set.remove(&number);
    }
    set_room::reserve_half(set, &mut places, 5)?;
    Ok(!grew && set.capacity() < 200 && set.len() == 10)
}

#[test]
fn a_set_stays_as_large_while_keys_come_and_go(rt: HostRuntime) {
    let mut set = HashSet::new(rt.alloc());
    let stays = set_stays(&mut set);
    drop(set);
    assert!(rt; matches!(stays, Ok(true)));
}

/// Fills the queue, which has places for all then, and takes most out of it. Tells whether few
/// places are left, with the entries that stay.
fn queue_gives_back(queue: &mut VecDeque<u64>) -> Result<bool, AllocError> {
    for number in 0..MANY {
        queue.push_back(number)?;
    }
    queue.truncate(10);
    deque_room::reserve(queue, 5)?;
    Ok(queue.capacity() == 30 && queue.back().copied() == Some(9))
}

#[test]
fn a_queue_gives_places_back(rt: HostRuntime) {
    let mut queue = VecDeque::new(rt.alloc());
    let gives = queue_gives_back(&mut queue);
    drop(queue);
    assert!(rt; matches!(gives, Ok(true)));
}

/// Fills the vector, which has places for all then, and takes most out of it. Tells whether few
/// places are left, with the entries that stay.
fn list_gives_back(list: &mut Vec<u64>) -> Result<bool, AllocError> {
    for number in 0..MANY {
        list.push(number)?;
    }
    list.truncate(10);
    vec_room::reserve(list, 5)?;
    Ok(list.capacity() == 30 && list.last().copied() == Some(9))
}

#[test]
fn a_vector_gives_places_back(rt: HostRuntime) {
    let mut list = Vec::new(rt.alloc());
    let gives = list_gives_back(&mut list);
    drop(list);
    assert!(rt; matches!(gives, Ok(true)));
}

/// How many places a vector with room for so many has, once it has reserved one.
fn places_of(alloc: Global, places: usize) -> Result<usize, AllocError> {
    let mut list: Vec<u64> = Vec::with_capacity(alloc, places)?;
    vec_room::reserve(&mut list, 1)?;
    Ok(list.capacity())
}

#[test]
fn few_places_stay(rt: HostRuntime) {
    assert!(rt; matches!(places_of(rt.alloc(), 1024), Ok(1024)));
}
