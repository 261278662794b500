//! Want of memory. With `rt try --test --fail-alloc N` the Nth allocation is refused, and one at most
//! in a run: so a pair that came back is put by the next call.

use crate::calls::Caller;
use crate::seats::{Fold, Table, of_capacity};
use moka_shared::{TryChange, TryInsert};
use std::test::*;

/// How many keys are put.
const KEYS: u64 = 64;

// Whether the pair is put by the next call, where want of memory gave it back.
fn puts_in_two(caller: &mut Caller<'_, Fold>, key: u64) -> bool {
    match caller.put(key, key) {
        TryInsert::Inserted => true,
        TryInsert::Memory { key: back, value } => {
            back == key && value == key && caller.is_put(key, key)
        }
        _ => false,
    }
}

// Whether the value is replaced by the next call, where memory was wanting and it stayed.
fn replaces_in_two(caller: &mut Caller<'_, Fold>, key: u64) -> bool {
    match caller.replace(key, 100) {
        TryChange::Changed(former) => former == key,
        _ => caller.has(key, key) && is_replaced(caller, key),
    }
}

// Whether the key's own number is replaced.
fn is_replaced(caller: &mut Caller<'_, Fold>, key: u64) -> bool {
    matches!(caller.replace(key, 100), TryChange::Changed(former) if former == key)
}

// The first key that isn't put, or found, or whose value isn't replaced.
fn first_wrong(table: &Table) -> Option<u64> {
    let mut caller = Caller::new(table);
    for key in 0..KEYS {
        if !puts_in_two(&mut caller, key) {
            return Some(key);
        }
    }
    for key in 0..KEYS {
        if !caller.has(key, key) {
            return Some(key);
        }
    }
    for key in 0..KEYS {
        if !replaces_in_two(&mut caller, key) {
            return Some(key);
        }
    }
    None
}

#[test]
fn a_pair_that_came_back_is_put_by_the_next_call(rt: HostRuntime) -> Result<(), Fail> {
    let Ok(table) = of_capacity(rt.alloc(), 64) else {
        return Ok(());
    };
    assert_eq!(rt; first_wrong(&table), None);
    Ok(())
}
