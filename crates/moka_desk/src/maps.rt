//! Hash maps and sets of numbers: writes that take no memory, and looks that cost little where there
//! is nothing.

ghost use Rattle.std.specs.Prelude.{◌≡◌, ℕ, ◌+◌, ◌≤◌, ◌<◌, ◌==◌, false, cond, Some, None, IsSome, is_some, nat_eq, option_copied, ◌||◌, if◌then◌else◌};
ghost use Rattle.std.specs.Bool.{OnFalse};
ghost use Rattle.std.specs.HashSet as hash_set;
ghost use Rattle.std.specs.HashMap.{get, spare, hash_map_len, PutsEntry, Updates};

use std::collections::{HashMap, HashSet};
use std::hash::{BuildHasher, Hash};

/// Puts the value at the key, for which there is room.
pub(crate) fn put<Q: Eq + Hash + Drop, T: Drop, S: BuildHasher>(
    map: &mut HashMap<Q, T, S>,
    key: Q,
    value: T,
)
    requires { 0 < spare map.old }
    ensures updates { Updates Q.eq map.old map.new key (Some value) }
    ensures entries { PutsEntry Q.eq map.old map.new key value (get Q.eq map.old key) }
    ensures spare { spare map.old ≤ spare map.new + 1 }
    ensures len { hash_map_len map.new ≡ hash_map_len map.old +
        (if is_some (get Q.eq map.old key) then 0 else 1) }
{
    match map.insert(key, value) {
        Ok(_) => {}
        Err(_) => unreachable!(),
    }
}

/// Puts the value at a number that has one.
pub(crate) fn replace<T: Drop>(map: &mut HashMap<u64, T>, key: u64, value: T)
    requires { IsSome (get nat_eq map.old key) }
    ensures updates { (n : ℕ) →
        get nat_eq map.new n ≡ cond (key == n) (Some value) (get nat_eq map.old n) }
    ensures len { hash_map_len map.new ≡ hash_map_len map.old }
{
    match map.insert(key, value) {
        Ok(_) => {}
        Err(_) => unreachable!(),
    }
}

/// Adds the number to the set, in which there is room for it.
pub(crate) fn add(set: &mut HashSet<u64>, number: u64)
    requires { 0 < hash_set.spare set.old }
    ensures has { (n : ℕ) → hash_set.contains nat_eq set.new n
        ≡ (hash_set.contains nat_eq set.old n || (number == n)) }
    ensures spare { hash_set.spare set.old ≤ hash_set.spare set.new + 1 }
    ensures len { hash_set.hash_set_len set.new ≡ hash_set.hash_set_len set.old +
        (if hash_set.contains nat_eq set.old number then 0 else 1) }
{
    match set.insert(number) {
        Ok(_) => {}
        Err(_) => unreachable!(),
    }
}

/// The value at the number, if it has one. Nothing is hashed where the map is empty.
#[inline(always)]
pub(crate) fn at<T>(map: &HashMap<u64, T>, number: u64) -> Option<&T>
    ensures { option_copied result ≡ get nat_eq map.now number }
{
    if map.is_empty() {
        return None;
    }
    map.get(&number)
}

/// Whether something stands at the number. Nothing is hashed where the map is empty.
#[inline(always)]
pub(crate) fn has_at<T>(map: &HashMap<u64, T>, number: u64) -> bool
    ensures { result ≡ is_some (get nat_eq map.now number) }
{
    if map.is_empty() {
        return false;
    }
    map.contains_key(&number)
}

/// Takes out the value at the number, if it has one, and gives it. Nothing is hashed where the map
/// is empty.
#[inline(always)]
pub(crate) fn remove_at<T: Drop>(map: &mut HashMap<u64, T>, number: u64) -> Option<T>
    ensures value { result ≡ get nat_eq map.old number }
    ensures updates { (n : ℕ) →
        get nat_eq map.new n ≡ cond (number == n) None (get nat_eq map.old n) }
    ensures spare { spare map.old ≤ spare map.new }
    ensures len { hash_map_len map.new + (if is_some (get nat_eq map.old number) then 1 else 0)
        ≡ hash_map_len map.old }
{
    if map.is_empty() {
        return None;
    }
    map.remove(&number)
}

/// Takes out the value at the number, if it has one. Nothing is hashed where the map is empty.
#[inline(always)]
pub(crate) fn take_at<T: Drop>(map: &mut HashMap<u64, T>, number: u64)
    ensures updates { (n : ℕ) →
        get nat_eq map.new n ≡ cond (number == n) None (get nat_eq map.old n) }
    ensures spare { spare map.old ≤ spare map.new }
    ensures len { hash_map_len map.new + (if is_some (get nat_eq map.old number) then 1 else 0)
        ≡ hash_map_len map.old }
{
    drop(remove_at(map, number));
}

/// Takes the number out of the set, and tells whether it was there. Nothing is hashed where the set
/// is empty.
#[inline(always)]
pub(crate) fn take_out(set: &mut HashSet<u64>, number: u64) -> bool
    ensures test { result ≡ hash_set.contains nat_eq set.old number }
    ensures has { (n : ℕ) → hash_set.contains nat_eq set.new n
        ≡ cond (number == n) false (hash_set.contains nat_eq set.old n) }
    ensures unchanged { OnFalse result (hash_set.keys set.new ≡ hash_set.keys set.old) }
    ensures len { hash_set.hash_set_len set.new + (if result then 1 else 0)
        ≡ hash_set.hash_set_len set.old }
    ensures spare { hash_set.spare set.old ≤ hash_set.spare set.new }
{
    if set.is_empty() {
        return false;
    }
    set.remove(&number)
}
