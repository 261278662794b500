//! The pairs of a hash map, found and changed with their keys.
ghost use Rattle.std.specs.Prelude.{◌≡◌, ◌<◌, ◌≤◌, [], ◌∷◌, ◌++◌, cond, is_some, Option, None, Some, IfOk, OnOk, IfErr, OnErr};
ghost use denote.Ref.{Bor};
ghost use Rattle.std.specs.List.{IsDistinct};
ghost use Rattle.std.specs.Option.{option_map};
ghost use Rattle.std.specs.Set.{is_member};
ghost use Rattle.std.specs.HashMap.{spare};
ghost use Rattle.moka_parts.specs.Calls.{Shown};
ghost use Rattle.moka_parts.specs.Pairs.{entry_at, pair_at, pair_of, lent};

use crate::held::Held;
use moka_values::Exact;
use std::alloc::{AllocError, Global};
use std::collections::HashMap;
use std::hash::{BuildHasher, Hash};
use std::mem;

/// A map of no more places than this keeps them all.
const FEW: usize = 64;

/// Lends the pair at the key.
pub(crate) fn find<'m, K: Eq + Hash, V, S: BuildHasher>(
    map: &'m HashMap<K, Held<K, V>, S>,
    key: &K,
) -> Option<(&'m K, &'m V)>
    ensures { lent result ≡ pair_at K.eq map.now key.now }
{
    match map.get_key_value(key) {
        Some((stored, held)) => Some(held.pair(stored)),
        None => None,
    }
}

/// Takes the pair at the key out. The map's own key is left over where it isn't the pair's.
pub(crate) fn take<K: Eq + Hash, V, S: BuildHasher>(
    map: &mut HashMap<K, Held<K, V>, S>,
    key: &K,
) -> (Option<(K, V)>, Option<K>)
    ensures pair { result.0 ≡ pair_at K.eq map.old key.now }
    ensures map { (q : K) → pair_at K.eq map.new q
        ≡ cond (K.eq key.now q) None (pair_at K.eq map.old q) }
{
    match take_entry(map, key) {
        Some((stored, held)) => {
            let (pair, left) = held.into_pair(stored);
            (Some(pair), left)
        }
        None => (None, None),
    }
}

/// Takes the entry at the key out.
fn take_entry<K: Eq + Hash, X, S: BuildHasher>(
    map: &mut HashMap<K, X, S>,
    key: &K,
) -> Option<(K, X)>
    ensures entry { result ≡ entry_at K.eq map.old key.now }
    ensures map { (q : K) → entry_at K.eq map.new q
        ≡ cond (K.eq key.now q) None (entry_at K.eq map.old q) }
    ensures room { spare map.old ≤ spare map.new }
{
    let _ = map.len();
    map.remove_entry(key)
}

/// Puts the pair, and answers what the closure gives, which is lent the pair that stood there. What
/// leaves the map comes beside it. There is room, so it can't fail.
#[inline(always)]
pub(crate) fn replace<K: Eq + Hash + Drop, V: Drop, S: BuildHasher, T, W>(
    map: &mut HashMap<K, Held<K, V>, S>,
    key: K,
    value: V,
    with: W,
) -> (T, Option<Held<K, V>>)
where
    W: FnOnce(Option<(&K, &V)>) -> T,
    requires room { 0 < spare map.old }
    requires callable { (shown : Option (Bor K × Bor V))
        → lent shown ≡ pair_at K.eq map.old key → W.pre with shown }
    ensures shown { Shown W.FnOnce with (pair_at K.eq map.old key) result.0 }
    ensures map { (q : K) → pair_at K.eq map.new q
        ≡ cond (K.eq key q) (Some (key, value)) (pair_at K.eq map.old q) }
{
    match renew(map, key, value) {
        Ok((key, value)) => {
            let given = with(Some((&key, &value)));
            (
                given,
                Some(Held {
                    newer: Some(key),
                    value,
                }),
            )
        }
        Err((key, value)) => {
            let given = with(find(map, &key));
            (given, put_over(map, key, value))
        }
    }
}

/// Replaces the pair where it lies, and answers the former one, if one was put there over another
/// before. Else the pair comes back.
#[inline(always)]
fn renew<K: Eq + Hash, V, S: BuildHasher>(
    map: &mut HashMap<K, Held<K, V>, S>,
    key: K,
    value: V,
) -> Result<(K, V), (K, V)>
    ensures former { IfOk result (λ p. pair_at K.eq map.old key ≡ Some p) }
    ensures map { OnOk result ((q : K) → pair_at K.eq map.new q
        ≡ cond (K.eq key q) (Some (key, value)) (pair_at K.eq map.old q)) }
    ensures back { IfErr result (λ p. p ≡ (key, value)) }
    ensures same { OnErr result ((q : K) → pair_at K.eq map.new q ≡ pair_at K.eq map.old q) }
    ensures room { spare map.new ≡ spare map.old }
{
    match map.get_mut(&key) {
        Some(held) => held.renew(key, value),
        None => Err((key, value)),
    }
}

/// Puts the pair: under the key that the map has, if it has one, so that the next pair is put where
/// this one lies. What was held there comes back. There is room, so it can't fail.
#[inline(never)]
fn put_over<K: Eq + Hash + Drop, V: Drop, S: BuildHasher>(
    map: &mut HashMap<K, Held<K, V>, S>,
    key: K,
    value: V,
) -> Option<Held<K, V>>
    requires room { 0 < spare map.old }
    ensures map { (q : K) → pair_at K.eq map.new q
        ≡ cond (K.eq key q) (Some (key, value)) (pair_at K.eq map.old q) }
{
    match map.get_mut(&key) {
        Some(held) => Some(mem::replace(
            held,
            Held {
                newer: Some(key),
                value,
            },
        )),
        None => {
            put_first(map, key, value);
            None
        }
    }
}

/// Makes room for one more pair.
#[inline(always)]
pub(crate) fn make_room<K: Eq + Hash, V, S: BuildHasher>(
    map: &mut HashMap<K, Held<K, V>, S>,
) -> Result<(), AllocError>
    ensures map { (q : K) → pair_at K.eq map.new q ≡ pair_at K.eq map.old q }
    ensures ok { OnOk result (0 < spare map.new) }
{
    map.reserve(1)
}

/// Puts the pair where none stands at the key. There is room, so it can't fail.
fn put_first<K: Eq + Hash + Drop, V: Drop, S: BuildHasher>(
    map: &mut HashMap<K, Held<K, V>, S>,
    key: K,
    value: V,
)
    requires absent { pair_at K.eq map.old key ≡ None }
    requires room { 0 < spare map.old }
    ensures map { (q : K) → pair_at K.eq map.new q
        ≡ cond (K.eq key q) (Some (key, value)) (pair_at K.eq map.old q) }
{
    give_back(map);
    match map.insert(key, Held { newer: None, value }) {
        Ok(_) => {}
        Err(_) => unreachable!(),
    }
}

/// Gives places back where there are many, and under an eighth of them is in use: twice as many as
/// are needed for one more pair stay. Where memory is wanting the map stays as it is.
fn give_back<K: Eq + Hash, V, S: BuildHasher>(map: &mut HashMap<K, Held<K, V>, S>)
    requires { 0 < spare map.old }
    ensures map { (q : K) → entry_at K.eq map.new q ≡ entry_at K.eq map.old q }
    ensures room { 0 < spare map.new }
{
    let (places, pairs) = (map.capacity(), map.len());
    if places > FEW && pairs < places / 8 {
        map.shrink_to(pairs * 2 + 2);
    }
}

/// Copies of the keys: of each the one that the map has, which is equal to its pair's.
pub(crate) fn keys<K: Eq + Hash + Exact + Drop, V, S: BuildHasher>(
    alloc: Global,
    map: &HashMap<K, Held<K, V>, S>,
) -> Result<Vec<K>, AllocError>
    ensures distinct { IfOk result (λ keys. IsDistinct K.eq keys.items) }
    ensures listed { IfOk result (λ keys. (q : K)
        → is_member K.eq keys.items q ≡ is_some (pair_at K.eq map.now q)) }
{
    let mut keys = Vec::with_capacity(alloc, map.len())?;
    for key in map.keys() {
        add_copy(&mut keys, key)?;
    }
    Ok(keys)
}

/// Adds a copy of the key.
fn add_copy<K: Exact + Drop>(keys: &mut Vec<K>, key: &K) -> Result<(), AllocError>
    ensures { OnOk result (keys.new.items ≡ keys.old.items ++ key.now ∷ []) }
{
    keys.push(key.clone()?)?;
    Ok(())
}
