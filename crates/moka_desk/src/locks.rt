//! The locks of keys.

ghost use Rattle.std.specs.Prelude.{◌≡◌, ℕ, ◌==◌, true, false, cond, Option, Some, None, is_some, nat_eq, option_copied, OnOk, OnErr, IfOk, IsNone, if◌then◌else◌};
ghost use Rattle.std.specs.Option.{option_map, option_map_or};
ghost use Rattle.std.specs.HashMap.{get, spare};
ghost use Rattle.moka_desk.specs.Locks.{as_kept, first_holder, first_lock, marked};

use crate::maps::{at, put, take_at};
use moka_hist::LockTaken;
use moka_room::map_room;
use moka_values::Exact;
use std::alloc::{AllocError, Global};
use std::collections::HashMap;
use std::hash::{BuildHasher, Hash};

/// The lock that is held under a call's number: of which key, and whether the call's notice keeps
/// it, since that still runs though the call was dropped.
#[derive(Drop)]
pub(crate) struct OwnLock<K> {
    pub(crate) key: K,
    pub(crate) kept: bool,
}

/// The number under which each key's lock is held, and the lock that is held under each number: one
/// at most. A lock that is given while none stands beside the maps stands there: mostly one is held
/// at a time, and its key is not hashed.
#[derive(Drop)]
pub(crate) struct Locks<K: Eq + Hash, S: BuildHasher> {
    pub(crate) first: Option<(u64, OwnLock<K>)>,
    pub(crate) holders: HashMap<K, u64, S>,
    pub(crate) locked: HashMap<u64, OwnLock<K>>,
}

impl<K: Eq + Hash + Exact, S: BuildHasher> Locks<K, S> {
    ghost use Rattle.moka_hist.specs.Finite.{put_at, put_key};
    ghost use Rattle.moka_desk.specs.Locks.{is_kept, key_in, locks_but, taken_of, LockPart, LocksAre, LocksBecome};
    ghost use Rattle.moka_desk.specs.Locks.{holder_of, lock_under};

    /// No key is locked. Keys are hashed by this hasher.
    pub(crate) fn new(alloc: Global, hasher: S) -> Self
        ensures { LocksAre K.eq result (record {
          locks = λ _. None;
          locked = λ _. None;
          kept = λ _. None;
        }) }
    {
        Locks {
            first: None,
            holders: HashMap::with_hasher(alloc, hasher),
            locked: HashMap::new(alloc),
        }
    }

    /// The number under which the key's lock is held.
    pub(crate) fn holder(&self, key: &K) -> Option<u64>
        ensures { result ≡ holder_of K.eq self.now key.now }
    {
        match first_holder(&self.first, key) {
            Some(holder) => Some(holder),
            None => holder_in(&self.holders, key),
        }
    }

    /// Whether the lock that is held under this number is kept by the notice, if one is held.
    pub(crate) fn kept_under(&self, number: u64) -> Option<bool>
        ensures { result ≡ option_map (λ o. o.kept) (lock_under self.now number) }
    {
        match first_kept(&self.first, number) {
            Some(kept) => Some(kept),
            None => kept_in(&self.locked, number),
        }
    }

    /// Whether the notice of this number keeps a lock.
    pub(crate) fn is_kept(&self, number: u64) -> bool
        ensures { result ≡ is_kept (lock_under self.now number) }
    {
        match self.kept_under(number) {
            Some(kept) => kept,
            None => false,
        }
    }

    /// How another call finds a lock that is held under this number.
    pub(crate) fn taken(&self, holder: u64) -> LockTaken
        ensures { result ≡ taken_of (lock_under self.now holder) holder }
    {
        match self.is_kept(holder) {
            true => LockTaken::Kept { notice: holder },
            false => LockTaken::Held,
        }
    }

    /// Gives the lock of a key that nobody has locked to the call, under whose number none is held.
    pub(crate) fn lock(&mut self, call: u64, key: &K) -> Result<(), AllocError>
        ensures ok { OnOk result ((p : LockPart K) → LocksAre K.eq self.old p →
            p.locks key.now ≡ None
            → p.locked call ≡ None → p.kept call ≡ None → LocksAre K.eq self.new (record p {
              locks = put_key K.eq p.locks key.now (Some call);
              locked = put_at p.locked call (Some key.now);
            })) }
        ensures err { OnErr result (LocksBecome K.eq self.old (λ p. p) self.new) }
    {
        match self.first.is_some() {
            true => self.lock_among(call, key),
            false => self.lock_first(call, key),
        }
    }

    // Gives the lock beside the maps, where none is.
    #[inline(always)]
    fn lock_first(&mut self, call: u64, key: &K) -> Result<(), AllocError>
        requires { is_some self.old.first ≡ false }
        ensures ok { OnOk result ((p : LockPart K) → LocksAre K.eq self.old p →
            p.locks key.now ≡ None
            → p.locked call ≡ None → p.kept call ≡ None → LocksAre K.eq self.new (record p {
              locks = put_key K.eq p.locks key.now (Some call);
              locked = put_at p.locked call (Some key.now);
            })) }
        ensures err { OnErr result (LocksBecome K.eq self.old (λ p. p) self.new) }
    {
        let own = copy_of(key)?;
        self.first = Some((
            call,
            OwnLock {
                key: own,
                kept: false,
            },
        ));
        Ok(())
    }

    // Gives the lock among the others.
    #[inline(never)]
    fn lock_among(&mut self, call: u64, key: &K) -> Result<(), AllocError>
        ensures ok { OnOk result ((p : LockPart K) → LocksAre K.eq self.old p →
            p.locks key.now ≡ None
            → p.locked call ≡ None → p.kept call ≡ None → LocksAre K.eq self.new (record p {
              locks = put_key K.eq p.locks key.now (Some call);
              locked = put_at p.locked call (Some key.now);
            })) }
        ensures err { OnErr result (LocksBecome K.eq self.old (λ p. p) self.new) }
    {
        map_room::reserve(&mut self.holders, 1)?;
        map_room::reserve(&mut self.locked, 1)?;
        let held = copy_of(key)?;
        let own = copy_of(key)?;
        put(&mut self.holders, held, call);
        put(
            &mut self.locked,
            call,
            OwnLock {
                key: own,
                kept: false,
            },
        );
        Ok(())
    }

    /// Frees the lock that is held under this number, if one is.
    pub(crate) fn free(&mut self, number: u64)
        ensures { LocksBecome K.eq self.old (λ p. record {
          locks = locks_but p number;
          locked = put_at p.locked number None;
          kept = put_at p.kept number None;
        }) self.new }
    {
        match is_of(&self.first, number) {
            true => self.free_first(number),
            false => self.free_among(number),
        }
    }

    // Frees the lock that stands beside the maps, which is held under this number.
    #[inline(always)]
    fn free_first(&mut self, number: u64)
        requires { is_some (first_lock self.old.first number) ≡ true }
        ensures { LocksBecome K.eq self.old (λ p. record {
          locks = locks_but p number;
          locked = put_at p.locked number None;
          kept = put_at p.kept number None;
        }) self.new }
    {
        if let Some(lock) = self.first.take() {
            take_key(&mut self.holders, &lock.1.key);
            take_at(&mut self.locked, number);
        }
    }

    // Frees the lock that is held under this number among the others, if one is.
    #[inline(never)]
    fn free_among(&mut self, number: u64)
        requires { is_some (first_lock self.old.first number) ≡ false }
        ensures { LocksBecome K.eq self.old (λ p. record {
          locks = locks_but p number;
          locked = put_at p.locked number None;
          kept = put_at p.kept number None;
        }) self.new }
    {
        if let Some(own) = self.locked.remove(&number) {
            let _ = self.holders.remove(&own.key);
        }
    }

    /// Frees the lock that the call holds, if it holds one, as it leaves. Where its own notice
    /// runs, that keeps the lock.
    pub(crate) fn leave(&mut self, call: u64, runs: bool)
        ensures { LocksBecome K.eq self.old (λ p. record {
          locks = cond runs p.locks (locks_but p call);
          locked = put_at p.locked call None;
          kept = put_at p.kept call (cond runs (key_in p call) None);
        }) self.new }
    {
        match runs {
            true => self.keep(call),
            false => self.free(call),
        }
    }

    // The notice of the call keeps its lock, if it has one.
    #[inline(never)]
    fn keep(&mut self, call: u64)
        ensures { LocksBecome K.eq self.old (λ p. record p {
          locked = put_at p.locked call None;
          kept = put_at p.kept call (key_in p call);
        }) self.new }
    {
        mark_first(&mut self.first, call);
        mark_kept(&mut self.locked, call);
    }

    /// Frees the lock that the notice of this number keeps, if it keeps one, and answers whether it
    /// did.
    pub(crate) fn release(&mut self, number: u64) -> bool
        ensures freed { result ≡ is_kept (lock_under self.old number) }
        ensures makes { LocksBecome K.eq self.old (λ p. record p {
          locks = cond (is_some (p.kept number)) (locks_but p number) p.locks;
          kept = put_at p.kept number None;
        }) self.new }
    {
        if self.is_kept(number) {
            self.free(number);
            return true;
        }
        false
    }
}

// The number under which the key's lock is held by this one.
#[inline(always)]
fn first_holder<K: Eq>(first: &Option<(u64, OwnLock<K>)>, key: &K) -> Option<u64>
    ensures { result ≡ first_holder K.eq first.now key.now }
{
    match first {
        Some(lock) => holder_if(lock, key),
        None => None,
    }
}

// The number of the lock, where it is the key's.
#[inline(always)]
fn holder_if<K: Eq>(lock: &(u64, OwnLock<K>), key: &K) -> Option<u64>
    ensures { result ≡ cond (K.eq lock.now.1.key key.now) (Some lock.now.0) None }
{
    if lock.1.key == *key {
        Some(lock.0)
    } else {
        None
    }
}

// Whether the lock is held under this number, if it is one.
#[inline(always)]
fn is_of<K>(first: &Option<(u64, OwnLock<K>)>, number: u64) -> bool
    ensures { result ≡ is_some (first_lock first.now number) }
{
    match first {
        Some(lock) => lock.0 == number,
        None => false,
    }
}

// Whether the notice keeps the lock, where it is held under this number.
#[inline(always)]
fn first_kept<K>(first: &Option<(u64, OwnLock<K>)>, number: u64) -> Option<bool>
    ensures { result ≡ option_map (λ o. o.kept) (first_lock first.now number) }
{
    match first {
        Some(lock) => kept_if(lock, number),
        None => None,
    }
}

// Whether the notice keeps this lock, where it is held under this number.
#[inline(always)]
fn kept_if<K>(lock: &(u64, OwnLock<K>), number: u64) -> Option<bool>
    ensures { result ≡ cond (lock.now.0 == number) (Some lock.now.1.kept) None }
{
    match lock.0 == number {
        true => Some(lock.1.kept),
        false => None,
    }
}

// Whether the notice keeps the lock that the map has under this number, if it has one.
#[inline(always)]
fn kept_in<K>(locked: &HashMap<u64, OwnLock<K>>, number: u64) -> Option<bool>
    ensures { result ≡ option_map (λ o. o.kept) (get nat_eq locked.now number) }
{
    match at(locked, number) {
        Some(own) => Some(own.kept),
        None => None,
    }
}

// The number under which the key's lock is held by the map. Nothing is hashed where that is empty.
#[inline(always)]
fn holder_in<K: Eq + Hash, S: BuildHasher>(holders: &HashMap<K, u64, S>, key: &K) -> Option<u64>
    ensures { result ≡ get K.eq holders.now key.now }
{
    if holders.is_empty() {
        return None;
    }
    holders.get(key).copied()
}

// Takes the key out of the map. Nothing is hashed where that is empty.
#[inline(always)]
fn take_key<K: Eq + Hash + Drop, S: BuildHasher>(holders: &mut HashMap<K, u64, S>, key: &K)
    ensures { (k : K) → get K.eq holders.new k
        ≡ cond (K.eq key.now k) None (get K.eq holders.old k) }
{
    if holders.is_empty() {
        return;
    }
    let _ = holders.remove(key);
}

// A notice keeps the lock beside the maps, where one stands there under this number.
fn mark_first<K: Drop>(first: &mut Option<(u64, OwnLock<K>)>, number: u64)
    ensures { first.new ≡ option_map (marked number) first.old }
{
    if let Some(lock) = first {
        mark_if(lock, number);
    }
}

// A notice keeps the lock, where it is held under this number.
fn mark_if<K: Drop>(lock: &mut (u64, OwnLock<K>), number: u64)
    ensures { lock.new ≡ marked number lock.old }
{
    match lock.0 == number {
        true => lock.1.kept = true,
        false => {}
    }
}

// A notice keeps the lock that the map has under this number, if it has one.
fn mark_kept<K: Drop>(locked: &mut HashMap<u64, OwnLock<K>>, number: u64)
    ensures { (n : ℕ) → get nat_eq locked.new n ≡ cond (number == n)
        (option_map as_kept (get nat_eq locked.old number)) (get nat_eq locked.old n) }
{
    if let Some(own) = locked.get_mut(&number) {
        own.kept = true;
    }
}

// An equal key.
fn copy_of<K: Eq + Hash + Exact>(key: &K) -> Result<K, AllocError>
    ensures { IfOk result (λ copy. copy ≡ key.now) }
{
    key.clone()
}
