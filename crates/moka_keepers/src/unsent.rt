//! The writes that a keeper has still to be sent.

ghost use Rattle.std.specs.Prelude.{◌≡◌, ℕ, ◌+◌, ◌-◌, ◌<◌, ◌≤◌, ◌^◌, List, [], ◌∷◌, ◌++◌, length};
ghost use Rattle.std.specs.Prelude.{nat_eq, Some, None, IsSome, OnOk, OnErr, IfSome, IfNone};
ghost use Rattle.std.specs.Prelude.{option_copied};
ghost use Rattle.std.specs.HashMap.{get, IsUnchanged};
ghost use Rattle.moka_hist.specs.Finite.{put_at};
ghost use Rattle.moka_keepers.specs.Writes.{count_of, last_of};
ghost use Rattle.moka_keepers.specs.Pending.{less, noted};

use crate::Write;
use moka_room::{deque_room, map_room};
use std::alloc::{AllocError, Global};
use std::collections::{HashMap, VecDeque};
use std::marker::Model;

/// What is pending of a key: how many unsent writes it has, and what the last of them leaves.
#[derive(Clone, Copy, PartialEq, Eq, Debug)]
pub struct Pending {
    count: u64,
    last: Option<u32>,
}

/// The writes that a keeper has still to be sent, oldest first. The last one of a key is found by the
/// key.
#[derive(Drop)]
pub struct Unsent {
    writes: VecDeque<Write>,
    pending: HashMap<u32, Pending>,
}

impl Model for Unsent {
    ghost use Rattle.std.specs.Prelude.{◌≡◌, ℕ, List, nat_eq};
    ghost use Rattle.std.specs.HashMap.{get};
    ghost use Rattle.moka_keepers.specs.declared.write.Write.{Write};

    ghost Value = { List Write };

    ghost use Rattle.moka_keepers.specs.Pending.{pending_of};

    ghost view = { λ u. u.writes.items };

    ghost invariant = { λ u. (key : ℕ) → get nat_eq u.pending key ≡ pending_of key u.writes.items };
}

impl Unsent {
    /// Makes an empty list.
    pub fn new(alloc: Global) -> Unsent
        ensures { result ≡ [] }
    {
        Unsent {
            writes: VecDeque::new(alloc),
            pending: HashMap::new(alloc),
        }
    }

    /// Counts the writes.
    pub fn len(&self) -> usize
        ensures { result ≡ length self.now }
    {
        self.writes.len()
    }

    /// Answers the oldest write.
    pub fn first(&self) -> Option<Write>
        ensures some { IfSome result (λ write. (rest : List Write) × (self.now ≡ write ∷ rest)) }
        ensures none { IfNone result (self.now ≡ []) }
    {
        self.writes.front().copied()
    }

    /// Answers what the last write of the key leaves, if there is a write of it.
    pub fn last_of(&self, key: u32) -> Option<Option<u32>>
        ensures { result ≡ last_of key self.now }
    {
        match self.pending.get(&key) {
            Some(pending) => Some(pending.last),
            None => None,
        }
    }

    /// Adds a write after all others. Where there is no memory for it, nothing changes.
    pub fn push(&mut self, write: Write) -> Result<(), AllocError>
        ensures added { OnOk result (self.new ≡ self.old ++ write ∷ []) }
        ensures stays { OnErr result (self.new ≡ self.old) }
    {
        deque_room::reserve(&mut self.writes, 1)?;
        add(&mut self.pending, write)?;
        match self.writes.push_back(write) {
            Ok(()) => Ok(()),
            Err(_) => unreachable!(),
        }
    }

    /// Takes the oldest write off. Room of which far less is used is given back.
    pub fn pop_first(&mut self)
        requires { 0 < length self.old }
        ensures { (write : Write) × (self.old ≡ write ∷ self.new) }
    {
        match self.writes.pop_front() {
            Some(write) => take_off(&mut self.pending, write.key),
            None => unreachable!(),
        }
        deque_room::give_back(&mut self.writes, 0);
    }
}

// Counts a write of its key, and notes what it leaves.
fn add(pending: &mut HashMap<u32, Pending>, write: Write) -> Result<(), AllocError>
    requires room { IfSome (get nat_eq pending.old write.key) (λ p. p.count + 1 < 2 ^ 64) }
    ensures noted { OnOk result ((key : ℕ) → get nat_eq pending.new key
        ≡ put_at (get nat_eq pending.old) write.key
        (Some (noted (get nat_eq pending.old write.key) write.value)) key) }
    ensures stays { OnErr result ((key : ℕ)
        → get nat_eq pending.new key ≡ get nat_eq pending.old key) }
{
    if let Some(known) = pending.get_mut(&write.key) {
        known.count += 1;
        known.last = write.value;
        return Ok(());
    }
    let first = Pending {
        count: 1,
        last: write.value,
    };
    pending.insert(write.key, first)?;
    Ok(())
}

// Counts a write of the key less, and forgets the key with its last one.
fn take_off(pending: &mut HashMap<u32, Pending>, key: u32)
    ensures { (k : ℕ) → get nat_eq pending.new k
        ≡ put_at (get nat_eq pending.old) key (less (get nat_eq pending.old key)) k }
{
    if let Some(known) = pending.get_mut(&key) {
        if known.count > 1 {
            known.count -= 1;
            return;
        }
    }
    pending.remove(&key);
    map_room::give_back(pending, 0);
}
