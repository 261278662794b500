//! A keeper in memory whose calls fail where a test wants it.

ghost use Rattle.std.specs.Prelude.{◌≡◌, ◌==◌, ◌↔◌, ℕ, ◌≤◌, [], ◌∷◌, ◌++◌, nat_eq, Some, IsTrue, IsErr, IfSome, IfOk, OnOk, OnErr};
ghost use Rattle.std.specs.List.{list_any};
ghost use Rattle.std.specs.HashMap.{get};
ghost use Rattle.moka_ends.specs.Faults.{HasRisen};
ghost use Rattle.moka_keepers.specs.Keeping.{HasFailed, HasPut};
ghost use Rattle.moka_keepers.specs.Writes.{made, write_of};
ghost use Rattle.moka_keepers.specs.Counts.{next_in_64};

use crate::changes::change;
use crate::{Keeper, Write};
use moka_ends::Failed;
use moka_room::vec_room;
use std::alloc::{AllocError, Global};
use std::collections::HashMap;

/// Keeps pairs in memory. Its calls of given numbers fail, and change nothing.
#[derive(Drop)]
pub struct MapKeeper {
    pairs: HashMap<u32, u32>,
    puts: Vec<Write>,
    failing: Vec<u64>,
    calls: u64,
    faults: u64,
}

impl MapKeeper {
    ghost use Rattle.moka_keepers.specs.MapKept.{IsCalled, fails_next, told_all};

    /// Makes a keeper of these pairs. The calls of the numbers in `failing` fail, where the first
    /// call is number 0, and so does a put that finds no memory.
    pub fn new(alloc: Global, pairs: HashMap<u32, u32>, failing: Vec<u64>) -> MapKeeper
        ensures told { told_all result ≡ record { pairs = Some (get nat_eq pairs); puts = Some [] } }
        ensures failing { result.failing.items ≡ failing.items }
        ensures calls { result.calls ≡ 0 }
        ensures faults { result.faults ≡ 0 }
    {
        MapKeeper {
            pairs,
            puts: Vec::new(alloc),
            failing,
            calls: 0,
            faults: 0,
        }
    }

    // Counts a fault.
    fn fault(&mut self) -> Failed
        ensures counted { self.new ≡ record self.old { faults = next_in_64 self.old.faults } }
        ensures risen { HasRisen self.old.faults self.new.faults }
        ensures faults { self.old.faults ≤ self.new.faults }
    {
        self.faults = self.faults.saturating_add(1);
        Failed
    }
}

impl Keeper for MapKeeper {
    ghost use Rattle.moka_keepers.specs.MapKept.{IsCalled, fails_next, told_all};

    ghost told = { told_all };

    ghost faults = { λ k. k.faults };

    fn put(&mut self, key: u32, value: Option<u32>) -> Result<(), Failed>
        ensures put { OnOk result
            (HasPut (told_all self.old) (write_of key value) (told_all self.new)) }
        ensures failed { OnErr result (HasFailed (told_all self.old) (write_of key value)
            (told_all self.new)) }
        ensures left { OnErr result (told_all self.new ≡ told_all self.old) }
        ensures called { IsCalled self.old self.new }
        // faults
        ensures fails { IsTrue (fails_next self.old) → IsErr result }
        ensures fault { OnErr result (HasRisen self.old.faults self.new.faults) }
        ensures calm { OnOk result (self.new.faults ≡ self.old.faults) }
        ensures faults { self.old.faults ≤ self.new.faults }
    {
        if is_due(&mut self.calls, &self.failing) {
            return Err(self.fault());
        }
        match keep(&mut self.pairs, &mut self.puts, Write { key, value }) {
            Ok(()) => Ok(()),
            Err(_) => Err(self.fault()),
        }
    }

    fn get(&mut self, key: u32) -> Result<Option<u32>, Failed>
        ensures value { IfOk result (λ value. value ≡ get nat_eq self.old.pairs key) }
        ensures stays { told_all self.new ≡ told_all self.old }
        ensures called { IsCalled self.old self.new }
        // faults
        ensures fails { IsErr result ↔ IsTrue (fails_next self.old) }
        ensures fault { OnErr result (HasRisen self.old.faults self.new.faults) }
        ensures calm { IfOk result (λ value. self.new.faults ≡ self.old.faults) }
        ensures faults { self.old.faults ≤ self.new.faults }
    {
        if is_due(&mut self.calls, &self.failing) {
            return Err(self.fault());
        }
        Ok(self.pairs.get(&key).copied())
    }
}

// Whether the call of this number is to fail, from 0, and counts it.
fn is_due(calls: &mut u64, failing: &[u64]) -> bool
    ensures due { result ≡ list_any (λ call. call == calls.old) failing.now }
    ensures counted { calls.new ≡ next_in_64 calls.old }
{
    let call = *calls;
    *calls = call.saturating_add(1);
    failing.contains(&call)
}

// Makes the write, and notes it after all others. Where there is no memory, nothing changes.
fn keep(
    pairs: &mut HashMap<u32, u32>,
    puts: &mut Vec<Write>,
    write: Write,
) -> Result<(), AllocError>
    ensures made { OnOk result ((q : ℕ) → get nat_eq pairs.new q ≡ made (get nat_eq pairs.old) write q) }
    ensures noted { OnOk result (puts.new.items ≡ puts.old.items ++ write ∷ []) }
    ensures stays { OnErr result ((q : ℕ) → get nat_eq pairs.new q ≡ get nat_eq pairs.old q) }
    ensures same { OnErr result (puts.new.items ≡ puts.old.items) }
{
    vec_room::reserve(puts, 1)?;
    change(pairs, write.key, write.value)?;
    match puts.push(write) {
        Ok(()) => Ok(()),
        Err(_) => unreachable!(),
    }
}
