//! The loads that calls own and wait for.

ghost use Rattle.std.specs.Prelude.{◌≡◌, ℕ, ◌+◌, ◌-◌, ◌≤◌, ◌<◌, ◌==◌, ◌&&◌, ◌^◌, cond, Option, Some, None, true, is_some, unwrap_or, nat_eq, nat_lt, IsNone, OnOk, OnErr, IfOk, if◌then◌else◌};
ghost use Rattle.std.specs.Bool.{OnTrue};
ghost use Rattle.std.specs.Option.{option_and_then, option_map};
ghost use Rattle.std.specs.HashMap.{get, spare, hash_map_len};
ghost use Rattle.moka_needs.specs.Needs.{ending_of};
ghost use Rattle.moka_desk.specs.Readers.{has_content, is_copied, waiting_for};

use crate::maps::{at, put};
use moka_hist::{Load, Settled};
use moka_needs::Ending;
use moka_room::map_room;
use moka_values::Exact;
use std::alloc::{AllocError, Global};
use std::collections::HashMap;
use std::hash::{BuildHasher, Hash};

/// The owners of loads with what each owns, those that wait for an owner, how many wait for each,
/// and how owners ended that somebody has still to read. Each owner has the place of its
/// settlement. As many wait for an owner as have joined it.
#[derive(Drop)]
pub(crate) struct Loads<K: Eq + Hash, V, E, S: BuildHasher> {
    pub(crate) owners: HashMap<Load<K>, u64, S>,
    pub(crate) owning: HashMap<u64, Load<K>>,
    pub(crate) joined: HashMap<u64, u64>,
    pub(crate) readers: HashMap<u64, u64>,
    pub(crate) settled: HashMap<u64, Settled<V, E>>,
    ghost settlements_have_places: { hash_map_len owning ≤ spare settled },
    ghost all_are_counted: { (n : ℕ) → unwrap_or (get nat_eq readers n) 0
        ≡ waiting_for joined.entries n },
}

impl<K: Eq + Hash + Exact, V: Drop, E: Drop, S: BuildHasher> Loads<K, V, E, S> {
    ghost use Rattle.moka_hist.specs.Finite.{load_eq, put_at, put_key};
    ghost use Rattle.moka_hist.specs.State.{DeskPart};
    ghost use Rattle.moka_hist.specs.declared.loads.Load.{Load as load_of};
    ghost use Rattle.moka_hist.specs.declared.writes.Write.{Write};
    ghost use Rattle.moka_hist.specs.Visits.{claimed_alone, read, readers_without, settled_without, settled_as, owners_without, settlement_for};
    ghost use Rattle.moka_hist.specs.Dropping.{left};
    ghost use Rattle.moka_desk.specs.Loads.{load_part, LoadsAre, LoadsBecome, LoadsStay, LoadsMake};

    /// Nothing is owned, and nobody waits. Loads are hashed by this hasher.
    pub(crate) fn new(alloc: Global, hasher: S) -> Self
        ensures { LoadsAre K.eq result (record {
          owners = λ _. None;
          owning = λ _. None;
          joined = λ _. None;
          readers = λ _. 0;
          settled = λ _. None;
        }) }
    {
        Loads {
            owners: HashMap::with_hasher(alloc, hasher),
            owning: HashMap::new(alloc),
            joined: HashMap::new(alloc),
            readers: HashMap::new(alloc),
            settled: HashMap::new(alloc),
        }
    }

    /// The owner of the load, if there is one.
    pub(crate) fn owner_of(&self, load: &Load<K>) -> Option<u64>
        ensures { result ≡ get (load_eq K.eq) self.now.owners load.now }
    {
        self.owners.get(load).copied()
    }

    /// Makes the call, which owns nothing, the owner of a load that nobody owns. Answers whether
    /// another call owns it; nothing has changed then.
    #[cold]
    #[inline(never)]
    pub(crate) fn claim_alone(&mut self, call: u64, load: Load<K>) -> Result<bool, AllocError>
        requires idle { get nat_eq self.old.owning call ≡ None }
        ensures finds { IfOk result (λ owned. (w : DeskPart K V E) →
            LoadsAre K.eq self.old (load_part w) → owned ≡ is_some (w.owners load)) }
        ensures ok { OnOk result (LoadsMake K.eq self.old
            (λ w. load_part (claimed_alone K.eq w call load (w.owners load))) self.new) }
        ensures err { OnErr result (LoadsStay K.eq self.old self.new) }
        ensures needs { OnErr result ((w : DeskPart K V E) → LoadsAre K.eq self.old (load_part w)
            → IsNone (w.owners load)) }
    {
        if self.owners.contains_key(&load) {
            drop(load);
            return Ok(true);
        }
        self.own(call, load)?;
        Ok(false)
    }

    /// Makes room for one more call that waits for an owner.
    pub(crate) fn make_room_to_join(&mut self) -> Result<(), AllocError>
        ensures same { LoadsStay K.eq self.old self.new }
        ensures joined { (n : ℕ) → get nat_eq self.new.joined n ≡ get nat_eq self.old.joined n }
        ensures room { OnOk result ((0 < spare self.new.joined) × (0 < spare self.new.readers)) }
    {
        map_room::reserve(&mut self.joined, 1)?;
        map_room::reserve(&mut self.readers, 1)
    }

    /// Lets the call, which waits for nobody, wait for the owner. There is room for it.
    pub(crate) fn join(&mut self, call: u64, owner: u64)
        requires apart { get nat_eq self.old.joined call ≡ None }
        requires room { (0 < spare self.old.joined) × (0 < spare self.old.readers) }
        ensures makes { LoadsBecome K.eq self.old
            (λ p. record p {
              joined = put_at p.joined call (Some owner);
              readers = put_at p.readers owner (p.readers owner + 1);
            }) self.new }
    {
        let _all = self.joined.len();
        count_one(&mut self.readers, owner);
        put(&mut self.joined, call, owner);
    }

    /// Makes the call, which owns nothing, the owner of the load, which has no owner.
    pub(crate) fn own(&mut self, call: u64, load: Load<K>) -> Result<(), AllocError>
        requires idle { get nat_eq self.old.owning call ≡ None }
        requires free { get (load_eq K.eq) self.old.owners load ≡ None }
        ensures ok { OnOk result (LoadsBecome K.eq self.old
            (λ p. record p {
              owners = put_key (load_eq K.eq) p.owners load (Some call);
              owning = put_at p.owning call (Some load);
            }) self.new) }
        ensures err { OnErr result (LoadsStay K.eq self.old self.new) }
    {
        self.make_room()?;
        let own = copy_of(&load)?;
        put(&mut self.owners, own, call);
        put(&mut self.owning, call, load);
        Ok(())
    }

    // Makes room for one more owner, with the place of its settlement.
    fn make_room(&mut self) -> Result<(), AllocError>
        ensures same { LoadsStay K.eq self.old self.new }
        ensures room { OnOk result ((0 < spare self.new.owners) × (0 < spare self.new.owning)
            × (hash_map_len self.new.owning < spare self.new.settled)) }
        ensures owners { (l : load_of K)
            → get (load_eq K.eq) self.new.owners l ≡ get (load_eq K.eq) self.old.owners l }
        ensures owning { (n : ℕ) → get nat_eq self.new.owning n ≡ get nat_eq self.old.owning n }
    {
        map_room::reserve(&mut self.settled, self.owning.len() + 1)?;
        map_room::reserve(&mut self.owners, 1)?;
        map_room::reserve(&mut self.owning, 1)
    }

    /// Reads how the owner ended that the call waits for: None where it has not, or the call waits
    /// for nobody. A call that has read it waits no longer, and the last one takes it away. For want
    /// of memory nothing was read.
    pub(crate) fn read(&mut self, call: u64) -> Result<Option<Settled<V, E>>, AllocError>
    where
        V: Exact,
        E: Exact,
        ensures finds { IfOk result (λ found. (w : DeskPart K V E) →
            LoadsAre K.eq self.old (load_part w) → found ≡ settlement_for w call) }
        ensures ok { OnOk result (LoadsMake K.eq self.old (λ w. load_part (read w call)) self.new) }
        ensures err { OnErr result (self.new ≡ self.old) }
        ensures needs { OnErr result (is_copied (option_and_then (get nat_eq self.old.settled)
            (get nat_eq self.old.joined call)) ≡ true) }
    {
        match self.settlement_for(call)? {
            Some(settlement) => {
                self.stop_waiting(call);
                Ok(Some(settlement))
            }
            None => Ok(None),
        }
    }

    /// Ends what the call owns, and keeps how it ended for those that wait for it.
    pub(crate) fn settle(&mut self, call: u64, with: Settled<V, E>)
        ensures { LoadsMake K.eq self.old (λ w. load_part (settled_as w call with)) self.new }
    {
        let awaited = self.readers_of(call) > 0;
        self.end(call, with, awaited);
    }

    /// The call waits for nobody and owns nothing any more; those that wait for it read that it was
    /// dropped.
    pub(crate) fn leave(&mut self, call: u64)
        ensures { (w : DeskPart K V E) (held : Option Write) → LoadsAre K.eq self.old (load_part w)
            → LoadsAre K.eq self.new (load_part (left w call held)) }
    {
        let awaited = self.readers_of(call) > 0;
        self.stop_waiting(call);
        self.end(call, Settled::Aborted, awaited);
    }

    /// How the owner ended that the call waits for, if it has, but for the value and the error.
    pub(crate) fn ending_for(&self, call: u64) -> Option<Ending>
        ensures { result ≡ option_map ending_of (option_and_then (get nat_eq self.now.settled)
            (get nat_eq self.now.joined call)) }
    {
        let owner = at(&self.joined, call)?;
        match at(&self.settled, *owner) {
            Some(settlement) => Some(ending_of(settlement)),
            None => None,
        }
    }

    // How the owner ended that the call waits for, if it has.
    fn settlement_for(&self, call: u64) -> Result<Option<Settled<V, E>>, AllocError>
    where
        V: Exact,
        E: Exact,
        ensures found { IfOk result (λ found. found ≡ option_and_then (get nat_eq self.now.settled)
            (get nat_eq self.now.joined call)) }
        ensures needs { OnErr result (is_copied (option_and_then (get nat_eq self.now.settled)
            (get nat_eq self.now.joined call)) ≡ true) }
    {
        let Some(owner) = at(&self.joined, call) else {
            return Ok(None);
        };
        match at(&self.settled, *owner) {
            Some(settlement) => {
                let copy = settlement_copy(settlement)?;
                Ok(Some(copy))
            }
            None => Ok(None),
        }
    }

    // The call waits no longer.
    fn stop_waiting(&mut self, call: u64)
        ensures { LoadsMake K.eq self.old
            (λ w. record (load_part w) {
              joined = put_at w.joined call None;
              readers = readers_without w call;
              settled = settled_without w call;
            }) self.new }
    {
        if let Some(owner) = self.joined.remove(&call) {
            release(&mut self.readers, &mut self.settled, owner);
        }
    }

    // Ends what the call owns. Where somebody waits for it, that it ended so is kept.
    fn end(&mut self, call: u64, with: Settled<V, E>, awaited: bool)
        ensures { LoadsMake K.eq self.old
            (λ w. record (load_part w) {
              owners = owners_without w call;
              owning = put_at w.owning call None;
              settled = λ owner. cond (is_some (w.owning call) && awaited && call == owner)
                  (Some with) (w.settled owner);
            }) self.new }
    {
        let owned = self.disown(call);
        if owned && awaited {
            put(&mut self.settled, call, with);
        } else {
            drop(with);
        }
    }

    // The call owns nothing from then on. Answers whether it owned a load, whose settlement then
    // has a place.
    fn disown(&mut self, call: u64) -> bool
        ensures owned { result ≡ is_some (get nat_eq self.old.owning call) }
        ensures room { OnTrue result (hash_map_len self.new.owning < spare self.new.settled) }
        ensures makes { LoadsMake K.eq self.old
            (λ w. record (load_part w) {
              owners = owners_without w call;
              owning = put_at w.owning call None;
            }) self.new }
    {
        match self.owning.remove(&call) {
            Some(load) => {
                let _ = self.owners.remove(&load);
                true
            }
            None => false,
        }
    }

    /// How many wait for the owner: no more than the entries of a map.
    pub(crate) fn readers_of(&self, owner: u64) -> u64
        ensures value { result ≡ unwrap_or (get nat_eq self.now.readers owner) 0 }
        ensures small { result < 2 ^ 63 }
    {
        let _all = self.joined.len();
        count_in(&self.readers, owner)
    }
}

// One that waited for the owner is gone; the last takes away how it ended.
fn release<V: Drop, E: Drop>(
    readers: &mut HashMap<u64, u64>,
    settled: &mut HashMap<u64, Settled<V, E>>,
    owner: u64,
)
    ensures readers { (n : ℕ) → unwrap_or (get nat_eq readers.new n) 0 ≡ cond (owner == n)
        (unwrap_or (get nat_eq readers.old owner) 0 - 1) (unwrap_or (get nat_eq readers.old n) 0) }
    ensures settled { (n : ℕ) → get nat_eq settled.new n
        ≡ cond (unwrap_or (get nat_eq readers.old owner) 0 == 1 && owner == n)
        None (get nat_eq settled.old n) }
    ensures spare { spare settled.old ≤ spare settled.new }
{
    if count_off(readers, owner) {
        return;
    }
    if let Some(1) = readers.remove(&owner) {
        drop(settled.remove(&owner));
    }
}

// One that waited for the owner is gone, where another one waits for it: so many are counted where
// they stand. Answers whether another one does; nothing has changed if not.
fn count_off(readers: &mut HashMap<u64, u64>, owner: u64) -> bool
    ensures many { result ≡ nat_lt 1 (unwrap_or (get nat_eq readers.old owner) 0) }
    ensures readers { (n : ℕ) → unwrap_or (get nat_eq readers.new n) 0
        ≡ cond (result && owner == n) (unwrap_or (get nat_eq readers.old owner) 0 - 1)
        (unwrap_or (get nat_eq readers.old n) 0) }
{
    match readers.get_mut(&owner) {
        Some(waiting) => lessen(waiting),
        None => false,
    }
}

// Takes one off, where it's more than one. Answers whether it was.
fn lessen(count: &mut u64) -> bool
    ensures many { result ≡ nat_lt 1 count.old }
    ensures less { count.new ≡ cond result (count.old - 1) count.old }
{
    if *count > 1 {
        *count -= 1;
        return true;
    }
    false
}

// One more waits for the owner. There is room for it.
fn count_one(readers: &mut HashMap<u64, u64>, owner: u64)
    requires room { 0 < spare readers.old }
    requires few { unwrap_or (get nat_eq readers.old owner) 0 < 2 ^ 63 }
    ensures { (n : ℕ) → unwrap_or (get nat_eq readers.new n) 0 ≡ cond (owner == n)
        (unwrap_or (get nat_eq readers.old owner) 0 + 1) (unwrap_or (get nat_eq readers.old n) 0) }
{
    if let Some(waiting) = readers.get_mut(&owner) {
        *waiting += 1;
        return;
    }
    put(readers, owner, 1);
}

// How many wait for the owner, by these counts.
fn count_in(readers: &HashMap<u64, u64>, owner: u64) -> u64
    ensures { result ≡ unwrap_or (get nat_eq readers.now owner) 0 }
{
    at(readers, owner).copied().unwrap_or(0)
}

// An equal settlement.
fn settlement_copy<V: Exact, E: Exact>(
    settlement: &Settled<V, E>,
) -> Result<Settled<V, E>, AllocError>
    ensures copy { IfOk result (λ copy. copy ≡ settlement.now) }
    ensures needs { OnErr result (has_content settlement.now ≡ true) }
{
    match settlement {
        Settled::NotYet => Ok(Settled::NotYet),
        Settled::Ready(value) => {
            let copy = value.clone()?;
            Ok(Settled::Ready(copy))
        }
        Settled::Err(error) => {
            let copy = error.clone()?;
            Ok(Settled::Err(copy))
        }
        Settled::Nothing => Ok(Settled::Nothing),
        Settled::Aborted => Ok(Settled::Aborted),
    }
}

// How an owner ended, but for the value and the error.
fn ending_of<V, E>(settlement: &Settled<V, E>) -> Ending
    ensures { result ≡ ending_of settlement.now }
{
    match settlement {
        Settled::NotYet => Ending::NotYet,
        Settled::Ready(_) => Ending::Ready,
        Settled::Err(_) => Ending::Err,
        Settled::Nothing => Ending::Nothing,
        Settled::Aborted => Ending::Aborted,
    }
}

// An equal load.
fn copy_of<K: Eq + Hash + Exact>(load: &Load<K>) -> Result<Load<K>, AllocError>
    ensures { IfOk result (λ copy. copy ≡ load.now) }
{
    let key = load.key.clone()?;
    Ok(Load {
        key,
        kind: load.kind,
    })
}
