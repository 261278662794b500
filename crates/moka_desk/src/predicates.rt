//! The predicates that are registered, and their ids.

ghost use Rattle.std.specs.Prelude.{◌≡◌, ◌+◌, ℕ, suc, [], None, List, map, filter, is_some, IfOk, IfSome, OnOk, nat_eq, ◌==◌, false};
ghost use Rattle.std.specs.List.{list_any};
ghost use Rattle.std.specs.Option.{option_map, option_map_or};
ghost use Rattle.std.specs.HashMap.{get};
ghost use Rattle.moka_hist.specs.Visits.{free_id, named_of};
ghost use Rattle.moka_desk.specs.Predicates.{hit_by, is_over_by, left_by, left_by_all, strikes_as};
ghost use Rattle.moka_desk.specs.Predicates.{registered_under, with_registered, without_named};
ghost use Rattle.moka_desk.specs.Predicates.{HasPlace, PredicatePart, PredicatesAre};

use moka_hist::{Ids, Registered, Stored, Tests};
use moka_room::{map_room, vec_room};
use std::alloc::{AllocError, Global};
use std::collections::HashMap;

/// Registered predicates, oldest first, and each by its id. They stand by moment: none is of an
/// earlier one than a predicate before it.
#[derive(Drop)]
pub(crate) struct Predicates {
    pub(crate) registered: Vec<Registered>,
    pub(crate) ids: HashMap<u128, Registered>,
}

impl Predicates {
    /// None is registered.
    pub(crate) fn new(alloc: Global) -> Self
        ensures { (clock : ℕ) → PredicatesAre result (record { clock = clock; registered = [] }) }
    {
        Predicates {
            registered: Vec::new(alloc),
            ids: HashMap::new(alloc),
        }
    }

    /// Makes room for one more.
    pub(crate) fn reserve(&mut self) -> Result<(), AllocError>
        ensures same { (p : PredicatePart) → PredicatesAre self.old p → PredicatesAre self.new p }
        ensures place { OnOk result (HasPlace self.new) }
    {
        vec_room::reserve(&mut self.registered, 1)?;
        map_room::reserve(&mut self.ids, 1)
    }

    /// Adds one at the clock's moment, for which there is room, under an id of no other.
    pub(crate) fn push(&mut self, one: Registered)
        requires place { HasPlace self.old }
        requires free { get nat_eq self.old.ids one.id ≡ None }
        ensures { (p : PredicatePart) → PredicatesAre self.old p → one.moment ≡ p.clock
            → PredicatesAre self.new (with_registered p one) }
    {
        self.registered.push_reserved(one);
        match self.ids.insert(one.id, one) {
            Ok(_) => {}
            Err(_) => unreachable!(),
        }
    }

    /// Draws ids, at most so many, and gives the first under which none is registered.
    pub(crate) fn draw<G: Ids>(&self, ids: &mut G, most: u32) -> Option<u128>
        ensures free { (p : PredicatePart) → PredicatesAre self.now p
            → result ≡ option_map (G.stream ids.old)
            (free_id p.registered (G.stream ids.old) 0 most) }
        ensures others { (p : PredicatePart) → PredicatesAre self.now p → (n : ℕ)
            → G.stream ids.new n ≡ G.stream ids.old (option_map_or suc
            (free_id p.registered (G.stream ids.old) 0 most) most + n) }
        ensures unused { IfSome result (λ id. get nat_eq self.now.ids id ≡ None) }
    {
        for _ in 0..most {
            let id = ids.next_id();
            if !self.ids.contains_key(&id) {
                return Some(id);
            }
        }
        None
    }

    /// Whether one hits the record. They are asked from the latest back to the moment of the
    /// record's last write.
    #[inline(never)]
    pub(crate) fn hits<K, V, T: Tests<K, V>>(&self, tests: &T, key: &K, stored: &Stored<V>) -> bool
        ensures { (p : PredicatePart) → PredicatesAre self.now p → result ≡ list_any
            (hit_by (T.hides tests.now) key.now stored.now.value stored.now.modified)
            p.registered }
    {
        for place in (0..self.registered.len()).rev() {
            let latest = &self.registered[place];
            if latest.moment < stored.modified {
                return false;
            }
            if tests.does_hide(latest.test, key, &stored.value) {
                return true;
            }
        }
        false
    }

    /// Those that are earlier than the clock and than the earliest moment that is pending, if any
    /// is: each by its id and moment.
    pub(crate) fn over(
        &self,
        clock: u64,
        pending: Option<u64>,
    ) -> Result<Vec<(u128, u64)>, AllocError>
        ensures { IfOk result (λ over. over.items
            ≡ map named_of (filter (is_over_by clock pending) self.now.registered.items)) }
    {
        let alloc = *self.registered.allocator();
        let mut over = Vec::new(alloc);
        for registered in &self.registered {
            if is_over(registered.moment, clock, pending) {
                over.push((registered.id, registered.moment))?;
            }
        }
        Ok(over)
    }

    /// Whether the predicate that is registered under this id since this moment hits the record.
    pub(crate) fn strikes<K, V, T: Tests<K, V>>(
        &self,
        tests: &T,
        id: u128,
        moment: u64,
        key: &K,
        stored: &Stored<V>,
    ) -> bool
        ensures { result ≡ strikes_as (T.hides tests.now) key.now stored.now.value
            stored.now.modified moment (get nat_eq self.now.ids id) }
    {
        match self.ids.get(&id) {
            Some(registered) => registered.moment == moment
                && is_hit_by(registered, tests, key, stored),
            None => false,
        }
    }

    /// Lets those leave that are registered under such an id since such a moment.
    pub(crate) fn retire(&mut self, leaving: &[(u128, u64)])
        ensures { (p : PredicatePart) → PredicatesAre self.old p
            → PredicatesAre self.new (without_named p leaving.now) }
    {
        forget_all(&mut self.ids, leaving);
        keep_known(&mut self.registered, &self.ids);
    }
}

// Whether the predicate hits the record: it was registered no earlier than the record was last
// written, and holds on it.
fn is_hit_by<K, V, T: Tests<K, V>>(
    registered: &Registered,
    tests: &T,
    key: &K,
    stored: &Stored<V>,
) -> bool
    ensures { result ≡ hit_by (T.hides tests.now) key.now stored.now.value stored.now.modified
        registered.now }
{
    stored.modified <= registered.moment && tests.does_hide(registered.test, key, &stored.value)
}

// Whether a predicate of this moment is over at the clock, where this is the earliest moment that
// is pending.
fn is_over(moment: u64, clock: u64, pending: Option<u64>) -> bool
    ensures { (id test : ℕ) → result ≡ is_over_by clock pending
        (record { id = id; test = test; moment = moment }) }
{
    if clock <= moment {
        return false;
    }
    match pending {
        Some(taken) => moment < taken,
        None => true,
    }
}

// The predicates of these ids and moments are found no longer.
fn forget_all(ids: &mut HashMap<u128, Registered>, leaving: &[(u128, u64)])
    ensures { (registered : List Registered)
        → ((n : ℕ) → get nat_eq ids.old n ≡ registered_under registered n)
        → (n : ℕ) → get nat_eq ids.new n ≡ left_by_all leaving.now (registered_under registered n) }
{
    for named in leaving {
        forget(ids, named.0, named.1);
    }
}

// The predicate of this id, if it is of this moment, is found no longer.
fn forget(ids: &mut HashMap<u128, Registered>, id: u128, moment: u64)
    ensures { (n : ℕ) → get nat_eq ids.new n ≡ left_by id moment n (get nat_eq ids.old n) }
{
    if is_since(ids, id, moment) {
        let _ = ids.remove(&id);
    }
}

// Whether a predicate is found under this id that is of this moment.
fn is_since(ids: &HashMap<u128, Registered>, id: u128, moment: u64) -> bool
    ensures { result ≡ option_map_or (λ r. r.moment == moment) (get nat_eq ids.now id) false }
{
    match ids.get(&id) {
        Some(registered) => registered.moment == moment,
        None => false,
    }
}

// Those stay that are found by their ids.
fn keep_known(registered: &mut Vec<Registered>, ids: &HashMap<u128, Registered>)
    ensures { registered.new.items
        ≡ filter (λ r. is_some (get nat_eq ids.now r.id)) registered.old.items }
{
    registered.retain(|one| ids.contains_key(&one.id));
}
