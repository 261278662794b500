//! The lists of a machine's state: what is stored, where each write stands, and which predicates are
//! registered.
ghost use Rattle.std.specs.Prelude.{◌≡◌, ◌++◌, ℕ, List, map, nat_eq, IfOk, OnOk};
ghost use Rattle.moka_hist.specs.Finite.{Lists};
ghost use Rattle.moka_hist.specs.State.{Call, State};
ghost use Rattle.moka_hist.specs.Visits.{number_of};
ghost use Rattle.moka_table.specs.Map.{ListsPairs};
ghost use Rattle.moka_machine.specs.Machine.{MachineIs};
ghost use Rattle.moka_machine.specs.Listed.{at_place, all_places, tests_in, ArePlaces};

use crate::machine::Machine;
use moka_hist::{Listing, Owed, Place, TestList, Tests, Write};
use moka_table::{EntryList, Table};
use moka_values::Exact;
use std::alloc::{AllocError, Global};
use std::collections::VecDeque;
use std::hash::Hash;

/// The numbers of committed writes, each with the place where it stands.
pub type PlaceList = Listing<(u64, Place)>;

// The number of the call that made the owed write.
fn number_owed(owed: Owed) -> u64
    ensures { result ≡ number_of owed.write }
{
    owed.write.number()
}

/// Appends the numbers, each with the place.
fn push_numbers(
    places: &mut Vec<(u64, Place)>,
    numbers: &[u64],
    place: Place,
) -> Result<(), AllocError>
    ensures { OnOk result (places.new.items ≡ places.old.items ++ at_place place numbers.now) }
{
    for number in numbers {
        places.push((*number, place))?;
    }
    Ok(())
}

/// Appends the numbers of the writes, each with the place.
fn push_writes(
    places: &mut Vec<(u64, Place)>,
    writes: &[Write],
    place: Place,
) -> Result<(), AllocError>
    ensures { OnOk result (places.new.items
        ≡ places.old.items ++ at_place place (map number_of writes.now)) }
{
    for write in writes {
        places.push((write.number(), place))?;
    }
    Ok(())
}

/// Appends the numbers of the owed writes, each with the place.
fn push_owed(places: &mut Vec<(u64, Place)>, owed: &VecDeque<Owed>) -> Result<(), AllocError>
    ensures { OnOk result (places.new.items ≡ places.old.items
        ++ at_place Place.Owed (map (λ o. number_of o.write) owed.now.items)) }
{
    for write in owed {
        places.push((number_owed(*write), Place::Owed))?;
    }
    Ok(())
}

/// Appends the numbers of the queue's writes, each with the place.
fn push_queue(
    places: &mut Vec<(u64, Place)>,
    writes: &VecDeque<Write>,
    place: Place,
) -> Result<(), AllocError>
    ensures { OnOk result (places.new.items
        ≡ places.old.items ++ at_place place (map number_of writes.now.items)) }
{
    for write in writes {
        places.push((write.number(), place))?;
    }
    Ok(())
}

impl<K: Eq + Hash + Exact, V: Exact, E: Exact, T: Tests<K, V> + Drop> Machine<K, V, E, T> {
    /// Lists each stored pair once, in any order.
    pub fn entries(&self, alloc: Global) -> Result<EntryList<K, V>, AllocError>
        ensures { IfOk result (λ pairs. (s : State K V E) → MachineIs K.eq T.Tests self.now s
            → ListsPairs K.eq pairs s.world.table.stored) }
    {
        self.layers.table.pairs(alloc)
    }

    /// Lists each committed write by its number, with the place where it stands, ascending.
    pub fn places(&self, alloc: Global) -> Result<PlaceList, AllocError>
        ensures { IfOk result (λ places. (s : State K V E) → MachineIs K.eq T.Tests self.now s
            → ArePlaces places s) }
    {
        let mut places = self.unsorted(alloc)?;
        places.sort_unstable_by_key(|place| place.0);
        Ok(PlaceList::from_vec(places))
    }

    /// Lists the numbers of the registered predicates, in the order of registering, each with the
    /// moment at which it was registered, in nanoseconds.
    pub fn tests(&self, alloc: Global) -> Result<TestList, AllocError>
        ensures { IfOk result (λ tests. (s : State K V E) → MachineIs K.eq T.Tests self.now s
            → tests ≡ tests_in s.world.desk) }
    {
        self.layers.desk.tests(alloc)
    }

    /// Lists the places in another order, which is mostly that of the numbers: applied, logged,
    /// owed, held.
    fn unsorted(&self, alloc: Global) -> Result<Vec<(u64, Place)>, AllocError>
        ensures { IfOk result (λ places. (s : State K V E) → MachineIs K.eq T.Tests self.now s
            → (calls : List (ℕ × Call K V E)) × Lists nat_eq calls s.calls
            × (places.items ≡ all_places calls s)) }
    {
        let held = self.calls.held(alloc)?;
        let mut places = Vec::new(alloc);
        push_writes(&mut places, self.layers.desk.applied(), Place::Applied)?;
        push_queue(&mut places, self.layers.desk.logged(), Place::Logged)?;
        push_owed(&mut places, self.layers.desk.owed())?;
        push_numbers(&mut places, &held, Place::Held)?;
        Ok(places)
    }
}
