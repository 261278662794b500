//! The places of a wait list, in a chain of nodes that move without memory.

ghost use Rattle.std.specs.Prelude.{◌≡◌, ℕ, ◌+◌, ◌<◌, ◌≤◌, ◌^◌, if◌then◌else◌, map, [], ◌∷◌, ◌++◌, length, take, drop};
ghost use Rattle.moka_sync.specs.Standing.{is_standing, standing, standing_places, AreBelow};
ghost use Rattle.moka_sync.specs.Tickets.{ticket_of, tickets_len, tickets_room};
ghost use Rattle.moka_sync.specs.Waiting.{waits};

use crate::tickets::Tickets;
use std::alloc::Global;
use std::collections::LinkedList;
use std::mem;

/// A place of a call. It stands as long as the call's ticket is the one of the place.
#[derive(Clone, Copy, PartialEq, Eq, Debug)]
pub(crate) struct Place {
    pub(crate) call: u64,
    pub(crate) ticket: u64,
}

/// The place of a node that no call has.
pub(crate) const NOBODY: Place = Place { call: 0, ticket: 0 };

/// How many places that do not stand a short list may have.
const SLACK: usize = 32;

/// Takes the first node off.
pub(crate) fn take_first(places: &mut LinkedList<Place>) -> LinkedList<Place>
    requires { 0 < length places.old }
    ensures first { result ≡ take 1 places.old }
    ensures rest { places.new ≡ drop 1 places.old }
{
    let rest = places.split_off(1).unwrap();
    mem::replace(places, rest)
}

/// Moves a spare node to the end of the places, and gives it to a call.
pub(crate) fn seat(spare: &mut LinkedList<Place>, places: &mut LinkedList<Place>, place: Place)
    requires room { 0 < length spare.old }
    requires fits { length places.old + 1 < 2 ^ 63 }
    ensures spare { spare.new ≡ drop 1 spare.old }
    ensures places { places.new ≡ places.old ++ place ∷ [] }
{
    let mut node = take_first(spare);
    if let Some(first) = node.front_mut() {
        *first = place;
    }
    places.append(&mut node).unwrap();
}

/// Answers whether the place stands.
pub(crate) fn stands(tickets: &Tickets, place: &Place) -> bool
    ensures { result ≡ is_standing (ticket_of tickets.now) place.now }
{
    match tickets.get(place.call) {
        Some(ticket) => ticket == place.ticket,
        None => false,
    }
}

/// Drops the places that do not stand.
pub(crate) fn sweep(alloc: Global, tickets: &Tickets, places: &mut LinkedList<Place>)
    ensures { places.new ≡ standing_places (ticket_of tickets.now) places.old }
{
    let mut kept = LinkedList::new(alloc);
    let count = places.len();
    for _ in 0..count {
        let node = take_first(places);
        keep_standing(tickets, node, &mut kept);
    }
    mem::swap(places, &mut kept);
}

/// Drops the places that do not stand, as `sweep` does. Where there are no more places than tickets
/// each of them stands, and nothing is looked up.
pub(crate) fn sweep_some(alloc: Global, tickets: &Tickets, places: &mut LinkedList<Place>)
    requires { tickets_len tickets.now ≡ length (standing (ticket_of tickets.now) places.old) }
    ensures { places.new ≡ standing_places (ticket_of tickets.now) places.old }
{
    if places.len() > tickets.len() {
        sweep(alloc, tickets, places);
    }
}

/// Drops the places that do not stand, where they are more than those that do.
pub(crate) fn sweep_stale(alloc: Global, tickets: &Tickets, places: &mut LinkedList<Place>)
    ensures same { standing_places (ticket_of tickets.now) places.new
        ≡ standing_places (ticket_of tickets.now) places.old }
    ensures below { (next : ℕ) → AreBelow next places.old → AreBelow next places.new }
    ensures short { length places.new ≤ length places.old }
{
    if places.len() / 2 > tickets.len() + SLACK {
        sweep(alloc, tickets, places);
    }
}

/// Takes the tickets of all calls that have a place.
pub(crate) fn forget(tickets: &mut Tickets, places: &LinkedList<Place>)
    ensures gone { (call : ℕ) → ticket_of tickets.new call
        ≡ (if waits call (map (λ p. p.call) places.now) then None else ticket_of tickets.old call) }
    ensures room { tickets_room tickets.old ≤ tickets_room tickets.new }
{
    for place in places.iter() {
        tickets.remove(place.call);
    }
}

/// Puts the one node at the end of what is kept, where its place stands.
fn keep_standing(tickets: &Tickets, mut node: LinkedList<Place>, kept: &mut LinkedList<Place>)
    requires one { length node ≡ 1 }
    requires fits { length kept.old + 1 < 2 ^ 63 }
    ensures { kept.new ≡ kept.old ++ standing_places (ticket_of tickets.now) node }
{
    let standing = match node.front() {
        Some(place) => stands(tickets, place),
        None => false,
    };
    if standing {
        kept.append(&mut node).unwrap();
    }
}
