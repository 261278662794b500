//! A call that runs, and the places of calls by their numbers: each empty, or one in which a call
//! runs.
ghost use Rattle.std.specs.Prelude.{◌≡◌, ℕ, ◌<◌, ◌==◌, ◌++◌, cond, Some, None, IsSome, nat_eq, option_to_list, IfOk, OnOk, OnSome};
ghost use Rattle.std.specs.Option.{option_and_then};
ghost use Rattle.std.specs.HashMap.{get, spare};
ghost use Rattle.moka_machine.specs.Calls.{emptied, runs_in, held_in, due_in, of_others};

use crate::machine::TheCall;
use moka_hist::Visit;
use moka_init::Flow;
use moka_values::Exact;
use std::alloc::{AllocError, Global};
use std::collections::HashMap;

/// A call that runs: its flow, which stays where it is from step to step, and its table operation
/// where one was begun.
#[derive(Drop)]
pub(crate) struct Running<K, V, E> {
    pub(crate) flow: Box<Flow<K, V, E>>,
    pub(crate) begun: Option<TheCall<K, V>>,
}

/// Gives the call this place, for which there is room.
pub(crate) fn put<K: Drop, V: Drop, E: Drop>(
    places: &mut HashMap<u64, Option<Running<K, V, E>>>,
    call: u64,
    place: Option<Running<K, V, E>>,
)
    requires { 0 < spare places.old }
    ensures { (n : ℕ) → get nat_eq places.new n
        ≡ cond (call == n) (Some place) (get nat_eq places.old n) }
{
    match places.insert(call, place) {
        Ok(before) => drop(before),
        Err(_) => unreachable!(),
    }
}

/// Gives the call this place, for which there is room, or none.
pub(crate) fn set_place<K: Drop, V: Drop, E: Drop>(
    places: &mut HashMap<u64, Option<Running<K, V, E>>>,
    call: u64,
    place: Option<Option<Running<K, V, E>>>,
)
    requires { 0 < spare places.old }
    ensures { (n : ℕ) → get nat_eq places.new n
        ≡ cond (call == n) place (get nat_eq places.old n) }
{
    match place {
        Some(place) => put(places, call, place),
        None => give_up(places, call),
    }
}

/// Gives the place of the call up, if it has one. Nothing is hashed where nobody has one.
pub(crate) fn give_up<K: Drop, V: Drop, E: Drop>(
    places: &mut HashMap<u64, Option<Running<K, V, E>>>,
    call: u64,
)
    ensures { (n : ℕ) → get nat_eq places.new n
        ≡ cond (call == n) None (get nat_eq places.old n) }
{
    if places.is_empty() {
        return;
    }
    drop(places.remove(&call));
}

/// Takes the newest call out, and leaves its place, if it has one.
#[inline(always)]
pub(crate) fn take_newest<K, V, E>(
    newest: &mut Option<Option<Running<K, V, E>>>,
) -> Option<Running<K, V, E>>
    ensures taken { result ≡ runs_in newest.old }
    ensures left { newest.new ≡ emptied newest.old }
{
    match newest {
        Some(place) => place.take(),
        None => None,
    }
}

/// Takes a running call out from among these, and leaves its place.
#[inline(always)]
pub(crate) fn take_among<K, V, E>(
    places: &mut HashMap<u64, Option<Running<K, V, E>>>,
    call: u64,
) -> Option<Running<K, V, E>>
    ensures taken { result ≡ runs_in (get nat_eq places.old call) }
    ensures rest { (n : ℕ) → get nat_eq places.new n
        ≡ cond (call == n) (emptied (get nat_eq places.old call)) (get nat_eq places.old n) }
    ensures place { OnSome result (IsSome (get nat_eq places.new call)) }
{
    match places.get_mut(&call) {
        Some(place) => place.take(),
        None => None,
    }
}

/// Puts a call back in its place among these.
#[inline(always)]
pub(crate) fn put_back_among<K: Drop, V: Drop, E: Drop>(
    places: &mut HashMap<u64, Option<Running<K, V, E>>>,
    call: u64,
    running: Running<K, V, E>,
)
    requires { IsSome (get nat_eq places.old call) }
    ensures { (n : ℕ) → get nat_eq places.new n
        ≡ cond (call == n) (Some (Some running)) (get nat_eq places.old n) }
{
    match places.get_mut(&call) {
        Some(place) => drop(place.replace(running)),
        None => unreachable!(),
    }
}

/// Appends this one, if it is one.
pub(crate) fn push_some<T: Drop>(items: &mut Vec<T>, item: Option<T>) -> Result<(), AllocError>
    ensures { OnOk result (items.new.items ≡ items.old.items ++ option_to_list item) }
{
    if let Some(item) = item {
        items.push(item)?;
    }
    Ok(())
}

/// The number of the write that the newest call holds, if it runs and holds one.
pub(crate) fn newest_held<K, V, E>(
    alloc: Global,
    newest: &Option<Option<Running<K, V, E>>>,
) -> Result<Vec<u64>, AllocError>
    ensures { IfOk result (λ numbers.
        numbers.items ≡ option_to_list (option_and_then held_in newest.now)) }
{
    list_of(alloc, held_if(newest))
}

// The list of this one, if it is one.
fn list_of<T: Drop>(alloc: Global, item: Option<T>) -> Result<Vec<T>, AllocError>
    ensures { IfOk result (λ items. items.items ≡ option_to_list item) }
{
    let mut items = Vec::new(alloc);
    if let Some(item) = item {
        items.push(item)?;
    }
    Ok(items)
}

// The number of the write that the call of this place holds, if it is a place where one runs.
fn held_if<K, V, E>(place: &Option<Option<Running<K, V, E>>>) -> Option<u64>
    ensures { result ≡ option_and_then held_in place.now }
{
    match place {
        Some(place) => held_number(place),
        None => None,
    }
}

/// The visit that opens the notice of the newest call, where it runs and that is due.
pub(crate) fn newest_due<K: Exact, V: Exact, E: Exact>(
    alloc: Global,
    newest: &Option<Option<Running<K, V, E>>>,
) -> Result<Vec<Visit<K, V, E>>, AllocError>
    ensures { IfOk result (λ visits.
        visits.items ≡ option_to_list (option_and_then due_in newest.now)) }
{
    match due_if(newest) {
        Ok(due) => list_of(alloc, due),
        Err(e) => Err(e),
    }
}

// The visit that opens the notice of the call of this place, if it is a place, and that is due.
fn due_if<K: Exact, V: Exact, E: Exact>(
    place: &Option<Option<Running<K, V, E>>>,
) -> Result<Option<Visit<K, V, E>>, AllocError>
    ensures { IfOk result (λ due. due ≡ option_and_then due_in place.now) }
{
    match place {
        Some(place) => due_at(place),
        None => Ok(None),
    }
}

/// The visit that opens the notice of the call of this place, where that is due.
pub(crate) fn due_at<K: Exact, V: Exact, E: Exact>(
    place: &Option<Running<K, V, E>>,
) -> Result<Option<Visit<K, V, E>>, AllocError>
    ensures { IfOk result (λ due. due ≡ due_in place.now) }
{
    match place {
        Some(running) => running.flow.due(),
        None => Ok(None),
    }
}

/// The number of the write that the call of this place holds, where one runs.
pub(crate) fn held_number<K, V, E>(place: &Option<Running<K, V, E>>) -> Option<u64>
    ensures { result ≡ held_in place.now }
{
    match place {
        Some(running) => running.flow.held().map(|write| write.number()),
        None => None,
    }
}

/// The number of the write that the call of this place holds, where one runs and isn't the newest.
pub(crate) fn other_held<K, V, E>(
    newest: u64,
    call: u64,
    place: &Option<Running<K, V, E>>,
) -> Option<u64>
    ensures { result ≡ of_others newest held_in (call, place.now) }
{
    match call == newest {
        true => None,
        false => held_number(place),
    }
}

/// The visit that opens the notice of the call of this place, where that is due and the call isn't
/// the newest.
pub(crate) fn other_due<K: Exact, V: Exact, E: Exact>(
    newest: u64,
    call: u64,
    place: &Option<Running<K, V, E>>,
) -> Result<Option<Visit<K, V, E>>, AllocError>
    ensures { IfOk result (λ due. due ≡ of_others newest due_in (call, place.now)) }
{
    match call == newest {
        true => Ok(None),
        false => due_at(place),
    }
}
