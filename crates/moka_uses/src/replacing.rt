//! A caller whose listener hears of the value that a second insert replaces.
ghost use Rattle.std.specs.Prelude.{◌≡◌, IfOk};
ghost use Rattle.moka_uses.specs.Replaced.{IsReadReplaced, looking_again, replacing_by};

use crate::reading::{build, found, run_all};
use moka_hist::{Event, Rules, Start, Told};
use moka_values::Exact;
use std::alloc::{AllocError, Global};
use std::hash::Hash;

/// A listener hears of each record that leaves, and no other rule is set.
const LISTENING: Rules = Rules {
    max_capacity: None,
    time_to_live: None,
    time_to_idle: None,
    listener: true,
    closures: false,
};

/// The events that store the first value under the key, by call 1, and the second in its place, by
/// call 2, which goes on once the listener is told to be done with the first.
fn replacing<K: Drop, V: Drop>(
    alloc: Global,
    key: K,
    again: K,
    first: V,
    value: V,
) -> Result<Vec<Event<K, V, u16>>, AllocError>
    ensures { IfOk result (λ events. events.items ≡ replacing_by key again first value) }
{
    let begins = Start::Insert { key, value: first };
    let replaces = Start::Insert { key: again, value };
    let mut events = Vec::new(alloc);
    events.push(Event::Start { start: begins })?;
    events.push(Event::Poll { call: 1 })?;
    events.push(Event::Start { start: replaces })?;
    events.push(Event::Poll { call: 2 })?;
    events.push(Event::Tell {
        call: 2,
        answer: Told::Done,
    })?;
    events.push(Event::Poll { call: 2 })?;
    Ok(events)
}

/// The events that look the key up, by call 3.
fn looking_again<K: Drop, V: Drop>(
    alloc: Global,
    key: K,
) -> Result<Vec<Event<K, V, u16>>, AllocError>
    ensures { IfOk result (λ events. events.items ≡ looking_again key) }
{
    let start = Start::Get { key };
    let mut events = Vec::new(alloc);
    events.push(Event::Start { start })?;
    events.push(Event::Poll { call: 3 })?;
    Ok(events)
}

/// Builds a cache with a listener. Stores one value under the key and then another in its place, of
/// which the listener hears, and tells that it is done. In a second run looks the key up. Answers
/// what that found: the second value.
pub fn read_replaced<K: Eq + Hash + Exact, V: Exact>(
    alloc: Global,
    key: K,
    first: V,
    value: V,
) -> Result<Option<V>, AllocError>
    ensures { IfOk result (λ found. IsReadReplaced K.eq key first value found) }
{
    moka_laws::reached_by_lawful_run::<K, V, u16>();
    moka_callers::inserted_is_found::<K, V, u16>();
    let looks = looking_again(alloc, key.clone()?)?;
    let again = key.clone()?;
    let stores = replacing(alloc, key, again, first, value)?;
    let mut cache = build(alloc, LISTENING)?;
    let Ok(_) = run_all(alloc, &mut cache, &stores) else {
        drop(cache);
        return Err(AllocError);
    };
    let looked = run_all(alloc, &mut cache, &looks);
    drop(cache);
    let report = looked?;
    found(report.replies.as_slice())
}
