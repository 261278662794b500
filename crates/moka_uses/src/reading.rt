//! A caller for any keys and values that the cache takes.
ghost use Rattle.std.specs.Prelude.{◌≡◌, ◌∷◌, [], ℕ, IfOk, length};
ghost use Rattle.moka_hist.specs.State.{State, fresh};
ghost use Rattle.moka_hist.specs.Run.{IsReached};
ghost use Rattle.moka_hist.specs.declared.replies.Reply.{Reply};
ghost use Rattle.moka_machine.specs.Machine.{MachineIs, IsValid};
ghost use Rattle.moka_machine.specs.TheTable.{the_division};
ghost use Rattle.moka_run.specs.Running.{Answers};
ghost use Rattle.moka_uses.specs.ReadBack.{IsReadBack, found_in, log_size, looking, no_tests, no_tests_handed, storing};

use moka_hist::{Answer, Event, Reply, Rules, Start, Tests};
use moka_run::{Machine, Report, run};
use moka_values::Exact;
use std::alloc::{AllocError, Global};
use std::hash::Hash;

/// No rule is set.
const RULES: Rules = Rules {
    max_capacity: None,
    time_to_live: None,
    time_to_idle: None,
    listener: false,
    closures: false,
};

/// How many writes the cache's log has room for.
const LOG: usize = 8;

/// Tests and predicates of records, of which none holds.
#[derive(Clone, Copy, PartialEq, Eq, Debug)]
pub struct NoTests;

impl<K, V> Tests<K, V> for NoTests {
    ghost use Rattle.moka_uses.specs.ReadBack.{no_test};

    ghost answers = { λ it. no_test };

    ghost hides = { λ it. no_test };

    fn holds(&self, _test: u64, _key: &K, _value: &V) -> bool {
        false
    }

    fn does_hide(&self, _test: u64, _key: &K, _value: &V) -> bool {
        false
    }
}

/// Runs the events, and tells want of memory alone.
pub(crate) fn run_all<K: Eq + Hash + Exact, V: Exact>(
    alloc: Global,
    cache: &mut Machine<K, V, u16, NoTests>,
    events: &[Event<K, V, u16>],
) -> Result<Report<K, V, u16>, AllocError>
    requires valid { IsValid K.eq no_tests cache.old }
    ensures run { IfOk result (λ report. (s : State K V ℕ) → MachineIs K.eq no_tests cache.old s
        → IsReached K.eq s → Answers K.eq no_tests events.now report.replies cache.new s) }
    ensures answered { IfOk result (λ report. length report.replies ≡ length events.now) }
    ensures valid { IsValid K.eq no_tests cache.new }
{
    match run(alloc, cache, events) {
        Ok(report) => Ok(report),
        Err(_) => Err(AllocError),
    }
}

/// A copy of the value that the answer found.
fn found_by<K, V: Exact>(answer: &Answer<K, V, u16>) -> Result<Option<V>, AllocError>
    ensures { IfOk result (λ found. found ≡ found_in (Reply.Answer answer.now)) }
{
    match answer {
        Answer::Found(Some(value)) => Ok(Some(value.clone()?)),
        _ => Ok(None),
    }
}

/// A copy of the value that the reply says was found.
fn found_by_reply<K, V: Exact>(reply: &Reply<K, V, u16>) -> Result<Option<V>, AllocError>
    ensures { IfOk result (λ found. found ≡ found_in reply.now) }
{
    match reply {
        Reply::Answer(answer) => found_by(answer),
        _ => Ok(None),
    }
}

/// A copy of the value that the last of two replies found.
pub(crate) fn found<K, V: Exact>(replies: &[Reply<K, V, u16>]) -> Result<Option<V>, AllocError>
    requires two { length replies.now ≡ 2 }
    ensures { IfOk result (λ found. (call : Reply K V ℕ) × (last : Reply K V ℕ)
        × (replies.now ≡ call ∷ last ∷ []) × (found ≡ found_in last)) }
{
    found_by_reply(&replies[1])
}

/// The events that store the value under the key, by call 1.
fn storing<K: Drop, V: Drop>(
    alloc: Global,
    key: K,
    value: V,
) -> Result<Vec<Event<K, V, u16>>, AllocError>
    ensures { IfOk result (λ events. events.items ≡ storing key value) }
{
    let start = Start::Insert { key, value };
    let mut events = Vec::new(alloc);
    events.push(Event::Start { start })?;
    events.push(Event::Poll { call: 1 })?;
    Ok(events)
}

/// The events that look the key up, by call 2.
fn looking<K: Drop, V: Drop>(alloc: Global, key: K) -> Result<Vec<Event<K, V, u16>>, AllocError>
    ensures { IfOk result (λ events. events.items ≡ looking key) }
{
    let start = Start::Get { key };
    let mut events = Vec::new(alloc);
    events.push(Event::Start { start })?;
    events.push(Event::Poll { call: 2 })?;
    Ok(events)
}

/// Builds a cache of these rules, without tests.
pub(crate) fn build<K: Eq + Hash + Exact, V: Exact>(
    alloc: Global,
    rules: Rules,
) -> Result<Machine<K, V, u16, NoTests>, AllocError>
    ensures fresh { IfOk result (λ cache. MachineIs K.eq no_tests cache
        (fresh K V ℕ (the_division K) rules log_size no_tests_handed)) }
    ensures valid { IfOk result (λ cache. IsValid K.eq no_tests cache) }
{
    match Machine::build(alloc, rules, LOG, 0, NoTests) {
        Ok(cache) => Ok(cache),
        Err(_) => Err(AllocError),
    }
}

/// Builds a cache that tests no record, and whose loads may fail with a status. Stores the value
/// under the key in one run, and in a second looks the key up. Answers what that found: the value.
pub fn read_back<K: Eq + Hash + Exact, V: Exact>(
    alloc: Global,
    key: K,
    value: V,
) -> Result<Option<V>, AllocError>
    ensures { IfOk result (λ found. IsReadBack K.eq key value found) }
{
    moka_laws::reached_by_lawful_run::<K, V, u16>();
    moka_small::fresh_is_empty::<K, V, u16>();
    moka_small::start_is_started::<K, V, u16>();
    moka_small::poll_is_polled::<K, V, u16>();
    let looks = looking(alloc, key.clone()?)?;
    let stores = storing(alloc, key, value)?;
    let mut cache = build(alloc, RULES)?;
    let Ok(_) = run_all(alloc, &mut cache, &stores) else {
        drop(cache);
        return Err(AllocError);
    };
    let looked = run_all(alloc, &mut cache, &looks);
    drop(cache);
    let report = looked?;
    found(report.replies.as_slice())
}
