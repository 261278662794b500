//! The same loads by events of a `Machine`.
ghost use Rattle.std.specs.Prelude.{nat_eq, IfOk, OnOk};
ghost use Rattle.moka_machine.specs.Machine.{IsValid};
ghost use Rattle.moka_polled.specs.Tests.{no_tests};

use moka_hist::{Answer, Event, Reply, Rules, Start};
use moka_machine::Machine;
use moka_polled::NoTests;
use std::alloc::{AllocError, Global};

/// How many writes the log has room for, as in moka.
const LOG: usize = 384;

/// The cache of these rounds.
type Events = Machine<u32, u32, u32, NoTests>;

/// Stores one key, and loads it so often. Answers how many loads found it.
pub fn found(alloc: Global, rounds: u64) -> Result<u64, AllocError> {
    let mut machine = built(alloc)?;
    let found = found_in(&mut machine, rounds);
    drop(machine);
    found
}

/// Stores the key, and loads it so often.
fn found_in(machine: &mut Events, rounds: u64) -> Result<u64, AllocError>
    requires valid { IsValid nat_eq no_tests machine.old }
{
    let _ = has_loaded(machine, Start::Insert { key: 7, value: 5 })?;
    let mut found = 0u64;
    for _ in 0..rounds {
        let load = Start::GetWith {
            key: 7,
            replace: None,
        };
        if has_loaded(machine, load)? {
            found = found.wrapping_add(1);
        }
    }
    Ok(found)
}

/// Builds an empty cache.
fn built(alloc: Global) -> Result<Events, AllocError>
    ensures { IfOk result (λ m. IsValid nat_eq no_tests m) }
{
    let rules = Rules {
        max_capacity: None,
        time_to_live: None,
        time_to_idle: None,
        listener: false,
        closures: false,
    };
    match Machine::build(alloc, rules, LOG, 0, NoTests) {
        Ok(machine) => Ok(machine),
        Err(_) => Err(AllocError),
    }
}

/// Starts a call, and polls it. Tells whether it has loaded a value.
fn has_loaded(machine: &mut Events, start: Start<u32, u32>) -> Result<bool, AllocError>
    requires valid { IsValid nat_eq no_tests machine.old }
    ensures valid { OnOk result (IsValid nat_eq no_tests machine.new) }
{
    let call = match serve(machine, &Event::Start { start })? {
        Reply::Call(call) => call,
        _ => 0,
    };
    let reply = serve(machine, &Event::Poll { call })?;
    Ok(matches!(reply, Reply::Answer(Answer::Loaded { .. })))
}

/// Carries the event out.
#[inline(always)]
fn serve(
    machine: &mut Events,
    event: &Event<u32, u32, u32>,
) -> Result<Reply<u32, u32, u32>, AllocError>
    requires valid { IsValid nat_eq no_tests machine.old }
    ensures { OnOk result (IsValid nat_eq no_tests machine.new) }
{
    match machine.serve(event) {
        Ok(reply) => Ok(reply),
        Err(_) => Err(AllocError),
    }
}
