//! Loads by calls of a `PolledMachine`.
ghost use Rattle.std.specs.Prelude.{nat_eq};
ghost use Rattle.moka_polled.specs.Polled.{AnySmall, IsUsable};

use moka_hist::Start;
use moka_polled::{Outcome, PolledMachine};
use std::alloc::{AllocError, Global};

/// The cache of these rounds.
type Polled = PolledMachine<u32, u32, u32>;

/// Stores one key, and loads it so often. Answers how many loads found it.
pub fn found(alloc: Global, rounds: u64) -> Result<u64, AllocError> {
    let mut polled = PolledMachine::new(alloc, None)?;
    let found = found_in(&mut polled, rounds);
    drop(polled);
    found
}

/// Stores the key, and loads it so often.
fn found_in(polled: &mut Polled, rounds: u64) -> Result<u64, AllocError>
    requires { IsUsable nat_eq polled.old AnySmall }
{
    store(polled)?;
    let mut found = 0u64;
    for _ in 0..rounds {
        if is_found(polled)? {
            found = found.wrapping_add(1);
        }
    }
    Ok(found)
}

/// Stores the key.
fn store(polled: &mut Polled) -> Result<(), AllocError>
    requires { IsUsable nat_eq polled.old AnySmall }
    ensures { IsUsable nat_eq polled.new AnySmall }
{
    let call = polled.start(Start::Insert { key: 7, value: 5 })?;
    let _ = polled.poll_if_live(call)?;
    Ok(())
}

/// Loads the key, and tells whether it was found.
fn is_found(polled: &mut Polled) -> Result<bool, AllocError>
    requires { IsUsable nat_eq polled.old AnySmall }
    ensures { IsUsable nat_eq polled.new AnySmall }
{
    let call = polled.start(Start::GetWith {
        key: 7,
        replace: None,
    })?;
    let outcome = polled.poll_if_live(call)?;
    Ok(matches!(outcome, Some(Outcome::Loaded { .. })))
}
