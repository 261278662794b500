//! The whole workload.

ghost use Rattle.std.specs.Prelude.{◌≡◌, ◌≤◌, ◌++◌, IfOk, OnOk};
ghost use Rattle.moka_workload.specs.Turns.{events_in};
ghost use Rattle.moka_workload.specs.Workload.{workload};

use crate::{MOST_TURNS, Turn, Workload};
use moka_hist::Event;
use std::alloc::{AllocError, Global};

/// The events of the first turns of a seed's workload, in one list.
pub fn all_events(
    alloc: Global,
    turns: u32,
    seed: u64,
) -> Result<Vec<Event<u32, u32, u32>>, AllocError>
    requires { turns ≤ MOST_TURNS }
    ensures { IfOk result (λ events. events.items ≡ workload turns seed) }
{
    let mut events = Vec::new(alloc);
    let mut made = Workload::new(seed);
    for _ in 0..turns {
        push_turn(&mut events, made.next_turn())?;
    }
    Ok(events)
}

/// Appends the events of a turn.
fn push_turn(events: &mut Vec<Event<u32, u32, u32>>, turn: Turn) -> Result<(), AllocError>
    ensures { OnOk result (events.new.items ≡ events.old.items ++ events_in turn) }
{
    for at in 0..turn.len() {
        events.push(turn.event(at))?;
    }
    Ok(())
}
