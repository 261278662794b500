//! Running a workload on a cache, turn by turn.

ghost use Rattle.std.specs.Prelude.{◌≡◌, ◌+◌, ◌<◌, ◌≤◌, ◌^◌, ◌++◌, ◌∷◌, [], ℕ, List, IfOk, OnOk, nat_eq};
ghost use Rattle.moka_hist.specs.Run.{IsReached};
ghost use Rattle.moka_hist.specs.State.{State};
ghost use Rattle.moka_hist.specs.declared.events.Event.{Event as TheEvent};
ghost use Rattle.moka_machine.specs.Machine.{IsValid, MachineIs, ServesEvent};
ghost use Rattle.moka_machine.specs.NumberTest.{number_tests};
ghost use Rattle.moka_workload.specs.Turns.{events_in};
ghost use Rattle.moka_workload.specs.Workload.{workload};
ghost use Rattle.moka_make.specs.Running.{Ran};

use moka_hist::{Event, Reply};
use moka_machine::{Machine, NumberTests};
use moka_summary::Tally;
use moka_workload::{MOST_TURNS, Turn, Workload};
use std::alloc::AllocError;

/// The cache that a workload runs on.
pub(crate) type Cache = Machine<u32, u32, u32, NumberTests>;

/// Runs the workload of so many turns and this seed on the cache, and counts the replies. Each event
/// is made, served and counted before the next one.
pub(crate) fn run_workload(cache: &mut Cache, turns: u32, seed: u64) -> Result<Tally, AllocError>
    requires valid { IsValid nat_eq number_tests cache.old }
    requires few { turns ≤ MOST_TURNS }
    ensures { IfOk result (λ replies. (first : State ℕ ℕ ℕ)
        → MachineIs nat_eq number_tests cache.old first → IsReached nat_eq first
        → Ran first (workload turns seed) replies cache.new) }
{
    let mut made = Workload::new(seed);
    let mut replies = Tally::new();
    for _ in 0..turns {
        run_turn(cache, made.next_turn(), &mut replies)?;
    }
    Ok(replies)
}

/// Runs the events of a turn, and counts their replies.
fn run_turn(cache: &mut Cache, turn: Turn, replies: &mut Tally) -> Result<(), AllocError>
    requires valid { IsValid nat_eq number_tests cache.old }
    requires room { replies.old.events + 13 < 2 ^ 64 }
    ensures goes_on { OnOk result ((first : State ℕ ℕ ℕ) (before : List (TheEvent ℕ ℕ ℕ))
        → Ran first before replies.old cache.old
        → Ran first (before ++ events_in turn) replies.new cache.new) }
    ensures valid { OnOk result (IsValid nat_eq number_tests cache.new) }
    ensures few { OnOk result (replies.new.events ≤ replies.old.events + 13) }
{
    for at in 0..turn.len() {
        run_event(cache, turn.event(at), replies)?;
    }
    Ok(())
}

/// Runs an event, and counts its reply.
fn run_event(
    cache: &mut Cache,
    event: Event<u32, u32, u32>,
    replies: &mut Tally,
) -> Result<(), AllocError>
    requires valid { IsValid nat_eq number_tests cache.old }
    requires room { replies.old.events + 1 < 2 ^ 64 }
    ensures goes_on { OnOk result ((first : State ℕ ℕ ℕ) (before : List (TheEvent ℕ ℕ ℕ))
        → Ran first before replies.old cache.old
        → Ran first (before ++ event ∷ []) replies.new cache.new) }
    ensures valid { OnOk result (IsValid nat_eq number_tests cache.new) }
    ensures counted { OnOk result (replies.new.events ≡ replies.old.events + 1) }
{
    moka_laws::reached_by_event::<u32, u32, u32>();
    moka_laws::event_is_lawful::<u32, u32, u32>();
    moka_laws::reached_is_lawful::<u32, u32, u32>();
    moka_laws::lawful_run_goes_on::<u32, u32, u32>();
    match serve(cache, event) {
        Ok(reply) => {
            replies.count(&reply);
            Ok(())
        }
        Err(e) => Err(e),
    }
}

/// Carries an event out. What it tells is handed in, and not copied.
fn serve(cache: &mut Cache, event: Event<u32, u32, u32>) -> Result<Reply<u32, u32, u32>, AllocError>
    requires { IsValid nat_eq number_tests cache.old }
    ensures { IfOk result (λ r. ServesEvent nat_eq number_tests cache.old event r cache.new) }
{
    match event {
        Event::Tell { call, answer } => Ok(cache.tell(call, answer)),
        other => serve_other(cache, &other),
    }
}

/// Carries an event out.
fn serve_other(
    cache: &mut Cache,
    event: &Event<u32, u32, u32>,
) -> Result<Reply<u32, u32, u32>, AllocError>
    requires { IsValid nat_eq number_tests cache.old }
    ensures { IfOk result (λ r. ServesEvent nat_eq number_tests cache.old event.now r cache.new) }
{
    match cache.serve(event) {
        Ok(reply) => Ok(reply),
        Err(_) => Err(AllocError),
    }
}
