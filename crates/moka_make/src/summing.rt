//! The summary of a run on a workload.

ghost use Rattle.std.specs.Prelude.{◌≡◌, ◌≤◌, ℕ, IfOk, None, nat_eq};
ghost use Rattle.moka_hist.specs.Settings.{refusal_of};
ghost use Rattle.moka_hist.specs.State.{State, fresh};
ghost use Rattle.moka_machine.specs.Machine.{IsValid, MachineIs};
ghost use Rattle.moka_machine.specs.NumberTest.{number_tests};
ghost use Rattle.moka_machine.specs.TheTable.{the_division};
ghost use Rattle.moka_run.specs.Playing.{numbers_handed};
ghost use Rattle.moka_make.specs.Summing.{IsSummary, IsSummaryText, Sums, made_log, made_on};

use crate::counting::{applied_in, logged_in, owed_in};
use crate::running::{Cache, run_workload};
use moka_hist::{BuildError, Rules, Settings};
use moka_machine::{Machine, NumberTests};
use moka_summary::{Summary, Tally, write_summary};
use moka_text::schedules_are_never_refused;
use moka_workload::MOST_TURNS;
use std::alloc::{AllocError, Global};

/// How many writes the log has room for.
const LOG: usize = 64;

/// The settings of the cache that a workload runs on.
fn made_on() -> Settings
    ensures { result ≡ made_on }
{
    Settings {
        max_capacity: None,
        time_to_live: Some(2000),
        time_to_idle: None,
        listener: true,
        closures: false,
        seed: None,
    }
}

/// Builds the cache of rules that aren't refused.
fn build(alloc: Global, rules: Rules) -> Result<Cache, AllocError>
    requires { refusal_of rules ≡ None }
    ensures fresh { IfOk result (λ cache. MachineIs nat_eq number_tests cache
        (fresh ℕ ℕ ℕ (the_division ℕ) rules made_log (numbers_handed None))) }
    ensures valid { IfOk result (λ cache. IsValid nat_eq number_tests cache) }
{
    match Machine::build(alloc, rules, LOG, 0, NumberTests) {
        Ok(cache) => Ok(cache),
        Err(BuildError::Memory) => Err(AllocError),
        Err(BuildError::TimeToLiveTooLong | BuildError::TimeToIdleTooLong) => unreachable!(),
    }
}

/// Sums up so many turns, which had these replies: with the lengths of the cache's lists, of which
/// one stands in memory at a time.
fn sum_up(alloc: Global, cache: &Cache, turns: u32, replies: Tally) -> Result<Summary, AllocError>
    ensures { IfOk result (λ summary. (s : State ℕ ℕ ℕ)
        → MachineIs nat_eq number_tests cache.now s → Sums turns replies s summary) }
{
    let entries = cache.entries(alloc)?.len();
    let notices = cache.notices(alloc)?.len();
    let places = cache.places(alloc)?;
    Ok(Summary {
        turns: u64::from(turns),
        replies,
        entries: entries as u64,
        owed: owed_in(places.as_slice()) as u64,
        logged: logged_in(places.as_slice()) as u64,
        applied: applied_in(places.as_slice()) as u64,
        notices: notices as u64,
    })
}

/// The summary of a run on the workload of so many turns and this seed, from a fresh cache, which is
/// given up then.
fn summary_of(alloc: Global, turns: u32, seed: u64) -> Result<Summary, AllocError>
    requires { turns ≤ MOST_TURNS }
    ensures { IfOk result (λ summary. IsSummary turns seed summary) }
{
    schedules_are_never_refused();
    let mut cache = build(alloc, made_on().rules())?;
    let replies = run_workload(&mut cache, turns, seed)?;
    sum_up(alloc, &cache, turns, replies)
}

/// The text of that summary.
pub(crate) fn summary_text(alloc: Global, turns: u32, seed: u64) -> Result<Vec<u8>, AllocError>
    requires { turns ≤ MOST_TURNS }
    ensures { IfOk result (λ text. IsSummaryText turns seed text.items) }
{
    let summary = summary_of(alloc, turns, seed)?;
    write_summary(alloc, &summary)
}
