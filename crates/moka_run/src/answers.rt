//! The report of a schedule, from its text to its text.
ghost use Rattle.std.specs.Prelude.{◌≡◌, ◌<◌, ◌≤◌, ℕ, length, nat_eq, IfOk, IsErrOf, None, IsPermutation, IsSortedByKey};
ghost use Rattle.std.specs.Ordering.{nat_cmp};
ghost use Rattle.std.specs.String.{string_bytes};
ghost use Rattle.moka_text.specs.ScheduleText.{IsFirstBad, Says, SettingsFit};
ghost use Rattle.moka_hist.specs.State.{State, fresh};
ghost use Rattle.moka_hist.specs.Settings.{refusal_of};
ghost use Rattle.moka_hist.specs.Run.{IsReached};
ghost use Rattle.moka_machine.specs.Machine.{IsValid, MachineIs};
ghost use Rattle.moka_machine.specs.NumberTest.{number_tests};
ghost use Rattle.moka_machine.specs.TheTable.{the_division};
ghost use Rattle.moka_run.specs.Playing.{IsReport, ReportsRun, RunsFresh, numbers_handed};
ghost use Rattle.moka_run.specs.Running.{Answers};

use crate::report::{ReplyList, Report, list_all, report_of};
use crate::runs::run_events;
use moka_hist::{BuildError, Event, Rules, Settings, Stored};
use moka_machine::{Machine, NumberTests};
use moka_table::EntryList;
use moka_text::{
    Schedule, ScheduleError, read_schedule, schedules_are_never_refused, write_report,
};
use std::alloc::{AllocError, Global};

/// The entries, ascending by key.
fn sorted(entries: EntryList<u32, u32>) -> Vec<(u32, Stored<u32>)>
    ensures all { IsPermutation entries result.items }
    ensures ascending { IsSortedByKey (λ e. e.0) nat_cmp result.items }
{
    let mut pairs = entries.into_vec();
    pairs.sort_unstable_by_key(|pair| pair.0);
    pairs
}

/// Runs the events on the machine, and answers the replies. The events are given up then.
fn replies_to(
    alloc: Global,
    machine: &mut Machine<u32, u32, u32, NumberTests>,
    events: Vec<Event<u32, u32, u32>>,
) -> Result<ReplyList<u32, u32, u32>, AllocError>
    requires { IsValid nat_eq number_tests machine.old }
    ensures { IfOk result (λ replies. (s : State ℕ ℕ ℕ)
        → MachineIs nat_eq number_tests machine.old s → IsReached nat_eq s
        → Answers nat_eq number_tests events.items replies machine.new s) }
{
    match run_events(alloc, machine, &events) {
        Ok(replies) => Ok(ReplyList::from_vec(replies)),
        Err(_) => Err(AllocError),
    }
}

/// Builds the cache of rules that aren't refused, with the ids of the seed, of 0 where none is set.
fn build(
    alloc: Global,
    rules: Rules,
    log: usize,
    seed: Option<u64>,
) -> Result<Machine<u32, u32, u32, NumberTests>, AllocError>
    requires accepted { refusal_of rules ≡ None }
    requires least { 1 ≤ log }
    requires most { log ≤ 65536 }
    ensures fresh { IfOk result (λ machine. MachineIs nat_eq number_tests machine
        (fresh ℕ ℕ ℕ (the_division ℕ) rules log (numbers_handed seed))) }
    ensures valid { IfOk result (λ machine. IsValid nat_eq number_tests machine) }
{
    match Machine::build(alloc, rules, log, seed.unwrap_or(0), NumberTests) {
        Ok(machine) => Ok(machine),
        Err(BuildError::Memory) => Err(AllocError),
        Err(BuildError::TimeToLiveTooLong | BuildError::TimeToIdleTooLong) => unreachable!(),
    }
}

/// Runs the events on a fresh cache of these settings, and answers what is to be reported. The
/// events are given up before the lists of the report are made.
fn run_fresh(
    alloc: Global,
    settings: Settings,
    log: usize,
    events: Vec<Event<u32, u32, u32>>,
) -> Result<Report<u32, u32, u32>, AllocError>
    requires fit { SettingsFit settings }
    requires least { 1 ≤ log }
    requires most { log ≤ 65536 }
    ensures { IfOk result (λ report. RunsFresh settings log events.items report) }
{
    moka_laws::reached_by_lawful_run::<u32, u32, u32>();
    schedules_are_never_refused();
    let mut machine = build(alloc, settings.rules(), log, settings.seed)?;
    let replies = replies_to(alloc, &mut machine, events)?;
    let lists = list_all(alloc, &machine)?;
    Ok(report_of(replies, lists))
}

/// Runs the events on a fresh cache of these settings with a log of this many writes, and answers the
/// report's text. The events are given up before the report's lists are made, and the cache before
/// its text.
fn report_on(
    alloc: Global,
    settings: Settings,
    log: usize,
    events: Vec<Event<u32, u32, u32>>,
) -> Result<String, AllocError>
    requires fit { SettingsFit settings }
    requires least { 1 ≤ log }
    requires most { log ≤ 65536 }
    ensures { IfOk result (λ text. ReportsRun settings log events.items (string_bytes text)) }
{
    moka_laws::stored_under_own_keys::<u32, u32, u32>();
    let report = run_fresh(alloc, settings, log, events)?;
    let Report {
        replies,
        entries,
        places,
        notices,
        tests,
    } = report;
    let entries = sorted(entries);
    write_report(
        alloc,
        replies.as_slice(),
        &entries,
        places.as_slice(),
        notices.as_slice(),
        tests.as_slice(),
    )
}

/// Reads the schedule that the bytes say, which are given up then.
fn read_given(alloc: Global, bytes: Vec<u8>) -> Result<Schedule, ScheduleError>
    ensures found { IfOk result (λ s. Says bytes.items s.log s.settings s.events.items) }
    ensures bad_line { (line : ℕ) → IsErrOf result (ScheduleError.BadLine line)
        → IsFirstBad bytes.items line }
    ensures memory { IsErrOf result ScheduleError.Memory → 0 < length bytes.items }
{
    read_schedule(alloc, &bytes)
}

/// Answers the text of the report of the schedule that the bytes say. These are given up once they
/// are read.
///
/// `BadLine` comes with the first line that is not in the grammar, `Memory` where memory runs out.
#[inline(always)]
pub(crate) fn answer(alloc: Global, bytes: Vec<u8>) -> Result<String, ScheduleError>
    ensures answers { IfOk result (λ text. IsReport bytes.items (string_bytes text)) }
    ensures bad_line { (line : ℕ) → IsErrOf result (ScheduleError.BadLine line)
        → IsFirstBad bytes.items line }
    ensures memory { IsErrOf result ScheduleError.Memory → 0 < length bytes.items }
{
    let schedule = read_given(alloc, bytes)?;
    match report_on(alloc, schedule.settings, schedule.log, schedule.events) {
        Ok(text) => Ok(text),
        Err(_) => Err(ScheduleError::Memory),
    }
}
