//! Runs that are run on wherever memory was wanting. `tools/fail-alloc` makes each allocation of
//! the test fail in turn, and reads on standard error in which row. ` / ` parts lines.
//!
//! One allocation fails at most, so what the test takes beside the run is tried twice.
ghost use Rattle.std.specs.Prelude.{nat_eq, IfOk};
ghost use Rattle.moka_machine.specs.Machine.{IsValid};
ghost use Rattle.moka_machine.specs.NumberTest.{number_tests};

use crate::fresh::{machine_for, schedule_of};
use crate::in_memory::text_of;
use moka_hist::{Event, Reply};
use moka_run::{Machine, Memory, NumberTests, Report, run};
use moka_text::write_report;
use std::alloc::{AllocError, Global};
use std::io::Eprint;
use std::process::Abort;
use std::test::Fail;

/// How often the events are run on.
const TRIES: usize = 3;

/// How many answers a load is told, of which it takes the first.
const TELLS: usize = 10_000;

/// What a row needs before it is run: its events, a fresh machine, room for its replies, and the
/// report that it is to come to.
#[derive(Drop)]
struct Row {
    events: Vec<Event<u32, u32, u32>>,
    machine: Machine<u32, u32, u32, NumberTests>,
    replies: Vec<Reply<u32, u32, u32>>,
    report: String,
}

fn made(alloc: Global, schedule: &str, report: &str) -> Result<Row, AllocError>
    ensures { IfOk result (λ row. IsValid nat_eq number_tests row.machine) }
{
    let report = text_of(alloc, report)?;
    let schedule = schedule_of(alloc, schedule)?;
    let replies = Vec::with_capacity(alloc, schedule.events.len())?;
    let machine = machine_for(alloc, &schedule)?;
    Ok(Row {
        events: schedule.events,
        machine,
        replies,
        report,
    })
}

/// Appends the replies.
pub(crate) fn keep(
    replies: &mut Vec<Reply<u32, u32, u32>>,
    more: &[Reply<u32, u32, u32>],
) -> Result<(), AllocError> {
    for reply in more {
        replies.push(reply.clone()?)?;
    }
    Ok(())
}

/// The events after those that were done, of which each has its reply.
fn rest_after<'a>(
    events: &'a [Event<u32, u32, u32>],
    memory: &Memory<u32, u32, u32>,
) -> Option<&'a [Event<u32, u32, u32>]> {
    if memory.replies.len() as u64 != memory.done {
        return None;
    }
    events.get(memory.replies.len()..)
}

/// Whether memory may be wanting where it was: before the first event, or in a start, a step or a
/// poll, or after the last event; not where the clock moves on, an answer is told or a call dropped.
fn may_be_wanting(events: &[Event<u32, u32, u32>], memory: &Memory<u32, u32, u32>) -> bool {
    if memory.done == 0 {
        return true;
    }
    match events.get(memory.replies.len()) {
        Some(Event::At { .. }) => false,
        Some(Event::Tell { .. }) => false,
        Some(Event::Drop { .. }) => false,
        _ => true,
    }
}

/// Runs the events to the last, and runs on where memory was wanting.
fn run_on(
    rt: &(impl AllocGlobal + Abort + Eprint),
    name: &str,
    machine: &mut Machine<u32, u32, u32, NumberTests>,
    events: &[Event<u32, u32, u32>],
    replies: &mut Vec<Reply<u32, u32, u32>>,
) -> Result<Report<u32, u32, u32>, Fail>
    requires { IsValid nat_eq number_tests machine.old }
{
    let mut rest = events;
    for _try in 0..TRIES {
        match run(rt.alloc(), machine, rest) {
            Ok(report) => {
                keep(replies, report.replies.as_slice())?;
                return Ok(report);
            }
            Err(memory) => {
                eprintln!(rt;
                    "wanting in {name}: event {}, step {}",
                    memory.done, memory.steps
                )?;
                assert!(rt; may_be_wanting(rest, &memory), "{name}");
                keep(replies, memory.replies.as_slice())?;
                rest = rest_after(rest, &memory).ok_or(AllocError)?;
            }
        }
    }
    Err(Fail::from(AllocError))
}

/// Makes the row, also where memory is wanting once.
fn made_at_last(
    rt: &(impl AllocGlobal + Eprint),
    name: &str,
    schedule: &str,
    report: &str,
) -> Result<Row, Fail>
    ensures { IfOk result (λ row. IsValid nat_eq number_tests row.machine) }
{
    if let Ok(row) = made(rt.alloc(), schedule, report) {
        return Ok(row);
    }
    eprintln!(rt; "wanting in {name}: before the run")?;
    Ok(made(rt.alloc(), schedule, report)?)
}

/// Runs each schedule of a table of this name, and compares what it comes to.
pub(crate) fn each_comes_to(
    rt: &(impl AllocGlobal + Abort + Eprint),
    table: &str,
    rows: &[(&str, &str)],
) -> Result<(), Fail> {
    for row in rows {
        comes_to(rt, table, row.0, row.1)?;
    }
    Ok(())
}

/// Runs a schedule, and compares what it comes to.
fn comes_to(
    rt: &(impl AllocGlobal + Abort + Eprint),
    name: &str,
    schedule: &str,
    report: &str,
) -> Result<(), Fail> {
    let mut row = made_at_last(rt, name, schedule, report)?;
    let came = runs_to(rt, name, &mut row);
    drop(row);
    came
}

/// Runs the row, and compares what it comes to with its report.
fn runs_to(rt: &(impl AllocGlobal + Abort + Eprint), name: &str, row: &mut Row) -> Result<(), Fail>
    requires { IsValid nat_eq number_tests row.old.machine }
{
    let ended = run_on(rt, name, &mut row.machine, &row.events, &mut row.replies)?;
    let text = text_of_report(rt, name, &row.replies, ended)?;
    assert_eq!(rt; text.as_str(), row.report.as_str(), "{name}");
    Ok(())
}

fn text_of_report(
    rt: &(impl AllocGlobal + Eprint),
    name: &str,
    replies: &[Reply<u32, u32, u32>],
    report: Report<u32, u32, u32>,
) -> Result<String, Fail> {
    let mut entries = report.entries.into_vec();
    entries.sort_unstable_by_key(|entry| entry.0);
    let places = report.places.as_slice();
    let notices = report.notices.as_slice();
    let tests = report.tests.as_slice();
    match write_report(rt.alloc(), replies, &entries, places, notices, tests) {
        Ok(text) => Ok(text),
        Err(_) => {
            eprintln!(rt; "wanting in {name}: after the run")?;
            Ok(write_report(rt.alloc(), replies, &entries, places, notices, tests)?)
        }
    }
}

/// Schedules with their reports, and a name for each.
const ROWS: [(&str, &str, &str); 36] = [
    (
        "a_get",
        "cache log=8 / start get 1 / poll 1",
        "call 1 / answer none",
    ),
    (
        "an_insert_and_a_get",
        "cache log=8 / start insert 1 5 / poll 1 / start get 1 / poll 2",
        "call 1 / answer done / call 2 / answer some 5 / entry 1 5 stamp 1 at 0 / write 1 logged",
    ),
    (
        "two_loads",
        "cache log=8 / start get_with 1 / start get_with 1 / poll 1 / poll 2 / tell 1 value 7 / poll 1 / poll 2",
        "call 1 / call 2 / ask init / wait / told / answer value 7 fresh / answer value 7 / entry 1 7 stamp 1 at 0 / write 1 logged",
    ),
    (
        "two_loads_the_first_dropped",
        "cache log=8 / start get_with 1 / start get_with 1 / poll 1 / poll 2 / drop 1 / poll 2 / tell 2 value 9 / poll 2",
        "call 1 / call 2 / ask init / wait / dropped / ask init / told / answer value 9 fresh / entry 1 9 stamp 2 at 0 / write 2 logged",
    ),
    (
        "a_full_log",
        "cache log=1 / start insert 1 5 / poll 1 / start insert 2 6 / poll 2",
        "call 1 / answer done / call 2 / answer done / entry 1 5 stamp 1 at 0 / entry 2 6 stamp 2 at 0 / write 1 applied / write 2 logged",
    ),
    (
        "refusals",
        "cache log=8 / start get 1 / poll 1 / drop 1 / start get_with 1 / poll 2 / tell 2 done / tell 9 value 1 / at 5 / at 4 / start get 1 / step 3 / drop 3 / poll 3",
        "call 1 / answer none / refused UnknownCall / call 2 / ask init / refused NotAsked / refused NotAsked / at / refused ClockBack / call 3 / going / refused NotParked / answer none",
    ),
    (
        "single_steps",
        "cache log=1 / start insert 1 5 / step 1 / step 1 / step 1 / step 1 / start insert 2 6 / step 2 / step 2 / step 2 / step 2 / step 2 / step 2 / step 2 / step 2 / step 2 / start get 2 / step 3 / step 3 / step 3",
        "call 1 / going / going / going / answer done / call 2 / going / going / going / going / going / going / going / going / answer done / call 3 / going / going / answer some 6 / entry 1 5 stamp 1 at 0 / entry 2 6 stamp 2 at 0 / write 1 applied / write 2 logged",
    ),
    (
        "an_owed_write",
        "cache log=1 / start insert 1 5 / poll 1 / start insert 2 6 / start insert 3 7 / step 2 / step 2 / step 2 / step 2 / step 3 / step 3 / step 3 / step 3 / step 3 / step 2 / drop 2 / poll 3 / start get 2 / poll 4",
        "call 1 / answer done / call 2 / call 3 / going / going / going / going / going / going / going / going / going / wait / dropped / answer done / call 4 / answer some 6 / entry 1 5 stamp 1 at 0 / entry 2 6 stamp 2 at 0 / entry 3 7 stamp 3 at 0 / write 1 applied / write 2 logged / write 3 applied",
    ),
    (
        "a_notice",
        "cache log=8 listener / start insert 1 5 / poll 1 / start insert 1 6 / poll 2 / tell 2 done / poll 2",
        "call 1 / answer done / call 2 / ask listener 1 5 Replaced / told / answer done / entry 1 6 stamp 2 at 0 / write 1 logged / write 2 logged / notice 2 1 5 Replaced ended",
    ),
    (
        "dropped_while_heard",
        "cache log=8 listener / start insert 1 5 / poll 1 / start insert 1 6 / poll 2 / drop 2 / start get 1 / poll 3 / tell 2 done / poll 3",
        "call 1 / answer done / call 2 / ask listener 1 5 Replaced / dropped / call 3 / wait / told / answer some 6 / entry 1 6 stamp 2 at 0 / write 1 logged / write 2 logged / notice 2 1 5 Replaced ended",
    ),
    (
        "two_writers_of_a_key",
        "cache log=8 listener / start insert 1 5 / poll 1 / start insert 1 6 / poll 2 / start insert 1 7 / poll 3 / at 9 / tell 2 done / poll 3 / poll 2 / poll 3",
        "call 1 / answer done / call 2 / ask listener 1 5 Replaced / call 3 / wait / at / told / wait / answer done / ask listener 1 6 Replaced / entry 1 7 stamp 3 at 9 / write 1 logged / write 2 logged / write 3 held / notice 2 1 5 Replaced ended / notice 3 1 6 Replaced running",
    ),
    (
        "a_listener_that_is_off",
        "cache log=8 listener / start insert 1 5 / poll 1 / start insert 1 6 / poll 2 / tell 2 off / poll 2 / start insert 1 7 / poll 3",
        "call 1 / answer done / call 2 / ask listener 1 5 Replaced / told / answer done / call 3 / answer done / entry 1 7 stamp 3 at 0 / write 1 logged / write 2 logged / write 3 logged / notice 2 1 5 Replaced ended / notice 3 1 6 Replaced skipped",
    ),
    (
        "removals",
        "cache log=8 listener / start insert 1 5 / poll 1 / start remove 1 / poll 2 / start insert 1 6 / poll 3 / start invalidate 1 / poll 4 / tell 2 done / poll 2 / poll 3 / poll 4",
        "call 1 / answer done / call 2 / ask listener 1 5 Explicit / call 3 / wait / call 4 / wait / told / answer some 5 / answer done / ask listener 1 6 Explicit / write 1 logged / write 2 logged / write 3 logged / write 4 held / notice 2 1 5 Explicit ended / notice 4 1 6 Explicit running",
    ),
    (
        "evictions",
        "cache cap=1 log=8 / start insert 1 5 / poll 1 / start evict 1 9 Size / poll 2 / start evict 1 1 Size / step 3 / step 3 / step 3 / start insert 1 6 / poll 4 / step 3 / step 3 / start evict 1 4 Size / poll 5",
        "call 1 / answer done / call 2 / answer kept / call 3 / going / going / going / call 4 / answer done / going / answer kept / call 5 / answer evicted / write 1 logged / write 4 logged / write 5 logged",
    ),
    (
        "a_disabled_load",
        "cache cap=0 log=8 / start insert 1 5 / poll 1 / start get_with 1 / poll 2 / tell 2 value 3 / poll 2 / start get 1 / poll 3",
        "call 1 / answer done / call 2 / ask init / told / answer value 3 fresh / call 3 / answer none",
    ),
    (
        "an_error",
        "cache log=8 / start try 1 / start try 1 / poll 1 / poll 2 / tell 1 error 3 / poll 1 / poll 2",
        "call 1 / call 2 / ask init / wait / told / answer error 3 / answer error 3",
    ),
    (
        "one_load_of_each_kind",
        "cache log=8 / start get_with 1 / start optional 1 / start try 1 / poll 1 / poll 2 / poll 3 / tell 3 error 1 / tell 2 nothing / tell 1 value 1 / poll 3 / poll 2 / poll 1",
        "call 1 / call 2 / call 3 / ask init / ask init / ask init / told / told / told / answer error 1 / answer nothing / answer value 1 fresh / entry 1 1 stamp 1 at 0 / write 1 logged",
    ),
    (
        "a_load_again",
        "cache log=8 listener / start insert 1 4 / poll 1 / start get_with 1 if 2 / start get_with 1 if 2 / poll 2 / poll 3 / tell 2 value 6 / poll 2 / poll 3 / tell 2 done / poll 2 / poll 3",
        "call 1 / answer done / call 2 / call 3 / ask init / wait / told / ask listener 1 4 Replaced / wait / told / answer value 6 fresh / answer value 6 / entry 1 6 stamp 2 at 0 / write 1 logged / write 2 logged / notice 2 1 4 Replaced ended",
    ),
    (
        "or_inserts",
        "cache log=8 listener / start insert 1 5 / poll 1 / start remove 1 / poll 2 / start or_insert 1 6 / poll 3 / start or_insert 1 7 / poll 4 / tell 2 done / poll 2 / poll 3 / poll 4 / tell 4 done / poll 4 / start or_insert 1 8 / poll 5",
        "call 1 / answer done / call 2 / ask listener 1 5 Explicit / call 3 / wait / call 4 / wait / told / answer some 5 / answer value 6 fresh / ask listener 1 6 Replaced / told / answer value 7 fresh / call 5 / answer value 7 / entry 1 7 stamp 4 at 0 / write 1 logged / write 2 logged / write 3 logged / write 4 logged / notice 2 1 5 Explicit ended / notice 4 1 6 Replaced ended",
    ),
    (
        "disabled_loads",
        "cache cap=0 log=8 / start or_insert 1 6 / poll 1 / start optional 1 / start optional 1 / poll 2 / poll 3 / tell 2 nothing / poll 2 / poll 3",
        "call 1 / answer value 6 fresh / call 2 / call 3 / ask init / wait / told / answer nothing / answer nothing",
    ),
    (
        "a_compute_that_puts",
        "cache log=8 / start compute 1 / start compute 1 / poll 1 / poll 2 / tell 1 put 5 / poll 1 / poll 2 / tell 2 nop / poll 2",
        "call 1 / call 2 / ask compute none / wait / told / answer inserted 5 / ask compute 1 5 / told / answer unchanged 5 / entry 1 5 stamp 1 at 0 / write 1 logged",
    ),
    (
        "a_compute_that_fails",
        "cache log=8 / start try_compute 1 / start upsert 1 / poll 1 / poll 2 / tell 1 error 4 / poll 1 / poll 2 / drop 2 / start compute_alone 1 / poll 3 / tell 3 put 5 / poll 3",
        "call 1 / call 2 / ask compute none / wait / told / answer error 4 / ask compute none / dropped / call 3 / ask compute none / told / answer inserted 5 / entry 1 5 stamp 3 at 0 / write 3 logged",
    ),
    (
        "computes_under_a_listener",
        "cache log=8 listener / start insert 1 5 / poll 1 / start upsert 1 / poll 2 / start compute_alone 1 / poll 3 / tell 2 value 6 / poll 2 / tell 2 done / poll 2 / start compute 1 / poll 4 / tell 4 remove / poll 4 / tell 4 done / poll 4",
        "call 1 / answer done / call 2 / ask compute 1 5 / call 3 / answer unchanged 5 / told / ask listener 1 5 Replaced / told / answer replaced 6 / call 4 / ask compute 1 6 / told / ask listener 1 6 Explicit / told / answer removed 6 / write 1 logged / write 2 logged / write 4 logged / notice 2 1 5 Replaced ended / notice 4 1 6 Explicit ended",
    ),
    (
        "a_disabled_compute",
        "cache cap=0 log=8 / start compute 1 / poll 1 / start compute_alone 1 / poll 2 / tell 1 put 5 / poll 1 / start compute 1 / poll 3 / tell 3 remove / poll 3",
        "call 1 / ask compute none / call 2 / answer stillnone / told / answer inserted 5 / call 3 / ask compute none / told / answer stillnone",
    ),
    (
        "a_record_that_expires",
        "cache log=8 ttl=10 / start insert 1 5 / poll 1 / at 9 / start get 1 / poll 2 / at 10 / start get 1 / poll 3 / start compute 1 / poll 4 / tell 4 remove / poll 4",
        "call 1 / answer done / at / call 2 / answer some 5 / at / call 3 / answer none / call 4 / ask compute none / told / answer removed 5 / write 1 logged / write 4 logged",
    ),
    (
        "a_record_that_is_seen",
        "cache log=8 tti=10 / start insert 1 5 / poll 1 / at 9 / start get 1 / poll 2 / at 18 / start get_with 1 / poll 3 / start get_with 1 if 5 / poll 4 / at 28 / start get 1 / poll 5",
        "call 1 / answer done / at / call 2 / answer some 5 / at / call 3 / answer value 5 / call 4 / ask init / at / call 5 / answer none / entry 1 5 stamp 1 at 0 / write 1 logged",
    ),
    (
        "a_look_at_what_leaves",
        "cache log=1 tti=10 / start insert 1 5 / poll 1 / at 8 / start get 1 / poll 2 / start get 1 / step 3 / step 3 / at 9 / start remove 1 / poll 4 / start insert 2 6 / poll 5 / start insert 3 7 / poll 6 / at 17 / step 3",
        "call 1 / answer done / at / call 2 / answer some 5 / call 3 / going / going / at / call 4 / answer some 5 / call 5 / answer done / call 6 / answer done / at / answer some 5 / entry 2 6 stamp 5 at 9 / entry 3 7 stamp 6 at 9 / write 1 applied / write 4 applied / write 5 applied / write 6 logged",
    ),
    (
        "an_invalidation_of_all",
        "cache log=8 tti=10 listener / start insert 1 5 / poll 1 / at 20 / start invalidate_all / poll 2 / start insert 1 6 / poll 3 / tell 3 done / poll 3 / start get 1 / poll 4",
        "call 1 / answer done / at / call 2 / answer done / call 3 / ask listener 1 5 Explicit / told / answer done / call 4 / answer some 6 / entry 1 6 stamp 3 at 20 / write 1 logged / write 3 logged / notice 3 1 5 Explicit ended",
    ),
    (
        "predicates",
        "cache log=8 closures / start invalidate_if 2 / poll 1 / start insert 1 4 / poll 2 / start get 1 / poll 3 / at 1 / start insert 1 6 / poll 4 / start get 1 / poll 5 / start invalidate_if 3 / poll 6",
        "call 1 / answer id 20ae25da-d4e2-4c53-98f9-38e12bbf69fb / call 2 / answer done / call 3 / answer none / at / call 4 / answer done / call 5 / answer some 6 / call 6 / answer id b5b235d6-0cf8-4231-89f7-1ee2b019a7da / entry 1 6 stamp 4 at 1 / write 2 logged / write 4 logged / test 2 at 0 / test 3 at 1",
    ),
    (
        "a_walk",
        "cache log=8 / start insert 1 5 / poll 1 / start iter / poll 2 / start insert 1 6 / poll 3 / poll 2 / start iter / step 4 / start remove 1 / poll 5 / poll 4",
        "call 1 / answer done / call 2 / item 1 5 / call 3 / answer done / answer end / call 4 / going / call 5 / answer some 6 / answer end / write 1 logged / write 3 logged / write 5 logged",
    ),
    (
        "a_walk_past_what_expired",
        "cache log=8 ttl=10 / start insert 1 5 / poll 1 / at 5 / start insert 2 6 / poll 2 / at 12 / start iter / poll 3 / poll 3",
        "call 1 / answer done / at / call 2 / answer done / at / call 3 / item 2 6 / answer end / entry 1 5 stamp 1 at 0 / entry 2 6 stamp 2 at 5 / write 1 logged / write 2 logged",
    ),
    (
        "walks_under_a_listener",
        "cache log=8 ttl=10 listener / start insert 1 5 / poll 1 / start iter / poll 2 / at 3 / start insert 1 6 / poll 3 / start iter / poll 4 / poll 2 / start remove 1 / poll 5 / drop 3 / tell 3 done / poll 5 / poll 4 / tell 5 off / poll 5 / start insert 1 7 / poll 6 / at 13 / start iter / poll 7",
        "call 1 / answer done / call 2 / item 1 5 / at / call 3 / ask listener 1 5 Replaced / call 4 / item 1 6 / answer end / call 5 / wait / dropped / told / ask listener 1 6 Explicit / answer end / told / answer some 6 / call 6 / answer done / at / call 7 / answer end / entry 1 7 stamp 6 at 3 / write 1 logged / write 3 logged / write 5 logged / write 6 logged / notice 3 1 5 Replaced ended / notice 5 1 6 Explicit ended",
    ),
    (
        "maintenance",
        "cache log=1 / start insert 1 5 / poll 1 / start pending / step 2 / step 2 / start insert 2 6 / poll 3 / start pending / poll 4",
        "call 1 / answer done / call 2 / going / going / call 3 / wait / call 4 / wait / entry 1 5 stamp 1 at 0 / entry 2 6 stamp 3 at 0 / write 1 logged / write 3 held",
    ),
    (
        "maintenance_at_a_full_log",
        "cache log=1 / start insert 1 5 / poll 1 / start pending / step 2 / step 2 / start insert 2 6 / poll 3 / start insert 3 7 / poll 4 / drop 2 / drop 3 / poll 4 / poll 2 / poll 4 / start pending / poll 5",
        "call 1 / answer done / call 2 / going / going / call 3 / wait / call 4 / wait / refused NotParked / dropped / wait / answer done / answer done / call 5 / answer done / entry 1 5 stamp 1 at 0 / entry 2 6 stamp 3 at 0 / entry 3 7 stamp 4 at 0 / write 1 applied / write 3 applied / write 4 applied",
    ),
    (
        "maintenance_that_lets_a_predicate_go",
        "cache log=8 closures / start invalidate_if 2 / poll 1 / start insert 1 4 / poll 2 / start get 1 / poll 3 / start pending / poll 4 / at 1 / start evict 1 2 Explicit / poll 5 / start pending / poll 6",
        "call 1 / answer id 20ae25da-d4e2-4c53-98f9-38e12bbf69fb / call 2 / answer done / call 3 / answer none / call 4 / answer done / at / call 5 / answer evicted / call 6 / answer done / write 2 applied / write 5 applied",
    ),
    (
        "maintenance_under_a_listener",
        "cache log=8 listener closures / start insert 1 4 / poll 1 / start invalidate_if 2 / poll 2 / at 1 / start insert 1 6 / poll 3 / tell 3 done / poll 3 / start get 1 / poll 4 / start pending / poll 5",
        "call 1 / answer done / call 2 / answer id 20ae25da-d4e2-4c53-98f9-38e12bbf69fb / at / call 3 / ask listener 1 4 Replaced / told / answer done / call 4 / answer some 6 / call 5 / answer done / entry 1 6 stamp 3 at 1 / write 1 applied / write 3 applied / notice 3 1 4 Replaced ended",
    ),
];

/// Runs each of the schedules, and compares what it comes to.
fn come_to(
    rt: &(impl AllocGlobal + Abort + Eprint),
    rows: &[(&str, &str, &str)],
) -> Result<(), Fail> {
    for row in rows {
        comes_to(rt, row.0, row.1, row.2)?;
    }
    Ok(())
}

#[test]
fn a_run_goes_on_where_memory_was_wanting(rt: HostRuntime) -> Result<(), Fail> {
    come_to(&rt, &ROWS)
}

/// A load that is told a value so often, and what it comes to.
fn many_tells(alloc: Global) -> Result<(String, String), AllocError> {
    let mut schedule = String::from_str(alloc, "cache log=8 / start get_with 1 / poll 1")?;
    let mut report = String::from_str(alloc, "call 1 / ask init / told")?;
    schedule.push_str(" / tell 1 value 7")?;
    for _ in 1..TELLS {
        schedule.push_str(" / tell 1 value 7")?;
        report.push_str(" / refused NotAsked")?;
    }
    schedule.push_str(" / poll 1")?;
    report.push_str(" / answer value 7 fresh / entry 1 7 stamp 1 at 0 / write 1 logged")?;
    Ok((schedule, report))
}

/// The same, also where memory is wanting once.
fn many_tells_at_last(rt: &(impl AllocGlobal + Eprint)) -> Result<(String, String), Fail> {
    if let Ok(row) = many_tells(rt.alloc()) {
        return Ok(row);
    }
    eprintln!(rt; "wanting in many_tells: before the run")?;
    Ok(many_tells(rt.alloc())?)
}

#[test]
fn a_run_stops_at_none_of_many_tells(rt: HostRuntime) -> Result<(), Fail> {
    let (schedule, report) = many_tells_at_last(&rt)?;
    comes_to(&rt, "many_tells", &schedule, &report)
}
