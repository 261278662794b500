//! Schedules driven by single steps come to what they come to by polls.
ghost use Rattle.std.specs.Prelude.{nat_eq};
ghost use Rattle.moka_machine.specs.Machine.{IsValid};
ghost use Rattle.moka_machine.specs.NumberTest.{number_tests};

use crate::fresh::{machine_for, schedule_of};
use crate::memory::keep;
use moka_hist::{Event, Notice, Place, Reply, Stored};
use moka_run::{Machine, NumberTests, run};
use std::alloc::{AllocError, Global};
use std::slice;
use std::test::Fail;

/// What a schedule came to: the replies, what is stored by key, where the writes stand, and how far
/// the notices are.
#[derive(PartialEq, Debug, Drop)]
struct Outcome {
    replies: Vec<Reply<u32, u32, u32>>,
    entries: Vec<(u32, Stored<u32>)>,
    places: Vec<(u64, Place)>,
    notices: Vec<Notice<u32, u32>>,
}

/// Schedules, ten of each kind. ` / ` parts lines.
const SCHEDULES: [&str; 70] = [
    // Of gets, inserts and loads.
    "cache / start get 1 / poll 1",
    "cache log=8 / start insert 1 5 / poll 1 / start get 1 / poll 2",
    "cache log=8 / start insert 1 5 / poll 1 / start insert 1 6 / poll 2 / start get 1 / poll 3",
    "cache log=1 / start insert 1 5 / poll 1 / start insert 2 6 / poll 2 / start insert 3 7 / poll 3",
    "cache log=2 / at 3 / start insert 1 5 / start insert 2 6 / poll 2 / poll 1 / at 9 / start get 1 / poll 3",
    "cache log=8 / start get_with 1 / poll 1 / tell 1 value 7 / poll 1 / start get_with 1 / poll 2",
    "cache log=8 / start get_with 1 / start get_with 1 / poll 1 / poll 2 / tell 1 value 7 / poll 2 / poll 1 / poll 2",
    "cache log=8 / start get_with 1 / start get_with 1 / poll 1 / poll 2 / drop 1 / poll 2 / tell 2 value 9 / poll 2",
    "cache log=1 / start get_with 1 / start get_with 2 / poll 1 / poll 2 / tell 2 value 4 / tell 1 value 3 / poll 1 / poll 2",
    "cache log=8 / start get_with 1 / poll 1 / start insert 1 5 / poll 2 / tell 1 done / tell 1 value 6 / drop 2 / poll 1",
    // Under a listener.
    "cache log=8 listener / start insert 1 5 / poll 1 / start insert 1 6 / poll 2 / tell 2 done / poll 2 / start get 1 / poll 3",
    "cache log=8 listener / start insert 1 5 / poll 1 / start insert 1 6 / poll 2 / drop 2 / start get 1 / poll 3 / tell 2 done / poll 3",
    "cache log=8 listener / start insert 1 5 / poll 1 / start insert 1 6 / poll 2 / drop 2 / start get 1 / poll 3 / tell 2 done / drop 3 / start get 1 / poll 4",
    "cache log=8 listener / start insert 1 5 / poll 1 / start insert 1 6 / poll 2 / drop 2 / start get 1 / poll 3 / drop 3 / tell 2 done / start get 1 / poll 4",
    "cache log=8 listener / start insert 1 5 / poll 1 / start insert 1 6 / poll 2 / tell 2 off / poll 2 / start insert 1 7 / poll 3",
    "cache log=8 listener / start insert 1 5 / poll 1 / start insert 1 6 / poll 2 / start insert 1 7 / poll 3 / at 9 / tell 2 done / poll 3 / poll 2 / poll 3",
    "cache log=8 listener / start insert 1 5 / poll 1 / start insert 1 6 / poll 2 / start insert 1 7 / poll 3 / drop 2 / poll 3",
    "cache log=8 listener / start get_with 1 / start get_with 1 / poll 1 / poll 2 / start insert 1 5 / poll 3 / tell 1 value 7 / poll 1 / drop 1 / poll 2",
    "cache log=8 listener / start insert 1 5 / poll 1 / start insert 1 6 / poll 2 / tell 2 value 9 / tell 2 done / tell 2 done / start get_with 2 / poll 3 / tell 3 done / tell 3 off",
    "cache log=1 listener / start insert 1 5 / poll 1 / start insert 1 6 / poll 2 / tell 2 done / poll 2 / start insert 1 7 / poll 3 / tell 3 done / poll 3",
    // Records are taken out, or none is stored.
    "cache log=8 / start insert 1 5 / poll 1 / start remove 1 / poll 2 / start remove 1 / poll 3 / start get 1 / poll 4",
    "cache log=8 / start insert 1 5 / poll 1 / start invalidate 1 / poll 2 / start invalidate 1 / poll 3",
    "cache log=1 / start insert 1 5 / poll 1 / start remove 1 / poll 2 / start insert 2 6 / poll 3",
    "cache cap=1 log=8 / start insert 1 5 / poll 1 / start evict 1 9 Size / poll 2 / start evict 1 1 Expired / poll 3 / start evict 1 1 Size / poll 4 / start remove 1 / poll 5 / start invalidate 1 / poll 6",
    "cache cap=0 log=8 / start insert 1 5 / poll 1 / start get 1 / poll 2 / start get_with 1 / poll 3 / tell 3 value 3 / poll 3",
    "cache cap=0 log=8 / start get_with 1 / start get_with 1 / poll 1 / poll 2 / drop 1 / poll 2 / tell 2 value 8 / poll 2",
    "cache log=8 listener / start insert 1 5 / poll 1 / start remove 1 / poll 2 / start insert 1 6 / poll 3 / start invalidate 1 / poll 4 / tell 2 done / poll 2 / poll 3 / poll 4",
    "cache cap=1 log=8 listener / start insert 1 5 / poll 1 / start evict 1 1 Size / poll 2 / drop 2 / tell 2 done / start evict 1 1 Size / poll 3 / start get 1 / poll 4",
    "cache log=8 listener / start insert 1 5 / poll 1 / start insert 1 6 / poll 2 / tell 2 off / poll 2 / start invalidate 1 / poll 3",
    "cache cap=0 log=8 listener / start remove 1 / poll 1 / start invalidate 1 / poll 2 / start evict 1 1 Size / poll 3",
    // Loads that fail, find nothing, load again or insert.
    "cache log=8 / start get_with 1 / start optional 1 / start try 1 / poll 1 / poll 2 / poll 3 / tell 3 error 1 / tell 2 nothing / tell 1 value 1 / poll 3 / poll 2 / poll 1",
    "cache log=8 / start try 1 / start try 1 / poll 1 / poll 2 / tell 1 error 3 / poll 1 / poll 2",
    "cache log=8 / start try 1 / start try 1 / poll 1 / poll 2 / tell 1 error 3 / poll 2 / drop 1 / poll 2",
    "cache log=1 / start optional 1 / start optional 1 / poll 1 / poll 2 / tell 1 value 3 / poll 1 / poll 2 / start try 1 / poll 3",
    "cache log=8 / start insert 1 4 / poll 1 / start get_with 1 if 2 / poll 2 / tell 2 value 5 / poll 2 / start get_with 1 if 2 / poll 3",
    "cache log=8 listener / start insert 1 4 / poll 1 / start get_with 1 if 2 / start get_with 1 if 2 / poll 2 / poll 3 / tell 2 value 6 / poll 2 / poll 3 / tell 2 done / poll 2 / poll 3",
    "cache log=8 listener / start insert 1 5 / poll 1 / start remove 1 / poll 2 / start or_insert 1 6 / poll 3 / start or_insert 1 7 / poll 4 / tell 2 done / poll 2 / poll 3 / poll 4 / tell 4 done / poll 4",
    "cache log=1 / start or_insert 1 6 / poll 1 / start or_insert 2 7 / poll 2 / start or_insert 1 8 / poll 3",
    "cache cap=0 log=8 / start or_insert 1 6 / poll 1 / start optional 1 / start optional 1 / poll 2 / poll 3 / tell 2 nothing / poll 2 / poll 3",
    "cache cap=0 log=8 / start try 1 / start try 1 / poll 1 / poll 2 / drop 1 / poll 2 / tell 2 value 8 / poll 2",
    // Of computes.
    "cache log=8 / start compute 1 / poll 1 / start compute_alone 1 / poll 2 / tell 1 put 5 / poll 1 / start upsert 1 / poll 3 / tell 3 value 8 / poll 3 / start compute 1 / poll 4 / tell 4 nop / poll 4",
    "cache log=8 / start try_compute 1 / start compute 1 / poll 1 / poll 2 / tell 1 error 4 / poll 1 / poll 2 / tell 2 put 5 / poll 2",
    "cache log=8 / start insert 1 5 / poll 1 / start compute 1 / poll 2 / start insert 1 6 / poll 3 / tell 2 remove / poll 2",
    "cache log=8 / start insert 1 5 / poll 1 / start compute 1 / poll 2 / start remove 1 / poll 3 / tell 2 remove / poll 2",
    "cache log=1 / start upsert 1 / start upsert 1 / poll 1 / poll 2 / tell 1 value 5 / poll 1 / poll 2 / tell 2 value 6 / poll 2",
    "cache log=8 / start compute 1 / start compute 1 / start compute 1 / poll 1 / poll 2 / poll 3 / drop 1 / poll 3 / poll 2 / tell 3 put 5 / poll 3 / poll 2 / tell 2 remove / poll 2",
    "cache log=8 listener / start insert 1 5 / poll 1 / start compute 1 / poll 2 / tell 2 put 6 / poll 2 / start compute 1 / poll 3 / drop 2 / poll 3 / tell 2 done / poll 3",
    "cache log=8 listener / start insert 1 5 / poll 1 / start compute 1 / poll 2 / tell 2 remove / poll 2 / start upsert 1 / poll 3 / tell 2 done / poll 2 / poll 3 / tell 3 value 6 / poll 3",
    "cache log=8 listener / start compute 1 / poll 1 / tell 1 remove / poll 1 / start compute_alone 1 / poll 2 / tell 2 error 3 / poll 2",
    "cache cap=0 log=8 / start compute 1 / start compute 1 / poll 1 / poll 2 / start compute_alone 1 / poll 3 / tell 1 put 5 / poll 1 / poll 2 / tell 2 remove / poll 2",
    // Of records that expire or are invalidated.
    "cache log=8 ttl=10 / start insert 1 5 / poll 1 / at 9 / start get 1 / poll 2 / at 10 / start get 1 / poll 3 / start compute 1 / poll 4 / tell 4 remove / poll 4",
    "cache log=8 tti=10 / start insert 1 5 / poll 1 / at 9 / start get 1 / poll 2 / at 18 / start get_with 1 / poll 3 / at 27 / start or_insert 1 6 / poll 4 / at 37 / start get 1 / poll 5",
    "cache log=8 tti=10 listener / start insert 1 5 / poll 1 / at 20 / start invalidate_all / poll 2 / start insert 1 6 / poll 3 / tell 3 done / poll 3",
    "cache log=8 ttl=10 listener / start insert 1 5 / poll 1 / at 9 / start insert 1 6 / step 2 / step 2 / step 2 / step 2 / at 10 / poll 2 / tell 2 done / poll 2",
    "cache log=8 ttl=0 / start get_with 1 / start get_with 1 / poll 1 / poll 2 / tell 1 value 7 / poll 1 / poll 2 / start get_with 1 / poll 3 / tell 3 value 8 / poll 3",
    "cache log=1 tti=10 / start insert 1 5 / poll 1 / at 8 / start get 1 / poll 2 / start get 1 / step 3 / step 3 / at 9 / start remove 1 / poll 4 / start insert 2 6 / poll 5 / start insert 3 7 / poll 6 / at 17 / poll 3",
    "cache log=8 / at 7 / start insert 1 5 / poll 1 / start invalidate_all / poll 2 / start get 1 / poll 3 / at 8 / start invalidate_all / poll 4 / start get_with 1 if 5 / poll 5 / tell 5 value 6 / poll 5",
    "cache log=8 ttl=10 tti=5 listener / start insert 1 5 / poll 1 / at 5 / start compute 1 / poll 2 / tell 2 put 6 / poll 2 / at 9 / tell 2 done / poll 2 / start evict 1 2 Expired / poll 3 / at 10 / start evict 1 2 Expired / poll 4",
    "cache log=8 listener / start insert 1 5 / poll 1 / start insert 1 6 / poll 2 / at 1 / start invalidate_all / start get 1 / poll 4 / poll 3 / tell 2 done / poll 4 / start remove 1 / poll 5 / poll 2",
    "cache cap=0 ttl=10 / start invalidate_all / poll 1 / start get_with 1 / poll 2 / at 10 / tell 2 value 7 / poll 2",
    // Of walks over the records.
    "cache / start iter / poll 1 / poll 1",
    "cache cap=0 log=8 / start insert 1 5 / poll 1 / start iter / poll 2",
    "cache log=8 / start insert 1 5 / poll 1 / start iter / poll 2 / poll 2 / poll 2",
    "cache log=8 / start insert 1 5 / poll 1 / start insert 2 6 / poll 2 / start iter / poll 3 / poll 3 / poll 3",
    "cache log=8 / start insert 1 5 / poll 1 / start iter / poll 2 / drop 2 / start iter / start iter / poll 3 / poll 4 / start remove 1 / poll 5 / poll 3 / drop 4",
    "cache log=8 / start insert 1 5 / poll 1 / start iter / step 2 / start insert 1 6 / poll 3 / poll 2 / start remove 1 / poll 4 / start insert 1 7 / poll 5 / poll 2",
    "cache log=8 ttl=10 / start insert 1 5 / poll 1 / at 5 / start insert 2 6 / poll 2 / at 12 / start iter / poll 3 / poll 3 / start iter / step 4 / step 4 / at 15 / poll 4",
    "cache log=8 tti=10 / start insert 1 5 / poll 1 / at 9 / start iter / poll 2 / poll 2 / at 10 / start get 1 / poll 3 / start iter / poll 4",
    "cache log=8 ttl=10 listener / start insert 1 5 / poll 1 / start iter / poll 2 / at 3 / start insert 1 6 / poll 3 / start iter / poll 4 / poll 2 / start remove 1 / poll 5 / drop 3 / tell 3 done / poll 5 / poll 4 / tell 5 off / poll 5 / start insert 1 7 / poll 6 / at 13 / start iter / poll 7",
    "cache cap=1 log=8 listener / start insert 1 5 / poll 1 / start insert 2 6 / poll 2 / start evict 1 1 Size / poll 3 / drop 3 / tell 3 done / start iter / poll 4 / at 1 / start invalidate_all / poll 5 / poll 4 / start iter / poll 6",
];

/// Carries the event out, and keeps the reply to it.
fn carry_out(
    alloc: Global,
    machine: &mut Machine<u32, u32, u32, NumberTests>,
    event: &Event<u32, u32, u32>,
    replies: &mut Vec<Reply<u32, u32, u32>>,
) -> Result<(), AllocError>
    requires { IsValid nat_eq number_tests machine.old }
    ensures { IsValid nat_eq number_tests machine.new }
{
    match run(alloc, machine, slice::from_ref(event)) {
        Ok(report) => keep(replies, report.replies.as_slice()),
        Err(_) => Err(AllocError),
    }
}

/// Polls the call by single steps, of which there are at most a hundred, and keeps the reply to the
/// last.
fn poll_by_steps(
    alloc: Global,
    machine: &mut Machine<u32, u32, u32, NumberTests>,
    call: u64,
    replies: &mut Vec<Reply<u32, u32, u32>>,
) -> Result<(), AllocError>
    requires { IsValid nat_eq number_tests machine.old }
    ensures { IsValid nat_eq number_tests machine.new }
{
    for _step in 0..100 {
        carry_out(alloc, machine, &Event::Step { call }, replies)?;
        match replies.as_slice() {
            [.., Reply::Going] => drop(replies.pop()),
            _ => return Ok(()),
        }
    }
    Err(AllocError)
}

/// Carries the event out, a poll by single steps where so is asked, and keeps the reply to it.
fn serve(
    alloc: Global,
    machine: &mut Machine<u32, u32, u32, NumberTests>,
    event: &Event<u32, u32, u32>,
    by_steps: bool,
    replies: &mut Vec<Reply<u32, u32, u32>>,
) -> Result<(), AllocError>
    requires { IsValid nat_eq number_tests machine.old }
    ensures { IsValid nat_eq number_tests machine.new }
{
    match event {
        Event::Poll { call } if by_steps => poll_by_steps(alloc, machine, *call, replies),
        _ => carry_out(alloc, machine, event, replies),
    }
}

/// What the schedule comes to, its polls made by single steps where so is asked.
fn comes_to(alloc: Global, row: &str, by_steps: bool) -> Result<Outcome, AllocError> {
    let schedule = schedule_of(alloc, row)?;
    let mut machine = machine_for(alloc, &schedule)?;
    let outcome = played(alloc, &mut machine, &schedule.events, by_steps);
    drop(machine);
    outcome
}

/// What the events come to on the machine.
fn played(
    alloc: Global,
    machine: &mut Machine<u32, u32, u32, NumberTests>,
    events: &[Event<u32, u32, u32>],
    by_steps: bool,
) -> Result<Outcome, AllocError>
    requires { IsValid nat_eq number_tests machine.old }
{
    let mut replies = Vec::new(alloc);
    for event in events {
        serve(alloc, machine, event, by_steps, &mut replies)?;
    }
    let mut entries = machine.entries(alloc)?.into_vec();
    entries.sort_unstable_by_key(|entry| entry.0);
    let places = machine.places(alloc)?.as_slice().to_vec(alloc)?;
    let notices = machine.notices(alloc)?.as_slice().to_vec(alloc)?;
    Ok(Outcome {
        replies,
        entries,
        places,
        notices,
    })
}

/// The first schedule that comes to something else by single steps than by polls.
fn first_other(
    alloc: Global,
    schedules: &[&'static str],
) -> Result<Option<&'static str>, AllocError> {
    for row in schedules {
        if comes_to(alloc, row, true)? != comes_to(alloc, row, false)? {
            return Ok(Some(*row));
        }
    }
    Ok(None)
}

#[test]
fn single_steps_come_to_what_polls_do_in_70_schedules(rt: HostRuntime) -> Result<(), Fail> {
    assert_eq!(rt; first_other(rt.alloc(), &SCHEDULES)?, None);
    Ok(())
}
