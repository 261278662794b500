//! Schedules of rows, the machines that are to run them, and replies to single events.
ghost use Rattle.std.specs.Prelude.{nat_eq, IfOk};
ghost use Rattle.moka_machine.specs.Machine.{IsValid};
ghost use Rattle.moka_machine.specs.NumberTest.{number_tests};

use crate::in_memory::text_of;
use moka_hist::{Event, Reply};
use moka_run::{Machine, NumberTests, run};
use moka_text::{Schedule, read_schedule};
use std::alloc::{AllocError, Global};
use std::slice;

/// Reads the schedule of a row, whose lines ` / ` parts.
pub fn schedule_of(alloc: Global, row: &str) -> Result<Schedule, AllocError> {
    let text = text_of(alloc, row)?;
    read_schedule(alloc, text.as_bytes()).map_err(|_| AllocError)
}

/// The fresh machine that is to run a schedule.
pub fn machine_for(
    alloc: Global,
    schedule: &Schedule,
) -> Result<Machine<u32, u32, u32, NumberTests>, AllocError>
    ensures { IfOk result (λ machine. IsValid nat_eq number_tests machine) }
{
    if schedule.log < 1 || schedule.log > 65536 {
        return Err(AllocError);
    }
    let rules = schedule.settings.rules();
    let seed = schedule.settings.seed.unwrap_or(0);
    Machine::build(alloc, rules, schedule.log, seed, NumberTests).map_err(|_| AllocError)
}

/// The reply to one event. None where memory is wanting.
pub fn reply_to(
    alloc: Global,
    machine: &mut Machine<u32, u32, u32, NumberTests>,
    event: &Event<u32, u32, u32>,
) -> Option<Reply<u32, u32, u32>>
    requires { IsValid nat_eq number_tests machine.old }
    ensures { IsValid nat_eq number_tests machine.new }
{
    let report = match run(alloc, machine, slice::from_ref(event)) {
        Ok(report) => report,
        Err(_) => return None,
    };
    match report.replies.as_slice() {
        [reply] => reply.clone().ok(),
        _ => None,
    }
}
