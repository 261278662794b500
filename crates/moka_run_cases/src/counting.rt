//! How many accesses a step makes, on a ground that counts them.
ghost use Rattle.std.specs.Prelude.{◌≡◌, IfOk, OnErr, nat_eq};
ghost use Rattle.std.proofs.Common.{refl, ◌∙◌};
ghost use Rattle.moka_hist.specs.State.{State};
ghost use Rattle.moka_hist.specs.Step.{May};
ghost use Rattle.moka_hist.specs.Run.{IsReached};
ghost use Rattle.moka_init.specs.Grounds.{access_at};
ghost use Rattle.moka_machine.specs.Calls.{HasPlace};
ghost use Rattle.moka_layers.specs.Counted.{counted};
ghost use Rattle.moka_machine.specs.NumberTest.{number_tests};
ghost use Rattle.moka_machine.specs.Machine.{IsOut, IsValid, TakenOut};

use crate::fresh::{machine_for, schedule_of};
use moka_hist::{Event, Got, IdList, Refusal, Reply, Tests, Visit, Want};
use moka_init::{Alone, Flow, Ground, step};
use moka_run::{Machine, NumberTests, run};
use moka_values::Exact;
use std::alloc::{AllocError, Global};
use std::hash::Hash;
use std::process::Abort;
use std::slice;
use std::test::Fail;

// A machine, and how many accesses were made on it.
#[derive(Drop)]
struct Counting<K: Eq + Hash, V, E, T> {
    machine: Machine<K, V, E, T>,
    accesses: u64,
}

impl<K: Eq + Hash + Exact, V: Exact, E: Exact, T: Tests<K, V> + Drop> Ground<K, V, E>
    for Counting<K, V, E, T> {
    ghost use Rattle.moka_hist.specs.State.{World};
    ghost use Rattle.moka_init.specs.Grounds.{Accesses, Gives, Lacks, OfWanted};
    ghost use Rattle.moka_layers.specs.Needing.{NeedsMemory};
    ghost use Rattle.moka_layers.specs.Layers.{account_of};
    ghost use Rattle.moka_machine.specs.Machine.{Reaches, AllowsEvent};
    ghost use Rattle.moka_machine.specs.TheTable.{the_table};

    ghost stands = { λ c w. Reaches K.eq T.Tests c.machine w };

    ghost fits = { λ c want. AllowsEvent K.eq T.Tests c.machine want };

    ghost account = { λ c. account_of (the_table K.eq) c.machine.layers };

    ghost needs = { NeedsMemory };

    ghost keeps = { λ old new. new.machine.calls ≡ old.machine.calls };

    ghost allows = { λ c w want stands may. (w, stands, may) };

    ghost keeps_same = { λ c. refl };

    ghost keeps_on = { λ a b c before after. after ∙ before };

    ghost counts = { λ c w stands.
        counted (the_table K.eq) T.Tests K.eq c.machine.layers w stands.layers };

    fn access(&mut self, want: Want<K, V, E>) -> Result<Got<K, V, E>, AllocError>
        requires fits { AllowsEvent K.eq T.Tests self.old.machine want }
        // What it gives, and what is told then.
        ensures gives { IfOk result (λ given.
            OfWanted (account_of (the_table K.eq) self.old.machine.layers) want
            (λ access. Gives K.eq self.old.machine.layers.call
            (Reaches K.eq T.Tests self.old.machine) access given
            (Reaches K.eq T.Tests self.new.machine))) }
        ensures tells { IfOk result (λ given.
            OfWanted (account_of (the_table K.eq) self.old.machine.layers) want
            (λ access. Accesses (account_of (the_table K.eq) self.old.machine.layers) access given
            (account_of (the_table K.eq) self.new.machine.layers))) }
        ensures keeps { self.new.machine.calls ≡ self.old.machine.calls }
        // Without memory.
        ensures err { OnErr result (account_of (the_table K.eq) self.new.machine.layers
            ≡ account_of (the_table K.eq) self.old.machine.layers) }
        ensures err_stands { OnErr result ((w : World K V E)
            → Reaches K.eq T.Tests self.old.machine w → Reaches K.eq T.Tests self.new.machine w) }
        ensures err_needs { OnErr result
            (OfWanted (account_of (the_table K.eq) self.old.machine.layers) want
            (Lacks (Reaches K.eq T.Tests self.old.machine) NeedsMemory)) }
    {
        self.accesses = self.accesses.saturating_add(1);
        self.machine.access(want)
    }

    fn retire(&mut self, ids: &IdList) -> Result<Got<K, V, E>, AllocError>
        requires fits { AllowsEvent K.eq T.Tests self.old.machine
            (Want.Desk (Visit.Retire ids.now)) }
        // What it gives, and what is told then.
        ensures gives { IfOk result (λ given.
            OfWanted (account_of (the_table K.eq) self.old.machine.layers)
            (Want.Desk (Visit.Retire ids.now))
            (λ access. Gives K.eq self.old.machine.layers.call
            (Reaches K.eq T.Tests self.old.machine) access given
            (Reaches K.eq T.Tests self.new.machine))) }
        ensures tells { IfOk result (λ given.
            OfWanted (account_of (the_table K.eq) self.old.machine.layers)
            (Want.Desk (Visit.Retire ids.now))
            (λ access. Accesses (account_of (the_table K.eq) self.old.machine.layers) access given
            (account_of (the_table K.eq) self.new.machine.layers))) }
        ensures keeps { self.new.machine.calls ≡ self.old.machine.calls }
        // Without memory.
        ensures err { OnErr result (account_of (the_table K.eq) self.new.machine.layers
            ≡ account_of (the_table K.eq) self.old.machine.layers) }
        ensures err_stands { OnErr result ((w : World K V E)
            → Reaches K.eq T.Tests self.old.machine w → Reaches K.eq T.Tests self.new.machine w) }
        ensures err_needs { OnErr result
            (OfWanted (account_of (the_table K.eq) self.old.machine.layers)
            (Want.Desk (Visit.Retire ids.now))
            (Lacks (Reaches K.eq T.Tests self.old.machine) NeedsMemory)) }
    {
        self.accesses = self.accesses.saturating_add(1);
        self.machine.retire(ids)
    }
}

impl<K: Eq + Hash + Exact, V: Exact, E: Exact, T: Tests<K, V> + Drop> Alone<K, V, E>
    for Counting<K, V, E, T> {}

// A machine after a step, with the reply, or None where memory was wanting, and the accesses made.
#[derive(Drop)]
struct Counted<K: Eq + Hash, V, E, T> {
    machine: Machine<K, V, E, T>,
    reply: Option<Reply<K, V, E>>,
    accesses: u64,
}

// Makes a step of the call that was taken out, on a ground that counts.
fn step_out<K: Eq + Hash + Exact, V: Exact, E: Exact, T: Tests<K, V> + Drop>(
    machine: Machine<K, V, E, T>,
    call: u64,
    mut flow: Box<Flow<K, V, E>>,
) -> Counted<K, V, E, T>
    requires place { HasPlace machine.calls call }
    requires out { IsOut K.eq machine flow.value }
    requires taken { (s : State K V E) × TakenOut K.eq T.Tests machine call flow.value s
        × IsReached K.eq s × May s.world (access_at flow.value) }
    ensures { IsValid K.eq T.Tests result.machine }
{
    moka_laws::move_is_step::<K, V, E>();
    moka_laws::reached_by_step::<K, V, E>();
    let mut counting = Counting {
        machine,
        accesses: 0,
    };
    let stepped = step(&mut *flow, &mut counting);
    let Counting {
        mut machine,
        accesses,
    } = counting;
    match stepped {
        Ok(turn) => {
            let reply = Some(machine.after_step(call, flow, turn));
            Counted {
                machine,
                reply,
                accesses,
            }
        }
        Err(_) => {
            machine.put_in(call, flow);
            Counted {
                machine,
                reply: None,
                accesses,
            }
        }
    }
}

// Makes a step of a call, on a ground that counts.
fn counted_step<K: Eq + Hash + Exact, V: Exact, E: Exact, T: Tests<K, V> + Drop>(
    mut machine: Machine<K, V, E, T>,
    call: u64,
) -> Counted<K, V, E, T>
    requires valid { IsValid K.eq T.Tests machine }
    ensures { IsValid K.eq T.Tests result.machine }
{
    moka_laws::calls_are_safe::<K, V, E>();
    match machine.take_out(call) {
        None => Counted {
            machine,
            reply: Some(Reply::Refused(Refusal::UnknownCall)),
            accesses: 0,
        },
        Some(flow) => step_out(machine, call, flow),
    }
}

// A machine after some steps, and how many accesses these made: None where one of them made more
// than one, or none, or memory was wanting.
#[derive(Drop)]
struct Driven {
    machine: Machine<u32, u32, u32, NumberTests>,
    accesses: Option<u64>,
}

// Makes a step of a call that lives.
fn drive_step(machine: Machine<u32, u32, u32, NumberTests>, call: u64) -> (Driven, bool)
    requires { IsValid nat_eq number_tests machine }
    ensures { IsValid nat_eq number_tests result.0.machine }
{
    let Counted {
        machine,
        reply,
        accesses,
    } = counted_step(machine, call);
    let accesses = (accesses == 1 && reply.is_some()).then_some(1);
    let going = reply == Some(Reply::Going);
    drop(reply);
    (Driven { machine, accesses }, going)
}

// Makes steps of a call, at most a hundred, up to the first that doesn't leave it going.
fn drive_poll(mut machine: Machine<u32, u32, u32, NumberTests>, call: u64) -> Driven
    requires { IsValid nat_eq number_tests machine }
    ensures { IsValid nat_eq number_tests result.machine }
{
    for made in 0..100_u64 {
        let (driven, going) = drive_step(machine, call);
        match driven.accesses {
            Some(_) if going => machine = driven.machine,
            Some(_) => {
                return Driven {
                    machine: driven.machine,
                    accesses: Some(made + 1),
                };
            }
            None => return driven,
        }
    }
    Driven {
        machine,
        accesses: None,
    }
}

// Carries an event out, and tells how many accesses its steps made.
fn drive(
    alloc: Global,
    mut machine: Machine<u32, u32, u32, NumberTests>,
    event: &Event<u32, u32, u32>,
) -> Driven
    requires { IsValid nat_eq number_tests machine }
    ensures { IsValid nat_eq number_tests result.machine }
{
    match event {
        Event::Step { call } => drive_step(machine, *call).0,
        Event::Poll { call } => drive_poll(machine, *call),
        _ => {
            let accesses = match run(alloc, &mut machine, slice::from_ref(event)) {
                Ok(_) => Some(0),
                Err(_) => None,
            };
            Driven { machine, accesses }
        }
    }
}

// Carries the events out, and tells how many accesses their steps made.
fn drive_all(
    alloc: Global,
    mut machine: Machine<u32, u32, u32, NumberTests>,
    events: &[Event<u32, u32, u32>],
) -> Driven
    requires { IsValid nat_eq number_tests machine }
{
    let mut total: u64 = 0;
    for event in events {
        let driven = drive(alloc, machine, event);
        match driven.accesses {
            Some(accesses) => total = total.saturating_add(accesses),
            None => return driven,
        }
        machine = driven.machine;
    }
    Driven {
        machine,
        accesses: Some(total),
    }
}

// How many accesses the steps of the schedule make, each one. Its lines are parted by ` / `.
fn accesses_of(alloc: Global, row: &str) -> Result<Option<u64>, AllocError> {
    let schedule = schedule_of(alloc, row)?;
    let machine = machine_for(alloc, &schedule)?;
    let driven = drive_all(alloc, machine, &schedule.events);
    let Driven { machine, accesses } = driven;
    drop(machine);
    Ok(accesses)
}

/// Plays each of the schedules, and compares how many accesses its steps make.
fn are_counted(rt: &(impl AllocGlobal + Abort), rows: &[(&str, u64)]) -> Result<(), Fail> {
    for row in rows {
        let schedule = row.0;
        let accesses = accesses_of(rt.alloc(), schedule)?;
        assert_eq!(rt; accesses, Some(row.1), "{schedule}");
    }
    Ok(())
}

/// Schedules, with how many accesses the steps of each make, call by call.
const SCHEDULES: [(&str, u64); 25] = [
    ("cache / start get 1 / poll 1", 2),
    (
        "cache log=8 / start insert 1 5 / poll 1 / start get 1 / poll 2",
        4 + 3,
    ),
    (
        "cache log=1 / start insert 1 5 / poll 1 / start insert 2 6 / poll 2",
        4 + 9,
    ),
    // Call 3 waits for the turn of call 2, and is dropped; call 4 posts its write.
    (
        "cache log=1 / start insert 1 5 / poll 1 / start insert 2 6 / step 2 / step 2 / \
         step 2 / step 2 / step 2 / start insert 3 7 / poll 3 / drop 3 / poll 2 / \
         start get 3 / poll 4",
        4 + 5 + 5 + 4 + 10,
    ),
    (
        "cache log=8 / start get_with 1 / start get_with 1 / poll 1 / poll 1 / poll 2 / \
         tell 1 value 7 / poll 2 / poll 1 / poll 2",
        5 + 1 + 4 + 1 + 6 + 1,
    ),
    (
        "cache log=8 / start get_with 1 / start get_with 1 / poll 1 / poll 2 / drop 1 / \
         poll 2 / tell 2 value 9 / poll 2",
        5 + 4 + 4 + 6,
    ),
    // Removals that find their record, and nothing.
    (
        "cache log=8 / start insert 1 5 / poll 1 / start remove 1 / poll 2 / \
         start invalidate 1 / poll 3",
        4 + 4 + 4,
    ),
    (
        "cache cap=1 log=8 / start insert 1 5 / poll 1 / start evict 1 2 Size / poll 2 / \
         start evict 1 1 Explicit / poll 3 / start evict 1 1 Size / poll 4",
        4 + 1 + 2 + 5,
    ),
    (
        "cache log=8 listener / start insert 1 5 / poll 1 / start remove 1 / poll 2 / \
         tell 2 done / poll 2 / start evict 1 1 Size / poll 3",
        6 + 5 + 3 + 3,
    ),
    // Loads that fail, find nothing, or load again, and values stored where none is.
    (
        "cache log=8 / start optional 1 / start optional 1 / poll 1 / poll 2 / \
         tell 1 nothing / poll 1 / poll 2",
        5 + 4 + 2 + 1,
    ),
    (
        "cache log=8 / start try 1 / start try 1 / poll 1 / poll 2 / tell 1 error 3 / \
         poll 1 / poll 2",
        5 + 4 + 2 + 1,
    ),
    (
        "cache log=8 / start insert 1 4 / poll 1 / start get_with 1 if 2 / poll 2 / \
         tell 2 value 5 / poll 2 / start get_with 1 if 2 / poll 3",
        4 + 7 + 6 + 3,
    ),
    (
        "cache log=8 / start or_insert 1 6 / poll 1 / start or_insert 1 7 / poll 2",
        6 + 3,
    ),
    // Computes that put, keep, remove and wait; one that computes alone beside an owner.
    (
        "cache log=8 / start compute 1 / poll 1 / tell 1 put 5 / poll 1 / start compute 1 / \
         poll 2 / tell 2 nop / poll 2 / start compute_alone 1 / poll 3 / tell 3 remove / \
         poll 3",
        4 + 6 + 5 + 2 + 5 + 6,
    ),
    (
        "cache log=8 / start upsert 1 / start try_compute 1 / poll 1 / poll 2 / \
         start compute_alone 1 / poll 3 / tell 1 value 5 / poll 1 / poll 2 / tell 2 error 3 / \
         poll 2",
        4 + 2 + 3 + 6 + 6 + 2,
    ),
    (
        "cache log=8 listener / start insert 1 5 / poll 1 / start compute 1 / poll 2 / \
         tell 2 put 6 / poll 2 / tell 2 done / poll 2",
        6 + 5 + 6 + 4,
    ),
    // Records that expire or are hidden, and an invalidation of all, which is one visit.
    (
        "cache log=8 ttl=10 / start insert 1 5 / poll 1 / at 10 / start get 1 / poll 2 / \
         start compute 1 / poll 3 / tell 3 remove / poll 3",
        4 + 3 + 5 + 6,
    ),
    (
        "cache log=8 tti=10 listener / start insert 1 5 / poll 1 / at 20 / \
         start invalidate_all / poll 2 / start remove 1 / poll 3 / tell 3 done / poll 3",
        6 + 1 + 5 + 3,
    ),
    ("cache cap=0 / start invalidate_all / poll 1", 1),
    // Walks: a list, then a look for each key and a judgement of what it finds.
    (
        "cache log=8 / start insert 1 5 / poll 1 / start insert 2 6 / poll 2 / start iter / \
         poll 3 / poll 3 / poll 3",
        4 + 4 + 3 + 2 + 1,
    ),
    (
        "cache log=8 ttl=10 / start insert 1 5 / poll 1 / start iter / step 2 / \
         start remove 1 / poll 3 / step 2 / start insert 1 6 / poll 4 / at 10 / start iter / \
         poll 5",
        4 + 1 + 4 + 1 + 4 + 3,
    ),
    // A disabled cache.
    ("cache cap=0 / start iter / poll 1", 1),
    (
        "cache cap=0 / start insert 1 5 / poll 1 / start get_with 1 / poll 2 / \
         tell 2 value 7 / poll 2",
        1 + 3 + 2,
    ),
    (
        "cache cap=0 / start or_insert 1 6 / poll 1 / start try 1 / poll 2 / \
         tell 2 error 7 / poll 2",
        1 + 3 + 2,
    ),
    (
        "cache cap=0 / start compute 1 / poll 1 / tell 1 put 5 / poll 1 / \
         start compute_alone 1 / poll 2 / tell 2 remove / poll 2",
        3 + 2 + 3 + 6,
    ),
];

#[test]
fn each_step_makes_one_access_at_every_point_of_every_flow(rt: HostRuntime) -> Result<(), Fail> {
    are_counted(&rt, &SCHEDULES)
}
