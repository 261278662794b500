//! How whole computes read, access by access.

use crate::flows::rows::{fresh, plays, run_all};
use moka_init::Flow;
use std::alloc::AllocError;

/// Flows: what is started, the rules, and the rows.
const FLOWS: [(&str, &str, &str); 9] = [
    // A compute owns, looks, asks, stores and settles.
    (
        "compute",
        "no rule",
        "wait or own / owns / going\n\
            take owed / none / going\n\
            get / absent / going\n\
            ask op / opened / ask none\n\
            take told / not yet / wait\n\
            take told / put 5 / going\n\
            take owed / none / going\n\
            stamp moment / stamped / going\n\
            insert / absent / going\n\
            post write / posted / going\n\
            settle nothing / settled / inserted\n",
    ),
    // A waiting compute begins anew, however its owner ended.
    (
        "compute",
        "no rule",
        "wait or own / waits / going\n\
            read settled / not yet / wait\n\
            read settled / nothing / going\n\
            wait or own / waits / going\n\
            read settled / aborted / going\n\
            wait or own / owns / going\n\
            take owed / none / going\n\
            get / found / going\n\
            judge / seen / going\n\
            ask op / opened / ask found\n\
            take told / nop / going\n\
            settle nothing / settled / unchanged\n",
    ),
    // A compute is told to take the record out, and answers what the table has when it does.
    (
        "compute",
        "no rule",
        "wait or own / owns / going\n\
            take owed / none / going\n\
            get / found / going\n\
            judge / seen / going\n\
            ask op / opened / ask found\n\
            take told / remove / going\n\
            take owed / none / going\n\
            stamp moment / stamped / going\n\
            remove / found / going\n\
            post write / posted / going\n\
            settle nothing / settled / removed\n",
    ),
    (
        "compute",
        "no rule",
        "wait or own / owns / going\n\
            take owed / none / going\n\
            get / found / going\n\
            judge / seen / going\n\
            ask op / opened / ask found\n\
            take told / remove / going\n\
            take owed / none / going\n\
            stamp moment / stamped / going\n\
            remove / absent / going\n\
            clock / told / going\n\
            settle nothing / settled / still none\n",
    ),
    // One that computes alone reports beside an owner.
    (
        "compute alone",
        "no rule",
        "own alone / owned by another / going\n\
            take owed / none / going\n\
            get / found / going\n\
            judge / seen / unchanged\n",
    ),
    (
        "compute alone",
        "no rule",
        "own alone / owned by nobody / going\n\
            take owed / none / going\n\
            get / absent / going\n\
            ask try op / opened / ask none\n\
            take told / error 4 / going\n\
            settle nothing / settled / compute error\n",
    ),
    (
        "compute alone",
        "disabled",
        "own alone / owned by another / going\n\
            take owed / none / still none\n",
    ),
    // An upsert's value is told to the listener before its end.
    (
        "upsert",
        "a listener",
        "wait or own / owns / going\n\
            take owed / none / going\n\
            get / found / going\n\
            judge / seen / going\n\
            ask value / opened / ask found\n\
            take told / value 5 / going\n\
            take owed / none / going\n\
            lock key / locked / going\n\
            stamp moment / stamped / going\n\
            insert / found / going\n\
            open notice / replaced / ask listener\n\
            notice ended / heard / going\n\
            unlock key / unlocked / going\n\
            post write / posted / going\n\
            settle nothing / settled / replaced\n",
    ),
    // A disabled cache is asked with nothing, and stores nothing.
    (
        "compute",
        "disabled",
        "wait or own / owns / going\n\
            take owed / none / going\n\
            ask op / opened / ask none\n\
            take told / put 5 / going\n\
            settle nothing / settled / inserted\n",
    ),
];

#[test]
fn computes_run_access_by_access(rt: HostRuntime) {
    run_all(&rt, &FLOWS);
}

// Whether it waits on, and holds no write once it was told to take out what isn't there.
fn waits_on(flow: &mut Flow<u32, u32, u32>) -> Result<bool, AllocError> {
    let played = plays(
        flow,
        "wait or own / owns / going\n\
            take owed / none / going\n\
            ask op / opened / ask none\n\
            take told / nothing / wait\n\
            take told / remove / going\n\
            take owed / none / going\n",
    )?;
    Ok(played && flow.held().is_none())
}

#[test]
fn a_compute_waits_on_after_an_answer_that_it_does_not_take(rt: HostRuntime) {
    let mut flow = fresh("compute", "disabled").expect(&rt, "such a call");
    let waited = waits_on(&mut flow);
    drop(flow);
    assert!(rt; matches!(waited, Ok(true)));
}
