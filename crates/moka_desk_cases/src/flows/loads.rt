//! How whole loads read, access by access, and those that store where nothing is found.

use crate::flows::rows::{fresh, plays, run_all};
use moka_init::Flow;
use std::alloc::AllocError;

/// Flows: what is started, the rules, and the rows.
const FLOWS: [(&str, &str, &str); 14] = [
    // An owner looks again, then asks, stores and settles.
    (
        "get with",
        "no rule",
        "take owed / none / going\n\
            get / absent / going\n\
            wait or own / owns / going\n\
            get / found / going\n\
            judge / not seen / going\n\
            ask value / opened / ask\n\
            take told / not yet / wait\n\
            take told / value 9 / going\n\
            take owed / none / going\n\
            stamp moment / stamped / going\n\
            insert / absent / going\n\
            post write / posted / going\n\
            settle / settled / fresh\n",
    ),
    // A waiter owns after an abort, and settles what it finds.
    (
        "get with",
        "no rule",
        "take owed / none / going\n\
            get / absent / going\n\
            wait or own / waits / going\n\
            read settled / not yet / wait\n\
            read settled / aborted / going\n\
            wait or own / owns / going\n\
            get / found / going\n\
            judge / seen / going\n\
            settle / settled / loaded\n",
    ),
    // An error is settled and answered, and stores nothing.
    (
        "try",
        "no rule",
        "take owed / none / going\n\
            get / absent / going\n\
            wait or own / owns / going\n\
            get / absent / going\n\
            ask try / opened / ask\n\
            take told / error 3 / going\n\
            settle error / settled / error\n",
    ),
    (
        "try",
        "no rule",
        "take owed / none / going\n\
            get / absent / going\n\
            wait or own / waits / going\n\
            read settled / not yet / wait\n\
            read settled / error 3 / error\n",
    ),
    // Nothing is settled and answered, and nothing stored.
    (
        "optional",
        "no rule",
        "take owed / none / going\n\
            get / absent / going\n\
            wait or own / owns / going\n\
            get / absent / going\n\
            ask optional / opened / ask\n\
            take told / nothing / going\n\
            settle nothing / settled / neither\n",
    ),
    (
        "optional",
        "no rule",
        "take owed / none / going\n\
            get / absent / going\n\
            wait or own / waits / going\n\
            read settled / nothing / neither\n",
    ),
    // Both looks of an owner judge by its test.
    (
        "get with a test",
        "no rule",
        "take owed / none / going\n\
            get / found / going\n\
            judge by test / not seen / going\n\
            wait or own / owns / going\n\
            get / found / going\n\
            judge by test / seen / going\n\
            settle / settled / loaded\n",
    ),
    // A waiter answers what its owner settled, whatever its own test says.
    (
        "get with a test",
        "no rule",
        "take owed / none / going\n\
            get / found / going\n\
            judge by test / not seen / going\n\
            wait or own / waits / going\n\
            read settled / aborted / going\n\
            wait or own / waits / going\n\
            read settled / ready 6 / loaded\n",
    ),
    // An `or_insert` answers what it finds, or else stores.
    (
        "or insert",
        "no rule",
        "take owed / none / going\n\
            get / found / going\n\
            judge / seen / loaded\n",
    ),
    (
        "or insert",
        "no rule",
        "take owed / none / going\n\
            get / absent / going\n\
            take owed / none / going\n\
            stamp moment / stamped / going\n\
            insert / absent / going\n\
            post write / posted / fresh\n",
    ),
    // An `or_insert` replaces what came between.
    (
        "or insert",
        "a listener",
        "take owed / none / going\n\
            get / absent / going\n\
            take owed / none / going\n\
            lock key / locked / going\n\
            stamp moment / stamped / going\n\
            insert / found / going\n\
            open notice / replaced / ask listener\n\
            notice ended / heard / going\n\
            unlock key / unlocked / going\n\
            post write / posted / fresh\n",
    ),
    // A disabled cache neither looks nor stores what is loaded.
    ("or insert", "disabled", "take owed / none / fresh\n"),
    (
        "get with a test",
        "disabled",
        "take owed / none / going\n\
            wait or own / owns / going\n\
            ask value / opened / ask\n\
            take told / value 9 / going\n\
            settle / settled / fresh\n",
    ),
    (
        "optional",
        "disabled",
        "take owed / none / going\n\
            wait or own / owns / going\n\
            ask optional / opened / ask\n\
            take told / nothing / going\n\
            settle nothing / settled / neither\n",
    ),
];

#[test]
fn loads_run_access_by_access(rt: HostRuntime) {
    run_all(&rt, &FLOWS);
}

// Whether it reads 200 dropped owners, and has answered then, and holds no write.
fn reads_200(flow: &mut Flow<u32, u32, u32>) -> Result<bool, AllocError> {
    let mut right = plays(flow, "take owed / none / going\nget / absent / going\n")?;
    for _ in 1..200 {
        right = right
            && plays(
                flow,
                "wait or own / waits / going\nread settled / aborted / going\n",
            )?;
    }
    let last = plays(
        flow,
        "wait or own / waits / going\nread settled / aborted / exhausted\n",
    )?;
    Ok(right && last && flow.has_answered() && flow.held().is_none())
}

fn gives_up(start: &str) -> Result<bool, AllocError> {
    match fresh(start, "no rule") {
        None => Ok(false),
        Some(mut flow) => {
            let read = reads_200(&mut flow);
            drop(flow);
            read
        }
    }
}

#[test]
fn a_load_of_each_kind_gives_up_at_the_200th_dropped_owner(rt: HostRuntime) {
    assert!(rt; matches!(gives_up("get with"), Ok(true)));
    assert!(rt; matches!(gives_up("optional"), Ok(true)));
    assert!(rt; matches!(gives_up("try"), Ok(true)));
}
