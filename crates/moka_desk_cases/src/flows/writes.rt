//! How whole gets and inserts read, and how owed writes are taken up.

use crate::flows::rows::{fresh, plays, run_all};
use moka_hist::Write;
use moka_init::Flow;
use std::alloc::AllocError;

/// Flows: what is started, the rules, and the rows.
const FLOWS: [(&str, &str, &str); 4] = [
    // A get posts what is owed, and answers what is found.
    (
        "get",
        "no rule",
        "take owed / a write / going\n\
            post write / posted / going\n\
            take owed / none / going\n\
            get / undecided / going\n\
            table / found / going\n\
            judge / seen / found\n",
    ),
    (
        "get",
        "no rule",
        "take owed / none / going\n\
            get / absent / nothing\n",
    ),
    // An insert waits for the turn, and empties a full log.
    (
        "insert",
        "no rule",
        "take owed / none / going\n\
            stamp moment / stamped / going\n\
            insert / undecided / going\n\
            table / found / going\n\
            post write / the log is full / going\n\
            take turn / taken by another / wait\n\
            take turn / taken / going\n\
            apply one / applied / going\n\
            apply one / none is left / going\n\
            end turn / ended / going\n\
            post write / posted / done\n",
    ),
    // An owed write is posted once its notice has ended.
    (
        "get",
        "no rule",
        "take owed / a write with a notice / going\n\
            notice ended / not yet / wait\n\
            notice ended / heard / going\n\
            post write / posted / going\n\
            take owed / none / going\n",
    ),
];

#[test]
fn gets_and_inserts_run_access_by_access(rt: HostRuntime) {
    run_all(&rt, &FLOWS);
}

// An insert under a listener commits its write, which replaces a record.
const COMMITTED: &str = "take owed / none / going\n\
    lock key / held by another / wait\n\
    lock key / kept by a notice / wait\n\
    lock key / locked / going\n\
    stamp moment / stamped / going\n\
    insert / found / going\n";

// Whether a notice is due.
fn is_due(flow: &Flow<u32, u32, u32>) -> Result<bool, AllocError> {
    let due = flow.due()?;
    let is_due = due.is_some();
    drop(due);
    Ok(is_due)
}

// Whether its notice is due until it is opened, and it holds its write then.
fn tells(flow: &mut Flow<u32, u32, u32>) -> Result<bool, AllocError> {
    let committed = plays(flow, COMMITTED)?;
    let due = is_due(flow)?;
    let opened = plays(flow, "open notice / replaced / ask listener\n")?;
    let still_due = is_due(flow)?;
    let write = Write::Upsert {
        number: 7,
        old: Some(2),
    };
    Ok(committed && due && opened && !still_due && flow.held() == Some(write))
}

fn tells_and_hears(flow: &mut Flow<u32, u32, u32>) -> Result<bool, AllocError> {
    let told = tells(flow)?;
    let heard = plays(
        flow,
        "notice ended / not yet / wait\n\
            notice ended / heard / going\n\
            unlock key / unlocked / going\n\
            post write / posted / done\n",
    )?;
    Ok(told && heard)
}

#[test]
fn a_writer_tells_the_listener_and_hears_it_before_it_posts(rt: HostRuntime) {
    let mut flow = fresh("insert", "a listener").expect(&rt, "such a call");
    let told = tells_and_hears(&mut flow);
    drop(flow);
    assert!(rt; matches!(told, Ok(true)));
}

fn tells_nobody(flow: &mut Flow<u32, u32, u32>) -> Result<bool, AllocError> {
    let committed = plays(flow, COMMITTED)?;
    let posted = plays(
        flow,
        "open notice / the listener is off / going\n\
            unlock key / unlocked / going\n\
            post write / posted / done\n",
    )?;
    Ok(committed && posted)
}

#[test]
fn a_listener_that_is_off_is_not_asked(rt: HostRuntime) {
    let mut flow = fresh("insert", "a listener").expect(&rt, "such a call");
    let told = tells_nobody(&mut flow);
    drop(flow);
    assert!(rt; matches!(told, Ok(true)));
}
