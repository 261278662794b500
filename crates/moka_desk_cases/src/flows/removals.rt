//! How whole removals read, access by access, and the calls of a disabled cache.

use crate::flows::rows::{fresh, plays, run_all, turn_after};
use moka_hist::{Answer, Ask, Cause, Turn, Visit, Write};
use moka_init::Flow;
use std::alloc::AllocError;

/// Flows: what is started, the rules, and the rows.
const FLOWS: [(&str, &str, &str); 18] = [
    // A removal that finds nothing posts no write.
    (
        "remove",
        "no rule",
        "take owed / none / going\n\
            stamp moment / stamped / going\n\
            remove / absent / going\n\
            clock / told / nothing\n",
    ),
    (
        "remove",
        "a listener",
        "take owed / none / going\n\
            lock key / locked / going\n\
            stamp moment / stamped / going\n\
            remove / absent / going\n\
            unlock key / unlocked / nothing\n",
    ),
    (
        "invalidate",
        "no rule",
        "take owed / none / going\n\
            stamp moment / stamped / going\n\
            remove / undecided / going\n\
            table / absent / going\n\
            clock / told / done\n",
    ),
    // A chosen record that is another by now stays.
    ("evict another", "no rule", "get / found / kept\n"),
    ("evict", "no rule", "get / absent / kept\n"),
    (
        "evict",
        "a listener",
        "lock key / locked / going\n\
            get / absent / going\n\
            unlock key / unlocked / kept\n",
    ),
    // It leaves before it is taken out.
    (
        "evict",
        "no rule",
        "get / found / going\n\
            holds / it does / going\n\
            stamp moment / stamped / going\n\
            remove / absent / going\n\
            clock / told / kept\n",
    ),
    // A chosen record leaves where the cause holds.
    (
        "evict",
        "no rule",
        "get / found / going\n\
            holds / no more / kept\n",
    ),
    (
        "evict",
        "no rule",
        "get / undecided / going\n\
            table / found / going\n\
            holds / it does / going\n\
            stamp moment / stamped / going\n\
            remove / found / going\n\
            post write / posted / evicted\n",
    ),
    // A disabled cache neither looks nor stores.
    ("get", "disabled", "clock / told / nothing\n"),
    ("insert", "disabled", "clock / told / done\n"),
    (
        "remove",
        "disabled",
        "take owed / none / going\n\
            stamp moment / stamped / going\n\
            remove / absent / going\n\
            clock / told / nothing\n",
    ),
    // An invalidation of all is one step, also in a disabled cache.
    (
        "invalidate all",
        "no rule",
        "invalidate all / invalidated / done\n",
    ),
    (
        "invalidate all",
        "a listener",
        "invalidate all / invalidated / done\n",
    ),
    (
        "invalidate all",
        "disabled",
        "invalidate all / invalidated / done\n",
    ),
    // So is one by a predicate.
    ("invalidate if", "no rule", "register / registered / id\n"),
    (
        "invalidate if",
        "disabled",
        "register / closures are disabled / disabled\n",
    ),
    (
        "invalidate if",
        "a listener",
        "register / every id is registered / no id\n",
    ),
];

#[test]
fn removals_run_access_by_access(rt: HostRuntime) {
    run_all(&rt, &FLOWS);
}

// The removal of the record of the call 2 by the call 7.
const REMOVAL: Write = Write::Remove { number: 7, old: 2 };

// Whether the write is posted, and the value 9 answered, as found.
fn answers_9(flow: &mut Flow<u32, u32, u32>) -> Result<bool, AllocError> {
    let turn = turn_after(flow, "post write", "posted")?;
    let answers = matches!(&turn, Some(Turn::Answer(Answer::Found(Some(9)))));
    drop(turn);
    Ok(answers)
}

// Whether the notice is opened, and the listener asked of the value 9, which was removed.
fn asks_of_9(flow: &mut Flow<u32, u32, u32>) -> Result<bool, AllocError> {
    let turn = turn_after(flow, "open notice", "explicit")?;
    let asks = matches!(
        &turn,
        Some(Turn::Ask(Ask::Listener {
            value: 9,
            cause: Cause::Explicit,
            ..
        }))
    );
    drop(turn);
    Ok(asks)
}

// Whether a notice of a removal of the value 9 is due, with this cause.
fn is_due(flow: &Flow<u32, u32, u32>, handed: Option<Cause>) -> Result<bool, AllocError> {
    let due = flow.due()?;
    let is_due = matches!(
        &due,
        Some(Visit::OpenNotice { value: 9, cause, upsert: false, .. }) if *cause == handed
    );
    drop(due);
    Ok(is_due)
}

fn answers_what_it_took(flow: &mut Flow<u32, u32, u32>) -> Result<bool, AllocError> {
    let took = plays(
        flow,
        "take owed / none / going\n\
            stamp moment / stamped / going\n\
            remove / found / going\n",
    )?;
    let holds = flow.held() == Some(REMOVAL);
    Ok(took && holds && answers_9(flow)?)
}

#[test]
fn a_remove_answers_the_value_that_it_took_out(rt: HostRuntime) {
    let mut flow = fresh("remove", "no rule").expect(&rt, "such a call");
    let answered = answers_what_it_took(&mut flow);
    drop(flow);
    assert!(rt; matches!(answered, Ok(true)));
}

fn tells_and_answers(flow: &mut Flow<u32, u32, u32>) -> Result<bool, AllocError> {
    let took = plays(
        flow,
        "take owed / none / going\n\
            lock key / locked / going\n\
            stamp moment / stamped / going\n\
            remove / found / going\n",
    )?;
    let due = is_due(flow, None)?;
    let asks = asks_of_9(flow)?;
    let heard = plays(
        flow,
        "notice ended / heard / going\n\
            unlock key / unlocked / going\n",
    )?;
    Ok(took && due && asks && heard && answers_9(flow)?)
}

#[test]
fn a_remove_tells_the_listener_its_value_and_answers_it(rt: HostRuntime) {
    let mut flow = fresh("remove", "a listener").expect(&rt, "such a call");
    let answered = tells_and_answers(&mut flow);
    drop(flow);
    assert!(rt; matches!(answered, Ok(true)));
}

fn hands_its_cause_on(flow: &mut Flow<u32, u32, u32>) -> Result<bool, AllocError> {
    let took = plays(
        flow,
        "lock key / locked / going\n\
            get / found / going\n\
            holds / it does / going\n\
            stamp moment / stamped / going\n\
            remove / found / going\n",
    )?;
    let due = is_due(flow, Some(Cause::Expired))?;
    let evicted = plays(
        flow,
        "open notice / the listener is off / going\n\
            unlock key / unlocked / going\n\
            post write / posted / evicted\n",
    )?;
    Ok(took && due && evicted)
}

#[test]
fn the_cause_of_a_chosen_record_is_handed_on(rt: HostRuntime) {
    let mut flow = fresh("evict", "a listener").expect(&rt, "such a call");
    let evicted = hands_its_cause_on(&mut flow);
    drop(flow);
    assert!(rt; matches!(evicted, Ok(true)));
}
