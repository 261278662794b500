//! Worked schedules of computes. ` / ` parts lines.

use crate::in_memory::are_reported;
use std::alloc::{AllocError, Global};
use std::process::Abort;
use std::test::Fail;

/// Schedules, each with the report that it comes to.
pub(crate) const ROWS: [(&str, &str); 22] = [
    // A compute asks with what the key has, and does what it is told.
    (
        "cache log=8 / start compute 1 / poll 1 / start compute_alone 1 / poll 2 / tell 1 put 5 / poll 1 / start upsert 1 / poll 3 / tell 3 value 8 / poll 3 / start compute 1 / poll 4 / tell 4 nop / poll 4",
        "call 1 / ask compute none / call 2 / answer stillnone / told / answer inserted 5 / call 3 / ask compute 1 5 / told / answer replaced 8 / call 4 / ask compute 1 8 / told / answer unchanged 8 / entry 1 8 stamp 3 at 0 / write 1 logged / write 3 logged",
    ),
    // An error ends the compute, and one that waited begins anew.
    (
        "cache log=8 / start try_compute 1 / start compute 1 / poll 1 / poll 2 / tell 1 error 4 / poll 1 / poll 2 / tell 2 error 4 / tell 2 put 5 / poll 2",
        "call 1 / call 2 / ask compute none / wait / told / answer error 4 / ask compute none / refused NotAsked / told / answer inserted 5 / entry 1 5 stamp 2 at 0 / write 2 logged",
    ),
    // The look decides what was replaced, and the table what was removed.
    (
        "cache log=8 / start insert 1 5 / poll 1 / start compute 1 / poll 2 / start insert 1 6 / poll 3 / tell 2 nop / poll 2",
        "call 1 / answer done / call 2 / ask compute 1 5 / call 3 / answer done / told / answer unchanged 5 / entry 1 6 stamp 3 at 0 / write 1 logged / write 3 logged",
    ),
    (
        "cache log=8 / start insert 1 5 / poll 1 / start compute 1 / poll 2 / start insert 1 6 / poll 3 / tell 2 remove / poll 2",
        "call 1 / answer done / call 2 / ask compute 1 5 / call 3 / answer done / told / answer removed 6 / write 1 logged / write 2 logged / write 3 logged",
    ),
    (
        "cache log=8 / start insert 1 5 / poll 1 / start compute 1 / poll 2 / start remove 1 / poll 3 / tell 2 put 7 / poll 2",
        "call 1 / answer done / call 2 / ask compute 1 5 / call 3 / answer some 5 / told / answer replaced 7 / entry 1 7 stamp 2 at 0 / write 1 logged / write 2 logged / write 3 logged",
    ),
    (
        "cache log=8 / start insert 1 5 / poll 1 / start compute 1 / poll 2 / start remove 1 / poll 3 / tell 2 remove / poll 2",
        "call 1 / answer done / call 2 / ask compute 1 5 / call 3 / answer some 5 / told / answer stillnone / write 1 logged / write 3 logged",
    ),
    // A compute goes step by step.
    (
        "cache log=8 / start compute 1 / step 1 / step 1 / step 1 / step 1 / tell 1 put 5 / step 1 / step 1 / step 1 / step 1 / step 1 / step 1",
        "call 1 / going / going / going / ask compute none / told / going / going / going / going / going / answer inserted 5 / entry 1 5 stamp 1 at 0 / write 1 logged",
    ),
    (
        "cache log=8 / start compute 1 / step 1 / step 1 / step 1 / step 1 / tell 1 remove / step 1 / step 1 / step 1 / step 1 / step 1 / step 1",
        "call 1 / going / going / going / ask compute none / told / going / going / going / going / going / answer stillnone",
    ),
    // The next owner waits for the notice of a dropped one.
    (
        "cache log=8 listener / start insert 1 5 / poll 1 / start compute 1 / poll 2 / tell 2 put 6 / poll 2 / start compute 1 / poll 3 / drop 2 / poll 3 / tell 2 done / poll 3",
        "call 1 / answer done / call 2 / ask compute 1 5 / told / ask listener 1 5 Replaced / call 3 / wait / dropped / wait / told / ask compute 1 6 / entry 1 6 stamp 2 at 0 / write 1 logged / write 2 logged / notice 2 1 5 Replaced ended",
    ),
    // A disabled cache asks with nothing, and keeps nothing.
    (
        "cache cap=0 log=8 / start compute 1 / step 1 / step 1 / step 1 / tell 1 put 5 / step 1 / step 1 / start compute_alone 1 / poll 2 / tell 2 remove / poll 2",
        "call 1 / going / going / ask compute none / told / going / answer inserted 5 / call 2 / ask compute none / told / answer stillnone",
    ),
    // An ask takes what its compute may be told.
    (
        "cache log=8 / start compute 1 / poll 1 / tell 1 value 3 / tell 1 nothing / tell 1 error 3 / tell 1 done / tell 1 off / tell 1 nop / poll 1",
        "call 1 / ask compute none / refused NotAsked / refused NotAsked / refused NotAsked / refused NotAsked / refused NotAsked / told / answer stillnone",
    ),
    (
        "cache log=8 / start try_compute 1 / poll 1 / tell 1 value 3 / tell 1 nothing / tell 1 error 3 / tell 1 nop / poll 1",
        "call 1 / ask compute none / refused NotAsked / refused NotAsked / told / refused NotAsked / answer error 3",
    ),
    (
        "cache log=8 / start compute_alone 1 / poll 1 / tell 1 value 3 / tell 1 put 3 / poll 1 / start compute_alone 1 / poll 2 / tell 2 error 4 / poll 2",
        "call 1 / ask compute none / refused NotAsked / told / answer inserted 3 / call 2 / ask compute 1 3 / told / answer error 4 / entry 1 3 stamp 1 at 0 / write 1 logged",
    ),
    (
        "cache log=8 / start upsert 1 / poll 1 / tell 1 nop / tell 1 put 3 / tell 1 remove / tell 1 error 3 / tell 1 nothing / tell 1 value 3 / poll 1",
        "call 1 / ask compute none / refused NotAsked / refused NotAsked / refused NotAsked / refused NotAsked / refused NotAsked / told / answer inserted 3 / entry 1 3 stamp 1 at 0 / write 1 logged",
    ),
    (
        "cache log=8 / start get_with 1 / poll 1 / tell 1 nop / tell 1 put 3 / tell 1 remove / tell 1 value 3 / poll 1",
        "call 1 / ask init / refused NotAsked / refused NotAsked / refused NotAsked / told / answer value 3 fresh / entry 1 3 stamp 1 at 0 / write 1 logged",
    ),
    // Neither a compute nor a load waits for the other.
    (
        "cache log=8 / start compute 1 / poll 1 / start get_with 1 / poll 2 / tell 2 value 7 / poll 2 / tell 1 nop / poll 1",
        "call 1 / ask compute none / call 2 / ask init / told / answer value 7 fresh / told / answer stillnone / entry 1 7 stamp 2 at 0 / write 2 logged",
    ),
    (
        "cache log=8 / start get_with 1 / poll 1 / start upsert 1 / poll 2 / tell 2 value 7 / poll 2 / tell 1 value 8 / poll 1",
        "call 1 / ask init / call 2 / ask compute none / told / answer inserted 7 / told / answer value 8 fresh / entry 1 8 stamp 1 at 0 / write 1 logged / write 2 logged",
    ),
    (
        "cache log=8 / start compute 1 / start compute 2 / poll 1 / poll 2",
        "call 1 / call 2 / ask compute none / ask compute none",
    ),
    // A listener hears of what a compute replaces or takes out.
    (
        "cache log=8 listener / start insert 1 5 / poll 1 / start compute 1 / poll 2 / tell 2 remove / poll 2 / start get 1 / poll 3 / tell 2 done / poll 2",
        "call 1 / answer done / call 2 / ask compute 1 5 / told / ask listener 1 5 Explicit / call 3 / answer none / told / answer removed 5 / write 1 logged / write 2 logged / notice 2 1 5 Explicit ended",
    ),
    (
        "cache log=8 listener / start insert 1 5 / poll 1 / start upsert 1 / poll 2 / tell 2 value 6 / poll 2 / tell 2 off / poll 2 / start upsert 1 / poll 3 / tell 3 value 7 / poll 3",
        "call 1 / answer done / call 2 / ask compute 1 5 / told / ask listener 1 5 Replaced / told / answer replaced 6 / call 3 / ask compute 1 6 / told / answer replaced 7 / entry 1 7 stamp 3 at 0 / write 1 logged / write 2 logged / write 3 logged / notice 2 1 5 Replaced ended / notice 3 1 6 Replaced skipped",
    ),
    (
        "cache log=8 listener / start compute 1 / poll 1 / tell 1 remove / poll 1",
        "call 1 / ask compute none / told / answer stillnone",
    ),
    // In a disabled cache, one that computes alone reports nothing.
    (
        "cache cap=0 log=8 / start compute 1 / poll 1 / start compute_alone 1 / poll 2 / tell 1 put 5 / poll 1",
        "call 1 / ask compute none / call 2 / answer stillnone / told / answer inserted 5",
    ),
];

#[test]
fn computes_are_reported(rt: HostRuntime) -> Result<(), Fail> {
    are_reported(&rt, &ROWS)
}

/// An ask of call 2: what it is started for, how the ask reads, what it takes, and what is reported
/// last where that was told, and where it was refused.
#[derive(Clone, Copy)]
struct Asked {
    start: &'static str,
    ask: &'static str,
    takes: &'static [&'static str],
    told: &'static str,
    refused: &'static str,
}

const STORED: &str = "entry 1 5 stamp 1 at 0 / write 1 logged";

const ENDED: &str =
    "entry 1 6 stamp 2 at 0 / write 1 logged / write 2 held / notice 2 1 5 Replaced ended";

const RUNNING: &str =
    "entry 1 6 stamp 2 at 0 / write 1 logged / write 2 held / notice 2 1 5 Replaced running";

/// An ask that opens where nothing is stored but under another key.
const fn ask_of(start: &'static str, ask: &'static str, takes: &'static [&'static str]) -> Asked {
    Asked {
        start,
        ask,
        takes,
        told: STORED,
        refused: STORED,
    }
}

/// Each shape of what an ask is told.
const SHAPES: [&str; 8] = [
    "value 3", "nothing", "error 3", "nop", "put 3", "remove", "done", "off",
];

const START: &str = "cache log=8 listener / start insert 1 5 / poll 1 / start ";

const TELL: &str = " / poll 2 / tell 2 ";

const CALLS: &str = "call 1 / answer done / call 2 / ";

/// The texts, one after the other.
fn joined(alloc: Global, texts: &[&str]) -> Result<String, AllocError> {
    let mut all = String::new(alloc);
    for text in texts {
        all.push_str(text)?;
    }
    Ok(all)
}

/// Tells the ask this shape, which it takes or refuses, and compares what is played.
fn is_told(
    rt: &(impl AllocGlobal + Abort),
    asked: &Asked,
    shape: &'static str,
    reply: &'static str,
    rest: &'static str,
) -> Result<(), Fail> {
    let schedule = joined(rt.alloc(), &[START, asked.start, TELL, shape])?;
    let report = joined(rt.alloc(), &[CALLS, asked.ask, " / ", reply, " / ", rest])?;
    are_reported(rt, &[(&schedule, &report)])
}

/// Tells the ask each of the shapes.
fn takes_its_shapes(rt: &(impl AllocGlobal + Abort), asked: &Asked) -> Result<(), Fail> {
    for shape in SHAPES {
        if asked.takes.contains(&shape) {
            is_told(rt, asked, shape, "told", asked.told)?;
        } else {
            is_told(rt, asked, shape, "refused NotAsked", asked.refused)?;
        }
    }
    Ok(())
}

/// Tells each of the asks each of the shapes.
fn take_their_shapes(rt: &(impl AllocGlobal + Abort), asks: &[Asked]) -> Result<(), Fail> {
    for asked in asks {
        takes_its_shapes(rt, asked)?;
    }
    Ok(())
}

#[test]
fn each_ask_takes_its_shapes_and_no_other(rt: HostRuntime) -> Result<(), Fail> {
    let asks = [
        ask_of("get_with 2", "ask init", &["value 3"]),
        ask_of("optional 2", "ask init", &["value 3", "nothing"]),
        ask_of("try 2", "ask init", &["value 3", "error 3"]),
        ask_of("compute 2", "ask compute none", &["nop", "put 3", "remove"]),
        ask_of(
            "try_compute 2",
            "ask compute none",
            &["error 3", "nop", "put 3", "remove"],
        ),
        ask_of(
            "compute_alone 2",
            "ask compute none",
            &["error 3", "nop", "put 3", "remove"],
        ),
        ask_of("upsert 2", "ask compute none", &["value 3"]),
        Asked {
            start: "insert 1 6",
            ask: "ask listener 1 5 Replaced",
            takes: &["done", "off"],
            told: ENDED,
            refused: RUNNING,
        },
    ];
    take_their_shapes(&rt, &asks)
}
