//! Worked lines, and the text that they come to. ` / ` parts lines.

use crate::in_memory::{keeper_of, map_of, run_before, text_of};
use moka_behind::PlainKeeper;
use moka_lines::Status;
use std::alloc::{AllocError, Global};
use std::collections::HashMap;
use std::test::Fail;

/// Lines, and their text before a keeper of these pairs whose calls of these numbers fail, from 0.
type Row = (
    &'static [(u32, u32)],
    &'static [u64],
    &'static str,
    &'static str,
);

const ROWS: [Row; 11] = [
    // What was shed is found in what is unsent, and a drain sends that.
    (
        &[],
        &[],
        "set 1 5 / get 1 / shed / get 1 / del 1 / get 1 / drain / get 1",
        "done / some 5 / shed 1 / some 5 / done / none / drained 2 / none / unsent 0",
    ),
    // A write whose put failed is sent again; one that was sent before is not.
    (
        &[(2, 8)],
        &[1],
        "get 2 / set 2 9 / set 3 4 / drain / drain / get 2",
        "some 8 / done / done / fault / drained 2 / some 9 / unsent 0",
    ),
    (
        &[(2, 8)],
        &[2],
        "get 2 / set 2 9 / set 3 4 / drain / drain / get 2",
        "some 8 / done / done / fault / drained 1 / some 9 / unsent 0",
    ),
    // A get that failed is asked again.
    (
        &[(1, 4)],
        &[0],
        "get 1 / get 1",
        "fault / some 4 / unsent 0",
    ),
    // A shed key is asked of the keeper, once its write was sent.
    (
        &[(1, 4)],
        &[2],
        "get 1 / set 1 7 / shed / get 1 / drain / shed / get 1",
        "some 4 / done / shed 1 / some 7 / drained 1 / shed 1 / fault / unsent 0",
    ),
    // An unsent del hides what the keeper has, and the keeper isn't asked.
    (
        &[(1, 9)],
        &[],
        "del 1 / get 1 / shed / get 1 / drain / get 1",
        "done / none / shed 0 / none / drained 1 / none / unsent 0",
    ),
    (
        &[(1, 9)],
        &[0],
        "set 1 5 / del 1 / shed / get 1 / drain",
        "done / done / shed 0 / none / fault / unsent 2",
    ),
    // Writes go on between faults.
    (
        &[],
        &[1, 4],
        "set 1 5 / set 2 6 / set 3 7 / drain / set 2 8 / drain / shed / get 2",
        "done / done / done / fault / done / fault / shed 3 / some 8 / unsent 1",
    ),
    // Each write is sent once.
    (
        &[],
        &[],
        "set 1 1 / set 1 2 / del 1 / set 2 3 / drain / drain / get 1 / shed / get 2 / get 1",
        "done / done / done / done / drained 4 / drained 0 / none / shed 1 / some 3 / none / unsent 0",
    ),
    // That a key has nothing is not stored, and 0 is a value.
    (
        &[],
        &[],
        "get 1 / get 1 / set 1 0 / get 1 / drain / shed / get 1 / del 1 / get 1 / get 2 / drain / get 1",
        "none / none / done / some 0 / drained 1 / shed 1 / some 0 / done / none / none / drained 1 / none / unsent 0",
    ),
    // At first nothing is stored, unsent or kept.
    (
        &[],
        &[],
        "shed / drain / get 7 / shed",
        "shed 0 / drained 0 / none / shed 0 / unsent 0",
    ),
];

/// Whether the row comes to its text, before a keeper that fails.
fn comes_true(alloc: Global, row: Row) -> Result<bool, AllocError> {
    let lines = text_of(alloc, row.2)?;
    let want = text_of(alloc, row.3)?;
    let mut keeper = keeper_of(alloc, row.0, row.1)?;
    let ended = run_before(alloc, &lines, &mut keeper)?;
    Ok(ended.came_to(Status::Done, &want))
}

/// Whether the row comes to its text, before a keeper that never fails.
fn comes_true_plainly(alloc: Global, row: Row) -> Result<bool, AllocError> {
    let lines = text_of(alloc, row.2)?;
    let want = text_of(alloc, row.3)?;
    let mut keeper = PlainKeeper::new(map_of(alloc, row.0)?);
    let ended = run_before(alloc, &lines, &mut keeper)?;
    Ok(ended.came_to(Status::Done, &want))
}

#[test]
fn lines_come_to_their_text_before_a_keeper_that_fails(rt: HostRuntime) -> Result<(), Fail> {
    for row in ROWS {
        let lines = row.2;
        assert!(rt; comes_true(rt.alloc(), row)?, "{lines}");
    }
    Ok(())
}

#[test]
fn lines_come_to_their_text_before_one_that_never_does(rt: HostRuntime) -> Result<(), Fail> {
    for row in ROWS {
        let lines = row.2;
        if row.1.is_empty() {
            assert!(rt; comes_true_plainly(rt.alloc(), row)?, "{lines}");
        }
    }
    Ok(())
}

/// So many sets, each of a key of its own, and a shed after them.
fn sets_and_a_shed(alloc: Global, keys: u32) -> Result<String, AllocError> {
    let mut text = String::new(alloc);
    for key in 0..keys {
        write!(text, "set {key} 0\n")?;
    }
    text.push_str("shed\n")?;
    Ok(text)
}

#[test]
fn a_capacity_bounds_nothing(rt: HostRuntime) -> Result<(), Fail> {
    let lines = sets_and_a_shed(rt.alloc(), 1001)?;
    let mut want = String::new(rt.alloc());
    for _ in 0..1001u32 {
        want.push_str("done\n")?;
    }
    want.push_str("shed 1001\nunsent 1001\n")?;
    let mut keeper = PlainKeeper::new(HashMap::new(rt.alloc()));
    let ended = run_before(rt.alloc(), &lines, &mut keeper)?;
    assert!(rt; ended.came_to(Status::Done, &want));
    Ok(())
}
