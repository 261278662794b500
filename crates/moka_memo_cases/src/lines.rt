//! Good and bad lines.

use crate::runs::{run, text_of};
use moka_memo_run::Status;
use std::alloc::{AllocError, Global};
use std::test::Fail;

#[test]
fn the_first_bad_line_is_told(rt: HostRuntime) -> Result<(), Fail> {
    let rows = [
        ("rule add 1 1", 1),
        ("rule const 1 / rule add 0 1", 2),
        ("rule const 1 / rule min 1 2", 2),
        ("rule const 1 / rule const 1 / rule if 1 2 3", 3),
        ("rule const 4294967296", 1),
        ("rule const 01", 1),
        ("rule const 1 / rule sub 1 1", 2),
        ("rule const 1 / rule if 1 1", 2),
        ("rule const 1 / rule add 1 1 1", 2),
        ("ask 4294967296", 1),
        ("turn", 1),
        ("turn 18446744073709551616", 1),
        ("finish 1", 1),
        ("ask -1", 1),
        ("finish / ", 2),
        ("rule const 1 / ask 1 / rule const 2 / turn", 3),
    ];
    for (row, line) in rows {
        let text = text_of(rt.alloc(), row)?;
        let ended = run(rt.alloc(), text.as_str())?;
        assert!(rt; ended.came_to(Status::BadLine { line }, ""), "{row}");
    }
    let ended = run(rt.alloc(), "\n")?;
    assert!(rt;
        ended.came_to(Status::BadLine { line: 1 }, ""),
        "an empty line"
    );
    Ok(())
}

/// So many rules.
fn rules(alloc: Global, count: u64) -> Result<String, AllocError> {
    let mut text = String::new(alloc);
    for _rule in 0..count {
        text.push_str("rule const 7\n")?;
    }
    Ok(text)
}

#[test]
fn the_10001st_rule_is_bad(rt: HostRuntime) -> Result<(), Fail> {
    let most = rules(rt.alloc(), 10_000)?;
    assert!(rt; run(rt.alloc(), most.as_str())?.came_to(Status::Done, "known 0\n"));
    let more = rules(rt.alloc(), 10_002)?;
    let ended = run(rt.alloc(), more.as_str())?;
    assert!(rt; ended.came_to(Status::BadLine { line: 10_001 }, ""));
    Ok(())
}
