//! Good and bad lines.

use crate::in_memory::run_pieces;
use moka_lines::Status;
use std::alloc::{AllocError, Global};
use std::test::Fail;

/// Lines that spell no call.
const BAD: [&str; 19] = [
    "set 1",
    "set 1 2 3",
    "set 1 4294967296",
    "set 4294967296 1",
    "set 1  2",
    "set",
    "del",
    "del 4294967296",
    "del 1 ",
    "get -1",
    "get 01",
    "get ",
    "get  1",
    "shed 1",
    "drain 0",
    "Set 1 2",
    "unsent",
    " shed",
    "",
];

/// Good lines, so many, and then the bad one, and another bad one.
fn bad_after(alloc: Global, good: u64, bad: &str) -> Result<String, AllocError> {
    let mut text = String::new(alloc);
    for _ in 0..good {
        text.push_str("set 1 5\n")?;
    }
    text.push_str(bad)?;
    text.push_str("\nshed\nset\n")?;
    Ok(text)
}

#[test]
fn the_first_bad_line_is_told(rt: HostRuntime) -> Result<(), Fail> {
    for bad in BAD {
        for good in [0, 1, 7] {
            let text = bad_after(rt.alloc(), good, bad)?;
            // Nothing is written, so the write that fails does no harm.
            let ended = run_pieces(rt.alloc(), &["behind"], &text, &[], &[0])?;
            let status = Status::BadLine { line: good + 1 };
            assert!(rt; ended.came_to(status, ""), "{bad} after {good}");
        }
    }
    Ok(())
}

#[test]
fn good_lines_are_answered(rt: HostRuntime) -> Result<(), Fail> {
    let rows = [
        ("", "unsent 0\n"),
        ("shed\n", "shed 0\nunsent 0\n"),
        ("shed", "shed 0\nunsent 0\n"),
        (
            "set 4294967295 0\nset 0 4294967295\nget 4294967295\nget 0\n",
            "done\ndone\nsome 0\nsome 4294967295\nunsent 2\n",
        ),
        (
            "del 4294967295\ndrain\nget 0\n",
            "done\ndrained 1\nnone\nunsent 0\n",
        ),
    ];
    for (text, want) in rows {
        let ended = run_pieces(rt.alloc(), &["behind"], text, &[], &[])?;
        assert!(rt; ended.came_to(Status::Done, want), "{text}");
    }
    Ok(())
}

#[test]
fn only_the_word_behind_is_taken(rt: HostRuntime) -> Result<(), Fail> {
    let rows: [&[&str]; 6] = [
        &[],
        &["play"],
        &["behind", "behind"],
        &["behind", ""],
        &["Behind"],
        &["behin"],
    ];
    for words in rows {
        // Nothing is read, so the read that fails does no harm.
        let ended = run_pieces(rt.alloc(), words, "shed\n", &[0], &[0])?;
        assert!(rt; ended.came_to(Status::BadWords, ""));
    }
    Ok(())
}
