//! Ends whose calls fail.

use crate::in_memory::run_pieces;
use moka_lines::Status;
use std::test::Fail;

/// 14 bytes, so that 2 reads give some, and the third tells the end. Its text is of 20 bytes, so
/// that 4 writes take it.
const LINES: &str = "set 1 5\nget 1\n";

#[test]
fn a_failing_read_ends_the_run(rt: HostRuntime) -> Result<(), Fail> {
    for read in 0..3 {
        let ended = run_pieces(rt.alloc(), &["behind"], LINES, &[read], &[0])?;
        assert!(rt; ended.came_to(Status::ReadFault, ""), "at read {read}");
    }
    // It is told before a bad line that was read.
    let ended = run_pieces(rt.alloc(), &["behind"], "get\nget 1\n", &[1], &[0])?;
    assert!(rt; ended.came_to(Status::ReadFault, ""));
    Ok(())
}

#[test]
fn a_failing_write_leaves_the_front_of_the_text(rt: HostRuntime) -> Result<(), Fail> {
    let rows = [
        (0, Status::WriteFault, ""),
        (1, Status::WriteFault, "done\n"),
        (2, Status::WriteFault, "done\nsome "),
        (3, Status::WriteFault, "done\nsome 5\nuns"),
        (4, Status::WriteFault, "done\nsome 5\nunsent 1"),
        (5, Status::Done, "done\nsome 5\nunsent 1\n"),
    ];
    for (write, status, written) in rows {
        let ended = run_pieces(rt.alloc(), &["behind"], LINES, &[], &[write])?;
        assert!(rt; ended.came_to(status, written), "at write {write}");
    }
    // So it does of an empty source.
    let ended = run_pieces(rt.alloc(), &["behind"], "", &[], &[1])?;
    assert!(rt; ended.came_to(Status::WriteFault, "unsen"));
    Ok(())
}
