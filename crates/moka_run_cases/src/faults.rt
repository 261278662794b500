//! Plays that end otherwise than done.

use crate::in_memory::{play_by_bytes, play_bytes, text_of, words_of};
use moka_ends::{Failed, ListSink, Source};
use moka_run::{Status, play};
use std::alloc::{AllocError, Global};
use std::test::Fail;

/// Gives so many zeros, at most `piece` a read, and keeps none of them.
#[derive(Drop)]
struct Zeros {
    left: usize,
    piece: usize,
}

impl Source for Zeros {
    ghost use Rattle.std.specs.Prelude.{None};

    ghost left = { λ s. None };

    ghost faults = { λ s. 0 };

    fn read(&mut self, buf: &mut [u8]) -> Result<usize, Failed> {
        let count = buf.len().min(self.piece).min(self.left);
        self.left -= count;
        Ok(count)
    }
}

#[test]
fn only_the_word_play_is_taken(rt: HostRuntime) -> Result<(), Fail> {
    let rows: [&[&str]; 5] = [&[], &["run"], &["play", "play"], &["Play"], &["play", ""]];
    for words in rows {
        // Nothing is read, so the read that fails does no harm.
        let ended = play_bytes(rt.alloc(), words, b"cache\nstart get 1\n", &[0], &[])?;
        assert!(rt; ended.came_to(Status::BadWords, 1, ""));
    }
    Ok(())
}

#[test]
fn the_first_bad_line_is_told(rt: HostRuntime) -> Result<(), Fail> {
    let rows = [
        ("", 1),
        ("cach", 1),
        ("cache log=8\nstart get 1\nstart ge", 3),
        ("cache log=8\nstart get 1\n\nstart ge\n", 3),
        ("cache\npoll 01\n", 2),
        ("cache tti=5 ttl=5\n", 1),
        ("cache listener ttl=5\n", 1),
        ("cache ttl=01\n", 1),
        ("cache ttl=\n", 1),
        ("cache ttl=18446744073709551616\n", 1),
        ("cache ttl=5 log=8\n", 1),
        ("cache ttl=1 seed=2\n", 1),
        ("cache closures seed=1\n", 1),
        ("cache seed=01\n", 1),
        ("cache\nstart invalidate_if\n", 2),
        ("cache\nstart invalidate_if 2 3\n", 2),
        ("cache\nstart invalidate_all 1\n", 2),
        ("cache\nstart invalidate_all \n", 2),
        ("cache\nstart iter 1\n", 2),
        ("cache\nstart iter \n", 2),
        ("cache\nstart iter_\n", 2),
    ];
    for (text, line) in rows {
        // Nothing is written, so the write that fails does no harm.
        let ended = play_bytes(rt.alloc(), &["play"], text.as_bytes(), &[], &[0])?;
        assert!(rt; ended.came_to(Status::BadLine { line }, 2, ""), "{text}");
    }
    Ok(())
}

/// A schedule of so many good events, and two bad lines after them.
fn bad_after(alloc: Global, good: u64) -> Result<String, AllocError> {
    let mut text = String::from_str(alloc, "cache log=8\n")?;
    for _event in 0..good {
        text.push_str("start get 1\n")?;
    }
    text.push_str("start ge\nstart get 1\nstar\n")?;
    Ok(text)
}

#[test]
fn a_bad_line_far_down_is_told_by_its_number(rt: HostRuntime) -> Result<(), Fail> {
    for good in [1, 2, 9, 300] {
        let text = bad_after(rt.alloc(), good)?;
        let ended = play_bytes(rt.alloc(), &["play"], text.as_bytes(), &[], &[0])?;
        let status = Status::BadLine { line: good + 2 };
        assert!(rt; ended.came_to(status, 2, ""), "after {good} events");
    }
    Ok(())
}

#[test]
fn a_source_one_byte_too_long_is_told(rt: HostRuntime) -> Result<(), Fail> {
    let words = words_of(rt.alloc(), &["play"])?;
    let rows = [
        (16_777_216, 4096, Status::BadLine { line: 1 }, 2),
        (16_777_217, 4096, Status::TooLong, 3),
        (16_777_216, 1000, Status::BadLine { line: 1 }, 2),
        (16_777_217, 1000, Status::TooLong, 3),
        (usize::MAX, 4096, Status::TooLong, 3),
    ];
    for (left, piece, status, code) in rows {
        let mut sink = ListSink::new(rt.alloc(), 5, Vec::new(rt.alloc()));
        let ended = play(rt.alloc(), &words, &mut Zeros { left, piece }, &mut sink);
        let is_so = ended == status && ended.code() == code && sink.bytes().is_empty();
        assert!(rt; is_so, "{left} bytes, {piece} a read");
    }
    Ok(())
}

/// 31 bytes, so that 5 reads give some, and the sixth tells the end. Its report is of 19 bytes, so
/// that 4 writes take it.
const LOOK: &str = "cache log=8 / start get 1 / poll 1";

#[test]
fn a_failing_read_ends_the_play(rt: HostRuntime) -> Result<(), Fail> {
    let bytes = text_of(rt.alloc(), LOOK)?;
    for read in 0..6 {
        let ended = play_bytes(rt.alloc(), &["play"], bytes.as_bytes(), &[read], &[0])?;
        assert!(rt; ended.came_to(Status::ReadFault, 4, ""), "at read {read}");
    }
    let ended = play_bytes(rt.alloc(), &["play"], bytes.as_bytes(), &[6], &[])?;
    assert_eq!(rt; ended.status, Status::Done);
    // It is told before a bad line that was read.
    let ended = play_bytes(rt.alloc(), &["play"], b"cach\nstart get 1\n", &[2], &[])?;
    assert_eq!(rt; ended.status, Status::ReadFault);
    Ok(())
}

#[test]
fn a_failing_write_leaves_the_front_of_the_report(rt: HostRuntime) -> Result<(), Fail> {
    let bytes = text_of(rt.alloc(), LOOK)?;
    let rows = [
        (0, Status::WriteFault, 5, ""),
        (1, Status::WriteFault, 5, "call "),
        (2, Status::WriteFault, 5, "call 1\nans"),
        (3, Status::WriteFault, 5, "call 1\nanswer n"),
        (4, Status::Done, 0, "call 1\nanswer none\n"),
    ];
    for (write, status, code, written) in rows {
        let ended = play_bytes(rt.alloc(), &["play"], bytes.as_bytes(), &[], &[write])?;
        assert!(rt; ended.came_to(status, code, written), "at write {write}");
    }
    Ok(())
}

#[test]
fn a_write_may_fail_after_any_number_of_bytes(rt: HostRuntime) -> Result<(), Fail> {
    let bytes = text_of(rt.alloc(), LOOK)?;
    let report = text_of(rt.alloc(), "call 1 / answer none")?;
    for write in 0..report.len() {
        let ended = play_by_bytes(rt.alloc(), bytes.as_bytes(), &[write as u64])?;
        let written = Some(ended.bytes.as_slice());
        assert_eq!(rt; ended.status, Status::WriteFault, "after {write} bytes");
        assert_eq!(rt;
            written,
            report.as_bytes().get(..write),
            "after {write} bytes"
        );
    }
    let ended = play_by_bytes(rt.alloc(), bytes.as_bytes(), &[report.len() as u64])?;
    assert!(rt; ended.came_to(Status::Done, 0, &report));
    Ok(())
}
