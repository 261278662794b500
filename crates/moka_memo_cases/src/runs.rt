//! Runs of the program on a text, and how each ends.

use moka_ends::{ListSink, ListSource};
use moka_memo_run::{Status, memo};
use std::alloc::{AllocError, Global};
use std::test::Fail;

/// How a run ended, and what it wrote.
#[derive(Drop)]
pub struct Ended {
    pub status: Status,
    pub bytes: Vec<u8>,
}

impl Ended {
    /// Whether it ended with this status, and wrote just this.
    pub fn came_to(&self, status: Status, written: &str) -> bool {
        self.status == status && self.bytes.as_slice() == written.as_bytes()
    }
}

/// The text whose lines the row has, parted by ` / `, each with a line end.
pub fn text_of(alloc: Global, row: &str) -> Result<String, AllocError> {
    let mut text = String::new(alloc);
    for line in row.split(" / ") {
        text.push_str(line)?;
        text.push('\n')?;
    }
    Ok(text)
}

/// The words as they stand on a command line.
fn words_of(alloc: Global, row: &[&str]) -> Result<Vec<String>, AllocError> {
    let mut words = Vec::new(alloc);
    for word in row {
        words.push(String::from_str(alloc, word)?)?;
    }
    Ok(words)
}

/// Runs the program on a text, which comes 50 bytes a read and goes 50 a write. The calls of the
/// numbers in `reads` and in `writes` fail.
fn run_so(
    alloc: Global,
    words: &[&str],
    text: &str,
    reads: &[u64],
    writes: &[u64],
) -> Result<Ended, AllocError> {
    let words = words_of(alloc, words)?;
    let bytes = text.as_bytes().to_vec(alloc)?;
    let mut source = ListSource::new(bytes, 50, reads.to_vec(alloc)?);
    let mut sink = ListSink::new(alloc, 50, writes.to_vec(alloc)?);
    let status = memo(alloc, &words, &mut source, &mut sink);
    let bytes = sink.bytes().to_vec(alloc)?;
    Ok(Ended { status, bytes })
}

/// Runs the program on a text.
pub fn run(alloc: Global, text: &str) -> Result<Ended, AllocError> {
    run_so(alloc, &["memo"], text, &[], &[])
}

#[test]
fn an_empty_source_has_no_line(rt: HostRuntime) -> Result<(), Fail> {
    assert!(rt; run(rt.alloc(), "")?.came_to(Status::Done, "known 0\n"));
    Ok(())
}

#[test]
fn other_words_read_nothing(rt: HostRuntime) -> Result<(), Fail> {
    let rows: [&[&str]; 5] = [&[], &["play"], &["memo", "memo"], &["memo", "x"], &["Memo"]];
    for words in rows {
        // Nothing is read or written, so the calls that fail do no harm.
        let ended = run_so(rt.alloc(), words, "finish\n", &[0], &[0])?;
        assert!(rt; ended.came_to(Status::BadWords, ""));
    }
    Ok(())
}

#[test]
fn ends_that_fail_are_told(rt: HostRuntime) -> Result<(), Fail> {
    let text = "rule const 2\nrule add 1 1\nrule add 2 1\nask 3\nask 2\nfinish\nask 1\nfinish\n";
    for read in 0..2 {
        let ended = run_so(rt.alloc(), &["memo"], text, &[read], &[])?;
        assert!(rt; ended.came_to(Status::ReadFault, ""), "read {read}");
    }
    let first = run_so(rt.alloc(), &["memo"], text, &[], &[0])?;
    assert!(rt; first.came_to(Status::WriteFault, ""));
    let second = run_so(rt.alloc(), &["memo"], text, &[], &[1])?;
    let front = "query 1\nquery 2\nanswer 2 4\nanswer 1 6\nfinished\nque";
    assert!(rt; second.came_to(Status::WriteFault, front));
    Ok(())
}
