//! Runs of the program: rows of lines, bad lines, ends that fail, and want of memory.

use moka_ends::{ListSink, ListSource};
use moka_gateway_run::gateway;
use moka_lines::Status;
use std::alloc::{AllocError, Global};
use std::test::Fail;

/// How a run ended, and what it wrote.
#[derive(Drop)]
struct Ended {
    status: Status,
    bytes: Vec<u8>,
}

impl Ended {
    /// Whether it ended with this status, and wrote just this.
    fn came_to(&self, status: Status, written: &str) -> bool {
        self.status == status && self.bytes.as_slice() == written.as_bytes()
    }
}

/// The words as they stand on a command line.
fn words_of(alloc: Global, row: &[&str]) -> Result<Vec<String>, AllocError> {
    let mut words = Vec::new(alloc);
    for word in row {
        words.push(String::from_str(alloc, word)?)?;
    }
    Ok(words)
}

/// Runs the program on a text, which comes 20 bytes a read and goes 20 a write. The calls of the
/// numbers in `reads` and in `writes` fail.
fn run_so(
    alloc: Global,
    words: &[&str],
    text: &str,
    reads: &[u64],
    writes: &[u64],
) -> Result<Ended, AllocError> {
    let words = words_of(alloc, words)?;
    let bytes = text.as_bytes().to_vec(alloc)?;
    let mut source = ListSource::new(bytes, 20, reads.to_vec(alloc)?);
    let mut sink = ListSink::new(alloc, 20, writes.to_vec(alloc)?);
    let status = gateway(alloc, &words, &mut source, &mut sink);
    let bytes = sink.bytes().to_vec(alloc)?;
    Ok(Ended { status, bytes })
}

/// Runs the program on a text.
fn run(alloc: Global, text: &str) -> Result<Ended, AllocError> {
    run_so(alloc, &["gateway"], text, &[], &[])
}

/// A text that has a line of each kind.
const TEXT: &str =
    "open\nopen\nfeed 1 get 7;get 3;\nfeed 2 get 7;x;\nclose 1\nreply 7 error 3\nreply 7 value 1\n";

/// What the program writes to it.
const WRITTEN: &str =
    "client 1\nclient 2\nup fetch 7\nup fetch 3\nclosed\nup cancel 3\nto 2 error 3;bad;\nrefused\n";

#[test]
fn a_text_is_written(rt: HostRuntime) -> Result<(), Fail> {
    assert!(rt; run(rt.alloc(), TEXT)?.came_to(Status::Done, WRITTEN));
    Ok(())
}

#[test]
fn an_empty_source_writes_nothing(rt: HostRuntime) -> Result<(), Fail> {
    assert!(rt; run(rt.alloc(), "")?.came_to(Status::Done, ""));
    Ok(())
}

/// Each of these is a bad line, after one that is good.
#[test]
fn bad_lines_are_told(rt: HostRuntime) -> Result<(), Fail> {
    let rows = [
        "open 1",
        "open ",
        "Open",
        "",
        "feed 1",
        "feed 1 ",
        "feed 01 x",
        "feed  1 x",
        "feed x 1",
        "feed 18446744073709551616 x",
        "reply 1",
        "reply 1 value",
        "reply 1 value ",
        "reply 1 nothing",
        "reply 1 error 4294967296",
        "reply 4294967296 error 1",
        "reply 1 value 01",
        "close",
        "close 1 ",
        "close 18446744073709551616",
    ];
    let alloc = rt.alloc();
    for row in rows {
        let text = format!(in alloc; "open\n{row}\nopen\n")?;
        let ended = run(alloc, text.as_str())?;
        assert!(rt; ended.came_to(Status::BadLine { line: 2 }, ""), "{row}");
    }
    Ok(())
}

/// A blank may be fed, and the greatest numbers may stand in a line.
#[test]
fn lines_at_the_edge_are_good(rt: HostRuntime) -> Result<(), Fail> {
    let rows = [
        ("open\nfeed 1  \nfeed 1 ;", "client 1\nto 1 bad;\n"),
        ("feed 18446744073709551615 x", "refused\n"),
        ("close 18446744073709551615\n", "refused\n"),
        ("reply 4294967295 error 4294967295", "refused\n"),
        (
            "open\nfeed 1 get 4294967295;\nreply 4294967295 value 0\n",
            "client 1\nup fetch 4294967295\nto 1 value 0;\n",
        ),
    ];
    for (text, written) in rows {
        assert!(rt;
            run(rt.alloc(), text)?.came_to(Status::Done, written),
            "{text}"
        );
    }
    Ok(())
}

#[test]
fn other_words_read_nothing(rt: HostRuntime) -> Result<(), Fail> {
    let rows: [&[&str]; 5] = [
        &[],
        &["play"],
        &["gateway", "gateway"],
        &["gateway", "x"],
        &["Gateway"],
    ];
    for words in rows {
        let ended = run_so(rt.alloc(), words, "open\n", &[0], &[0])?;
        assert!(rt; ended.came_to(Status::BadWords, ""));
    }
    Ok(())
}

#[test]
fn ends_that_fail_are_told(rt: HostRuntime) -> Result<(), Fail> {
    for read in 0..4 {
        let ended = run_so(rt.alloc(), &["gateway"], TEXT, &[read], &[])?;
        assert!(rt; ended.came_to(Status::ReadFault, ""), "read {read}");
    }
    let first = run_so(rt.alloc(), &["gateway"], TEXT, &[], &[0])?;
    assert!(rt; first.came_to(Status::WriteFault, ""));
    let second = run_so(rt.alloc(), &["gateway"], TEXT, &[], &[1])?;
    assert!(rt; second.came_to(Status::WriteFault, "client 1\nclient 2\nup"));
    Ok(())
}

fn run_at_last(alloc: Global) -> Result<Ended, AllocError> {
    match run(alloc, TEXT) {
        Ok(ended) => Ok(ended),
        Err(_) => run(alloc, TEXT),
    }
}

/// Where an allocation of the program fails nothing is written; without it all is.
#[test]
fn a_run_writes_all_or_nothing(rt: HostRuntime) -> Result<(), Fail> {
    let ended = run_at_last(rt.alloc())?;
    let all = ended.came_to(Status::Done, WRITTEN);
    let none = ended.came_to(Status::Memory, "");
    assert!(rt; all || none);
    Ok(())
}
