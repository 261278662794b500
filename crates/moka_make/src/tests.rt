//! Makes in memory: the summaries of small workloads, and makes that end otherwise.

use crate::{Status, make};
use moka_ends::{Failed, ListSink, Source};
use std::alloc::{AllocError, Global};
use std::test::Fail;

/// Fails at each read, and counts them.
#[derive(Drop)]
struct Faulty {
    reads: u64,
}

impl Source for Faulty {
    ghost use Rattle.std.specs.Prelude.{None};

    ghost left = { λ s. None };

    ghost faults = { λ s. s.reads };

    fn read(&mut self, _buf: &mut [u8]) -> Result<usize, Failed> {
        self.reads = self.reads.saturating_add(1);
        Err(Failed)
    }
}

/// How a make ended, what it wrote, and how often it read.
#[derive(Drop)]
struct Ended {
    status: Status,
    bytes: Vec<u8>,
    reads: u64,
}

/// Makes what the words ask for, from a source whose reads fail. A write takes one byte, and those of
/// the numbers in `failing` fail.
fn make_of(alloc: Global, words: &str, failing: &[u64]) -> Result<Ended, AllocError> {
    let mut split = Vec::new(alloc);
    for word in words.split(' ') {
        split.push(String::from_str(alloc, word)?)?;
    }
    let mut source = Faulty { reads: 0 };
    let mut sink = ListSink::new(alloc, 1, failing.to_vec(alloc)?);
    let status = make(alloc, &split, &mut source, &mut sink);
    Ok(Ended {
        status,
        bytes: sink.bytes().to_vec(alloc)?,
        reads: source.reads,
    })
}

/// The words of a summary's lines.
const WORDS: [&str; 12] = [
    "turns", "events", "calls", "answers", "asks", "waits", "refused", "entries", "owed", "logged",
    "applied", "notices",
];

/// The text of a summary of these numbers.
fn text_of(alloc: Global, numbers: &[u64; 12]) -> Result<String, AllocError> {
    let mut text = String::new(alloc);
    for (word, number) in WORDS.iter().zip(numbers) {
        writeln!(text, "{word} {number}")?;
    }
    Ok(text)
}

#[test]
fn workloads_are_summed_up(rt: HostRuntime) -> Result<(), Fail> {
    // Two other programs agree on these.
    let rows = [
        ("make 1 7", [1, 11, 2, 1, 2, 1, 2, 1, 0, 1, 0, 0]),
        ("make 1 0", [1, 5, 1, 1, 0, 0, 2, 1, 0, 1, 0, 0]),
        (
            "make 1 18446744073709551615",
            [1, 3, 1, 1, 0, 0, 0, 0, 0, 0, 0, 0],
        ),
        ("make 99 0", [99, 447, 106, 98, 19, 7, 98, 44, 0, 45, 0, 1]),
        (
            "make 100 0",
            [100, 460, 109, 100, 21, 8, 100, 45, 0, 0, 46, 1],
        ),
        (
            "make 2000 5",
            [2000, 9404, 2206, 1964, 780, 172, 1432, 559, 0, 0, 924, 329],
        ),
    ];
    for (words, numbers) in rows {
        let ended = make_of(rt.alloc(), words, &[])?;
        let want = text_of(rt.alloc(), &numbers)?;
        assert_eq!(rt; ended.status, Status::Done, "{words}");
        assert_eq!(rt; ended.bytes.as_slice(), want.as_bytes(), "{words}");
        assert_eq!(rt; ended.reads, 0, "{words}");
    }
    Ok(())
}

#[test]
fn other_words_are_refused(rt: HostRuntime) -> Result<(), Fail> {
    let rows = [
        "",
        "make",
        "make 7",
        "make 1 7 1",
        "make 0 5",
        "make 200001 5",
        "make 01 5",
        "make 1 05",
        "make +1 1",
        "make 1 -1",
        "make 1 18446744073709551616",
        "make 4294967297 1",
        "make 1 ",
        "make  1",
        "Make 1 7",
        "run",
        "play",
        "play x",
        "play 1 7",
    ];
    for words in rows {
        // Nothing is written, so the write that fails does no harm.
        let ended = make_of(rt.alloc(), words, &[0])?;
        assert_eq!(rt; ended.status, Status::BadWords, "{words}");
        assert!(rt; ended.bytes.is_empty() && ended.reads == 0, "{words}");
    }
    Ok(())
}

#[test]
fn a_failing_write_leaves_the_front_of_the_summary(rt: HostRuntime) -> Result<(), Fail> {
    let whole = text_of(rt.alloc(), &[1, 11, 2, 1, 2, 1, 2, 1, 0, 1, 0, 0])?;
    for write in 0..whole.len() {
        let ended = make_of(rt.alloc(), "make 1 7", &[write as u64])?;
        let written = Some(ended.bytes.as_slice());
        assert_eq!(rt; ended.status, Status::WriteFault, "after {write} bytes");
        assert_eq!(rt;
            written,
            whole.as_bytes().get(..write),
            "after {write} bytes"
        );
    }
    Ok(())
}
