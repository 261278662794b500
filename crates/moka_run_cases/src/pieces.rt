//! The length of the pieces that a source gives and a sink takes changes nothing. ` / ` parts
//! lines.

use crate::in_memory::{play_pieces, text_of, words_of};
use moka_ends::{PlainSink, PlainSource};
use moka_run::{Status, play};
use std::test::Fail;

const SCHEDULE: &str =
    "cache log=8 / start get_with 1 / start get_with 1 / poll 1 / poll 2 / drop 1 / poll 2 / tell 2 value 9 / poll 2";

const REPORT: &str =
    "call 1 / call 2 / ask init / wait / dropped / ask init / told / answer value 9 fresh / entry 1 9 stamp 2 at 0 / write 2 logged";

/// Lengths of pieces: of a read, and of a write.
const PIECES: [(usize, usize); 6] = [(1, 1), (1, 4096), (4096, 1), (2, 3), (12, 7), (5000, 5000)];

#[test]
fn pieces_of_any_length_come_to_the_same(rt: HostRuntime) -> Result<(), Fail> {
    let bytes = text_of(rt.alloc(), SCHEDULE)?;
    let want = text_of(rt.alloc(), REPORT)?;
    for (read, write) in PIECES {
        let ended = play_pieces(rt.alloc(), bytes.as_bytes(), read, write)?;
        let is_so = ended.came_to(Status::Done, 0, &want);
        assert!(rt; is_so, "{read} a read, {write} a write");
        let bad = play_pieces(rt.alloc(), b"cache\nstart get 1\nstart ge", read, write)?;
        let is_so = bad.came_to(Status::BadLine { line: 3 }, 2, "");
        assert!(rt; is_so, "{read} a read, {write} a write");
    }
    Ok(())
}

#[test]
fn ends_that_never_fail_carry_the_same_report(rt: HostRuntime) -> Result<(), Fail> {
    let words = words_of(rt.alloc(), &["play"])?;
    let want = text_of(rt.alloc(), REPORT)?;
    let mut source = PlainSource::new(text_of(rt.alloc(), SCHEDULE)?.into_bytes());
    let mut sink = PlainSink::new(rt.alloc());
    assert_eq!(rt;
        play(rt.alloc(), &words, &mut source, &mut sink),
        Status::Done
    );
    assert_eq!(rt; sink.bytes(), Some(want.as_bytes()));
    Ok(())
}
