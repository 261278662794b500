//! What no clause says: that calls succeed with ample memory, and where the list ends fail.

ghost use Rattle.std.specs.Prelude.{◌<◌};

use crate::rows::{Wrong, all_right};
use moka_ends::{ListSink, ListSource, PlainSink, PlainSource, ReadError, read_all, write_all};
use std::alloc::{AllocError, Global};

/// What is read, and written.
const TEXT: &str = "moka\n";

/// Whether just the text was read, or the read ended in this error.
fn ended(read: Result<Vec<u8>, ReadError>, error: Option<ReadError>) -> bool {
    match read {
        Ok(bytes) => error.is_none() && bytes.as_slice() == TEXT.as_bytes(),
        Err(other) => error == Some(other),
    }
}

/// Whether the text, of which at most `piece` bytes come a read, is read so, where the reads of
/// these numbers fail.
fn is_read(
    alloc: Global,
    piece: usize,
    failing: &[u64],
    error: Option<ReadError>,
) -> Result<bool, AllocError>
    requires { 0 < piece }
{
    let bytes = TEXT.as_bytes().to_vec(alloc)?;
    let mut source = ListSource::new(bytes, piece, failing.to_vec(alloc)?);
    let read = read_all(alloc, &mut source, 5);
    drop(source);
    Ok(ended(read, error))
}

/// The first length of pieces in which the text isn't read.
fn misread_piece(alloc: Global) -> Wrong {
    for piece in [1, 2, 5, 6] {
        if !is_read(alloc, piece, &[], None)? {
            return Ok(Some(piece as u64));
        }
    }
    Ok(None)
}

#[test]
fn pieces_of_any_length_are_read_as_the_same_bytes(rt: HostRuntime) {
    all_right(&rt, misread_piece(rt.alloc()));
}

/// The first failing read that is no fault.
fn faultless_read(alloc: Global) -> Wrong {
    for failing in [0, 1, 5] {
        if !is_read(alloc, 1, &[failing], Some(ReadError::Fault))? {
            return Ok(Some(failing));
        }
    }
    Ok(None)
}

#[test]
fn a_failing_read_is_a_fault(rt: HostRuntime) {
    all_right(&rt, faultless_read(rt.alloc()));
}

/// Whether the text is read so by who takes at most so many bytes.
fn is_taken(alloc: Global, most: usize, error: Option<ReadError>) -> Result<bool, AllocError> {
    let mut source = PlainSource::new(TEXT.as_bytes().to_vec(alloc)?);
    let read = read_all(alloc, &mut source, most);
    drop(source);
    Ok(ended(read, error))
}

/// The first of who take at most so many bytes that takes the text where it is too long, or doesn't
/// where it fits.
fn mistaken(alloc: Global) -> Wrong {
    for (most, fits) in [(0, false), (4, false), (5, true), (6, true)] {
        let error = if fits { None } else { Some(ReadError::TooLong) };
        if !is_taken(alloc, most, error)? {
            return Ok(Some(most as u64));
        }
    }
    Ok(None)
}

#[test]
fn a_source_one_byte_too_long_is_refused(rt: HostRuntime) {
    all_right(&rt, mistaken(rt.alloc()));
}

/// Whether of the text, of which at most `piece` bytes go a write, just this is written, where the
/// writes of these numbers fail: all of it where none does.
fn is_written(alloc: Global, piece: usize, failing: &[u64], want: &str) -> Result<bool, AllocError>
    requires { 0 < piece }
{
    let mut sink = ListSink::new(alloc, piece, failing.to_vec(alloc)?);
    let ended = write_all(&mut sink, TEXT.as_bytes());
    let is_so = sink.bytes() == want.as_bytes();
    drop(sink);
    Ok(is_so && ended.is_ok() == failing.is_empty())
}

/// The first length of pieces in which the text isn't written.
fn miswritten_piece(alloc: Global) -> Wrong {
    for piece in [1, 2, 5, 6] {
        if !is_written(alloc, piece, &[], TEXT)? {
            return Ok(Some(piece as u64));
        }
    }
    Ok(None)
}

#[test]
fn pieces_of_any_length_are_written_as_the_same_bytes(rt: HostRuntime) {
    all_right(&rt, miswritten_piece(rt.alloc()));
}

/// The first failing write that leaves something else than what was written before.
fn miswritten_front(alloc: Global) -> Wrong {
    for (failing, want) in [(0, ""), (1, "mo"), (2, "moka")] {
        if !is_written(alloc, 2, &[failing], want)? {
            return Ok(Some(failing));
        }
    }
    Ok(None)
}

#[test]
fn a_failing_write_leaves_what_was_written_before(rt: HostRuntime) {
    all_right(&rt, miswritten_front(rt.alloc()));
}

#[test]
fn a_plain_sink_keeps_what_memory_holds(rt: HostRuntime) {
    let mut sink = PlainSink::new(rt.alloc());
    let ended = write_all(&mut sink, TEXT.as_bytes());
    let is_so = sink.bytes() == Some(TEXT.as_bytes());
    drop(sink);
    assert!(rt; ended.is_ok());
    assert!(rt; is_so);
}
