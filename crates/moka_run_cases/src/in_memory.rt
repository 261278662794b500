//! Playing a text in memory.
ghost use Rattle.std.specs.Prelude.{◌<◌};

use moka_ends::{ListSink, ListSource};
use moka_run::{Status, play};
use std::alloc::{AllocError, Global};
use std::process::Abort;
use std::test::Fail;

/// How a play ended, and what it wrote.
#[derive(Drop)]
pub struct Played {
    pub status: Status,
    pub bytes: Vec<u8>,
}

impl Played {
    /// Whether it ended with this status, whose number is this, and wrote just this.
    pub fn came_to(&self, status: Status, code: u8, written: &str) -> bool {
        self.status == status
            && self.status.code() == code
            && self.bytes.as_slice() == written.as_bytes()
    }
}

/// The text whose lines the row has, parted by ` / `, each with a line end. An empty row has none.
pub fn text_of(alloc: Global, row: &str) -> Result<String, AllocError> {
    let mut text = String::new(alloc);
    if row.is_empty() {
        return Ok(text);
    }
    for line in row.split(" / ") {
        text.push_str(line)?;
        text.push('\n')?;
    }
    Ok(text)
}

/// The words as they stand on a command line.
pub fn words_of(alloc: Global, row: &[&str]) -> Result<Vec<String>, AllocError> {
    let mut words = Vec::new(alloc);
    for word in row {
        words.push(String::from_str(alloc, word)?)?;
    }
    Ok(words)
}

/// Plays what the source gives, to the sink.
fn play_between(
    alloc: Global,
    words: &[&str],
    mut source: ListSource,
    mut sink: ListSink,
) -> Result<Played, AllocError> {
    let words = words_of(alloc, words)?;
    let status = play(alloc, &words, &mut source, &mut sink);
    let bytes = sink.bytes().to_vec(alloc)?;
    Ok(Played { status, bytes })
}

/// Plays the bytes, which come 7 a read and go 5 a write. The calls of the numbers in `reads` and
/// in `writes` fail.
pub fn play_bytes(
    alloc: Global,
    words: &[&str],
    bytes: &[u8],
    reads: &[u64],
    writes: &[u64],
) -> Result<Played, AllocError> {
    let source = ListSource::new(bytes.to_vec(alloc)?, 7, reads.to_vec(alloc)?);
    let sink = ListSink::new(alloc, 5, writes.to_vec(alloc)?);
    play_between(alloc, words, source, sink)
}

/// Plays the bytes, of which at most `read` come a read, and at most `write` go a write.
pub fn play_pieces(
    alloc: Global,
    bytes: &[u8],
    read: usize,
    write: usize,
) -> Result<Played, AllocError>
    requires read { 0 < read }
    requires write { 0 < write }
{
    let source = ListSource::new(bytes.to_vec(alloc)?, read, Vec::new(alloc));
    let sink = ListSink::new(alloc, write, Vec::new(alloc));
    play_between(alloc, &["play"], source, sink)
}

/// Plays the bytes, of which one comes a read, and one goes a write. The writes of the numbers in
/// `writes` fail.
pub fn play_by_bytes(alloc: Global, bytes: &[u8], writes: &[u64]) -> Result<Played, AllocError> {
    let source = ListSource::new(bytes.to_vec(alloc)?, 1, Vec::new(alloc));
    let sink = ListSink::new(alloc, 1, writes.to_vec(alloc)?);
    play_between(alloc, &["play"], source, sink)
}

/// Whether the schedule is played to the report. ` / ` parts lines.
pub fn is_reported(alloc: Global, schedule: &str, report: &str) -> Result<bool, AllocError> {
    let bytes = text_of(alloc, schedule)?;
    let want = text_of(alloc, report)?;
    let ended = play_bytes(alloc, &["play"], bytes.as_bytes(), &[], &[])?;
    Ok(ended.came_to(Status::Done, 0, &want))
}

/// Plays the schedules, each of which comes to the report beside it. ` / ` parts lines.
pub fn are_reported(rt: &(impl AllocGlobal + Abort), rows: &[(&str, &str)]) -> Result<(), Fail> {
    for row in rows {
        let schedule = row.0;
        assert!(rt; is_reported(rt.alloc(), schedule, row.1)?, "{schedule}");
    }
    Ok(())
}
