//! Runs of the program on a text in memory, and how each ends.

use moka_behind::{Keeper, MapKeeper, PlainKeeper};
use moka_behind_run::behind;
use moka_ends::{ListSink, ListSource};
use moka_lines::Status;
use std::alloc::{AllocError, Global};
use std::collections::HashMap;

/// How a run ended, and what it wrote.
#[derive(Drop)]
pub struct Ended {
    pub status: Status,
    pub bytes: Vec<u8>,
}

impl Ended {
    /// Whether it ended with this status, and wrote just this.
    pub fn came_to(&self, status: Status, written: &str) -> bool {
        self.status == status && self.bytes.as_slice() == written.as_bytes()
    }
}

/// The text whose lines the row has, parted by ` / `, each with a line end.
pub fn text_of(alloc: Global, row: &str) -> Result<String, AllocError> {
    let mut text = String::new(alloc);
    for line in row.split(" / ") {
        text.push_str(line)?;
        text.push('\n')?;
    }
    Ok(text)
}

/// A map of these pairs.
pub fn map_of(alloc: Global, pairs: &[(u32, u32)]) -> Result<HashMap<u32, u32>, AllocError> {
    let mut map = HashMap::new(alloc);
    for pair in pairs {
        map.insert(pair.0, pair.1)?;
    }
    Ok(map)
}

/// A keeper of these pairs, whose calls of these numbers fail, from 0.
pub fn keeper_of(
    alloc: Global,
    pairs: &[(u32, u32)],
    failing: &[u64],
) -> Result<MapKeeper, AllocError> {
    let map = map_of(alloc, pairs)?;
    let failing = failing.to_vec(alloc)?;
    Ok(MapKeeper::new(alloc, map, failing))
}

/// The words as they stand on a command line.
fn words_of(alloc: Global, row: &[&str]) -> Result<Vec<String>, AllocError> {
    let mut words = Vec::new(alloc);
    for word in row {
        words.push(String::from_str(alloc, word)?)?;
    }
    Ok(words)
}

/// Runs the program between these ends, before the keeper.
fn run_between<Kp: Keeper>(
    alloc: Global,
    words: &[&str],
    mut source: ListSource,
    mut sink: ListSink,
    keeper: &mut Kp,
) -> Result<Ended, AllocError> {
    let words = words_of(alloc, words)?;
    let status = behind(alloc, &words, &mut source, &mut sink, keeper);
    let bytes = sink.bytes().to_vec(alloc)?;
    Ok(Ended { status, bytes })
}

/// Runs the program on a text, before the keeper.
pub fn run_before<Kp: Keeper>(
    alloc: Global,
    text: &str,
    keeper: &mut Kp,
) -> Result<Ended, AllocError> {
    let source = ListSource::new(text.as_bytes().to_vec(alloc)?, 4096, Vec::new(alloc));
    let sink = ListSink::new(alloc, 4096, Vec::new(alloc));
    run_between(alloc, &["behind"], source, sink, keeper)
}

/// Runs the program on a text, before an empty keeper that never fails. The text comes 7 bytes a
/// read, and goes 5 a write. The calls of the numbers in `reads` and in `writes` fail.
pub fn run_pieces(
    alloc: Global,
    words: &[&str],
    text: &str,
    reads: &[u64],
    writes: &[u64],
) -> Result<Ended, AllocError> {
    let source = ListSource::new(text.as_bytes().to_vec(alloc)?, 7, reads.to_vec(alloc)?);
    let sink = ListSink::new(alloc, 5, writes.to_vec(alloc)?);
    let mut keeper = PlainKeeper::new(HashMap::new(alloc));
    run_between(alloc, words, source, sink, &mut keeper)
}
