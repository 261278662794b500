//! Arrays of words, and the segment that they are of.

ghost use Rattle.std.specs.Prelude.{◌≤◌, ◌^◌, length};

use moka_words::Word;
use std::alloc::Global;

/// An array: where it stands in its segment, its words, and how many tombstones were put there.
#[derive(Drop)]
pub struct Array {
    pub place: usize,
    pub words: Vec<Word>,
    pub tombstones: u64,
    ghost short: { length words.items ≤ 2 ^ 60 },
}

/// The numbers of its arrays, in the order in which they were linked; how many of them have been
/// its root, of which the last one is it; and how many keys it has.
#[derive(Drop)]
pub struct Segment {
    pub arrays: Vec<u64>,
    pub rooted: usize,
    pub len: u64,
}

/// All arrays by number, and the segment. Numbers never come again.
#[derive(Drop)]
pub struct Arrays {
    pub alloc: Global,
    pub all: Vec<Array>,
    pub segment: Segment,
}
