//! What steps ask for.

use boxcar::tag::Tag;
use logbook::Pen;
use moka_words::Word;

/// The draw of a ticket: its number, and the pair that the history names under it; none of a
/// removal.
#[derive(Drop)]
pub(crate) struct Drawn<'a, K, V> {
    pub(crate) ticket: u64,
    pub(crate) pair: Option<(&'a K, &'a V)>,
}

/// The exchange of a bucket on a ticket.
#[derive(Clone, Copy)]
pub(crate) struct Exchange {
    pub(crate) ticket: u64,
    pub(crate) array: u64,
    pub(crate) index: usize,
    pub(crate) to: Word,
}

/// The announcement of an array: the ticket, the segment that it is for, how many words it is to have,
/// and the array that it grows.
#[derive(Clone, Copy)]
pub(crate) struct Planned {
    pub(crate) ticket: u64,
    pub(crate) segment: usize,
    pub(crate) length: usize,
    pub(crate) grown: Option<u64>,
}

/// A cell that comes home for the array of this ticket: the one that the pen writes.
#[derive(Drop)]
pub(crate) struct Brought<'a> {
    pub(crate) ticket: u64,
    pub(crate) pen: &'a Pen,
}

/// The exchange of a word for its seal.
#[derive(Clone, Copy)]
pub(crate) struct Seal {
    pub(crate) array: u64,
    pub(crate) index: usize,
    pub(crate) to: Word,
}

/// The link of an array: its ticket, its segment, the keys of its words, and that of the word behind them.
#[derive(Drop)]
pub(crate) struct Linking {
    pub(crate) ticket: u64,
    pub(crate) segment: usize,
    pub(crate) keys: Tag,
    pub(crate) behind: Tag,
}

/// The copy of a word.
#[derive(Clone, Copy)]
pub(crate) struct Copying {
    pub(crate) array: u64,
    pub(crate) index: usize,
    pub(crate) to: Word,
}

/// The swing of a segment's root, from one array to another.
#[derive(Clone, Copy)]
pub(crate) struct Swinging {
    pub(crate) segment: usize,
    pub(crate) from: u64,
    pub(crate) to: u64,
}
