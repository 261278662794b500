//! What stands in the log.

use moka_words::Word;
use std::collections::LinkedList;

/// What a caller writes into the log of its table. The log is ghost: no value of this type is made.
#[derive(Drop)]
pub enum Note<K, V, S> {
    /// So many segments were made, each with one array of so many words, for this hash builder. The
    /// arrays are numbered from 1, and these numbers are spent.
    Opened {
        segments: usize,
        length: usize,
        hasher: S,
    },
    /// The ticket was drawn. As a number of nodes it names this pair; one for a removal names none.
    Announced {
        ticket: u64,
        pair: Option<(K, V)>,
    },
    /// On this ticket the word of the array was exchanged.
    Changed {
        ticket: u64,
        array: u64,
        index: usize,
        to: Word,
    },
    /// The ticket was drawn for an array of so many words of this segment, which is to come after the
    /// array that it grows; None for the segment's first one.
    ArrayAnnounced {
        ticket: u64,
        segment: usize,
        length: usize,
        grown: Option<u64>,
    },
    /// A cell was added for a word of the array that is announced on this ticket.
    CellAdded {
        ticket: u64,
    },
    /// That cell is home, and holds an unset word. The word is part of no array yet.
    CellHome {
        ticket: u64,
        cell: u64,
    },
    /// The word of the array was exchanged for its seal.
    Sealed {
        array: u64,
        index: usize,
        to: Word,
    },
    /// The array that is announced on this ticket was linked in this segment, after the array that it
    /// grows. Its words have the cells of these keys, in order, and the cell behind them names the array
    /// after it.
    ArrayLinked {
        ticket: u64,
        segment: usize,
        grown: Option<u64>,
        keys: LinkedList<u64>,
        behind: u64,
    },
    /// The word of the array, which was unset, was exchanged for the one that its layout has there.
    Copied {
        array: u64,
        index: usize,
        to: Word,
    },
    /// The segment's root was the first of these arrays, and is the other one, which follows it.
    Swung {
        segment: usize,
        from: u64,
        to: u64,
    },
}
