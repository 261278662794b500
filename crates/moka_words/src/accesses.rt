//! The accesses of a call to arrays of words, and what it sees.

use crate::Word;

/// What a call does next. Each access is one step; a `Choose` touches no word, and belongs to the
/// load before it.
#[derive(Clone, Copy, PartialEq, Eq, Debug)]
pub enum Access {
    /// Reads which array is the root of the call's segment.
    LoadRoot,
    /// Reads a word.
    LoadWord {
        array: u64,
        index: usize,
    },
    /// Asks what is to be done with the live node under the call's key, or with its absence.
    Choose {
        present: Option<u64>,
    },
    /// Replaces a word, where it still is `from`.
    Exchange {
        array: u64,
        index: usize,
        from: Word,
        to: Word,
    },
    /// Reads which array comes after this one; after None, which is the first.
    LoadNext {
        array: Option<u64>,
    },
    /// Puts a new array of unset words after this one, where none is there.
    Link {
        array: Option<u64>,
        length: usize,
    },
    /// Sets a word, where it is unset.
    Copy {
        array: u64,
        index: usize,
        to: Word,
    },
    /// Makes an array the root, where the root still is `from`.
    Swing {
        from: Option<u64>,
        to: u64,
    },
}

/// What is to be done with a key.
#[derive(Clone, Copy, PartialEq, Eq, Debug)]
pub enum Choice {
    /// Nothing.
    Keep,
    /// Stores this node under it.
    Put { node: u64 },
    /// Removes it.
    Remove,
}

/// What an access saw.
#[derive(Clone, Copy, PartialEq, Eq, Debug)]
pub enum Seen {
    /// The root and its length, how many of its words are tombstones, and how many keys the segment
    /// has.
    Root {
        array: Option<u64>,
        length: usize,
        tombstones: u64,
        len: u64,
    },
    /// The word, the hash of its node, and whether that one's key is the call's; 0 and false where
    /// the word has no node.
    Word {
        word: Word,
        hash: u64,
        same: bool,
    },
    /// What is to be done.
    Chosen(Choice),
    /// None where the exchange was made; otherwise the word that it met.
    Exchanged(Option<Word>),
    /// The array that comes next, and its length.
    Next {
        array: Option<u64>,
        length: usize,
    },
    /// The array that now stands next, whoever put it there, and its length.
    Linked {
        array: u64,
        length: usize,
    },
    /// The word is set, by this call or before.
    Copied,
    /// The root is another than the old one, by this call or before.
    Swung,
}
