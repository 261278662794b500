//! How a probe ends.

use moka_words::Word;

/// Where a probe for a key ended. N is a node.
pub(crate) enum Ended<'a, N> {
    /// At this word, past so many others: its bucket is free, or the key's. The node is the one that
    /// the word names.
    At {
        passed: usize,
        word: Word,
        node: Option<&'a N>,
    },
    /// Past all words of the array.
    Full,
    /// At a word of this node, which the shelf hid.
    Hidden(u64),
    /// At a word that is sealed, or that nobody has set yet, past so many others.
    Sealed {
        passed: usize,
        word: Word,
    },
}

/// What a probe met in a bucket. N is a node.
pub(crate) enum Met<'a, N> {
    /// The bucket is free, or of the key, and then its node is shown.
    Open(Option<&'a N>),
    /// It is another key's.
    Other,
    /// It is of this node, which the shelf hid.
    Hidden(u64),
    /// It is sealed, or nobody has set it yet.
    Sealed,
}
