//! What calls of one pass answer.

use moka_words::Word;

/// Why a pass has to be made again.
#[derive(Clone, Copy, PartialEq, Eq, Debug)]
pub enum Missed {
    /// A word of the array was sealed.
    Sealed {
        word: Word,
        array: u64,
        index: usize,
    },
    /// The shelf hid the node of this number.
    NodeHidden(u64),
    /// The array of this number was hidden.
    ArrayHidden(u64),
    /// Another caller had exchanged the word for this one.
    Lost(Word),
    /// Another caller had drawn this ticket.
    Ticket(u64),
    /// All words of the array, of which there are so many, are of other keys.
    NoFree {
        length: usize,
    },
    /// All tickets are drawn.
    Spent,
}

/// What a look for a key answers.
#[derive(Drop, Debug)]
pub enum TryGet<V> {
    /// The value under the key, if there is one.
    Found(Option<V>),
    /// The pass has to be made again.
    Again(Missed),
}

/// What an insert where the key is absent answers. A pair that isn't put comes back.
#[derive(Drop, Debug)]
pub enum TryInsert<K, V> {
    /// The pair is put.
    Inserted,
    /// This value stands under the key already.
    Present { found: V, key: K, value: V },
    /// The pass has to be made again.
    Again { missed: Missed, key: K, value: V },
    /// Memory is wanting.
    Memory { key: K, value: V },
}

/// What a change of a pair that stands under a key answers, or its removal.
#[derive(Drop, Debug)]
pub enum TryChange<V> {
    /// It is made. This value stood there.
    Changed(V),
    /// No value stands under the key.
    Absent,
    /// The pass has to be made again.
    Again(Missed),
    /// Memory is wanting.
    Memory,
}

/// Why no row was opened.
#[derive(Clone, Copy, PartialEq, Eq, Debug)]
pub enum Unopened {
    /// The pass has to be made again.
    Again(Missed),
    /// Memory is wanting.
    Memory,
}

/// What a pass answers that is to seal a word.
#[derive(Clone, Copy, PartialEq, Eq, Debug)]
pub enum TrySeal {
    /// This word stands there for good, by this caller or another one.
    Sealed(Word),
    /// The pass has to be made again.
    Again(Missed),
}

/// What became of what was to be put.
#[derive(Drop)]
pub(crate) enum Put<V> {
    /// It is put.
    Done,
    /// This value stands under the key already.
    There(V),
    /// The pass has to be made again.
    Missed(Missed),
    /// Memory is wanting.
    Memory,
}

/// What a pass answers that is to link an array.
#[derive(Clone, Copy, PartialEq, Eq, Debug)]
pub enum TryLink {
    /// It follows the segment's first array.
    Linked,
    /// The array of this number follows that one, by an earlier link.
    There(u64),
    /// The word of this bucket isn't sealed.
    Open(usize),
    /// An array that follows has so many words.
    Length(usize),
}

/// What a pass answers that is to swing a segment's root.
#[derive(Clone, Copy, PartialEq, Eq, Debug)]
pub enum TrySwing {
    /// The array is the root in place of the segment's first one.
    Swung,
    /// The array of this number is the root, by an earlier swing.
    There(u64),
    /// The word of this bucket isn't set yet.
    Unset(usize),
}

/// What a pass answers that is to fill an array.
#[derive(Clone, Copy, PartialEq, Eq, Debug)]
pub enum TryFill {
    /// Each of its words is set, by this caller or another one.
    Filled,
    /// The pass has to be made again.
    Again(Missed),
    /// Memory is wanting.
    Memory,
}
