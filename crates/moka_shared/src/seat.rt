//! What one caller has seen of a table.

use crate::book::Law;
use boxcar::tag::Tag;
use logbook::Seen;
use moka_history::Note;
use moka_shelf::Hidden;
use std::hash::{BuildHasher, Hash};

/// What one caller has seen of the history of a table, what the table's shelf has hidden from it, the
/// tickets that it has drawn, and those of them under which it has made changes. H is a look of the
/// shelf.
#[derive(Drop)]
pub struct Seat<K: Eq + Hash, V, S: BuildHasher, H = Hidden> {
    pub(crate) front: Seen<Note<K, V, S>, u64, Law>,
    pub(crate) hidden: H,
    pub(crate) drawn: Tag,
    pub(crate) mine: Tag,
}
