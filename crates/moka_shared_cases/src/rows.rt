//! Worked cases as rows: what is done with a table, and what it tells.
ghost use Rattle.std.specs.Prelude.{◌<◌, ◌≤◌};

use crate::calls::{Caller, Grown};
use moka_shared::{
    HashMap, Missed, TryChange, TryFill, TryGet, TryInsert, TryLink, TrySeal, TrySwing, Unopened,
};
use moka_words::Word;
use std::alloc::{AllocError, Global};
use std::hash::BuildHasher;

/// What is done with a table.
#[derive(Clone, Copy)]
pub(crate) enum Deed {
    /// It is asked how many segments it has.
    Segments,
    /// The pair is put where its key is absent.
    Put(u64, u64),
    /// The value is put in place of the one under the key.
    Replace(u64, u64),
    /// The pair of the key is removed.
    Remove(u64),
    /// The key is looked for.
    Get(u64),
    /// Each key from the first one up to the last is put with itself as its value, and counted where
    /// it is.
    PutAll(u64, u64),
    /// Each of them is looked for, and counted where it is found with itself as its value.
    GetAll(u64, u64),
    /// A row of so many words is made for the first segment.
    Open(usize),
    /// A row of so many words is made for the first segment, and linked.
    Link(usize),
    /// A row of so many words is made for the first segment, linked and filled, and the root is
    /// swung to it.
    Grow(usize),
    /// The same, but it isn't filled.
    Swing(usize),
    /// The word of this bucket of the first segment is sealed.
    Seal(usize),
    /// The words of the first segment before this bucket are sealed, and counted where they were
    /// empty.
    SealAll(usize),
}

/// What is told of it.
#[derive(Clone, Copy, PartialEq, Eq, Debug)]
pub(crate) enum Told {
    /// The pair is put.
    Inserted,
    /// The first value stands there, and the pair after it comes back.
    Present(u64, u64, u64),
    /// The pair comes back, since the pass has to be made again.
    PutBack(Missed, u64, u64),
    /// This value was found, changed or removed.
    Value(u64),
    /// The key is absent.
    Nothing,
    /// The pass has to be made again.
    Again(Missed),
    /// Memory is wanting.
    Memory,
    /// A row has so many words, and this ticket.
    Row(usize, u64),
    /// The array of this number follows the segment's first one, by this caller.
    Linked(u64),
    /// It does by an earlier link.
    There(u64),
    /// The word of this bucket isn't sealed.
    Open(usize),
    /// An array that follows has so many words.
    Length(usize),
    /// The array of this number is the segment's root by this caller, and once only.
    Swung(u64),
    /// The array of this number is the root by an earlier swing.
    Root(u64),
    /// The word of this bucket isn't set.
    Unset(usize),
    /// This word stands there for good.
    Sealed(Word),
    /// There are so many.
    Count(usize),
}

/// What is done, and what is told of it.
#[derive(Clone, Copy)]
pub(crate) struct Row(pub(crate) Deed, pub(crate) Told);

/// A row of which another thing is told, by its place, with that.
#[derive(Clone, Copy, PartialEq, Eq, Debug)]
pub(crate) struct Wrong(usize, Told);

/// Plays the rows on a new table of so many segments for so many pairs, and gives the first of which
/// another thing is told.
pub(crate) fn wrong_row<S: BuildHasher + Drop>(
    alloc: Global,
    segments: usize,
    capacity: usize,
    hasher: S,
    rows: &[Row],
) -> Result<Option<Wrong>, AllocError>
    requires some { 0 < segments }
    requires few { segments ≤ 65536 }
    requires capacity { 0 < capacity }
{
    let table: HashMap<u64, u64, S> = HashMap::with_num_segments_capacity_and_hasher(
        alloc, segments, capacity, hasher,
    )?;
    let wrong = wrong_row_on(alloc, &table, rows);
    table.close();
    Ok(wrong)
}

// Plays the rows on this table.
fn wrong_row_on<S: BuildHasher + Drop>(
    alloc: Global,
    table: &HashMap<u64, u64, S>,
    rows: &[Row],
) -> Option<Wrong> {
    let mut caller = Caller::new(table);
    for (place, row) in rows.iter().enumerate() {
        let told = tell(alloc, &mut caller, row.0);
        if told != row.1 {
            return Some(Wrong(place, told));
        }
    }
    None
}

// Does it, and tells what came of it.
fn tell<S: BuildHasher + Drop>(alloc: Global, caller: &mut Caller<'_, S>, deed: Deed) -> Told {
    match deed {
        Deed::Segments => Told::Count(caller.segments()),
        Deed::Put(key, value) => insert_told(&caller.put(key, value)),
        Deed::Replace(key, value) => change_told(&caller.replace(key, value)),
        Deed::Remove(key) => change_told(&caller.remove(key)),
        Deed::Get(key) => get_told(&caller.get(key)),
        Deed::PutAll(first, end) => Told::Count(caller.put_all(first, end)),
        Deed::GetAll(first, end) => Told::Count(caller.get_all(first, end)),
        Deed::Open(length) => row_told(caller.row(alloc, length)),
        Deed::Link(length) => link_told(caller.link(alloc, length)),
        Deed::Grow(length) => grown_told(&caller.grow(alloc, length)),
        Deed::Swing(length) => grown_told(&caller.swing(alloc, length)),
        Deed::Seal(index) => seal_told(caller.seal(index)),
        Deed::SealAll(end) => Told::Count(caller.seal_all(end)),
    }
}

/// What is told of an insert.
pub(crate) fn insert_told(answer: &TryInsert<u64, u64>) -> Told {
    match answer {
        TryInsert::Inserted => Told::Inserted,
        TryInsert::Present { found, key, value } => Told::Present(*found, *key, *value),
        TryInsert::Again { missed, key, value } => Told::PutBack(*missed, *key, *value),
        TryInsert::Memory { .. } => Told::Memory,
    }
}

/// What is told of a change.
pub(crate) fn change_told(answer: &TryChange<u64>) -> Told {
    match answer {
        TryChange::Changed(former) => Told::Value(*former),
        TryChange::Absent => Told::Nothing,
        TryChange::Again(missed) => Told::Again(*missed),
        TryChange::Memory => Told::Memory,
    }
}

/// What is told of a look.
pub(crate) fn get_told(answer: &Result<TryGet<u64>, AllocError>) -> Told {
    match answer {
        Ok(TryGet::Found(Some(value))) => Told::Value(*value),
        Ok(TryGet::Found(None)) => Told::Nothing,
        Ok(TryGet::Again(missed)) => Told::Again(*missed),
        Err(_) => Told::Memory,
    }
}

// What is told of a row.
fn row_told(row: Result<(usize, u64), Unopened>) -> Told {
    match row {
        Ok((length, ticket)) => Told::Row(length, ticket),
        Err(why) => unopened_told(why),
    }
}

// What is told where no row was opened.
fn unopened_told(why: Unopened) -> Told {
    match why {
        Unopened::Again(missed) => Told::Again(missed),
        Unopened::Memory => Told::Memory,
    }
}

// What is told of a link of the row of this ticket.
fn joined_told(link: TryLink, ticket: u64) -> Told {
    match link {
        TryLink::Linked => Told::Linked(ticket),
        TryLink::There(array) => Told::There(array),
        TryLink::Open(index) => Told::Open(index),
        TryLink::Length(length) => Told::Length(length),
    }
}

// What is told of a link.
fn link_told(link: Result<(TryLink, u64), Unopened>) -> Told {
    match link {
        Ok((link, ticket)) => joined_told(link, ticket),
        Err(why) => unopened_told(why),
    }
}

// What is told of an array that is filled.
fn fill_told(fill: TryFill) -> Told {
    match fill {
        TryFill::Filled => Told::Inserted,
        TryFill::Again(missed) => Told::Again(missed),
        TryFill::Memory => Told::Memory,
    }
}

// What is told of a swing to the array of this number, and of another one after it.
fn swing_told(swing: TrySwing, again: TrySwing, array: u64) -> Told {
    match swing {
        TrySwing::Swung if again == TrySwing::There(array) => Told::Swung(array),
        TrySwing::Swung => Told::Nothing,
        TrySwing::There(other) => Told::Root(other),
        TrySwing::Unset(index) => Told::Unset(index),
    }
}

// What is told of a segment that grows.
fn grown_told(grown: &Grown) -> Told {
    match grown {
        Grown::Unopened(why) => unopened_told(*why),
        Grown::Link(link) => joined_told(*link, 0),
        Grown::Fill(fill) => fill_told(*fill),
        Grown::Swing {
            swing,
            again,
            ticket,
        } => swing_told(*swing, *again, *ticket),
    }
}

// What is told of a seal.
fn seal_told(seal: Option<TrySeal>) -> Told {
    match seal {
        Some(TrySeal::Sealed(word)) => Told::Sealed(word),
        Some(TrySeal::Again(missed)) => Told::Again(missed),
        None => Told::Nothing,
    }
}
