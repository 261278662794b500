//! Rows of slots, and where a number lies in them.
ghost use Rattle.std.specs.Prelude.{◌≡◌, ◌≤◌, ◌<◌, ℕ, ◌+◌, ◌*◌, ◌^◌, List, [], ◌∷◌, IfOk, length};
ghost use Rattle.boxcar.specs.Table.{first, others, span, Tagged};
ghost use Rattle.moka_shelf.specs.Rows.{From, IsInFirst, IsInGroup, IsInLater};

use crate::shelf::Numbered;
use boxcar::slot::{OnceSlot, SlotRule};
use boxcar::tag::{Names, Tag};
use std::alloc::{AllocError, Global};

/// The longest row has so many slots.
pub(crate) const LONGEST: usize = 65_536;

/// How many rows there are that are shorter, and one more.
pub(crate) const FIRST_ROWS: usize = 12;

/// Later rows with a number below this one are found at once. There is room for those of the numbers
/// 0 and 1, too.
pub(crate) const NEAR_ROWS: usize = 256;

/// All further rows are in groups, each of twice as many rows as the one before.
pub(crate) const GROUPS: usize = 48;

/// Places before this one lie in the first rows.
pub(crate) const FIRST_PLACES: usize = 131_072;

/// A slot holds the item whose number is 32 less than its place.
pub(crate) struct OwnItem;

impl<T: Numbered> SlotRule<T> for OwnItem {
    ghost holds = { λ tag item. (T.number item + 32 ≡ first tag) × (T.names item ≡ others tag) };
}

/// A row of items.
pub(crate) type Row<T> = Vec<OnceSlot<T, OwnItem>>;

/// The slots of a first row have the places from its length on.
pub(crate) struct FirstRow;

impl<T: Numbered> SlotRule<Vec<OnceSlot<T, OwnItem>>> for FirstRow {
    ghost holds = { λ tag row. From (others tag) (span (first tag)) row.items };
}

/// The slots of a later row have the places from 65,536 times its number on.
pub(crate) struct LaterRow;

impl<T: Numbered> SlotRule<Vec<OnceSlot<T, OwnItem>>> for LaterRow {
    ghost holds = { λ tag row. From (others tag) (first tag * 65536) row.items };
}

/// A group of later rows.
pub(crate) type Group<T> = Vec<OnceSlot<Vec<OnceSlot<T, OwnItem>>, LaterRow>>;

/// The rows of a group have the numbers from 2 to the power of the group's on.
pub(crate) struct RowsOfGroup;

impl<T: Numbered> SlotRule<Vec<OnceSlot<Vec<OnceSlot<T, OwnItem>>, LaterRow>>> for RowsOfGroup {
    ghost holds = { λ tag group. From (others tag) (2 ^ first tag) group.items };
}

// A place, and the names of the table.
#[derive(Drop)]
struct Placed {
    place: usize,
    names: Tag,
}

struct PlaceFirst;

impl Names<Placed> for PlaceFirst {
    ghost numbers = { λ x. x.place ∷ x.names.numbers };
}

struct Same;

impl Names<Tag> for Same {
    ghost numbers = { λ tag. tag.numbers };
}

/// A copy of the tag.
pub(crate) fn copy_of(names: &Tag) -> Tag
    ensures { result.numbers ≡ names.now.numbers }
{
    Tag::of::<Tag, Same>(names)
}

// The tag of a place.
fn tag_of(place: usize, names: &Tag) -> Tag
    ensures { result.numbers ≡ place ∷ names.now.numbers }
{
    let names = copy_of(names);
    Tag::of::<Placed, PlaceFirst>(&Placed { place, names })
}

/// So many empty slots, which have the places from this one on, of the table of these names. An
/// error comes where memory is wanting.
pub(crate) fn new_slots<T: Drop, Q: SlotRule<T>>(
    alloc: Global,
    names: &Tag,
    place: usize,
    count: usize,
) -> Result<Vec<OnceSlot<T, Q>>, AllocError>
    requires fit { place + count < 2 ^ 64 }
    ensures count { IfOk result (λ slots. length slots.items ≡ count) }
    ensures places { IfOk result (λ slots. From names.now.numbers place slots.items) }
{
    let mut slots = Vec::with_capacity(alloc, count)?;
    let mut made = 0;
    while made < count {
        slots.push_reserved(OnceSlot::new(&tag_of(place + made, names)));
        made += 1;
    }
    Ok(slots)
}

/// How many slots a first row has.
pub(crate) fn first_length(row: usize) -> usize
    requires row { row < 12 }
    ensures length { result ≡ span row }
    ensures small { result ≤ 65536 }
{
    32 << row
}

/// The first row of a place, and its offset there.
pub(crate) fn in_first(place: usize) -> (usize, usize)
    requires least { 32 ≤ place }
    requires most { place < 131072 }
    ensures { IsInFirst place result.0 result.1 }
{
    let row = place.ilog2() as usize - 5;
    (row, place - first_length(row))
}

/// The later row of a place, and its offset there.
pub(crate) fn in_later(place: usize) -> (usize, usize)
    ensures there { IsInLater place result.0 result.1 }
    ensures short { result.1 < 65536 }
{
    (place / LONGEST, place % LONGEST)
}

/// The group of a later row, and where it is there.
pub(crate) fn in_group(row: usize) -> (usize, usize)
    requires some { 0 < row }
    requires most { row < 2 ^ 48 }
    ensures { IsInGroup row result.0 result.1 }
{
    let group = row.ilog2() as usize;
    (group, row - (1 << group))
}
