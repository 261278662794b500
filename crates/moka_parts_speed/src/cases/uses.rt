//! Uses of a table without a name, as its users write them: a hall whose places many guests book at
//! once, and a count of visits that many doors add to.

use crate::tables::new_parts;
use crate::totals::total;
use moka_parts::Parts;
use std::alloc::{AllocError, Global};
use std::hash::{BuildHasherDefault, FoldHasher};
use std::sync::Wait;
use std::thread::Threads;

const PLACES: u64 = 100;

const GUESTS: usize = 4;

/// Who has booked each place.
type Hall = Parts<u64, u64, BuildHasherDefault<FoldHasher>>;

/// Books a place, if it is free. Answers None, or the guest that has it.
fn book<R: Wait>(rt: &R, hall: &Hall, place: u64, guest: u64) -> Result<Option<u64>, AllocError> {
    hall.put_if_absent(rt, place, guest)
}

/// Gives a place back, if this guest has booked it.
fn cancel<R: Wait>(rt: &R, hall: &Hall, place: u64, guest: u64) -> bool {
    hall.take_out_if(rt, &place, |_, booked| *booked == guest)
        .is_some()
}

/// The visits at a page that nobody has counted yet.
type Pages = Parts<u64, u64, BuildHasherDefault<FoldHasher>>;

/// Notes one visit of the page, and answers what was noted before and is counted by nobody else: each
/// value that is put is lent to just one later put. What was looked up before could have been
/// replaced meanwhile.
fn note<R: Wait>(rt: &R, pages: &Pages, page: u64) -> Result<u64, AllocError> {
    pages.put(rt, page, 1, |before| match before {
        Some((_, visits)) => *visits,
        None => 0,
    })
}

/// Whether each place of a new hall is booked by one guest, and each visit of it is counted.
pub(crate) fn are_right<R: Threads + Wait + Sync>(
    rt: &R,
    alloc: Global,
) -> Result<bool, AllocError> {
    Ok(all_use(rt, alloc, &new_parts(alloc)?))
}

/// Both uses of one table: the hall is empty again when the visits begin.
fn all_use<R: Threads + Wait + Sync>(rt: &R, alloc: Global, table: &Hall) -> bool {
    all_book(rt, alloc, table) && all_visit(rt, alloc, table)
}

/// All guests book all places at once: each place is booked by one of them. Then each gives back
/// what it has booked.
fn all_book<R: Threads + Wait + Sync>(rt: &R, alloc: Global, hall: &Hall) -> bool {
    let booked = all_do(rt, alloc, hall, Deed::Book);
    let taken = hall.len(rt);
    let left = all_do(rt, alloc, hall, Deed::Cancel);
    booked == PLACES && taken == PLACES && left == PLACES && hall.len(rt) == 0
}

/// All guests visit one page at once, each as often as there are places, and each counts what its
/// visits took out. With what one more visit takes out these are all visits.
fn all_visit<R: Threads + Wait + Sync>(rt: &R, alloc: Global, pages: &Pages) -> bool {
    let counted = all_do(rt, alloc, pages, Deed::Visit);
    let left = note(rt, pages, 0).unwrap_or(0);
    counted.wrapping_add(left) == PLACES * GUESTS as u64
}

/// What a guest does as often as there are places.
#[derive(Clone, Copy)]
enum Deed {
    Book,
    Cancel,
    Visit,
}

/// How many places all guests get or give back, or how many visits they count.
fn all_do<R: Threads + Wait + Sync>(rt: &R, alloc: Global, hall: &Hall, deed: Deed) -> u64 {
    total(
        rt,
        alloc,
        GUESTS,
        &|guest| done(rt, hall, guest as u64, deed),
    )
    .unwrap_or(0)
}

/// How many places the guest gets or gives back, or how many visits it counts.
fn done<R: Wait>(rt: &R, hall: &Hall, guest: u64, deed: Deed) -> u64 {
    let mut count = 0u64;
    for place in 0..PLACES {
        let more = match deed {
            Deed::Book => u64::from(is_free(book(rt, hall, place, guest))),
            Deed::Cancel => u64::from(cancel(rt, hall, place, guest)),
            Deed::Visit => note(rt, hall, 0).unwrap_or(0),
        };
        count = count.wrapping_add(more);
    }
    count
}

/// Whether nobody had booked the place.
fn is_free(booked: Result<Option<u64>, AllocError>) -> bool {
    match booked {
        Ok(there) => there.is_none(),
        Err(_) => false,
    }
}
