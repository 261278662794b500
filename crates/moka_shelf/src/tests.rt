//! What no clause says: that what was set is shown, by whichever thread, and where memory was
//! refused before.
ghost use Rattle.std.specs.Prelude.{◌≡◌, []};

use crate::{Numbered, OnceShelf, Shelf};
use boxcar::tag::Tag;
use std::alloc::{AllocError, Global};
use std::sync::Wait;
use std::test::*;
use std::thread;
use std::thread::Threads;

/// A book of a shelf.
#[derive(Drop, Debug)]
struct Book {
    number: u64,
    edition: u64,
}

impl Numbered for Book {
    ghost use Rattle.std.specs.Prelude.{[]};

    ghost number = { λ book. book.number };

    ghost names = { λ book. [] };
}

/// A shelf of books, which threads share. Its table has no names.
#[derive(Drop)]
struct Library {
    shelf: OnceShelf<Book>,
    ghost own: { shelf ≡ [] },
}

fn open_library(alloc: Global) -> Result<Library, AllocError> {
    let shelf = OnceShelf::new(alloc, &Tag::empty())?;
    Ok(Library { shelf })
}

/// The edition of the book that is shown under this number; 0 where none is.
fn edition<S: Shelf<Book>>(shelf: &S, look: &mut S::Look, number: u64) -> u64 {
    match shelf.shown(look, number) {
        Some(book) => book.edition,
        None => 0,
    }
}

// The first and the last place of rows of each length, and of later rows.
const EDGES: [u64; 12] = [
    0, 31, 32, 95, 96, 65_503, 65_504, 131_007, 131_008, 196_575, 262_112, 393_183,
];

#[test]
fn a_number_shows_what_was_set_there_first(rt: HostRuntime) -> Result<(), Fail> {
    let shelf = OnceShelf::new(rt.alloc(), &Tag::empty())?;
    let mut look = shelf.fresh_look();
    for number in EDGES {
        assert_eq!(rt;
            edition(&shelf, &mut look, number),
            0,
            "{number} before it is set"
        );
        assert_eq!(rt; look.last(), number, "{number} is hidden");
        shelf.set(number, Book { number, edition: 1 })?;
        shelf.set(number, Book { number, edition: 2 })?;
    }
    for number in EDGES {
        assert_eq!(rt;
            edition(&shelf, &mut look, number),
            1,
            "{number} once it is set"
        );
    }
    assert_eq!(rt; look.count(), 12);
    Ok(())
}

#[test]
fn a_number_without_a_place_wants_memory(rt: HostRuntime) -> Result<(), Fail> {
    let shelf = OnceShelf::new(rt.alloc(), &Tag::empty())?;
    let mut look = shelf.fresh_look();
    for number in [1 << 63, u64::MAX] {
        assert!(rt;
            shelf.set(number, Book { number, edition: 1 }).is_err(),
            "{number}"
        );
        assert_eq!(rt; edition(&shelf, &mut look, number), 0, "{number}");
    }
    assert_eq!(rt; (look.count(), look.last()), (2, u64::MAX));
    Ok(())
}

/// Sets the book, however often memory is wanting. It would wait forever without memory.
fn set_at_last<R: Wait>(rt: &R, library: &Library, number: u64) {
    for _ in rt.forever() {
        if library
            .shelf
            .set(
                number,
                Book {
                    number,
                    edition: number,
                },
            )
            .is_ok()
        {
            return;
        }
    }
}

/// Sets each fourth number below 100,000, from this one on.
fn set_fourths<R: Wait>(rt: &R, library: &Library, from: u64) {
    for number in 0..100_000u64 {
        if number % 4 == from {
            set_at_last(rt, library, number);
        }
    }
}

fn set_by_four<R: Threads + Wait + Sync>(rt: &R, library: &Library) {
    thread::join(
        rt,
        || {
            thread::join(
                rt,
                || set_fourths(rt, library, 0),
                || set_fourths(rt, library, 1),
            );
        },
        || {
            thread::join(
                rt,
                || set_fourths(rt, library, 2),
                || set_fourths(rt, library, 3),
            );
        },
    );
}

#[test]
fn four_threads_set_what_each_is_shown(rt: HostRuntime) -> Result<(), Fail> {
    let books = open_library(rt.alloc())?;
    set_by_four(&rt, &books);
    let mut look = books.shelf.fresh_look();
    for number in 0..100_000 {
        assert_eq!(rt; edition(&books.shelf, &mut look, number), number);
    }
    // (the book of number 0 is of edition 0, and was shown)
    assert_eq!(rt; look.count(), 0);
    Ok(())
}

// `tools/fail-alloc --shelf` refuses each allocation of this test in turn.
#[test]
fn what_wanted_memory_is_set_by_the_next_call(rt: HostRuntime) -> Result<(), Fail> {
    let Ok(shelf) = OnceShelf::new(rt.alloc(), &Tag::empty()) else {
        return Ok(());
    };
    for number in 0..140_000 {
        if shelf.set(number, Book { number, edition: 1 }).is_err() {
            shelf.set(number, Book { number, edition: 1 })?;
        }
    }
    let mut look = shelf.fresh_look();
    for number in 0..140_000 {
        assert_eq!(rt; edition(&shelf, &mut look, number), 1, "{number}");
    }
    Ok(())
}
