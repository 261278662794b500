//! A row that is made for a new array, words that are sealed, the row's link, and the swing to it.

use crate::hashers::BuildLast;
use crate::rows::Deed::{Get, Grow, Link, Open, Put, PutAll, Seal, SealAll, Swing};
use crate::rows::Told::{
    Again, Count, Inserted, Length, Linked, Memory, PutBack, Sealed, Swung, There, Unset, Value,
};
use crate::rows::{Row, Told, wrong_row};
use moka_shared::Missed;
use moka_words::Word;
use std::test::*;

#[test]
fn a_row_has_the_words_and_the_ticket_of_its_array(rt: HostRuntime) -> Result<(), Fail> {
    let rows = [
        Row(Put(1, 10), Inserted),
        Row(Open(256), Told::Row(256, 3)),
        Row(Open(1), Told::Row(1, 4)),
        Row(Open(0), Told::Row(0, 5)),
        Row(Get(1), Value(10)),
        Row(Put(2, 20), Inserted),
    ];
    assert_eq!(rt; wrong_row(rt.alloc(), 1, 64, BuildLast {}, &rows)?, None);
    Ok(())
}

#[test]
fn a_row_without_memory_draws_no_ticket(rt: HostRuntime) -> Result<(), Fail> {
    let rows = [Row(Open(usize::MAX), Memory), Row(Open(2), Told::Row(2, 2))];
    assert_eq!(rt; wrong_row(rt.alloc(), 1, 64, BuildLast {}, &rows)?, None);
    Ok(())
}

// Of the 128 words the last one stores key 1.
#[test]
fn calls_stop_at_sealed_words(rt: HostRuntime) -> Result<(), Fail> {
    let word = Word::SealedLive(2);
    let missed = Missed::Sealed {
        word,
        array: 1,
        index: 127,
    };
    let rows = [
        Row(Put(1, 10), Inserted),
        Row(SealAll(128), Count(127)),
        Row(Seal(127), Sealed(word)),
        Row(Get(1), Again(missed)),
        Row(Put(1, 11), PutBack(missed, 1, 11)),
    ];
    assert_eq!(rt; wrong_row(rt.alloc(), 1, 64, BuildLast {}, &rows)?, None);
    Ok(())
}

// The array that follows is as long as the first one, and the second caller's row comes too late.
#[test]
fn an_array_is_linked_once(rt: HostRuntime) -> Result<(), Fail> {
    let rows = [
        Row(Link(128), Told::Open(0)),
        Row(SealAll(128), Count(128)),
        Row(Link(256), Length(128)),
        Row(Link(128), Linked(4)),
        Row(Link(128), There(4)),
    ];
    assert_eq!(rt; wrong_row(rt.alloc(), 1, 64, BuildLast {}, &rows)?, None);
    Ok(())
}

// Of 128 words more than seven tenths store pairs.
#[test]
fn an_array_after_a_full_one_is_twice_as_long(rt: HostRuntime) -> Result<(), Fail> {
    let rows = [
        Row(PutAll(0, 90), Count(90)),
        Row(SealAll(128), Count(38)),
        Row(Link(128), Length(256)),
        Row(Link(256), Linked(93)),
    ];
    assert_eq!(rt; wrong_row(rt.alloc(), 1, 64, BuildLast {}, &rows)?, None);
    Ok(())
}

// The array that follows gets the 90 pairs. Who comes later finds it linked.
#[test]
fn a_root_is_swung_after_the_last_copy(rt: HostRuntime) -> Result<(), Fail> {
    let rows = [
        Row(PutAll(0, 90), Count(90)),
        Row(Grow(256), Told::Open(0)),
        Row(SealAll(128), Count(38)),
        Row(Grow(128), Length(256)),
        Row(Grow(256), Swung(94)),
        Row(Grow(256), There(94)),
    ];
    assert_eq!(rt; wrong_row(rt.alloc(), 1, 64, BuildLast {}, &rows)?, None);
    Ok(())
}

#[test]
fn a_root_is_not_swung_before(rt: HostRuntime) -> Result<(), Fail> {
    let rows = [
        Row(Put(1, 10), Inserted),
        Row(SealAll(128), Count(127)),
        Row(Swing(128), Unset(0)),
    ];
    assert_eq!(rt; wrong_row(rt.alloc(), 1, 64, BuildLast {}, &rows)?, None);
    Ok(())
}
