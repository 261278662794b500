//! Tables of few words and of many, one of which is full; and keys of one hash.

use crate::hashers::BuildLast;
use crate::rows::Deed::{Get, GetAll, Put, PutAll, Segments};
use crate::rows::Told::{Count, Inserted, Nothing, PutBack, Value};
use crate::rows::{Row, wrong_row};
use crate::seats::fold;
use moka_shared::Missed;
use std::test::*;

#[test]
fn a_full_segment_has_no_free_bucket(rt: HostRuntime) -> Result<(), Fail> {
    let full = Missed::NoFree { length: 128 };
    let rows = [
        Row(PutAll(0, 128), Count(128)),
        Row(Put(128, 5), PutBack(full, 128, 5)),
        Row(GetAll(0, 128), Count(128)),
        Row(Get(128), Nothing),
    ];
    assert_eq!(rt; wrong_row(rt.alloc(), 1, 64, fold(), &rows)?, None);
    Ok(())
}

#[test]
fn keys_of_one_hash_wrap(rt: HostRuntime) -> Result<(), Fail> {
    let full = Missed::NoFree { length: 16 };
    let rows = [
        Row(Segments, Count(4)),
        Row(PutAll(0, 16), Count(16)),
        Row(Put(16, 5), PutBack(full, 16, 5)),
        Row(GetAll(0, 16), Count(16)),
    ];
    assert_eq!(rt; wrong_row(rt.alloc(), 3, 24, BuildLast {}, &rows)?, None);
    Ok(())
}

#[test]
fn the_most_segments_have_a_word_each(rt: HostRuntime) -> Result<(), Fail> {
    let rows = [
        Row(Put(1, 10), Inserted),
        Row(Get(1), Value(10)),
        Row(Segments, Count(65_536)),
    ];
    assert_eq!(rt; wrong_row(rt.alloc(), 65_536, 1, fold(), &rows)?, None);
    Ok(())
}
