//! A shelf that hides the first item which a caller asks it for, once.

use crate::rows::Told::{Again, Inserted, Present, PutBack, Value};
use crate::rows::{change_told, get_told, insert_told};
use crate::seats::{Fold, fold};
use boxcar::tag::Tag;
use moka_shared::{Anything, HashMap, Missed, Node};
use moka_shelf::{Hidden, Numbered, OnceShelf, Shelf};
use std::alloc::{AllocError, Global};
use std::test::*;

/// What a shy shelf has hidden from one caller.
#[derive(Drop)]
pub struct Asked {
    inner: Hidden,
    count: u64,
    last: u64,
}

/// A shelf that hides from each caller the first item which it asks for, once.
#[derive(Drop)]
pub struct Shy<T: Numbered> {
    shelf: OnceShelf<T>,
}

impl<T: Numbered> Shelf<T> for Shy<T> {
    type Look = Asked;

    ghost hidden = { λ look. look.count };

    ghost last = { λ look. look.last };

    ghost owner = { λ shy. shy.shelf };

    fn for_table(alloc: Global, names: &Tag) -> Result<Self, AllocError>
    where
        T: Drop,
    {
        let shelf = OnceShelf::new(alloc, names)?;
        Ok(Shy { shelf })
    }

    fn fresh_look(&self) -> Asked {
        Asked {
            inner: self.shelf.fresh_look(),
            count: 0,
            last: 0,
        }
    }

    fn set(&self, number: u64, item: T) -> Result<(), AllocError>
    where
        T: Drop,
    {
        self.shelf.set(number, item)
    }

    fn shown<'a>(&'a self, look: &mut Asked, number: u64) -> Option<&'a T> {
        if look.count > 0 {
            if let Some(item) = self.shelf.shown(&mut look.inner, number) {
                return Some(item);
            }
        }
        look.count = look.count.saturating_add(1);
        look.last = number;
        None
    }
}

/// A table of numbers on a shy shelf.
type ShyTable = HashMap<u64, u64, Fold, Anything, Shy<Node<u64, u64, Fold, Anything>>>;

fn empty(alloc: Global) -> Result<ShyTable, AllocError> {
    HashMap::with_capacity(alloc, 64, fold())
}

// A table of 64 segments draws 65 first.
const FIRST: Missed = Missed::NodeHidden(65);

#[test]
fn a_look_whose_node_was_hidden_finds_it_the_next_time(rt: HostRuntime) -> Result<(), Fail> {
    let table = empty(rt.alloc())?;
    let mut seat = table.seat();
    let hash = table.hash(&1);
    let put = table.try_insert_if_not_present(&mut seat, 1, hash, 10);
    let first = table.try_get(&mut seat, hash, |key: &u64| *key == 1);
    let second = table.try_get(&mut seat, hash, |key: &u64| *key == 1);
    let told = [insert_told(&put), get_told(&first), get_told(&second)];
    assert_eq!(rt; told, [Inserted, Again(FIRST), Value(10)]);
    Ok(())
}

#[test]
fn a_pass_whose_node_was_hidden_goes_on_the_next_time(rt: HostRuntime) -> Result<(), Fail> {
    let table = empty(rt.alloc())?;
    let mut seat = table.seat();
    let hash = table.hash(&1);
    let put = table.try_insert_if_not_present(&mut seat, 1, hash, 10);
    let first = table.try_insert_if_not_present(&mut seat, 1, hash, 11);
    let second = table.try_insert_if_not_present(&mut seat, 1, hash, 11);
    let told = [insert_told(&put), insert_told(&first), insert_told(&second)];
    assert_eq!(rt; told, [Inserted, PutBack(FIRST, 1, 11), Present(10, 1, 11)]);
    let mut other = table.seat();
    let first = table.try_remove(&mut other, &1, hash);
    let second = table.try_remove(&mut other, &1, hash);
    let told = [change_told(&first), change_told(&second)];
    assert_eq!(rt; told, [Again(FIRST), Value(10)]);
    Ok(())
}
