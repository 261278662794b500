//! Predicates: under which ids they are registered, and which records they hit.

ghost use Rattle.moka_desk_cases.specs.Turns.{by_turns};

use crate::desks::{new_desk, rules_with};
use moka_desk::Desk;
use moka_hist::{IdList, Ids, PredicateError, Rules, Stored, TestList, Tests};
use std::alloc::{AllocError, Global};
use std::process::Abort;
use std::test::Fail;

/// Two ids by turns.
#[derive(Clone, Copy, PartialEq, Eq, Debug)]
struct TwoIds {
    next: u128,
    other: u128,
}

impl Ids for TwoIds {
    ghost stream = { λ ids. by_turns ids.next ids.other };

    fn next_id(&mut self) -> u128 {
        let id = self.next;
        self.next = self.other;
        self.other = id;
        id
    }
}

/// The predicate of a number holds on the values of that number, and no replace test holds.
#[derive(Clone, Copy, PartialEq, Eq, Debug)]
struct ByValue {}

impl Tests<u32, u32> for ByValue {
    ghost use Rattle.std.specs.Prelude.{false, ◌==◌};

    ghost answers = { λ tests test key value. false };

    ghost hides = { λ tests test key value. value == test };

    fn holds(&self, _test: u64, _key: &u32, _value: &u32) -> bool {
        false
    }

    fn does_hide(&self, test: u64, _key: &u32, value: &u32) -> bool {
        u64::from(*value) == test
    }
}

/// A desk of a cache with closures.
fn closures_desk(alloc: Global) -> Result<Desk<u32, u32, u32>, AllocError> {
    new_desk(
        alloc,
        Rules {
            closures: true,
            ..rules_with(None)
        },
    )
}

/// Registers the predicate of this number at the moment, under an id of the two.
fn register_at(
    desk: &mut Desk<u32, u32, u32>,
    ids: &mut TwoIds,
    test: u64,
    moment: u64,
) -> Result<u128, PredicateError> {
    let _ = desk.at(moment);
    desk.register(test, ids)
}

/// Registers predicates where one of the two ids is left, then where none is. An id that is
/// registered is passed over.
fn registers_twice(rt: &impl Abort, desk: &mut Desk<u32, u32, u32>) {
    let mut one = TwoIds { next: 7, other: 7 };
    let mut two = TwoIds { next: 7, other: 8 };
    assert_eq!(rt; desk.register(4, &mut one), Ok(7));
    assert_eq!(rt; desk.register(4, &mut one), Err(PredicateError::NoId));
    assert_eq!(rt; desk.register(3, &mut two), Ok(8));
    assert_eq!(rt; two, TwoIds { next: 7, other: 8 });
    assert_eq!(rt; desk.register(3, &mut two), Err(PredicateError::NoId));
}

#[test]
fn ids_are_drawn_until_one_is_free(rt: HostRuntime) -> Result<(), Fail> {
    let mut desk = closures_desk(rt.alloc())?;
    registers_twice(&rt, &mut desk);
    drop(desk);
    Ok(())
}

#[test]
fn without_closures_no_id_is_drawn(rt: HostRuntime) -> Result<(), Fail> {
    let mut desk = new_desk(rt.alloc(), rules_with(None))?;
    let mut ids = TwoIds { next: 7, other: 8 };
    let answer = desk.register(4, &mut ids);
    drop(desk);
    assert_eq!(rt; answer, Err(PredicateError::InvalidationClosuresDisabled));
    assert_eq!(rt; ids.next, 7);
    Ok(())
}

/// Registers the predicates of the numbers 4, at 5, and 3, at 7.
fn register_both(desk: &mut Desk<u32, u32, u32>) -> Result<u128, PredicateError> {
    let mut ids = TwoIds { next: 7, other: 8 };
    let _ = register_at(desk, &mut ids, 4, 5)?;
    register_at(desk, &mut ids, 3, 7)
}

/// Whether a record of this value, last written at the moment, is hit.
fn is_hit(desk: &Desk<u32, u32, u32>, value: u32, modified: u64) -> bool {
    let stored = Stored {
        value,
        stamp: 1,
        modified,
    };
    desk.hits(&ByValue {}, &2, &stored)
}

/// The first record that is not as it says: a value, the moment of its last write, and whether it
/// is hit.
fn first_wrong(desk: &Desk<u32, u32, u32>, rows: &[(u32, u64, bool)]) -> Option<usize> {
    for place in 0..rows.len() {
        let row = rows[place];
        if is_hit(desk, row.0, row.1) != row.2 {
            return Some(place);
        }
    }
    None
}

/// Records by the two predicates: equal moments are hit, and later ones are not.
const ROWS: [(u32, u64, bool); 8] = [
    (4, 0, true),
    (4, 5, true),
    (4, 6, false),
    (3, 5, true),
    (3, 7, true),
    (3, 8, false),
    (2, 0, false),
    (2, 9, false),
];

/// The tests that are listed, as pairs.
fn listed(tests: &TestList) -> Option<((u64, u64), (u64, u64))> {
    if tests.len() != 2 {
        return None;
    }
    Some((*tests.get(0)?, *tests.get(1)?))
}

fn hits_by_moments(
    rt: &impl Abort,
    alloc: Global,
    desk: &mut Desk<u32, u32, u32>,
) -> Result<(), Fail> {
    assert!(rt; !is_hit(desk, 4, 0));
    assert_eq!(rt; register_both(desk), Ok(8));
    assert_eq!(rt; first_wrong(desk, &ROWS), None);
    let tests = desk.tests(alloc)?;
    assert_eq!(rt; listed(&tests), Some(((4, 5), (3, 7))));
    Ok(())
}

#[test]
fn records_are_hit_that_are_not_later(rt: HostRuntime) -> Result<(), Fail> {
    let mut desk = closures_desk(rt.alloc())?;
    let hits = hits_by_moments(&rt, rt.alloc(), &mut desk);
    drop(desk);
    hits
}

/// These predicates, by id and moment.
fn named(alloc: Global, named: &[(u128, u64)]) -> Result<IdList, AllocError> {
    let named = Vec::from_slice(alloc, named)?;
    Ok(IdList::from_vec(named))
}

/// The predicates that may leave, once both were registered and the clock stands at the moment.
fn candidates_at(desk: &mut Desk<u32, u32, u32>, moment: u64) -> Result<IdList, AllocError> {
    let _ = desk.at(moment);
    desk.candidates()
}

/// One that is of the clock's moment may not leave, and those that don't hide the record are left.
fn chooses_by_moment(
    rt: &impl Abort,
    alloc: Global,
    desk: &mut Desk<u32, u32, u32>,
) -> Result<(), Fail> {
    assert_eq!(rt; register_both(desk), Ok(8));
    assert_eq!(rt; candidates_at(desk, 7)?.as_slice(), [(7, 5)].as_slice());
    assert_eq!(rt;
        candidates_at(desk, 8)?.as_slice(),
        [(7, 5), (8, 7)].as_slice()
    );
    let stored = Stored {
        value: 4,
        stamp: 1,
        modified: 5,
    };
    let both = named(alloc, &[(7, 5), (8, 7)])?;
    let left = desk.strike(&ByValue {}, both, &2, &stored);
    assert_eq!(rt; left.as_slice(), [(8, 7)].as_slice());
    Ok(())
}

#[test]
fn predicates_may_leave_once_their_moment_is_past(rt: HostRuntime) -> Result<(), Fail> {
    let mut desk = closures_desk(rt.alloc())?;
    let chosen = chooses_by_moment(&rt, rt.alloc(), &mut desk);
    drop(desk);
    chosen
}

/// One leaves by its id and its moment alone.
fn leaves_by_both(
    rt: &impl Abort,
    alloc: Global,
    desk: &mut Desk<u32, u32, u32>,
) -> Result<(), Fail> {
    assert_eq!(rt; register_both(desk), Ok(8));
    let other = named(alloc, &[(7, 6), (9, 7)])?;
    desk.retire(&other);
    assert_eq!(rt; desk.predicate_count(), 2);
    let first = named(alloc, &[(7, 5)])?;
    desk.retire(&first);
    assert!(rt; !is_hit(desk, 4, 0));
    assert!(rt; is_hit(desk, 3, 0));
    assert_eq!(rt; desk.predicate_count(), 1);
    Ok(())
}

#[test]
fn predicates_leave_by_id_and_moment(rt: HostRuntime) -> Result<(), Fail> {
    let mut desk = closures_desk(rt.alloc())?;
    let left = leaves_by_both(&rt, rt.alloc(), &mut desk);
    drop(desk);
    left
}
