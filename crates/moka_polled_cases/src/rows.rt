//! What each poll comes to, row by row, with a log of one write.
ghost use Rattle.std.specs.Prelude.{nat_eq};
ghost use Rattle.moka_polled.specs.Polled.{AnySmall, IsUsable};

use crate::acts::{Act, Begin, Came, End, Polled, cache, carry_out};
use moka_polled::Outcome;
use std::alloc::{AllocError, Global};
use std::test::Fail;

/// One thing that is done, and what has to come of it.
type Row = (Act, Came);

// ---- the words of a row

/// A call is started, and gets this number.
fn start(begin: Begin, number: u64) -> Row {
    (Act::Start(begin), Came::Call(number))
}

/// A call is polled.
fn poll(call: u64, outcome: Outcome<u32, u32>) -> Row {
    (Act::Poll(call), Came::Polled(Some(outcome)))
}

/// A call that isn't live is polled.
fn poll_in_vain(call: u64) -> Row {
    (Act::Poll(call), Came::Polled(None))
}

/// A call is told how its initializer ended, and takes that or doesn't.
fn tell(call: u64, end: End, took: bool) -> Row {
    (Act::Tell(call, end), Came::Told(took))
}

/// A call is started, gets the next number, and is polled.
fn now(begin: Begin, outcome: Outcome<u32, u32>) -> Row {
    (Act::Whole(begin), Came::Polled(Some(outcome)))
}

/// The value of a load that another call brought.
fn shared(value: u32) -> Outcome<u32, u32> {
    Outcome::Loaded {
        value,
        fresh: false,
    }
}

/// The value of a load that this call brought.
fn fresh(value: u32) -> Outcome<u32, u32> {
    Outcome::Loaded { value, fresh: true }
}

// ---- the play

/// Does each thing in turn. Answers the first of which something else came than is wanted, if there
/// is one.
fn first_other(polled: &mut Polled, rows: &[Row]) -> Result<Option<Act>, AllocError>
    requires { IsUsable nat_eq polled.old AnySmall }
    ensures { IsUsable nat_eq polled.new AnySmall }
{
    for row in rows {
        let came = carry_out(polled, row.0)?;
        if came != row.1 {
            return Ok(Some(row.0));
        }
    }
    Ok(None)
}

/// Does each thing to a new cache of this capacity.
fn play(alloc: Global, capacity: Option<u64>, rows: &[Row]) -> Result<Option<Act>, AllocError> {
    let mut polled = cache(alloc, capacity)?;
    let other = first_other(&mut polled, rows);
    drop(polled);
    other
}

#[test]
fn a_load_asks_once_and_those_that_wait_hear_its_value(rt: HostRuntime) -> Result<(), Fail> {
    let rows = [
        start(Begin::Try(7), 1),
        start(Begin::Try(7), 2),
        start(Begin::Try(7), 3),
        poll(1, Outcome::Asks),
        poll(2, Outcome::Waits),
        poll(3, Outcome::Waits),
        poll(1, Outcome::Waits),
        tell(2, End::Value(5), false),
        tell(1, End::Nothing, false),
        tell(1, End::Value(5), true),
        poll(2, Outcome::Waits),
        poll(1, fresh(5)),
        poll_in_vain(1),
        poll(2, shared(5)),
        poll(3, shared(5)),
        now(Begin::Get(7), Outcome::Found(Some(5))),
    ];
    assert_eq!(rt; play(rt.alloc(), None, &rows)?, None);
    Ok(())
}

#[test]
fn an_error_and_nothing_are_heard_and_not_stored(rt: HostRuntime) -> Result<(), Fail> {
    let rows = [
        now(Begin::Try(7), Outcome::Asks),
        now(Begin::Try(7), Outcome::Waits),
        now(Begin::Optional(7), Outcome::Asks),
        now(Begin::Optional(7), Outcome::Waits),
        tell(1, End::Error(9), true),
        tell(3, End::Nothing, true),
        poll(1, Outcome::Failed(9)),
        poll(3, Outcome::Nothing),
        now(Begin::Try(7), Outcome::Asks),
        poll(2, Outcome::Failed(9)),
        poll(4, Outcome::Nothing),
        now(Begin::Get(7), Outcome::Found(None)),
    ];
    assert_eq!(rt; play(rt.alloc(), None, &rows)?, None);
    Ok(())
}

#[test]
fn a_load_whose_key_is_stored_answers_it(rt: HostRuntime) -> Result<(), Fail> {
    let rows = [
        now(Begin::Insert(7, 5), Outcome::Done),
        now(Begin::GetWith(7), shared(5)),
        now(Begin::OrInsert(7, 6), shared(5)),
        now(Begin::OrInsert(8, 6), fresh(6)),
        now(Begin::Get(8), Outcome::Found(Some(6))),
    ];
    assert_eq!(rt; play(rt.alloc(), None, &rows)?, None);
    Ok(())
}

#[test]
fn loads_of_other_keys_and_kinds_ask_for_themselves(rt: HostRuntime) -> Result<(), Fail> {
    let rows = [
        now(Begin::GetWith(7), Outcome::Asks),
        now(Begin::Try(7), Outcome::Asks),
        now(Begin::GetWith(8), Outcome::Asks),
        tell(1, End::Error(9), false),
        tell(1, End::Value(5), true),
        poll(1, fresh(5)),
        tell(2, End::Value(6), true),
        poll(2, fresh(6)),
        now(Begin::Get(7), Outcome::Found(Some(6))),
    ];
    assert_eq!(rt; play(rt.alloc(), None, &rows)?, None);
    Ok(())
}

#[test]
fn what_is_taken_out_is_found_once(rt: HostRuntime) -> Result<(), Fail> {
    let rows = [
        now(Begin::Insert(7, 5), Outcome::Done),
        now(Begin::Remove(7), Outcome::Found(Some(5))),
        now(Begin::Remove(7), Outcome::Found(None)),
        now(Begin::Insert(7, 6), Outcome::Done),
        now(Begin::Invalidate(7), Outcome::Done),
        now(Begin::Get(7), Outcome::Found(None)),
    ];
    assert_eq!(rt; play(rt.alloc(), None, &rows)?, None);
    Ok(())
}

#[test]
fn a_chosen_record_leaves_for_want_of_room(rt: HostRuntime) -> Result<(), Fail> {
    let rows = [
        now(Begin::Insert(7, 5), Outcome::Done),
        now(Begin::Insert(7, 6), Outcome::Done),
        now(Begin::Evict(7, 1), Outcome::Kept),
        now(Begin::Evict(7, 2), Outcome::Evicted),
        now(Begin::Evict(7, 2), Outcome::Kept),
    ];
    assert_eq!(rt; play(rt.alloc(), Some(8), &rows)?, None);
    Ok(())
}

#[test]
fn without_a_capacity_none_leaves(rt: HostRuntime) -> Result<(), Fail> {
    let rows = [
        now(Begin::Insert(7, 5), Outcome::Done),
        now(Begin::Evict(7, 1), Outcome::Kept),
        now(Begin::Get(7), Outcome::Found(Some(5))),
    ];
    assert_eq!(rt; play(rt.alloc(), None, &rows)?, None);
    Ok(())
}
