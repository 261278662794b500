//! Writes applied in any order.

ghost use Rattle.std.specs.Prelude.{◌≤◌, ◌<◌, List, []};
ghost use Rattle.moka_hist.specs.declared.writes.Write.{Write as write_of};
ghost use Rattle.moka_desk_cases.specs.Rests.{RestsOnDesk};

use crate::desks::rules_with;
use crate::writes::published_after;
use moka_desk::Desk;
use moka_hist::{Rules, Write};
use moka_needs::Need;
use moka_room::FixedSeed;
use std::alloc::{AllocError, Global};
use std::test::Fail;
use std::time::Duration;

/// How many writes each order has, and how many orders are tried.
const WRITES: u64 = 8;

const ORDERS: u64 = 20_000;

/// Numbers that seem to follow no rule, the same in each run.
#[derive(Drop)]
struct Draws {
    state: u64,
}

impl Draws {
    /// A number below this one, which isn't 0.
    fn below(&mut self, end: u64) -> u64
        requires { 0 < end }
        ensures { result < end }
    {
        self.state ^= self.state << 13;
        self.state ^= self.state >> 7;
        self.state ^= self.state << 17;
        self.state % end
    }
}

/// The writes of some calls of a cache, by their numbers: each replaces or removes one record at
/// most, and no record is replaced or removed twice.
fn some_writes(alloc: Global, draws: &mut Draws) -> Result<Vec<Write>, AllocError> {
    let mut writes = Vec::new(alloc);
    let mut stored = Vec::new(alloc);
    for number in 1..=WRITES {
        let old = taken_from(&mut stored, draws);
        let write = match old {
            Some(old) if draws.below(3) == 0 => Write::Remove { number, old },
            old => Write::Upsert { number, old },
        };
        if let Write::Upsert { number, .. } = write {
            stored.push(number)?;
        }
        writes.push(write)?;
    }
    Ok(writes)
}

/// One of the stamps, which is taken out, or none.
fn taken_from(stored: &mut Vec<u64>, draws: &mut Draws) -> Option<u64> {
    let count = stored.len() as u64;
    if count == 0 || draws.below(4) == 0 {
        return None;
    }
    let at = draws.below(count);
    Some(stored.swap_remove(at as usize))
}

/// The writes in some order.
fn in_some_order(
    alloc: Global,
    writes: Vec<Write>,
    draws: &mut Draws,
) -> Result<Vec<Write>, AllocError> {
    let mut order = Vec::new(alloc);
    for write in writes {
        let at = draws.below(order.len() as u64 + 1);
        order.insert(at as usize, write)?;
    }
    Ok(order)
}

/// How many of the writes made a record that none of them replaced or removed.
fn standing_by(writes: &[Write]) -> usize {
    writes
        .iter()
        .filter(|write| stands_by(writes, write))
        .count()
}

/// Whether the write made a record that none of the writes replaced or removed.
fn stands_by(writes: &[Write], write: &Write) -> bool {
    match write {
        Write::Upsert { number, .. } => writes.iter().all(|other| old_of(other) != Some(*number)),
        Write::Remove { .. } => false,
    }
}

/// The stamp of the record that the write replaced or removed, if any.
fn old_of(write: &Write) -> Option<u64> {
    match write {
        Write::Upsert { old, .. } => *old,
        Write::Remove { old, .. } => Some(*old),
    }
}

/// Whether after each of the writes, applied in this order, as many records stand as is published.
fn are_counted(desk: &mut Desk<u32, u32, u32>, order: &[Write]) -> Result<bool, AllocError>
    requires { (writes : List write_of) × RestsOnDesk desk.old writes }
{
    for done in 0..order.len() {
        let write = order[done];
        if !desk.has(write.number(), Need::StampMoment) {
            return Ok(false);
        }
        let published = published_after(desk, write)?;
        if published as usize != standing_by(&order[..done + 1]) {
            return Ok(false);
        }
    }
    Ok(true)
}

#[test]
fn what_is_published_is_what_stands_in_any_order(rt: HostRuntime) -> Result<(), Fail> {
    let alloc = rt.alloc();
    let mut draws = Draws {
        state: 88_172_645_463_325_252,
    };
    for order in 0..ORDERS {
        let writes = some_writes(alloc, &mut draws)?;
        let applied = in_some_order(alloc, writes, &mut draws)?;
        let mut whole = Desk::new(alloc, rules_with(None), 4)?;
        let in_whole = are_counted(&mut whole, &applied);
        drop(whole);
        assert!(rt; in_whole?, "order {order}");
        let mut brief = Desk::without_history(alloc, rules_with(None), 4, 0, FixedSeed::new())?;
        let in_brief = are_counted(&mut brief, &applied);
        drop(brief);
        assert!(rt; in_brief?, "order {order}, forgotten");
    }
    Ok(())
}

/// Whether a write of this number may be stamped before the write was applied that makes its
/// record, not after that, and again after the one that removes it, where that is told.
fn may_be_stamped(desk: &mut Desk<u32, u32, u32>, again: bool) -> Result<bool, AllocError>
    requires { RestsOnDesk desk.old [] }
{
    let made = Write::Upsert {
        number: 1,
        old: None,
    };
    let gone = Write::Remove { number: 2, old: 1 };
    let before = desk.has(1, Need::StampMoment);
    let _ = published_after(desk, made)?;
    let stands = desk.has(1, Need::StampMoment);
    let _ = published_after(desk, gone)?;
    Ok(before && !stands && desk.has(1, Need::StampMoment) == again)
}

#[test]
fn a_number_is_forgotten_with_its_record_where_there_is_no_history(
    rt: HostRuntime,
) -> Result<(), Fail> {
    let alloc = rt.alloc();
    let mut whole = Desk::new(alloc, rules_with(None), 4)?;
    let in_whole = may_be_stamped(&mut whole, false);
    drop(whole);
    assert!(rt; in_whole?);
    let mut brief = Desk::without_history(alloc, rules_with(None), 4, 0, FixedSeed::new())?;
    let in_brief = may_be_stamped(&mut brief, true);
    drop(brief);
    assert!(rt; in_brief?);
    Ok(())
}

/// Rules with a time to idle of 10 nanoseconds.
fn idle_rules() -> Rules {
    Rules {
        time_to_idle: Some(Duration::from_nanos(10)),
        ..rules_with(None)
    }
}

/// Whether a look at a record that has left counts until it is forgotten what left, and no longer.
fn forgets_what_left(desk: &mut Desk<u32, u32, u32>) -> Result<bool, AllocError>
    requires { RestsOnDesk desk.old [] }
{
    let made = Write::Upsert {
        number: 1,
        old: None,
    };
    let gone = Write::Remove { number: 2, old: 1 };
    let _ = published_after(desk, made)?;
    let _ = published_after(desk, gone)?;
    let _ = desk.at(8);
    let seen = desk.judge(false, false, 1, 0)?;
    let _ = desk.at(17);
    let shown = desk.scan(false, 1, 0);
    desk.forget_left();
    Ok(seen && shown && !desk.scan(false, 1, 0))
}

#[test]
fn a_look_is_forgotten_with_its_record_where_there_is_no_history(
    rt: HostRuntime,
) -> Result<(), Fail> {
    let alloc = rt.alloc();
    let mut whole = Desk::new(alloc, idle_rules(), 4)?;
    let in_whole = forgets_what_left(&mut whole);
    drop(whole);
    assert!(rt; !in_whole?);
    let mut brief = Desk::without_history(alloc, idle_rules(), 4, 0, FixedSeed::new())?;
    let in_brief = forgets_what_left(&mut brief);
    drop(brief);
    assert!(rt; in_brief?);
    Ok(())
}
