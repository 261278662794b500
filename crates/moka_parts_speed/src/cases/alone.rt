//! Two callers in one thread, on both tables.
ghost use Rattle.std.specs.Prelude.{ℕ};

use super::rows::{Bases, Call, Row, is_right, listed, right};
use moka_parts::SharedTable;
use std::alloc::Global;
use std::sync::Wait;

/// What one caller does with an empty table.
const ALONE: [Row; 8] = [
    (1, Call::Look, None),
    (1, Call::Put(10), None),
    (1, Call::Put(11), Some(10)),
    (1, Call::Look, Some(11)),
    (1, Call::TakeOut(10), None),
    (1, Call::TakeOut(11), Some(11)),
    (1, Call::PutIfAbsent(12), None),
    (1, Call::PutIfAbsent(13), Some(12)),
];

/// The rows are made once, as they stand.
const ONCE: Bases = Bases {
    first: 0,
    by: 0,
    times: 1,
};

/// What the other caller and it do then in turn, once they have met: the other finds what the one
/// has put. Both look at a count, and then each puts one more than it found: one addition is lost,
/// and the second put is lent the first one's value, by which it could know. So a count is kept by
/// what a put is lent, and never by what was found before it.
const IN_TURN: [(Row, Row); 4] = [
    ((1, Call::Look, Some(12)), (2, Call::Put(0), None)),
    ((2, Call::Look, Some(0)), (2, Call::Look, Some(0))),
    ((2, Call::Put(1), Some(0)), (2, Call::Put(1), Some(1))),
    ((2, Call::Look, Some(1)), (2, Call::Look, Some(1))),
];

/// Looks, puts, takes out and lists at a few keys of an empty table. What the one seat has put the
/// other finds once they have met.
pub(crate) fn one_seat<Q: Drop, T: SharedTable<u64, u64, Seat = Q>, R: Wait>(
    rt: &R,
    alloc: Global,
    table: &T,
) -> bool
    requires { (k v : ℕ) → T.holds k v }
{
    let (mut one, mut other) = (table.seat(), table.seat());
    let alone = right(rt, table, &mut one, &ALONE, &ONCE);
    table.meet(&mut one, &mut other);
    let (listed, pairs) = (listed(rt, alloc, table, &mut other, 1), table.len(rt));
    let both = both_right(rt, table, &mut one, &mut other);
    alone == 8 && listed == 1 && pairs == 1 && both == 8
}

/// How many of the calls of both answer what their rows say.
fn both_right<Q: Drop, T: SharedTable<u64, u64, Seat = Q>, R: Wait>(
    rt: &R,
    table: &T,
    one: &mut Q,
    other: &mut Q,
) -> u64
    requires { (k v : ℕ) → T.holds k v }
{
    let mut count = 0u64;
    for (others, ones) in &IN_TURN {
        count = count.wrapping_add(u64::from(is_right(rt, table, other, *others)));
        count = count.wrapping_add(u64::from(is_right(rt, table, one, *ones)));
    }
    count
}
