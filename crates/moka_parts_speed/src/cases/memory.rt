//! Want of memory. With `rt try --fail-alloc N` the Nth allocation is refused.
ghost use Rattle.std.specs.Prelude.{ℕ};

use super::rows::{Call, Row, answer, is_right, listed, raised};
use moka_parts::SharedTable;
use std::alloc::Global;
use std::sync::Wait;

const KEYS: u64 = 200;

/// The key is put, and another one where it is absent.
const PUT: [Row; 4] = [
    (0, Call::Put(0), None),
    (KEYS, Call::PutIfAbsent(0), None),
    (0, Call::Look, Some(0)),
    (KEYS, Call::Look, Some(0)),
];

/// The key is put over, and then where it is absent.
const PUT_AGAIN: [Row; 4] = [
    (0, Call::Put(KEYS), Some(0)),
    (0, Call::PutIfAbsent(0), Some(KEYS)),
    (0, Call::Look, Some(KEYS)),
    (KEYS, Call::Look, Some(0)),
];

/// Both are taken out, for which no memory is needed.
const TAKE_OUT: [Row; 4] = [
    (0, Call::TakeOut(KEYS), Some(KEYS)),
    (KEYS, Call::TakeOut(0), Some(0)),
    (0, Call::Look, None),
    (KEYS, Call::Look, None),
];

/// Makes each call, and once more where memory was refused: the table is as before then.
pub(crate) fn fill<Q: Drop, T: SharedTable<u64, u64, Seat = Q>, R: Wait>(
    rt: &R,
    alloc: Global,
    table: &T,
) -> bool
    requires { (k v : ℕ) → T.holds k v }
{
    let mut seat = table.seat();
    let put = are_right(rt, table, &mut seat, &PUT);
    let again = are_right(rt, table, &mut seat, &PUT_AGAIN);
    let listed = listed(rt, alloc, table, &mut seat, 2 * KEYS);
    let taken = are_right(rt, table, &mut seat, &TAKE_OUT);
    put && again && listed == 2 * KEYS && taken && table.len(rt) == 0
}

/// Makes the calls of the rows for each key, and tells whether all answer what their rows say.
fn are_right<Q: Drop, T: SharedTable<u64, u64, Seat = Q>, R: Wait>(
    rt: &R,
    table: &T,
    seat: &mut Q,
    rows: &[Row; 4],
) -> bool
    requires { (k v : ℕ) → T.holds k v }
{
    let mut count = 0u64;
    for key in 0..KEYS {
        for row in rows {
            count = count.wrapping_add(u64::from(tried(rt, table, seat, raised(row, key))));
        }
    }
    count == 4 * KEYS
}

/// Whether the call answers what its row says. Where memory is refused the table is as before: it
/// has as many pairs, and the former value stands at the key. Then the call is made once more.
fn tried<Q: Drop, T: SharedTable<u64, u64, Seat = Q>, R: Wait>(
    rt: &R,
    table: &T,
    seat: &mut Q,
    row: Row,
) -> bool
    requires { (k v : ℕ) → T.holds k v }
{
    let (key, call, want) = row;
    let pairs = table.len(rt);
    if let Ok(given) = answer(rt, table, seat, key, call) {
        return given == want;
    }
    table.len(rt) == pairs
        && is_right(rt, table, seat, (key, Call::Look, want))
        && is_right(rt, table, seat, row)
}
