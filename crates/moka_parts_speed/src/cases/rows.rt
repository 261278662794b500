//! The calls of the cases, as rows.
ghost use Rattle.std.specs.Prelude.{ℕ, ◌<◌};

use moka_parts::SharedTable;
use std::alloc::{AllocError, Global};
use std::sync::Wait;

/// A call of a table. It answers the value that stood at its key.
#[derive(Clone, Copy)]
pub(crate) enum Call {
    /// Looks the key up.
    Look,
    /// Puts the value.
    Put(u64),
    /// Puts the value where the key is absent.
    PutIfAbsent(u64),
    /// Takes the pair out where it has this value. Where it has another, this answers None.
    TakeOut(u64),
}

impl Call {
    /// The call, with the base added to its value.
    fn raised(self, base: u64) -> Call {
        match self {
            Call::Look => Call::Look,
            Call::Put(value) => Call::Put(value.wrapping_add(base)),
            Call::PutIfAbsent(value) => Call::PutIfAbsent(value.wrapping_add(base)),
            Call::TakeOut(value) => Call::TakeOut(value.wrapping_add(base)),
        }
    }
}

/// A key, a call of it, and what it answers. The key and the values count from a base.
pub(crate) type Row = (u64, Call, Option<u64>);

/// The row at this base, counted from 0.
pub(crate) fn raised(row: &Row, base: u64) -> Row {
    let (key, call, want) = *row;
    let want = match want {
        Some(value) => Some(value.wrapping_add(base)),
        None => None,
    };
    (key.wrapping_add(base), call.raised(base), want)
}

/// The bases at which rows are made: the first one, how far it is from one to the next, and how many
/// there are.
#[derive(Drop)]
pub(crate) struct Bases {
    pub(crate) first: u64,
    pub(crate) by: u64,
    pub(crate) times: u64,
}

/// How many of the calls answer what their rows say, made at each of the bases.
pub(crate) fn right<Q: Drop, T: SharedTable<u64, u64, Seat = Q>, R: Wait>(
    rt: &R,
    table: &T,
    seat: &mut Q,
    rows: &[Row],
    bases: &Bases,
) -> u64
    requires { (k v : ℕ) → T.holds k v }
{
    let mut count = 0u64;
    let mut base = bases.first;
    for _ in 0..bases.times {
        for row in rows {
            count = count.wrapping_add(u64::from(is_right(rt, table, seat, raised(row, base))));
        }
        base = base.wrapping_add(bases.by);
    }
    count
}

/// Whether the call answers what its row says.
pub(crate) fn is_right<Q: Drop, T: SharedTable<u64, u64, Seat = Q>, R: Wait>(
    rt: &R,
    table: &T,
    seat: &mut Q,
    row: Row,
) -> bool
    requires { (k v : ℕ) → T.holds k v }
{
    let (key, call, want) = row;
    match answer(rt, table, seat, key, call) {
        Ok(given) => given == want,
        Err(_) => false,
    }
}

/// Makes the call.
pub(crate) fn answer<Q: Drop, T: SharedTable<u64, u64, Seat = Q>, R: Wait>(
    rt: &R,
    table: &T,
    seat: &mut Q,
    key: u64,
    call: Call,
) -> Result<Option<u64>, AllocError>
    requires { (k v : ℕ) → T.holds k v }
{
    match call {
        Call::Look => table.look(rt, seat, &key, value_of),
        Call::Put(value) => table.put(rt, seat, key, value, value_of),
        Call::PutIfAbsent(value) => table.put_if_absent(rt, seat, key, value),
        Call::TakeOut(value) => take_out(rt, table, seat, key, value),
    }
}

/// The value of a lent pair.
fn value_of(pair: Option<(&u64, &u64)>) -> Option<u64> {
    match pair {
        Some((_, value)) => Some(*value),
        None => None,
    }
}

/// Takes the pair out where it has this value.
fn take_out<Q: Drop, T: SharedTable<u64, u64, Seat = Q>, R: Wait>(
    rt: &R,
    table: &T,
    seat: &mut Q,
    key: u64,
    value: u64,
) -> Result<Option<u64>, AllocError>
    requires { (k v : ℕ) → T.holds k v }
{
    match table.take_out_if(rt, seat, &key, |_, there| *there == value)? {
        Some((found, there)) => Ok((found == key).then_some(there)),
        None => Ok(None),
    }
}

/// How many keys are listed of all parts. Where memory is refused, the table still has so many
/// pairs, and the second try lists the keys.
pub(crate) fn listed<Q: Drop, T: SharedTable<u64, u64, Seat = Q>, R: Wait>(
    rt: &R,
    alloc: Global,
    table: &T,
    seat: &mut Q,
    pairs: u64,
) -> u64
    requires { (k v : ℕ) → T.holds k v }
{
    let mut count = 0u64;
    for number in 0..table.parts() {
        count = count.wrapping_add(listed_of(rt, alloc, table, seat, number, pairs));
    }
    count
}

/// How many keys are listed of the part.
fn listed_of<Q: Drop, T: SharedTable<u64, u64, Seat = Q>, R: Wait>(
    rt: &R,
    alloc: Global,
    table: &T,
    seat: &mut Q,
    number: usize,
    pairs: u64,
) -> u64
    requires { number < 64 }
{
    if let Ok(keys) = table.keys(rt, alloc, seat, number) {
        return keys.len() as u64;
    }
    if table.len(rt) != pairs {
        return 0;
    }
    match table.keys(rt, alloc, seat, number) {
        Ok(keys) => keys.len() as u64,
        Err(_) => 0,
    }
}
