//! Calls of each kind.

use crate::heard::HearsAny;
use crate::later::{Later, MayFail, Puts};
use crate::numbers::{Makes, NumberCall, numbers};
use crate::rounds::{Optional, Rounds, Tried};
use crate::runs::{Span, finish_both, make_alone, run};
use crate::ways::{Kind, Way};
use moka_cache::{
    Anything, Asked, Begin, ByCompute, ByInit, ByOptionalInit, ByTryInit, ByUpsert, Nobody,
    ToCompute, ToGet, ToInsert, ToInsertEntry, ToLoad, ToLoadOptionally, ToRemove, ToTryCompute,
    ToTryLoad, ToUpsert,
};
use std::alloc::AllocGlobal;
use std::io;
use std::random::RandomSource;
use std::sync::Wait;

/// Makes rounds of the kind in this way, but for `Taken`, which is `Apart` here. Tells how many are
/// over.
pub(crate) fn make<'a, R: Wait + RandomSource + AllocGlobal, L: HearsAny>(
    rt: &R,
    rounds: &Rounds<'a, L>,
    kind: Kind,
    way: Way,
    span: Span,
) -> io::Result<u64> {
    let rounds = &rounds.made(kind, way);
    match kind {
        Kind::Get => make_so::<R, ToGet<'a, u64>, Nobody, L>(rt, rounds, way, span),
        Kind::Insert => make_so::<R, ToInsert<u64, u64>, Nobody, L>(rt, rounds, way, span),
        Kind::Remove => make_so::<R, ToRemove<'a, u64>, Nobody, L>(rt, rounds, way, span),
        Kind::GetWith => make_so::<R, ToLoad<'a, u64>, ByInit<Later<u64>>, L>(
            rt, rounds, way, span,
        ),
        Kind::OptionallyGetWith | Kind::Nothing => {
            make_so::<R, ToLoadOptionally<'a, u64>, ByOptionalInit<Optional>, L>(
                rt, rounds, way, span,
            )
        }
        Kind::TryGetWith | Kind::Failing => {
            make_so::<R, ToTryLoad<'a, u64>, ByTryInit<Tried>, L>(rt, rounds, way, span)
        }
        Kind::OrInsert => {
            make_so::<R, ToInsertEntry<'a, u64, u64>, Nobody, L>(rt, rounds, way, span)
        }
        Kind::Compute => make_so::<R, ToCompute<'a, u64>, ByCompute<Puts>, L>(
            rt, rounds, way, span,
        ),
        Kind::TryCompute | Kind::ComputeFailing => {
            make_so::<R, ToTryCompute<'a, u64>, ByCompute<MayFail>, L>(rt, rounds, way, span)
        }
        Kind::Upsert => make_so::<R, ToUpsert<'a, u64>, ByUpsert<Puts>, L>(rt, rounds, way, span),
        Kind::GetWithIf | Kind::Replacing => make_tested(rt, rounds, way, span),
    }
}

// Makes calls of one kind. That they are states is shown once here.
fn make_so<'a, R, A, Q, L>(rt: &R, rounds: &Rounds<'a, L>, way: Way, span: Span) -> io::Result<u64>
where
    R: Wait + RandomSource + AllocGlobal,
    A: Begin<u64, u64, u64, Output: Drop>,
    Q: Asked<u64, u64, u64, Anything>,
    L: HearsAny,
    Rounds<'a, L>: Makes<'a, A, Q, L>,
{
    run::<R, NumberCall<'a, A, Q, L>, Rounds<'a, L>>(rt, rounds, way, span)
}

// Makes loads by a replace test, each as a task of its own.
fn make_tested<R: Wait + RandomSource + AllocGlobal, L: HearsAny>(
    rt: &R,
    rounds: &Rounds<'_, L>,
    way: Way,
    span: Span,
) -> io::Result<u64> {
    let mut over = 0u64;
    for round in span.first..span.end {
        let done = load_if(rt, rounds, way, round)?;
        over = over.wrapping_add(u64::from(done));
    }
    Ok(over)
}

// Loads the key of a round by a test that holds on each value or on none.
fn load_if<R: Wait + RandomSource + AllocGlobal, L: HearsAny>(
    rt: &R,
    rounds: &Rounds<'_, L>,
    way: Way,
    round: u64,
) -> io::Result<bool> {
    let (key, holds) = (rounds.key(round), rounds.otherwise);
    let test = move |_value: &u64| holds;
    let one = numbers(rounds.cache.get_with_if(key, rounds.value(key), test));
    match way {
        Way::Twice => {
            let other = rounds.cache.get_with_if(key, rounds.value(key), test);
            finish_both(rt, one, numbers(other))
        }
        _ => make_alone(rt, way, one),
    }
}
