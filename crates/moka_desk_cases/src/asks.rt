//! What asks take, and what their calls take up then.

ghost use Rattle.moka_desk_cases.specs.Rests.{IsNew};

use crate::desks::{new_desk, rules_with};
use moka_desk::Desk;
use moka_hist::{Op, Takes, Told};
use std::alloc::{AllocError, Global};
use std::test::Fail;

/// How many shapes an answer may have.
const SHAPES: usize = 8;

/// An answer of the shape of this number, which is below `SHAPES`.
fn shape(number: usize) -> Told<u32, u32> {
    match number {
        0 => Told::Value(9),
        1 => Told::Nothing,
        2 => Told::Err(4),
        3 => Told::Op(Op::Nop),
        4 => Told::Op(Op::Put(9)),
        5 => Told::Op(Op::Remove),
        6 => Told::Done,
        _ => Told::Off,
    }
}

/// Whether an ask of call 3 is closed by the answer, and what the call takes up then.
fn told_on(
    desk: &mut Desk<u32, u32, u32>,
    takes: Takes,
    told: Told<u32, u32>,
) -> Result<(bool, Option<Told<u32, u32>>), AllocError>
    requires { IsNew desk.old }
{
    desk.open_ask(3, takes)?;
    let closed = desk.tell(3, told).is_some();
    Ok((closed, desk.take_told(3)))
}

/// Whether the answer of this shape closes an ask, whose call takes up just that then; or, where it
/// isn't taken, leaves the ask open, and its call nothing to take up.
fn came(
    desk: &mut Desk<u32, u32, u32>,
    takes: Takes,
    number: usize,
    taken: bool,
) -> Result<bool, AllocError>
    requires { IsNew desk.old }
{
    let (closed, up) = told_on(desk, takes, shape(number))?;
    let same = match &up {
        Some(told) => taken && *told == shape(number),
        None => !taken,
    };
    drop(up);
    Ok(same && closed == taken)
}

/// Whether, on a new desk, the answer of this shape closes an ask and is taken up once, or leaves
/// the ask open.
fn came_on_new(
    alloc: Global,
    takes: Takes,
    number: usize,
    taken: bool,
) -> Result<bool, AllocError> {
    let mut desk = new_desk(alloc, rules_with(None))?;
    let came = came(&mut desk, takes, number, taken);
    drop(desk);
    came
}

/// For what an ask may take, which shapes it does.
const TAKEN: [(Takes, [bool; SHAPES]); 5] = [
    (
        Takes::Value,
        [true, false, false, false, false, false, false, false],
    ),
    (
        Takes::Optional,
        [true, true, false, false, false, false, false, false],
    ),
    (
        Takes::Try,
        [true, false, true, false, false, false, false, false],
    ),
    (
        Takes::Op,
        [false, false, false, true, true, true, false, false],
    ),
    (
        Takes::TryOp,
        [false, false, true, true, true, true, false, false],
    ),
];

#[test]
fn an_ask_takes_what_its_load_or_its_compute_gives(rt: HostRuntime) -> Result<(), Fail> {
    for (takes, taken) in TAKEN {
        for number in 0..SHAPES {
            let came = came_on_new(rt.alloc(), takes, number, taken[number])?;
            assert!(rt; came, "shape {number} to {takes:?}");
        }
    }
    Ok(())
}

/// Whether an ask for a value isn't closed by `Done`, is by a value, and not by another one.
fn closed_once(desk: &mut Desk<u32, u32, u32>) -> Result<bool, AllocError>
    requires { IsNew desk.old }
{
    desk.open_ask(3, Takes::Value)?;
    let done = desk.tell(3, Told::Done).is_some();
    let value = desk.tell(3, Told::Value(9)).is_some();
    let other = desk.tell(3, Told::Value(9)).is_some();
    Ok(!done && value && !other)
}

#[test]
fn an_ask_is_closed_once(rt: HostRuntime) -> Result<(), Fail> {
    let mut desk = new_desk(rt.alloc(), rules_with(None))?;
    let closed = closed_once(&mut desk);
    drop(desk);
    assert!(rt; closed?);
    Ok(())
}
