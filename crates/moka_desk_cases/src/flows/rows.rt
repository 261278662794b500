//! Calls written out access by access: what each access is, what it gives, and the turn then.

ghost use Rattle.std.specs.Bool.{OnTrue};
ghost use Rattle.moka_init.specs.Forms.{IsFoundBy};
ghost use Rattle.moka_desk_cases.specs.Fitting.{FitsWant};

use crate::flows::given::{given, rules_named, start_named};
use crate::flows::names::want_name;
use moka_hist::{Answer, Ask, CompResult, Found, Got, Turn, Visit, Want};
use moka_init::Flow;
use std::alloc::AllocError;
use std::process::Abort;

// Whether the answer is of the form that belongs to what was wanted.
fn does_fit(want: &Want<u32, u32, u32>, given: &Got<u32, u32, u32>) -> bool
    ensures { OnTrue result (FitsWant want.now given.now) }
{
    match want {
        Want::Begin(_) => matches!(given, Got::Table(_)),
        Want::Table => matches!(given, Got::Table(_)),
        Want::Desk(visit) => match given {
            Got::Table(_) => false,
            Got::Desk(found) => is_found_by(visit, found),
        },
    }
}

fn is_found_by(visit: &Visit<u32, u32, u32>, found: &Found<u32, u32>) -> bool
    ensures { OnTrue result (IsFoundBy visit.now found.now) }
{
    match visit {
        Visit::Clock { .. } => matches!(found, Found::Clock(_)),
        Visit::TakeOwed { .. } => matches!(found, Found::TakeOwed(_)),
        Visit::NoticeEnded { .. } => matches!(found, Found::NoticeEnded(_)),
        Visit::LockKey { .. } => matches!(found, Found::LockKey(_)),
        Visit::UnlockKey { .. } => matches!(found, Found::UnlockKey),
        Visit::OpenNotice { .. } => matches!(found, Found::OpenNotice(_)),
        Visit::StampMoment { .. } => matches!(found, Found::StampMoment(_)),
        Visit::Judge { .. } => matches!(found, Found::Judge(_)),
        Visit::Scan { .. } => matches!(found, Found::Scan(_)),
        Visit::Holds { .. } => matches!(found, Found::Holds(_)),
        Visit::WaitOrOwn { .. } => matches!(found, Found::WaitOrOwn(_)),
        Visit::OwnAlone { .. } => matches!(found, Found::OwnAlone(_)),
        Visit::ReadSettled { .. } => matches!(found, Found::ReadSettled(_)),
        Visit::Settle { .. } => matches!(found, Found::Settle),
        Visit::OpenAsk { .. } => matches!(found, Found::OpenAsk),
        Visit::TakeTold { .. } => matches!(found, Found::TakeTold(_)),
        Visit::PostWrite { .. } => matches!(found, Found::PostWrite(_)),
        Visit::TakeTurn { .. } => matches!(found, Found::TakeTurn(_)),
        Visit::ApplyOne { .. } => matches!(found, Found::ApplyOne(_)),
        Visit::EndTurn { .. } => matches!(found, Found::EndTurn),
        Visit::InvalidateAll => matches!(found, Found::InvalidateAll),
        Visit::Register { .. } => matches!(found, Found::Register(_)),
        Visit::Candidates => matches!(found, Found::Candidates(_)),
        Visit::Strike { .. } => matches!(found, Found::Strike(_)),
        Visit::Retire { .. } => matches!(found, Found::Retire),
    }
}

// One step of the flow: the turn that is left where it wants this access, and what that gives
// belongs to it; None otherwise, and where the flow has answered.
pub(crate) fn stepped(
    flow: &mut Flow<u32, u32, u32>,
    access: &str,
    given: Got<u32, u32, u32>,
) -> Result<Option<Turn<u32, u32, u32>>, AllocError> {
    if flow.has_answered() {
        drop(given);
        return Ok(None);
    }
    let want = flow.want()?;
    let named = want_name(&want) == access;
    let fits = does_fit(&want, &given);
    drop(want);
    if !named || !fits {
        drop(given);
        return Ok(None);
    }
    let left = flow.take(given);
    Ok(Some(left))
}

// One step of the flow: the name of the turn that is left where it wants this access.
pub(crate) fn named_step(
    flow: &mut Flow<u32, u32, u32>,
    access: &str,
    given: Got<u32, u32, u32>,
) -> Result<Option<&'static str>, AllocError> {
    let left = stepped(flow, access, given)?;
    let name = match &left {
        None => None,
        Some(Turn::Going) => Some("going"),
        Some(Turn::Wait) => Some("wait"),
        Some(Turn::Item(_, _)) => Some("item"),
        Some(Turn::Ask(Ask::Init)) => Some("ask"),
        Some(Turn::Ask(Ask::Compute(None))) => Some("ask none"),
        Some(Turn::Ask(Ask::Compute(Some(_)))) => Some("ask found"),
        Some(Turn::Ask(Ask::Listener { .. })) => Some("ask listener"),
        Some(Turn::Answer(Answer::Done)) => Some("done"),
        Some(Turn::Answer(Answer::Found(None))) => Some("nothing"),
        Some(Turn::Answer(Answer::Found(Some(_)))) => Some("found"),
        Some(Turn::Answer(Answer::Loaded { fresh: true, .. })) => Some("fresh"),
        Some(Turn::Answer(Answer::Loaded { fresh: false, .. })) => Some("loaded"),
        Some(Turn::Answer(Answer::Nothing)) => Some("neither"),
        Some(Turn::Answer(Answer::InitErr(_))) => Some("error"),
        Some(Turn::Answer(Answer::Computed(CompResult::Inserted(_)))) => Some("inserted"),
        Some(Turn::Answer(Answer::Computed(CompResult::ReplacedWith(_)))) => Some("replaced"),
        Some(Turn::Answer(Answer::Computed(CompResult::Removed(_)))) => Some("removed"),
        Some(Turn::Answer(Answer::Computed(CompResult::Unchanged(_)))) => Some("unchanged"),
        Some(Turn::Answer(Answer::Computed(CompResult::StillNone(_)))) => Some("still none"),
        Some(Turn::Answer(Answer::ComputeErr(_))) => Some("compute error"),
        Some(Turn::Answer(Answer::RetriesExhausted)) => Some("exhausted"),
        Some(Turn::Answer(Answer::Evicted)) => Some("evicted"),
        Some(Turn::Answer(Answer::Kept)) => Some("kept"),
        Some(Turn::Answer(Answer::End)) => Some("end"),
        Some(Turn::Answer(Answer::Id(_))) => Some("id"),
        Some(Turn::Answer(Answer::ClosuresDisabled)) => Some("disabled"),
        Some(Turn::Answer(Answer::NoId)) => Some("no id"),
    };
    drop(left);
    Ok(name)
}

// One step of the flow, by the word for what the access gives: the turn that is left where the flow
// wants this access.
pub(crate) fn turn_after(
    flow: &mut Flow<u32, u32, u32>,
    access: &str,
    word: &str,
) -> Result<Option<Turn<u32, u32, u32>>, AllocError> {
    match given(access, word) {
        None => Ok(None),
        Some(given) => stepped(flow, access, given),
    }
}

// Whether the flow goes as a row says: an access, what it gives, and the turn then.
fn goes(flow: &mut Flow<u32, u32, u32>, row: &str) -> Result<bool, AllocError> {
    let Some((access, rest)) = row.split_once(" / ") else {
        return Ok(false);
    };
    let Some((word, turn)) = rest.split_once(" / ") else {
        return Ok(false);
    };
    match given(access, word) {
        None => Ok(false),
        Some(given) => Ok(named_step(flow, access, given)? == Some(turn)),
    }
}

// The first row, a line each, by its number, as which the flow doesn't go.
fn first_wrong(flow: &mut Flow<u32, u32, u32>, rows: &str) -> Result<Option<u64>, AllocError> {
    let mut number: u64 = 1;
    for row in rows.lines() {
        if !goes(flow, row)? {
            return Ok(Some(number));
        }
        number = number.wrapping_add(1);
    }
    Ok(None)
}

// Whether the flow goes as each of the rows says.
pub(crate) fn plays(flow: &mut Flow<u32, u32, u32>, rows: &str) -> Result<bool, AllocError> {
    Ok(first_wrong(flow, rows)?.is_none())
}

// A fresh call, of the number 7, over a table of two parts: what is started, and the rules, by their
// names.
pub(crate) fn fresh(start: &str, rules: &str) -> Option<Flow<u32, u32, u32>> {
    let rules = rules_named(rules)?;
    let start = start_named(start)?;
    Some(Flow::new(start, 7, rules, 2))
}

// The first row of such a call that is wrong; the row 0 where there is no such call.
fn first_wrong_of(start: &str, rules: &str, rows: &str) -> Result<Option<u64>, AllocError> {
    match fresh(start, rules) {
        None => Ok(Some(0)),
        Some(mut flow) => {
            let wrong = first_wrong(&mut flow, rows);
            drop(flow);
            wrong
        }
    }
}

// The first of the calls and its first row that is wrong: what is started, the rules, and the rows.
fn first_wrong_in(flows: &[(&str, &str, &str)]) -> Result<Option<(usize, u64)>, AllocError> {
    for place in 0..flows.len() {
        let flow = &flows[place];
        if let Some(row) = first_wrong_of(flow.0, flow.1, flow.2)? {
            return Ok(Some((place, row)));
        }
    }
    Ok(None)
}

// One call after the other goes as its rows say.
pub(crate) fn run_all(rt: &impl Abort, flows: &[(&str, &str, &str)]) {
    assert_eq!(rt; first_wrong_in(flows), Ok(None));
}
