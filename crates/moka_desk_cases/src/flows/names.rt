//! Names of accesses, and of turns with what they ask or answer.

use moka_hist::{Answer, Ask, CompResult, Settled, TableOp, Takes, Turn, Visit, Want};

pub(crate) fn want_name(want: &Want<u32, u32, u32>) -> &'static str {
    match want {
        Want::Begin(TableOp::Get { .. }) => "get",
        Want::Begin(TableOp::InsertOrModify { .. }) => "insert",
        Want::Begin(TableOp::InsertIfAbsent { .. }) => "insert if absent",
        Want::Begin(TableOp::RemoveIf { .. }) => "remove",
        Want::Begin(TableOp::Keys { part: 0 }) => "list the first part",
        Want::Begin(TableOp::Keys { .. }) => "list another part",
        Want::Table => "table",
        Want::Desk(visit) => visit_name(visit),
    }
}

fn visit_name(visit: &Visit<u32, u32, u32>) -> &'static str {
    match visit {
        Visit::Clock { .. } => "clock",
        Visit::TakeOwed { .. } => "take owed",
        Visit::NoticeEnded { .. } => "notice ended",
        Visit::LockKey { .. } => "lock key",
        Visit::UnlockKey { .. } => "unlock key",
        Visit::OpenNotice { .. } => "open notice",
        Visit::StampMoment { .. } => "stamp moment",
        Visit::Judge { replace: None, .. } => "judge",
        Visit::Judge {
            replace: Some(_),
            ..
        } => "judge by test",
        Visit::Scan { .. } => "scan",
        Visit::Holds { .. } => "holds",
        Visit::WaitOrOwn { .. } => "wait or own",
        Visit::OwnAlone { .. } => "own alone",
        Visit::ReadSettled { .. } => "read settled",
        Visit::Settle { with, .. } => settled_name(with),
        Visit::OpenAsk { takes, .. } => takes_name(*takes),
        Visit::TakeTold { .. } => "take told",
        Visit::PostWrite { .. } => "post write",
        Visit::TakeTurn { .. } => "take turn",
        Visit::ApplyOne { .. } => "apply one",
        Visit::EndTurn { .. } => "end turn",
        Visit::InvalidateAll => "invalidate all",
        Visit::Register { .. } => "register",
        Visit::Candidates => "candidates",
        Visit::Strike { .. } => "strike",
        Visit::Retire { .. } => "retire",
    }
}

fn settled_name(settled: &Settled<u32, u32>) -> &'static str {
    match settled {
        Settled::NotYet => "settle not yet",
        Settled::Ready(_) => "settle",
        Settled::Err(_) => "settle error",
        Settled::Nothing => "settle nothing",
        Settled::Aborted => "settle aborted",
    }
}

fn takes_name(takes: Takes) -> &'static str {
    match takes {
        Takes::Value => "ask value",
        Takes::Optional => "ask optional",
        Takes::Try => "ask try",
        Takes::Op => "ask op",
        Takes::TryOp => "ask try op",
    }
}
