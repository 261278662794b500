//! The lines of a report, one of each form.

use moka_hist::{
    Answer, Ask, Cause, CompResult, Entry, Id, Notice, NoticeState, Place, Refusal, Reply, Stored,
};
use moka_text::write_report;
use std::alloc::{AllocError, Global};
use std::test::Fail;

/// Whether a report of these replies alone is this text.
fn is_written(
    alloc: Global,
    replies: &[Reply<u32, u32, u32>],
    want: &str,
) -> Result<bool, AllocError> {
    let text = write_report(alloc, replies, &[], &[], &[], &[])?;
    Ok(text.as_str() == want)
}

/// A notice of the value 9 under the key 3.
fn notice(number: u64, cause: Cause, state: NoticeState) -> Notice<u32, u32> {
    Notice {
        number,
        key: 3,
        value: 9,
        cause,
        state,
    }
}

/// An entry of this value, whose key and past no line tells.
fn entry(value: u32) -> Entry<u32, u32> {
    Entry {
        key: Some(3),
        value,
        fresh: true,
        replaced: false,
    }
}

fn asks_listener(key: u32, value: u32, cause: Cause) -> Reply<u32, u32, u32> {
    Reply::Ask(Ask::Listener { key, value, cause })
}

fn loaded(value: u32, fresh: bool) -> Reply<u32, u32, u32> {
    Reply::Answer(Answer::Loaded { value, fresh })
}

fn computed(done: CompResult<u32, u32>) -> Reply<u32, u32, u32> {
    Reply::Answer(Answer::Computed(done))
}

#[test]
fn every_form_of_reply_is_written(rt: HostRuntime) -> Result<(), Fail> {
    let replies = [
        Reply::At,
        Reply::Call(u64::MAX),
        Reply::Going,
        Reply::Wait,
        Reply::Told,
        Reply::Dropped,
    ];
    let want = "at\ncall 18446744073709551615\ngoing\nwait\ntold\ndropped\n";
    assert!(rt; is_written(rt.alloc(), &replies, want)?);
    Ok(())
}

#[test]
fn every_refusal_is_written(rt: HostRuntime) -> Result<(), Fail> {
    let replies = [
        Reply::Refused(Refusal::UnknownCall),
        Reply::Refused(Refusal::NotParked),
        Reply::Refused(Refusal::NotAsked),
        Reply::Refused(Refusal::ClockBack),
        Reply::Refused(Refusal::CallsSpent),
    ];
    let want = "refused UnknownCall\nrefused NotParked\nrefused NotAsked\n\
        refused ClockBack\nrefused CallsSpent\n";
    assert!(rt; is_written(rt.alloc(), &replies, want)?);
    Ok(())
}

#[test]
fn every_form_of_ask_is_written(rt: HostRuntime) -> Result<(), Fail> {
    let replies = [
        Reply::Ask(Ask::Init),
        Reply::Ask(Ask::Compute(None)),
        Reply::Ask(Ask::Compute(Some((u32::MAX, 0)))),
        asks_listener(1, 2, Cause::Expired),
        asks_listener(u32::MAX, 0, Cause::Explicit),
    ];
    let want = "ask init\nask compute none\nask compute 4294967295 0\n\
        ask listener 1 2 Expired\nask listener 4294967295 0 Explicit\n";
    assert!(rt; is_written(rt.alloc(), &replies, want)?);
    Ok(())
}

#[test]
fn every_form_of_answer_is_written(rt: HostRuntime) -> Result<(), Fail> {
    let replies = [
        Reply::Answer(Answer::Done),
        Reply::Answer(Answer::Found(Some(0))),
        Reply::Answer(Answer::Found(None)),
        loaded(5, true),
        loaded(6, false),
        Reply::Answer(Answer::Nothing),
        Reply::Answer(Answer::InitErr(u32::MAX)),
        Reply::Answer(Answer::Evicted),
        Reply::Answer(Answer::Kept),
    ];
    let want = "answer done\nanswer some 0\nanswer none\nanswer value 5 fresh\n\
        answer value 6\nanswer nothing\nanswer error 4294967295\n\
        answer evicted\nanswer kept\n";
    assert!(rt; is_written(rt.alloc(), &replies, want)?);
    Ok(())
}

#[test]
fn every_form_of_a_walk_is_written(rt: HostRuntime) -> Result<(), Fail> {
    let replies = [
        Reply::Item(0, u32::MAX),
        Reply::Item(u32::MAX, 0),
        Reply::Answer(Answer::End),
    ];
    let want = "item 0 4294967295\nitem 4294967295 0\nanswer end\n";
    assert!(rt; is_written(rt.alloc(), &replies, want)?);
    Ok(())
}

#[test]
fn every_form_of_a_registering_is_written(rt: HostRuntime) -> Result<(), Fail> {
    let replies = [
        Reply::Answer(Answer::Id(Id::new(0x20ae25da_d4e2_4c53_98f9_38e12bbf69fb))),
        Reply::Answer(Answer::Id(Id::new(u128::MAX))),
        Reply::Answer(Answer::ClosuresDisabled),
        Reply::Answer(Answer::NoId),
    ];
    let want = "answer id 20ae25da-d4e2-4c53-98f9-38e12bbf69fb\n\
        answer id ffffffff-ffff-ffff-ffff-ffffffffffff\n\
        answer disabled\nanswer noid\n";
    assert!(rt; is_written(rt.alloc(), &replies, want)?);
    Ok(())
}

#[test]
fn every_form_of_what_was_computed_is_written(rt: HostRuntime) -> Result<(), Fail> {
    let replies = [
        computed(CompResult::Inserted(entry(5))),
        computed(CompResult::ReplacedWith(entry(6))),
        computed(CompResult::Removed(entry(u32::MAX))),
        computed(CompResult::Unchanged(entry(0))),
        computed(CompResult::StillNone(1)),
        Reply::Answer(Answer::ComputeErr(4)),
        Reply::Answer(Answer::RetriesExhausted),
    ];
    let want = "answer inserted 5\nanswer replaced 6\nanswer removed 4294967295\n\
        answer unchanged 0\nanswer stillnone\nanswer error 4\nanswer exhausted\n";
    assert!(rt; is_written(rt.alloc(), &replies, want)?);
    Ok(())
}

#[test]
fn what_stands_is_written_after_the_replies(rt: HostRuntime) -> Result<(), Fail> {
    let stored = Stored {
        value: 8,
        stamp: 9,
        modified: 10,
    };
    let places = [
        (1, Place::Held),
        (2, Place::Owed),
        (3, Place::Logged),
        (4, Place::Applied),
    ];
    let notices = [
        notice(5, Cause::Replaced, NoticeState::Waiting),
        notice(6, Cause::Size, NoticeState::Running),
        notice(7, Cause::Replaced, NoticeState::Ended),
        notice(u64::MAX, Cause::Replaced, NoticeState::Skipped),
    ];
    let text = write_report(
        rt.alloc(),
        &[Reply::Wait],
        &[(7, stored)],
        &places,
        &notices,
        &[(2, 0), (u64::MAX, 11)],
    )?;
    let want = "wait\nentry 7 8 stamp 9 at 10\n\
        write 1 held\nwrite 2 owed\nwrite 3 logged\nwrite 4 applied\n\
        notice 5 3 9 Replaced waiting\nnotice 6 3 9 Size running\n\
        notice 7 3 9 Replaced ended\nnotice 18446744073709551615 3 9 Replaced skipped\n\
        test 2 at 0\ntest 18446744073709551615 at 11\n";
    assert!(rt; text.as_str() == want);
    Ok(())
}
