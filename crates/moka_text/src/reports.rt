//! Writing the text of a report.

ghost use Rattle.std.specs.Prelude.{◌≡◌, ◌∷◌, ◌++◌, decimal, flat_map, IfOk, OnOk};
ghost use Rattle.std.specs.String.{string_bytes};
ghost use Rattle.moka_lines.specs.Texts.{ended};
ghost use Rattle.moka_text.specs.Words.{cause_word};
ghost use Rattle.moka_text.specs.ReportText.{
  left_words,
  reply_line,
  entry_line,
  write_line,
  state_word,
  notice_line,
  test_line,
  report_text,
};

use itoa::Buffer;
use moka_hist::{
    Answer, Ask, Cause, CompResult, Notice, NoticeState, Place, Refusal, Reply, Stored,
};
use moka_ids::push_id;
use std::alloc::{AllocError, Global};

/// Appends a number in decimal. It takes fewer instructions than `write!`.
#[inline(always)]
fn push_number(text: &mut String, number: u64) -> Result<(), AllocError>
    ensures { OnOk result (string_bytes text.new ≡ string_bytes text.old ++ decimal number) }
{
    let mut buffer = Buffer::new();
    text.push_str(buffer.format(number))
}

/// Appends a line of these words and a number.
#[inline(always)]
fn push_line(text: &mut String, words: &str, number: u64) -> Result<(), AllocError>
    ensures { OnOk result (string_bytes text.new
        ≡ string_bytes text.old ++ ended (words.now ++ decimal number)) }
{
    text.push_str(words)?;
    push_number(text, number)?;
    text.push_str("\n")
}

/// Appends the line of a found value, or of none.
fn push_found(text: &mut String, found: &Option<u32>) -> Result<(), AllocError>
    ensures { OnOk result (string_bytes text.new
        ≡ string_bytes text.old ++ reply_line (Reply.Answer (Answer.Found found.now))) }
{
    match found {
        Some(value) => push_line(text, "answer some ", u64::from(*value)),
        None => text.push_str("answer none\n"),
    }
}

/// Appends the line of a loaded value.
fn push_loaded(text: &mut String, value: u32, fresh: bool) -> Result<(), AllocError>
    ensures { OnOk result (string_bytes text.new
        ≡ string_bytes text.old ++ reply_line (Reply.Answer (Answer.Loaded value fresh))) }
{
    if fresh {
        text.push_str("answer value ")?;
        push_number(text, u64::from(value))?;
        text.push_str(" fresh\n")
    } else {
        push_line(text, "answer value ", u64::from(value))
    }
}

/// Appends the line of what a compute has done.
fn push_done(text: &mut String, done: &CompResult<u32, u32>) -> Result<(), AllocError>
    ensures { OnOk result (string_bytes text.new
        ≡ string_bytes text.old ++ reply_line (Reply.Answer (Answer.Computed done.now))) }
{
    match done {
        CompResult::Inserted(entry) => push_line(text, "answer inserted ", u64::from(entry.value)),
        CompResult::ReplacedWith(entry) => {
            push_line(text, "answer replaced ", u64::from(entry.value))
        }
        CompResult::Removed(entry) => push_line(text, "answer removed ", u64::from(entry.value)),
        CompResult::Unchanged(entry) => {
            push_line(text, "answer unchanged ", u64::from(entry.value))
        }
        CompResult::StillNone(_) => text.push_str("answer stillnone\n"),
    }
}

/// Appends the line of an id.
fn push_id_line(text: &mut String, id: u128) -> Result<(), AllocError>
    ensures { OnOk result (string_bytes text.new
        ≡ string_bytes text.old ++ reply_line (Reply.Answer (Answer.Id id))) }
{
    text.push_str("answer id ")?;
    push_id(text, id)?;
    text.push_str("\n")
}

/// Appends the line of an answer.
fn push_answer(text: &mut String, answer: &Answer<u32, u32, u32>) -> Result<(), AllocError>
    ensures { OnOk result (string_bytes text.new
        ≡ string_bytes text.old ++ reply_line (Reply.Answer answer.now)) }
{
    match answer {
        Answer::Done => text.push_str("answer done\n"),
        Answer::Found(found) => push_found(text, found),
        Answer::Loaded { value, fresh } => push_loaded(text, *value, *fresh),
        Answer::Nothing => text.push_str("answer nothing\n"),
        Answer::InitErr(error) => push_line(text, "answer error ", u64::from(*error)),
        Answer::Computed(done) => push_done(text, done),
        Answer::ComputeErr(error) => push_line(text, "answer error ", u64::from(*error)),
        Answer::RetriesExhausted => text.push_str("answer exhausted\n"),
        Answer::Evicted => text.push_str("answer evicted\n"),
        Answer::Kept => text.push_str("answer kept\n"),
        Answer::End => text.push_str("answer end\n"),
        Answer::Id(id) => push_id_line(text, id.get()),
        Answer::ClosuresDisabled => text.push_str("answer disabled\n"),
        Answer::NoId => text.push_str("answer noid\n"),
    }
}

/// Appends the line of a refusal.
fn push_refusal(text: &mut String, why: Refusal) -> Result<(), AllocError>
    ensures { OnOk result (string_bytes text.new
        ≡ string_bytes text.old ++ reply_line (Reply.Refused why)) }
{
    match why {
        Refusal::UnknownCall => text.push_str("refused UnknownCall\n"),
        Refusal::NotParked => text.push_str("refused NotParked\n"),
        Refusal::NotAsked => text.push_str("refused NotAsked\n"),
        Refusal::ClockBack => text.push_str("refused ClockBack\n"),
        Refusal::CallsSpent => text.push_str("refused CallsSpent\n"),
    }
}

/// The word of a cause.
fn cause_word(cause: Cause) -> &'static str
    ensures { result.now ≡ cause_word cause }
{
    match cause {
        Cause::Expired => "Expired",
        Cause::Explicit => "Explicit",
        Cause::Replaced => "Replaced",
        Cause::Size => "Size",
    }
}

/// Appends a key and its value.
#[inline(always)]
fn push_pair(text: &mut String, key: u32, value: u32) -> Result<(), AllocError>
    ensures { OnOk result (string_bytes text.new
        ≡ string_bytes text.old ++ (decimal key ++ 32 ∷ decimal value)) }
{
    push_number(text, u64::from(key))?;
    text.push_str(" ")?;
    push_number(text, u64::from(value))
}

/// Appends a key, the value that stood under it, and why it left.
fn push_left(text: &mut String, key: u32, value: u32, cause: Cause) -> Result<(), AllocError>
    ensures { OnOk result (string_bytes text.new
        ≡ string_bytes text.old ++ left_words key value cause) }
{
    push_pair(text, key, value)?;
    text.push_str(" ")?;
    text.push_str(cause_word(cause))
}

/// The word of how far a notice is.
fn state_word(state: NoticeState) -> &'static str
    ensures { result.now ≡ state_word state }
{
    match state {
        NoticeState::Waiting => "waiting",
        NoticeState::Running => "running",
        NoticeState::Ended => "ended",
        NoticeState::Skipped => "skipped",
    }
}

/// Appends the line of a compute's ask, with the pair that the key has.
fn push_asked(text: &mut String, found: &Option<(u32, u32)>) -> Result<(), AllocError>
    ensures { OnOk result (string_bytes text.new
        ≡ string_bytes text.old ++ reply_line (Reply.Ask (Ask.Compute found.now))) }
{
    match found {
        Some((key, value)) => {
            text.push_str("ask compute ")?;
            push_pair(text, *key, *value)?;
            text.push_str("\n")
        }
        None => text.push_str("ask compute none\n"),
    }
}

/// Appends the line of an ask.
fn push_ask(text: &mut String, ask: &Ask<u32, u32>) -> Result<(), AllocError>
    ensures { OnOk result (string_bytes text.new
        ≡ string_bytes text.old ++ reply_line (Reply.Ask ask.now)) }
{
    match ask {
        Ask::Init => text.push_str("ask init\n"),
        Ask::Compute(found) => push_asked(text, found),
        Ask::Listener { key, value, cause } => {
            text.push_str("ask listener ")?;
            push_left(text, *key, *value, *cause)?;
            text.push_str("\n")
        }
    }
}

/// Appends the line of a record that a walk gives.
fn push_item(text: &mut String, key: u32, value: u32) -> Result<(), AllocError>
    ensures { OnOk result (string_bytes text.new
        ≡ string_bytes text.old ++ reply_line (Reply.Item key value)) }
{
    text.push_str("item ")?;
    push_pair(text, key, value)?;
    text.push_str("\n")
}

/// Appends the line of a reply.
fn push_reply(text: &mut String, reply: &Reply<u32, u32, u32>) -> Result<(), AllocError>
    ensures { OnOk result (string_bytes text.new
        ≡ string_bytes text.old ++ reply_line reply.now) }
{
    match reply {
        Reply::At => text.push_str("at\n"),
        Reply::Call(number) => push_line(text, "call ", *number),
        Reply::Going => text.push_str("going\n"),
        Reply::Wait => text.push_str("wait\n"),
        Reply::Ask(ask) => push_ask(text, ask),
        Reply::Answer(answer) => push_answer(text, answer),
        Reply::Item(key, value) => push_item(text, *key, *value),
        Reply::Told => text.push_str("told\n"),
        Reply::Dropped => text.push_str("dropped\n"),
        Reply::Refused(why) => push_refusal(text, *why),
    }
}

/// Appends the line of a key and its record.
fn push_entry(text: &mut String, entry: &(u32, Stored<u32>)) -> Result<(), AllocError>
    ensures { OnOk result (string_bytes text.new
        ≡ string_bytes text.old ++ entry_line entry.now) }
{
    text.push_str("entry ")?;
    push_pair(text, entry.0, entry.1.value)?;
    text.push_str(" stamp ")?;
    push_number(text, entry.1.stamp)?;
    push_line(text, " at ", entry.1.modified)
}

/// Appends the line of a committed write.
fn push_write(text: &mut String, number: u64, place: Place) -> Result<(), AllocError>
    ensures { OnOk result (string_bytes text.new
        ≡ string_bytes text.old ++ write_line (number, place)) }
{
    text.push_str("write ")?;
    push_number(text, number)?;
    match place {
        Place::Held => text.push_str(" held\n"),
        Place::Owed => text.push_str(" owed\n"),
        Place::Logged => text.push_str(" logged\n"),
        Place::Applied => text.push_str(" applied\n"),
    }
}

/// Appends the lines of the replies.
fn push_replies(text: &mut String, replies: &[Reply<u32, u32, u32>]) -> Result<(), AllocError>
    ensures { OnOk result (string_bytes text.new
        ≡ string_bytes text.old ++ flat_map reply_line replies.now) }
{
    for reply in replies {
        push_reply(text, reply)?;
    }
    Ok(())
}

/// Appends the lines of the stored records.
fn push_entries(text: &mut String, entries: &[(u32, Stored<u32>)]) -> Result<(), AllocError>
    ensures { OnOk result (string_bytes text.new
        ≡ string_bytes text.old ++ flat_map entry_line entries.now) }
{
    for entry in entries {
        push_entry(text, entry)?;
    }
    Ok(())
}

/// Appends the lines of the committed writes.
fn push_writes(text: &mut String, places: &[(u64, Place)]) -> Result<(), AllocError>
    ensures { OnOk result (string_bytes text.new
        ≡ string_bytes text.old ++ flat_map write_line places.now) }
{
    for (number, place) in places {
        push_write(text, *number, *place)?;
    }
    Ok(())
}

/// Appends the line of a notice.
fn push_notice(text: &mut String, notice: &Notice<u32, u32>) -> Result<(), AllocError>
    ensures { OnOk result (string_bytes text.new
        ≡ string_bytes text.old ++ notice_line notice.now) }
{
    text.push_str("notice ")?;
    push_number(text, notice.number)?;
    text.push_str(" ")?;
    push_left(text, notice.key, notice.value, notice.cause)?;
    text.push_str(" ")?;
    text.push_str(state_word(notice.state))?;
    text.push_str("\n")
}

/// Appends the lines of the notices.
fn push_notices(text: &mut String, notices: &[Notice<u32, u32>]) -> Result<(), AllocError>
    ensures { OnOk result (string_bytes text.new
        ≡ string_bytes text.old ++ flat_map notice_line notices.now) }
{
    for notice in notices {
        push_notice(text, notice)?;
    }
    Ok(())
}

/// Appends the line of a registered predicate.
fn push_test(text: &mut String, test: u64, moment: u64) -> Result<(), AllocError>
    ensures { OnOk result (string_bytes text.new
        ≡ string_bytes text.old ++ test_line (test, moment)) }
{
    text.push_str("test ")?;
    push_number(text, test)?;
    push_line(text, " at ", moment)
}

/// Appends the lines of the registered predicates.
fn push_tests(text: &mut String, tests: &[(u64, u64)]) -> Result<(), AllocError>
    ensures { OnOk result (string_bytes text.new
        ≡ string_bytes text.old ++ flat_map test_line tests.now) }
{
    for (test, moment) in tests {
        push_test(text, *test, *moment)?;
    }
    Ok(())
}

/// For how many bytes room is made before a report of so many lines is written: about as many as
/// these take, since a text that grows is copied. Where they take more it grows.
fn room_for(replies: usize, entries: usize, places: usize, others: usize) -> usize {
    replies
        .saturating_mul(20)
        .saturating_add(entries.saturating_mul(50))
        .saturating_add(places.saturating_mul(30))
        .saturating_add(others.saturating_mul(60))
}

/// Writes a report: a line for each reply, then for each stored record, which stands beside its
/// key, then for each committed write, by its number, then for each notice, then for each registered
/// predicate, by the number of its test, with the moment at which it was registered, in nanoseconds.
/// Each list keeps its order.
pub fn write_report(
    alloc: Global,
    replies: &[Reply<u32, u32, u32>],
    entries: &[(u32, Stored<u32>)],
    places: &[(u64, Place)],
    notices: &[Notice<u32, u32>],
    tests: &[(u64, u64)],
) -> Result<String, AllocError>
    ensures { IfOk result (λ text. string_bytes text
        ≡ report_text replies.now entries.now places.now notices.now tests.now) }
{
    let others = notices.len().saturating_add(tests.len());
    let room = room_for(replies.len(), entries.len(), places.len(), others);
    let mut text = String::with_capacity(alloc, room)?;
    push_replies(&mut text, replies)?;
    push_entries(&mut text, entries)?;
    push_writes(&mut text, places)?;
    push_notices(&mut text, notices)?;
    push_tests(&mut text, tests)?;
    Ok(text)
}
