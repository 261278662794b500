//! The lines of events. A line's first word is cut off, and decides how the rest is read.

ghost use Rattle.std.specs.Prelude.{◌≡◌, bytes_eq};
ghost use Rattle.moka_text.specs.ScheduleReading.{
  pair_of,
  cause_of,
  chosen_of,
  evict_of,
  replace_in,
  load_of,
  start_by,
  start_of,
  told_alone,
  told_of,
  tell_of,
  event_of,
};

use moka_hist::{Cause, Event, Op, Start, Told};
use moka_lines::{after, cut, u32_in, u64_in};

/// Whether the bytes spell this word.
#[inline(always)]
fn is_spelled(bytes: &[u8], word: &[u8]) -> bool
    ensures { result ≡ bytes_eq bytes.now word.now }
{
    bytes == word
}

/// A key and a value, with one space between them.
#[tactic(auto, unfolding(crate::specs::ScheduleReading::pair_of))]
#[inline(always)]
fn pair_of(bytes: &[u8]) -> Option<(u32, u32)>
    ensures { result ≡ pair_of bytes.now }
{
    let (key, value) = cut(bytes, b' ');
    let key = u32_in(key)?;
    let value = u32_in(value)?;
    Some((key, value))
}

/// Why a record that was chosen has to leave.
#[tactic(auto, unfolding(crate::specs::ScheduleReading::cause_of))]
fn cause_of(word: &[u8]) -> Option<Cause>
    ensures { result ≡ cause_of word.now }
{
    if is_spelled(word, b"Expired") {
        return Some(Cause::Expired);
    }
    if is_spelled(word, b"Explicit") {
        return Some(Cause::Explicit);
    }
    if is_spelled(word, b"Replaced") {
        return Some(Cause::Replaced);
    }
    if is_spelled(word, b"Size") {
        return Some(Cause::Size);
    }
    None
}

/// A stamp and a cause, with one space between them.
#[tactic(auto, unfolding(crate::specs::ScheduleReading::chosen_of))]
fn chosen_of(bytes: &[u8]) -> Option<(u64, Cause)>
    ensures { result ≡ chosen_of bytes.now }
{
    let (stamp, cause) = cut(bytes, b' ');
    let stamp = u64_in(stamp)?;
    let cause = cause_of(cause)?;
    Some((stamp, cause))
}

/// A key, and after a space the record that was chosen.
#[tactic(auto, unfolding(crate::specs::ScheduleReading::evict_of))]
fn evict_of(bytes: &[u8]) -> Option<(u32, (u64, Cause))>
    ensures { result ≡ evict_of bytes.now }
{
    let (key, chosen) = cut(bytes, b' ');
    let key = u32_in(key)?;
    let chosen = chosen_of(chosen)?;
    Some((key, chosen))
}

/// The replace test of a load: none where no bytes are left.
#[tactic(auto, unfolding(crate::specs::ScheduleReading::replace_in))]
fn replace_in(bytes: &[u8]) -> Option<Option<u64>>
    ensures { result ≡ replace_in bytes.now }
{
    if bytes.is_empty() {
        return Some(None);
    }
    let test = u64_in(after(bytes, b" if ")?)?;
    Some(Some(test))
}

/// A key, and after it the replace test, where there is one.
#[tactic(auto, unfolding(crate::specs::ScheduleReading::load_of))]
#[inline(always)]
fn load_of(bytes: &[u8]) -> Option<(u32, Option<u64>)>
    ensures { result ≡ load_of bytes.now }
{
    // Few loads have a replace test: without one the key is all.
    if let Some(key) = u32_in(bytes) {
        return Some((key, None));
    }
    let (key, _) = cut(bytes, b' ');
    let replace = &bytes[key.len()..];
    let key = u32_in(key)?;
    let replace = replace_in(replace)?;
    Some((key, replace))
}

/// What a call is started for, by a word and what stands after its space.
#[tactic(auto, unfolding(crate::specs::ScheduleReading::start_by))]
fn start_by(word: &[u8], rest: &[u8]) -> Option<Start<u32, u32>>
    ensures { result ≡ start_by word.now rest.now }
{
    if is_spelled(word, b"get") {
        return u32_in(rest).map(|key| Start::Get { key });
    }
    if is_spelled(word, b"insert") {
        return pair_of(rest).map(|(key, value)| Start::Insert { key, value });
    }
    if is_spelled(word, b"get_with") {
        return load_of(rest).map(|(key, replace)| Start::GetWith { key, replace });
    }
    if is_spelled(word, b"optional") {
        return u32_in(rest).map(|key| Start::Optional { key });
    }
    if is_spelled(word, b"try") {
        return u32_in(rest).map(|key| Start::Try { key });
    }
    if is_spelled(word, b"or_insert") {
        return pair_of(rest).map(|(key, value)| Start::OrInsert { key, value });
    }
    if is_spelled(word, b"compute") {
        return u32_in(rest).map(|key| Start::Compute { key });
    }
    if is_spelled(word, b"try_compute") {
        return u32_in(rest).map(|key| Start::TryCompute { key });
    }
    if is_spelled(word, b"compute_alone") {
        return u32_in(rest).map(|key| Start::ComputeAlone { key });
    }
    if is_spelled(word, b"upsert") {
        return u32_in(rest).map(|key| Start::Upsert { key });
    }
    if is_spelled(word, b"invalidate") {
        return u32_in(rest).map(|key| Start::Invalidate { key });
    }
    if is_spelled(word, b"remove") {
        return u32_in(rest).map(|key| Start::Remove { key });
    }
    if is_spelled(word, b"evict") {
        return evict_of(rest).map(|(key, (stamp, cause))| Start::Evict { key, stamp, cause });
    }
    if is_spelled(word, b"invalidate_if") {
        return u64_in(rest).map(|test| Start::InvalidateIf { test });
    }
    None
}

/// What a call is started for.
fn start_of(bytes: &[u8]) -> Option<Start<u32, u32>>
    ensures { result ≡ start_of bytes.now }
{
    // What is started most is known by its front, which takes less than to look for the space.
    if let Some(load) = after(bytes, b"get_with ") {
        return load_of(load).map(|(key, replace)| Start::GetWith { key, replace });
    }
    if let Some(pair) = after(bytes, b"insert ") {
        return pair_of(pair).map(|(key, value)| Start::Insert { key, value });
    }
    if let Some(key) = after(bytes, b"get ") {
        return u32_in(key).map(|key| Start::Get { key });
    }
    // A line without a key is matched whole.
    if is_spelled(bytes, b"invalidate_all") {
        return Some(Start::InvalidateAll);
    }
    if is_spelled(bytes, b"iter") {
        return Some(Start::Iter);
    }
    if is_spelled(bytes, b"pending") {
        return Some(Start::Pending);
    }
    let (word, rest) = cut(bytes, b' ');
    start_by(word, rest)
}

/// What an ask is told by a word alone.
#[tactic(auto, unfolding(crate::specs::ScheduleReading::told_alone))]
fn told_alone(bytes: &[u8]) -> Option<Told<u32, u32>>
    ensures { result ≡ told_alone bytes.now }
{
    if is_spelled(bytes, b"nothing") {
        return Some(Told::Nothing);
    }
    if is_spelled(bytes, b"nop") {
        return Some(Told::Op(Op::Nop));
    }
    if is_spelled(bytes, b"remove") {
        return Some(Told::Op(Op::Remove));
    }
    if is_spelled(bytes, b"done") {
        return Some(Told::Done);
    }
    if is_spelled(bytes, b"off") {
        return Some(Told::Off);
    }
    None
}

/// What an ask is told.
#[tactic(auto, unfolding(crate::specs::ScheduleReading::told_of))]
fn told_of(bytes: &[u8]) -> Option<Told<u32, u32>>
    ensures { result ≡ told_of bytes.now }
{
    if let Some(value) = after(bytes, b"value ") {
        return u32_in(value).map(Told::Value);
    }
    if let Some(error) = after(bytes, b"error ") {
        return u32_in(error).map(Told::Err);
    }
    if let Some(value) = after(bytes, b"put ") {
        return u32_in(value).map(|value| Told::Op(Op::Put(value)));
    }
    told_alone(bytes)
}

/// A call, and after a space what it is told.
#[tactic(auto, unfolding(crate::specs::ScheduleReading::tell_of))]
fn tell_of(bytes: &[u8]) -> Option<(u64, Told<u32, u32>)>
    ensures { result ≡ tell_of bytes.now }
{
    let (call, answer) = cut(bytes, b' ');
    let call = u64_in(call)?;
    let answer = told_of(answer)?;
    Some((call, answer))
}

/// The event that a line spells, if it spells one: by the first word and its space, at the front.
pub(crate) fn event_of(line: &[u8]) -> Option<Event<u32, u32, u32>>
    ensures { result ≡ event_of line.now }
{
    if let Some(call) = after(line, b"poll ") {
        return u64_in(call).map(|call| Event::Poll { call });
    }
    if let Some(start) = after(line, b"start ") {
        return start_of(start).map(|start| Event::Start { start });
    }
    if let Some(told) = after(line, b"tell ") {
        return tell_of(told).map(|(call, answer)| Event::Tell { call, answer });
    }
    if let Some(call) = after(line, b"step ") {
        return u64_in(call).map(|call| Event::Step { call });
    }
    if let Some(call) = after(line, b"drop ") {
        return u64_in(call).map(|call| Event::Drop { call });
    }
    if let Some(moment) = after(line, b"at ") {
        return u64_in(moment).map(|moment| Event::At { moment });
    }
    None
}
