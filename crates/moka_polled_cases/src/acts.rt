//! What is done to a cache in these cases, and what comes of it.
ghost use Rattle.std.specs.Prelude.{◌≡◌, true, nat_eq, IfOk};
ghost use Rattle.moka_small.specs.Small.{is_plain_start};
ghost use Rattle.moka_polled.specs.Polled.{AnySmall, IsUsable, is_end};

use moka_hist::{Cause, Start, Told};
use moka_polled::{Outcome, PolledMachine};
use std::alloc::{AllocError, Global};

/// The cache of these cases.
pub type Polled = PolledMachine<u32, u32, u32>;

/// What a call is started for. An eviction is for want of room.
#[derive(Clone, Copy, PartialEq, Debug)]
pub enum Begin {
    Get(u32),
    Insert(u32, u32),
    GetWith(u32),
    Optional(u32),
    Try(u32),
    OrInsert(u32, u32),
    Invalidate(u32),
    Remove(u32),
    Evict(u32, u64),
}

/// How an initializer ended.
#[derive(Clone, Copy, PartialEq, Debug)]
pub enum End {
    Value(u32),
    Nothing,
    Error(u32),
}

/// One thing that is done.
#[derive(Clone, Copy, PartialEq, Debug)]
pub enum Act {
    Start(Begin),
    Poll(u64),
    Tell(u64, End),
    /// A call is started and polled.
    Whole(Begin),
}

/// What came of it: the number of a call, what a poll came to, or whether an answer was taken.
#[derive(PartialEq, Debug, Drop)]
pub enum Came {
    Call(u64),
    Polled(Option<Outcome<u32, u32>>),
    Told(bool),
}

fn start_of(begin: Begin) -> Start<u32, u32>
    ensures { is_plain_start result ≡ true }
{
    match begin {
        Begin::Get(key) => Start::Get { key },
        Begin::Insert(key, value) => Start::Insert { key, value },
        Begin::GetWith(key) => Start::GetWith { key, replace: None },
        Begin::Optional(key) => Start::Optional { key },
        Begin::Try(key) => Start::Try { key },
        Begin::OrInsert(key, value) => Start::OrInsert { key, value },
        Begin::Invalidate(key) => Start::Invalidate { key },
        Begin::Remove(key) => Start::Remove { key },
        Begin::Evict(key, stamp) => Start::Evict {
            key,
            stamp,
            cause: Cause::Size,
        },
    }
}

fn told_of(end: End) -> Told<u32, u32>
    ensures { is_end result ≡ true }
{
    match end {
        End::Value(value) => Told::Value(value),
        End::Nothing => Told::Nothing,
        End::Error(error) => Told::Err(error),
    }
}

/// Builds a cache of this capacity, whose log has room for one write.
pub fn cache(alloc: Global, capacity: Option<u64>) -> Result<Polled, AllocError>
    ensures { IfOk result (λ p. IsUsable nat_eq p AnySmall) }
{
    match capacity {
        None => PolledMachine::with_log(alloc, None, 1),
        Some(most) => PolledMachine::with_log(alloc, Some(most.max(1)), 1),
    }
}

/// Does it.
pub fn carry_out(polled: &mut Polled, act: Act) -> Result<Came, AllocError>
    requires { IsUsable nat_eq polled.old AnySmall }
    ensures { IsUsable nat_eq polled.new AnySmall }
{
    match act {
        Act::Start(begin) => start(polled, begin),
        Act::Poll(call) => poll(polled, call),
        Act::Tell(call, end) => tell(polled, call, end),
        Act::Whole(begin) => start_and_poll(polled, begin),
    }
}

fn start(polled: &mut Polled, begin: Begin) -> Result<Came, AllocError>
    requires { IsUsable nat_eq polled.old AnySmall }
    ensures { IsUsable nat_eq polled.new AnySmall }
{
    polled.start(start_of(begin)).map(|call| Came::Call(call))
}

fn poll(polled: &mut Polled, call: u64) -> Result<Came, AllocError>
    requires { IsUsable nat_eq polled.old AnySmall }
    ensures { IsUsable nat_eq polled.new AnySmall }
{
    polled
        .poll_if_live(call)
        .map(|outcome| Came::Polled(outcome))
}

fn tell(polled: &mut Polled, call: u64, end: End) -> Result<Came, AllocError>
    requires { IsUsable nat_eq polled.old AnySmall }
    ensures { IsUsable nat_eq polled.new AnySmall }
{
    polled
        .tell_if_asked(call, told_of(end))
        .map(|took| Came::Told(took))
}

fn start_and_poll(polled: &mut Polled, begin: Begin) -> Result<Came, AllocError>
    requires { IsUsable nat_eq polled.old AnySmall }
    ensures { IsUsable nat_eq polled.new AnySmall }
{
    let call = polled.start(start_of(begin))?;
    poll(polled, call)
}
