//! What a turn does.

ghost use Rattle.std.specs.Prelude.{◌≡◌, ◌<◌, ◌≤◌, ℕ, length, slice_get, Some};
ghost use Rattle.moka_workload.specs.Turns.{action_of, calls_in, events_of};

use moka_hist::{Event, Op, Start, Told};

/// What a turn does with its key and its value. Calls have numbers, of which the first is the
/// turn's.
#[derive(Clone, Copy, PartialEq, Eq, Debug)]
pub enum Action {
    /// The key is looked up.
    Get,
    /// The value is inserted.
    Insert,
    /// The value is inserted by a call that is dropped before the listener is done.
    DroppedInsert,
    /// Two calls load the key; the first is dropped, and the second is told the value.
    TwoLoads,
    /// The key is removed.
    Remove,
    /// A compute of the key is told to put the value.
    Compute,
}

impl Action {
    /// What a number below 100 decides.
    pub(crate) fn of(percent: u32) -> Action
        ensures { result ≡ action_of percent }
    {
        if percent < 50 {
            Action::Get
        } else if percent < 70 {
            Action::Insert
        } else if percent < 80 {
            Action::DroppedInsert
        } else if percent < 90 {
            Action::TwoLoads
        } else if percent < 95 {
            Action::Remove
        } else {
            Action::Compute
        }
    }

    /// Counts the events.
    pub(crate) fn len(self) -> usize
        ensures events { (k v c : ℕ) → length (events_of self k v c) ≡ result }
        ensures few { result ≤ 10 }
    {
        match self {
            Action::Get => 2,
            Action::Insert | Action::DroppedInsert | Action::Remove => 4,
            Action::TwoLoads => 10,
            Action::Compute => 6,
        }
    }

    /// Counts the calls that are started.
    pub(crate) fn calls(self) -> u32
        ensures started { (k v c : ℕ) → calls_in (events_of self k v c) ≡ result }
        ensures few { result ≤ 2 }
    {
        match self {
            Action::TwoLoads => 2,
            Action::Get
            | Action::Insert
            | Action::DroppedInsert
            | Action::Remove
            | Action::Compute => 1,
        }
    }

    /// Gives the event at a place, where the first call has this number.
    pub(crate) fn event(self, key: u32, value: u32, call: u32, at: usize) -> Event<u32, u32, u32>
        requires { at < length (events_of self key value call) }
        ensures { slice_get (events_of self key value call) at ≡ Some result }
    {
        match self {
            Action::Get => get_event(key, call, at),
            Action::Insert => insert_event(key, value, call, at),
            Action::DroppedInsert => dropped_insert_event(key, value, call, at),
            Action::TwoLoads => two_loads_event(key, value, call, at),
            Action::Remove => remove_event(key, call, at),
            Action::Compute => compute_event(key, value, call, at),
        }
    }
}

/// The start of a call.
fn start(start: Start<u32, u32>) -> Event<u32, u32, u32>
    ensures { result ≡ Event.Start start }
{
    Event::Start { start }
}

/// A poll of the call.
fn poll(call: u64) -> Event<u32, u32, u32>
    ensures { result ≡ Event.Poll call }
{
    Event::Poll { call }
}

/// The call's ask is told this.
fn tell(call: u64, answer: Told<u32, u32>) -> Event<u32, u32, u32>
    ensures { result ≡ Event.Tell call answer }
{
    Event::Tell { call, answer }
}

fn get_event(key: u32, call: u32, at: usize) -> Event<u32, u32, u32>
    requires { at < 2 }
    ensures { (v : ℕ) → slice_get (events_of Action.Get key v call) at ≡ Some result }
{
    if at == 0 {
        start(Start::Get { key })
    } else {
        poll(u64::from(call))
    }
}

fn insert_event(key: u32, value: u32, call: u32, at: usize) -> Event<u32, u32, u32>
    requires { at < 4 }
    ensures { slice_get (events_of Action.Insert key value call) at ≡ Some result }
{
    match at {
        0 => start(Start::Insert { key, value }),
        2 => tell(u64::from(call), Told::Done),
        _ => poll(u64::from(call)),
    }
}

fn dropped_insert_event(key: u32, value: u32, call: u32, at: usize) -> Event<u32, u32, u32>
    requires { at < 4 }
    ensures { slice_get (events_of Action.DroppedInsert key value call) at ≡ Some result }
{
    let call = u64::from(call);
    match at {
        0 => start(Start::Insert { key, value }),
        1 => poll(call),
        2 => Event::Drop { call },
        _ => tell(call, Told::Done),
    }
}

fn two_loads_event(key: u32, value: u32, call: u32, at: usize) -> Event<u32, u32, u32>
    requires { at < 10 }
    ensures { slice_get (events_of Action.TwoLoads key value call) at ≡ Some result }
{
    let first = u64::from(call);
    let second = first + 1;
    match at {
        0 | 1 => start(Start::GetWith { key, replace: None }),
        2 => poll(first),
        4 => Event::Drop { call: first },
        6 => tell(second, Told::Value(value)),
        8 => tell(second, Told::Done),
        _ => poll(second),
    }
}

fn remove_event(key: u32, call: u32, at: usize) -> Event<u32, u32, u32>
    requires { at < 4 }
    ensures { (v : ℕ) → slice_get (events_of Action.Remove key v call) at ≡ Some result }
{
    match at {
        0 => start(Start::Remove { key }),
        2 => tell(u64::from(call), Told::Done),
        _ => poll(u64::from(call)),
    }
}

fn compute_event(key: u32, value: u32, call: u32, at: usize) -> Event<u32, u32, u32>
    requires { at < 6 }
    ensures { slice_get (events_of Action.Compute key value call) at ≡ Some result }
{
    let call = u64::from(call);
    match at {
        0 => start(Start::Compute { key }),
        2 => tell(call, Told::Op(Op::Put(value))),
        4 => tell(call, Told::Done),
        _ => poll(call),
    }
}
