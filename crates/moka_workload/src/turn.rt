//! A turn.

ghost use Rattle.std.specs.Prelude.{◌≡◌, ◌<◌, ◌≤◌, ◌==◌, ◌%◌, ◌+◌, IsTrue, ℕ, length, slice_get, Some};
ghost use Rattle.moka_workload.specs.Turns.{calls_in, events_in, maintenance, turn_by};

use crate::Action;
use moka_hist::{Event, Start};

/// A turn of a workload. It gives its events one by one, by their places from 0.
#[derive(Clone, Copy, PartialEq, Eq, Debug)]
pub struct Turn {
    number: u32,
    action: Action,
    key: u32,
    value: u32,
    call: u32,
}

impl Turn {
    /// The turn of this number that the word decides, where the next call has this number.
    pub(crate) fn by(number: u32, word: u64, call: u32) -> Turn
        ensures { result ≡ turn_by number word call }
    {
        Turn {
            number,
            action: Action::of((word / (1 << 32) % 100) as u32),
            key: (word % 1000) as u32,
            value: (word / (1 << 16) % 1000) as u32,
            call,
        }
    }

    /// Answers whether maintenance comes after it.
    fn is_maintained(self) -> bool
        ensures { result ≡ (self.number % 100 == 0) }
    {
        self.number % 100 == 0
    }

    /// Counts the events.
    pub fn len(self) -> usize
        ensures events { result ≡ length (events_in self) }
        ensures few { result ≤ 13 }
    {
        let own = 1 + self.action.len();
        if self.is_maintained() { own + 2 } else { own }
    }

    /// Counts the calls that its events start.
    pub fn calls(self) -> u32
        ensures started { result ≡ calls_in (events_in self) }
        ensures few { result ≤ 3 }
    {
        let own = self.action.calls();
        if self.is_maintained() { own + 1 } else { own }
    }

    /// Gives the event at a place. It takes no memory.
    pub fn event(self, at: usize) -> Event<u32, u32, u32>
        requires { at < length (events_in self) }
        ensures { slice_get (events_in self) at ≡ Some result }
    {
        if at == 0 {
            return Event::At {
                moment: 10 * u64::from(self.number),
            };
        }
        let place = at - 1;
        let own = self.action.len();
        if place < own {
            self.action.event(self.key, self.value, self.call, place)
        } else {
            maintenance_event(
                u64::from(self.call) + u64::from(self.action.calls()),
                place - own,
            )
        }
    }
}

/// The event of maintenance at a place, whose call has this number.
fn maintenance_event(call: u64, at: usize) -> Event<u32, u32, u32>
    requires { at < 2 }
    ensures { slice_get (maintenance call) at ≡ Some result }
{
    if at == 0 {
        Event::Start {
            start: Start::Pending,
        }
    } else {
        Event::Poll { call }
    }
}
