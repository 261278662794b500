//! The words of the command line, and what they stand for.

use crate::ways::{Kind, Way};

/// What the calls are made of.
#[derive(Clone, Copy)]
pub(crate) enum Peer {
    /// A cache of a capacity that it never reaches.
    Cache,
    /// A cache without a capacity.
    Unbounded,
    /// A cache of such a capacity, with a listener.
    Heard,
    /// A cache of such a capacity, with a time to idle that never passes.
    Idle,
    /// Std's map under a lock.
    Map,
}

/// Each of them.
pub(crate) const PEERS: [Peer; 5] = [
    Peer::Cache,
    Peer::Unbounded,
    Peer::Heard,
    Peer::Idle,
    Peer::Map,
];

impl Peer {
    /// Its word.
    pub(crate) fn name(self) -> &'static str {
        match self {
            Peer::Cache => "cache",
            Peer::Unbounded => "unbounded",
            Peer::Heard => "heard",
            Peer::Idle => "idle",
            Peer::Map => "map",
        }
    }
}

/// What comes and goes at once.
#[derive(Clone, Copy)]
pub(crate) enum Burst {
    /// Records of as many keys.
    Records,
    /// Loads of as many keys, each the owner of its own.
    Owners,
    /// Loads of one key, of which one is the owner.
    Waiters,
}

/// What is made.
#[derive(Clone, Copy)]
pub(crate) enum Work {
    /// Looks keys up that are stored.
    Get,
    /// Stores keys.
    Insert,
    /// Looks keys up, and stores those that are absent.
    Load,
    /// Stores each key and takes it out.
    Remove,
    /// Stores each key and looks it up.
    See,
    /// Loads keys and takes them out, where every third owner of a load is cancelled.
    Cancel,
    /// Makes calls of this kind, in each way.
    Calls(Kind),
    /// Lets much come and go at once.
    Burst(Burst),
}

/// Each of them.
pub(crate) const WORKS: [Work; 21] = [
    Work::Get,
    Work::Insert,
    Work::Load,
    Work::Remove,
    Work::See,
    Work::Cancel,
    Work::Calls(Kind::GetWith),
    Work::Calls(Kind::GetWithIf),
    Work::Calls(Kind::Replacing),
    Work::Calls(Kind::OptionallyGetWith),
    Work::Calls(Kind::Nothing),
    Work::Calls(Kind::TryGetWith),
    Work::Calls(Kind::Failing),
    Work::Calls(Kind::OrInsert),
    Work::Calls(Kind::Compute),
    Work::Calls(Kind::TryCompute),
    Work::Calls(Kind::ComputeFailing),
    Work::Calls(Kind::Upsert),
    Work::Burst(Burst::Records),
    Work::Burst(Burst::Owners),
    Work::Burst(Burst::Waiters),
];

impl Work {
    /// Its word.
    pub(crate) fn name(self) -> &'static str {
        match self {
            Work::Get => "get",
            Work::Insert => "insert",
            Work::Load => "load",
            Work::Remove => "remove",
            Work::See => "see",
            Work::Cancel => "cancel",
            Work::Calls(kind) => kind.name(),
            Work::Burst(Burst::Records) => "burst",
            Work::Burst(Burst::Owners) => "owners",
            Work::Burst(Burst::Waiters) => "waiters",
        }
    }

    /// Whether it looks up what was stored before.
    pub(crate) fn is_get(self) -> bool {
        matches!(self, Work::Get)
    }

    /// Whether its calls are made in several ways.
    pub(crate) fn has_ways(self) -> bool {
        matches!(self, Work::Calls(_))
    }
}

/// A work with a peer, and the way in which its calls are made where it is made in several.
#[derive(Clone, Copy)]
pub(crate) struct Job {
    pub(crate) peer: Peer,
    pub(crate) work: Work,
    pub(crate) way: Way,
}

impl Job {
    /// Whether there is such a job: a map has the first three works, and a work that has no ways is
    /// made once.
    pub(crate) fn is_made(self) -> bool {
        match (self.peer, self.work, self.way) {
            (Peer::Map, Work::Get | Work::Insert | Work::Load, Way::Once) => true,
            (Peer::Map, _, _) => false,
            (_, Work::Calls(_), _) => true,
            (_, _, way) => matches!(way, Way::Once),
        }
    }

    /// The word of its way, and what stands before it.
    pub(crate) fn way(self) -> (&'static str, &'static str) {
        match self.work {
            Work::Calls(_) => (" ", self.way.name()),
            _ => ("", ""),
        }
    }
}
