//! A plain model of a cache whose writes are polled whole, and of walks that stop at each step.

ghost use Rattle.std.specs.Prelude.{◌<◌};

use moka_hist::Stored;

/// How many keys there are.
pub const KEYS: u32 = 8;

/// How many walks go at a time, at most.
const WALKS: usize = 4;

/// What a call is started for that is then polled to its answer. An eviction is for want of room.
#[derive(Clone, Copy, PartialEq, Debug)]
pub enum Begin {
    Get(u32),
    Insert(u32, u32),
    Invalidate(u32),
    Remove(u32),
    Evict(u32, u64),
    InvalidateAll,
}

/// One thing that is done.
#[derive(Clone, Copy, PartialEq, Debug)]
pub enum Act {
    At(u64),
    Whole(Begin),
    Walk,
    Step(u64),
    Poll(u64),
    Drop(u64),
}

/// A reply, as far as there is one like it here.
#[derive(Clone, Copy, PartialEq, Debug)]
pub enum Seen {
    At,
    Call(u64),
    Going,
    Item(u32, u32),
    Done,
    Found(Option<u32>),
    Evicted,
    Kept,
    End,
    Dropped,
    UnknownCall,
    NotParked,
    Other,
}

/// The times of the model's records, and whether they may be evicted for want of room.
#[derive(Clone, Copy, PartialEq, Debug)]
pub struct Times {
    pub live: Option<u64>,
    pub idle: Option<u64>,
    pub is_bounded: bool,
}

/// A record: its value, the call that wrote it, and the moment of that.
#[derive(Clone, Copy, PartialEq, Debug)]
struct Record {
    value: u32,
    stamp: u64,
    modified: u64,
}

/// The record under each key.
type Records = [Option<Record>; 8];

/// How far a walk is: it has made no step, its last reply was Going, it has given a record, or it
/// has ended.
#[derive(Clone, Copy, PartialEq, Debug)]
enum Stand {
    Begun,
    Between,
    AtItem,
    Gone,
}

/// A walk: the keys that it has given, those that it has still to give, and what was stored at its
/// first step and at its last.
#[derive(Clone, Copy)]
struct Walk {
    call: u64,
    stand: Stand,
    given: [bool; 8],
    must: [bool; 8],
    first: Records,
    seen: Records,
}

impl Walk {
    /// A walk that has made no step.
    fn new(call: u64, stand: Stand) -> Self {
        Walk {
            call,
            stand,
            given: [false; 8],
            must: [false; 8],
            first: [None; 8],
            seen: [None; 8],
        }
    }

    fn owes(&self) -> bool {
        self.must.iter().any(|must| *must)
    }
}

/// What is stored, when each record was seen last, by the call that wrote it, and the walks.
#[derive(Clone, Copy)]
pub struct Model {
    times: Times,
    records: Records,
    accessed: [u64; 128],
    clock: u64,
    valid_since: u64,
    last: u64,
    walks: [Walk; 4],
}

/// Whether the time that began at this moment is past.
fn is_past(clock: u64, began: u64, time: Option<u64>) -> bool {
    match time {
        Some(time) => began.saturating_add(time) <= clock,
        None => false,
    }
}

impl Model {
    /// Nothing is stored, and no call was started.
    pub fn new(times: Times) -> Self {
        Model {
            times,
            records: [None; 8],
            accessed: [0; 128],
            clock: 0,
            valid_since: 0,
            last: 0,
            walks: [Walk::new(0, Stand::Gone); 4],
        }
    }

    /// How far the clock is.
    pub fn clock(&self) -> u64 {
        self.clock
    }

    /// How many calls were started.
    pub fn last(&self) -> u64 {
        self.last
    }

    /// The number of the walk at this place; 0 where none was started.
    pub fn walk_at(&self, place: usize) -> u64 {
        self.walks[place % WALKS].call
    }

    /// Whether one more walk may be started.
    pub fn has_room(&self) -> bool {
        self.walks.iter().any(|walk| walk.stand == Stand::Gone)
    }

    /// Whether a walk is under way.
    pub fn walks(&self) -> bool {
        self.walks.iter().any(|walk| walk.stand != Stand::Gone)
    }

    /// Whether these are the stored records.
    pub fn has_stored(&self, entries: &[(u32, Stored<u32>)]) -> bool {
        let stored = self
            .records
            .iter()
            .filter(|record| record.is_some())
            .count();
        stored == entries.len()
            && entries
                .iter()
                .all(|entry| self.has_record(entry.0, &entry.1))
    }

    fn has_record(&self, key: u32, stored: &Stored<u32>) -> bool {
        match self.record(key) {
            Some(record) => {
                record.value == stored.value
                    && record.stamp == stored.stamp
                    && record.modified == stored.modified
            }
            None => false,
        }
    }

    /// Takes what was done and what was seen then, that of the poll where a call was polled whole.
    /// Answers whether that is right.
    pub fn takes(&mut self, act: Act, seen: Seen) -> bool {
        let is_right = match act {
            Act::At(moment) => self.moves_on(moment, seen),
            Act::Whole(begin) => seen == self.answer(begin),
            Act::Walk => self.begins(seen),
            Act::Step(call) => self.walk_moves(call, seen, false),
            Act::Poll(call) => self.walk_moves(call, seen, true),
            Act::Drop(call) => self.drops(call, seen),
        };
        self.narrow();
        is_right
    }

    fn moves_on(&mut self, moment: u64, seen: Seen) -> bool {
        self.clock = moment;
        seen == Seen::At
    }

    fn record(&self, key: u32) -> Option<Record> {
        self.records[(key % KEYS) as usize]
    }

    fn store(&mut self, key: u32, record: Option<Record>) {
        self.records[(key % KEYS) as usize] = record;
    }

    /// The record is accessed now.
    fn access(&mut self, stamp: u64) {
        self.accessed[(stamp % 128) as usize] = self.clock;
    }

    fn is_visible(&self, record: Record) -> bool {
        let accessed = self.accessed[(record.stamp % 128) as usize];
        self.valid_since <= record.modified
            && !is_past(self.clock, record.modified, self.times.live)
            && !is_past(self.clock, accessed, self.times.idle)
    }

    /// Whether the record is there, and visible.
    fn shows(&self, record: Option<Record>) -> bool {
        match record {
            Some(record) => self.is_visible(record),
            None => false,
        }
    }

    /// What a call answers that is polled whole.
    fn answer(&mut self, begin: Begin) -> Seen {
        self.last = self.last.wrapping_add(1);
        match begin {
            Begin::Get(key) => Seen::Found(self.get(key)),
            Begin::Insert(key, value) => self.insert(key, value),
            Begin::Invalidate(key) => self.invalidate(key),
            Begin::Remove(key) => Seen::Found(self.remove(key)),
            Begin::Evict(key, stamp) => self.evict(key, stamp),
            Begin::InvalidateAll => self.invalidate_all(),
        }
    }

    fn get(&mut self, key: u32) -> Option<u32> {
        match self.record(key) {
            Some(record) if self.is_visible(record) => {
                self.access(record.stamp);
                Some(record.value)
            }
            _ => None,
        }
    }

    fn insert(&mut self, key: u32, value: u32) -> Seen {
        let record = Record {
            value,
            stamp: self.last,
            modified: self.clock,
        };
        self.access(record.stamp);
        self.store(key, Some(record));
        Seen::Done
    }

    fn invalidate(&mut self, key: u32) -> Seen {
        self.store(key, None);
        Seen::Done
    }

    /// Takes out the record, also one that no look shows.
    fn remove(&mut self, key: u32) -> Option<u32> {
        let found = self.record(key);
        self.store(key, None);
        match found {
            Some(record) => Some(record.value),
            None => None,
        }
    }

    fn evict(&mut self, key: u32, stamp: u64) -> Seen {
        match self.record(key) {
            Some(record) if record.stamp == stamp && self.times.is_bounded => {
                self.store(key, None);
                Seen::Evicted
            }
            _ => Seen::Kept,
        }
    }

    fn invalidate_all(&mut self) -> Seen {
        self.valid_since = self.clock;
        Seen::Done
    }

    /// A walk is started in the place of one that has ended.
    fn begins(&mut self, seen: Seen) -> bool {
        self.last = self.last.wrapping_add(1);
        let walk = Walk::new(self.last, Stand::Begun);
        for place in 0..WALKS {
            if self.walks[place].stand == Stand::Gone {
                self.walks[place] = walk;
                return seen == Seen::Call(self.last);
            }
        }
        false
    }

    /// The place of the walk of this number; the first one where there is none.
    fn place_of(&self, call: u64) -> usize
        ensures { result < 4 }
    {
        for place in 0..WALKS {
            if self.walks[place].call == call {
                return place;
            }
        }
        0
    }

    /// The walk has made a step, or more if it was polled.
    fn walk_moves(&mut self, call: u64, seen: Seen, is_polled: bool) -> bool {
        let place = self.place_of(call);
        let walk = self.walks[place];
        if walk.stand == Stand::Gone {
            return seen == Seen::UnknownCall;
        }
        let (mut next, is_right) = self.moved(self.entered(walk), seen, is_polled);
        let records = self.records;
        next.seen = records;
        self.walks[place] = next;
        is_right
    }

    /// With its first step a walk has to give each key that is visible then, if it stays so.
    fn entered(&self, mut walk: Walk) -> Walk {
        if walk.stand == Stand::Begun {
            let records = self.records;
            walk.first = records;
            for place in 0..8usize {
                walk.must[place] = self.shows(self.records[place]);
            }
        }
        walk
    }

    /// The walk after its reply, and whether that is right.
    fn moved(&self, walk: Walk, seen: Seen, is_polled: bool) -> (Walk, bool) {
        match seen {
            Seen::Going => {
                let mut walk = walk;
                walk.stand = Stand::Between;
                (walk, !is_polled)
            }
            Seen::Item(key, value) => self.gave(walk, key, value, is_polled),
            Seen::End => {
                let mut walk = walk;
                walk.stand = Stand::Gone;
                (walk, !walk.owes())
            }
            _ => (walk, false),
        }
    }

    /// The walk has given this record. A step that gives one follows its look; a poll may have made
    /// that look, too.
    fn gave(&self, mut walk: Walk, key: u32, value: u32, is_polled: bool) -> (Walk, bool) {
        let place = (key % KEYS) as usize;
        let looked = walk.stand == Stand::Between && self.is_shown(walk.seen[place], value);
        let is_found = looked || (is_polled && self.is_shown(self.records[place], value));
        let is_new = key < KEYS && !walk.given[place];
        walk.given[place] = true;
        walk.must[place] = false;
        walk.stand = Stand::AtItem;
        (walk, is_new && is_found)
    }

    /// Whether the record is one of this value, and visible.
    fn is_shown(&self, record: Option<Record>, value: u32) -> bool {
        match record {
            Some(record) => record.value == value && self.is_visible(record),
            None => false,
        }
    }

    /// A walk can be dropped but for between two steps.
    fn drops(&mut self, call: u64, seen: Seen) -> bool {
        let place = self.place_of(call);
        let stand = self.walks[place].stand;
        match stand {
            Stand::Gone => seen == Seen::UnknownCall,
            Stand::Between => seen == Seen::NotParked,
            _ => {
                self.walks[place].stand = Stand::Gone;
                seen == Seen::Dropped
            }
        }
    }

    /// A walk need not give a key that is gone, nor one whose record of its first step is hidden.
    fn narrow(&mut self) {
        for walk in 0..WALKS {
            for place in 0..8usize {
                let first = self.walks[walk].first[place];
                let stays = self.records[place].is_some() && self.shows(first);
                if !stays {
                    self.walks[walk].must[place] = false;
                }
            }
        }
    }
}
