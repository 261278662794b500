//! A plain model of calls that are polled whole, at a few keys and numbers.

use crate::acts::{Act, Begin, Came, End};
use moka_hist::Kind;
use moka_polled::Outcome;

/// A load: its key and its kind.
type Load = (u32, Kind);

/// Where a call stands.
#[derive(Clone, Copy, PartialEq, Debug)]
enum Stand {
    Gone,
    Begun(Begin),
    Asks(Load),
    Told(Load, End),
    Waits(u64),
}

/// The value and the stamp under each key; where each call stands; how owners ended.
#[derive(Clone, Copy)]
pub struct Model {
    records: [Option<(u32, u64)>; 4],
    stands: [Stand; 32],
    ends: [Option<End>; 32],
    last: u64,
    bounded: bool,
}

/// Which answers a load of this kind takes.
fn fits(kind: Kind, end: End) -> bool {
    match end {
        End::Value(_) => true,
        End::Nothing => kind == Kind::Optional,
        End::Error(_) => kind == Kind::Try,
    }
}

/// What is answered where a load ended so.
fn outcome_of(end: End, fresh: bool) -> Outcome<u32, u32> {
    match end {
        End::Value(value) => Outcome::Loaded { value, fresh },
        End::Nothing => Outcome::Nothing,
        End::Error(error) => Outcome::Failed(error),
    }
}

impl Model {
    /// Nothing is stored, and no call was started.
    pub fn new(bounded: bool) -> Self {
        Model {
            records: [None; 4],
            stands: [Stand::Gone; 32],
            ends: [None; 32],
            last: 0,
            bounded,
        }
    }

    /// How many calls were started.
    pub fn last(&self) -> u64 {
        self.last
    }

    /// Does it, as `carry_out` does.
    pub fn carry_out(&mut self, act: Act) -> Came {
        match act {
            Act::Start(begin) => Came::Call(self.start(begin)),
            Act::Poll(call) => Came::Polled(self.poll(call)),
            Act::Tell(call, end) => Came::Told(self.tell(call, end)),
            Act::Whole(begin) => Came::Polled(self.start_and_poll(begin)),
        }
    }

    fn start_and_poll(&mut self, begin: Begin) -> Option<Outcome<u32, u32>> {
        let call = self.start(begin);
        self.poll(call)
    }

    fn start(&mut self, begin: Begin) -> u64 {
        self.last = self.last.wrapping_add(1);
        self.stands[(self.last % 32) as usize] = Stand::Begun(begin);
        self.last
    }

    fn tell(&mut self, call: u64, end: End) -> bool {
        let place = (call % 32) as usize;
        let stand = self.stands[place];
        match stand {
            Stand::Asks(load) => {
                let takes = fits(load.1, end);
                if takes {
                    self.stands[place] = Stand::Told(load, end);
                }
                takes
            }
            _ => false,
        }
    }

    fn poll(&mut self, call: u64) -> Option<Outcome<u32, u32>> {
        let stand = self.stands[(call % 32) as usize];
        match stand {
            Stand::Gone => None,
            Stand::Begun(begin) => Some(self.begin(call, begin)),
            Stand::Asks(_) => Some(Outcome::Waits),
            Stand::Told(load, end) => Some(self.end(call, load, end)),
            Stand::Waits(owner) => Some(self.read(call, owner)),
        }
    }

    fn record(&self, key: u32) -> Option<(u32, u64)> {
        self.records[(key % 4) as usize]
    }

    fn value(&self, key: u32) -> Option<u32> {
        match self.record(key) {
            Some((value, _)) => Some(value),
            None => None,
        }
    }

    fn store(&mut self, key: u32, record: Option<(u32, u64)>) {
        self.records[(key % 4) as usize] = record;
    }

    fn stand(&mut self, call: u64, stand: Stand) {
        self.stands[(call % 32) as usize] = stand;
    }

    fn begin(&mut self, call: u64, begin: Begin) -> Outcome<u32, u32> {
        self.stand(call, Stand::Gone);
        match begin {
            Begin::Get(key) => Outcome::Found(self.value(key)),
            Begin::Insert(key, value) => self.insert(call, key, value),
            Begin::GetWith(key) => self.load(call, (key, Kind::GetWith)),
            Begin::Optional(key) => self.load(call, (key, Kind::Optional)),
            Begin::Try(key) => self.load(call, (key, Kind::Try)),
            Begin::OrInsert(key, value) => self.or_insert(call, key, value),
            Begin::Invalidate(key) => self.invalidate(key),
            Begin::Remove(key) => self.remove(key),
            Begin::Evict(key, stamp) => self.evict(key, stamp),
        }
    }

    fn insert(&mut self, call: u64, key: u32, value: u32) -> Outcome<u32, u32> {
        self.store(key, Some((value, call)));
        Outcome::Done
    }

    fn or_insert(&mut self, call: u64, key: u32, value: u32) -> Outcome<u32, u32> {
        match self.value(key) {
            Some(value) => Outcome::Loaded {
                value,
                fresh: false,
            },
            None => {
                self.store(key, Some((value, call)));
                Outcome::Loaded { value, fresh: true }
            }
        }
    }

    fn invalidate(&mut self, key: u32) -> Outcome<u32, u32> {
        self.store(key, None);
        Outcome::Done
    }

    fn remove(&mut self, key: u32) -> Outcome<u32, u32> {
        let found = self.value(key);
        self.store(key, None);
        Outcome::Found(found)
    }

    fn evict(&mut self, key: u32, stamp: u64) -> Outcome<u32, u32> {
        match self.record(key) {
            Some((_, kept)) if kept == stamp && self.bounded => {
                self.store(key, None);
                Outcome::Evicted
            }
            _ => Outcome::Kept,
        }
    }

    fn owner(&self, load: Load) -> Option<u64> {
        let mut owner = None;
        for number in 0..32u64 {
            let stand = self.stands[(number % 32) as usize];
            match stand {
                Stand::Asks(own) if own == load => owner = Some(number),
                Stand::Told(own, _) if own == load => owner = Some(number),
                _ => {}
            }
        }
        owner
    }

    fn waits(&self, owner: u64) -> bool {
        self.stands
            .iter()
            .any(|stand| *stand == Stand::Waits(owner))
    }

    fn load(&mut self, call: u64, load: Load) -> Outcome<u32, u32> {
        match (self.value(load.0), self.owner(load)) {
            (Some(value), _) => Outcome::Loaded {
                value,
                fresh: false,
            },
            (None, Some(owner)) => {
                self.stand(call, Stand::Waits(owner));
                Outcome::Waits
            }
            (None, None) => {
                self.stand(call, Stand::Asks(load));
                Outcome::Asks
            }
        }
    }

    fn end(&mut self, call: u64, load: Load, end: End) -> Outcome<u32, u32> {
        self.stand(call, Stand::Gone);
        if let End::Value(value) = end {
            self.store(load.0, Some((value, call)));
        }
        if self.waits(call) {
            self.ends[(call % 32) as usize] = Some(end);
        }
        outcome_of(end, true)
    }

    fn read(&mut self, call: u64, owner: u64) -> Outcome<u32, u32> {
        let kept = self.ends[(owner % 32) as usize];
        match kept {
            Some(end) => {
                self.stand(call, Stand::Gone);
                if !self.waits(owner) {
                    self.ends[(owner % 32) as usize] = None;
                }
                outcome_of(end, false)
            }
            None => Outcome::Waits,
        }
    }
}
