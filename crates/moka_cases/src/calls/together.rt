//! Many calls at once, and the map that they are to agree with.

use crate::calls::memory::{Made, Memory};
use crate::numbers::Numbers;
use moka_calls::{Decision, TableCall};
use moka_growth::CallKind;
use moka_words::{Access, Choice, Word};
use std::alloc::{AllocError, Global};

/// No more calls than these are under way.
const MOST_CALLS: usize = 10;

/// Keys from here on are stored at first, and stay.
const FIRST_STEADY: u64 = 100;

const STEADY: u64 = 4;

/// A call under way.
#[derive(Drop)]
struct Running {
    call: TableCall,
    kind: CallKind,
    key: u64,
    choice: Choice,
}

/// A segment with its calls, and std's map of the nodes that are present.
#[derive(Drop)]
pub struct Crowd {
    alloc: Global,
    memory: Memory,
    map: Numbers,
    running: Vec<Running>,
    spread: u64,
}

impl Crowd {
    /// A root of so many words; the hash of a key is the key so many times.
    pub fn new(alloc: Global, size: usize, spread: u64) -> Result<Self, AllocError> {
        Ok(Crowd {
            alloc,
            memory: Memory::with_root(alloc, size)?,
            map: Numbers::new(alloc),
            running: Vec::new(alloc),
            spread,
        })
    }

    pub fn running(&self) -> usize {
        self.running.len()
    }

    /// Stores the keys that stay.
    pub fn store_steady(&mut self) -> Result<(), AllocError> {
        for key in 0..STEADY {
            self.begin(CallKind::Insert, FIRST_STEADY + key)?;
            for _ in 0..1_000 {
                let _ = self.step(0)?;
            }
        }
        Ok(())
    }

    /// A call begins, unless there are too many.
    pub fn begin(&mut self, kind: CallKind, key: u64) -> Result<(), AllocError> {
        if self.running.len() >= MOST_CALLS {
            return Ok(());
        }
        let hash = key.wrapping_mul(self.spread);
        let choice = match kind {
            CallKind::Insert => Choice::Put {
                node: self.memory.add_node(key, hash)?,
            },
            _ => Choice::Remove,
        };
        self.running.push(Running {
            call: TableCall::new(self.alloc, kind, hash),
            kind,
            key,
            choice,
        })?;
        Ok(())
    }

    /// Makes one step of one call. Tells whether all is well: the segment is sound and has the
    /// nodes of the map, and a call that ended answered as the map.
    pub fn step(&mut self, chosen: u64) -> Result<bool, AllocError> {
        let count = self.running.len();
        if count == 0 {
            return Ok(true);
        }
        let mut one = self.running.swap_remove(chosen as usize % count);
        let answered = self.advance(&mut one);
        if one.call.decided().is_none() {
            self.running.push(one)?;
        } else {
            drop(one);
        }
        Ok(answered? && self.memory.is_sound() && self.has_map())
    }

    // Makes one step of the call, and its choice where it asks for one. Tells whether the step was
    // made, and the call, if it ended, answered as the map.
    fn advance(&mut self, one: &mut Running) -> Result<bool, AllocError> {
        if self.memory.step(&mut one.call, one.key, one.choice)? != Made::Step {
            return Ok(false);
        }
        if is_asking(&one.call) {
            let _ = self.memory.step(&mut one.call, one.key, one.choice)?;
        }
        match one.call.decided() {
            None => Ok(true),
            Some(decision) => answers(&mut self.map, &self.memory, one, decision),
        }
    }

    // Whether the root stores the nodes of the map, and no others.
    fn has_map(&self) -> bool {
        let mut count: usize = 0;
        for word in self.memory.root_words() {
            if let Word::Live(node) | Word::SealedLive(node) = *word {
                let key = self.memory.key_of(node).unwrap_or(u64::MAX);
                if self.map.get(key) != Some(node) {
                    return false;
                }
                count = count.wrapping_add(1);
            }
        }
        count == self.map.len() && count as u64 == self.memory.len()
    }
}

fn is_asking(call: &TableCall) -> bool {
    if call.decided().is_some() {
        return false;
    }
    matches!(call.want(), Access::Choose { .. })
}

// Whether the call ended as one of the map does at this moment.
fn answers(
    map: &mut Numbers,
    memory: &Memory,
    one: &Running,
    decision: &Decision,
) -> Result<bool, AllocError> {
    let before = map.get(one.key);
    match decision {
        Decision::Kept { present } => {
            Ok(one.kind != CallKind::Insert && *present == before && kept(one.kind, before))
        }
        Decision::Changed { present } => {
            change(map, one)?;
            Ok(*present == before)
        }
        Decision::Nodes(nodes) => lists(memory, nodes.as_slice()),
    }
}

// A removal keeps nothing that is present.
fn kept(kind: CallKind, before: Option<u64>) -> bool {
    kind == CallKind::Get || before.is_none()
}

fn change(map: &mut Numbers, one: &Running) -> Result<(), AllocError> {
    match one.choice {
        Choice::Put { node } => map.insert(one.key, node),
        _ => {
            map.remove(one.key);
            Ok(())
        }
    }
}

// Whether no key is listed twice, and each that stays is listed.
fn lists(memory: &Memory, nodes: &[u64]) -> Result<bool, AllocError> {
    let mut keys = Numbers::new(memory.alloc());
    let listed = list_once(&mut keys, memory, nodes);
    let all_listed = has_steady(&keys);
    drop(keys);
    Ok(listed? && all_listed)
}

// Lists the keys of the nodes, up to one that is listed by then. Whether there was none.
fn list_once(keys: &mut Numbers, memory: &Memory, nodes: &[u64]) -> Result<bool, AllocError> {
    for node in nodes {
        let key = memory.key_of(*node).unwrap_or(u64::MAX);
        if keys.has(key) {
            return Ok(false);
        }
        keys.insert(key, *node)?;
    }
    Ok(true)
}

fn has_steady(keys: &Numbers) -> bool {
    for key in 0..STEADY {
        if !keys.has(FIRST_STEADY + key) {
            return false;
        }
    }
    true
}
