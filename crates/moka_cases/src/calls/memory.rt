//! A memory of one segment, whose calls are driven by hand.

ghost use Rattle.std.specs.Prelude.{IfOk};
ghost use Rattle.moka_words.specs.declared.accesses.Access.TheVariants as access;
ghost use Rattle.moka_calls.specs.Standing.{IsSize, MaySee};

use moka_calls::TableCall;
use moka_words::{Access, Choice, Seen, Word};
use std::alloc::{AllocError, Global};

/// What a call did: a choice belongs to the step before it.
#[derive(Clone, Copy, PartialEq, Eq, Debug)]
pub enum Made {
    Nothing,
    Choice,
    Step,
}

/// Arrays by number, in the order in which they were linked, and nodes by number, with the keys and
/// the hashes that they have.
#[derive(Drop)]
pub struct Memory {
    alloc: Global,
    arrays: Vec<Vec<Word>>,
    tombstones: Vec<u64>,
    rooted: usize,
    len: u64,
    nodes: Vec<(u64, u64)>,
}

impl Memory {
    pub fn new(alloc: Global) -> Self {
        Memory {
            alloc,
            arrays: Vec::new(alloc),
            tombstones: Vec::new(alloc),
            rooted: 0,
            len: 0,
            nodes: Vec::new(alloc),
        }
    }

    /// One whose root has so many empty words.
    pub fn with_root(alloc: Global, size: usize) -> Result<Self, AllocError> {
        let mut memory = Memory::new(alloc);
        memory.arrays.push(vec![in alloc; Word::Empty; size]?)?;
        memory.tombstones.push(0)?;
        memory.rooted = 1;
        Ok(memory)
    }

    /// A new node.
    pub fn add_node(&mut self, key: u64, hash: u64) -> Result<u64, AllocError> {
        let number = self.nodes.len() as u64;
        self.nodes.push((key, hash))?;
        Ok(number)
    }

    pub fn key_of(&self, node: u64) -> Option<u64> {
        self.nodes.get(node as usize).map(|pair| pair.0)
    }

    pub fn len(&self) -> u64 {
        self.len
    }

    pub fn alloc(&self) -> Global {
        self.alloc
    }

    /// The words of the root.
    pub fn root_words(&self) -> &[Word] {
        match self.root() {
            None => &[],
            Some(array) => self.words(array),
        }
    }

    /// Makes the next access of the call, if it has not ended.
    pub fn step(
        &mut self,
        call: &mut TableCall,
        key: u64,
        choice: Choice,
    ) -> Result<Made, AllocError> {
        if call.decided().is_some() {
            return Ok(Made::Nothing);
        }
        let access = call.want();
        let seen = self.see(access, key, choice)?;
        call.take(seen)?;
        match access {
            Access::Choose { .. } => Ok(Made::Choice),
            _ => Ok(Made::Step),
        }
    }

    fn see(&mut self, access: Access, key: u64, choice: Choice) -> Result<Seen, AllocError>
        ensures { IfOk result (MaySee access) }
    {
        match access {
            Access::LoadRoot => self.load_root(),
            Access::LoadWord { array, index } => Ok(self.load_word(array, index, key)),
            Access::Choose { .. } => Ok(Seen::Chosen(choice)),
            Access::Exchange {
                array,
                index,
                from,
                to,
            } => Ok(Seen::Exchanged(self.exchange(array, index, from, to))),
            Access::LoadNext { array } => self.load_next(array),
            Access::Link { array, length } => self.link(array, length),
            Access::Copy { array, index, to } => {
                self.copy(array, index, to);
                Ok(Seen::Copied)
            }
            Access::Swing { from, .. } => {
                self.swing(from);
                Ok(Seen::Swung)
            }
        }
    }

    fn root(&self) -> Option<u64> {
        if self.rooted == 0 {
            None
        } else {
            Some((self.rooted - 1) as u64)
        }
    }

    fn words(&self, array: u64) -> &[Word] {
        match self.arrays.get(array as usize) {
            None => &[],
            Some(words) => words.as_slice(),
        }
    }

    fn word(&self, array: u64, index: usize) -> Word {
        match self.words(array).get(index) {
            None => Word::Unset,
            Some(word) => *word,
        }
    }

    fn set(&mut self, array: u64, index: usize, to: Word) {
        if let Some(words) = self.arrays.get_mut(array as usize) {
            if let Some(word) = words.get_mut(index) {
                *word = to;
            }
        }
    }

    fn load_root(&self) -> Result<Seen, AllocError>
        ensures { IfOk result (MaySee access.LoadRoot) }
    {
        let Some(array) = self.root() else {
            return Ok(Seen::Root {
                array: None,
                length: 0,
                tombstones: 0,
                len: self.len,
            });
        };
        let length = size_of(self.words(array))?;
        Ok(Seen::Root {
            array: Some(array),
            length,
            tombstones: self.tombstones.get(array as usize).copied().unwrap_or(0),
            len: self.len,
        })
    }

    fn load_word(&self, array: u64, index: usize, key: u64) -> Seen
        ensures { MaySee (access.LoadWord array index) result }
    {
        let word = self.word(array, index);
        let (own, hash) = match node_of(word) {
            None => (None, 0),
            Some(node) => match self.nodes.get(node as usize) {
                None => (None, 0),
                Some(pair) => (Some(pair.0), pair.1),
            },
        };
        Seen::Word {
            word,
            hash,
            same: own == Some(key),
        }
    }

    // Counts what it exchanges.
    fn exchange(&mut self, array: u64, index: usize, from: Word, to: Word) -> Option<Word> {
        let met = self.word(array, index);
        if met != from {
            return Some(met);
        }
        self.set(array, index, to);
        match (from, to) {
            (Word::Live(_), Word::Tomb(_)) => {
                self.len = self.len.wrapping_sub(1);
                if let Some(count) = self.tombstones.get_mut(array as usize) {
                    *count = count.wrapping_add(1);
                }
            }
            (Word::Empty | Word::Tomb(_), Word::Live(_)) => self.len = self.len.wrapping_add(1),
            _ => {}
        }
        None
    }

    fn load_next(&self, array: Option<u64>) -> Result<Seen, AllocError>
        ensures { IfOk result (MaySee (access.LoadNext array)) }
    {
        let next = place_after(array);
        if next < self.arrays.len() {
            let length = size_of(self.words(next as u64))?;
            return Ok(Seen::Next {
                array: Some(next as u64),
                length,
            });
        }
        Ok(Seen::Next {
            array: None,
            length: 0,
        })
    }

    fn link(&mut self, array: Option<u64>, length: usize) -> Result<Seen, AllocError>
        ensures { IfOk result (MaySee (access.Link array length)) }
    {
        let next = place_after(array);
        if next == self.arrays.len() {
            self.arrays.push(vec![in self.alloc; Word::Unset; length]?)?;
            self.tombstones.push(0)?;
        }
        let length = size_of(self.words(next as u64))?;
        Ok(Seen::Linked {
            array: next as u64,
            length,
        })
    }

    fn copy(&mut self, array: u64, index: usize, to: Word) {
        if self.word(array, index) == Word::Unset {
            self.set(array, index, to);
        }
    }

    fn swing(&mut self, from: Option<u64>) {
        if self.root() == from {
            self.rooted = self.rooted.wrapping_add(1);
        }
    }

    /// Whether the array before the root is sealed, the root has no unset word, and at most one
    /// array has not been root.
    pub fn is_sound(&self) -> bool {
        let left = self.rooted.saturating_sub(2);
        let sealed = self.rooted < 2 || self.words(left as u64).iter().all(|word| is_sealed(*word));
        let set = self.root_words().iter().all(|word| *word != Word::Unset);
        sealed && set && self.arrays.len() <= self.rooted.wrapping_add(1)
    }
}

fn place_after(array: Option<u64>) -> usize {
    match array {
        None => 0,
        Some(array) => (array as usize).wrapping_add(1),
    }
}

// Its length, which is a power of two.
fn size_of(words: &[Word]) -> Result<usize, AllocError>
    ensures { IfOk result IsSize }
{
    if words.len() > 1 << 60 {
        return Err(AllocError);
    }
    let size = words.len().next_power_of_two();
    if size == words.len() {
        Ok(size)
    } else {
        Err(AllocError)
    }
}

fn is_sealed(word: Word) -> bool {
    matches!(
        word,
        Word::SealedEmpty | Word::SealedLive(_) | Word::SealedTomb(_)
    )
}

fn node_of(word: Word) -> Option<u64> {
    match word {
        Word::Live(node) | Word::SealedLive(node) => Some(node),
        Word::Tomb(node) | Word::SealedTomb(node) => Some(node),
        _ => None,
    }
}
