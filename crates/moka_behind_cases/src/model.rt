//! A plain model: pairs in an array, writes in a list.

use crate::calls::Call;
use std::alloc::{AllocError, Global};
use std::collections::VecDeque;

/// A cache before a keeper, as plainly as can be, at four keys. The keeper's calls of some numbers
/// fail, and change nothing.
#[derive(Drop)]
pub struct Model {
    stored: [bool; 4],
    truth: [Option<u32>; 4],
    unsent: VecDeque<u32>,
    calls: u64,
    text: String,
}

/// Whether the keeper's call of this number fails.
pub fn is_failing(call: u64) -> bool {
    call % 5 == 2 || call % 7 == 3
}

impl Model {
    /// Makes one whose keeper has these values.
    pub fn new(alloc: Global, kept: [Option<u32>; 4]) -> Model {
        Model {
            stored: [false; 4],
            truth: kept,
            unsent: VecDeque::new(alloc),
            calls: 0,
            text: String::new(alloc),
        }
    }

    /// The text of its replies, and of how many writes are unsent.
    pub fn text(mut self) -> Result<String, AllocError> {
        let unsent = self.unsent.len();
        write!(self.text, "unsent {unsent}\n")?;
        Ok(self.text)
    }

    /// Carries one call out.
    pub fn carry_out(&mut self, call: Call) -> Result<(), AllocError> {
        match call {
            Call::Set(key, value) => self.write(key, Some(value)),
            Call::Del(key) => self.write(key, None),
            Call::Get(key) => self.get(key),
            Call::Shed => self.shed(),
            Call::Drain => self.drain(),
        }
    }

    fn write(&mut self, key: u32, value: Option<u32>) -> Result<(), AllocError> {
        self.stored[(key % 4) as usize] = value.is_some();
        self.truth[(key % 4) as usize] = value;
        self.unsent.push_back(key)?;
        self.text.push_str("done\n")
    }

    fn fails(&mut self) -> bool {
        let call = self.calls;
        self.calls = call.saturating_add(1);
        is_failing(call)
    }

    fn get(&mut self, key: u32) -> Result<(), AllocError> {
        let own = self.stored[(key % 4) as usize] || self.unsent.contains(&key);
        if !own && self.fails() {
            return self.text.push_str("fault\n");
        }
        let found = self.truth[(key % 4) as usize];
        match found {
            Some(value) => {
                self.stored[(key % 4) as usize] = true;
                write!(self.text, "some {value}\n")
            }
            None => self.text.push_str("none\n"),
        }
    }

    fn shed(&mut self) -> Result<(), AllocError> {
        let count = self.stored.iter().filter(|stored| **stored).count();
        self.stored = [false; 4];
        write!(self.text, "shed {count}\n")
    }

    fn drain(&mut self) -> Result<(), AllocError> {
        let unsent = self.unsent.len();
        for _ in 0..unsent {
            if self.fails() {
                return self.text.push_str("fault\n");
            }
            self.unsent.pop_front();
        }
        write!(self.text, "drained {unsent}\n")
    }
}
