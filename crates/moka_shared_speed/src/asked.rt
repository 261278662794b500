//! What the command line asks for.

use crate::works::Work;
use std::{env, io};

/// What the calls do, how many are made, by how many threads, and for how many keys the table is
/// made.
#[derive(Clone, Copy)]
pub(crate) struct Asked {
    pub(crate) work: Work,
    pub(crate) calls: u64,
    pub(crate) threads: u64,
    pub(crate) keys: u64,
}

impl Asked {
    /// Reads the command line: a work, how many calls, how many threads, how many keys.
    pub(crate) fn read(rt: &HostRuntime) -> io::Result<Asked> {
        let mut asked = Asked {
            work: Work::All,
            calls: 1_048_576,
            threads: 1,
            keys: 1_048_576,
        };
        let mut place = 0u64;
        for word in env::args(rt)? {
            asked.hear(place, word.as_str());
            place = place.wrapping_add(1);
        }
        Ok(asked)
    }

    /// Asks for another work, with as many calls, threads and keys.
    pub(crate) fn with(&self, work: Work) -> Asked {
        Asked { work, ..*self }
    }

    /// The inserts by one thread that fill the table.
    pub(crate) fn filling(&self) -> Asked {
        Asked {
            work: Work::Insert,
            calls: self.keys,
            threads: 1,
            keys: self.keys,
        }
    }

    /// How many of the calls each thread makes.
    pub(crate) fn share(&self) -> u64 {
        self.calls.checked_div(self.threads).unwrap_or(0)
    }

    // Takes in the word at this place. The first is the program's name.
    fn hear(&mut self, place: u64, word: &str) {
        match place {
            1 => self.work = Work::of(word),
            2 => self.calls = number(word, self.calls),
            3 => self.threads = number(word, 1).max(1),
            4 => self.keys = number(word, self.keys),
            _ => {}
        }
    }
}

// The number of the word, or the other one if the word is none.
fn number(word: &str, other: u64) -> u64 {
    word.parse::<u64>().unwrap_or(other)
}
