//! What the command line asks for.

use crate::works::{Job, Work};
use std::{env, io};

/// The keys of a burst's end, and of most works.
const FEW_KEYS: u64 = 1000;

/// The keys that are looked up.
const MANY_KEYS: u64 = 100_000;

/// The words of the command line: a peer, a work, how many calls, how many threads, how many keys,
/// and a way.
#[derive(Drop)]
pub(crate) struct Asked {
    words: Vec<String>,
}

impl Asked {
    /// Reads the command line.
    pub(crate) fn read(rt: &HostRuntime) -> io::Result<Asked> {
        let mut words = Vec::new(rt.alloc());
        for word in env::args(rt)?.skip(1) {
            words.push(word)?;
        }
        Ok(Asked { words })
    }

    /// Whether there is such a job, and it is asked for.
    pub(crate) fn is_job(&self, job: Job) -> bool {
        job.is_made()
            && self.is_asked(0, job.peer.name())
            && self.is_asked(1, job.work.name())
            && (!job.work.has_ways() || self.is_asked(5, job.way.name()))
    }

    /// How many calls are made.
    pub(crate) fn calls(&self) -> u64 {
        self.number(2).unwrap_or(1000)
    }

    /// How many threads share them.
    pub(crate) fn threads(&self) -> u64 {
        self.number(3).unwrap_or(1).max(1)
    }

    /// How many of them each thread makes.
    pub(crate) fn share(&self) -> u64 {
        self.calls().checked_div(self.threads()).unwrap_or(0)
    }

    /// How many keys the work is made on.
    pub(crate) fn keys_of(&self, work: Work) -> u64 {
        if work.is_get() {
            return self.number(4).unwrap_or(MANY_KEYS);
        }
        self.few_keys()
    }

    /// How many keys are stored once a burst is over.
    pub(crate) fn few_keys(&self) -> u64 {
        self.number(4).unwrap_or(FEW_KEYS)
    }

    /// Whether the word that stands there is this one, or asks for each.
    fn is_asked(&self, place: usize, word: &str) -> bool {
        match self.words.get(place) {
            Some(asked) => asked.as_str() == "all" || asked.as_str() == word,
            None => true,
        }
    }

    /// The number that stands there, if one does.
    fn number(&self, place: usize) -> Option<u64> {
        match self.words.get(place) {
            Some(word) => word.as_str().parse::<u64>().ok(),
            None => None,
        }
    }
}
