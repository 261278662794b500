//! What the scenario is played with, and what it told.

use crate::deeds::{Deed, Line, Way};
use crate::heard::{Board, NotingListener};
use crate::scenario::lines;
use crate::tasks::{Alone, Beside, Numbers};
use crate::turns::Pair;
use moka_cache::CacheBuilder;
use moka_cache_runs::asks::{Asks, NOBODY, Told};
use moka_cache_runs::calls::OfKey::Insert;
use moka_cache_runs::calls::{Call, Caller, Group, Kind};
use moka_cache_runs::replies::Reply;
use std::alloc::{AllocError, AllocGlobal, Global};
use std::io;
use std::random::RandomSource;
use std::sync::{Arc, Wait};

/// How often it is asked whether a key is there, where no memory is found.
const TRIES: u32 = 1000;

/// The cache, its listener's board, the tasks of its calls, and what the lines told so far, in room
/// that was made before.
#[derive(Drop)]
pub(crate) struct Stage {
    cache: Numbers,
    board: Arc<Board, Global>,
    tasks: Pair,
    way: Way,
    lines: &'static [Line],
    told: Vec<(Told, Told)>,
}

/// Makes an empty cache that this listener hears. No time is set, so memory alone may be wanting.
fn heard_by(alloc: Global, listener: NotingListener) -> Result<Numbers, AllocError> {
    match CacheBuilder::new(1000)
        .eviction_listener(listener)
        .build(alloc)
    {
        Ok(cache) => Ok(cache),
        Err(_) => Err(AllocError),
    }
}

impl Stage {
    /// Takes all memory that is not the calls'.
    pub(crate) fn build<R: RandomSource + AllocGlobal>(rt: &R, way: Way) -> io::Result<Stage> {
        let lines = lines(way);
        let told = Vec::with_capacity(rt.alloc(), lines.len())?;
        let tasks = Pair::new(rt)?;
        let board = Board::new(rt.alloc())?;
        let listener = NotingListener {
            board: Arc::try_clone(&board)?,
        };
        let cache = heard_by(rt.alloc(), listener)?;
        Ok(Stage {
            cache,
            board,
            tasks,
            way,
            lines,
            told,
        })
    }

    /// Does what each line says, and notes what that told.
    pub(crate) fn play<R: Wait + RandomSource + AllocGlobal>(&mut self, rt: &R) {
        for line in self.lines {
            let told = self.told_by(rt, &line.1).unwrap_or((NOBODY, NOBODY));
            let _ = self.told.push(told);
        }
    }

    // What the deed told of its call, and of the one beside it.
    fn told_by<R: Wait + RandomSource + AllocGlobal>(
        &self,
        rt: &R,
        deed: &Deed,
    ) -> io::Result<(Told, Told)> {
        match deed {
            Deed::One(call) => Ok((self.made(rt, self.way, call)?, NOBODY)),
            Deed::Whole(call) => Ok((self.made(rt, Way::Whole, call)?, NOBODY)),
            Deed::Both(call, other) => self.beside(rt, u64::MAX, call, other),
            Deed::Dropping(pends, call, other) => self.beside(rt, *pends, call, other),
            Deed::Fill(first, count) => Ok((self.filled(rt, *first, *count)?, NOBODY)),
            Deed::Has(key) => Ok((self.has(rt, key), NOBODY)),
        }
    }

    // What a call told that was made alone, in this way.
    fn made<R: Wait + RandomSource + AllocGlobal>(
        &self,
        rt: &R,
        way: Way,
        call: &Call,
    ) -> io::Result<Told> {
        let asks = Asks::new();
        let caller = Caller {
            rt,
            cache: &self.cache,
            asks: &asks,
        };
        let alone = Alone {
            tasks: &self.tasks,
            way,
        };
        let (reply, _) = caller.make(call, alone)?;
        Ok(asks.told(reply))
    }

    // What two calls told that were made at once. Of kinds that the scenario doesn't pair, nothing.
    fn beside<R: Wait + RandomSource + AllocGlobal>(
        &self,
        rt: &R,
        pends: u64,
        call: &Call,
        other: &Call,
    ) -> io::Result<(Told, Told)> {
        match (call.kind(), other.kind()) {
            (Kind::OfKey(one), Kind::OfKey(kind)) => self.both(rt, pends, call, one, other, kind),
            (Kind::Load(one), Kind::Load(kind)) => self.both(rt, pends, call, one, other, kind),
            (Kind::Compute(one), Kind::Compute(kind)) => {
                self.both(rt, pends, call, one, other, kind)
            }
            _ => Ok((NOBODY, NOBODY)),
        }
    }

    // What two calls of these kinds told that were made at once.
    fn both<R: Wait + RandomSource + AllocGlobal, F: Group, G: Group>(
        &self,
        rt: &R,
        pends: u64,
        call: &Call,
        one: F,
        other: &Call,
        kind: G,
    ) -> io::Result<(Told, Told)> {
        let (first, second) = (Asks::new(), Asks::new());
        let caller = Caller {
            rt,
            cache: &self.cache,
            asks: &first,
        };
        let beside = Beside {
            tasks: &self.tasks,
            way: self.way,
            pends,
            cache: &self.cache,
            asks: &second,
            other,
            kind,
        };
        let (reply, answer) = one.make(&caller, call, beside)?;
        Ok((first.told(reply), second.told(answer)))
    }

    // How many of so many keys from this one on were stored, each by a call of its own.
    fn filled<R: Wait + RandomSource + AllocGlobal>(
        &self,
        rt: &R,
        first: u32,
        count: u32,
    ) -> io::Result<Told> {
        let mut stored: u64 = 0;
        for more in 0..count {
            let key = first.saturating_add(more);
            let told = self.made(rt, self.way, &Call::Own(key, Kind::OfKey(Insert(key))))?;
            if told.0 == Reply::Done {
                stored = stored.saturating_add(1);
            }
        }
        Ok(Told(Reply::Counts(stored, stored), 0, NOBODY.2))
    }

    // Whether the key is there.
    fn has<R: Wait>(&self, rt: &R, key: &u32) -> Told {
        for _ in 0..TRIES {
            if let Ok(is_there) = self.cache.contains_key(rt, key, 0) {
                return Told(Reply::Is(is_there), 0, NOBODY.2);
            }
        }
        NOBODY
    }

    /// Prints what each line told, what the listener heard, and how many entries there are.
    pub(crate) fn print<R: Wait + Print>(&self, rt: &R) -> io::Result<()> {
        for (line, (told, other)) in self.lines.iter().zip(&self.told) {
            print_told(rt, line, told, other)?;
        }
        print_heard(rt, &self.board)?;
        let entries = self.cache.entry_count(rt);
        println!(rt; "entries: {entries}")
    }
}

// Prints what a line told of its call, and of another, if there was one.
fn print_told<R: Print>(rt: &R, line: &Line, told: &Told, other: &Told) -> io::Result<()> {
    let name = line.0;
    match line.1 {
        Deed::Both(..) | Deed::Dropping(..) => {
            println!(rt; "{name}: {told:?}, beside it {other:?}")
        }
        _ => println!(rt; "{name}: {told:?}"),
    }
}

// Prints what the listener heard.
fn print_heard<R: Print>(rt: &R, board: &Board) -> io::Result<()> {
    let told = board.told();
    println!(rt; "heard: {told}")?;
    for place in &board.places {
        if let Some(leaving) = place.get() {
            let (key, value, cause) = (leaving.key, leaving.value, leaving.cause);
            println!(rt; "heard: {key} {value} {cause:?}")?;
        }
    }
    Ok(())
}
