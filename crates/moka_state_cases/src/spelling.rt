//! Keys that are equal and not the same: which of them a call is told, and which it answers.
ghost use Rattle.std.specs.Prelude.{nat_eq, IsOk};
ghost use Rattle.std.specs.Hash as fed;
ghost use Rattle.std.specs.Ordering.{on};
ghost use Rattle.std.specs.Cmp.Rules.{comparing, hashing};
ghost use Rattle.std.proofs.Common.{rules};

use futures::task::{Context, Poll};
use moka_cache::{Cache, Compute};
use moka_cache_runs::asks::Asks;
use moka_cache_runs::inits::{Act, After, op_of};
use moka_cache_runs::run::run;
use moka_hist::{CompResult, Entry, Op};
use moka_values::Exact;
use std::alloc::AllocGlobal;
use std::cell::Cell;
use std::hash::{Hash, Hasher};
use std::io;
use std::random::RandomSource;
use std::sync::Wait;
use std::test::Fail;

// A letter. Those of one number are equal, capital or not.
#[derive(Clone, Copy, Debug)]
struct Letter {
    number: u32,
    spelled: char,
}

impl Exact for Letter {
    ghost exact = { Prim.search rules };
}

impl PartialEq for Letter {
    ghost eq = { on (λ letter. letter.number) nat_eq };

    ghost laws = { Prim.search (comparing, rules) };

    fn eq(&self, other: &Letter) -> bool {
        self.number == other.number
    }
}

impl Eq for Letter {
    ghost laws = { Prim.search (comparing, rules) };
}

impl Hash for Letter {
    ghost hash_input = { λ letter. fed.u32 letter.number };

    ghost respects_eq = { Prim.search (hashing, rules) };

    fn hash<H: Hasher>(&self, state: &mut H) {
        state.write_u32(self.number);
    }
}

type Letters = Cache<Letter, u32, u32>;

const SMALL: Letter = Letter {
    number: 1,
    spelled: 'a',
};

const CAPITAL: Letter = Letter {
    number: 1,
    spelled: 'A',
};

// How the key of an entry is spelled, and its value: `.` where it has no key.
fn of_entry(entry: &Entry<Letter, u32>) -> (char, u32) {
    match entry.key {
        Some(key) => (key.spelled, entry.value),
        None => ('.', entry.value),
    }
}

// How the key of what a compute answers is spelled, and its value: `.` where it has no key, and the
// value 0 where there is none.
fn of_done(done: &CompResult<Letter, u32>) -> (char, u32) {
    match done {
        CompResult::Inserted(entry) => of_entry(entry),
        CompResult::ReplacedWith(entry) => of_entry(entry),
        CompResult::Removed(entry) => of_entry(entry),
        CompResult::Unchanged(entry) => of_entry(entry),
        CompResult::StillNone(key) => (key.spelled, 0),
    }
}

// Does an act, and keeps how the key is spelled that it was started with.
#[derive(Drop)]
struct Notes<'a> {
    act: Act,
    found: &'a Cell<char>,
}

impl Compute<Letter, u32, u32> for Notes<'_> {
    ghost gives = { λ notes r. IsOk r };

    fn start(&mut self, found: Option<&Entry<Letter, u32>>) {
        match found {
            Some(entry) => self.found.set(of_entry(entry).0),
            None => self.found.set('.'),
        }
    }

    fn poll(&mut self, _cx: &mut Context<'_>) -> Poll<Result<Op<u32>, u32>> {
        Poll::Ready(Ok(op_of(self.act)))
    }
}

// Stores the value where there is none, and tells of the entry.
fn or_insert<'a, R: Wait + RandomSource + AllocGlobal>(
    rt: &'a R,
    cache: &'a Letters,
    key: Letter,
    value: u32,
) -> io::Result<(char, u32)> {
    let stored: Entry<Letter, u32> = run(rt, cache.entry(key).or_insert(value))?;
    Ok(of_entry(&stored))
}

// Loads the value where there is none, and tells of the entry.
fn or_load<'a, R: Wait + RandomSource + AllocGlobal>(
    rt: &'a R,
    cache: &'a Letters,
    key: &'a Letter,
    init: After<'a>,
) -> io::Result<Option<(char, u32)>> {
    match run(rt, cache.entry_by_ref(key).or_insert_with(init))? {
        Ok(entry) => Ok(Some(of_entry(&entry))),
        Err(_) => Ok(None),
    }
}

// Does an act, and tells of what it was started with and of its answer.
fn does<'a, R: Wait + RandomSource + AllocGlobal>(
    rt: &'a R,
    cache: &'a Letters,
    key: Letter,
    act: Act,
    found: &'a Cell<char>,
) -> io::Result<(char, (char, u32))> {
    let done = run(rt, cache.entry(key).and_compute_with(Notes { act, found }))?;
    Ok((found.get(), of_done(&done)))
}

#[test]
fn an_entry_has_the_selectors_key(rt: HostRuntime) -> Result<(), Fail> {
    let cache: Letters = Cache::new(rt.alloc(), 100)?;
    let asks = Asks::new();
    for (key, spelled) in [(SMALL, 'a'), (CAPITAL, 'A')] {
        let init = After::polls(1, 6, &asks);
        assert_eq!(rt; or_insert(&rt, &cache, key, 5)?, (spelled, 5));
        assert_eq!(rt; or_load(&rt, &cache, &key, init)?, Some((spelled, 5)));
    }
    Ok(())
}

#[test]
fn a_compute_is_told_the_stored_key(rt: HostRuntime) -> Result<(), Fail> {
    let cache: Letters = Cache::new(rt.alloc(), 100)?;
    let found = Cell::new('?');
    let cases = [
        (SMALL, Act::Put(5), ('.', ('a', 5))),
        (CAPITAL, Act::Nop, ('a', ('A', 5))),
        (CAPITAL, Act::Put(6), ('a', ('A', 6))),
        (SMALL, Act::Remove, ('A', ('a', 6))),
        (CAPITAL, Act::Remove, ('.', ('A', 0))),
    ];
    for (key, act, want) in cases {
        let told = does(&rt, &cache, key, act, &found)?;
        assert_eq!(rt; told, want);
    }
    Ok(())
}
