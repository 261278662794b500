//! The program: stores keys that fall together under std's fixed seed, or others, in a cache that
//! hashes by that seed or by a random one, to be counted.
//!
//! `moka_hash_speed HASHER KEYS NUMBER` finds so many keys that fall together, by trying. Then it
//! stores these, where KEYS is `together`, or as many others, where it is `apart`, in a cache of
//! the fixed seed, or of a `RandomState`, where HASHER is `random`. With another word of KEYS it
//! stores none. Where HASHER is `each`, it plays calls with them on a cache of the fixed seed and
//! on two of a `RandomState`. Standard output has how many keys were found, and how many were
//! stored, or whether all three caches answered the same.
#![tactic(auto)]

mod answering;
mod keys;
mod storing;

use answering::answers;
use moka_cache::{BuildError, Cache, CacheBuilder, NoListener};
use std::alloc::{AllocGlobal, Global};
use std::hash::RandomState;
use std::process::ExitCode;
use std::random::RandomSource;
use std::sync::Wait;
use std::{env, io};
use storing::store_all;

/// How many keys are found where the command line has no number.
const NUMBER: u64 = 1000;

/// A cache without a capacity that hashes by a random seed.
type Random = Cache<u64, u64, (), NoListener, RandomState>;

fn main(rt: HostRuntime) -> ExitCode {
    let Ok(words) = words(&rt) else {
        return ExitCode::FAILURE;
    };
    match measure(&rt, &words) {
        Ok(()) => ExitCode::SUCCESS,
        Err(_) => ExitCode::FAILURE,
    }
}

/// Finds the keys and stores those that the command line asks for.
fn measure<R: Wait + RandomSource + AllocGlobal + Print>(
    rt: &R,
    words: &Vec<String>,
) -> io::Result<()> {
    let number = match words.get(2) {
        Some(word) => word.as_str().parse::<u64>().unwrap_or(NUMBER),
        None => NUMBER,
    };
    let together = keys::together(rt.alloc(), number)?;
    println!(rt; "found {}", together.len())?;
    let chosen = match word_at(words, 1) {
        "together" => together,
        "apart" => keys::apart(rt.alloc(), number)?,
        _ => Vec::new(rt.alloc()),
    };
    if word_at(words, 0) == "each" {
        let is_alike = answer_alike(rt, chosen.as_slice())?;
        return println!(rt; "alike {is_alike}");
    }
    let stored = store(rt, word_at(words, 0), chosen.as_slice())?;
    println!(rt; "stored {stored}")
}

/// Stores the keys in a cache that hashes as this word says, and tells how many were stored.
fn store<R: Wait + RandomSource + AllocGlobal>(
    rt: &R,
    hasher: &str,
    keys: &[u64],
) -> io::Result<u64> {
    if hasher == "random" {
        let cache = random_cache(rt.alloc(), RandomState::new(rt)?)?;
        return store_all(rt, &cache, keys);
    }
    let cache: Cache<u64, u64> = Cache::new(rt.alloc(), u64::MAX)?;
    store_all(rt, &cache, keys)
}

/// Plays the calls of these keys on a cache of the fixed seed and on two of a `RandomState`, and
/// tells whether all answered the same.
fn answer_alike<R: Wait + RandomSource + AllocGlobal>(rt: &R, keys: &[u64]) -> io::Result<bool> {
    let fixed: Cache<u64, u64> = Cache::new(rt.alloc(), u64::MAX)?;
    let first = random_cache(rt.alloc(), RandomState::new(rt)?)?;
    let second = random_cache(rt.alloc(), RandomState::new(rt)?)?;
    let answered = answers(rt, &fixed, keys)?;
    Ok(answers(rt, &first, keys)? == answered && answers(rt, &second, keys)? == answered)
}

/// Makes an empty cache that hashes by this seed.
fn random_cache(alloc: Global, seed: RandomState) -> Result<Random, BuildError> {
    CacheBuilder::new(u64::MAX).build_with_hasher(alloc, seed)
}

/// The words of the command line after the program's name.
fn words(rt: &HostRuntime) -> io::Result<Vec<String>> {
    let mut words = Vec::new(rt.alloc());
    for word in env::args(rt)?.skip(1) {
        words.push(word)?;
    }
    Ok(words)
}

/// The word that stands there, or an empty one.
fn word_at(words: &Vec<String>, place: usize) -> &str {
    match words.get(place) {
        Some(word) => word.as_str(),
        None => "",
    }
}
