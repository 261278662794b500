//! What no clause says: how many steps calls make, and that many at once end, by a map's answers.

mod alone;
mod memory;
mod together;

use crate::calls::alone::{Told, run};
use crate::calls::memory::Memory;
use crate::calls::together::Crowd;
use crate::rows::{Wrong, all_right};
use moka_growth::CallKind;
use std::alloc::{AllocError, Global};
use std::test::Fail;

// Found its node, or none, and changed nothing.
fn kept(steps: u32, present: Option<u64>) -> Told {
    Told {
        steps,
        changed: false,
        present,
        nodes: 0,
    }
}

fn changed(steps: u32, present: Option<u64>) -> Told {
    Told {
        steps,
        changed: true,
        present,
        nodes: 0,
    }
}

// Changed nothing, and listed so many nodes.
fn listed(steps: u32, nodes: usize) -> Told {
    Told {
        steps,
        changed: false,
        present: None,
        nodes,
    }
}

// Calls, one after the other, each with its key, which is its hash, and what it tells.
fn first_mistold(alloc: Global, memory: &mut Memory) -> Wrong {
    let cases = [
        (CallKind::Get, 1, kept(1, None)),
        (CallKind::Remove, 1, kept(1, None)),
        (CallKind::Keys, 0, kept(1, None)),
        (CallKind::Insert, 1, changed(135, None)),
        (CallKind::Get, 1, kept(2, Some(0))),
        (CallKind::Insert, 1, changed(3, Some(0))),
        (CallKind::Keys, 0, listed(129, 1)),
        (CallKind::Remove, 1, changed(3, Some(1))),
        (CallKind::Get, 1, kept(2, None)),
    ];
    for place in 0..cases.len() {
        let (kind, key, want) = cases[place];
        if run(alloc, memory, kind, key, key)? != want {
            return Ok(Some(place as u64));
        }
    }
    Ok(None)
}

#[test]
fn steps_of_calls_to_an_empty_segment(rt: HostRuntime) {
    let mut memory = Memory::new(rt.alloc());
    let mistold = first_mistold(rt.alloc(), &mut memory);
    drop(memory);
    all_right(&rt, mistold);
}

// Calls of this kind under the keys from one to below another, one after the other. The hash of a
// key is the key so many times.
fn run_all(
    alloc: Global,
    memory: &mut Memory,
    kind: CallKind,
    keys: (u64, u64),
    spread: u64,
) -> Result<(), AllocError> {
    for key in keys.0..keys.1 {
        let _ = run(alloc, memory, kind, key, key.wrapping_mul(spread))?;
    }
    Ok(())
}

// Whether the 91st key makes so many steps, and then there are 256 words in place of 128. The hash of
// a key is the key so many times.
fn grows(alloc: Global, memory: &mut Memory, spread: u64, steps: u32) -> Result<bool, AllocError> {
    run_all(alloc, memory, CallKind::Insert, (0, 90), spread)?;
    let before = memory.root_words().len();
    let hash = 90u64.wrapping_mul(spread);
    let told = run(alloc, memory, CallKind::Insert, 90, hash)?;
    let after = memory.root_words().len();
    Ok(told == changed(steps, None) && before == 128 && after == 256 && memory.len() == 91)
}

// Whether, in a new memory, the 91st key makes so many steps, and then there are 256 words in place
// of 128.
fn grows_anew(alloc: Global, spread: u64, steps: u32) -> Result<bool, AllocError> {
    let mut memory = Memory::new(alloc);
    let grown = grows(alloc, &mut memory, spread, steps);
    drop(memory);
    grown
}

#[test]
fn the_ninety_first_key_grows_the_array(rt: HostRuntime) -> Result<(), Fail> {
    assert!(rt; grows_anew(rt.alloc(), 1, 519)?);
    assert!(rt; grows_anew(rt.alloc(), 0, 609)?);
    Ok(())
}

// Whether of 20 keys of one hash the 14th removal makes so many steps.
fn clears(alloc: Global, memory: &mut Memory, steps: u32) -> Result<bool, AllocError> {
    run_all(alloc, memory, CallKind::Insert, (0, 20), 0)?;
    run_all(alloc, memory, CallKind::Remove, (0, 13), 0)?;
    let told = run(alloc, memory, CallKind::Remove, 13, 0)?;
    Ok(told == changed(steps, Some(13)) && memory.is_sound())
}

#[test]
fn the_fourteenth_removal_clears_the_tombstones(rt: HostRuntime) {
    let mut memory = Memory::new(rt.alloc());
    let cleared = clears(rt.alloc(), &mut memory, 391);
    drop(memory);
    assert!(rt; matches!(cleared, Ok(true)));
}

// Pseudo-random numbers, by a linear congruence.
fn after(seed: u64) -> u64 {
    seed.wrapping_mul(6364136223846793005)
        .wrapping_add(1442695040888963407)
}

fn kind_of(seed: u64) -> CallKind {
    match (seed >> 56) % 8 {
        0 => CallKind::Get,
        1 => CallKind::Keys,
        2 | 3 | 4 => CallKind::Remove,
        _ => CallKind::Insert,
    }
}

// Stores the keys that stay, begins calls and makes their steps at random from this seed on, and
// then the steps that are left. Gives the seed after the last, and the first turn that isn't right.
fn play(crowd: &mut Crowd, first: u64) -> Result<(u64, Option<u64>), AllocError> {
    crowd.store_steady()?;
    let mut seed = first;
    for turn in 0..4_000u64 {
        seed = after(seed);
        if seed >> 62 == 0 {
            crowd.begin(kind_of(seed), (seed >> 33) % 40)?;
        }
        if !crowd.step((seed >> 20) % 10)? {
            return Ok((seed, Some(turn)));
        }
    }
    Ok((seed, first_wrong_at_the_end(crowd)?))
}

fn first_wrong_at_the_end(crowd: &mut Crowd) -> Result<Option<u64>, AllocError> {
    for turn in 0..40_000u64 {
        if !crowd.step(turn)? {
            return Ok(Some(turn.wrapping_add(4_000)));
        }
    }
    Ok(None)
}

// Plays with a root of so many words, from this seed on; the hash of a key is the key so many times.
// Gives the seed after the last, and whether each turn was right and each call ended.
fn play_anew(
    alloc: Global,
    size: usize,
    spread: u64,
    first: u64,
) -> Result<(u64, bool), AllocError> {
    let mut crowd = Crowd::new(alloc, size, spread)?;
    let played = play(&mut crowd, first);
    let running = crowd.running();
    drop(crowd);
    let (next, wrong) = played?;
    Ok((next, wrong.is_none() && running == 0))
}

// The first of 15 plays that isn't right.
fn misplayed(alloc: Global) -> Wrong {
    let mut seed = 1;
    for case in 0..15u64 {
        let (next, right) = play_anew(alloc, 1 << (case % 5), case / 5, seed)?;
        if !right {
            return Ok(Some(case));
        }
        seed = next;
    }
    Ok(None)
}

#[test]
fn many_calls_at_once_answer_as_the_standard_map(rt: HostRuntime) {
    all_right(&rt, misplayed(rt.alloc()));
}
