//! Times inserts, hits and misses of one array of buckets beside those of std's map. Standard output
//! has what was found, standard error the nanoseconds a call.

ghost use Rattle.std.specs.Prelude.{◌≤◌};

use crate::numbers::Numbers;
use std::collections::HashMap;
use std::time::Instant;

/// The power where none is asked for, and the greatest that is taken.
const USUAL: u32 = 20;

const MOST: u32 = 30;

/// Takes two to the power that is asked for of buckets, half of them filled.
pub fn measure(rt: &HostRuntime, power: Option<&String>) -> anyhow::Result<()> {
    let power = power_asked(power);
    let count = (1u64 << power) / 2;
    time_array(rt, power, count)?;
    time_map(rt, count)
}

/// The power of this word, or 20.
fn power_asked(word: Option<&String>) -> u32
    ensures { result ≤ 30 }
{
    match word {
        None => USUAL,
        Some(word) => word.as_str().parse::<u32>().unwrap_or(USUAL).min(MOST),
    }
}

fn time_array(rt: &HostRuntime, power: u32, count: u64) -> anyhow::Result<()>
    requires { power ≤ 30 }
{
    let mut numbers = Numbers::with_power(rt.alloc(), power)?;
    let start = Instant::now(rt)?;
    let stored = fill_array(&mut numbers, count)?;
    told(rt, "array: insert", stored, count, start)?;
    let start = Instant::now(rt)?;
    let hits = found_in_array(&numbers, 0, count);
    told(rt, "array: hit", hits, count, start)?;
    let start = Instant::now(rt)?;
    let misses = found_in_array(&numbers, count, count);
    told(rt, "array: miss", misses, count, start)
}

fn time_map(rt: &HostRuntime, count: u64) -> anyhow::Result<()> {
    let mut map: HashMap<u64, u64> = HashMap::new(rt.alloc());
    let start = Instant::now(rt)?;
    let stored = fill_map(&mut map, count)?;
    told(rt, "map: insert", stored, count, start)?;
    let start = Instant::now(rt)?;
    let hits = found_in_map(&map, 0, count);
    told(rt, "map: hit", hits, count, start)?;
    let start = Instant::now(rt)?;
    let misses = found_in_map(&map, count, count);
    told(rt, "map: miss", misses, count, start)
}

/// Prints how many of the calls found something, and how long they took.
fn told(
    rt: &HostRuntime,
    what: &str,
    found: u64,
    calls: u64,
    start: Instant,
) -> anyhow::Result<()> {
    let nanos = start.elapsed(rt)?.as_nanos();
    println!(rt; "{what} {found}")?;
    let each = nanos / u128::from(calls.max(1));
    eprintln!(rt; "{what}: {each} ns a call")?;
    Ok(())
}

fn fill_array(numbers: &mut Numbers, count: u64) -> anyhow::Result<u64> {
    let mut stored = 0u64;
    for key in 0..count {
        if numbers.insert(key, key)? {
            stored = stored.wrapping_add(1);
        }
    }
    Ok(stored)
}

fn found_in_array(numbers: &Numbers, from: u64, count: u64) -> u64 {
    let mut found = 0u64;
    for key in 0..count {
        if numbers.get(from.wrapping_add(key)).is_some() {
            found = found.wrapping_add(1);
        }
    }
    found
}

fn fill_map(map: &mut HashMap<u64, u64>, count: u64) -> anyhow::Result<u64> {
    let mut stored = 0u64;
    for key in 0..count {
        if map.insert(key, key)?.is_none() {
            stored = stored.wrapping_add(1);
        }
    }
    Ok(stored)
}

fn found_in_map(map: &HashMap<u64, u64>, from: u64, count: u64) -> u64 {
    let mut found = 0u64;
    for key in 0..count {
        if map.get(&from.wrapping_add(key)).is_some() {
            found = found.wrapping_add(1);
        }
    }
    found
}
