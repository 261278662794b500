//! Counts by number, of which none is 0.
ghost use Rattle.std.specs.Prelude.{◌<◌, IfOk};

use crate::answers::{Runtime, both};
use futures::future::ready;
use moka_cache::{Cache, CacheBuilder, Fact, FixedSeed, NoListener, value_by};
use moka_hist::Entry;
use std::alloc::Global;
use std::io;

/// The fact of the counts: what was counted is not 0.
struct Counted;

impl Fact<u32, u64> for Counted {
    ghost holds = { λ number value. 0 < value };

    ghost alike = { λ a b value same so. so };
}

/// Counts by their numbers.
type Counts = Cache<u32, u64, (), NoListener, FixedSeed, Counted>;

/// What was found.
type Found<'a> = Option<&'a Entry<u32, u64>>;

/// One more than was found, up to the greatest count.
fn next(found: Found<'_>) -> u64
    ensures { 0 < result }
{
    match found {
        Some(entry) if entry.value < u64::MAX => entry.value + 1,
        Some(_) => u64::MAX,
        None => 1,
    }
}

/// Counts one more of number 1, and answers how many that makes: at least one.
fn count<R: Runtime>(rt: &R, counts: &Counts) -> io::Result<u64>
    ensures { IfOk result (λ n. 0 < n) }
{
    let one_more = value_by(|found: Found<'_>| ready(next(found)));
    let upsert = counts.entry(1).and_upsert_with(one_more);
    Ok(upsert.block_on(rt, 0)?.value)
}

/// Counts one more, two more at once, and one more: of a number's computes one goes at a time, so
/// none is lost.
pub(crate) fn show<R: Runtime>(rt: &R, alloc: Global) -> io::Result<()> {
    let counts: Counts = CacheBuilder::new(100).such::<Counted>().build(alloc)?;
    let first = count(rt, &counts)?;
    let one = value_by(|found: Found<'_>| ready(next(found)));
    let other = value_by(|found: Found<'_>| ready(next(found)));
    let one = counts.entry(1).and_upsert_with(one);
    let _ = both(rt, one, counts.entry(1).and_upsert_with(other))?;
    let last = count(rt, &counts)?;
    println!(rt; "counter: {first}, and {last} after two at once")
}
