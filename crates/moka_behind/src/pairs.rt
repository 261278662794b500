//! The cache of pairs, each of whose calls is polled to its end before the next one starts.
ghost use Rattle.std.specs.Prelude.{◌≡◌, ℕ, Some, None, true, IfOk, OnOk};
ghost use Rattle.moka_hist.specs.Finite.{put_at};
ghost use Rattle.moka_small.specs.Seen.{answer_of};
ghost use Rattle.moka_small.specs.Small.{is_plain_start};
ghost use Rattle.moka_keepers.specs.Writes.{Pairs, made};
ghost use Rattle.moka_behind.specs.Holding.{Holds, HoldsAsking, IsLoading, IsOpen, IsReady, Runs, start_by};
ghost use Rattle.moka_behind.specs.Looking.{Looks, end_of, looked_by};

use moka_hist::{Start, Told};
use moka_keepers::Write;
use moka_polled::{Outcome, PolledMachine};
use std::alloc::AllocError;

/// A cache of pairs of numbers, none of whose loads ends in an error.
pub(crate) type Cache = PolledMachine<u32, u32, ()>;

/// What a look at a key comes to.
#[derive(Clone, Copy, PartialEq, Eq, Debug)]
pub(crate) enum Looked {
    /// This value is stored.
    Found(u32),
    /// Nothing is stored: the call of this number asks what the key has.
    Asks(u64),
}

/// Makes a write: its value is stored under its key, or nothing is.
pub(crate) fn make(pairs: &mut Cache, write: Write) -> Result<(), AllocError>
    requires { IsReady pairs.old }
    ensures { OnOk result ((ps : Pairs) → Holds pairs.old ps → Holds pairs.new (made ps write)) }
{
    let _done = run(pairs, start_of(write))?;
    Ok(())
}

/// Looks at a key, for a load of it.
pub(crate) fn look(pairs: &mut Cache, key: u32) -> Result<Looked, AllocError>
    requires { IsReady pairs.old }
    ensures { IfOk result (λ looked. (ps : Pairs) → Holds pairs.old ps
        → Looks looked key ps pairs.new) }
{
    let ran = run(pairs, Start::Optional { key })?;
    Ok(looked_of(ran.0, ran.1))
}

/// Tells the call that asks what its key has, and polls it to its end: a value is stored.
pub(crate) fn answer(pairs: &mut Cache, call: u64, found: Option<u32>) -> Result<(), AllocError>
    requires { (key : ℕ) × IsLoading pairs.old call key }
    ensures { OnOk result ((key : ℕ) (ps : Pairs) → HoldsAsking pairs.old call key ps
        → Holds pairs.new (put_at ps key found)) }
{
    pairs.tell(call, told_of(found))?;
    let _end = pairs.poll(call)?;
    Ok(())
}

/// Drops the call that asks.
pub(crate) fn give_up(pairs: &mut Cache, call: u64)
    requires { (key : ℕ) × IsLoading pairs.old call key }
    ensures { (key : ℕ) (ps : Pairs) → HoldsAsking pairs.old call key ps → Holds pairs.new ps }
{
    pairs.drop_call(call);
}

/// Starts a call, and polls it once.
pub(crate) fn run(
    pairs: &mut Cache,
    start: Start<u32, u32>,
) -> Result<(u64, Outcome<u32, ()>), AllocError>
    requires plain { is_plain_start start ≡ true }
    requires stands { IsOpen pairs.old }
    ensures { IfOk result (λ ran. Runs pairs.old start ran.0 ran.1 pairs.new) }
{
    let call = pairs.start(start)?;
    let outcome = pairs.poll(call)?;
    Ok((call, outcome))
}

// How a write starts.
fn start_of(write: Write) -> Start<u32, u32>
    ensures { result ≡ start_by write.key write.value }
{
    match write.value {
        Some(value) => Start::Insert {
            key: write.key,
            value,
        },
        None => Start::Invalidate { key: write.key },
    }
}

// What a look came to.
fn looked_of(call: u64, outcome: Outcome<u32, ()>) -> Looked
    ensures { result ≡ looked_by call outcome }
{
    match outcome {
        Outcome::Loaded { value, .. } => Looked::Found(value),
        _ => Looked::Asks(call),
    }
}

// What a call is told whose load found this.
fn told_of(found: Option<u32>) -> Told<u32, ()>
    ensures { result ≡ answer_of (end_of found) }
{
    match found {
        Some(value) => Told::Value(value),
        None => Told::Nothing,
    }
}
