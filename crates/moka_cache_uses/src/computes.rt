//! Computes by closures of each kind.

use crate::answers::Runtime;
use futures::future::ready;
use moka_cache::{Cache, op_by, try_op_by};
use moka_hist::{CompResult, Entry, Op};
use std::alloc::Global;
use std::io;

/// How many of an article there are. An error is a reason to sell none.
type Stock = Cache<u32, u64, &'static str>;

/// What was found.
type Found<'a> = Option<&'a Entry<u32, u64>>;

/// One article less, where that leaves any.
fn less(found: Found<'_>) -> Op<u64> {
    match found {
        Some(entry) if entry.value > 1 => Op::Put(entry.value.saturating_sub(1)),
        Some(_) => Op::Remove,
        None => Op::Nop,
    }
}

/// One article less, or why there is none.
fn sold(found: Found<'_>) -> Result<Op<u64>, &'static str> {
    match found {
        Some(_) => Ok(less(found)),
        None => Err("sold out"),
    }
}

/// What was done, in a word.
fn word(done: &CompResult<u32, u64>) -> &'static str {
    match done {
        CompResult::Inserted(_) => "inserted",
        CompResult::ReplacedWith(_) => "replaced",
        CompResult::Removed(_) => "removed",
        CompResult::Unchanged(_) => "unchanged",
        CompResult::StillNone(_) => "still none",
    }
}

/// Takes one of article 1, if there is one.
fn take<R: Runtime>(rt: &R, stock: &Stock) -> io::Result<&'static str> {
    let take = op_by(|found: Found<'_>| ready(less(found)));
    let done = stock.entry(1).and_compute_with(take).block_on(rt, 0)?;
    Ok(word(&done))
}

/// Sells one of article 1, beside nobody else.
fn sell<R: Runtime>(rt: &R, stock: &Stock) -> io::Result<Result<&'static str, &'static str>> {
    let sell = try_op_by(|found: Found<'_>| ready(sold(found)));
    let selling = stock.entry(1).and_try_compute_if_nobody_else(sell);
    match selling.block_on(rt, 0)? {
        Ok(done) => Ok(Ok(word(&done))),
        Err(why) => Ok(Err(why)),
    }
}

/// Takes one of two, sells the other, and finds none.
pub(crate) fn show<R: Runtime>(rt: &R, alloc: Global) -> io::Result<()> {
    let stock = Cache::new(alloc, 100)?;
    stock.insert(1, 2).block_on(rt, 0)?;
    let taken = take(rt, &stock)?;
    let sold = sell(rt, &stock)?;
    let (none, again) = (take(rt, &stock)?, sell(rt, &stock)?);
    println!(rt; "stock: {taken}, {sold:?}, then {none}, {again:?}")
}
