//! A caller, as a program with a runtime would write it.

use crate::running::within;
use bytes::ByteStr;
use moka_cache::{Cache, Init, Since};
use std::alloc::AllocGlobal;
use std::io;
use std::random::RandomSource;
use std::sync::Wait;
use std::thread::Threads;
use std::time::{Clock, Duration};
use tokio::runtime::Runtime;

/// Pages by their numbers.
pub type Pages = Cache<u32, ByteStr>;

/// The page, from the cache or from its source, unless that takes half a second. A call that is
/// given up takes its source with it; another that waits for the page asks its own.
pub fn page_within<'a, R, I>(
    rt: &'a R,
    runtime: &mut Runtime,
    pages: &'a Pages,
    number: u32,
    source: I,
    since: &'a Since<'a, R>,
) -> io::Result<ByteStr>
where
    R: Wait + Threads + Clock + RandomSource + AllocGlobal + Sync,
    I: Init<ByteStr>,
    requires { I.can_poll source }
{
    let page = pages.get_with(number, source);
    Ok(within(rt, runtime, Duration::from_millis(500), page, since)??)
}
