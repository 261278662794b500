//! A gateway: three threads ask for one page, and its origin is asked once.
#![tactic(auto)]

use bytes::ByteStr;
use futures::future::lazy;
use moka_cache::{CacheBuilder, Since};
use std::sync::atomic::{AtomicU64, Ordering};
use std::{io, thread};

/// What the origin answers: a page, or its status. It counts how often it is asked.
fn fetch(path: &ByteStr, asked: &AtomicU64) -> Result<ByteStr, u16> {
    asked.fetch_add(1, Ordering::SeqCst);
    match path.as_str() {
        "/" => Ok(ByteStr::from_static("Welcome")),
        _ => Err(404),
    }
}

fn main(rt: HostRuntime) -> io::Result<()> {
    let (asked, left) = (AtomicU64::new(0), AtomicU64::new(0));
    let pages = CacheBuilder::new(1000)
        .eviction_listener(|_path: &ByteStr, _page: &ByteStr, _cause| {
            left.fetch_add(1, Ordering::SeqCst);
        })
        .build(rt.alloc())?;
    let home = ByteStr::from_static("/");
    let since = Since::now(&rt)?;
    let show = || {
        let load = lazy(|_| fetch(&home, &asked));
        let page = pages.try_get_with_by_ref(&home, load).block_on(&rt, &since);
        matches!(page, Ok(Ok(page)) if page.as_str() == "Welcome")
    };
    let (first, (second, third)) = thread::join(&rt, show, || thread::join(&rt, show, show));
    println!(rt;
        "{first} {second} {third}, asked {}",
        asked.load(Ordering::SeqCst)
    )?;
    pages.remove(&home).block_on(&rt, &since)?;
    println!(rt; "left {}", left.load(Ordering::SeqCst))
}
