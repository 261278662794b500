//! A cache of names.

use crate::playing::Runtime;
use bytes::ByteStr;
use moka_cache::{Cache, CacheBuilder};
use std::io;
use std::test::Fail;

type Names = Cache<char, ByteStr>;

/// Stores the name under the key, and looks it up.
fn stored<R: Runtime>(
    rt: &R,
    cache: &Names,
    key: char,
    name: ByteStr,
) -> io::Result<Option<ByteStr>> {
    cache.insert(key, name).block_on(rt, 0)?;
    cache.get(&key).block_on(rt, 0)
}

#[test]
fn a_built_cache_keeps_names(rt: HostRuntime) -> Result<(), Fail> {
    let cache: Names = CacheBuilder::new(100).build(rt.alloc())?;
    let alice = ByteStr::from_static("Alice");
    assert_eq!(rt;
        stored(&rt, &cache, 'a', alice)?,
        Some(ByteStr::from_static("Alice"))
    );
    Ok(())
}
