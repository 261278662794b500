//! What the errors of calls tell.

use crate::playing::Runtime;
use futures::future::err;
use moka_cache::{Cache, CacheBuilder, LoadError, PollError, RetriesExhausted};
use moka_cache_runs::caches::Numbers;
use std::alloc::AllocGlobal;
use std::error::Error;
use std::io;
use std::io::ErrorKind;
use std::random::RandomSource;
use std::sync::Wait;
use std::test::Fail;

/// Whether this is the text of any error.
pub(crate) fn has_text<R: Runtime, E: Error>(rt: &R, error: &E, text: &str) -> bool {
    match format!(in rt.alloc(); "{error}") {
        Ok(told) => told.as_str() == text,
        Err(_) => false,
    }
}

/// Whether the error is of this kind, and has this text.
pub(crate) fn is_io_error<R: Runtime>(
    rt: &R,
    error: &io::Error,
    kind: ErrorKind,
    text: &str,
) -> bool {
    error.kind() == kind && has_text(rt, error, text)
}

#[test]
fn errors_tell_why_there_is_no_answer(rt: HostRuntime) {
    let given_up = "200 owners of the load were dropped";
    let load: LoadError<io::Error> = LoadError::RetriesExhausted;
    let init = LoadError::Init(io::Error::other("no such page"));
    let are_told = [
        has_text(&rt, &PollError::CallsSpent, "no call number is left"),
        has_text(&rt, &PollError::Memory, "out of memory"),
        has_text(&rt, &RetriesExhausted, given_up),
        has_text(&rt, &load, given_up),
        has_text(&rt, &init, "no such page"),
    ];
    assert_eq!(rt; are_told, [true; 5]);
}

#[test]
fn errors_become_io_errors_of_one_text(rt: HostRuntime) {
    let cases = [
        (
            io::Error::from(PollError::CallsSpent),
            ErrorKind::Other,
            "no call number is left",
        ),
        (
            io::Error::from(PollError::Memory),
            ErrorKind::OutOfMemory,
            "out of memory",
        ),
        (
            io::Error::from(RetriesExhausted),
            ErrorKind::Other,
            "200 owners of the load were dropped",
        ),
    ];
    for (error, kind, text) in cases {
        assert!(rt; is_io_error(&rt, &error, kind, text), "{text}");
    }
}

/// Numbers by number, of a source that tells why it has none.
type Sourced = Cache<u32, u32, &'static str>;

/// Asks a source that has no number, as a program whose errors are told by their text alone.
fn ask_in_vain<R: Wait + RandomSource + AllocGlobal>(
    rt: &R,
    numbers: &Sourced,
) -> anyhow::Result<u32> {
    let source = err("no such number");
    Ok(numbers.try_get_with(1, source).block_on(rt, 0)??)
}

/// Whether this is the text of an error of any type.
fn has_any_text<R: Runtime>(rt: &R, error: &anyhow::Error, text: &str) -> bool {
    match format!(in rt.alloc(); "{error}") {
        Ok(told) => told.as_str() == text,
        Err(_) => false,
    }
}

/// Whether the source's own error is what a load of it tells.
fn is_source_told<R: Runtime>(rt: &R, numbers: &Sourced) -> bool {
    match ask_in_vain(rt, numbers) {
        Ok(_) => false,
        Err(error) => has_any_text(rt, &error, "no such number"),
    }
}

#[test]
fn errors_become_anyhow_errors_of_one_text(rt: HostRuntime) -> Result<(), Fail> {
    let cases = [
        (
            anyhow::Error::from(PollError::CallsSpent),
            "no call number is left",
        ),
        (anyhow::Error::from(PollError::Memory), "out of memory"),
        (
            anyhow::Error::from(RetriesExhausted),
            "200 owners of the load were dropped",
        ),
    ];
    for (error, text) in cases {
        assert!(rt; has_any_text(&rt, &error, text), "{text}");
    }
    let numbers: Sourced = Cache::new(rt.alloc(), 100)?;
    assert!(rt; is_source_told(&rt, &numbers));
    Ok(())
}

/// Stores 5 under the key.
fn store<R: Runtime>(rt: &R, cache: &Numbers, key: u32) -> io::Result<()> {
    cache.insert(key, 5).block_on(rt, 0)
}

/// Whether a store without a number is an `io::Error` that says so.
fn is_without_number<R: Runtime>(rt: &R, cache: &Numbers) -> bool {
    match store(rt, cache, 2) {
        Ok(()) => false,
        Err(error) => is_io_error(rt, &error, ErrorKind::Other, "no call number is left"),
    }
}

#[test]
fn a_call_without_a_number_is_an_io_error(rt: HostRuntime) -> Result<(), Fail> {
    let cache: Numbers = Cache::starting_after(rt.alloc(), None, Some(100), u64::MAX - 1)?;
    store(&rt, &cache, 1)?;
    assert!(rt; is_without_number(&rt, &cache));
    Ok(())
}

#[test]
fn a_cache_writes_its_name_and_its_policy(rt: HostRuntime) -> Result<(), Fail> {
    let name = format!(in rt.alloc(); "pages")?;
    let builder: CacheBuilder<u32, u32, u32> = CacheBuilder::new(9).name(name);
    let text = format!(in rt.alloc(); "{builder:?}")?;
    assert_eq!(rt;
        text.as_str(),
        "CacheBuilder { name: Some(\"pages\"), max_capacity: Some(9), initial_capacity: None, \
        time_to_live: None, time_to_idle: None, has_listener: false }"
    );
    let cache = builder.build(rt.alloc())?;
    let text = format!(in rt.alloc(); "{cache:?}")?;
    assert_eq!(rt;
        text.as_str(),
        "Cache { name: Some(\"pages\"), policy: Policy { rules: Rules { max_capacity: Some(9), \
        time_to_live: None, time_to_idle: None, listener: false, closures: false } } }"
    );
    Ok(())
}
