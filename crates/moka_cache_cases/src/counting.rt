//! How many records a cache has.

use crate::playing::play;
use moka_cache_runs::asks::Asked::Never;
use moka_cache_runs::asks::{NOBODY, Told};
use moka_cache_runs::calls::Call::Own;
use moka_cache_runs::calls::Kind::OfKey;
use moka_cache_runs::calls::OfKey::Insert;
use moka_cache_runs::replies::Reply::{Counts, Done};
use moka_cache_runs::rows::Event::{Count, Run};
use moka_cache_runs::rows::Row;
use std::test::Fail;

#[test]
fn writes_are_counted_once_the_log_was_full(rt: HostRuntime) -> Result<(), Fail> {
    let mut rows = Vec::new(rt.alloc());
    for key in 0..384 {
        let insert = Run(Own(key, OfKey(Insert(key))));
        rows.push(Row(insert, Told(Done, 0, Never), NOBODY))?;
    }
    rows.push(Row(Count, Told(Counts(0, 0), 0, Never), NOBODY))?;
    rows.push(Row(
        Run(Own(384, OfKey(Insert(384)))),
        Told(Done, 0, Never),
        NOBODY,
    ))?;
    rows.push(Row(Count, Told(Counts(384, 384), 0, Never), NOBODY))?;
    play(&rt, 1000, &rows)
}
