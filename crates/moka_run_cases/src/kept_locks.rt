//! Worked schedules of locks that the running notice of a dropped call keeps. ` / ` parts lines.

use crate::in_memory::are_reported;
use std::test::Fail;

/// Schedules, each with the report that it comes to.
pub(crate) const ROWS: [(&str, &str); 7] = [
    // A write of the key waits until that notice has ended, and then opens its own.
    (
        "cache log=8 listener / start insert 1 5 / poll 1 / start insert 1 6 / start insert 1 7 / poll 2 / poll 3 / drop 2 / poll 3 / tell 2 done / poll 3 / tell 3 done / poll 3",
        "call 1 / answer done / call 2 / call 3 / ask listener 1 5 Replaced / wait / dropped / wait / told / ask listener 1 6 Replaced / told / answer done / entry 1 7 stamp 3 at 0 / write 1 logged / write 2 owed / write 3 logged / notice 2 1 5 Replaced ended / notice 3 1 6 Replaced ended",
    ),
    // A get drains the write, waits for its notice, and holds no lock.
    (
        "cache log=8 listener / start insert 1 5 / poll 1 / start insert 1 6 / poll 2 / start insert 1 7 / poll 3 / drop 2 / start get 1 / poll 4 / poll 3 / tell 2 done / poll 4 / poll 3",
        "call 1 / answer done / call 2 / ask listener 1 5 Replaced / call 3 / wait / dropped / call 4 / wait / wait / told / answer some 6 / ask listener 1 6 Replaced / entry 1 7 stamp 3 at 0 / write 1 logged / write 2 logged / write 3 held / notice 2 1 5 Replaced ended / notice 3 1 6 Replaced running",
    ),
    // An evict drains nothing, and waits for the lock.
    (
        "cache cap=1 log=8 listener / start insert 1 5 / poll 1 / start insert 1 6 / poll 2 / drop 2 / start evict 1 2 Size / poll 3 / tell 2 done / poll 3 / tell 3 done / poll 3",
        "call 1 / answer done / call 2 / ask listener 1 5 Replaced / dropped / call 3 / wait / told / ask listener 1 6 Size / told / answer evicted / write 1 logged / write 2 owed / write 3 logged / notice 2 1 5 Replaced ended / notice 3 1 6 Size ended",
    ),
    // A notice that had ended before the drop keeps nothing.
    (
        "cache log=8 listener / start insert 1 5 / poll 1 / start insert 1 6 / poll 2 / tell 2 done / drop 2 / start insert 1 7 / poll 3",
        "call 1 / answer done / call 2 / ask listener 1 5 Replaced / told / dropped / call 3 / ask listener 1 6 Replaced / entry 1 7 stamp 3 at 0 / write 1 logged / write 2 logged / write 3 held / notice 2 1 5 Replaced ended / notice 3 1 6 Replaced running",
    ),
    // A listener that is off has ended the notice, and the lock is free.
    (
        "cache log=8 listener / start insert 1 5 / poll 1 / start insert 1 6 / poll 2 / start insert 1 7 / poll 3 / drop 2 / tell 2 off / poll 3",
        "call 1 / answer done / call 2 / ask listener 1 5 Replaced / call 3 / wait / dropped / told / answer done / entry 1 7 stamp 3 at 0 / write 1 logged / write 2 owed / write 3 logged / notice 2 1 5 Replaced ended / notice 3 1 6 Replaced skipped",
    ),
    // The call that took the write up is dropped, too: the notice keeps the lock.
    (
        "cache log=8 listener / start insert 1 5 / poll 1 / start insert 1 6 / poll 2 / drop 2 / start get 1 / poll 3 / drop 3 / start insert 1 7 / poll 4 / tell 2 done / poll 4",
        "call 1 / answer done / call 2 / ask listener 1 5 Replaced / dropped / call 3 / wait / dropped / call 4 / wait / told / ask listener 1 6 Replaced / entry 1 7 stamp 4 at 0 / write 1 logged / write 2 logged / write 4 held / notice 2 1 5 Replaced ended / notice 4 1 6 Replaced running",
    ),
    // One of two that wait for the lock is dropped: the other goes on waiting.
    (
        "cache log=8 listener / start insert 1 5 / poll 1 / start insert 1 6 / poll 2 / start insert 1 7 / poll 3 / start insert 1 8 / poll 4 / drop 2 / drop 3 / poll 4 / tell 2 done / poll 4",
        "call 1 / answer done / call 2 / ask listener 1 5 Replaced / call 3 / wait / call 4 / wait / dropped / dropped / wait / told / ask listener 1 6 Replaced / entry 1 8 stamp 4 at 0 / write 1 logged / write 2 owed / write 4 held / notice 2 1 5 Replaced ended / notice 4 1 6 Replaced running",
    ),
];

#[test]
fn a_running_notice_of_a_dropped_call_keeps_its_lock(rt: HostRuntime) -> Result<(), Fail> {
    are_reported(&rt, &ROWS)
}
