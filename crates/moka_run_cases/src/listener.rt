//! Worked schedules under a listener that a play reports to the end. ` / ` parts lines.

use crate::in_memory::are_reported;
use std::test::Fail;

/// Schedules, each with the report that it comes to.
pub(crate) const ROWS: [(&str, &str); 11] = [
    // The drain of a dropped write waits for its notice.
    (
        "cache log=8 listener / start insert 1 5 / poll 1 / start insert 1 6 / poll 2 / drop 2 / start get 1 / poll 3 / tell 2 done / poll 3",
        "call 1 / answer done / call 2 / ask listener 1 5 Replaced / dropped / call 3 / wait / told / answer some 6 / entry 1 6 stamp 2 at 0 / write 1 logged / write 2 logged / notice 2 1 5 Replaced ended",
    ),
    (
        "cache log=8 listener / start insert 1 5 / poll 1 / start insert 1 6 / poll 2 / drop 2 / start get 1 / poll 3 / tell 2 done / drop 3 / start get 1 / step 4 / step 4 / step 4 / step 4 / step 4",
        "call 1 / answer done / call 2 / ask listener 1 5 Replaced / dropped / call 3 / wait / told / dropped / call 4 / going / going / going / going / answer some 6 / entry 1 6 stamp 2 at 0 / write 1 logged / write 2 logged / notice 2 1 5 Replaced ended",
    ),
    (
        "cache log=8 listener / start insert 1 5 / poll 1 / start insert 1 6 / poll 2 / drop 2 / start get 1 / poll 3 / drop 3 / tell 2 done / start get 1 / step 4 / step 4 / step 4 / step 4 / step 4 / step 4",
        "call 1 / answer done / call 2 / ask listener 1 5 Replaced / dropped / call 3 / wait / dropped / told / call 4 / going / going / going / going / going / answer some 6 / entry 1 6 stamp 2 at 0 / write 1 logged / write 2 logged / notice 2 1 5 Replaced ended",
    ),
    // A listener that is off hears of no further record.
    (
        "cache log=8 listener / start insert 1 5 / poll 1 / start insert 1 6 / poll 2 / tell 2 off / poll 2 / start insert 1 7 / poll 3",
        "call 1 / answer done / call 2 / ask listener 1 5 Replaced / told / answer done / call 3 / answer done / entry 1 7 stamp 3 at 0 / write 1 logged / write 2 logged / write 3 logged / notice 2 1 5 Replaced ended / notice 3 1 6 Replaced skipped",
    ),
    // A writer takes its moment once it has the key's lock.
    (
        "cache log=8 listener / start insert 1 5 / poll 1 / start insert 1 6 / poll 2 / start insert 1 7 / poll 3 / at 9 / tell 2 done / poll 3 / poll 2 / poll 3",
        "call 1 / answer done / call 2 / ask listener 1 5 Replaced / call 3 / wait / at / told / wait / answer done / ask listener 1 6 Replaced / entry 1 7 stamp 3 at 9 / write 1 logged / write 2 logged / write 3 held / notice 2 1 5 Replaced ended / notice 3 1 6 Replaced running",
    ),
    // The running notice of a dropped call keeps the lock.
    (
        "cache log=8 listener / start insert 1 5 / poll 1 / start insert 1 6 / poll 2 / start insert 1 7 / poll 3 / drop 2 / poll 3",
        "call 1 / answer done / call 2 / ask listener 1 5 Replaced / call 3 / wait / dropped / wait / entry 1 6 stamp 2 at 0 / write 1 logged / write 2 owed / notice 2 1 5 Replaced running",
    ),
    // A notice that is due waits, and its call cannot be dropped.
    (
        "cache log=8 listener / start insert 1 5 / poll 1 / start insert 1 6 / step 2 / step 2 / step 2 / step 2 / drop 2 / tell 2 done",
        "call 1 / answer done / call 2 / going / going / going / going / refused NotParked / refused NotAsked / entry 1 6 stamp 2 at 0 / write 1 logged / write 2 held / notice 2 1 5 Replaced waiting",
    ),
    // A waiter of an owner that was dropped while heard answers what it stored.
    (
        "cache log=8 listener / start get_with 1 / start get_with 1 / poll 1 / poll 2 / start insert 1 5 / poll 3 / tell 1 value 7 / poll 1 / drop 1 / poll 2",
        "call 1 / call 2 / ask init / wait / call 3 / answer done / told / ask listener 1 5 Replaced / dropped / answer value 7 / entry 1 7 stamp 1 at 0 / write 1 owed / write 3 logged / notice 1 1 5 Replaced running",
    ),
    // An answer that no open ask takes is refused.
    (
        "cache log=8 listener / start insert 1 5 / poll 1 / start insert 1 6 / poll 2 / tell 2 value 9 / tell 2 done / tell 2 done / start get_with 2 / poll 3 / tell 3 done / tell 3 off",
        "call 1 / answer done / call 2 / ask listener 1 5 Replaced / refused NotAsked / told / refused NotAsked / call 3 / ask init / refused NotAsked / refused NotAsked / entry 1 6 stamp 2 at 0 / write 1 logged / write 2 held / notice 2 1 5 Replaced ended",
    ),
    // Single steps under a listener come to what polls do.
    (
        "cache log=8 listener / start insert 1 5 / step 1 / step 1 / step 1 / step 1 / step 1 / step 1 / start insert 1 6 / step 2 / step 2 / step 2 / step 2 / step 2 / tell 2 done / step 2 / step 2 / step 2",
        "call 1 / going / going / going / going / going / answer done / call 2 / going / going / going / going / ask listener 1 5 Replaced / told / going / going / answer done / entry 1 6 stamp 2 at 0 / write 1 logged / write 2 logged / notice 2 1 5 Replaced ended",
    ),
    (
        "cache log=8 listener / start insert 1 5 / poll 1 / start insert 1 6 / poll 2 / drop 2 / start get 1 / step 3 / step 3 / tell 2 done / step 3 / step 3 / step 3 / step 3 / step 3",
        "call 1 / answer done / call 2 / ask listener 1 5 Replaced / dropped / call 3 / going / wait / told / going / going / going / going / answer some 6 / entry 1 6 stamp 2 at 0 / write 1 logged / write 2 logged / notice 2 1 5 Replaced ended",
    ),
];

#[test]
fn schedules_under_a_listener_are_reported(rt: HostRuntime) -> Result<(), Fail> {
    are_reported(&rt, &ROWS)
}
