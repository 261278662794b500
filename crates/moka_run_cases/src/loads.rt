//! Worked schedules of loads that fail, find nothing, load again or insert. ` / ` parts lines.

use crate::in_memory::are_reported;
use std::test::Fail;

/// Schedules, each with the report that it comes to.
pub(crate) const ROWS: [(&str, &str); 35] = [
    // Loads of one key by different kinds run side by side.
    (
        "cache log=8 / start get_with 1 / start optional 1 / poll 1 / poll 2 / tell 2 nothing / poll 2",
        "call 1 / call 2 / ask init / ask init / told / answer nothing",
    ),
    (
        "cache log=8 / start get_with 1 / start optional 1 / start try 1 / poll 1 / poll 2 / poll 3 / tell 3 error 1 / tell 2 nothing / tell 1 value 1 / poll 3 / poll 2 / poll 1",
        "call 1 / call 2 / call 3 / ask init / ask init / ask init / told / told / told / answer error 1 / answer nothing / answer value 1 fresh / entry 1 1 stamp 1 at 0 / write 1 logged",
    ),
    (
        "cache log=8 / start get_with 1 / start try 1 / start try 1 / poll 1 / poll 2 / poll 3 / drop 1 / poll 3 / drop 2 / poll 3",
        "call 1 / call 2 / call 3 / ask init / ask init / wait / dropped / wait / dropped / ask init",
    ),
    // A load of any kind answers what is stored.
    (
        "cache log=8 / start insert 1 5 / poll 1 / start optional 1 / poll 2 / start try 1 / poll 3 / start get_with 1 / poll 4 / start or_insert 1 6 / poll 5",
        "call 1 / answer done / call 2 / answer value 5 / call 3 / answer value 5 / call 4 / answer value 5 / call 5 / answer value 5 / entry 1 5 stamp 1 at 0 / write 1 logged",
    ),
    // An error is answered by all that wait for it.
    (
        "cache log=8 / start try 1 / start try 1 / poll 1 / poll 2 / tell 1 error 3 / poll 1 / poll 2",
        "call 1 / call 2 / ask init / wait / told / answer error 3 / answer error 3",
    ),
    (
        "cache log=8 listener / start insert 1 5 / poll 1 / start remove 1 / poll 2 / start try 1 / start try 1 / poll 3 / poll 4 / tell 3 error 6 / poll 3 / poll 4",
        "call 1 / answer done / call 2 / ask listener 1 5 Explicit / call 3 / call 4 / ask init / wait / told / answer error 6 / answer error 6 / write 1 logged / write 2 held / notice 2 1 5 Explicit running",
    ),
    // Nothing is answered by all that wait for it, and is not stored.
    (
        "cache log=8 / start optional 1 / start optional 1 / poll 1 / poll 2 / tell 1 nothing / poll 1 / start optional 1 / poll 3 / poll 2",
        "call 1 / call 2 / ask init / wait / told / answer nothing / call 3 / ask init / answer nothing",
    ),
    (
        "cache log=1 / start insert 1 5 / poll 1 / start insert 2 6 / step 2 / step 2 / step 2 / step 2 / step 2 / start optional 3 / poll 3 / tell 3 nothing / poll 3 / start try 3 / poll 4 / tell 4 error 8 / poll 4",
        "call 1 / answer done / call 2 / going / going / going / going / going / call 3 / ask init / told / answer nothing / call 4 / ask init / told / answer error 8 / entry 1 5 stamp 1 at 0 / entry 2 6 stamp 2 at 0 / write 1 logged / write 2 held",
    ),
    // An answer that is told and not settled is lost with its call.
    (
        "cache log=8 / start try 1 / start try 1 / poll 1 / poll 2 / tell 1 error 3 / poll 2 / drop 1 / poll 2",
        "call 1 / call 2 / ask init / wait / told / wait / dropped / ask init",
    ),
    (
        "cache log=8 / start optional 1 / start optional 1 / poll 1 / poll 2 / tell 1 nothing / drop 1 / poll 2 / tell 2 value 4 / poll 2",
        "call 1 / call 2 / ask init / wait / told / dropped / ask init / told / answer value 4 fresh / entry 1 4 stamp 2 at 0 / write 2 logged",
    ),
    // A value is stored and posted before it is settled.
    (
        "cache log=8 listener / start insert 1 5 / poll 1 / start remove 1 / poll 2 / start try 1 / start try 1 / poll 3 / poll 4 / tell 3 value 6 / poll 3 / poll 4 / tell 2 done / poll 2 / poll 3 / poll 4",
        "call 1 / answer done / call 2 / ask listener 1 5 Explicit / call 3 / call 4 / ask init / wait / told / wait / wait / told / answer some 5 / answer value 6 fresh / answer value 6 / entry 1 6 stamp 3 at 0 / write 1 logged / write 2 logged / write 3 logged / notice 2 1 5 Explicit ended",
    ),
    (
        "cache log=1 / start insert 1 5 / poll 1 / start insert 2 6 / step 2 / step 2 / step 2 / step 2 / step 2 / start optional 3 / start optional 3 / poll 3 / poll 4 / tell 3 value 7 / poll 3 / poll 4 / poll 2 / poll 3 / poll 4",
        "call 1 / answer done / call 2 / going / going / going / going / going / call 3 / call 4 / ask init / wait / told / wait / wait / answer done / answer value 7 fresh / answer value 7 / entry 1 5 stamp 1 at 0 / entry 2 6 stamp 2 at 0 / entry 3 7 stamp 3 at 0 / write 1 applied / write 2 applied / write 3 logged",
    ),
    // A record on which the test holds is loaded again.
    (
        "cache log=8 / start insert 1 4 / poll 1 / start get_with 1 if 2 / poll 2 / tell 2 value 5 / poll 2 / start get_with 1 if 2 / poll 3",
        "call 1 / answer done / call 2 / ask init / told / answer value 5 fresh / call 3 / answer value 5 / entry 1 5 stamp 2 at 0 / write 1 logged / write 2 logged",
    ),
    (
        "cache log=8 / start insert 1 0 / poll 1 / start get_with 1 if 0 / poll 2 / start get_with 1 if 18446744073709551615 / poll 3 / start get_with 1 if 1 / poll 4",
        "call 1 / answer done / call 2 / answer value 0 / call 3 / ask init / call 4 / wait / entry 1 0 stamp 1 at 0 / write 1 logged",
    ),
    (
        "cache log=8 / start insert 1 7 / poll 1 / start get_with 1 if 2 / poll 2 / start get_with 1 if 14 / poll 3 / start get_with 1 if 7 / poll 4",
        "call 1 / answer done / call 2 / answer value 7 / call 3 / answer value 7 / call 4 / ask init / entry 1 7 stamp 1 at 0 / write 1 logged",
    ),
    // The owner looks again and asks its test again.
    (
        "cache log=8 / start insert 1 4 / poll 1 / start get_with 1 if 2 / step 2 / step 2 / step 2 / start insert 1 5 / poll 3 / poll 2",
        "call 1 / answer done / call 2 / going / going / going / call 3 / answer done / answer value 5 / entry 1 5 stamp 3 at 0 / write 1 logged / write 3 logged",
    ),
    (
        "cache log=8 / start get_with 1 if 2 / step 1 / step 1 / step 1 / start insert 1 6 / poll 2 / poll 1 / tell 1 value 8 / poll 1",
        "call 1 / going / going / going / call 2 / answer done / ask init / told / answer value 8 fresh / entry 1 8 stamp 1 at 0 / write 1 logged / write 2 logged",
    ),
    // A waiter asks no test, and waits for a load without one.
    (
        "cache log=8 listener / start insert 1 4 / poll 1 / start get_with 1 if 2 / start get_with 1 if 2 / poll 2 / poll 3 / tell 2 value 6 / poll 2 / poll 3 / tell 2 done / poll 2 / poll 3",
        "call 1 / answer done / call 2 / call 3 / ask init / wait / told / ask listener 1 4 Replaced / wait / told / answer value 6 fresh / answer value 6 / entry 1 6 stamp 2 at 0 / write 1 logged / write 2 logged / notice 2 1 4 Replaced ended",
    ),
    (
        "cache log=8 / start get_with 1 if 2 / start get_with 1 / poll 1 / poll 2 / tell 1 value 4 / poll 1 / poll 2",
        "call 1 / call 2 / ask init / wait / told / answer value 4 fresh / answer value 4 / entry 1 4 stamp 1 at 0 / write 1 logged",
    ),
    // An or insert that misses stores its own value.
    (
        "cache log=8 listener / start insert 1 5 / poll 1 / start remove 1 / poll 2 / start or_insert 1 6 / poll 3 / start or_insert 1 7 / poll 4 / tell 2 done / poll 2 / poll 3 / poll 4 / tell 4 done / poll 4",
        "call 1 / answer done / call 2 / ask listener 1 5 Explicit / call 3 / wait / call 4 / wait / told / answer some 5 / answer value 6 fresh / ask listener 1 6 Replaced / told / answer value 7 fresh / entry 1 7 stamp 4 at 0 / write 1 logged / write 2 logged / write 3 logged / write 4 logged / notice 2 1 5 Explicit ended / notice 4 1 6 Replaced ended",
    ),
    (
        "cache log=8 / start or_insert 1 6 / step 1 / step 1 / start insert 1 5 / poll 2 / poll 1 / start or_insert 1 7 / poll 3",
        "call 1 / going / going / call 2 / answer done / answer value 6 fresh / call 3 / answer value 6 / entry 1 6 stamp 1 at 0 / write 1 logged / write 2 logged",
    ),
    // An ask takes what its kind of load may be told.
    (
        "cache log=8 / start get_with 1 / poll 1 / tell 1 nothing / tell 1 error 2 / tell 1 done / tell 1 off / tell 1 value 3 / tell 1 value 4 / poll 1",
        "call 1 / ask init / refused NotAsked / refused NotAsked / refused NotAsked / refused NotAsked / told / refused NotAsked / answer value 3 fresh / entry 1 3 stamp 1 at 0 / write 1 logged",
    ),
    (
        "cache log=8 / start optional 1 / poll 1 / tell 1 error 2 / tell 1 done / tell 1 off / tell 1 value 3 / tell 1 nothing / poll 1",
        "call 1 / ask init / refused NotAsked / refused NotAsked / refused NotAsked / told / refused NotAsked / answer value 3 fresh / entry 1 3 stamp 1 at 0 / write 1 logged",
    ),
    (
        "cache log=8 / start optional 1 / poll 1 / tell 1 nothing / tell 1 value 3 / poll 1",
        "call 1 / ask init / told / refused NotAsked / answer nothing",
    ),
    (
        "cache log=8 / start try 1 / poll 1 / tell 1 nothing / tell 1 done / tell 1 off / tell 1 value 3 / tell 1 error 2 / poll 1",
        "call 1 / ask init / refused NotAsked / refused NotAsked / refused NotAsked / told / refused NotAsked / answer value 3 fresh / entry 1 3 stamp 1 at 0 / write 1 logged",
    ),
    (
        "cache log=8 / start try 1 / poll 1 / tell 1 error 4294967295 / tell 1 value 3 / poll 1",
        "call 1 / ask init / told / refused NotAsked / answer error 4294967295",
    ),
    (
        "cache log=8 listener / start insert 1 5 / poll 1 / start remove 1 / poll 2 / start or_insert 1 6 / poll 3 / tell 3 value 7 / tell 3 nothing / tell 3 error 7 / tell 2 nothing / tell 2 error 7 / tell 2 value 7",
        "call 1 / answer done / call 2 / ask listener 1 5 Explicit / call 3 / wait / refused NotAsked / refused NotAsked / refused NotAsked / refused NotAsked / refused NotAsked / refused NotAsked / write 1 logged / write 2 held / notice 2 1 5 Explicit running",
    ),
    // A load takes so many steps.
    (
        "cache log=8 / start insert 1 5 / poll 1 / start or_insert 1 6 / step 2 / step 2 / step 2",
        "call 1 / answer done / call 2 / going / going / answer value 5 / entry 1 5 stamp 1 at 0 / write 1 logged",
    ),
    (
        "cache log=8 / start or_insert 1 6 / step 1 / step 1 / step 1 / step 1 / step 1 / step 1",
        "call 1 / going / going / going / going / going / answer value 6 fresh / entry 1 6 stamp 1 at 0 / write 1 logged",
    ),
    (
        "cache log=8 / start try 1 / step 1 / step 1 / step 1 / step 1 / step 1 / tell 1 nothing / tell 1 done / tell 1 error 9 / step 1 / step 1",
        "call 1 / going / going / going / going / ask init / refused NotAsked / refused NotAsked / told / going / answer error 9",
    ),
    (
        "cache log=8 / start optional 1 / poll 1 / tell 1 error 9 / tell 1 nothing / step 1 / step 1",
        "call 1 / ask init / refused NotAsked / told / going / answer nothing",
    ),
    (
        "cache log=8 / start get_with 1 if 0 / poll 1 / tell 1 nothing / tell 1 error 9 / tell 1 value 2 / poll 1",
        "call 1 / ask init / refused NotAsked / refused NotAsked / told / answer value 2 fresh / entry 1 2 stamp 1 at 0 / write 1 logged",
    ),
    // A cache of capacity 0 loads by each kind, and stores nothing.
    (
        "cache cap=0 log=8 / start or_insert 1 6 / step 1 / start optional 1 / step 2 / step 2 / step 2",
        "call 1 / answer value 6 fresh / call 2 / going / going / ask init",
    ),
    (
        "cache cap=0 log=8 / start get_with 1 if 1 / start optional 1 / start try 1 / poll 1 / poll 2 / poll 3 / tell 1 value 4 / tell 2 nothing / tell 3 error 5 / poll 1 / poll 2 / poll 3",
        "call 1 / call 2 / call 3 / ask init / ask init / ask init / told / told / told / answer value 4 fresh / answer nothing / answer error 5",
    ),
    (
        "cache cap=0 log=8 / start try 1 / start try 1 / start optional 2 / start optional 2 / poll 1 / poll 2 / poll 3 / poll 4 / tell 1 error 5 / tell 3 value 6 / poll 1 / poll 2 / poll 3 / poll 4",
        "call 1 / call 2 / call 3 / call 4 / ask init / wait / ask init / wait / told / told / answer error 5 / answer error 5 / answer value 6 fresh / answer value 6",
    ),
];

#[test]
fn loads_are_reported(rt: HostRuntime) -> Result<(), Fail> {
    are_reported(&rt, &ROWS)
}
