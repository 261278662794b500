//! Worked schedules with walks over the records. ` / ` parts lines.
//!
//! The order of a walk is left open: a row has one record that a walk gives, or comes to one report
//! in any order.

use crate::in_memory::are_reported;
use std::test::Fail;

/// Schedules, each with the report that it comes to.
pub(crate) const ROWS: [(&str, &str); 22] = [
    // A walk gives what is stored and comes to its end; then its number is unknown, and the record is as it was.
    (
        "cache cap=1 log=8 / start insert 1 5 / poll 1 / start iter / poll 2 / poll 2 / poll 2 / start evict 1 9 Size / poll 3 / start evict 1 1 Expired / poll 4 / start evict 1 1 Size / poll 5",
        "call 1 / answer done / call 2 / item 1 5 / answer end / refused UnknownCall / call 3 / answer kept / call 4 / answer kept / call 5 / answer evicted / write 1 logged / write 5 logged",
    ),
    (
        "cache log=8 / start insert 4294967295 0 / poll 1 / start iter / poll 2 / poll 2 / start remove 4294967295 / poll 3 / start insert 0 4294967295 / poll 4 / start iter / poll 5 / poll 5",
        "call 1 / answer done / call 2 / item 4294967295 0 / answer end / call 3 / answer some 0 / call 4 / answer done / call 5 / item 0 4294967295 / answer end / entry 0 4294967295 stamp 4 at 0 / write 1 logged / write 3 logged / write 4 logged",
    ),
    // It takes so many steps.
    (
        "cache log=8 / start insert 1 5 / poll 1 / start iter / step 2 / step 2 / step 2 / step 2 / step 2",
        "call 1 / answer done / call 2 / going / going / item 1 5 / answer end / refused UnknownCall / entry 1 5 stamp 1 at 0 / write 1 logged",
    ),
    (
        "cache / start iter / step 1 / step 1",
        "call 1 / answer end / refused UnknownCall",
    ),
    // A disabled cache has nothing to list.
    (
        "cache cap=0 log=8 / start insert 1 5 / poll 1 / start iter / step 2 / step 2",
        "call 1 / answer done / call 2 / answer end / refused UnknownCall",
    ),
    // What it gives is what the look finds, and not what was there as the keys were listed.
    (
        "cache log=8 / start insert 1 5 / poll 1 / start iter / step 2 / start insert 1 6 / poll 3 / step 2 / step 2 / step 2",
        "call 1 / answer done / call 2 / going / call 3 / answer done / going / item 1 6 / answer end / entry 1 6 stamp 3 at 0 / write 1 logged / write 3 logged",
    ),
    (
        "cache log=8 / start insert 1 5 / poll 1 / start iter / step 2 / step 2 / start insert 1 6 / poll 3 / step 2 / step 2",
        "call 1 / answer done / call 2 / going / going / call 3 / answer done / item 1 5 / answer end / entry 1 6 stamp 3 at 0 / write 1 logged / write 3 logged",
    ),
    (
        "cache log=8 / start insert 1 5 / poll 1 / start iter / step 2 / start remove 1 / poll 3 / step 2",
        "call 1 / answer done / call 2 / going / call 3 / answer some 5 / answer end / write 1 logged / write 3 logged",
    ),
    (
        "cache log=8 / start insert 1 5 / poll 1 / start iter / step 2 / step 2 / start remove 1 / poll 3 / step 2 / step 2",
        "call 1 / answer done / call 2 / going / going / call 3 / answer some 5 / item 1 5 / answer end / write 1 logged / write 3 logged",
    ),
    // A key that is stored anew after its list is given once.
    (
        "cache log=8 / start insert 1 5 / poll 1 / start iter / step 2 / start remove 1 / poll 3 / start insert 1 6 / poll 4 / poll 2 / start remove 1 / poll 5 / start insert 1 7 / poll 6 / poll 2",
        "call 1 / answer done / call 2 / going / call 3 / answer some 5 / call 4 / answer done / item 1 6 / call 5 / answer some 6 / call 6 / answer done / answer end / entry 1 7 stamp 6 at 0 / write 1 logged / write 3 logged / write 4 logged / write 5 logged / write 6 logged",
    ),
    // A list of all keys comes first: what is stored after it isn't given.
    (
        "cache log=8 / start insert 1 5 / poll 1 / start iter / step 2 / start insert 2 6 / poll 3 / poll 2 / poll 2",
        "call 1 / answer done / call 2 / going / call 3 / answer done / item 1 5 / answer end / entry 1 5 stamp 1 at 0 / entry 2 6 stamp 3 at 0 / write 1 logged / write 3 logged",
    ),
    // A record that has expired as it is judged is passed over, and so is one that is hidden.
    (
        "cache log=8 ttl=10 / start insert 1 5 / poll 1 / at 9 / start iter / poll 2 / poll 2 / at 10 / start iter / poll 3",
        "call 1 / answer done / at / call 2 / item 1 5 / answer end / at / call 3 / answer end / entry 1 5 stamp 1 at 0 / write 1 logged",
    ),
    (
        "cache log=8 ttl=10 / start insert 1 5 / poll 1 / start iter / step 2 / step 2 / at 10 / step 2",
        "call 1 / answer done / call 2 / going / going / at / answer end / entry 1 5 stamp 1 at 0 / write 1 logged",
    ),
    (
        "cache log=8 ttl=10 / start insert 1 5 / poll 1 / at 5 / start insert 2 6 / poll 2 / at 12 / start iter / poll 3 / poll 3",
        "call 1 / answer done / at / call 2 / answer done / at / call 3 / item 2 6 / answer end / entry 1 5 stamp 1 at 0 / entry 2 6 stamp 2 at 5 / write 1 logged / write 2 logged",
    ),
    (
        "cache log=8 / start insert 1 5 / poll 1 / at 1 / start insert 2 6 / poll 2 / start iter / step 3 / start invalidate_all / poll 4 / poll 3 / poll 3 / start iter / poll 5 / poll 5",
        "call 1 / answer done / at / call 2 / answer done / call 3 / going / call 4 / answer done / item 2 6 / answer end / call 5 / item 2 6 / answer end / entry 1 5 stamp 1 at 0 / entry 2 6 stamp 2 at 1 / write 1 logged / write 2 logged",
    ),
    // It accesses nothing; a get does, and the walk then judges by that.
    (
        "cache log=8 tti=10 / start insert 1 5 / poll 1 / at 9 / start iter / poll 2 / at 10 / start get 1 / poll 3",
        "call 1 / answer done / at / call 2 / item 1 5 / at / call 3 / answer none / entry 1 5 stamp 1 at 0 / write 1 logged",
    ),
    (
        "cache log=8 tti=10 / start insert 1 5 / poll 1 / at 9 / start get 1 / poll 2 / at 18 / start iter / poll 3 / poll 3 / at 19 / start iter / poll 4",
        "call 1 / answer done / at / call 2 / answer some 5 / at / call 3 / item 1 5 / answer end / at / call 4 / answer end / entry 1 5 stamp 1 at 0 / write 1 logged",
    ),
    // At a record it holds no lock, so others write its key, and the listener is told.
    (
        "cache log=8 ttl=10 listener / start insert 1 5 / poll 1 / start iter / poll 2 / at 3 / start insert 1 6 / poll 3 / start iter / poll 4 / poll 2 / start remove 1 / poll 5 / drop 3 / tell 3 done / poll 5 / poll 4 / tell 5 off / poll 5 / start insert 1 7 / poll 6 / at 13 / start iter / poll 7",
        "call 1 / answer done / call 2 / item 1 5 / at / call 3 / ask listener 1 5 Replaced / call 4 / item 1 6 / answer end / call 5 / wait / dropped / told / ask listener 1 6 Explicit / answer end / told / answer some 6 / call 6 / answer done / at / call 7 / answer end / entry 1 7 stamp 6 at 3 / write 1 logged / write 3 logged / write 5 logged / write 6 logged / notice 3 1 5 Replaced ended / notice 5 1 6 Explicit ended",
    ),
    // It posts no write that is owed.
    (
        "cache cap=1 log=8 listener / start insert 1 5 / poll 1 / start insert 2 6 / poll 2 / start evict 1 1 Size / poll 3 / drop 3 / tell 3 done / start iter / poll 4 / poll 4",
        "call 1 / answer done / call 2 / answer done / call 3 / ask listener 1 5 Size / dropped / told / call 4 / item 2 6 / answer end / entry 2 6 stamp 2 at 0 / write 1 logged / write 2 logged / write 3 owed / notice 3 1 5 Size ended",
    ),
    // It waits for no load and no compute.
    (
        "cache log=8 / start insert 1 5 / poll 1 / start compute 1 / poll 2 / start get_with 2 / poll 3 / start iter / poll 4 / poll 4",
        "call 1 / answer done / call 2 / ask compute 1 5 / call 3 / ask init / call 4 / item 1 5 / answer end / entry 1 5 stamp 1 at 0 / write 1 logged",
    ),
    // It can be dropped before its first step and at a record, and not between two steps; no ask of it is open.
    (
        "cache log=8 / start insert 1 5 / poll 1 / start iter / poll 2 / drop 2 / poll 2",
        "call 1 / answer done / call 2 / item 1 5 / dropped / refused UnknownCall / entry 1 5 stamp 1 at 0 / write 1 logged",
    ),
    (
        "cache log=8 / start insert 1 5 / poll 1 / start iter / drop 2 / start iter / step 3 / drop 3 / tell 3 value 1 / step 3 / drop 3 / step 3 / tell 3 done / drop 3 / drop 3",
        "call 1 / answer done / call 2 / dropped / call 3 / going / refused NotParked / refused NotAsked / going / refused NotParked / item 1 5 / refused NotAsked / dropped / refused UnknownCall / entry 1 5 stamp 1 at 0 / write 1 logged",
    ),
];

#[test]
fn walks_are_reported(rt: HostRuntime) -> Result<(), Fail> {
    are_reported(&rt, &ROWS)
}
