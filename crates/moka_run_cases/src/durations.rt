//! Worked schedules in which records expire, or all are invalidated. ` / ` parts lines.

use crate::in_memory::are_reported;
use std::test::Fail;

/// Schedules under a time to live or to idle, each with the report that it comes to.
pub(crate) const EXPIRING: [(&str, &str); 25] = [
    // A record is past at the last nanosecond, and stays stored until a call takes it out.
    (
        "cache log=8 ttl=10 / start insert 1 5 / poll 1 / at 9 / start get 1 / poll 2 / at 10 / start get 1 / poll 3 / start compute 1 / poll 4 / tell 4 remove / poll 4",
        "call 1 / answer done / at / call 2 / answer some 5 / at / call 3 / answer none / call 4 / ask compute none / told / answer removed 5 / write 1 logged / write 4 logged",
    ),
    (
        "cache log=8 ttl=10 / start insert 1 5 / poll 1 / at 9 / start insert 1 6 / poll 2 / at 18 / start get 1 / poll 3 / at 19 / start get 1 / poll 4",
        "call 1 / answer done / at / call 2 / answer done / at / call 3 / answer some 6 / at / call 4 / answer none / entry 1 6 stamp 2 at 9 / write 1 logged / write 2 logged",
    ),
    // Under a time of 0 it is past at once; those that wait for a load answer what its owner was told.
    (
        "cache log=8 ttl=0 / start insert 1 5 / poll 1 / start get 1 / poll 2",
        "call 1 / answer done / call 2 / answer none / entry 1 5 stamp 1 at 0 / write 1 logged",
    ),
    (
        "cache log=8 tti=0 / start insert 1 5 / poll 1 / start get 1 / poll 2",
        "call 1 / answer done / call 2 / answer none / entry 1 5 stamp 1 at 0 / write 1 logged",
    ),
    (
        "cache log=8 ttl=0 / start get_with 1 / start get_with 1 / poll 1 / poll 2 / tell 1 value 7 / poll 1 / poll 2 / start get_with 1 / poll 3",
        "call 1 / call 2 / ask init / wait / told / answer value 7 fresh / answer value 7 / call 3 / ask init / entry 1 7 stamp 1 at 0 / write 1 logged",
    ),
    // At the greatest moment all is past, also where the sum would go beyond it.
    (
        "cache log=8 ttl=18446744073709551615 / start insert 1 5 / poll 1 / at 18446744073709551614 / start get 1 / poll 2 / at 18446744073709551615 / start get 1 / poll 3",
        "call 1 / answer done / at / call 2 / answer some 5 / at / call 3 / answer none / entry 1 5 stamp 1 at 0 / write 1 logged",
    ),
    (
        "cache log=8 ttl=10 tti=10 / at 18446744073709551610 / start insert 1 5 / poll 1 / at 18446744073709551614 / start get 1 / poll 2 / at 18446744073709551615 / start get 1 / poll 3",
        "at / call 1 / answer done / at / call 2 / answer some 5 / at / call 3 / answer none / entry 1 5 stamp 1 at 18446744073709551610 / write 1 logged",
    ),
    // A look that shows the record accesses it, at the moment at which it judges.
    (
        "cache log=8 tti=10 / start insert 1 5 / poll 1 / start get 1 / step 2 / step 2 / at 9 / step 2 / at 18 / start get 1 / poll 3 / at 28 / start get 1 / poll 4",
        "call 1 / answer done / call 2 / going / going / at / answer some 5 / at / call 3 / answer some 5 / at / call 4 / answer none / entry 1 5 stamp 1 at 0 / write 1 logged",
    ),
    (
        "cache log=8 tti=10 / start insert 1 5 / poll 1 / at 9 / start get_with 1 / poll 2 / at 18 / start compute 1 / poll 3 / at 27 / start or_insert 1 6 / poll 4 / at 36 / start get 1 / poll 5",
        "call 1 / answer done / at / call 2 / answer value 5 / at / call 3 / ask compute 1 5 / at / call 4 / answer value 5 / at / call 5 / answer some 5 / entry 1 5 stamp 1 at 0 / write 1 logged",
    ),
    // One that misses doesn't, and neither does one whose test holds.
    (
        "cache log=8 tti=10 / start insert 1 5 / poll 1 / at 12 / start get 1 / poll 2 / at 13 / start get 1 / poll 3",
        "call 1 / answer done / at / call 2 / answer none / at / call 3 / answer none / entry 1 5 stamp 1 at 0 / write 1 logged",
    ),
    (
        "cache log=8 tti=10 / start insert 1 5 / poll 1 / at 9 / start get_with 1 if 5 / poll 2 / at 10 / start get 1 / poll 3",
        "call 1 / answer done / at / call 2 / ask init / at / call 3 / answer none / entry 1 5 stamp 1 at 0 / write 1 logged",
    ),
    // A look carries when its record was seen last, though that is taken out meanwhile.
    (
        "cache log=1 tti=10 / start insert 1 5 / poll 1 / at 8 / start get 1 / poll 2 / start get 1 / step 3 / step 3 / at 9 / start remove 1 / poll 4 / start insert 2 6 / poll 5 / start insert 3 7 / poll 6 / at 17 / step 3",
        "call 1 / answer done / at / call 2 / answer some 5 / call 3 / going / going / at / call 4 / answer some 5 / call 5 / answer done / call 6 / answer done / at / answer some 5 / entry 2 6 stamp 5 at 9 / entry 3 7 stamp 6 at 9 / write 1 applied / write 4 applied / write 5 applied / write 6 logged",
    ),
    (
        "cache log=1 tti=10 / start insert 1 5 / poll 1 / at 8 / start get 1 / poll 2 / start get 1 / step 3 / step 3 / at 9 / start remove 1 / poll 4 / start insert 2 6 / poll 5 / start insert 3 7 / poll 6 / at 18 / step 3",
        "call 1 / answer done / at / call 2 / answer some 5 / call 3 / going / going / at / call 4 / answer some 5 / call 5 / answer done / call 6 / answer done / at / answer none / entry 2 6 stamp 5 at 9 / entry 3 7 stamp 6 at 9 / write 1 applied / write 4 applied / write 5 applied / write 6 logged",
    ),
    // The shorter of two times counts.
    (
        "cache log=8 ttl=10 tti=7 / start insert 1 5 / poll 1 / at 6 / start get 1 / poll 2 / at 9 / start get 1 / poll 3 / at 10 / start get 1 / poll 4",
        "call 1 / answer done / at / call 2 / answer some 5 / at / call 3 / answer some 5 / at / call 4 / answer none / entry 1 5 stamp 1 at 0 / write 1 logged",
    ),
    // Why a record leaves goes by the clock as the listener is told, not by that of the write.
    (
        "cache log=8 ttl=10 listener / start insert 1 5 / poll 1 / at 9 / start insert 1 6 / step 2 / step 2 / step 2 / step 2",
        "call 1 / answer done / at / call 2 / going / going / going / going / entry 1 6 stamp 2 at 9 / write 1 logged / write 2 held / notice 2 1 5 Replaced waiting",
    ),
    (
        "cache log=8 ttl=10 listener / start insert 1 5 / poll 1 / at 9 / start insert 1 6 / step 2 / step 2 / step 2 / step 2 / at 10",
        "call 1 / answer done / at / call 2 / going / going / going / going / at / entry 1 6 stamp 2 at 9 / write 1 logged / write 2 held / notice 2 1 5 Expired waiting",
    ),
    (
        "cache log=8 ttl=10 listener / start insert 1 5 / poll 1 / at 9 / start insert 1 6 / step 2 / step 2 / step 2 / step 2 / at 10 / step 2",
        "call 1 / answer done / at / call 2 / going / going / going / going / at / ask listener 1 5 Expired / entry 1 6 stamp 2 at 9 / write 1 logged / write 2 held / notice 2 1 5 Expired running",
    ),
    // What no look shows is removed and answered all the same.
    (
        "cache log=8 ttl=10 listener / start insert 1 5 / poll 1 / at 10 / start remove 1 / poll 2 / tell 2 done / poll 2",
        "call 1 / answer done / at / call 2 / ask listener 1 5 Expired / told / answer some 5 / write 1 logged / write 2 logged / notice 2 1 5 Expired ended",
    ),
    (
        "cache log=8 tti=10 listener / start insert 1 5 / poll 1 / at 10 / start invalidate 1 / poll 2 / tell 2 done / poll 2",
        "call 1 / answer done / at / call 2 / ask listener 1 5 Expired / told / answer done / write 1 logged / write 2 logged / notice 2 1 5 Expired ended",
    ),
    (
        "cache log=8 ttl=10 / start insert 1 5 / poll 1 / at 9 / start evict 1 1 Expired / poll 2 / at 10 / start evict 1 1 Expired / poll 3",
        "call 1 / answer done / at / call 2 / answer kept / at / call 3 / answer evicted / write 1 logged / write 3 logged",
    ),
    (
        "cache log=8 tti=10 / start insert 1 5 / poll 1 / at 9 / start get 1 / poll 2 / at 10 / start evict 1 1 Expired / poll 3 / at 19 / start evict 1 1 Expired / poll 4",
        "call 1 / answer done / at / call 2 / answer some 5 / at / call 3 / answer kept / at / call 4 / answer evicted / write 1 logged / write 4 logged",
    ),
    // What is stored over it is new to its caller, and the listener hears of the old.
    (
        "cache log=8 ttl=10 listener / start insert 1 5 / poll 1 / at 10 / start compute 1 / poll 2 / tell 2 put 6 / poll 2 / tell 2 done / poll 2",
        "call 1 / answer done / at / call 2 / ask compute none / told / ask listener 1 5 Expired / told / answer inserted 6 / entry 1 6 stamp 2 at 10 / write 1 logged / write 2 logged / notice 2 1 5 Expired ended",
    ),
    (
        "cache log=8 ttl=10 listener / start insert 1 5 / poll 1 / at 10 / start get_with 1 / poll 2 / tell 2 value 6 / poll 2 / tell 2 done / poll 2",
        "call 1 / answer done / at / call 2 / ask init / told / ask listener 1 5 Expired / told / answer value 6 fresh / entry 1 6 stamp 2 at 10 / write 1 logged / write 2 logged / notice 2 1 5 Expired ended",
    ),
    (
        "cache log=8 tti=10 listener / start insert 1 5 / poll 1 / at 10 / start or_insert 1 6 / poll 2 / tell 2 done / poll 2",
        "call 1 / answer done / at / call 2 / ask listener 1 5 Expired / told / answer value 6 fresh / entry 1 6 stamp 2 at 10 / write 1 logged / write 2 logged / notice 2 1 5 Expired ended",
    ),
    // A compute that is told to leave what it doesn't see finds none, and takes nothing out.
    (
        "cache log=8 ttl=10 / start insert 1 5 / poll 1 / at 10 / start compute 1 / poll 2 / tell 2 nop / poll 2",
        "call 1 / answer done / at / call 2 / ask compute none / told / answer stillnone / entry 1 5 stamp 1 at 0 / write 1 logged",
    ),
];

/// Schedules in which all records are invalidated, each with the report that it comes to.
pub(crate) const INVALIDATED: [(&str, &str); 11] = [
    // What was written at the moment of the invalidation is spared, and what was before is hidden.
    (
        "cache log=8 / at 7 / start insert 1 5 / poll 1 / start invalidate_all / poll 2 / start get 1 / poll 3 / at 8 / start invalidate_all / poll 4 / start get 1 / poll 5",
        "at / call 1 / answer done / call 2 / answer done / call 3 / answer some 5 / at / call 4 / answer done / call 5 / answer none / entry 1 5 stamp 1 at 7 / write 1 logged",
    ),
    // It goes by the write, though the record was seen since; a later write is shown.
    (
        "cache log=8 tti=10 / start insert 1 5 / poll 1 / at 5 / start get 1 / poll 2 / start invalidate_all / poll 3 / start get 1 / poll 4 / start insert 1 6 / poll 5 / start get 1 / poll 6",
        "call 1 / answer done / at / call 2 / answer some 5 / call 3 / answer done / call 4 / answer none / call 5 / answer done / call 6 / answer some 6 / entry 1 6 stamp 5 at 5 / write 1 logged / write 5 logged",
    ),
    // It answers with its first step, in a disabled cache too.
    (
        "cache / start invalidate_all / step 1 / step 1",
        "call 1 / answer done / refused UnknownCall",
    ),
    (
        "cache cap=0 / start invalidate_all / step 1",
        "call 1 / answer done",
    ),
    // It waits for nobody, and a call between its look and its judging misses what it found.
    (
        "cache log=8 listener / start insert 1 5 / poll 1 / start get 1 / step 2 / step 2 / start insert 1 6 / poll 3 / at 1 / start invalidate_all / poll 4 / step 2",
        "call 1 / answer done / call 2 / going / going / call 3 / ask listener 1 5 Replaced / at / call 4 / answer done / answer none / entry 1 6 stamp 3 at 0 / write 1 logged / write 3 held / notice 3 1 5 Replaced running",
    ),
    // Why a record leaves: the time to live is asked first, then the invalidation, then the time to idle.
    (
        "cache log=8 tti=10 listener / start insert 1 5 / poll 1 / at 20 / start invalidate_all / poll 2 / start insert 1 6 / poll 3 / tell 3 done / poll 3",
        "call 1 / answer done / at / call 2 / answer done / call 3 / ask listener 1 5 Explicit / told / answer done / entry 1 6 stamp 3 at 20 / write 1 logged / write 3 logged / notice 3 1 5 Explicit ended",
    ),
    (
        "cache log=8 ttl=10 listener / start insert 1 5 / poll 1 / at 20 / start invalidate_all / poll 2 / start insert 1 6 / poll 3",
        "call 1 / answer done / at / call 2 / answer done / call 3 / ask listener 1 5 Expired / entry 1 6 stamp 3 at 20 / write 1 logged / write 3 held / notice 3 1 5 Expired running",
    ),
    (
        "cache log=8 listener / start insert 1 5 / poll 1 / start invalidate_all / poll 2 / start insert 1 6 / poll 3 / at 1 / start invalidate_all / poll 4",
        "call 1 / answer done / call 2 / answer done / call 3 / ask listener 1 5 Replaced / at / call 4 / answer done / entry 1 6 stamp 3 at 0 / write 1 logged / write 3 held / notice 3 1 5 Replaced running",
    ),
    // A removal takes out what is hidden, and asks the times alone.
    (
        "cache log=8 tti=10 listener / start insert 1 5 / poll 1 / at 20 / start invalidate_all / poll 2 / start remove 1 / poll 3",
        "call 1 / answer done / at / call 2 / answer done / call 3 / ask listener 1 5 Expired / write 1 logged / write 3 held / notice 3 1 5 Expired running",
    ),
    // A chosen record leaves for Explicit where it is hidden.
    (
        "cache log=8 / start insert 1 5 / poll 1 / at 1 / start evict 1 1 Explicit / poll 2 / start invalidate_all / poll 3 / start evict 1 1 Explicit / poll 4",
        "call 1 / answer done / at / call 2 / answer kept / call 3 / answer done / call 4 / answer evicted / write 1 logged / write 4 logged",
    ),
    // What is hidden is loaded anew, and a compute asks with nothing.
    (
        "cache log=8 / start insert 1 5 / poll 1 / start insert 2 6 / poll 2 / at 1 / start invalidate_all / poll 3 / start get_with 1 / poll 4 / start upsert 2 / poll 5 / tell 5 value 7 / poll 5 / tell 4 value 8 / poll 4",
        "call 1 / answer done / call 2 / answer done / at / call 3 / answer done / call 4 / ask init / call 5 / ask compute none / told / answer inserted 7 / told / answer value 8 fresh / entry 1 8 stamp 4 at 1 / entry 2 7 stamp 5 at 1 / write 1 logged / write 2 logged / write 4 logged / write 5 logged",
    ),
];

#[test]
fn records_that_expire_are_reported(rt: HostRuntime) -> Result<(), Fail> {
    are_reported(&rt, &EXPIRING)
}

#[test]
fn invalidations_of_all_are_reported(rt: HostRuntime) -> Result<(), Fail> {
    are_reported(&rt, &INVALIDATED)
}
