//! Worked schedules in which records are taken out, or a cache stores nothing. ` / ` parts lines.

use crate::in_memory::are_reported;
use std::test::Fail;

/// Schedules, each with the report that it comes to.
pub(crate) const ROWS: [(&str, &str); 24] = [
    // A record that is removed is not found again.
    (
        "cache log=8 / start insert 1 5 / poll 1 / start remove 1 / poll 2 / start remove 1 / poll 3 / start get 1 / poll 4",
        "call 1 / answer done / call 2 / answer some 5 / call 3 / answer none / call 4 / answer none / write 1 logged / write 2 logged",
    ),
    (
        "cache log=8 / start insert 1 5 / poll 1 / start invalidate 1 / poll 2 / start invalidate 1 / poll 3 / start get 1 / poll 4",
        "call 1 / answer done / call 2 / answer done / call 3 / answer done / call 4 / answer none / write 1 logged / write 2 logged",
    ),
    (
        "cache log=8 / start insert 1 5 / poll 1 / start insert 2 6 / poll 2 / start remove 1 / poll 3 / start insert 1 7 / poll 4",
        "call 1 / answer done / call 2 / answer done / call 3 / answer some 5 / call 4 / answer done / entry 1 7 stamp 4 at 0 / entry 2 6 stamp 2 at 0 / write 1 logged / write 2 logged / write 3 logged / write 4 logged",
    ),
    // A chosen record leaves only where its stamp and cause hold.
    (
        "cache cap=1 log=8 / start insert 1 5 / poll 1 / start evict 1 9 Size / poll 2 / start evict 1 1 Expired / poll 3 / start evict 1 1 Size / poll 4 / start remove 1 / poll 5 / start invalidate 1 / poll 6",
        "call 1 / answer done / call 2 / answer kept / call 3 / answer kept / call 4 / answer evicted / call 5 / answer none / call 6 / answer done / write 1 logged / write 4 logged",
    ),
    (
        "cache cap=1 log=8 / start insert 1 5 / poll 1 / start evict 1 1 Replaced / poll 2 / start evict 1 1 Explicit / poll 3 / start evict 2 1 Size / poll 4",
        "call 1 / answer done / call 2 / answer kept / call 3 / answer kept / call 4 / answer kept / entry 1 5 stamp 1 at 0 / write 1 logged",
    ),
    (
        "cache log=8 / start insert 1 5 / poll 1 / start evict 1 1 Size / poll 2",
        "call 1 / answer done / call 2 / answer kept / entry 1 5 stamp 1 at 0 / write 1 logged",
    ),
    // An insert past the capacity evicts nothing by itself.
    (
        "cache cap=1 log=8 / start insert 1 5 / poll 1 / start insert 2 6 / poll 2",
        "call 1 / answer done / call 2 / answer done / entry 1 5 stamp 1 at 0 / entry 2 6 stamp 2 at 0 / write 1 logged / write 2 logged",
    ),
    // A cache of capacity 0 stores nothing, and shares loads.
    (
        "cache cap=0 log=8 / start insert 1 5 / poll 1 / start get 1 / poll 2 / start get_with 1 / poll 3 / tell 3 value 3 / poll 3",
        "call 1 / answer done / call 2 / answer none / call 3 / ask init / told / answer value 3 fresh",
    ),
    (
        "cache cap=0 log=8 / start get_with 1 / start get_with 1 / poll 1 / poll 2 / tell 1 value 7 / poll 1 / poll 2 / start get_with 1 / poll 3",
        "call 1 / call 2 / ask init / wait / told / answer value 7 fresh / answer value 7 / call 3 / ask init",
    ),
    (
        "cache cap=0 log=8 / start get_with 1 / start get_with 1 / poll 1 / poll 2 / drop 1 / poll 2 / tell 2 value 8 / poll 2",
        "call 1 / call 2 / ask init / wait / dropped / ask init / told / answer value 8 fresh",
    ),
    (
        "cache cap=0 log=8 listener / start insert 1 5 / step 1 / start get 1 / step 2 / start remove 1 / poll 3 / start invalidate 1 / poll 4 / start evict 1 1 Size / poll 5",
        "call 1 / answer done / call 2 / answer none / call 3 / answer none / call 4 / answer done / call 5 / answer kept",
    ),
    // A listener hears of a removal under the key's lock.
    (
        "cache log=8 listener / start insert 1 5 / poll 1 / start remove 1 / poll 2 / start insert 1 6 / poll 3 / start invalidate 1 / poll 4 / tell 2 done / poll 2 / poll 3 / poll 4",
        "call 1 / answer done / call 2 / ask listener 1 5 Explicit / call 3 / wait / call 4 / wait / told / answer some 5 / answer done / ask listener 1 6 Explicit / write 1 logged / write 2 logged / write 3 logged / write 4 held / notice 2 1 5 Explicit ended / notice 4 1 6 Explicit running",
    ),
    (
        "cache cap=1 log=8 listener / start insert 1 5 / poll 1 / start evict 1 1 Size / poll 2 / start get 1 / poll 3 / tell 2 done / poll 2",
        "call 1 / answer done / call 2 / ask listener 1 5 Size / call 3 / answer none / told / answer evicted / write 1 logged / write 2 logged / notice 2 1 5 Size ended",
    ),
    // A removal that was dropped while heard is owed until a call drains.
    (
        "cache cap=1 log=8 listener / start insert 1 5 / poll 1 / start evict 1 1 Size / poll 2 / drop 2 / tell 2 done / start evict 1 1 Size / poll 3",
        "call 1 / answer done / call 2 / ask listener 1 5 Size / dropped / told / call 3 / answer kept / write 1 logged / write 2 owed / notice 2 1 5 Size ended",
    ),
    (
        "cache cap=1 log=8 listener / start insert 1 5 / poll 1 / start evict 1 1 Size / poll 2 / drop 2 / tell 2 done / start evict 1 1 Size / poll 3 / start get 1 / poll 4",
        "call 1 / answer done / call 2 / ask listener 1 5 Size / dropped / told / call 3 / answer kept / call 4 / answer none / write 1 logged / write 2 logged / notice 2 1 5 Size ended",
    ),
    // A removal is skipped once the listener is off.
    (
        "cache log=8 listener / start insert 1 5 / poll 1 / start insert 1 6 / poll 2 / tell 2 off / poll 2 / start invalidate 1 / poll 3",
        "call 1 / answer done / call 2 / ask listener 1 5 Replaced / told / answer done / call 3 / answer done / write 1 logged / write 2 logged / write 3 logged / notice 2 1 5 Replaced ended / notice 3 1 6 Explicit skipped",
    ),
    // A removal is applied in its turn.
    (
        "cache log=1 / start insert 1 5 / poll 1 / start remove 1 / poll 2 / start insert 2 6 / poll 3",
        "call 1 / answer done / call 2 / answer some 5 / call 3 / answer done / entry 2 6 stamp 3 at 0 / write 1 applied / write 2 applied / write 3 logged",
    ),
    // A removal takes so many steps.
    (
        "cache log=8 / start remove 1 / step 1 / step 1 / step 1 / step 1",
        "call 1 / going / going / going / answer none",
    ),
    (
        "cache log=8 listener / start remove 1 / step 1 / step 1 / step 1 / step 1 / step 1",
        "call 1 / going / going / going / going / answer none",
    ),
    (
        "cache cap=1 log=8 / start evict 1 1 Size / step 1",
        "call 1 / answer kept",
    ),
    (
        "cache cap=1 log=8 listener / start evict 1 1 Size / step 1 / step 1 / step 1",
        "call 1 / going / going / answer kept",
    ),
    (
        "cache cap=1 log=8 / start insert 1 5 / poll 1 / start evict 1 1 Size / step 2 / step 2 / step 2 / step 2 / step 2",
        "call 1 / answer done / call 2 / going / going / going / going / answer evicted / write 1 logged / write 2 logged",
    ),
    // A removal that comes too late writes nothing.
    (
        "cache cap=1 log=8 / start insert 1 5 / poll 1 / start evict 1 1 Size / step 2 / step 2 / step 2 / start insert 1 6 / poll 3 / step 2 / step 2",
        "call 1 / answer done / call 2 / going / going / going / call 3 / answer done / going / answer kept / entry 1 6 stamp 3 at 0 / write 1 logged / write 3 logged",
    ),
    (
        "cache log=8 / start insert 1 5 / poll 1 / start remove 1 / step 2 / step 2 / start remove 1 / poll 3 / step 2 / step 2",
        "call 1 / answer done / call 2 / going / going / call 3 / answer some 5 / going / answer none / write 1 logged / write 3 logged",
    ),
];

#[test]
fn removals_are_reported(rt: HostRuntime) -> Result<(), Fail> {
    are_reported(&rt, &ROWS)
}
