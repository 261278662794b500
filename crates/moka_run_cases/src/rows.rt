//! Worked schedules that a play reports to the end. ` / ` parts lines.

use crate::in_memory::are_reported;
use std::test::Fail;

/// Schedules, each with the report that it comes to.
pub(crate) const ROWS: [(&str, &str); 11] = [
    // Calls answer what was stored.
    ("cache", ""),
    (
        "cache log=8 / start get 1 / poll 1 / poll 1 / poll 9",
        "call 1 / answer none / refused UnknownCall / refused UnknownCall",
    ),
    (
        "cache log=8 / start insert 1 5 / poll 1 / start get 1 / poll 2",
        "call 1 / answer done / call 2 / answer some 5 / entry 1 5 stamp 1 at 0 / write 1 logged",
    ),
    (
        "cache log=8 / start insert 1 5 / poll 1 / at 7 / start insert 1 6 / poll 2 / start get 1 / poll 3",
        "call 1 / answer done / at / call 2 / answer done / call 3 / answer some 6 / entry 1 6 stamp 2 at 7 / write 1 logged / write 2 logged",
    ),
    (
        "cache log=8 / start insert 4294967295 0 / poll 1 / start insert 0 4294967295 / poll 2",
        "call 1 / answer done / call 2 / answer done / entry 0 4294967295 stamp 2 at 0 / entry 4294967295 0 stamp 1 at 0 / write 1 logged / write 2 logged",
    ),
    // A full log is applied first.
    (
        "cache log=1 / start insert 1 5 / poll 1 / start insert 2 6 / poll 2",
        "call 1 / answer done / call 2 / answer done / entry 1 5 stamp 1 at 0 / entry 2 6 stamp 2 at 0 / write 1 applied / write 2 logged",
    ),
    (
        "cache log=2 / start insert 1 5 / poll 1 / start insert 2 6 / poll 2 / start insert 3 7 / poll 3 / start insert 4 8 / poll 4 / start insert 5 9 / poll 5",
        "call 1 / answer done / call 2 / answer done / call 3 / answer done / call 4 / answer done / call 5 / answer done / entry 1 5 stamp 1 at 0 / entry 2 6 stamp 2 at 0 / entry 3 7 stamp 3 at 0 / entry 4 8 stamp 4 at 0 / entry 5 9 stamp 5 at 0 / write 1 applied / write 2 applied / write 3 applied / write 4 applied / write 5 logged",
    ),
    // One initializer serves all that load.
    (
        "cache log=8 / start get_with 1 / start get_with 1 / poll 1 / poll 2 / tell 1 value 7 / poll 1 / poll 2",
        "call 1 / call 2 / ask init / wait / told / answer value 7 fresh / answer value 7 / entry 1 7 stamp 1 at 0 / write 1 logged",
    ),
    // Refused events change nothing.
    (
        "cache log=8 / start get 1 / poll 1 / drop 1 / start get_with 1 / poll 2 / tell 2 done / tell 9 value 1 / at 5 / at 4 / start get 1 / step 3 / drop 3 / poll 3",
        "call 1 / answer none / refused UnknownCall / call 2 / ask init / refused NotAsked / refused NotAsked / at / refused ClockBack / call 3 / going / refused NotParked / answer none",
    ),
    // Single steps come to what polls do.
    (
        "cache log=1 / start insert 1 5 / poll 1 / start insert 2 6 / poll 2 / start get 2 / poll 3",
        "call 1 / answer done / call 2 / answer done / call 3 / answer some 6 / entry 1 5 stamp 1 at 0 / entry 2 6 stamp 2 at 0 / write 1 applied / write 2 logged",
    ),
    (
        "cache log=1 / start insert 1 5 / step 1 / step 1 / step 1 / step 1 / start insert 2 6 / step 2 / step 2 / step 2 / step 2 / step 2 / step 2 / step 2 / step 2 / step 2 / start get 2 / step 3 / step 3 / step 3",
        "call 1 / going / going / going / answer done / call 2 / going / going / going / going / going / going / going / going / answer done / call 3 / going / going / answer some 6 / entry 1 5 stamp 1 at 0 / entry 2 6 stamp 2 at 0 / write 1 applied / write 2 logged",
    ),
];

#[test]
fn gets_inserts_and_loads_are_reported(rt: HostRuntime) -> Result<(), Fail> {
    are_reported(&rt, &ROWS)
}
