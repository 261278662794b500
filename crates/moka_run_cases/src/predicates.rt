//! Worked schedules with predicates, which hide records, and with maintenance. ` / ` parts lines.

use crate::in_memory::are_reported;
use std::test::Fail;

/// Schedules, each with the report that it comes to.
pub(crate) const ROWS: [(&str, &str); 24] = [
    // A predicate hides a record that is written at its moment, after it, and spares what is written later.
    (
        "cache log=8 closures / start invalidate_if 2 / poll 1 / start insert 1 4 / poll 2 / start get 1 / poll 3",
        "call 1 / answer id 20ae25da-d4e2-4c53-98f9-38e12bbf69fb / call 2 / answer done / call 3 / answer none / entry 1 4 stamp 2 at 0 / write 2 logged / test 2 at 0",
    ),
    (
        "cache log=8 closures / start insert 1 4 / poll 1 / start get 1 / poll 2 / start invalidate_if 2 / poll 3 / start get 1 / poll 4 / at 1 / start insert 1 6 / poll 5 / start get 1 / poll 6",
        "call 1 / answer done / call 2 / answer some 4 / call 3 / answer id 20ae25da-d4e2-4c53-98f9-38e12bbf69fb / call 4 / answer none / at / call 5 / answer done / call 6 / answer some 6 / entry 1 6 stamp 5 at 1 / write 1 logged / write 5 logged / test 2 at 0",
    ),
    // It hides where its test holds alone; test 0 holds on no record, and any other on the value 0.
    (
        "cache log=8 closures / start insert 1 4 / poll 1 / start insert 2 5 / poll 2 / start invalidate_if 2 / poll 3 / start get 1 / poll 4 / start get 2 / poll 5",
        "call 1 / answer done / call 2 / answer done / call 3 / answer id 20ae25da-d4e2-4c53-98f9-38e12bbf69fb / call 4 / answer none / call 5 / answer some 5 / entry 1 4 stamp 1 at 0 / entry 2 5 stamp 2 at 0 / write 1 logged / write 2 logged / test 2 at 0",
    ),
    (
        "cache log=8 closures / start insert 1 0 / poll 1 / start invalidate_if 0 / poll 2 / start get 1 / poll 3 / start invalidate_if 18446744073709551615 / poll 4 / start get 1 / poll 5",
        "call 1 / answer done / call 2 / answer id 20ae25da-d4e2-4c53-98f9-38e12bbf69fb / call 3 / answer some 0 / call 4 / answer id b5b235d6-0cf8-4231-89f7-1ee2b019a7da / call 5 / answer none / entry 1 0 stamp 1 at 0 / write 1 logged / test 0 at 0 / test 18446744073709551615 at 0",
    ),
    // Each of several hides; one number is registered twice, at the moment of the step.
    (
        "cache closures / start invalidate_if 2 / poll 1 / start invalidate_if 2 / at 3 / poll 2",
        "call 1 / answer id 20ae25da-d4e2-4c53-98f9-38e12bbf69fb / call 2 / at / answer id b5b235d6-0cf8-4231-89f7-1ee2b019a7da / test 2 at 0 / test 2 at 3",
    ),
    (
        "cache log=8 closures / start invalidate_if 3 / poll 1 / at 1 / start insert 1 6 / poll 2 / start insert 2 5 / poll 3 / start invalidate_if 2 / poll 4 / at 2 / start get 1 / poll 5 / start get 2 / poll 6",
        "call 1 / answer id 20ae25da-d4e2-4c53-98f9-38e12bbf69fb / at / call 2 / answer done / call 3 / answer done / call 4 / answer id b5b235d6-0cf8-4231-89f7-1ee2b019a7da / at / call 5 / answer none / call 6 / answer some 5 / entry 1 6 stamp 2 at 1 / entry 2 5 stamp 3 at 1 / write 2 logged / write 3 logged / test 3 at 0 / test 2 at 1",
    ),
    // It answers with its first step; a call that is dropped before registers nothing.
    (
        "cache closures / start invalidate_if 2 / step 1 / step 1",
        "call 1 / answer id 20ae25da-d4e2-4c53-98f9-38e12bbf69fb / refused UnknownCall / test 2 at 0",
    ),
    (
        "cache closures / start invalidate_if 2 / drop 1 / start invalidate_if 3 / poll 2",
        "call 1 / dropped / call 2 / answer id 20ae25da-d4e2-4c53-98f9-38e12bbf69fb / test 3 at 0",
    ),
    // The ids are those of the seed.
    (
        "cache seed=1 closures / start invalidate_if 2 / poll 1",
        "call 1 / answer id d701f5c8-2406-4d47-846d-af9b8abaaf57 / test 2 at 0",
    ),
    (
        "cache log=8 seed=0 closures / start invalidate_if 2 / poll 1",
        "call 1 / answer id 20ae25da-d4e2-4c53-98f9-38e12bbf69fb / test 2 at 0",
    ),
    // Without closures no predicate is registered. A disabled cache registers one all the same.
    (
        "cache log=8 listener / start insert 1 4 / poll 1 / start invalidate_if 2 / poll 2 / start get 1 / poll 3",
        "call 1 / answer done / call 2 / answer disabled / call 3 / answer some 4 / entry 1 4 stamp 1 at 0 / write 1 logged",
    ),
    (
        "cache cap=0 closures / start invalidate_if 2 / poll 1 / start get 1 / poll 2",
        "call 1 / answer id 20ae25da-d4e2-4c53-98f9-38e12bbf69fb / call 2 / answer none / test 2 at 0",
    ),
    (
        "cache cap=0 / start invalidate_if 2 / poll 1",
        "call 1 / answer disabled",
    ),
    // A look judges by the predicates of its own visit, also what it found before.
    (
        "cache log=8 closures / start insert 1 4 / poll 1 / start get 1 / step 2 / step 2 / start invalidate_if 2 / poll 3 / step 2",
        "call 1 / answer done / call 2 / going / going / call 3 / answer id 20ae25da-d4e2-4c53-98f9-38e12bbf69fb / answer none / entry 1 4 stamp 1 at 0 / write 1 logged / test 2 at 0",
    ),
    (
        "cache log=8 closures / start insert 1 4 / poll 1 / start invalidate_if 2 / poll 2 / start get 1 / step 3 / step 3 / at 1 / start evict 1 1 Explicit / poll 4 / step 3",
        "call 1 / answer done / call 2 / answer id 20ae25da-d4e2-4c53-98f9-38e12bbf69fb / call 3 / going / going / at / call 4 / answer evicted / answer none / write 1 logged / write 4 logged / test 2 at 0",
    ),
    // A load, an or_insert and a compute find nothing there; what they store is new to their callers.
    (
        "cache log=8 closures / start insert 1 4 / poll 1 / start invalidate_if 4 / poll 2 / start get_with 1 / poll 3 / at 1 / tell 3 value 8 / poll 3 / start get 1 / poll 4",
        "call 1 / answer done / call 2 / answer id 20ae25da-d4e2-4c53-98f9-38e12bbf69fb / call 3 / ask init / at / told / answer value 8 fresh / call 4 / answer some 8 / entry 1 8 stamp 3 at 1 / write 1 logged / write 3 logged / test 4 at 0",
    ),
    (
        "cache log=8 closures / start insert 1 4 / poll 1 / start invalidate_if 2 / poll 2 / start or_insert 1 6 / poll 3 / start or_insert 1 5 / poll 4 / start or_insert 1 7 / poll 5",
        "call 1 / answer done / call 2 / answer id 20ae25da-d4e2-4c53-98f9-38e12bbf69fb / call 3 / answer value 6 fresh / call 4 / answer value 5 fresh / call 5 / answer value 5 / entry 1 5 stamp 4 at 0 / write 1 logged / write 3 logged / write 4 logged / test 2 at 0",
    ),
    (
        "cache log=8 closures / start insert 1 4 / poll 1 / start invalidate_if 2 / poll 2 / start compute 1 / poll 3 / tell 3 put 5 / poll 3 / start compute 1 / poll 4 / tell 4 nop / poll 4",
        "call 1 / answer done / call 2 / answer id 20ae25da-d4e2-4c53-98f9-38e12bbf69fb / call 3 / ask compute none / told / answer inserted 5 / call 4 / ask compute 1 5 / told / answer unchanged 5 / entry 1 5 stamp 3 at 0 / write 1 logged / write 3 logged / test 2 at 0",
    ),
    // A removal takes the record out all the same, and an eviction for Explicit does.
    (
        "cache log=8 closures / start insert 1 4 / poll 1 / start insert 2 6 / poll 2 / start invalidate_if 2 / poll 3 / start remove 1 / poll 4 / start compute 2 / poll 5 / tell 5 remove / poll 5",
        "call 1 / answer done / call 2 / answer done / call 3 / answer id 20ae25da-d4e2-4c53-98f9-38e12bbf69fb / call 4 / answer some 4 / call 5 / ask compute none / told / answer removed 6 / write 1 logged / write 2 logged / write 4 logged / write 5 logged / test 2 at 0",
    ),
    (
        "cache log=8 closures / start insert 1 4 / poll 1 / start evict 1 1 Explicit / poll 2 / start invalidate_if 2 / poll 3 / start evict 1 1 Expired / poll 4 / start evict 1 1 Explicit / poll 5",
        "call 1 / answer done / call 2 / answer kept / call 3 / answer id 20ae25da-d4e2-4c53-98f9-38e12bbf69fb / call 4 / answer kept / call 5 / answer evicted / write 1 logged / write 5 logged / test 2 at 0",
    ),
    // No cause of a notice asks a predicate.
    (
        "cache log=8 listener closures / start insert 1 4 / poll 1 / start invalidate_if 2 / poll 2 / at 1 / start insert 1 6 / poll 3 / tell 3 done / poll 3 / start get 1 / poll 4",
        "call 1 / answer done / call 2 / answer id 20ae25da-d4e2-4c53-98f9-38e12bbf69fb / at / call 3 / ask listener 1 4 Replaced / told / answer done / call 4 / answer some 6 / entry 1 6 stamp 3 at 1 / write 1 logged / write 3 logged / notice 3 1 4 Replaced ended / test 2 at 0",
    ),
    (
        "cache log=8 listener closures / start insert 1 4 / poll 1 / start invalidate_if 2 / poll 2 / start remove 1 / poll 3 / tell 3 done / poll 3",
        "call 1 / answer done / call 2 / answer id 20ae25da-d4e2-4c53-98f9-38e12bbf69fb / call 3 / ask listener 1 4 Explicit / told / answer some 4 / write 1 logged / write 3 logged / notice 3 1 4 Explicit ended / test 2 at 0",
    ),
    // A walk passes over what is hidden as it comes to it.
    (
        "cache log=8 closures / start insert 1 4 / poll 1 / start iter / step 2 / start invalidate_if 2 / poll 3 / poll 2 / start insert 1 5 / poll 4 / start iter / poll 5 / poll 5",
        "call 1 / answer done / call 2 / going / call 3 / answer id 20ae25da-d4e2-4c53-98f9-38e12bbf69fb / answer end / call 4 / answer done / call 5 / item 1 5 / answer end / entry 1 5 stamp 4 at 0 / write 1 logged / write 4 logged / test 2 at 0",
    ),
    // A replace test and a predicate are asked of one record.
    (
        "cache log=8 closures / start insert 1 4 / poll 1 / start invalidate_if 3 / poll 2 / start get_with 1 if 3 / poll 3 / start get_with 1 if 2 / poll 4",
        "call 1 / answer done / call 2 / answer id 20ae25da-d4e2-4c53-98f9-38e12bbf69fb / call 3 / answer value 4 / call 4 / ask init / entry 1 4 stamp 1 at 0 / write 1 logged / test 3 at 0",
    ),
];

#[test]
fn what_predicates_hide_is_reported(rt: HostRuntime) -> Result<(), Fail> {
    are_reported(&rt, &ROWS)
}

/// Schedules with maintenance, each with the report that it comes to.
pub(crate) const MAINTAINED: [(&str, &str); 14] = [
    // A predicate stays while it hides a record, and while its moment isn't past; then it leaves.
    (
        "cache log=8 closures / start invalidate_if 2 / poll 1 / start insert 1 4 / poll 2 / start get 1 / poll 3 / start pending / poll 4",
        "call 1 / answer id 20ae25da-d4e2-4c53-98f9-38e12bbf69fb / call 2 / answer done / call 3 / answer none / call 4 / answer done / entry 1 4 stamp 2 at 0 / write 2 applied / test 2 at 0",
    ),
    (
        "cache log=8 closures / start invalidate_if 2 / poll 1 / start insert 1 4 / poll 2 / start get 1 / poll 3 / start pending / poll 4 / at 1 / start evict 1 2 Explicit / poll 5 / start pending / poll 6",
        "call 1 / answer id 20ae25da-d4e2-4c53-98f9-38e12bbf69fb / call 2 / answer done / call 3 / answer none / call 4 / answer done / at / call 5 / answer evicted / call 6 / answer done / write 2 applied / write 5 applied",
    ),
    (
        "cache log=8 closures / start invalidate_if 2 / poll 1 / start invalidate_if 3 / poll 2 / start insert 1 4 / poll 3 / at 1 / start pending / poll 4",
        "call 1 / answer id 20ae25da-d4e2-4c53-98f9-38e12bbf69fb / call 2 / answer id b5b235d6-0cf8-4231-89f7-1ee2b019a7da / call 3 / answer done / at / call 4 / answer done / entry 1 4 stamp 3 at 0 / write 3 applied / test 2 at 0",
    ),
    (
        "cache log=8 closures / start invalidate_if 2 / poll 1 / start pending / poll 2 / start insert 1 4 / poll 3 / start get 1 / poll 4",
        "call 1 / answer id 20ae25da-d4e2-4c53-98f9-38e12bbf69fb / call 2 / answer done / call 3 / answer done / call 4 / answer none / entry 1 4 stamp 3 at 0 / write 3 logged / test 2 at 0",
    ),
    // So it does where the record was written later.
    (
        "cache log=8 listener closures / start insert 1 4 / poll 1 / start invalidate_if 2 / poll 2 / at 1 / start insert 1 6 / poll 3 / tell 3 done / poll 3 / start get 1 / poll 4 / start pending / poll 5",
        "call 1 / answer done / call 2 / answer id 20ae25da-d4e2-4c53-98f9-38e12bbf69fb / at / call 3 / ask listener 1 4 Replaced / told / answer done / call 4 / answer some 6 / call 5 / answer done / entry 1 6 stamp 3 at 1 / write 1 applied / write 3 applied / notice 3 1 4 Replaced ended",
    ),
    // It stays beside a call that took its moment before it, and has still to write.
    (
        "cache log=8 closures / start invalidate_if 2 / poll 1 / start insert 1 4 / step 2 / step 2 / at 1 / start pending / poll 3 / poll 2 / start get 1 / poll 4",
        "call 1 / answer id 20ae25da-d4e2-4c53-98f9-38e12bbf69fb / call 2 / going / going / at / call 3 / answer done / answer done / call 4 / answer none / entry 1 4 stamp 2 at 0 / write 2 logged / test 2 at 0",
    ),
    (
        "cache log=8 closures / start invalidate_if 2 / poll 1 / start remove 1 / step 2 / step 2 / at 1 / start pending / poll 3 / poll 2 / start pending / poll 4",
        "call 1 / answer id 20ae25da-d4e2-4c53-98f9-38e12bbf69fb / call 2 / going / going / at / call 3 / answer done / answer none / call 4 / answer done",
    ),
    // A look that found its record before may show it once the predicate has left.
    (
        "cache log=8 closures / start insert 1 4 / poll 1 / start invalidate_if 2 / poll 2 / start get 1 / step 3 / step 3 / at 1 / start evict 1 1 Explicit / poll 4 / start pending / poll 5 / step 3",
        "call 1 / answer done / call 2 / answer id 20ae25da-d4e2-4c53-98f9-38e12bbf69fb / call 3 / going / going / at / call 4 / answer evicted / call 5 / answer done / answer some 4 / write 1 applied / write 4 applied",
    ),
    // Maintenance finishes what dropped calls left, and waits for its notices.
    (
        "cache log=8 listener / start insert 1 5 / poll 1 / start insert 1 6 / poll 2 / drop 2 / tell 2 done / start pending / poll 3",
        "call 1 / answer done / call 2 / ask listener 1 5 Replaced / dropped / told / call 3 / answer done / entry 1 6 stamp 2 at 0 / write 1 applied / write 2 applied / notice 2 1 5 Replaced ended",
    ),
    (
        "cache log=8 listener / start insert 1 5 / poll 1 / start insert 1 6 / poll 2 / drop 2 / start pending / poll 3 / tell 2 done / poll 3",
        "call 1 / answer done / call 2 / ask listener 1 5 Replaced / dropped / call 3 / wait / told / answer done / entry 1 6 stamp 2 at 0 / write 1 applied / write 2 applied / notice 2 1 5 Replaced ended",
    ),
    // It takes the turn, for which others wait.
    (
        "cache log=1 / start insert 1 5 / poll 1 / start pending / step 2 / step 2 / start insert 2 6 / poll 3 / start pending / poll 4",
        "call 1 / answer done / call 2 / going / going / call 3 / wait / call 4 / wait / entry 1 5 stamp 1 at 0 / entry 2 6 stamp 3 at 0 / write 1 logged / write 3 held",
    ),
    // It takes so many steps: of nothing, and of a logged write, a record and a predicate.
    (
        "cache / start pending / step 1 / step 1 / step 1 / step 1 / step 1 / step 1",
        "call 1 / going / going / going / going / answer done / refused UnknownCall",
    ),
    (
        "cache log=8 closures / start insert 1 4 / poll 1 / start invalidate_if 2 / poll 2 / at 1 / start pending / step 3 / step 3 / step 3 / step 3 / step 3 / step 3 / step 3 / step 3 / step 3 / step 3",
        "call 1 / answer done / call 2 / answer id 20ae25da-d4e2-4c53-98f9-38e12bbf69fb / at / call 3 / going / going / going / going / going / going / going / going / going / answer done / entry 1 4 stamp 1 at 0 / write 1 applied / test 2 at 0",
    ),
    // A disabled cache has nothing to maintain.
    (
        "cache cap=0 closures / start invalidate_if 2 / poll 1 / at 1 / start pending / step 2",
        "call 1 / answer id 20ae25da-d4e2-4c53-98f9-38e12bbf69fb / at / call 2 / answer done / test 2 at 0",
    ),
];

#[test]
fn what_maintenance_does_is_reported(rt: HostRuntime) -> Result<(), Fail> {
    are_reported(&rt, &MAINTAINED)
}
