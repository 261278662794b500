//! The scenarios.

use crate::deeds::Deed::{Both, Dropping, Fill, Has, One, Whole};
use crate::deeds::{Line, Way};
use moka_cache_runs::calls::Call::{Lent, Own};
use moka_cache_runs::calls::Compute::{ComputeWith, TryComputeWith, UpsertWith};
use moka_cache_runs::calls::Gives;
use moka_cache_runs::calls::Kind::{Compute, Load, OfEntry, OfKey};
use moka_cache_runs::calls::Load::{GetWith, GetWithIf, OptionallyGetWith, TryGetWith};
use moka_cache_runs::calls::OfEntry::{OrDefault, OrInsert, OrTryInsertWith};
use moka_cache_runs::calls::OfKey::{Get, Insert, Invalidate, Remove};
use moka_cache_runs::calls::Test::IfEven;
use moka_cache_runs::inits::Act::Put;

/// A get of key 1, which tells what is stored.
const STORED: Line = Line("stored", Whole(Lent(1, OfKey(Get))));

/// What is done in this way, in this order.
pub(crate) fn lines(way: Way) -> &'static [Line] {
    match way {
        Way::Whole | Way::Cancelled => &ALL,
        Way::Dropped => &WRITES,
    }
}

/// Writes of one key, and what is stored after each.
const WRITES: [Line; 12] = [
    Line("insert", One(Own(1, OfKey(Insert(5))))),
    STORED,
    Line("insert", One(Own(1, OfKey(Insert(6))))),
    STORED,
    Line("upsert", One(Own(1, Compute(UpsertWith(0))))),
    STORED,
    Line("removal", One(Lent(1, OfKey(Remove)))),
    STORED,
    Line("insert", One(Own(1, OfKey(Insert(8))))),
    STORED,
    Line("invalidation", One(Own(1, OfKey(Invalidate)))),
    STORED,
];

/// Calls of each kind.
const ALL: [Line; 26] = [
    Line("insert", One(Own(1, OfKey(Insert(5))))),
    Line("insert that is heard", One(Own(1, OfKey(Insert(6))))),
    Line(
        "two inserts that are heard",
        Both(Own(1, OfKey(Insert(7))), Own(1, OfKey(Insert(8)))),
    ),
    Line(
        "insert dropped while it is heard",
        Dropping(1, Own(1, OfKey(Insert(9))), Own(1, OfKey(Insert(10)))),
    ),
    Line("get with a hit", One(Lent(1, OfKey(Get)))),
    Line("get without", One(Lent(2, OfKey(Get)))),
    Line(
        "two loads",
        Both(
            Own(2, Load(GetWith(Gives(2, 11)))),
            Lent(2, Load(GetWith(Gives(0, 12)))),
        ),
    ),
    Line(
        "owner dropped, its waiter owns",
        Dropping(
            2,
            Own(3, Load(GetWith(Gives(9, 13)))),
            Own(3, Load(GetWith(Gives(1, 14)))),
        ),
    ),
    Line(
        "two upserts",
        Both(
            Own(4, Compute(UpsertWith(1))),
            Lent(4, Compute(UpsertWith(2))),
        ),
    ),
    Line(
        "load anew",
        One(Own(4, Load(GetWithIf(Gives(1, 15), IfEven)))),
    ),
    Line("removal", One(Lent(1, OfKey(Remove)))),
    Line(
        "load that fails",
        Both(
            Own(1, Load(TryGetWith(Gives(2, Err(16))))),
            Lent(1, Load(TryGetWith(Gives(0, Ok(17))))),
        ),
    ),
    Line(
        "load that finds nothing",
        Both(
            Lent(1, Load(OptionallyGetWith(Gives(2, None)))),
            Own(1, Load(OptionallyGetWith(Gives(0, Some(18))))),
        ),
    ),
    Line("default", One(Lent(5, OfEntry(OrDefault)))),
    Line(
        "insert of an entry that is there",
        One(Own(5, OfEntry(OrInsert(19)))),
    ),
    Line(
        "load of an entry that fails",
        One(Own(6, OfEntry(OrTryInsertWith(Gives(1, Err(20)))))),
    ),
    Line(
        "compute that puts",
        Both(
            Own(6, Compute(ComputeWith(Gives(1, Put(21))))),
            Own(6, Compute(ComputeWith(Gives(1, Put(22))))),
        ),
    ),
    Line(
        "compute that fails",
        One(Own(6, Compute(TryComputeWith(Gives(1, 23))))),
    ),
    Line("invalidation", One(Own(2, OfKey(Invalidate)))),
    Line("get of what was invalidated", One(Lent(2, OfKey(Get)))),
    Line("inserts", Fill(100, 400)),
    Line("insert after these", One(Own(100, OfKey(Insert(24))))),
    Line(
        "removals at once",
        Both(Own(101, OfKey(Remove)), Own(101, OfKey(Remove))),
    ),
    Line("whether a key is there", Has(102)),
    Line("whether a removed key is", Has(101)),
    Line("last get", One(Lent(100, OfKey(Get)))),
];
