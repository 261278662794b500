//! What a look under the lock tells, by no call.
ghost use Rattle.std.specs.Prelude.{◌≡◌, Some, IfOk, IfSome, nat_eq, true};
ghost use Rattle.std.specs.HashMap.{get};
ghost use Rattle.std.specs.Option.{option_map};
ghost use Rattle.std.specs.HashMap.{hash_map_len};
ghost use Rattle.moka_desk.specs.StandsFor.{StandsFor};
ghost use Rattle.moka_hist.specs.State.{DeskPart, World};
ghost use Rattle.moka_table.specs.Map.{SameMap};
ghost use Rattle.moka_table.specs.Plain.{map_of, peak_of};
ghost use Rattle.moka_kept.specs.Counts.{mark_found, mark_of, sees, shows};

use crate::ground::Reach;
use crate::kept::Kept;
use moka_desk::Desk;
use moka_facts::Fact;
use moka_hist::{TableAnswer, TableOp, TableTurn};
use moka_init::Flow;
use moka_needs::Need;
use moka_table::{PlainTable, Table};
use moka_values::Exact;
use std::alloc::AllocError;
use std::hash::{BuildHasher, Hash};

impl<K: Eq + Hash + Exact, V: Exact, E: Exact, S: BuildHasher + Drop, P: Fact<K, V>> Kept<
    K,
    V,
    E,
    S,
    P,
> {
    /// Whether the key has a record that is visible, once the clock has moved on to the moment. An
    /// error comes where memory is wanting for a copy of the key or of its record. Nothing but the
    /// clock changes.
    pub(crate) fn contains_key(&mut self, key: &K, moment: u64) -> Result<bool, AllocError>
        ensures { IfOk result (λ there. there ≡ true → (value : V) × P.holds key.now value) }
    {
        self.reach.move_clock(moment);
        self.reach.contains_key(key)
    }

    /// How many records the last turn of maintenance counted.
    pub(crate) fn entry_count(&self) -> u64 {
        self.reach.entry_count()
    }
}

impl<K: Eq + Hash + Exact, V: Exact, E: Exact, S: BuildHasher + Drop, P: Fact<K, V>> Reach<
    K,
    V,
    E,
    S,
    P,
> {
    ghost use Rattle.moka_layers.specs.Layers.{WorldIs};
    ghost use Rattle.moka_table.specs.Plain.{plain_table};
    ghost use Rattle.moka_kept.specs.Kept.{IsKept, in_hand};
    ghost use Rattle.moka_kept.specs.Stops.{FindsKept};
    ghost use Rattle.moka_hist.specs.Plan.{locking};
    ghost use Rattle.moka_init.specs.FlowPlan.{call_of};

    /// The notice that keeps the lock which the flow's call is to take next, if one does.
    pub(crate) fn keeper(&self, flow: &Flow<K, V, E>) -> Option<u64>
        requires { IsKept K.eq P.holds (get nat_eq self.now.ends) self.now.layers }
        ensures { IfSome result (FindsKept K.eq flow.now) }
    {
        match flow.locking() {
            Some(key) => self.keeper_of(flow, key),
            None => None,
        }
    }

    // The notice that keeps the lock of this key, which the flow's call is to take next, if one
    // does.
    fn keeper_of(&self, flow: &Flow<K, V, E>, key: &K) -> Option<u64>
        requires kept { IsKept K.eq P.holds (get nat_eq self.now.ends) self.now.layers }
        requires next { locking (call_of flow.now).plan ≡ Some key.now }
        ensures { IfSome result (FindsKept K.eq flow.now) }
    {
        match self.layers.desk.has(flow.number(), Need::LockKey) {
            true => self.layers.desk.keeper(key),
            false => None,
        }
    }

    // How many records the desk publishes.
    fn entry_count(&self) -> u64
        ensures { (w : DeskPart K V E) → StandsFor K.eq self.now.layers.desk w
            → result ≡ w.published }
    {
        self.layers.desk.published()
    }

    // Whether the key has a record that is visible, by one look. No access moment is raised.
    fn contains_key(&mut self, key: &K) -> Result<bool, AllocError>
        requires kept { IsKept K.eq P.holds (get nat_eq self.old.ends) self.old.layers }
        ensures kept { IsKept K.eq P.holds (get nat_eq self.new.ends) self.new.layers }
        ensures desk { self.new.layers.desk ≡ self.old.layers.desk }
        ensures sees { IfOk result (λ there. (w : World K V E)
            → WorldIs K.eq (plain_table K.eq) in_hand self.old.layers w → there ≡ sees w key.now) }
        // Where there is one, some value meets the fact for the key.
        ensures meets { IfOk result (λ there. there ≡ true → (value : V) × P.holds key.now value) }
    {
        let mark = find_mark(&mut self.layers.table, key)?;
        Ok(is_shown(&self.layers.desk, mark))
    }
}

// Whether a record of this stamp and moment, if there is one, is visible by the clock. No predicate
// hits it, since none holds in a cache that tasks poll.
fn is_shown<K: Eq + Hash + Exact, V: Exact, E: Exact, S: BuildHasher + Drop>(
    desk: &Desk<K, V, E, S>,
    mark: Option<(u64, u64)>,
) -> bool
    ensures { (w : DeskPart K V E) → StandsFor K.eq desk.now w → result ≡ shows w mark }
{
    match mark {
        Some((stamp, modified)) => desk.scan(false, stamp, modified),
        None => false,
    }
}

// Gives the stamp of the key's record and the moment of its write, by one look, which changes
// nothing.
fn find_mark<K: Eq + Hash + Exact, V: Exact, S: BuildHasher>(
    table: &mut PlainTable<K, V, S>,
    key: &K,
) -> Result<Option<(u64, u64)>, AllocError>
    ensures there { IfOk result (λ mark.
        mark ≡ option_map (λ pair. mark_of pair.1) (map_of K.eq table.old key.now)) }
    ensures map { SameMap (map_of K.eq table.old) (map_of K.eq table.new) }
    ensures count { hash_map_len table.new.pairs ≡ hash_map_len table.old.pairs }
    ensures peak { peak_of table.new ≡ peak_of table.old }
{
    let key = key.clone()?;
    let mut look = table.begin(TableOp::Get { key });
    let turn = table.step(&mut look)?;
    Ok(mark_found(turn))
}

// Gives the stamp and the moment of the record that a look found, if it decided and found one.
fn mark_found<K: Drop, V: Drop>(turn: TableTurn<K, V>) -> Option<(u64, u64)>
    ensures { result ≡ mark_found turn }
{
    match turn {
        TableTurn::Decided(TableAnswer::Some { key: _, stored }) => {
            Some((stored.stamp, stored.modified))
        }
        TableTurn::Decided(TableAnswer::None) => None,
        TableTurn::Decided(TableAnswer::Keys(_)) => None,
        TableTurn::Going => None,
    }
}
