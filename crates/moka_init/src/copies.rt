//! The accesses for which a key or a value is copied.
ghost use Rattle.std.specs.Prelude.{◌≡◌, false, None, IfOk, OnErr};
ghost use Rattle.moka_hist.specs.Plan as plan;
ghost use Rattle.moka_hist.specs.Step.{access_for, replace_of, want_for, takes_of, On_table};
ghost use Rattle.moka_hist.specs.Writing.{stamp_asked};
ghost use Rattle.moka_init.specs.Grounds.{SettledNeedsMemory};
ghost use Rattle.moka_init.specs.PointPlan.{aim_of, is_upsert, key_locked, key_sought};
ghost use Rattle.moka_init.specs.PointPlan.{removal_of, settled_of, takes_by};

use crate::calls::open_notice;
use crate::points::{Asks, Ending, Locked, Look, Put, Removal, TakeOut, Uncopied};
use moka_hist::{Cause, IdList, Kind, Load, Settled, Stored, TableOp, Takes, Visit, Want};
use moka_values::Exact;
use std::alloc::AllocError;

/// Which answers the ask of a load takes.
pub(crate) fn takes_of(kind: Kind) -> Takes
    ensures { result ≡ takes_of kind }
{
    match kind {
        Kind::GetWith => Takes::Value,
        Kind::Optional => Takes::Optional,
        Kind::Try => Takes::Try,
        Kind::Compute => Takes::Op,
    }
}

impl Asks {
    /// Which answers such an ask takes.
    pub(crate) fn takes(self) -> Takes
        ensures { result ≡ takes_by self }
    {
        match self {
            Asks::Op => Takes::Op,
            Asks::TryOp => Takes::TryOp,
            Asks::Value => Takes::Value,
        }
    }
}

/// Looks the key up.
pub(crate) fn want_get<K: Exact, V, E>(begun: bool, key: &K) -> Result<Want<K, V, E>, AllocError>
    ensures { IfOk result (λ want. want ≡ want_for begun (On_table (TableOp.Get key.now))) }
{
    if begun {
        return Ok(Want::Table);
    }
    let key = key.clone()?;
    Ok(Want::Begin(TableOp::Get { key }))
}

/// The key that is looked up.
pub(crate) fn key_sought<K, V>(look: &Look<K, V>) -> &K
    ensures { result.now ≡ key_sought look.now }
{
    match look {
        Look::Answer { key } => key,
        Look::Load(sought) => &sought.load.key,
        Look::Own(sought) => &sought.load.key,
        Look::Insert { key, .. } => key,
        Look::Compute(compute) => &compute.key,
        Look::Report { key } => key,
    }
}

/// The test by which the call passes over what it finds.
pub(crate) fn replace_of<K, V>(look: &Look<K, V>) -> Option<u64>
    ensures { result ≡ replace_of (aim_of look.now) }
{
    match look {
        Look::Answer { .. } => None,
        Look::Load(sought) => sought.replace,
        Look::Own(sought) => sought.replace,
        Look::Insert { .. } => None,
        Look::Compute(_) => None,
        Look::Report { .. } => None,
    }
}

/// The key whose lock is taken.
pub(crate) fn key_locked<K, V>(locked: &Locked<K, V>) -> &K
    ensures { result.now ≡ key_locked locked.now }
{
    match locked {
        Locked::Put(put) => &put.key,
        Locked::TakeOut(out) => &out.key,
        Locked::Find(chosen) => &chosen.key,
    }
}

/// Takes the record out.
pub(crate) fn want_out<K: Exact, V, E>(
    begun: bool,
    out: &TakeOut<K>,
) -> Result<Want<K, V, E>, AllocError>
    ensures { IfOk result (λ want. want ≡ want_for begun
        (access_for 0 None (plan.Out (removal_of out.now) out.now.key))) }
{
    if begun {
        return Ok(Want::Table);
    }
    let key = out.key.clone()?;
    let stamp = stamp_asked(out);
    Ok(Want::Begin(TableOp::RemoveIf { key, stamp }))
}

// The stamp that a removal asks for.
fn stamp_asked<K>(out: &TakeOut<K>) -> Option<u64>
    ensures { result ≡ stamp_asked (removal_of out.now) }
{
    match out.removal {
        Removal::Invalidate => None,
        Removal::Remove => None,
        Removal::Evict { stamp, .. } => Some(stamp),
        Removal::Compute => None,
    }
}

/// Judges whether a record that was chosen for the cause has still to leave.
pub(crate) fn want_holds<K: Exact, V: Exact, E>(
    key: &K,
    stored: &Stored<V>,
    cause: Cause,
) -> Result<Want<K, V, E>, AllocError>
    ensures { IfOk result (λ want. want ≡ Want.Desk (Visit.Holds key.now stored.now cause)) }
{
    let key = key.clone()?;
    let stored = stored.clone()?;
    Ok(Want::Desk(Visit::Holds { key, stored, cause }))
}

/// Judges the record that was found, on which the test, if any, may hold.
pub(crate) fn want_judge<K: Exact, V: Exact, E>(
    replace: Option<u64>,
    key: &K,
    stored: &Stored<V>,
) -> Result<Want<K, V, E>, AllocError>
    ensures { IfOk result (λ want. want ≡ Want.Desk (Visit.Judge replace key.now stored.now)) }
{
    let key = key.clone()?;
    let stored = stored.clone()?;
    Ok(Want::Desk(Visit::Judge {
        replace,
        key,
        stored,
    }))
}

/// Lists the keys of the part.
pub(crate) fn want_list<K, V, E>(begun: bool, part: usize) -> Want<K, V, E>
    ensures { result ≡ want_for begun (On_table (TableOp.Keys part)) }
{
    if begun {
        return Want::Table;
    }
    Want::Begin(TableOp::Keys { part })
}

/// Judges whether a record that a walk found is visible.
pub(crate) fn want_scan<K: Exact, V: Exact, E>(
    key: &K,
    stored: &Stored<V>,
) -> Result<Want<K, V, E>, AllocError>
    ensures { IfOk result (λ want. want ≡ Want.Desk (Visit.Scan key.now stored.now)) }
{
    let key = key.clone()?;
    let stored = stored.clone()?;
    Ok(Want::Desk(Visit::Scan { key, stored }))
}

/// Looks which of these predicates hide the record.
pub(crate) fn want_strike<K: Exact, V: Exact, E>(
    ids: &IdList,
    key: &K,
    stored: &Stored<V>,
) -> Result<Want<K, V, E>, AllocError>
    ensures { IfOk result (λ want. want ≡ Want.Desk (Visit.Strike ids.now key.now stored.now)) }
{
    let ids = ids_copy(ids)?;
    let key = key.clone()?;
    let stored = stored.clone()?;
    Ok(Want::Desk(Visit::Strike { ids, key, stored }))
}

/// Lets these predicates leave.
pub(crate) fn want_retire<K, V, E>(ids: &IdList) -> Result<Want<K, V, E>, AllocError>
    ensures { IfOk result (λ want. want ≡ Want.Desk (Visit.Retire ids.now)) }
{
    let ids = ids_copy(ids)?;
    Ok(Want::Desk(Visit::Retire { ids }))
}

// A copy of the predicates' ids and moments.
fn ids_copy(ids: &IdList) -> Result<IdList, AllocError>
    ensures { IfOk result (λ copy. copy ≡ ids.now) }
{
    let copy = ids.to_vec()?;
    Ok(IdList::from_vec(copy))
}

/// The pair that was found, of which the ask gives out a copy.
pub(crate) fn found_copy<K: Exact, V: Exact>(
    found: &Option<(K, V)>,
) -> Result<Option<(K, V)>, AllocError>
    ensures { IfOk result (λ copy. copy ≡ found.now) }
{
    match found {
        Some(pair) => {
            let copy = pair_copy(&pair.0, &pair.1)?;
            Ok(Some(copy))
        }
        None => Ok(None),
    }
}

/// An equal pair.
pub(crate) fn pair_copy<K: Exact, V: Exact>(key: &K, value: &V) -> Result<(K, V), AllocError>
    ensures { IfOk result (λ copy. copy ≡ (key.now, value.now)) }
{
    let key = key.clone()?;
    let value = value.clone()?;
    Ok((key, value))
}

/// Becomes the owner of the key's computes, or waits for it.
pub(crate) fn want_own_key<K: Exact, V, E>(call: u64, key: &K) -> Result<Want<K, V, E>, AllocError>
    ensures { IfOk result (λ want. want ≡ Want.Desk (Visit.WaitOrOwn call key.now Kind.Compute)) }
{
    let key = key.clone()?;
    let kind = Kind::Compute;
    Ok(Want::Desk(Visit::WaitOrOwn { call, key, kind }))
}

/// Becomes the owner of the key's computes where nobody is.
pub(crate) fn want_own_alone<K: Exact, V, E>(
    call: u64,
    key: &K,
) -> Result<Want<K, V, E>, AllocError>
    ensures { IfOk result (λ want. want ≡ Want.Desk (Visit.OwnAlone call key.now)) }
{
    let key = key.clone()?;
    Ok(Want::Desk(Visit::OwnAlone { call, key }))
}

/// Becomes the owner of the load, or waits for it.
pub(crate) fn want_own<K: Exact, V, E>(
    call: u64,
    load: &Load<K>,
) -> Result<Want<K, V, E>, AllocError>
    ensures { IfOk result (λ want.
        want ≡ Want.Desk (Visit.WaitOrOwn call load.now.key load.now.kind)) }
{
    let key = load.key.clone()?;
    Ok(Want::Desk(Visit::WaitOrOwn {
        call,
        key,
        kind: load.kind,
    }))
}

/// Tells those that wait how the owner ends.
pub(crate) fn want_settle<K, V: Exact, E: Exact>(
    call: u64,
    ending: &Ending<V, E>,
) -> Result<Want<K, V, E>, AllocError>
    ensures want { IfOk result (λ want.
        want ≡ Want.Desk (Visit.Settle call (settled_of ending.now))) }
    ensures err { OnErr result (SettledNeedsMemory (settled_of ending.now)) }
{
    let with = settled_by(ending)?;
    Ok(Want::Desk(Visit::Settle { call, with }))
}

// What is told to those that wait.
fn settled_by<V: Exact, E: Exact>(ending: &Ending<V, E>) -> Result<Settled<V, E>, AllocError>
    ensures told { IfOk result (λ with. with ≡ settled_of ending.now) }
    ensures err { OnErr result (SettledNeedsMemory (settled_of ending.now)) }
{
    match ending {
        Ending::Ready { value, .. } => {
            let told = value.clone()?;
            Ok(Settled::Ready(told))
        }
        Ending::Err(error) => {
            let told = error.clone()?;
            Ok(Settled::Err(told))
        }
        Ending::Nothing => Ok(Settled::Nothing),
    }
}

/// Stores the value.
pub(crate) fn want_write<K: Exact, V: Exact, E>(
    begun: bool,
    call: u64,
    put: &Put<K, V>,
    moment: u64,
) -> Result<Want<K, V, E>, AllocError>
    ensures { IfOk result (λ want. want
        ≡ want_for begun (access_for call None (plan.Write put.now.key put.now.value moment))) }
{
    if begun {
        return Ok(Want::Table);
    }
    let key = put.key.clone()?;
    let value = put.value.clone()?;
    Ok(Want::Begin(TableOp::InsertOrModify {
        key,
        stored: Stored {
            value,
            stamp: call,
            modified: moment,
        },
    }))
}

/// Takes the key's lock.
pub(crate) fn want_lock<K: Exact, V, E>(call: u64, key: &K) -> Result<Want<K, V, E>, AllocError>
    ensures { IfOk result (λ want. want ≡ Want.Desk (Visit.LockKey call key.now)) }
{
    let key = key.clone()?;
    Ok(Want::Desk(Visit::LockKey { call, key }))
}

impl<V> Uncopied<V> {
    /// Whether a write has taken the record's place.
    pub(crate) fn is_upsert(&self) -> bool
        ensures { result ≡ is_upsert self.now }
    {
        match self {
            Uncopied::Found => false,
            Uncopied::Removed => false,
            Uncopied::Put { .. } => true,
        }
    }
}

/// Opens the notice of the record that left.
pub(crate) fn want_notice<K: Exact, V: Exact, E>(
    call: u64,
    key: &K,
    old: &Stored<V>,
    cause: Option<Cause>,
    upsert: bool,
) -> Result<Want<K, V, E>, AllocError>
    ensures { IfOk result (λ want. want
        ≡ want_for false (access_for call None (plan.Notice key.now old.now cause upsert))) }
{
    let visit = open_notice(call, key, old, cause, upsert)?;
    Ok(Want::Desk(visit))
}
