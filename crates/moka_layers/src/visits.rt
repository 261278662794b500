//! The visits of the desk that flows make.
ghost use Rattle.std.specs.Prelude.{◌≡◌, ◌≢◌, ℕ, Some, Err, IfOk, OnErr, MatchResult};
ghost use Rattle.moka_hist.specs.State.{Handed};
ghost use Rattle.moka_desk.specs.History.{KeepsAsBefore};
ghost use Rattle.moka_desk.specs.StandsFor.{Can};
ghost use Rattle.moka_desk.specs.Waits.{lock_line, settlement_line, turn_line};
ghost use Rattle.moka_init.specs.Forms.{IsFoundBy};
ghost use Rattle.moka_layers.specs.Handing.{handed_by, ids_of};
ghost use Rattle.moka_layers.specs.Visiting.{DeskStays, VisitBy, VisitIs, VisitLacks};
ghost use Rattle.moka_layers.specs.Visiting.{handed_out, test_holds};

use moka_desk::Desk;
use moka_hist::{
    Cause, Found, Id, IdList, Load, PredicateError, Settled, Stored, Takes, Tests, Visit,
};
use moka_ids::PcgIds;
use moka_sync::CallList;
use moka_values::Exact;
use std::alloc::AllocError;
use std::hash::{BuildHasher, Hash};

/// Makes the visit. After want of memory the desk stands for what it stood for. The calls that it
/// hands out, where it is one that does, stand in `woken` then.
pub(crate) fn make_visit<
    K: Eq + Hash + Exact,
    V: Exact,
    E: Exact,
    Q: Tests<K, V>,
    S: BuildHasher + Drop,
>(
    desk: &mut Desk<K, V, E, S>,
    tests: &Q,
    ids: &mut PcgIds,
    visit: Visit<K, V, E>,
    woken: &mut Option<CallList>,
) -> Result<Found<V, E>, AllocError>
    requires can { Can K.eq desk.old visit }
    ensures form { IfOk result (λ found. IsFoundBy visit found) }
    ensures ok { IfOk result (λ found.
        VisitBy K.eq (handed_by Q.Tests tests.now (ids_of ids.old)) desk.old visit found desk.new
        (handed_by Q.Tests tests.now (ids_of ids.new))) }
    ensures woken { IfOk result (λ found. woken.new ≡ handed_out desk.old visit woken.old) }
    ensures err { OnErr result (DeskStays K.eq desk.old desk.new) }
    ensures err_ids { OnErr result (ids_of ids.new ≡ ids_of ids.old) }
    ensures err_needs { OnErr result
        (VisitLacks K.eq (handed_by Q.Tests tests.now (ids_of ids.old)) desk.old visit) }
    ensures kept { KeepsAsBefore desk.old desk.new }
{
    match visit {
        Visit::Clock { call } => Ok(Found::Clock(desk.read_clock(call))),
        Visit::TakeOwed { call } => Ok(Found::TakeOwed(desk.take_owed(call))),
        Visit::NoticeEnded { call, notice } => notice_ended(desk, call, notice),
        Visit::LockKey { call, key } => lock_key(desk, call, key),
        Visit::UnlockKey { call, wrote } => Ok(unlock_key(desk, call, wrote, woken)),
        Visit::OpenNotice {
            call,
            key,
            value,
            stamp,
            modified,
            cause,
            upsert,
        } => open_notice(desk, call, key, value, stamp, modified, cause, upsert),
        Visit::StampMoment { call } => stamp_moment(desk, call),
        Visit::Judge {
            replace,
            key,
            stored,
        } => judge(desk, tests, replace, key, stored),
        Visit::Scan { key, stored } => Ok(scan(desk, tests, key, stored)),
        Visit::Holds { key, stored, cause } => Ok(holds(desk, tests, key, stored, cause)),
        Visit::WaitOrOwn { call, key, kind } => wait_or_own(desk, call, Load { key, kind }),
        Visit::OwnAlone { call, key } => own_alone(desk, call, key),
        Visit::ReadSettled { call } => read_settled(desk, call),
        Visit::Settle { call, with } => Ok(settle(desk, call, with, woken)),
        Visit::OpenAsk { call, takes } => open_ask(desk, call, takes),
        Visit::TakeTold { call } => Ok(Found::TakeTold(desk.take_told(call))),
        Visit::PostWrite { call, write } => Ok(Found::PostWrite(desk.post_write(call, write))),
        Visit::TakeTurn { call } => take_turn(desk, call),
        Visit::ApplyOne { call } => Ok(Found::ApplyOne(desk.apply_one(call))),
        Visit::InvalidateAll => Ok(invalidate_all(desk)),
        Visit::Register { test } => register(desk, ids, test),
        Visit::Candidates => candidates(desk),
        Visit::Strike { ids, key, stored } => Ok(strike(desk, tests, ids, key, stored)),
        Visit::Retire { ids } => Ok(retire(desk, &ids)),
        Visit::EndTurn { call } => Ok(end_turn(desk, call, woken)),
    }
}

#[inline(always)]
fn stamp_moment<K: Eq + Hash + Exact, V: Exact, E: Exact, S: BuildHasher + Drop>(
    desk: &mut Desk<K, V, E, S>,
    call: u64,
) -> Result<Found<V, E>, AllocError>
    requires { Can K.eq desk.old (Visit.StampMoment call) }
    ensures ok { IfOk result (λ found.
        VisitIs K.eq desk.old (Visit.StampMoment call) found desk.new) }
    ensures err { OnErr result (DeskStays K.eq desk.old desk.new) }
    ensures kept { KeepsAsBefore desk.old desk.new }
{
    let moment = desk.stamp_moment(call)?;
    Ok(Found::StampMoment(moment))
}

// Judges the record by the tests and the predicates, which the desk does not have.
#[inline(always)]
fn judge<K: Eq + Hash + Exact, V: Exact, E: Exact, Q: Tests<K, V>, S: BuildHasher + Drop>(
    desk: &mut Desk<K, V, E, S>,
    tests: &Q,
    replace: Option<u64>,
    key: K,
    stored: Stored<V>,
) -> Result<Found<V, E>, AllocError>
    ensures ok { IfOk result (λ found. (ids : ℕ → ℕ)
        → VisitBy K.eq (handed_by Q.Tests tests.now ids) desk.old
        (Visit.Judge replace key stored) found desk.new
        (handed_by Q.Tests tests.now ids)) }
    ensures err { OnErr result (DeskStays K.eq desk.old desk.new) }
    ensures err_needs { OnErr result ((ids : ℕ → ℕ)
        → VisitLacks K.eq (handed_by Q.Tests tests.now ids) desk.old
        (Visit.Judge replace key stored)) }
    ensures kept { KeepsAsBefore desk.old desk.new }
{
    let hit = desk.hits(tests, &key, &stored);
    let replaced = is_replaced(tests, replace, &key, &stored.value);
    let seen = desk.judge(hit, replaced, stored.stamp, stored.modified)?;
    Ok(Found::Judge(seen))
}

// Whether the test of this number, if there is one, holds on the key and the value.
#[inline(always)]
fn is_replaced<K, V, Q: Tests<K, V>>(tests: &Q, replace: Option<u64>, key: &K, value: &V) -> bool
    ensures { result ≡ test_holds (Q.answers tests.now) replace key.now value.now }
{
    match replace {
        Some(test) => tests.holds(test, key, value),
        None => false,
    }
}

// Judges a record that a walk found.
#[inline(always)]
fn scan<K: Eq + Hash + Exact, V: Exact, E: Exact, Q: Tests<K, V>, S: BuildHasher + Drop>(
    desk: &mut Desk<K, V, E, S>,
    tests: &Q,
    key: K,
    stored: Stored<V>,
) -> Found<V, E>
    ensures visit { (ids : ℕ → ℕ) → VisitBy K.eq (handed_by Q.Tests tests.now ids) desk.old
        (Visit.Scan key stored) result desk.new (handed_by Q.Tests tests.now ids) }
    ensures kept { KeepsAsBefore desk.old desk.new }
{
    let hit = desk.hits(tests, &key, &stored);
    Found::Scan(desk.scan(hit, stored.stamp, stored.modified))
}

#[inline(always)]
fn holds<K: Eq + Hash + Exact, V: Exact, E: Exact, Q: Tests<K, V>, S: BuildHasher + Drop>(
    desk: &mut Desk<K, V, E, S>,
    tests: &Q,
    key: K,
    stored: Stored<V>,
    cause: Cause,
) -> Found<V, E>
    ensures visit { (ids : ℕ → ℕ) → VisitBy K.eq (handed_by Q.Tests tests.now ids) desk.old
        (Visit.Holds key stored cause) result desk.new
        (handed_by Q.Tests tests.now ids) }
    ensures kept { KeepsAsBefore desk.old desk.new }
{
    let hit = desk.hits(tests, &key, &stored);
    Found::Holds(desk.holds(hit, stored.stamp, stored.modified, cause))
}

// Registers the predicate of this number.
#[inline(always)]
fn register<K: Eq + Hash + Exact, V: Exact, E: Exact, S: BuildHasher + Drop>(
    desk: &mut Desk<K, V, E, S>,
    ids: &mut PcgIds,
    test: u64,
) -> Result<Found<V, E>, AllocError>
    ensures ok { IfOk result (λ found. (handed : Handed K V)
        → VisitBy K.eq (record handed { ids = ids_of ids.old }) desk.old (Visit.Register test)
        found desk.new (record handed { ids = ids_of ids.new })) }
    ensures err { OnErr result (DeskStays K.eq desk.old desk.new) }
    ensures err_ids { OnErr result (ids_of ids.new ≡ ids_of ids.old) }
    ensures err_needs { OnErr result ((handed : Handed K V)
        → VisitLacks K.eq handed desk.old (Visit.Register test)) }
    ensures kept { KeepsAsBefore desk.old desk.new }
{
    match desk.register(test, ids) {
        Ok(id) => Ok(Found::Register(Ok(Id::new(id)))),
        Err(why) => unregistered(why),
    }
}

// Chooses the predicates that may leave.
#[inline(always)]
fn candidates<K: Eq + Hash + Exact, V: Exact, E: Exact, S: BuildHasher + Drop>(
    desk: &mut Desk<K, V, E, S>,
) -> Result<Found<V, E>, AllocError>
    ensures ok { IfOk result (λ found. VisitIs K.eq desk.old Visit.Candidates found desk.new) }
    ensures err { OnErr result (DeskStays K.eq desk.old desk.new) }
    ensures kept { KeepsAsBefore desk.old desk.new }
{
    let chosen = desk.candidates()?;
    Ok(Found::Candidates(chosen))
}

// Looks which of these predicates hide a record that maintenance found.
#[inline(always)]
fn strike<K: Eq + Hash + Exact, V: Exact, E: Exact, Q: Tests<K, V>, S: BuildHasher + Drop>(
    desk: &mut Desk<K, V, E, S>,
    tests: &Q,
    named: IdList,
    key: K,
    stored: Stored<V>,
) -> Found<V, E>
    ensures visit { (ids : ℕ → ℕ) → VisitBy K.eq (handed_by Q.Tests tests.now ids) desk.old
        (Visit.Strike named key stored) result desk.new
        (handed_by Q.Tests tests.now ids) }
    ensures kept { KeepsAsBefore desk.old desk.new }
{
    Found::Strike(desk.strike(tests, named, &key, &stored))
}

// Lets these predicates leave.
#[inline(always)]
pub(crate) fn retire<K: Eq + Hash + Exact, V: Exact, E: Exact, S: BuildHasher + Drop>(
    desk: &mut Desk<K, V, E, S>,
    named: &IdList,
) -> Found<V, E>
    ensures visit { VisitIs K.eq desk.old (Visit.Retire named.now) result desk.new }
    ensures kept { KeepsAsBefore desk.old desk.new }
{
    desk.retire(named);
    Found::Retire
}

// What is found where no predicate was registered, unless that was for want of memory.
#[inline(always)]
fn unregistered<V, E>(why: PredicateError) -> Result<Found<V, E>, AllocError>
    ensures { MatchResult result
        (λ found. (found ≡ Found.Register (Err why)) × (why ≢ PredicateError.Memory))
        (λ _. why ≡ PredicateError.Memory) }
{
    match why {
        PredicateError::Memory => Err(AllocError),
        PredicateError::NoId => Ok(Found::Register(Err(why))),
        PredicateError::InvalidationClosuresDisabled => Ok(Found::Register(Err(why))),
    }
}

#[inline(always)]
fn wait_or_own<K: Eq + Hash + Exact, V: Exact, E: Exact, S: BuildHasher + Drop>(
    desk: &mut Desk<K, V, E, S>,
    call: u64,
    load: Load<K>,
) -> Result<Found<V, E>, AllocError>
    requires can { Can K.eq desk.old (Visit.WaitOrOwn call load.key load.kind) }
    ensures ok { IfOk result (λ found.
        VisitIs K.eq desk.old (Visit.WaitOrOwn call load.key load.kind) found desk.new) }
    ensures err { OnErr result (DeskStays K.eq desk.old desk.new) }
    ensures kept { KeepsAsBefore desk.old desk.new }
{
    let claim = desk.wait_or_own(call, load)?;
    Ok(Found::WaitOrOwn(claim))
}

#[inline(always)]
fn own_alone<K: Eq + Hash + Exact, V: Exact, E: Exact, S: BuildHasher + Drop>(
    desk: &mut Desk<K, V, E, S>,
    call: u64,
    key: K,
) -> Result<Found<V, E>, AllocError>
    requires can { Can K.eq desk.old (Visit.OwnAlone call key) }
    ensures ok { IfOk result (λ found.
        VisitIs K.eq desk.old (Visit.OwnAlone call key) found desk.new) }
    ensures err { OnErr result (DeskStays K.eq desk.old desk.new) }
    ensures err_needs { OnErr result ((handed : Handed K V)
        → VisitLacks K.eq handed desk.old (Visit.OwnAlone call key)) }
    ensures kept { KeepsAsBefore desk.old desk.new }
{
    let owned = desk.owned(call, key)?;
    Ok(Found::OwnAlone(owned))
}

#[inline(always)]
fn read_settled<K: Eq + Hash + Exact, V: Exact, E: Exact, S: BuildHasher + Drop>(
    desk: &mut Desk<K, V, E, S>,
    call: u64,
) -> Result<Found<V, E>, AllocError>
    requires can { Can K.eq desk.old (Visit.ReadSettled call) }
    ensures ok { IfOk result (λ found.
        VisitIs K.eq desk.old (Visit.ReadSettled call) found desk.new) }
    ensures err { OnErr result (DeskStays K.eq desk.old desk.new) }
    ensures err_needs { OnErr result ((handed : Handed K V)
        → VisitLacks K.eq handed desk.old (Visit.ReadSettled call)) }
    ensures kept { KeepsAsBefore desk.old desk.new }
{
    let settled = desk.read_settled(call)?;
    Ok(Found::ReadSettled(settled))
}

#[inline(always)]
fn open_ask<K: Eq + Hash + Exact, V: Exact, E: Exact, S: BuildHasher + Drop>(
    desk: &mut Desk<K, V, E, S>,
    call: u64,
    takes: Takes,
) -> Result<Found<V, E>, AllocError>
    requires { Can K.eq desk.old (Visit.OpenAsk call takes) }
    ensures ok { IfOk result (λ found.
        VisitIs K.eq desk.old (Visit.OpenAsk call takes) found desk.new) }
    ensures err { OnErr result (DeskStays K.eq desk.old desk.new) }
    ensures kept { KeepsAsBefore desk.old desk.new }
{
    desk.open_ask(call, takes)?;
    Ok(Found::OpenAsk)
}

#[inline(always)]
fn settle<K: Eq + Hash + Exact, V: Exact, E: Exact, S: BuildHasher + Drop>(
    desk: &mut Desk<K, V, E, S>,
    call: u64,
    with: Settled<V, E>,
    woken: &mut Option<CallList>,
) -> Found<V, E>
    requires { Can K.eq desk.old (Visit.Settle call with) }
    ensures visit { VisitIs K.eq desk.old (Visit.Settle call with) result desk.new }
    ensures woken { woken.new ≡ Some (settlement_line desk.old call) }
    ensures kept { KeepsAsBefore desk.old desk.new }
{
    *woken = Some(desk.settle(call, with));
    Found::Settle
}

#[inline(always)]
fn invalidate_all<K: Eq + Hash + Exact, V: Exact, E: Exact, S: BuildHasher + Drop>(
    desk: &mut Desk<K, V, E, S>,
) -> Found<V, E>
    ensures visit { VisitIs K.eq desk.old Visit.InvalidateAll result desk.new }
    ensures kept { KeepsAsBefore desk.old desk.new }
{
    desk.invalidate_all();
    Found::InvalidateAll
}

#[inline(always)]
fn end_turn<K: Eq + Hash + Exact, V: Exact, E: Exact, S: BuildHasher + Drop>(
    desk: &mut Desk<K, V, E, S>,
    call: u64,
    woken: &mut Option<CallList>,
) -> Found<V, E>
    requires { Can K.eq desk.old (Visit.EndTurn call) }
    ensures visit { VisitIs K.eq desk.old (Visit.EndTurn call) result desk.new }
    ensures woken { woken.new ≡ Some (turn_line desk.old call) }
    ensures kept { KeepsAsBefore desk.old desk.new }
{
    *woken = Some(desk.end_turn(call));
    Found::EndTurn
}

#[inline(always)]
fn notice_ended<K: Eq + Hash + Exact, V: Exact, E: Exact, S: BuildHasher + Drop>(
    desk: &mut Desk<K, V, E, S>,
    call: u64,
    notice: u64,
) -> Result<Found<V, E>, AllocError>
    ensures ok { IfOk result (λ found.
        VisitIs K.eq desk.old (Visit.NoticeEnded call notice) found desk.new) }
    ensures err { OnErr result (DeskStays K.eq desk.old desk.new) }
    ensures err_needs { OnErr result ((handed : Handed K V)
        → VisitLacks K.eq handed desk.old (Visit.NoticeEnded call notice)) }
    ensures kept { KeepsAsBefore desk.old desk.new }
{
    let ended = desk.notice_ended(call, notice)?;
    Ok(Found::NoticeEnded(ended))
}

#[inline(always)]
fn lock_key<K: Eq + Hash + Exact, V: Exact, E: Exact, S: BuildHasher + Drop>(
    desk: &mut Desk<K, V, E, S>,
    call: u64,
    key: K,
) -> Result<Found<V, E>, AllocError>
    requires can { Can K.eq desk.old (Visit.LockKey call key) }
    ensures ok { IfOk result (λ found.
        VisitIs K.eq desk.old (Visit.LockKey call key) found desk.new) }
    ensures err { OnErr result (DeskStays K.eq desk.old desk.new) }
    ensures kept { KeepsAsBefore desk.old desk.new }
{
    let taken = desk.lock_key(call, &key)?;
    Ok(Found::LockKey(taken))
}

#[inline(always)]
fn unlock_key<K: Eq + Hash + Exact, V: Exact, E: Exact, S: BuildHasher + Drop>(
    desk: &mut Desk<K, V, E, S>,
    call: u64,
    wrote: bool,
    woken: &mut Option<CallList>,
) -> Found<V, E>
    requires { Can K.eq desk.old (Visit.UnlockKey call wrote) }
    ensures visit { VisitIs K.eq desk.old (Visit.UnlockKey call wrote) result desk.new }
    ensures woken { woken.new ≡ Some (lock_line desk.old call) }
    ensures kept { KeepsAsBefore desk.old desk.new }
{
    *woken = Some(desk.unlock_key(call, wrote));
    Found::UnlockKey
}

#[inline(always)]
fn open_notice<K: Eq + Hash + Exact, V: Exact, E: Exact, S: BuildHasher + Drop>(
    desk: &mut Desk<K, V, E, S>,
    call: u64,
    key: K,
    value: V,
    stamp: u64,
    modified: u64,
    cause: Option<Cause>,
    upsert: bool,
) -> Result<Found<V, E>, AllocError>
    requires { Can K.eq desk.old
        (Visit.OpenNotice call key value stamp modified cause upsert) }
    ensures ok { IfOk result (λ found. VisitIs K.eq desk.old
        (Visit.OpenNotice call key value stamp modified cause upsert) found desk.new) }
    ensures err { OnErr result (DeskStays K.eq desk.old desk.new) }
    ensures kept { KeepsAsBefore desk.old desk.new }
{
    let told = desk.open_notice(call, key, value, stamp, modified, cause, upsert)?;
    Ok(Found::OpenNotice(told))
}

#[inline(always)]
fn take_turn<K: Eq + Hash + Exact, V: Exact, E: Exact, S: BuildHasher + Drop>(
    desk: &mut Desk<K, V, E, S>,
    call: u64,
) -> Result<Found<V, E>, AllocError>
    requires { Can K.eq desk.old (Visit.TakeTurn call) }
    ensures ok { IfOk result (λ found.
        VisitIs K.eq desk.old (Visit.TakeTurn call) found desk.new) }
    ensures err { OnErr result (DeskStays K.eq desk.old desk.new) }
    ensures err_needs { OnErr result ((handed : Handed K V)
        → VisitLacks K.eq handed desk.old (Visit.TakeTurn call)) }
    ensures kept { KeepsAsBefore desk.old desk.new }
{
    let taken = desk.take_turn(call)?;
    Ok(Found::TakeTurn(taken))
}
