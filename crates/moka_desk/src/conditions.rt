//! The conditions of visits, tested.

ghost use Rattle.std.specs.Prelude.{◌≡◌, ◌||◌, true, false, Some, None, IsTrue, IsSome, IsNone, IsSomeAnd, ◌↔◌, is_some, nat_lt};

use crate::Desk;
use crate::maps::has_at;
use moka_hist::{Holding, Kind, Load, Write};
use moka_needs::{Ending, Need};
use moka_values::Exact;
use std::hash::{BuildHasher, Hash};

impl<K: Eq + Hash + Exact, V: Drop, E: Drop, S: BuildHasher + Drop> Desk<K, V, E, S> {
    ghost use Rattle.moka_hist.specs.State.{DeskPart};
    ghost use Rattle.moka_hist.specs.Conditions.{HasUnsettled, HoldsNoWrite, HoldsWrite, IsUnused, MayLeave, MayVisit};
    ghost use Rattle.moka_needs.specs.Needs.{need_of, IsOfCall};
    ghost use Rattle.moka_needs.specs.Reads.{EndedAs};
    ghost use Rattle.moka_hist.specs.declared.visits.Visit.{Visit};
    ghost use Rattle.moka_desk.specs.History.{keeps_history};
    ghost use Rattle.moka_desk.specs.Meets.{Meets, Tests, is_recalled, may_end_so};
    ghost use Rattle.moka_desk.specs.Past.{AllowsAlike};
    ghost use Rattle.moka_desk.specs.StandsFor.{StandsFor};

    /// Whether the desk allows the call each visit that needs this. A desk without a history may
    /// have forgotten that a write of the call's number was applied, or that its notice has ended.
    /// It answers true then, and stands for a state where neither was, too.
    pub fn has(&self, call: u64, need: Need<K>) -> bool
        ensures exact { (is_recalled need || keeps_history self.now) ≡ true
            → (w : DeskPart K V E) (visit : Visit K V E) → StandsFor K.eq self.now w
            → IsOfCall call visit → need_of visit ≡ need → IsTrue result ↔ MayVisit w visit }
        ensures allowed { (w : DeskPart K V E) (visit : Visit K V E) → StandsFor K.eq self.now w
            → IsOfCall call visit → need_of visit ≡ need → MayVisit w visit → IsTrue result }
        ensures alike { IsTrue result → (w : DeskPart K V E) (visit : Visit K V E)
            → StandsFor K.eq self.now w → IsOfCall call visit → need_of visit ≡ need
            → AllowsAlike K.eq self.now w (λ v. MayVisit v visit) }
    {
        let meets = self.meets(call, &need);
        drop(need);
        meets
    }

    // Whether the desk has what the call needs, as far as it can tell.
    fn meets(&self, call: u64, need: &Need<K>) -> bool
        ensures { (w : DeskPart K V E) → StandsFor K.eq self.now w
            → Tests (is_recalled need.now || keeps_history self.now) result
            (Meets w call need.now) (AllowsAlike K.eq self.now w (λ v. Meets v call need.now)) }
    {
        match need {
            Need::Clock => self.holds_no_write(call),
            Need::TakeOwed => self.holds_nothing(call),
            Need::NoticeEnded => true,
            Need::LockKey => self.locked_nothing(call),
            Need::UnlockKey { wrote } => self.may_unlock(call, *wrote),
            Need::StampMoment => self.may_stamp(call),
            Need::Judge => true,
            Need::Scan => true,
            Need::Holds => true,
            Need::WaitOrOwn { load } => self.may_claim(call, load),
            Need::OwnAlone => self.loads_nothing(call),
            Need::ReadSettled => self.loads.joined.contains_key(&call),
            Need::Settle { with } => self.may_settle(call, *with),
            Need::OpenNotice => self.opened_none(call),
            Need::OpenAsk => self.asks_nothing(call),
            Need::TakeTold => !self.asks_nothing(call),
            Need::PostWrite { write } => self.holds_write(call, *write),
            Need::TakeTurn => !self.has_turn(call),
            Need::ApplyOne => self.has_turn(call),
            Need::EndTurn => self.has_turn(call),
            Need::InvalidateAll => true,
            Need::Register => true,
            Need::Candidates => true,
            Need::Strike => true,
            Need::Retire => true,
        }
    }

    /// Whether the owner that the call waits for, if it waits for one, has not ended, or has ended
    /// as an owner of this kind may.
    pub fn ended_as(&self, call: u64, kind: Kind) -> bool
        ensures { (w : DeskPart K V E) → StandsFor K.eq self.now w
            → IsTrue result ↔ EndedAs w call kind }
    {
        match self.loads.ending_for(call) {
            Some(with) => Self::may_end_so(kind, with),
            None => true,
        }
    }

    /// The owner that the call waits for, if it waits for one, ended or not.
    pub fn waits_for(&self, call: u64) -> Option<u64>
        ensures { (w : DeskPart K V E) → StandsFor K.eq self.now w → result ≡ w.joined call }
    {
        self.loads.joined.get(&call).copied()
    }

    /// Whether some call waits for the end of the load that this one owns.
    pub fn is_awaited(&self, call: u64) -> bool
        ensures { (w : DeskPart K V E) → StandsFor K.eq self.now w
            → result ≡ nat_lt 0 (w.readers call) }
    {
        self.loads.readers_of(call) > 0
    }

    /// Whether how this owner ended is kept, since some call has still to read it.
    pub fn keeps_end(&self, owner: u64) -> bool
        ensures { (w : DeskPart K V E) → StandsFor K.eq self.now w
            → result ≡ is_some (w.settled owner) }
    {
        self.loads.settled.contains_key(&owner)
    }

    /// Whether the desk allows the call to leave this write to others, if any.
    pub fn may_leave(&self, call: u64, write: Option<Write>) -> bool
        ensures { (w : DeskPart K V E) → StandsFor K.eq self.now w
            → IsTrue result ↔ MayLeave w call write }
    {
        match write {
            Some(write) => self.holds_write(call, write),
            None => self.holds_no_write(call),
        }
    }

    // The call holds nothing of writes.
    fn holds_nothing(&self, call: u64) -> bool
        ensures { (w : DeskPart K V E) → StandsFor K.eq self.now w
            → IsTrue result ↔ IsNone (w.holding call) }
    {
        self.writes.held_by(call).is_none()
    }

    // The call took no write up.
    fn holds_no_write(&self, call: u64) -> bool
        ensures { (w : DeskPart K V E) → StandsFor K.eq self.now w
            → IsTrue result ↔ HoldsNoWrite w call }
    {
        match self.writes.held_by(call) {
            Some(Holding::TookUp { .. }) => false,
            Some(Holding::Own { .. }) => true,
            None => true,
        }
    }

    // The call took this write up, or has a place for it.
    fn holds_write(&self, call: u64, write: Write) -> bool
        ensures { (w : DeskPart K V E) → StandsFor K.eq self.now w
            → IsTrue result ↔ HoldsWrite w call write }
    {
        match self.writes.held_by(call) {
            Some(Holding::Own { .. }) => write.number() == call,
            Some(Holding::TookUp { write: held }) => write == held,
            None => false,
        }
    }

    // The call holds nothing, and no write of its number stands anywhere, as far as is remembered.
    fn may_stamp(&self, call: u64) -> bool
        ensures { (w : DeskPart K V E) → StandsFor K.eq self.now w
            → Tests (keeps_history self.now) result (IsNone (w.holding call) × IsUnused w call)
            (AllowsAlike K.eq self.now w (λ v. IsNone (v.holding call) × IsUnused v call)) }
    {
        self.holds_nothing(call) && self.writes.is_unused(call)
    }

    // The call holds no lock, and its notice keeps none.
    fn locked_nothing(&self, call: u64) -> bool
        ensures { (w : DeskPart K V E) → StandsFor K.eq self.now w
            → IsTrue result ↔ (IsNone (w.locked call) × IsNone (w.kept call)) }
    {
        self.locks.kept_under(call).is_none()
    }

    // The call holds a lock.
    fn holds_lock(&self, call: u64) -> bool
        ensures { (w : DeskPart K V E) → StandsFor K.eq self.now w
            → IsTrue result ↔ IsSome (w.locked call) }
    {
        match self.locks.kept_under(call) {
            Some(kept) => !kept,
            None => false,
        }
    }

    // The call holds a lock, and took no write up where nothing was written.
    fn may_unlock(&self, call: u64, wrote: bool) -> bool
        ensures { (w : DeskPart K V E) → StandsFor K.eq self.now w → IsTrue result
            ↔ (IsSome (w.locked call) × (wrote ≡ false → HoldsNoWrite w call)) }
    {
        self.holds_lock(call) && (wrote || self.holds_no_write(call))
    }

    // The call owns no load, and waits for no owner.
    fn loads_nothing(&self, call: u64) -> bool
        ensures { (w : DeskPart K V E) → StandsFor K.eq self.now w
            → IsTrue result ↔ (IsNone (w.owning call) × IsNone (w.joined call)) }
    {
        !has_at(&self.loads.owning, call) && !has_at(&self.loads.joined, call)
    }

    // An owner of the load, if there is one, has not settled.
    fn has_unsettled(&self, load: &Load<K>) -> bool
        ensures { (w : DeskPart K V E) → StandsFor K.eq self.now w
            → IsTrue result ↔ HasUnsettled w load.now }
    {
        match self.loads.owners.get(load) {
            Some(owner) => !has_at(&self.loads.settled, *owner),
            None => true,
        }
    }

    // The call owns no load, and waits for no owner; and an owner of this load has not settled.
    fn may_claim(&self, call: u64, load: &Load<K>) -> bool
        ensures { (w : DeskPart K V E) → StandsFor K.eq self.now w → IsTrue result
            ↔ (IsNone (w.owning call) × IsNone (w.joined call) × HasUnsettled w load.now) }
    {
        self.loads_nothing(call) && self.has_unsettled(load)
    }

    // The call owns a load that may end so.
    fn may_settle(&self, call: u64, with: Ending) -> bool
        ensures { (w : DeskPart K V E) → StandsFor K.eq self.now w → IsTrue result
            ↔ IsSomeAnd (w.owning call) (λ load. may_end_so load.kind with ≡ true) }
    {
        match self.loads.owning.get(&call) {
            Some(load) => Self::may_end_so(load.kind, with),
            None => false,
        }
    }

    // No notice was opened for the call, as far as is remembered.
    fn opened_none(&self, call: u64) -> bool
        ensures { (w : DeskPart K V E) → StandsFor K.eq self.now w
            → Tests (keeps_history self.now) result (IsNone (w.notices call))
            (AllowsAlike K.eq self.now w (λ v. IsNone (v.notices call))) }
    {
        !self.notices.recalls(call)
    }

    // The call has no open ask, and was told nothing.
    fn asks_nothing(&self, call: u64) -> bool
        ensures { (w : DeskPart K V E) → StandsFor K.eq self.now w
            → IsTrue result ↔ (IsNone (w.asks call) × IsNone (w.told call)) }
    {
        !has_at(&self.asks.open_asks, call) && !has_at(&self.asks.told, call)
    }

    // The call has the maintenance turn.
    fn has_turn(&self, call: u64) -> bool
        ensures { (w : DeskPart K V E) → StandsFor K.eq self.now w
            → IsTrue result ↔ (w.turn ≡ Some call) }
    {
        self.turn == Some(call)
    }

    // Whether an owner of a load of this kind may end so.
    fn may_end_so(kind: Kind, with: Ending) -> bool
        ensures { result ≡ may_end_so kind with }
    {
        match kind {
            Kind::GetWith => matches!(with, Ending::Ready | Ending::Aborted),
            Kind::Optional => matches!(with, Ending::Ready | Ending::Nothing | Ending::Aborted),
            Kind::Try => matches!(with, Ending::Ready | Ending::Err | Ending::Aborted),
            Kind::Compute => matches!(with, Ending::Nothing | Ending::Aborted),
        }
    }
}
