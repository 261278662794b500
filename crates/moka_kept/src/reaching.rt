//! Calls and the clock, as they reach table and desk: whatever they do leaves a sound world.
ghost use Rattle.std.specs.Prelude.{◌≡◌, ◌⊎◌, ◌≤◌, Some, None, Bool, false, true, IfNone, IfOk, IfSome};
ghost use Rattle.std.specs.Prelude.{IsSome, OnErr, OnOk, OnSome, Option, is_some, nat_eq, ◌+◌, ◌<◌};
ghost use Rattle.std.specs.HashMap.{get, spare};
ghost use Rattle.std.specs.Bool.{OnFalse, OnTrue};
ghost use Rattle.moka_hist.specs.Run.{last_call};
ghost use Rattle.moka_hist.specs.State.{DeskPart};
ghost use Rattle.moka_hist.specs.Visits.{is_running, makes};
ghost use Rattle.moka_hist.specs.Telling.{is_asked, told};
ghost use Rattle.moka_desk.specs.History.{keeps_heard};
ghost use Rattle.moka_desk.specs.Past.{AllowsAlike};
ghost use Rattle.moka_desk.specs.StandsFor.{StandsFor};
ghost use Rattle.moka_init.specs.FlowPlan.{call_of, next_in, tested_in, Leaves, StandsStill};
ghost use Rattle.moka_init.specs.Grounds.{HasBegun, access_at};
ghost use Rattle.moka_init.specs.Openings.{opening_of};
ghost use Rattle.moka_init.specs.PointPlan.{is_copied};
ghost use Rattle.moka_hist.specs.declared.events.Told.{Told};
ghost use Rattle.moka_hist.specs.declared.visits.Visit.{Visit};
ghost use Rattle.moka_hist.specs.Conditions.{MayVisit};
ghost use Rattle.moka_needs.specs.Needs.{IsOfCall, need_of};
ghost use Rattle.moka_needs.specs.Reads.{ReadsItsKind};
ghost use Rattle.moka_kept.specs.Taking.{Answered, NoAnswer, Tested, end_told, is_of_call};
ghost use Rattle.moka_kept.specs.Taking.{is_taking, needs_answer};
ghost use Rattle.moka_init.specs.Needs.{need_at};
ghost use Rattle.moka_kept.specs.Facts.{EndIsNoted, MakesSo, ReadsSo, ends_in, facts};
ghost use Rattle.moka_kept.specs.Kept.{IsBrought, IsKept, IsToldTo, MayMake};
ghost use Rattle.moka_kept.specs.Paths.{EndedWith};
ghost use Rattle.moka_kept.specs.Rests.{Rests};

use crate::brought::Brought;
use crate::ends::ends_value;
use crate::ground::Reach;
use crate::guarded::ToWake;
use crate::heard::ListenerEnd;
use crate::in_hand::InHand;
use crate::number::Number;
use crate::parked::{HandedOut, Parked};
use moka_desk::Desk;
use moka_facts::Fact;
use moka_hist::{Found, Got, Rules, Told, Turn};
use moka_ids::PcgIds;
use moka_init::{Flow, Opening, step};
use moka_layers::Layers;
use moka_needs::Need;
use moka_table::PlainTable;
use moka_values::Exact;
use std::alloc::{AllocError, Global};
use std::hash::{BuildHasher, Hash};

/// How many writes the log has room for.
const LOG_LENGTH: usize = 384;

impl<K: Eq + Hash + Exact, V: Exact, E: Exact, S: BuildHasher + Drop, P: Fact<K, V>> Reach<
    K,
    V,
    E,
    S,
    P,
> {
    /// Nothing is stored. This call number and those before it were given out.
    pub(crate) fn starting_after(
        alloc: Global,
        rules: Rules,
        last: u64,
        hasher: S,
    ) -> Result<Self, AllocError>
    where
        S: Clone,
        ensures { IfOk result (λ reach. IsKept K.eq P.holds (get nat_eq reach.ends) reach.layers) }
    {
        moka_laws::fresh_is_sound::<K, V, E>();
        moka_laws::entering_keeps_sound::<K, V, E>();
        let of_table = hasher.clone()?;
        let desk = Desk::without_history(alloc, rules, LOG_LENGTH, last, hasher)?;
        let layers = Layers {
            table: PlainTable::with_hasher(alloc, of_table),
            desk,
            call: 0,
            begun: None,
            tests: InHand { replaced: false },
            ids: PcgIds::new(0),
        };
        Ok(Reach::over(alloc, layers))
    }

    /// Moves the clock on to the moment, where that is later.
    pub(crate) fn move_clock(&mut self, moment: u64)
        requires { IsKept K.eq P.holds (get nat_eq self.old.ends) self.old.layers }
        ensures kept { IsKept K.eq P.holds (get nat_eq self.new.ends) self.new.layers }
        ensures clock { (w : DeskPart K V E) → StandsFor K.eq self.new.layers.desk w
            → moment ≤ w.clock }
    {
        moka_laws::clock_keeps_sound::<K, V, E>();
        self.layers.desk.at(moment);
    }

    /// Invalidates all records that were written before the clock: no look shows one from then on.
    /// The records stay stored.
    pub(crate) fn invalidate_all(&mut self)
        requires { IsKept K.eq P.holds (get nat_eq self.old.ends) self.old.layers }
        ensures kept { IsKept K.eq P.holds (get nat_eq self.new.ends) self.new.layers }
        ensures hides { (w : DeskPart K V E) → StandsFor K.eq self.old.layers.desk w
            → StandsFor K.eq self.new.layers.desk (makes K.eq w Visit.InvalidateAll) }
        ensures table { self.new.layers.table ≡ self.old.layers.table }
    {
        moka_laws::visits_keep_sound::<K, V, E>();
        self.layers.desk.invalidate_all();
    }

    /// Gives the next call number out. Answers None where the greatest one was given out.
    pub(crate) fn enter(&mut self) -> Option<Number>
        requires { IsKept K.eq P.holds (get nat_eq self.old.ends) self.old.layers }
        ensures kept { IsKept K.eq P.holds (get nat_eq self.new.ends) self.new.layers }
        ensures next { IfSome result (λ number. (w : DeskPart K V E)
            → StandsFor K.eq self.old.layers.desk w → (number.call ≡ w.last + 1)
            × StandsFor K.eq self.new.layers.desk (record w { last = number.call })) }
        ensures first { IfSome result (λ number. 0 < number.call) }
        ensures spent { IfNone result ((w : DeskPart K V E)
            → StandsFor K.eq self.old.layers.desk w → w.last ≡ last_call) }
    {
        moka_laws::entering_keeps_sound::<K, V, E>();
        match self.layers.desk.enter() {
            Some(call) => Some(Number::of(call)),
            None => None,
        }
    }

    /// Tells the call of this number the answer to its own ask, and gives those that it hands out.
    /// Answers None where no ask of it is open that takes the answer; nothing has changed then.
    pub(crate) fn tell(&mut self, call: u64, answer: Told<V, E>) -> Option<HandedOut>
        requires { IsKept K.eq P.holds (get nat_eq self.old.ends) self.old.layers }
        ensures kept { IsKept K.eq P.holds (get nat_eq self.new.ends) self.new.layers }
        ensures told { OnSome result (IsToldTo K.eq P.holds (get nat_eq self.new.ends)
            self.new.layers call answer) }
        ensures refused { IfNone result (is_of_call answer ≡ true → (w : DeskPart K V E)
            → StandsFor K.eq self.old.layers.desk w → is_asked w call answer ≡ false) }
        ensures same { IfNone result ((w : DeskPart K V E)
            → StandsFor K.eq self.old.layers.desk w → StandsFor K.eq self.new.layers.desk w) }
    {
        moka_laws::telling_keeps_sound::<K, V, E>();
        match is_of_call(&answer) {
            true => Some(HandedOut::of(self.layers.desk.tell(call, answer)?)),
            false => None,
        }
    }

    /// Tells that the listener has ended the notice of this number, and gives those that it hands
    /// out. Answers None where that doesn't run; nothing has changed then.
    pub(crate) fn hear(&mut self, notice: u64, end: ListenerEnd) -> Option<HandedOut>
        requires { IsKept K.eq P.holds (get nat_eq self.old.ends) self.old.layers }
        ensures kept { IsKept K.eq P.holds (get nat_eq self.new.ends) self.new.layers }
        // That end is told, and no other.
        ensures told { OnSome result ((w : DeskPart K V E)
            → StandsFor K.eq self.old.layers.desk w
            → StandsFor K.eq self.new.layers.desk (told w notice (end_told end))) }
        ensures refused { IfNone result ((w : DeskPart K V E)
            → StandsFor K.eq self.old.layers.desk w → is_running w notice ≡ false) }
        ensures same { IfNone result ((w : DeskPart K V E)
            → StandsFor K.eq self.old.layers.desk w → StandsFor K.eq self.new.layers.desk w) }
    {
        moka_laws::telling_keeps_sound::<K, V, E>();
        Some(HandedOut::of(self.layers.desk.tell(notice, told_by(end))?))
    }

    /// Takes the answer of a replace test in hand: each visit that judges by one goes by it.
    pub(crate) fn hold_answer(&mut self, replaced: bool)
        requires { IsKept K.eq P.holds (get nat_eq self.old.ends) self.old.layers }
        ensures kept { IsKept K.eq P.holds (get nat_eq self.new.ends) self.new.layers }
        ensures held { self.new.layers.tests.replaced ≡ replaced }
    {
        self.layers.tests = InHand { replaced };
    }

    /// Puts what a hold is brought where the next step of the call of this number finds it: tells
    /// the answer to its own ask, or takes that of its replace test in hand. Gives whether that
    /// step takes an answer. None where no ask of the call is open that takes it; nothing has
    /// changed then. The wakers of all that are handed out come to those in `woken`.
    pub(crate) fn bring(
        &mut self,
        call: u64,
        brought: Brought<V, E>,
        parked: &mut Parked,
        woken: &mut ToWake,
    ) -> Option<bool>
        requires { IsKept K.eq P.holds (get nat_eq self.old.ends) self.old.layers }
        ensures kept { IsKept K.eq P.holds (get nat_eq self.new.ends) self.new.layers }
        ensures brought { IfSome result
            (IsBrought K.eq P.holds (get nat_eq self.new.ends) self.new.layers call brought) }
    {
        match brought {
            Brought::Nothing => Some(false),
            Brought::Told(answer) => self.bring_told(call, answer, parked, woken),
            Brought::Tested(replaced) => {
                self.hold_answer(replaced);
                Some(false)
            }
        }
    }

    // Tells the answer to the call's own ask.
    fn bring_told(
        &mut self,
        call: u64,
        answer: Told<V, E>,
        parked: &mut Parked,
        woken: &mut ToWake,
    ) -> Option<bool>
        requires { IsKept K.eq P.holds (get nat_eq self.old.ends) self.old.layers }
        ensures kept { IsKept K.eq P.holds (get nat_eq self.new.ends) self.new.layers }
        ensures brought { IfSome result
            (IsBrought K.eq P.holds (get nat_eq self.new.ends) self.new.layers call
            (Brought.Told answer)) }
    {
        let handed = self.tell(call, answer)?;
        parked.hand_out(handed, woken);
        Some(true)
    }

    /// Makes one step of a flow that rests, where the desk allows its next visit, and an owner's
    /// end that it reads is of its kind, and of the key that it seeks: the visit that takes
    /// the answer to its own ask, if `takes`, and any other, if not. Else, and after want of memory,
    /// the flow stands where it stood. What it stores is to meet the fact. The wakers of all that the
    /// visit handed out come to those in `woken`.
    pub(crate) fn step(
        &mut self,
        flow: &mut Flow<K, V, E>,
        key: &Option<K>,
        takes: bool,
        parked: &mut Parked,
        woken: &mut ToWake,
    ) -> Result<Turn<K, V, E>, AllocError>
        requires kept { IsKept K.eq P.holds (get nat_eq self.old.ends) self.old.layers }
        requires rests { Rests flow.old }
        requires so { MakesSo (facts K.eq P.holds) key.now (access_at flow.old) }
        ensures kept { IsKept K.eq P.holds (get nat_eq self.new.ends) self.new.layers }
        // How it goes on, having taken no answer, the one that it was told, or that in hand.
        ensures untaken { takes ≡ false → tested_in (call_of flow.old).plan ≡ None
            → IfOk result (λ turn. EndedWith (facts K.eq P.holds) NoAnswer flow.old.call
            (call_of flow.old)
            (next_in turn flow.new)) }
        ensures taken { takes ≡ true
            → (told : Told V E) → IsToldTo K.eq P.holds (get nat_eq self.old.ends) self.old.layers
            flow.old.call told
            → IfOk result (λ turn. EndedWith (facts K.eq P.holds) (λ t. t ≡ Answered told)
            flow.old.call
            (call_of flow.old) (next_in turn flow.new)) }
        ensures judged { (value : V) → tested_in (call_of flow.old).plan ≡ Some value
            → IfOk result (λ turn. EndedWith (facts K.eq P.holds)
            (λ t. t ≡ Tested value self.old.layers.tests.replaced) flow.old.call
            (call_of flow.old) (next_in turn flow.new)) }
        ensures leaves { IfOk result (λ turn. Leaves turn flow.new) }
        ensures begun { HasBegun None flow.new }
        ensures number { flow.new.call ≡ flow.old.call }
        ensures err { OnErr result (StandsStill flow.old flow.new) }
        // Whom the visit handed out, nobody is to hand out any more.
        ensures out { OnOk result (self.new.woken ≡ None) }
    {
        let Ok(next) = flow.need() else {
            return Err(AllocError);
        };
        let ends = ends_value(&next);
        match may_step(&self.layers.desk, flow, next, takes) {
            true => self.step_noted(flow, key, ends, parked, woken),
            false => Err(AllocError),
        }
    }

    // Makes one step of a flow whose next visit the desk allows, where an end that it reads is of the
    // key that it seeks; `ends` says whether the visit ends its load with a value.
    fn step_noted(
        &mut self,
        flow: &mut Flow<K, V, E>,
        key: &Option<K>,
        ends: bool,
        parked: &mut Parked,
        woken: &mut ToWake,
    ) -> Result<Turn<K, V, E>, AllocError>
        requires kept { IsKept K.eq P.holds (get nat_eq self.old.ends) self.old.layers }
        requires rests { Rests flow.old }
        requires may { (w : DeskPart K V E) → StandsFor K.eq self.old.layers.desk w
            → (flow.old.call ≤ w.last) × AllowsAlike K.eq self.old.layers.desk w
            (λ v. MayMake v (access_at flow.old)) }
        requires ends { (w : DeskPart K V E) → StandsFor K.eq self.old.layers.desk w
            → ReadsItsKind w flow.old.call (call_of flow.old) }
        requires so { MakesSo (facts K.eq P.holds) key.now (access_at flow.old) }
        requires value { ends ≡ ends_in (need_at (access_at flow.old)) }
        ensures kept { IsKept K.eq P.holds (get nat_eq self.new.ends) self.new.layers }
        ensures untaken { is_taking (access_at flow.old) ≡ false
            → tested_in (call_of flow.old).plan ≡ None
            → IfOk result (λ turn. EndedWith (facts K.eq P.holds) NoAnswer flow.old.call
            (call_of flow.old) (next_in turn flow.new)) }
        ensures taken { is_taking (access_at flow.old) ≡ true
            → (told : Told V E) → IsToldTo K.eq P.holds (get nat_eq self.old.ends)
            self.old.layers flow.old.call told
            → IfOk result (λ turn. EndedWith (facts K.eq P.holds)
            (λ t. t ≡ Answered told) flow.old.call (call_of flow.old) (next_in turn flow.new)) }
        ensures judged { (value : V) → tested_in (call_of flow.old).plan ≡ Some value
            → IfOk result (λ turn. EndedWith (facts K.eq P.holds)
            (λ t. t ≡ Tested value self.old.layers.tests.replaced) flow.old.call
            (call_of flow.old) (next_in turn flow.new)) }
        ensures leaves { IfOk result (λ turn. Leaves turn flow.new) }
        ensures begun { HasBegun None flow.new }
        ensures number { flow.new.call ≡ flow.old.call }
        ensures err { OnErr result (StandsStill flow.old flow.new) }
        ensures out { OnOk result (self.new.woken ≡ None) }
    {
        if !self.reads_own(flow) {
            return Err(AllocError);
        }
        let owner = self.owner_read(flow);
        match self.note_end(flow, key, ends) {
            Ok(()) => {
                let made = self.make_step(flow, key);
                self.forget_end(owner);
                self.hand_out(parked, woken);
                made
            }
            Err(e) => Err(e),
        }
    }

    // Makes one step of a flow whose next visit the desk allows. A notice that is due is opened
    // without copies of key and value, where the desk keeps neither.
    #[inline(always)]
    fn make_step(
        &mut self,
        flow: &mut Flow<K, V, E>,
        key: &Option<K>,
    ) -> Result<Turn<K, V, E>, AllocError>
        requires kept { IsKept K.eq P.holds (get nat_eq self.old.ends) self.old.layers }
        requires rests { Rests flow.old }
        requires so { MakesSo (facts K.eq P.holds) key.now (access_at flow.old) }
        requires reads { (w : DeskPart K V E) → StandsFor K.eq self.old.layers.desk w
            → ReadsSo P.holds w flow.old.call (call_of flow.old) }
        requires noted { (w : DeskPart K V E) → StandsFor K.eq self.old.layers.desk w
            → EndIsNoted P.holds (get nat_eq self.old.ends) w (access_at flow.old) }
        requires may { (w : DeskPart K V E) → StandsFor K.eq self.old.layers.desk w
            → (flow.old.call ≤ w.last) × AllowsAlike K.eq self.old.layers.desk w
            (λ v. MayMake v (access_at flow.old)) }
        requires ends { (w : DeskPart K V E) → StandsFor K.eq self.old.layers.desk w
            → ReadsItsKind w flow.old.call (call_of flow.old) }
        ensures kept { IsKept K.eq P.holds (get nat_eq self.new.ends) self.new.layers }
        ensures untaken { is_taking (access_at flow.old) ≡ false
            → tested_in (call_of flow.old).plan ≡ None
            → IfOk result (λ turn. EndedWith (facts K.eq P.holds) NoAnswer flow.old.call
            (call_of flow.old) (next_in turn flow.new)) }
        ensures taken { is_taking (access_at flow.old) ≡ true
            → (told : Told V E) → IsToldTo K.eq P.holds (get nat_eq self.old.ends)
            self.old.layers flow.old.call told
            → IfOk result (λ turn. EndedWith (facts K.eq P.holds)
            (λ t. t ≡ Answered told) flow.old.call (call_of flow.old) (next_in turn flow.new)) }
        ensures judged { (value : V) → tested_in (call_of flow.old).plan ≡ Some value
            → IfOk result (λ turn. EndedWith (facts K.eq P.holds)
            (λ t. t ≡ Tested value self.old.layers.tests.replaced) flow.old.call
            (call_of flow.old) (next_in turn flow.new)) }
        ensures leaves { IfOk result (λ turn. Leaves turn flow.new) }
        ensures begun { HasBegun None flow.new }
        ensures number { flow.new.call ≡ flow.old.call }
        ensures err { OnErr result (StandsStill flow.old flow.new) }
    {
        match self.opening(flow) {
            Some(opening) => self.open(flow, opening),
            None => self.step_allowed(flow, key),
        }
    }

    // What the flow's notice is opened with, where that is due, and the desk doesn't keep what the
    // listener hears by it.
    #[inline(always)]
    fn opening(&self, flow: &Flow<K, V, E>) -> Option<Opening>
        ensures due { IfSome result
            (λ opening. opening_of (access_at flow.now) ≡ Some opening) }
        ensures unkept { IsSome result → keeps_heard self.now.layers.desk ≡ false }
    {
        match flow.opening() {
            Some(opening) => match self.layers.desk.keeps_heard() {
                true => None,
                false => Some(opening),
            },
            None => None,
        }
    }

    // Opens the flow's notice, which the desk allows, and copies neither key nor value for it. Memory
    // is wanting only where what the call answers of the record isn't copied yet, or where no place
    // is left of those that were taken with the moments of writes.
    #[cold]
    #[inline(never)]
    fn open(
        &mut self,
        flow: &mut Flow<K, V, E>,
        opening: Opening,
    ) -> Result<Turn<K, V, E>, AllocError>
        requires kept { IsKept K.eq P.holds (get nat_eq self.old.ends) self.old.layers }
        requires rests { Rests flow.old }
        requires may { (w : DeskPart K V E) → StandsFor K.eq self.old.layers.desk w
            → (flow.old.call ≤ w.last) × AllowsAlike K.eq self.old.layers.desk w
            (λ v. MayMake v (access_at flow.old)) }
        requires ends { (w : DeskPart K V E) → StandsFor K.eq self.old.layers.desk w
            → ReadsItsKind w flow.old.call (call_of flow.old) }
        requires reads { (w : DeskPart K V E) → StandsFor K.eq self.old.layers.desk w
            → ReadsSo P.holds w flow.old.call (call_of flow.old) }
        requires due { opening_of (access_at flow.old) ≡ Some opening }
        requires unkept { keeps_heard self.old.layers.desk ≡ false }
        ensures kept { IsKept K.eq P.holds (get nat_eq self.new.ends) self.new.layers }
        ensures untaken { IfOk result (λ turn. EndedWith (facts K.eq P.holds) NoAnswer
            flow.old.call (call_of flow.old) (next_in turn flow.new)) }
        ensures leaves { IfOk result (λ turn. Leaves turn flow.new) }
        ensures begun { HasBegun None flow.new }
        ensures number { flow.new.call ≡ flow.old.call }
        ensures err { OnErr result (StandsStill flow.old flow.new) }
        ensures needs { OnErr result ((is_copied flow.old.point ≡ false)
            ⊎ (spare self.old.layers.desk.notices.running ≡ 0)) }
    {
        moka_laws::visits_keep_sound::<K, V, E>();
        let call = flow.number();
        flow.copy()?;
        let told = self.layers.desk.open_unheard(
            call,
            opening.stamp,
            opening.modified,
            opening.cause,
            opening.upsert,
        )?;
        Ok(flow.take(Got::Desk(Found::OpenNotice(told))))
    }

    // Makes one step of a flow whose next visit the desk allows, what it reads of an end, if it reads
    // one, meets the fact for the key that it seeks, and what it ends its load with is noted.
    fn step_allowed(
        &mut self,
        flow: &mut Flow<K, V, E>,
        key: &Option<K>,
    ) -> Result<Turn<K, V, E>, AllocError>
        requires kept { IsKept K.eq P.holds (get nat_eq self.old.ends) self.old.layers }
        requires rests { Rests flow.old }
        requires so { MakesSo (facts K.eq P.holds) key.now (access_at flow.old) }
        requires reads { (w : DeskPart K V E) → StandsFor K.eq self.old.layers.desk w
            → ReadsSo P.holds w flow.old.call (call_of flow.old) }
        requires noted { (w : DeskPart K V E) → StandsFor K.eq self.old.layers.desk w
            → EndIsNoted P.holds (get nat_eq self.old.ends) w (access_at flow.old) }
        requires may { (w : DeskPart K V E) → StandsFor K.eq self.old.layers.desk w
            → (flow.old.call ≤ w.last) × AllowsAlike K.eq self.old.layers.desk w
            (λ v. MayMake v (access_at flow.old)) }
        requires ends { (w : DeskPart K V E) → StandsFor K.eq self.old.layers.desk w
            → ReadsItsKind w flow.old.call (call_of flow.old) }
        ensures kept { IsKept K.eq P.holds (get nat_eq self.new.ends) self.new.layers }
        ensures untaken { is_taking (access_at flow.old) ≡ false
            → tested_in (call_of flow.old).plan ≡ None
            → IfOk result (λ turn. EndedWith (facts K.eq P.holds) NoAnswer flow.old.call
            (call_of flow.old)
            (next_in turn flow.new)) }
        ensures taken { is_taking (access_at flow.old) ≡ true
            → (told : Told V E) → IsToldTo K.eq P.holds (get nat_eq self.old.ends) self.old.layers
            flow.old.call told
            → IfOk result (λ turn. EndedWith (facts K.eq P.holds) (λ t. t ≡ Answered told)
            flow.old.call
            (call_of flow.old) (next_in turn flow.new)) }
        ensures judged { (value : V) → tested_in (call_of flow.old).plan ≡ Some value
            → IfOk result (λ turn. EndedWith (facts K.eq P.holds)
            (λ t. t ≡ Tested value self.old.layers.tests.replaced) flow.old.call
            (call_of flow.old) (next_in turn flow.new)) }
        ensures leaves { IfOk result (λ turn. Leaves turn flow.new) }
        ensures begun { HasBegun None flow.new }
        ensures number { flow.new.call ≡ flow.old.call }
        ensures err { OnErr result (StandsStill flow.old flow.new) }
    {
        self.layers.call = flow.number();
        step(flow, self)
    }
}

// What the desk is told by a listener that ends a notice so.
fn told_by<V, E>(end: ListenerEnd) -> Told<V, E>
    ensures { result ≡ end_told end }
{
    match end {
        ListenerEnd::Done => Told::Done,
        ListenerEnd::Off => Told::Off,
    }
}

// Whether the answer is one for a call, and none that the listener gives.
fn is_of_call<V, E>(answer: &Told<V, E>) -> bool
    ensures { result ≡ is_of_call answer.now }
{
    match answer {
        Told::Value(_) => true,
        Told::Nothing => true,
        Told::Err(_) => true,
        Told::Op(_) => true,
        Told::Done => false,
        Told::Off => false,
    }
}

// Whether the call has a number that was given out, and the desk allows its next visit, which takes
// the answer to its own ask, if `takes`, and doesn't, if not; and an owner's end that it reads is
// one of the kind that it waits for. This is what that visit needs.
fn may_step<K: Eq + Hash + Exact, V: Exact, E: Exact, S: BuildHasher + Drop>(
    desk: &Desk<K, V, E, S>,
    flow: &Flow<K, V, E>,
    next: Option<Need<K>>,
    takes: bool,
) -> bool
    requires { next ≡ need_at (access_at flow.now) }
    ensures may { OnTrue result ((w : DeskPart K V E) → StandsFor K.eq desk.now w
        → (flow.now.call ≤ w.last)
        × AllowsAlike K.eq desk.now w (λ v. MayMake v (access_at flow.now))) }
    ensures ends { OnTrue result ((w : DeskPart K V E) → StandsFor K.eq desk.now w
        → ReadsItsKind w flow.now.call (call_of flow.now)) }
    ensures takes { OnTrue result (is_taking (access_at flow.now) ≡ takes) }
{
    if flow.number() > desk.last() {
        return false;
    }
    if !reads_its_kind(desk, flow) {
        return false;
    }
    match next {
        Some(need) => may_visit(desk, flow.number(), need, takes),
        None => !takes,
    }
}

// Whether an owner's end that the flow's next visit reads, if it reads one, is one of the kind that
// its call waits for.
fn reads_its_kind<K: Eq + Hash + Exact, V: Drop, E: Drop, S: BuildHasher + Drop>(
    desk: &Desk<K, V, E, S>,
    flow: &Flow<K, V, E>,
) -> bool
    ensures { OnTrue result ((w : DeskPart K V E) → StandsFor K.eq desk.now w
        → ReadsItsKind w flow.now.call (call_of flow.now)) }
{
    match flow.kind_read() {
        Some(kind) => desk.ended_as(flow.number(), kind),
        None => true,
    }
}

// Whether the desk allows the call each visit that needs this, and such a visit takes the answer to
// the own ask, if `takes`, and doesn't, if not.
fn may_visit<K: Eq + Hash + Exact, V: Drop, E: Drop, S: BuildHasher + Drop>(
    desk: &Desk<K, V, E, S>,
    call: u64,
    need: Need<K>,
    takes: bool,
) -> bool
    ensures may { OnTrue result ((w : DeskPart K V E) (visit : Visit K V E)
        → StandsFor K.eq desk.now w → IsOfCall call visit → need_of visit ≡ need
        → AllowsAlike K.eq desk.now w (λ v. MayVisit v visit)) }
    ensures takes { OnTrue result (needs_answer need ≡ takes) }
{
    needs_answer(&need) == takes && desk.has(call, need)
}

// Whether the visit that needs this takes the answer to the own ask.
fn needs_answer<K>(need: &Need<K>) -> bool
    ensures { result ≡ needs_answer need.now }
{
    match need {
        Need::TakeTold => true,
        _ => false,
    }
}

// Whether the flow's next visit judges a record by its call's replace test.
fn is_tested<K, V, E>(flow: &Flow<K, V, E>) -> bool
    ensures { result ≡ is_some (tested_in (call_of flow.now).plan) }
{
    match flow.tested() {
        Some(_) => true,
        None => false,
    }
}

/// Whether the flow's next visit judges a record by its call's replace test, and nothing was
/// brought for it.
pub(crate) fn is_unasked<K, V, E>(flow: &Flow<K, V, E>, brought: &Brought<V, E>) -> bool
    ensures unasked { OnTrue result (is_some (tested_in (call_of flow.now).plan) ≡ true) }
    ensures asked { OnFalse result (brought.now ≡ Brought.Nothing
        → tested_in (call_of flow.now).plan ≡ None) }
{
    match brought {
        Brought::Nothing => is_tested(flow),
        Brought::Told(_) => false,
        Brought::Tested(_) => false,
    }
}

/// Whether a step left its call going.
pub(crate) fn goes_on<K, V, E>(made: &Result<Turn<K, V, E>, AllocError>) -> bool
    ensures { OnTrue result (made.now ≡ Ok Turn.Going) }
{
    match made {
        Ok(turn) => turn.is_going(),
        Err(_) => false,
    }
}
