//! What a call tells of itself: how far it is, what it holds, and the notice that is due.
ghost use Rattle.std.specs.Prelude.{◌≡◌, Some, None, false, IfOk, MatchOption};
ghost use Rattle.moka_hist.specs.Step.{access_for, On_desk, replace_of};
ghost use Rattle.moka_hist.specs.Plan as plan;
ghost use Rattle.moka_hist.specs.Plan.{hearing, held_by, locking};
ghost use Rattle.std.specs.Option.{option_map};
ghost use Rattle.moka_needs.specs.Reads.{kind_read};
ghost use Rattle.moka_init.specs.PointPlan.{aim_of, listening_plan};
ghost use Rattle.moka_init.specs.FlowPlan.{carries_in, opening, retires_in, takes_told};
ghost use Rattle.moka_init.specs.FlowPlan.{key_read, tested_in};

use crate::copies::{key_locked, replace_of};
use crate::flow::Flow;
use crate::points::{
    Computing, Listening, Loading, Look, Looking, Maintenance, Point, PostStep, Posting, Removing,
    Walk,
};
use moka_hist::{Cause, IdList, Kind, Mode, Rules, Start, Stored, Visit, Write};
use moka_values::Exact;
use std::alloc::AllocError;

impl<K: Drop, V: Drop, E: Drop> Flow<K, V, E> {
    ghost use Rattle.moka_hist.specs.Run.{fresh_call};
    ghost use Rattle.moka_init.specs.FlowPlan.{call_of, IsLive, IsReady};

    /// Makes the fresh flow of a start, under this number, in a cache of these rules whose table has
    /// so many parts. It takes no memory.
    pub fn new(start: Start<K, V>, call: u64, rules: Rules, parts: usize) -> Self
        ensures call { call_of result ≡ fresh_call parts rules start }
        ensures number { result.call ≡ call }
        ensures begun { result.begun ≡ false }
        ensures live { IsLive result }
        ensures ready { IsReady result }
    {
        Flow {
            rules,
            call,
            mode: Mode::Fresh,
            aborts: 0,
            begun: false,
            point: Point::first(parts, rules, start),
        }
    }
}

impl<K, V, E> Flow<K, V, E> {
    ghost use Rattle.moka_init.specs.FlowPlan.{call_of, is_over};

    /// How far the call is.
    pub fn mode(&self) -> Mode
        ensures { result ≡ (call_of self.now).mode }
    {
        self.mode
    }

    /// The number of the call.
    pub fn number(&self) -> u64
        ensures { result ≡ self.now.call }
    {
        self.call
    }

    /// The notice whose end the call awaits: its own, or that of an owed write that it took up.
    pub fn notice(&self) -> Option<u64>
        ensures { result ≡ hearing self.now.call (call_of self.now).plan }
    {
        match &self.point {
            Point::Posting(
                Posting::Held {
                    step: PostStep::Hear,
                    ..
                },
            ) => Some(self.call),
            Point::Listening(Listening::Ended { notice, .. }) => Some(*notice),
            _ => None,
        }
    }

    /// The key whose lock the call's next visit takes, where it takes one.
    pub fn locking(&self) -> Option<&K>
        ensures { option_map (λ key. key.now) result ≡ locking (call_of self.now).plan }
    {
        match &self.point {
            Point::Listening(Listening::Lock(locked)) => Some(key_locked(locked)),
            _ => None,
        }
    }

    /// The value on which the call's next visit asks its replace test, where it does.
    pub fn tested(&self) -> Option<&V>
        ensures { option_map (λ value. value.now) result ≡ tested_in (call_of self.now).plan }
    {
        match &self.point {
            Point::Looking(Looking::Judge { look, stored, .. }) => tested_by(look, stored),
            _ => None,
        }
    }

    /// Whether the call carries a record: its next visit judges one that its last look found. A walk
    /// raises no moment, but judges by the one that is kept, so that must stay until then.
    pub fn carries(&self) -> bool
        ensures { result ≡ carries_in (call_of self.now).plan }
    {
        match &self.point {
            Point::Looking(Looking::Judge { .. }) => true,
            Point::Removing(Removing::Holds { .. }) => true,
            Point::Walking(Walk::Scan { .. }) => true,
            _ => false,
        }
    }

    /// The kind of load whose owner's end the call's next visit reads, if it reads one.
    pub fn kind_read(&self) -> Option<Kind>
        ensures { result ≡ kind_read (call_of self.now).plan }
    {
        match &self.point {
            Point::Loading(Loading::Read(sought)) => Some(sought.load.kind),
            Point::Computing(Computing::Read(_)) => Some(Kind::Compute),
            _ => None,
        }
    }

    /// The key of the load whose owner's end the call's next visit reads, if it reads one of a load.
    pub fn key_read(&self) -> Option<&K>
        ensures { option_map (λ key. key.now) result ≡ key_read (call_of self.now).plan }
    {
        match &self.point {
            Point::Loading(Loading::Read(sought)) => Some(&sought.load.key),
            _ => None,
        }
    }

    /// Whether the call's next visit takes the answer to its own ask.
    pub fn takes_told(&self) -> bool
        ensures { result ≡ takes_told (call_of self.now).plan }
    {
        match &self.point {
            Point::Loading(Loading::Told(_)) => true,
            Point::Computing(Computing::Told { .. }) => true,
            _ => false,
        }
    }

    /// Whether the call's next visit lets predicates go.
    pub(crate) fn leaves(&self) -> bool
        ensures { result ≡ retires_in (call_of self.now).plan }
    {
        match &self.point {
            Point::Maintaining(Maintenance::Retire { .. }) => true,
            _ => false,
        }
    }

    /// The predicates that leave by the call's next visit, if it lets some go.
    pub(crate) fn leaving(&self) -> Option<&IdList>
        ensures { MatchOption result (retires_in (call_of self.now).plan ≡ false)
            (λ ids. self.now.point ≡ Point.Maintaining (Maintenance.Retire ids.now)) }
    {
        match &self.point {
            Point::Maintaining(Maintenance::Retire { ids }) => Some(ids),
            _ => None,
        }
    }

    /// Whether the call has answered: nothing is left for it to do.
    pub fn has_answered(&self) -> bool
        ensures { result ≡ is_over (call_of self.now).plan }
    {
        match &self.point {
            Point::Spent => true,
            _ => false,
        }
    }

    /// The write that the call holds: its own, or an owed one that it took up.
    pub fn held(&self) -> Option<Write>
        ensures { result ≡ held_by (call_of self.now).plan }
    {
        match &self.point {
            Point::Posting(Posting::Held { write, .. }) => Some(*write),
            Point::Listening(Listening::Ended { write, .. }) => Some(*write),
            Point::Listening(Listening::Notice { write, .. }) => Some(*write),
            Point::Listening(Listening::Uncopied { write, .. }) => Some(*write),
            Point::Walking(_) => None,
            Point::Maintaining(_) => None,
            _ => None,
        }
    }
}

impl<K: Exact, V: Exact, E: Exact> Flow<K, V, E> {
    ghost use Rattle.moka_init.specs.FlowPlan.{due_of};

    /// The visit that opens the call's notice, where that is due. It makes the clones that it
    /// needs.
    pub fn due(&self) -> Result<Option<Visit<K, V, E>>, AllocError>
        ensures { IfOk result (λ due. due ≡ due_of self.now) }
    {
        match &self.point {
            Point::Listening(listening) => due_in_listening(self.call, listening),
            _ => Ok(None),
        }
    }
}

// The visit that opens the notice of a call that is listening, where that is due.
fn due_in_listening<K: Exact, V: Exact, E>(
    call: u64,
    listening: &Listening<K, V>,
) -> Result<Option<Visit<K, V, E>>, AllocError>
    ensures { IfOk result (λ due. due ≡ opening call (listening_plan listening.now)) }
{
    match listening {
        Listening::Notice {
            key,
            old,
            cause,
            upsert,
            ..
        } => {
            let visit = open_notice(call, key, old, *cause, *upsert)?;
            Ok(Some(visit))
        }
        Listening::Uncopied { key, old, then, .. } => {
            let visit = open_notice(call, key, old, None, then.is_upsert())?;
            Ok(Some(visit))
        }
        _ => Ok(None),
    }
}

// The visit that opens the notice of a record that left by the call's write or removal.
pub(crate) fn open_notice<K: Exact, V: Exact, E>(
    call: u64,
    key: &K,
    old: &Stored<V>,
    cause: Option<Cause>,
    upsert: bool,
) -> Result<Visit<K, V, E>, AllocError>
    ensures { IfOk result (λ visit.
        On_desk visit ≡ access_for call None (plan.Notice key.now old.now cause upsert)) }
{
    let key = key.clone()?;
    let value = old.value.clone()?;
    Ok(Visit::OpenNotice {
        call,
        key,
        value,
        stamp: old.stamp,
        modified: old.modified,
        cause,
        upsert,
    })
}

// The value of the record, where the look has a replace test.
fn tested_by<'a, K, V>(look: &Look<K, V>, stored: &'a Stored<V>) -> Option<&'a V>
    ensures { option_map (λ value. value.now) result
        ≡ option_map (λ test. stored.now.value) (replace_of (aim_of look.now)) }
{
    match replace_of(look) {
        Some(_) => Some(&stored.value),
        None => None,
    }
}
