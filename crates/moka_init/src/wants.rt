//! The next access of a flow.
ghost use Rattle.std.specs.Prelude.{◌≡◌, [], ◌∷◌, true, false, None, IfOk, IsOk, OnOk, OnErr};
ghost use Rattle.moka_hist.specs.Plan as plan;
ghost use Rattle.moka_hist.specs.Step.{access_of, want_for};
ghost use Rattle.moka_init.specs.FlowPlan.{call_of, standing, IsLive, IsReady, StandsStill};
ghost use Rattle.moka_init.specs.Grounds.{access_at, access_from, wish_for, wish_of, wish_with};
ghost use Rattle.moka_init.specs.Grounds.{CopiesAt, CopiesWith, TakesCopies};
ghost use Rattle.moka_init.specs.PointPlan.{posting_plan, looking_plan, loading_plan};
ghost use Rattle.moka_init.specs.PointPlan.{computing_plan, writing_plan, removing_plan};
ghost use Rattle.moka_init.specs.PointPlan.{carried_in, compute_of, is_copied, listening_plan};
ghost use Rattle.moka_init.specs.PointPlan.{maintaining_plan, walking_plan};

use crate::computing::{removed_as, stored_as};
use crate::copies::{
    found_copy, key_locked, key_sought, pair_copy, replace_of, takes_of, want_get, want_holds,
    want_judge, want_list, want_lock, want_notice, want_out, want_own, want_own_alone,
    want_own_key, want_retire, want_scan, want_settle, want_strike, want_write,
};
use crate::flow::Flow;
use crate::points::{
    Computing, KeyCompute, Listening, Loading, Looking, Maintenance, Point, PostStep, Posted,
    Posting, Removing, Uncopied, Walk, Writing,
};
use moka_hist::{Settled, Stored, Visit, Want, Write};
use moka_values::Exact;
use std::alloc::AllocError;
use std::mem;

impl<K: Exact, V: Exact, E: Exact> Flow<K, V, E> {
    /// Tells the flow's next access, with the clones that it needs, and leaves the flow. Where a
    /// pair is needed twice, for the ask and for the answer, the flow keeps a clone of it.
    /// Precondition: the call has not answered.
    pub fn want(&mut self) -> Result<Want<K, V, E>, AllocError>
        requires live { IsLive self.old }
        ensures want { IfOk result (λ want. want ≡ wish_of self.old) }
        ensures ready { OnOk result (IsReady self.new) }
        ensures still { StandsStill self.old self.new }
        ensures err { OnErr result (CopiesAt self.old) }
    {
        self.copy()?;
        self.wanted()
    }

    /// Makes the copies of what is needed twice, where the flow stands there without them. Where it
    /// has them no memory is wanting.
    pub fn copy(&mut self) -> Result<(), AllocError>
        ensures ready { OnOk result (IsReady self.new) }
        ensures still { StandsStill self.old self.new }
        ensures copied { is_copied self.old.point ≡ true → IsOk result }
        ensures err { OnErr result (TakesCopies (access_at self.old)) }
    {
        if self.is_copied() {
            return Ok(());
        }
        let point = mem::replace(&mut self.point, Point::Spent);
        match point {
            Point::Listening(
                Listening::Uncopied {
                    key,
                    old,
                    write,
                    then,
                },
            ) => self.copy_left(key, old, write, then),
            Point::Computing(Computing::Ask { compute, found, .. }) => {
                self.copy_found(compute, found)
            }
            _ => unreachable!(),
        }
    }

    // Whether the flow has what its next step needs twice, for all that can be seen: of the pair
    // that a compute asks with a copy is made where its ask is to open.
    fn is_copied(&self) -> bool
        ensures { result ≡ is_copied self.now.point }
    {
        match &self.point {
            Point::Listening(Listening::Uncopied { .. }) => false,
            Point::Computing(Computing::Ask { .. }) => false,
            _ => true,
        }
    }

    // The flow stands at the ask of the compute, with a copy of the pair if there was memory for
    // one.
    #[tactic(auto, using(crate::proofs::Asking::ask_takes_copies))]
    fn copy_found(
        &mut self,
        compute: KeyCompute<K>,
        found: Option<(K, V)>,
    ) -> Result<(), AllocError>
        ensures ready { OnOk result (IsReady self.new) }
        ensures call { call_of self.new
            ≡ standing self.old (plan.Ask_op (compute_of compute) found ∷ []) }
        ensures number { self.new.call ≡ self.old.call }
        ensures begun { self.new.begun ≡ self.old.begun }
        ensures err { OnErr result (TakesCopies (access_from self.old
            (plan.Ask_op (compute_of compute) found ∷ []))) }
    {
        match found_copy(&found) {
            Ok(copy) => {
                self.stands_at(Point::Computing(Computing::Ask {
                    compute,
                    found,
                    copy,
                }));
                Ok(())
            }
            Err(error) => {
                self.stands_at(Point::Computing(Computing::Ask {
                    compute,
                    found,
                    copy: None,
                }));
                Err(error)
            }
        }
    }

    // The flow stands at the notice of the record that left, with copies of what is answered of it
    // if there was memory for them.
    fn copy_left(
        &mut self,
        key: K,
        old: Stored<V>,
        write: Write,
        then: Uncopied<V>,
    ) -> Result<(), AllocError>
        ensures ready { OnOk result (IsReady self.new) }
        ensures call { call_of self.new
            ≡ standing self.old (listening_plan (Listening.Uncopied key old write then)) }
        ensures number { self.new.call ≡ self.old.call }
        ensures begun { self.new.begun ≡ self.old.begun }
    {
        match then {
            Uncopied::Found => self.copy_value(key, old, write),
            Uncopied::Removed => self.copy_pair(key, old, write),
            Uncopied::Put { value, replaced } => self.copy_key(key, old, write, value, replaced),
        }
    }

    // The flow stands at the notice of the removed record, with a copy of its value if there was
    // memory for one.
    fn copy_value(&mut self, key: K, old: Stored<V>, write: Write) -> Result<(), AllocError>
        ensures ready { OnOk result (IsReady self.new) }
        ensures call { call_of self.new
            ≡ standing self.old (listening_plan (Listening.Uncopied key old write Uncopied.Found)) }
        ensures number { self.new.call ≡ self.old.call }
        ensures begun { self.new.begun ≡ self.old.begun }
    {
        match old.value.clone() {
            Ok(value) => {
                self.notices_removed(key, old, write, Posted::Found(value));
                Ok(())
            }
            Err(error) => {
                self.stands_uncopied(key, old, write, Uncopied::Found);
                Err(error)
            }
        }
    }

    // The flow stands at the notice of the removed record, with copies of its key and its value if
    // there was memory for them.
    fn copy_pair(&mut self, key: K, old: Stored<V>, write: Write) -> Result<(), AllocError>
        ensures ready { OnOk result (IsReady self.new) }
        ensures call { call_of self.new
            ≡ standing self.old (listening_plan (Listening.Uncopied key old write Uncopied.Removed)) }
        ensures number { self.new.call ≡ self.old.call }
        ensures begun { self.new.begun ≡ self.old.begun }
    {
        match pair_copy(&key, &old.value) {
            Ok((own, value)) => {
                self.notices_removed(key, old, write, Posted::Compute(removed_as(own, value)));
                Ok(())
            }
            Err(error) => {
                self.stands_uncopied(key, old, write, Uncopied::Removed);
                Err(error)
            }
        }
    }

    // The flow stands at the notice of the replaced record, with a copy of the key if there was
    // memory for one.
    fn copy_key(
        &mut self,
        key: K,
        old: Stored<V>,
        write: Write,
        value: V,
        replaced: bool,
    ) -> Result<(), AllocError>
        ensures ready { OnOk result (IsReady self.new) }
        ensures call { call_of self.new ≡ standing self.old
            (listening_plan (Listening.Uncopied key old write (Uncopied.Put value replaced))) }
        ensures number { self.new.call ≡ self.old.call }
        ensures begun { self.new.begun ≡ self.old.begun }
    {
        match key.clone() {
            Ok(own) => {
                let then = Posted::Compute(stored_as(own, value, replaced));
                self.stands_at(Point::Listening(Listening::Notice {
                    key,
                    old,
                    cause: None,
                    upsert: true,
                    write,
                    then,
                }));
                Ok(())
            }
            Err(error) => {
                self.stands_uncopied(key, old, write, Uncopied::Put { value, replaced });
                Err(error)
            }
        }
    }

    // The flow stands at the notice of the removed record, and this follows.
    fn notices_removed(&mut self, key: K, old: Stored<V>, write: Write, then: Posted<K, V>)
        ensures { self.new ≡ record self.old {
          point =
              Point.Listening (Listening.Notice key old None false write then);
        } }
    {
        self.stands_at(Point::Listening(Listening::Notice {
            key,
            old,
            cause: None,
            upsert: false,
            write,
            then,
        }));
    }

    // The flow stands at the notice of the record, of which nothing is copied.
    fn stands_uncopied(&mut self, key: K, old: Stored<V>, write: Write, then: Uncopied<V>)
        ensures { self.new ≡ record self.old {
          point =
              Point.Listening (Listening.Uncopied key old write then);
        } }
    {
        self.stands_at(Point::Listening(Listening::Uncopied {
            key,
            old,
            write,
            then,
        }));
    }

    // The flow's next access, with the clones that it needs.
    fn wanted(&self) -> Result<Want<K, V, E>, AllocError>
        requires live { IsLive self.now }
        ensures want { IfOk result (λ want. want ≡ wish_of self.now) }
        ensures err { OnErr result (CopiesAt self.now) }
    {
        match &self.point {
            Point::Posting(posting) => Ok(self.want_posting(posting)),
            Point::Looking(looking) => self.want_looking(looking),
            Point::Loading(loading) => self.want_loading(loading),
            Point::Computing(computing) => self.want_computing(computing),
            Point::Writing(writing) => self.want_writing(writing),
            Point::Removing(removing) => self.want_removing(removing),
            Point::Listening(listening) => self.want_listening(listening),
            Point::Walking(walk) => self.want_walking(walk),
            Point::Maintaining(maintenance) => self.want_maintaining(maintenance),
            Point::InvalidatingAll => Ok(Want::Desk(Visit::InvalidateAll)),
            Point::Registering(test) => Ok(Want::Desk(Visit::Register { test: *test })),
            Point::Answering(_) => Ok(Want::Desk(Visit::Clock { call: self.call })),
            Point::Spent => unreachable!(),
        }
    }

    fn want_posting(&self, posting: &Posting<K, V>) -> Want<K, V, E>
        ensures { result ≡ wish_for self.now (posting_plan posting.now) }
    {
        match posting {
            Posting::Drain(_) => Want::Desk(Visit::TakeOwed { call: self.call }),
            Posting::Held { step, write, .. } => want_held(self.call, *step, *write),
        }
    }

    fn want_looking(&self, looking: &Looking<K, V>) -> Result<Want<K, V, E>, AllocError>
        ensures want { IfOk result (λ want. want ≡ wish_for self.now (looking_plan looking.now)) }
        ensures err { OnErr result (TakesCopies (access_from self.now (looking_plan looking.now))) }
    {
        match looking {
            Looking::Get(look) => want_get(self.begun, key_sought(look)),
            Looking::Judge { look, key, stored } => want_judge(replace_of(look), key, stored),
        }
    }

    fn want_loading(&self, loading: &Loading<K, V, E>) -> Result<Want<K, V, E>, AllocError>
        ensures want { IfOk result (λ want. want ≡ wish_for self.now (loading_plan loading.now)) }
        ensures err { OnErr result (TakesCopies (access_from self.now (loading_plan loading.now))) }
    {
        let call = self.call;
        match loading {
            Loading::Own(sought) => want_own(call, &sought.load),
            Loading::Read(_) => Ok(Want::Desk(Visit::ReadSettled { call })),
            Loading::Settle(ending) => want_settle(call, ending),
            Loading::Ask(load) => Ok(Want::Desk(Visit::OpenAsk {
                call,
                takes: takes_of(load.kind),
            })),
            Loading::Told(_) => Ok(Want::Desk(Visit::TakeTold { call })),
        }
    }

    fn want_computing(&self, computing: &Computing<K, V, E>) -> Result<Want<K, V, E>, AllocError>
        ensures want { IfOk result (λ want.
            want ≡ wish_for self.now (computing_plan computing.now)) }
        ensures err { OnErr result
            (TakesCopies (access_from self.now (computing_plan computing.now))) }
    {
        let call = self.call;
        match computing {
            Computing::Own(compute) => want_own_key(call, &compute.key),
            Computing::OwnAlone(key) => want_own_alone(call, key),
            Computing::Read(_) => Ok(Want::Desk(Visit::ReadSettled { call })),
            Computing::Ask { compute, .. } => Ok(Want::Desk(Visit::OpenAsk {
                call,
                takes: compute.asks.takes(),
            })),
            Computing::Told { .. } => Ok(Want::Desk(Visit::TakeTold { call })),
            Computing::Settle(_) => Ok(Want::Desk(Visit::Settle {
                call,
                with: Settled::Nothing,
            })),
        }
    }

    fn want_writing(&self, writing: &Writing<K, V>) -> Result<Want<K, V, E>, AllocError>
        ensures want { IfOk result (λ want. want ≡ wish_for self.now (writing_plan writing.now)) }
        ensures err { OnErr result (TakesCopies (access_from self.now (writing_plan writing.now))) }
    {
        let call = self.call;
        match writing {
            Writing::Moment(_) => Ok(Want::Desk(Visit::StampMoment { call })),
            Writing::Write { put, moment } => want_write(self.begun, call, put, *moment),
        }
    }

    fn want_removing(&self, removing: &Removing<K, V>) -> Result<Want<K, V, E>, AllocError>
        ensures want { IfOk result (λ want.
            want ≡ wish_for self.now (removing_plan removing.now)) }
        ensures err { OnErr result
            (TakesCopies (access_from self.now (removing_plan removing.now))) }
    {
        let call = self.call;
        match removing {
            Removing::Find(chosen) => want_get(self.begun, &chosen.key),
            Removing::Holds {
                chosen,
                key,
                stored,
            } => want_holds(key, stored, chosen.cause),
            Removing::Moment(_) => Ok(Want::Desk(Visit::StampMoment { call })),
            Removing::Out(out) => want_out(self.begun, out),
            Removing::Idle(_) => Ok(Want::Desk(Visit::Clock { call })),
        }
    }

    fn want_listening(&self, listening: &Listening<K, V>) -> Result<Want<K, V, E>, AllocError>
        ensures want { IfOk result (λ want.
            want ≡ wish_for self.now (listening_plan listening.now)) }
        ensures err { OnErr result
            (TakesCopies (access_from self.now (listening_plan listening.now))) }
    {
        let call = self.call;
        match listening {
            Listening::Ended { notice, .. } => Ok(Want::Desk(Visit::NoticeEnded {
                call,
                notice: *notice,
            })),
            Listening::Lock(locked) => want_lock(call, key_locked(locked)),
            Listening::Notice {
                key,
                old,
                cause,
                upsert,
                ..
            } => want_notice(call, key, old, *cause, *upsert),
            Listening::Uncopied { key, old, then, .. } => {
                want_notice(call, key, old, None, then.is_upsert())
            }
            Listening::Release(_) => Ok(Want::Desk(Visit::UnlockKey { call, wrote: false })),
        }
    }

    fn want_walking(&self, walk: &Walk<K, V>) -> Result<Want<K, V, E>, AllocError>
        ensures want { IfOk result (λ want. want ≡ wish_for self.now (walking_plan walk.now)) }
        ensures err { OnErr result (TakesCopies (access_from self.now (walking_plan walk.now))) }
    {
        match walk {
            Walk::List(part) => Ok(want_list(self.begun, part.number)),
            Walk::Find { key, .. } => want_get(self.begun, key),
            Walk::Scan { key, stored, .. } => want_scan(key, stored),
        }
    }

    fn want_maintaining(&self, maintenance: &Maintenance<K, V>) -> Result<Want<K, V, E>, AllocError>
        ensures want { IfOk result (λ want. want ≡ wish_with self.now
            (carried_in maintenance.now) (maintaining_plan maintenance.now)) }
        ensures err { OnErr result (CopiesWith self.now (carried_in maintenance.now)
            (maintaining_plan maintenance.now)) }
    {
        let call = self.call;
        match maintenance {
            Maintenance::Turn { .. } => Ok(Want::Desk(Visit::TakeTurn { call })),
            Maintenance::Apply { .. } => Ok(Want::Desk(Visit::ApplyOne { call })),
            Maintenance::End { .. } => Ok(Want::Desk(Visit::EndTurn { call })),
            Maintenance::Candidates { .. } => Ok(Want::Desk(Visit::Candidates)),
            Maintenance::List { part, .. } => Ok(want_list(self.begun, part.number)),
            Maintenance::Find { key, .. } => want_get(self.begun, key),
            Maintenance::Strike {
                key,
                stored,
                ids,
                ..
            } => want_strike(ids, key, stored),
            Maintenance::Retire { ids } => want_retire(ids),
        }
    }
}

// The visit that is this step with the write that the call holds.
fn want_held<K, V, E>(call: u64, step: PostStep, write: Write) -> Want<K, V, E>
    ensures { (flow : Flow K V E) → (then : Posted K V) → result ≡ want_for flow.begun
        (access_of call (standing flow (posting_plan (Posting.Held step write then)))) }
{
    match step {
        PostStep::Hear => Want::Desk(Visit::NoticeEnded { call, notice: call }),
        PostStep::Unlock => Want::Desk(Visit::UnlockKey { call, wrote: true }),
        PostStep::Post => Want::Desk(Visit::PostWrite { call, write }),
        PostStep::Turn => Want::Desk(Visit::TakeTurn { call }),
        PostStep::Apply => Want::Desk(Visit::ApplyOne { call }),
        PostStep::End => Want::Desk(Visit::EndTurn { call }),
    }
}
