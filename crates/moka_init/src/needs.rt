//! What the next visit of a flow needs of the desk.
ghost use Rattle.std.specs.Prelude.{◌≡◌, Some, true, IfOk, OnErr};
ghost use Rattle.moka_init.specs.Grounds.{access_at, access_from, access_with};
ghost use Rattle.moka_init.specs.Needs.{is_claim, need_at};
ghost use Rattle.moka_init.specs.PointPlan.{settled_of, posting_plan, looking_plan, loading_plan};
ghost use Rattle.moka_init.specs.PointPlan.{computing_plan, writing_plan, removing_plan};
ghost use Rattle.moka_init.specs.PointPlan.{carried_in, listening_plan, maintaining_plan, walking_plan};
ghost use Rattle.moka_needs.specs.Needs.{ending_of};

use crate::flow::Flow;
use crate::points::{
    Computing, Ending as Ends, Listening, Loading, Looking, Maintenance, Point, PostStep, Posted,
    Posting, Removing, Walk, Writing,
};
use moka_hist::{Kind, Load, Write};
use moka_needs::{Ending, Need};
use moka_values::Exact;
use std::alloc::AllocError;

impl<K: Exact, V, E> Flow<K, V, E> {
    /// What the flow's next visit needs of the desk. None where its next access is one of the
    /// table, which needs nothing of it. Where a load is to be claimed its key is cloned, and only
    /// there memory may be wanting.
    pub fn need(&self) -> Result<Option<Need<K>>, AllocError>
        ensures ok { IfOk result (λ need. need ≡ need_at (access_at self.now)) }
        ensures err { OnErr result (is_claim (need_at (access_at self.now)) ≡ true) }
    {
        match &self.point {
            Point::Posting(posting) => Ok(Some(self.posting_need(posting))),
            Point::Looking(looking) => Ok(self.looking_need(looking)),
            Point::Loading(loading) => self.loading_need(loading),
            Point::Computing(computing) => self.computing_need(computing),
            Point::Writing(writing) => Ok(self.writing_need(writing)),
            Point::Removing(removing) => Ok(self.removing_need(removing)),
            Point::Listening(listening) => Ok(Some(self.listening_need(listening))),
            Point::Walking(walk) => Ok(self.walking_need(walk)),
            Point::Maintaining(maintenance) => Ok(self.maintaining_need(maintenance)),
            Point::InvalidatingAll => Ok(Some(Need::InvalidateAll)),
            Point::Registering(_) => Ok(Some(Need::Register)),
            Point::Answering(_) => Ok(Some(Need::Clock)),
            Point::Spent => Ok(Some(Need::Clock)),
        }
    }

    fn posting_need(&self, posting: &Posting<K, V>) -> Need<K>
        ensures { Some result ≡ need_at (access_from self.now (posting_plan posting.now)) }
    {
        match posting {
            Posting::Drain(_) => Need::TakeOwed,
            Posting::Held { step, write, .. } => held_need::<K, V, E>(*step, *write),
        }
    }

    fn looking_need(&self, looking: &Looking<K, V>) -> Option<Need<K>>
        ensures { result ≡ need_at (access_from self.now (looking_plan looking.now)) }
    {
        match looking {
            Looking::Get(_) => None,
            Looking::Judge { .. } => Some(Need::Judge),
        }
    }

    fn loading_need(&self, loading: &Loading<K, V, E>) -> Result<Option<Need<K>>, AllocError>
        ensures ok { IfOk result (λ need.
            need ≡ need_at (access_from self.now (loading_plan loading.now))) }
        ensures err { OnErr result (is_claim
            (need_at (access_from self.now (loading_plan loading.now))) ≡ true) }
    {
        match loading {
            Loading::Own(sought) => claims(&sought.load.key, sought.load.kind),
            Loading::Read(_) => Ok(Some(Need::ReadSettled)),
            Loading::Settle(ends) => Ok(Some(Need::Settle { with: end_of(ends) })),
            Loading::Ask(_) => Ok(Some(Need::OpenAsk)),
            Loading::Told(_) => Ok(Some(Need::TakeTold)),
        }
    }

    fn computing_need(&self, computing: &Computing<K, V, E>) -> Result<Option<Need<K>>, AllocError>
        ensures ok { IfOk result (λ need.
            need ≡ need_at (access_from self.now (computing_plan computing.now))) }
        ensures err { OnErr result (is_claim
            (need_at (access_from self.now (computing_plan computing.now))) ≡ true) }
    {
        match computing {
            Computing::Own(compute) => claims(&compute.key, Kind::Compute),
            Computing::OwnAlone(_) => Ok(Some(Need::OwnAlone)),
            Computing::Read(_) => Ok(Some(Need::ReadSettled)),
            Computing::Ask { .. } => Ok(Some(Need::OpenAsk)),
            Computing::Told { .. } => Ok(Some(Need::TakeTold)),
            Computing::Settle(_) => Ok(Some(Need::Settle {
                with: Ending::Nothing,
            })),
        }
    }

    fn writing_need(&self, writing: &Writing<K, V>) -> Option<Need<K>>
        ensures { result ≡ need_at (access_from self.now (writing_plan writing.now)) }
    {
        match writing {
            Writing::Moment(_) => Some(Need::StampMoment),
            Writing::Write { .. } => None,
        }
    }

    fn removing_need(&self, removing: &Removing<K, V>) -> Option<Need<K>>
        ensures { result ≡ need_at (access_from self.now (removing_plan removing.now)) }
    {
        match removing {
            Removing::Find(_) => None,
            Removing::Holds { .. } => Some(Need::Holds),
            Removing::Moment(_) => Some(Need::StampMoment),
            Removing::Out(_) => None,
            Removing::Idle(_) => Some(Need::Clock),
        }
    }

    fn listening_need(&self, listening: &Listening<K, V>) -> Need<K>
        ensures { Some result ≡ need_at (access_from self.now (listening_plan listening.now)) }
    {
        match listening {
            Listening::Ended { .. } => Need::NoticeEnded,
            Listening::Lock(_) => Need::LockKey,
            Listening::Notice { .. } => Need::OpenNotice,
            Listening::Uncopied { .. } => Need::OpenNotice,
            Listening::Release(_) => Need::UnlockKey { wrote: false },
        }
    }

    fn walking_need(&self, walk: &Walk<K, V>) -> Option<Need<K>>
        ensures { result ≡ need_at (access_from self.now (walking_plan walk.now)) }
    {
        match walk {
            Walk::List(_) => None,
            Walk::Find { .. } => None,
            Walk::Scan { .. } => Some(Need::Scan),
        }
    }

    fn maintaining_need(&self, maintenance: &Maintenance<K, V>) -> Option<Need<K>>
        ensures { result ≡ need_at (access_with self.now (carried_in maintenance.now)
            (maintaining_plan maintenance.now)) }
    {
        match maintenance {
            Maintenance::Turn { .. } => Some(Need::TakeTurn),
            Maintenance::Apply { .. } => Some(Need::ApplyOne),
            Maintenance::End { .. } => Some(Need::EndTurn),
            Maintenance::Candidates { .. } => Some(Need::Candidates),
            Maintenance::List { .. } => None,
            Maintenance::Find { .. } => None,
            Maintenance::Strike { .. } => Some(Need::Strike),
            Maintenance::Retire { .. } => Some(Need::Retire),
        }
    }
}

// What this step with the write needs that a call holds.
fn held_need<K, V, E>(step: PostStep, write: Write) -> Need<K>
    ensures { (flow : Flow K V E) → (then : Posted K V) → Some result
        ≡ need_at (access_from flow (posting_plan (Posting.Held step write then))) }
{
    match step {
        PostStep::Hear => Need::NoticeEnded,
        PostStep::Unlock => Need::UnlockKey { wrote: true },
        PostStep::Post => Need::PostWrite { write },
        PostStep::Turn => Need::TakeTurn,
        PostStep::Apply => Need::ApplyOne,
        PostStep::End => Need::EndTurn,
    }
}

// To claim this load.
fn claims<K: Exact>(key: &K, kind: Kind) -> Result<Option<Need<K>>, AllocError>
    ensures { IfOk result (λ need.
        need ≡ Some (Need.WaitOrOwn (record { key = key.now; kind = kind }))) }
{
    let key = key.clone()?;
    Ok(Some(Need::WaitOrOwn {
        load: Load { key, kind },
    }))
}

// How the owner ends, but for the value and the error.
fn end_of<V, E>(ends: &Ends<V, E>) -> Ending
    ensures { result ≡ ending_of (settled_of ends.now) }
{
    match ends {
        Ends::Ready { .. } => Ending::Ready,
        Ends::Err(_) => Ending::Err,
        Ends::Nothing => Ending::Nothing,
    }
}
