//! Taking up owed writes, and what is done with a write until it is posted.
ghost use Rattle.std.specs.Prelude.{◌≡◌, ◌∷◌, true};
ghost use Rattle.moka_hist.specs.Plan as plan;
ghost use Rattle.moka_hist.specs.Next.{goes};
ghost use Rattle.moka_hist.specs.Listening.{after_hearing, after_unlock};
ghost use Rattle.moka_hist.specs.Posting.{once_ended, after_drain, after_post, after_turn};
ghost use Rattle.moka_hist.specs.Posting.{after_apply, after_end};
ghost use Rattle.moka_hist.specs.Step.{next_of, access_of};
ghost use Rattle.moka_init.specs.PointPlan.{plan_at, posting_plan, drained_rest, posted_rest};
ghost use Rattle.moka_init.specs.FlowPlan.{standing, mid, GoesOn};
ghost use Rattle.moka_init.specs.Forms.{HasForm, IsFoundBy};

use crate::computing::unchanged;
use crate::flow::Flow;
use crate::points::{
    Drained, Ending, Listening, Loading, Looking, Maintenance, Point, PostStep, Posted, Posting,
    Removing, Writing,
};
use moka_hist::{Answer, Found, Got, Mode, Owed, Turn, Visit, Write};

impl<K: Drop, V: Drop, E: Drop> Flow<K, V, E> {
    pub(crate) fn after_posting(
        &mut self,
        posting: Posting<K, V>,
        found: Found<V, E>,
    ) -> Turn<K, V, E>
        requires form { HasForm
            (access_of self.old.call (standing self.old (posting_plan posting)))
            (Got.Desk found) }
        ensures { GoesOn self.old
            (next_of self.old.call (standing self.old (posting_plan posting)) (Got.Desk found))
            result self.new }
    {
        match posting {
            Posting::Drain(then) => self.after_drain(then, found),
            Posting::Held { step, write, then } => self.after_step(step, write, then, found),
        }
    }

    // After what was done with the write that the call holds.
    fn after_step(
        &mut self,
        step: PostStep,
        write: Write,
        then: Posted<K, V>,
        found: Found<V, E>,
    ) -> Turn<K, V, E>
        requires form { HasForm
            (access_of self.old.call
            (standing self.old (posting_plan (Posting.Held step write then))))
            (Got.Desk found) }
        ensures { GoesOn self.old
            (next_of self.old.call (standing self.old (posting_plan (Posting.Held step write then)))
            (Got.Desk found)) result self.new }
    {
        match step {
            PostStep::Hear => self.after_heard(write, then, found),
            PostStep::Unlock => self.after_unlock(write, then, found),
            PostStep::Post => self.after_post(write, then, found),
            PostStep::Turn => self.after_turn(write, then, found),
            PostStep::Apply => self.after_apply(write, then, found),
            PostStep::End => self.after_end(write, then, found),
        }
    }

    // The call goes on with this step of the write.
    pub(crate) fn passes_on(
        &mut self,
        step: PostStep,
        write: Write,
        then: Posted<K, V>,
    ) -> Turn<K, V, E>
        ensures turn { result ≡ Turn.Going }
        ensures flow { self.new ≡ record self.old {
          mode = Mode.Mid;
          point = Point.Posting (Posting.Held step write then);
        } }
    {
        self.goes(Point::Posting(Posting::Held { step, write, then }))
    }

    fn after_drain(&mut self, then: Drained<K, V>, found: Found<V, E>) -> Turn<K, V, E>
        requires form { IsFoundBy {K = K} (Visit.TakeOwed self.old.call) found }
        ensures { GoesOn self.old
            (after_drain (standing self.old (plan.Drain ∷ drained_rest then))
            (drained_rest then) found) result self.new }
    {
        match found {
            Found::TakeOwed(None) => self.drained(then),
            Found::TakeOwed(Some(owed)) => self.takes_up(owed, then),
            _ => unreachable!(),
        }
    }

    // An owed write is posted, once its notice has ended.
    fn takes_up(&mut self, owed: Owed, then: Drained<K, V>) -> Turn<K, V, E>
        ensures { GoesOn self.old (mid self.old (once_ended owed.notice
            (plan.Post owed.write ∷ plan.Drain ∷ drained_rest then))) result self.new }
    {
        let write = owed.write;
        match owed.notice {
            Some(notice) => self.goes(Point::Listening(Listening::Ended {
                notice,
                write,
                then,
            })),
            None => self.passes_on(PostStep::Post, write, Posted::Drain(then)),
        }
    }

    // Nothing is owed any more.
    fn drained(&mut self, then: Drained<K, V>) -> Turn<K, V, E>
        ensures { GoesOn self.old
            (goes (standing self.old (plan_at self.old.point)) (drained_rest then))
            result self.new }
    {
        match then {
            Drained::Look(look) => self.goes(Point::Looking(Looking::Get(look))),
            Drained::Own(sought) => self.goes(Point::Loading(Loading::Own(sought))),
            Drained::Put(put) => self.goes(Point::Writing(Writing::Moment(put))),
            Drained::TakeOut(out) => self.goes(Point::Removing(Removing::Moment(out))),
            Drained::Lock(locked) => self.goes(Point::Listening(Listening::Lock(locked))),
            Drained::Loaded(value) => self.answers(Answer::Loaded { value, fresh: true }),
            Drained::Ask(compute) => self.asks_with(compute, None),
            Drained::StillNone(key) => self.answers(unchanged(key, None)),
            Drained::Maintain { parts } => self.goes(Point::Maintaining(Maintenance::Turn {
                parts,
            })),
        }
    }

    fn after_heard(&mut self, write: Write, then: Posted<K, V>, found: Found<V, E>) -> Turn<K, V, E>
        requires form { IsFoundBy {K = K} (Visit.NoticeEnded self.old.call self.old.call) found }
        ensures { GoesOn self.old
            (after_hearing
            (standing self.old (posting_plan (Posting.Held PostStep.Hear write then)))
            (posting_plan (Posting.Held PostStep.Unlock write then)) found) result self.new }
    {
        match found {
            Found::NoticeEnded(true) => self.passes_on(PostStep::Unlock, write, then),
            Found::NoticeEnded(false) => self.waits(Point::Posting(Posting::Held {
                step: PostStep::Hear,
                write,
                then,
            })),
            _ => unreachable!(),
        }
    }

    fn after_unlock(
        &mut self,
        write: Write,
        then: Posted<K, V>,
        found: Found<V, E>,
    ) -> Turn<K, V, E>
        requires form { IsFoundBy {K = K} (Visit.UnlockKey self.old.call true) found }
        ensures { GoesOn self.old
            (after_unlock
            (standing self.old (posting_plan (Posting.Held PostStep.Unlock write then)))
            (plan.Post write ∷ posted_rest then) found) result self.new }
    {
        match found {
            Found::UnlockKey => self.passes_on(PostStep::Post, write, then),
            _ => unreachable!(),
        }
    }

    fn after_post(&mut self, write: Write, then: Posted<K, V>, found: Found<V, E>) -> Turn<K, V, E>
        requires form { IsFoundBy {K = K} (Visit.PostWrite self.old.call write) found }
        ensures { GoesOn self.old
            (after_post (standing self.old (plan.Post write ∷ posted_rest then))
            write (posted_rest then) found) result self.new }
    {
        match found {
            Found::PostWrite(true) => self.posted(then),
            Found::PostWrite(false) => self.passes_on(PostStep::Turn, write, then),
            _ => unreachable!(),
        }
    }

    fn posted(&mut self, then: Posted<K, V>) -> Turn<K, V, E>
        ensures { GoesOn self.old
            (goes (standing self.old (plan_at self.old.point)) (posted_rest then))
            result self.new }
    {
        match then {
            Posted::Drain(then) => self.goes(Point::Posting(Posting::Drain(then))),
            Posted::Done => self.answers(Answer::Done),
            Posted::Settle(value) => self.settles(Ending::Ready { value, fresh: true }),
            Posted::Loaded(value) => self.answers(Answer::Loaded { value, fresh: true }),
            Posted::Found(value) => self.answers(Answer::Found(Some(value))),
            Posted::Evicted => self.answers(Answer::Evicted),
            Posted::Compute(done) => self.ends(Answer::Computed(done)),
        }
    }

    fn after_turn(&mut self, write: Write, then: Posted<K, V>, found: Found<V, E>) -> Turn<K, V, E>
        requires form { IsFoundBy {K = K} (Visit.TakeTurn self.old.call) found }
        ensures { GoesOn self.old
            (after_turn (standing self.old (posting_plan (Posting.Held PostStep.Turn write then)))
            (posting_plan (Posting.Held PostStep.Apply write then)) found) result self.new }
    {
        match found {
            Found::TakeTurn(true) => self.passes_on(PostStep::Apply, write, then),
            Found::TakeTurn(false) => self.waits(Point::Posting(Posting::Held {
                step: PostStep::Turn,
                write,
                then,
            })),
            _ => unreachable!(),
        }
    }

    fn after_apply(&mut self, write: Write, then: Posted<K, V>, found: Found<V, E>) -> Turn<K, V, E>
        requires form { IsFoundBy {K = K} (Visit.ApplyOne self.old.call) found }
        ensures { GoesOn self.old
            (after_apply (standing self.old (posting_plan (Posting.Held PostStep.Apply write then)))
            (posting_plan (Posting.Held PostStep.End write then)) found) result self.new }
    {
        match found {
            Found::ApplyOne(true) => self.passes_on(PostStep::Apply, write, then),
            Found::ApplyOne(false) => self.passes_on(PostStep::End, write, then),
            _ => unreachable!(),
        }
    }

    fn after_end(&mut self, write: Write, then: Posted<K, V>, found: Found<V, E>) -> Turn<K, V, E>
        requires form { IsFoundBy {K = K} (Visit.EndTurn self.old.call) found }
        ensures { GoesOn self.old
            (after_end (standing self.old (posting_plan (Posting.Held PostStep.End write then)))
            (posting_plan (Posting.Held PostStep.Post write then)) found) result self.new }
    {
        match found {
            Found::EndTurn => self.passes_on(PostStep::Post, write, then),
            _ => unreachable!(),
        }
    }
}
