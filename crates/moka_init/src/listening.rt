//! Holding a key's lock, and telling the listener of a record that left.
ghost use Rattle.std.specs.Prelude.{◌≡◌, ◌∷◌, true, false, Bool, Option};
ghost use Rattle.moka_hist.specs.Plan as plan;
ghost use Rattle.moka_hist.specs.Listening.{after_lock, after_unlock, after_notice, after_hearing};
ghost use Rattle.moka_hist.specs.Step.{next_of, access_of};
ghost use Rattle.moka_init.specs.PointPlan.{says_nothing, drained_rest, is_copied_in};
ghost use Rattle.moka_init.specs.PointPlan.{key_locked};
ghost use Rattle.moka_init.specs.PointPlan.{listening_plan, locked_rest, posting_plan};
ghost use Rattle.moka_init.specs.FlowPlan.{standing, mid, GoesOn};
ghost use Rattle.moka_init.specs.Forms.{HasForm, IsFoundBy};

use crate::flow::Flow;
use crate::points::{
    Drained, Listening, Locked, Point, PostStep, Posted, Posting, Removing, TakeOut, Writing,
};
use moka_hist::{Ask, Cause, Found, Got, LockTaken, Stored, Turn, Visit, Write};

impl<K: Drop, V: Drop, E: Drop> Flow<K, V, E> {
    pub(crate) fn after_listening(
        &mut self,
        listening: Listening<K, V>,
        found: Found<V, E>,
    ) -> Turn<K, V, E>
        requires ready { is_copied_in listening ≡ true }
        requires form { HasForm
            (access_of self.old.call (standing self.old (listening_plan listening)))
            (Got.Desk found) }
        ensures { GoesOn self.old
            (next_of self.old.call (standing self.old (listening_plan listening))
            (Got.Desk found)) result self.new }
    {
        match listening {
            Listening::Ended {
                notice,
                write,
                then,
            } => self.after_ended(notice, write, then, found),
            Listening::Lock(locked) => self.after_lock(locked, found),
            Listening::Notice {
                key,
                old,
                write,
                then,
                ..
            } => self.after_notice(key, old, write, then, found),
            Listening::Uncopied { .. } => unreachable!(),
            Listening::Release(out) => self.after_release(out, found),
        }
    }

    // An owed write is posted once its notice has ended.
    fn after_ended(
        &mut self,
        notice: u64,
        write: Write,
        then: Drained<K, V>,
        found: Found<V, E>,
    ) -> Turn<K, V, E>
        requires form { IsFoundBy {K = K} (Visit.NoticeEnded self.old.call notice) found }
        ensures { GoesOn self.old
            (after_hearing
            (standing self.old (listening_plan (Listening.Ended notice write then)))
            (plan.Post write ∷ plan.Drain ∷ drained_rest then) found) result self.new }
    {
        match found {
            Found::NoticeEnded(true) => {
                self.passes_on(PostStep::Post, write, Posted::Drain(then))
            }
            Found::NoticeEnded(false) => self.waits(Point::Listening(Listening::Ended {
                notice,
                write,
                then,
            })),
            _ => unreachable!(),
        }
    }

    fn after_lock(&mut self, locked: Locked<K, V>, found: Found<V, E>) -> Turn<K, V, E>
        requires form { IsFoundBy (Visit.LockKey self.old.call (key_locked locked)) found }
        ensures { GoesOn self.old
            (after_lock
            (standing self.old (plan.Lock (key_locked locked) ∷ locked_rest locked))
            (locked_rest locked) found) result self.new }
    {
        match found {
            Found::LockKey(taken) => self.goes_or_waits(taken, locked),
            _ => unreachable!(),
        }
    }

    // The call goes on where it has taken the key's lock, and else waits for it.
    fn goes_or_waits(&mut self, taken: LockTaken, locked: Locked<K, V>) -> Turn<K, V, E>
        ensures { GoesOn self.old
            (after_lock
            (standing self.old (plan.Lock (key_locked locked) ∷ locked_rest locked))
            (locked_rest locked) (Found.LockKey taken)) result self.new }
    {
        match taken {
            LockTaken::Taken => self.goes_locked(locked),
            LockTaken::Held => self.waits(Point::Listening(Listening::Lock(locked))),
            LockTaken::Kept { .. } => self.waits(Point::Listening(Listening::Lock(locked))),
        }
    }

    // The call has taken the key's lock.
    fn goes_locked(&mut self, locked: Locked<K, V>) -> Turn<K, V, E>
        ensures { GoesOn self.old (mid self.old (locked_rest locked)) result self.new }
    {
        match locked {
            Locked::Put(put) => self.goes(Point::Writing(Writing::Moment(put))),
            Locked::TakeOut(out) => self.goes(Point::Removing(Removing::Moment(out))),
            Locked::Find(chosen) => self.goes(Point::Removing(Removing::Find(chosen))),
        }
    }

    fn after_notice(
        &mut self,
        key: K,
        old: Stored<V>,
        write: Write,
        then: Posted<K, V>,
        found: Found<V, E>,
    ) -> Turn<K, V, E>
        requires form { (cause : Option Cause) × (found ≡ Found.OpenNotice cause) }
        ensures { (hand : Option Cause) → (upsert : Bool) → GoesOn self.old
            (after_notice
            (standing self.old (listening_plan (Listening.Notice key old hand upsert write then)))
            key old (posting_plan (Posting.Held PostStep.Unlock write then)) found)
            result self.new }
    {
        match found {
            Found::OpenNotice(None) => self.passes_on(PostStep::Unlock, write, then),
            Found::OpenNotice(Some(cause)) => self.asks(
                Ask::Listener {
                    key,
                    value: old.value,
                    cause,
                },
                Point::Posting(Posting::Held {
                    step: PostStep::Hear,
                    write,
                    then,
                }),
            ),
            _ => unreachable!(),
        }
    }

    // Nothing was written under the lock: nothing is left but to answer so.
    fn after_release(&mut self, out: TakeOut<K>, found: Found<V, E>) -> Turn<K, V, E>
        requires form { IsFoundBy {K = K} (Visit.UnlockKey self.old.call false) found }
        ensures { GoesOn self.old
            (after_unlock (standing self.old (plan.Unlock false ∷ says_nothing out))
            (says_nothing out) found) result self.new }
    {
        match found {
            Found::UnlockKey => self.ends_with_nothing(out),
            _ => unreachable!(),
        }
    }
}
