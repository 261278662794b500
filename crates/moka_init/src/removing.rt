//! Taking a record out.
ghost use Rattle.std.specs.Prelude.{◌≡◌, ◌==◌, true, None, [], ◌∷◌};
ghost use Rattle.moka_hist.specs.Plan as plan;
ghost use Rattle.moka_hist.specs.Looking.{after_get, after_holds, chosen_or_not, keeps};
ghost use Rattle.moka_hist.specs.Step.{next_of, access_of};
ghost use Rattle.moka_hist.specs.Writing.{after_moment, after_out, after_idle};
ghost use Rattle.moka_hist.specs.Writing.{nothing_rest, removed_rest, removed_answer, said};
ghost use Rattle.moka_hist.specs.Next.{goes};
ghost use Rattle.moka_init.specs.PointPlan.{aim_at, carried_at, finds, listening_plan, plan_at};
ghost use Rattle.moka_init.specs.PointPlan.{removal_of, removing_plan, says_nothing, takes_out};
ghost use Rattle.moka_init.specs.FlowPlan.{standing, mid, GoesOn};
ghost use Rattle.moka_init.specs.Forms.{HasForm, IsFoundBy};

use crate::computing::{removed_as, unchanged};
use crate::flow::Flow;
use crate::points::{
    Chosen, Listening, Point, PostStep, Posted, Posting, Removal, Removing, TakeOut, Uncopied,
};
use moka_hist::{Answer, Found, Got, Stored, TableAnswer, TableTurn, Turn, Visit, Write};

impl<K: Drop, V: Drop, E: Drop> Flow<K, V, E> {
    pub(crate) fn after_removing(
        &mut self,
        removing: Removing<K, V>,
        found: Found<V, E>,
    ) -> Turn<K, V, E>
        requires form { HasForm
            (access_of self.old.call (standing self.old (removing_plan removing)))
            (Got.Desk found) }
        ensures { GoesOn self.old
            (next_of self.old.call (standing self.old (removing_plan removing)) (Got.Desk found))
            result self.new }
    {
        match removing {
            Removing::Holds {
                chosen,
                key,
                stored,
            } => self.after_holds(chosen, key, stored, found),
            Removing::Moment(out) => self.after_taken_moment(out, found),
            Removing::Idle(out) => self.after_idle(out, found),
            Removing::Find(_) => unreachable!(),
            Removing::Out(_) => unreachable!(),
        }
    }

    // After a step of the look for a chosen record: one that is another by now stays.
    pub(crate) fn after_find(&mut self, chosen: Chosen<K>, turn: TableTurn<K, V>) -> Turn<K, V, E>
        ensures { GoesOn self.old
            (after_get (standing self.old (finds chosen)) (aim_at chosen) turn)
            result self.new }
    {
        match turn {
            TableTurn::Going => self.goes(Point::Removing(Removing::Find(chosen))),
            TableTurn::Decided(TableAnswer::None) => self.keeps(chosen),
            TableTurn::Decided(TableAnswer::Some { key, stored }) => {
                self.finds(chosen, key, stored)
            }
            TableTurn::Decided(TableAnswer::Keys(_)) => {
                self.waits(Point::Removing(Removing::Find(chosen)))
            }
        }
    }

    fn finds(&mut self, chosen: Chosen<K>, key: K, stored: Stored<V>) -> Turn<K, V, E>
        ensures { GoesOn self.old
            (chosen_or_not (standing self.old (plan_at self.old.point))
            (stored.stamp == chosen.stamp) chosen.key chosen.stamp chosen.cause key stored)
            result self.new }
    {
        if stored.stamp == chosen.stamp {
            self.goes(Point::Removing(Removing::Holds {
                chosen,
                key,
                stored,
            }))
        } else {
            self.keeps(chosen)
        }
    }

    // The chosen record stays. The lock is freed where one is held.
    fn keeps(&mut self, chosen: Chosen<K>) -> Turn<K, V, E>
        ensures { GoesOn self.old
            (keeps (standing self.old (plan_at self.old.point))) result self.new }
    {
        if self.rules.listener {
            self.goes(Point::Listening(Listening::Release(chosen.take_out())))
        } else {
            self.answers(Answer::Kept)
        }
    }

    fn after_holds(
        &mut self,
        chosen: Chosen<K>,
        key: K,
        stored: Stored<V>,
        found: Found<V, E>,
    ) -> Turn<K, V, E>
        requires form { IsFoundBy (Visit.Holds key stored chosen.cause) found }
        ensures { GoesOn self.old
            (after_holds
            (standing self.old (removing_plan (Removing.Holds chosen key stored)))
            chosen.key chosen.stamp chosen.cause found) result self.new }
    {
        match found {
            Found::Holds(true) => self.goes(Point::Removing(Removing::Moment(chosen.take_out()))),
            Found::Holds(false) => self.keeps(chosen),
            _ => unreachable!(),
        }
    }

    fn after_taken_moment(&mut self, out: TakeOut<K>, found: Found<V, E>) -> Turn<K, V, E>
        requires form { IsFoundBy {K = K} (Visit.StampMoment self.old.call) found }
        ensures { GoesOn self.old
            (after_moment (standing self.old (takes_out out))
            (plan.To_take_out (removal_of out) out.key) [] found) result self.new }
    {
        match found {
            Found::StampMoment(_) => self.goes(Point::Removing(Removing::Out(out))),
            _ => unreachable!(),
        }
    }

    pub(crate) fn after_out(&mut self, out: TakeOut<K>, turn: TableTurn<K, V>) -> Turn<K, V, E>
        ensures { GoesOn self.old
            (after_out self.old.call
            (standing self.old (plan.Out (removal_of out) out.key ∷ []))
            (removal_of out) out.key turn) result self.new }
    {
        match turn {
            TableTurn::Going => self.goes(Point::Removing(Removing::Out(out))),
            TableTurn::Decided(TableAnswer::None) => self.finds_nothing(out),
            TableTurn::Decided(TableAnswer::Some { stored, .. }) => self.removes(out, stored),
            TableTurn::Decided(TableAnswer::Keys(_)) => {
                self.waits(Point::Removing(Removing::Out(out)))
            }
        }
    }

    // Nothing was taken out: the lock is freed, or without a listener the clock read.
    fn finds_nothing(&mut self, out: TakeOut<K>) -> Turn<K, V, E>
        ensures { GoesOn self.old
            (mid self.old (nothing_rest self.old.rules.listener (removal_of out)))
            result self.new }
    {
        if self.rules.listener {
            self.goes(Point::Listening(Listening::Release(out)))
        } else {
            self.goes(Point::Removing(Removing::Idle(out)))
        }
    }

    // The removal is committed, and to be posted, once the listener has heard of the record.
    fn removes(&mut self, out: TakeOut<K>, old: Stored<V>) -> Turn<K, V, E>
        ensures { GoesOn self.old
            (mid self.old (removed_rest self.old.rules.listener self.old.call
            (removal_of out) out.key old)) result self.new }
    {
        let write = Write::Remove {
            number: self.call,
            old: old.stamp,
        };
        if self.rules.listener {
            self.tells_removed(out, old, write)
        } else {
            self.goes(Point::removed(write, out, old.value))
        }
    }

    // The notice of the record that was taken out is due.
    fn tells_removed(&mut self, out: TakeOut<K>, old: Stored<V>, write: Write) -> Turn<K, V, E>
        requires write { write ≡ Write.Remove self.old.call old.stamp }
        ensures { GoesOn self.old
            (mid self.old (removed_rest true self.old.call
            (removal_of out) out.key old)) result self.new }
    {
        let TakeOut { key, removal } = out;
        match removal {
            Removal::Invalidate => self.goes(Point::Listening(Listening::Notice {
                key,
                old,
                cause: None,
                upsert: false,
                write,
                then: Posted::Done,
            })),
            Removal::Remove => self.answers_removed(key, old, write, Uncopied::Found),
            Removal::Compute => self.answers_removed(key, old, write, Uncopied::Removed),
            Removal::Evict { cause, .. } => self.goes(Point::Listening(Listening::Notice {
                key,
                old,
                cause: Some(cause),
                upsert: false,
                write,
                then: Posted::Evicted,
            })),
        }
    }

    // The notice of the record is due whose value is answered too.
    fn answers_removed(
        &mut self,
        key: K,
        old: Stored<V>,
        write: Write,
        then: Uncopied<V>,
    ) -> Turn<K, V, E>
        ensures { GoesOn self.old
            (mid self.old (listening_plan (Listening.Uncopied key old write then))) result self.new }
    {
        self.goes(Point::Listening(Listening::Uncopied {
            key,
            old,
            write,
            then,
        }))
    }

    fn after_idle(&mut self, out: TakeOut<K>, found: Found<V, E>) -> Turn<K, V, E>
        requires form { IsFoundBy {K = K} (Visit.Clock self.old.call) found }
        ensures { GoesOn self.old
            (after_idle (standing self.old (plan.Idle ∷ says_nothing out))
            (says_nothing out) found) result self.new }
    {
        match found {
            Found::Clock(_) => self.ends_with_nothing(out),
            _ => unreachable!(),
        }
    }

    // Nothing was taken out, which is answered, by a compute once those that wait know that it is
    // over.
    pub(crate) fn ends_with_nothing(&mut self, out: TakeOut<K>) -> Turn<K, V, E>
        ensures { GoesOn self.old
            (goes (standing self.old (plan_at self.old.point)) (says_nothing out)) result self.new }
    {
        match out.removal {
            Removal::Invalidate => self.answers(Answer::Done),
            Removal::Remove => self.answers(Answer::Found(None)),
            Removal::Evict { .. } => self.answers(Answer::Kept),
            Removal::Compute => self.ends(unchanged(out.key, None)),
        }
    }
}

impl<K> Chosen<K> {
    // The chosen record is to be taken out.
    fn take_out(self) -> TakeOut<K>
        ensures { result
            ≡ record { key = self.key; removal = Removal.Evict self.stamp self.cause } }
    {
        let Chosen { key, stamp, cause } = self;
        let removal = Removal::Evict { stamp, cause };
        TakeOut { key, removal }
    }
}

impl<K: Drop, V: Drop, E: Drop> Point<K, V, E> {
    // The write is posted of a removal that took out a record of this value, and that is answered.
    fn removed(write: Write, out: TakeOut<K>, value: V) -> Self
        ensures plan { plan_at result ≡ plan.Post write
            ∷ said (removal_of out) (removed_answer (removal_of out) value) }
        ensures carries { carried_at result ≡ None }
    {
        let then = match out.removal {
            Removal::Invalidate => Posted::Done,
            Removal::Remove => Posted::Found(value),
            Removal::Evict { .. } => Posted::Evicted,
            Removal::Compute => Posted::Compute(removed_as(out.key, value)),
        };
        Point::Posting(Posting::Held {
            step: PostStep::Post,
            write,
            then,
        })
    }
}
