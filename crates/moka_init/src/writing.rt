//! Writing a value.
ghost use Rattle.std.specs.Prelude.{◌≡◌, true, ◌∷◌, None};
ghost use Rattle.moka_hist.specs.Plan as plan;
ghost use Rattle.moka_hist.specs.Step.{next_of, access_of};
ghost use Rattle.moka_hist.specs.Writing.{after_moment, after_write, once_told, old_stamp};
ghost use Rattle.moka_init.specs.PointPlan.{writing_plan, put_rest, posted_after, posted_rest, stores};
ghost use Rattle.moka_init.specs.FlowPlan.{standing, mid, GoesOn};
ghost use Rattle.moka_init.specs.Forms.{HasForm, IsFoundBy};

use crate::computing::stored_as;
use crate::flow::Flow;
use crate::points::{Listening, Point, PostStep, Posted, Put, Then, Uncopied, Writing};
use moka_hist::{Found, Got, Stored, TableAnswer, TableTurn, Turn, Visit, Write};

impl<K: Drop, V: Drop, E: Drop> Flow<K, V, E> {
    pub(crate) fn after_writing(
        &mut self,
        writing: Writing<K, V>,
        found: Found<V, E>,
    ) -> Turn<K, V, E>
        requires form { HasForm
            (access_of self.old.call (standing self.old (writing_plan writing)))
            (Got.Desk found) }
        ensures { GoesOn self.old
            (next_of self.old.call (standing self.old (writing_plan writing)) (Got.Desk found))
            result self.new }
    {
        match writing {
            Writing::Moment(put) => self.after_moment(put, found),
            Writing::Write { .. } => unreachable!(),
        }
    }

    fn after_moment(&mut self, put: Put<K, V>, found: Found<V, E>) -> Turn<K, V, E>
        requires form { IsFoundBy {K = K} (Visit.StampMoment self.old.call) found }
        ensures { GoesOn self.old
            (after_moment (standing self.old (stores put)) (plan.To_store put.key put.value)
            (put_rest put) found) result self.new }
    {
        match found {
            Found::StampMoment(moment) => self.goes(Point::Writing(Writing::Write { put, moment })),
            _ => unreachable!(),
        }
    }

    pub(crate) fn after_write(
        &mut self,
        put: Put<K, V>,
        moment: u64,
        turn: TableTurn<K, V>,
    ) -> Turn<K, V, E>
        ensures { GoesOn self.old
            (after_write self.old.call
            (standing self.old (plan.Write put.key put.value moment ∷ put_rest put))
            put.key (put_rest put) turn) result self.new }
    {
        match turn {
            TableTurn::Going => self.goes(Point::Writing(Writing::Write { put, moment })),
            TableTurn::Decided(answer) => self.commits(put, answer),
        }
    }

    // The write is committed, and to be posted, once the listener has heard of the record that was
    // replaced.
    fn commits(&mut self, put: Put<K, V>, answer: TableAnswer<K, V>) -> Turn<K, V, E>
        ensures { GoesOn self.old
            (mid self.old (once_told self.old.rules.listener put.key answer
            (plan.Post (Write.Upsert self.old.call (old_stamp answer)) ∷ put_rest put)))
            result self.new }
    {
        let write = Write::Upsert {
            number: self.call,
            old: stamp_of(&answer),
        };
        if self.rules.listener {
            self.tells(put, answer, write)
        } else {
            self.passes_on(PostStep::Post, write, put.posted())
        }
    }

    // The listener hears of the record that was replaced, if any, before the key's lock is freed.
    fn tells(&mut self, put: Put<K, V>, answer: TableAnswer<K, V>, write: Write) -> Turn<K, V, E>
        ensures { GoesOn self.old
            (mid self.old (once_told true put.key answer (plan.Post write ∷ put_rest put)))
            result self.new }
    {
        match answer {
            TableAnswer::None => self.passes_on(PostStep::Unlock, write, put.posted()),
            TableAnswer::Some { stored, .. } => self.opens(put, stored, write),
            TableAnswer::Keys(_) => self.passes_on(PostStep::Unlock, write, put.posted()),
        }
    }

    // The notice of the replaced record is due. A compute's key is answered too.
    fn opens(&mut self, put: Put<K, V>, old: Stored<V>, write: Write) -> Turn<K, V, E>
        ensures { GoesOn self.old
            (mid self.old
            (plan.Notice put.key old None true ∷ plan.Unlock true ∷ plan.Post write
            ∷ put_rest put))
            result self.new }
    {
        let Put { key, value, then } = put;
        match then {
            Then::Done => self.notices(key, old, write, Posted::Done),
            Then::Settle => self.notices(key, old, write, Posted::Settle(value)),
            Then::Loaded => self.notices(key, old, write, Posted::Loaded(value)),
            Then::Compute { replaced } => self.goes(Point::Listening(Listening::Uncopied {
                key,
                old,
                write,
                then: Uncopied::Put { value, replaced },
            })),
        }
    }

    // The notice of the replaced record is due, and this follows.
    fn notices(&mut self, key: K, old: Stored<V>, write: Write, then: Posted<K, V>) -> Turn<K, V, E>
        ensures { GoesOn self.old
            (mid self.old
            (plan.Notice key old None true ∷ plan.Unlock true ∷ plan.Post write
            ∷ posted_rest then))
            result self.new }
    {
        self.goes(Point::Listening(Listening::Notice {
            key,
            old,
            cause: None,
            upsert: true,
            write,
            then,
        }))
    }
}

impl<K: Drop, V: Drop> Put<K, V> {
    // What follows once the write is posted.
    fn posted(self) -> Posted<K, V>
        ensures { result ≡ posted_after self }
    {
        let Put { key, value, then } = self;
        match then {
            Then::Done => Posted::Done,
            Then::Settle => Posted::Settle(value),
            Then::Loaded => Posted::Loaded(value),
            Then::Compute { replaced } => Posted::Compute(stored_as(key, value, replaced)),
        }
    }
}

// The stamp of the record that was replaced.
fn stamp_of<K, V>(answer: &TableAnswer<K, V>) -> Option<u64>
    ensures { result ≡ old_stamp answer.now }
{
    match answer {
        TableAnswer::None => None,
        TableAnswer::Some { stored, .. } => Some(stored.stamp),
        TableAnswer::Keys(_) => None,
    }
}
