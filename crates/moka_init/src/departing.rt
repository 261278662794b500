//! How a flow leaves the point where it stands, once its access was made. A point is moved out only
//! where it is known which it is, so that no more is moved than that one holds.
ghost use Rattle.std.specs.Prelude.{◌≡◌, ℕ, [], ◌∷◌, Err};
ghost use Rattle.moka_hist.specs.Step.{next_of};
ghost use Rattle.moka_hist.specs.Plan as plan;
ghost use Rattle.moka_hist.specs.Invalidating.{after_invalidate_all, after_register, registering_answer};
ghost use Rattle.moka_hist.specs.Next.{goes};
ghost use Rattle.moka_init.specs.FlowPlan.{call_of, standing, GoesOn, IsReady};
ghost use Rattle.moka_init.specs.PointPlan.{plan_at};
ghost use Rattle.moka_init.specs.Forms.{HasForm, IsFoundBy};
ghost use Rattle.moka_init.specs.Grounds.{access_at};

use crate::flow::Flow;
use crate::points::{
    Computing, Listening, Loading, Looking, Maintenance, Point, Posting, Removing, Walk, Writing,
};
use moka_hist::{Answer, Found, Got, Id, PredicateError, TableTurn, Turn};
use std::mem;

impl<K: Drop, V: Drop, E: Drop> Flow<K, V, E> {
    ghost use Rattle.moka_hist.specs.declared.replies.Answer.{Answer};
    ghost use Rattle.moka_hist.specs.declared.replies.Answer.TheVariants as answer;
    ghost use Rattle.moka_hist.specs.declared.visits.Visit.TheVariants as visit;
    ghost use Rattle.moka_init.specs.declared.points.Computing.{Computing};
    ghost use Rattle.moka_init.specs.declared.points.Listening.{Listening};
    ghost use Rattle.moka_init.specs.declared.points.Loading.{Loading};
    ghost use Rattle.moka_init.specs.declared.points.Looking.{Looking};
    ghost use Rattle.moka_init.specs.declared.points.Maintenance.{Maintenance};
    ghost use Rattle.moka_init.specs.declared.points.Posting.{Posting};
    ghost use Rattle.moka_init.specs.declared.points.Removing.{Removing};
    ghost use Rattle.moka_init.specs.declared.points.Walk.{Walk};
    ghost use Rattle.moka_init.specs.declared.points.Writing.{Writing};

    // After a visit, where the call stands at its posting.
    pub(crate) fn posting_visited(&mut self, found: Found<V, E>) -> Turn<K, V, E>
        requires there { (posting : Posting K V) × (self.old.point ≡ Point.Posting posting) }
        requires form { HasForm (access_at self.old) (Got.Desk found) }
        ensures { GoesOn self.old (next_of self.old.call (call_of self.old) (Got.Desk found))
            result self.new }
    {
        match self.point_out() {
            Point::Posting(posting) => self.after_posting(posting, found),
            _ => unreachable!(),
        }
    }

    // After a visit, where the call stands at its looking.
    pub(crate) fn looking_visited(&mut self, found: Found<V, E>) -> Turn<K, V, E>
        requires there { (looking : Looking K V) × (self.old.point ≡ Point.Looking looking) }
        requires form { HasForm (access_at self.old) (Got.Desk found) }
        ensures { GoesOn self.old (next_of self.old.call (call_of self.old) (Got.Desk found))
            result self.new }
    {
        match self.point_out() {
            Point::Looking(looking) => self.after_looking(looking, found),
            _ => unreachable!(),
        }
    }

    // After a visit, where the call stands at its loading.
    pub(crate) fn loading_visited(&mut self, found: Found<V, E>) -> Turn<K, V, E>
        requires there { (loading : Loading K V E) × (self.old.point ≡ Point.Loading loading) }
        requires form { HasForm (access_at self.old) (Got.Desk found) }
        ensures { GoesOn self.old (next_of self.old.call (call_of self.old) (Got.Desk found))
            result self.new }
    {
        match self.point_out() {
            Point::Loading(loading) => self.after_loading(loading, found),
            _ => unreachable!(),
        }
    }

    // After a visit, where the call stands at its computing.
    pub(crate) fn computing_visited(&mut self, found: Found<V, E>) -> Turn<K, V, E>
        requires there { (computing : Computing K V E)
            × (self.old.point ≡ Point.Computing computing) }
        requires ready { IsReady self.old }
        requires form { HasForm (access_at self.old) (Got.Desk found) }
        ensures { GoesOn self.old (next_of self.old.call (call_of self.old) (Got.Desk found))
            result self.new }
    {
        match self.point_out() {
            Point::Computing(computing) => self.after_computing(computing, found),
            _ => unreachable!(),
        }
    }

    // After a visit, where the call stands at its writing.
    pub(crate) fn writing_visited(&mut self, found: Found<V, E>) -> Turn<K, V, E>
        requires there { (writing : Writing K V) × (self.old.point ≡ Point.Writing writing) }
        requires form { HasForm (access_at self.old) (Got.Desk found) }
        ensures { GoesOn self.old (next_of self.old.call (call_of self.old) (Got.Desk found))
            result self.new }
    {
        match self.point_out() {
            Point::Writing(writing) => self.after_writing(writing, found),
            _ => unreachable!(),
        }
    }

    // After a visit, where the call stands at its removing.
    pub(crate) fn removing_visited(&mut self, found: Found<V, E>) -> Turn<K, V, E>
        requires there { (removing : Removing K V) × (self.old.point ≡ Point.Removing removing) }
        requires form { HasForm (access_at self.old) (Got.Desk found) }
        ensures { GoesOn self.old (next_of self.old.call (call_of self.old) (Got.Desk found))
            result self.new }
    {
        match self.point_out() {
            Point::Removing(removing) => self.after_removing(removing, found),
            _ => unreachable!(),
        }
    }

    // After a visit, where the call stands at its listening.
    pub(crate) fn listening_visited(&mut self, found: Found<V, E>) -> Turn<K, V, E>
        requires there { (listening : Listening K V) × (self.old.point ≡ Point.Listening listening) }
        requires ready { IsReady self.old }
        requires form { HasForm (access_at self.old) (Got.Desk found) }
        ensures { GoesOn self.old (next_of self.old.call (call_of self.old) (Got.Desk found))
            result self.new }
    {
        match self.point_out() {
            Point::Listening(listening) => self.after_listening(listening, found),
            _ => unreachable!(),
        }
    }

    // After a visit, where the call stands at its walking.
    pub(crate) fn walking_visited(&mut self, found: Found<V, E>) -> Turn<K, V, E>
        requires there { (walk : Walk K V) × (self.old.point ≡ Point.Walking walk) }
        requires form { HasForm (access_at self.old) (Got.Desk found) }
        ensures { GoesOn self.old (next_of self.old.call (call_of self.old) (Got.Desk found))
            result self.new }
    {
        match self.point_out() {
            Point::Walking(walk) => self.after_walking(walk, found),
            _ => unreachable!(),
        }
    }

    // After a visit, where the call stands at its maintenance.
    pub(crate) fn maintaining_visited(&mut self, found: Found<V, E>) -> Turn<K, V, E>
        requires there { (maintenance : Maintenance K V)
            × (self.old.point ≡ Point.Maintaining maintenance) }
        requires form { HasForm (access_at self.old) (Got.Desk found) }
        ensures { GoesOn self.old (next_of self.old.call (call_of self.old) (Got.Desk found))
            result self.new }
    {
        match self.point_out() {
            Point::Maintaining(maintenance) => self.after_maintaining(maintenance, found),
            _ => unreachable!(),
        }
    }

    // After its one visit, where the call invalidates all.
    pub(crate) fn invalidating_visited(&mut self, found: Found<V, E>) -> Turn<K, V, E>
        requires there { self.old.point ≡ Point.InvalidatingAll }
        requires form { HasForm (access_at self.old) (Got.Desk found) }
        ensures { GoesOn self.old (next_of self.old.call (call_of self.old) (Got.Desk found))
            result self.new }
    {
        match self.point_out() {
            Point::InvalidatingAll => self.after_invalidate_all(found),
            _ => unreachable!(),
        }
    }

    // All is invalidated, which is answered.
    fn after_invalidate_all(&mut self, found: Found<V, E>) -> Turn<K, V, E>
        requires form { IsFoundBy {K = K} visit.InvalidateAll found }
        ensures { GoesOn self.old
            (after_invalidate_all (standing self.old (plan_at Point.InvalidatingAll))
            (plan.Reply answer.Done ∷ []) found) result self.new }
    {
        match found {
            Found::InvalidateAll => self.answers(Answer::Done),
            _ => unreachable!(),
        }
    }

    // After its one visit, where the call registers a predicate.
    pub(crate) fn registering_visited(&mut self, found: Found<V, E>) -> Turn<K, V, E>
        requires there { (test : ℕ) × (self.old.point ≡ Point.Registering test) }
        requires form { HasForm (access_at self.old) (Got.Desk found) }
        ensures { GoesOn self.old (next_of self.old.call (call_of self.old) (Got.Desk found))
            result self.new }
    {
        match self.point_out() {
            Point::Registering(test) => self.after_register(test, found),
            _ => unreachable!(),
        }
    }

    // The id is answered, or why no predicate was registered.
    fn after_register(&mut self, test: u64, found: Found<V, E>) -> Turn<K, V, E>
        requires form { IsFoundBy {K = K} (visit.Register test) found }
        ensures { GoesOn self.old
            (after_register (standing self.old (plan_at (Point.Registering test))) found) result
            self.new }
    {
        match found {
            Found::Register(registering) => self.answers(registering_answer(registering)),
            _ => unreachable!(),
        }
    }

    // After its one visit, where the call only answers.
    pub(crate) fn answering_visited(&mut self, found: Found<V, E>) -> Turn<K, V, E>
        requires there { (answer : Answer K V E) × (self.old.point ≡ Point.Answering answer) }
        requires form { HasForm (access_at self.old) (Got.Desk found) }
        ensures { GoesOn self.old (next_of self.old.call (call_of self.old) (Got.Desk found))
            result self.new }
    {
        match self.point_out() {
            Point::Answering(answer) => self.answers_alone(answer),
            _ => unreachable!(),
        }
    }

    // The call's one step is its answer.
    fn answers_alone(&mut self, answer: Answer<K, V, E>) -> Turn<K, V, E>
        ensures { GoesOn self.old
            (goes (standing self.old (plan_at self.old.point)) (plan.Reply answer ∷ []))
            result self.new }
    {
        self.answers(answer)
    }

    // Moves the point out, and leaves nothing to do.
    fn point_out(&mut self) -> Point<K, V, E>
        ensures point { result ≡ self.old.point }
        ensures flow { self.new ≡ record self.old { point = Point.Spent } }
    {
        mem::replace(&mut self.point, Point::Spent)
    }

    // After a step of a table operation, where the call stands at its looking.
    pub(crate) fn looking_stepped(&mut self, turn: TableTurn<K, V>) -> Turn<K, V, E>
        requires there { (looking : Looking K V) × (self.old.point ≡ Point.Looking looking) }
        requires form { HasForm (access_at self.old) (Got.Table turn) }
        ensures { GoesOn self.old (next_of self.old.call (call_of self.old) (Got.Table turn))
            result self.new }
    {
        match self.point_out() {
            Point::Looking(Looking::Get(look)) => self.after_get(look, turn),
            _ => unreachable!(),
        }
    }

    // After a step of a table operation, where the call stands at its writing.
    pub(crate) fn writing_stepped(&mut self, turn: TableTurn<K, V>) -> Turn<K, V, E>
        requires there { (writing : Writing K V) × (self.old.point ≡ Point.Writing writing) }
        requires form { HasForm (access_at self.old) (Got.Table turn) }
        ensures { GoesOn self.old (next_of self.old.call (call_of self.old) (Got.Table turn))
            result self.new }
    {
        match self.point_out() {
            Point::Writing(Writing::Write { put, moment }) => self.after_write(put, moment, turn),
            _ => unreachable!(),
        }
    }

    // After a step of a table operation, where the call stands at its removing.
    pub(crate) fn removing_stepped(&mut self, turn: TableTurn<K, V>) -> Turn<K, V, E>
        requires there { (removing : Removing K V) × (self.old.point ≡ Point.Removing removing) }
        requires form { HasForm (access_at self.old) (Got.Table turn) }
        ensures { GoesOn self.old (next_of self.old.call (call_of self.old) (Got.Table turn))
            result self.new }
    {
        match self.point_out() {
            Point::Removing(Removing::Find(chosen)) => self.after_find(chosen, turn),
            Point::Removing(Removing::Out(out)) => self.after_out(out, turn),
            _ => unreachable!(),
        }
    }

    // After a step of a table operation, where the call stands at its walking.
    pub(crate) fn walking_stepped(&mut self, turn: TableTurn<K, V>) -> Turn<K, V, E>
        requires there { (walk : Walk K V) × (self.old.point ≡ Point.Walking walk) }
        requires form { HasForm (access_at self.old) (Got.Table turn) }
        ensures { GoesOn self.old (next_of self.old.call (call_of self.old) (Got.Table turn))
            result self.new }
    {
        match self.point_out() {
            Point::Walking(Walk::List(part)) => self.after_list(part, turn),
            Point::Walking(Walk::Find { key, rest }) => self.after_look_up(key, rest, turn),
            _ => unreachable!(),
        }
    }

    // After a step of a table operation, where the call stands at its maintenance.
    pub(crate) fn maintaining_stepped(&mut self, turn: TableTurn<K, V>) -> Turn<K, V, E>
        requires there { (maintenance : Maintenance K V)
            × (self.old.point ≡ Point.Maintaining maintenance) }
        requires form { HasForm (access_at self.old) (Got.Table turn) }
        ensures { GoesOn self.old (next_of self.old.call (call_of self.old) (Got.Table turn))
            result self.new }
    {
        match self.point_out() {
            Point::Maintaining(Maintenance::List { part, ids }) => {
                self.after_part(part, ids, turn)
            }
            Point::Maintaining(Maintenance::Find { key, rest, ids }) => {
                self.after_key(key, rest, ids, turn)
            }
            _ => unreachable!(),
        }
    }
}

// What is answered of a predicate: the id under which it was registered, or why it wasn't.
fn registering_answer<K, V, E>(registering: Result<Id, PredicateError>) -> Answer<K, V, E>
    ensures { result ≡ registering_answer registering }
{
    match registering {
        Ok(id) => Answer::Id(id),
        Err(why) => refused(why),
    }
}

// What is answered of a predicate that was not registered. No visit finds that memory was wanting.
fn refused<K, V, E>(why: PredicateError) -> Answer<K, V, E>
    ensures { result ≡ registering_answer (Err why) }
{
    match why {
        PredicateError::InvalidationClosuresDisabled => Answer::ClosuresDisabled,
        PredicateError::NoId => Answer::NoId,
        PredicateError::Memory => Answer::NoId,
    }
}
