//! How a flow goes on after its access.
ghost use Rattle.std.specs.Prelude.{◌≡◌, ◌↔◌, ℕ, IsTrue, List};
ghost use Rattle.moka_hist.specs.Step.{next_of};
ghost use Rattle.moka_init.specs.FlowPlan.{call_of, next_in, is_begun};
ghost use Rattle.moka_init.specs.FlowPlan.{IsLive, IsReady, Leaves, GoesOn};
ghost use Rattle.moka_init.specs.Forms.{HasForm};
ghost use Rattle.moka_init.specs.Grounds.{access_at};

use crate::flow::Flow;
use crate::points::Point;
use moka_hist::{Answer, Ask, Found, Got, Mode, TableTurn, Turn};
use std::mem;

impl<K: Drop, V: Drop, E: Drop> Flow<K, V, E> {
    ghost use Rattle.moka_init.specs.declared.points.Maintenance.{Maintenance};

    /// Goes on with what the access gave that `want` told. It moves, and takes no memory. A call
    /// that has answered has nothing left to do, and holds no write. Precondition: the call has not
    /// answered, `want` has made the copies that the flow keeps, and the answer is of the form that
    /// belongs to that access.
    pub fn take(&mut self, got: Got<K, V, E>) -> Turn<K, V, E>
        requires live { IsLive self.old }
        requires ready { IsReady self.old }
        requires form { HasForm (access_at self.old) got }
        ensures next { next_in result self.new ≡ next_of self.old.call (call_of self.old) got }
        ensures begun { self.new.begun ≡ is_begun got }
        ensures number { self.new.call ≡ self.old.call }
        ensures leaves { Leaves result self.new }
    {
        match got {
            Got::Table(turn) => {
                self.begun = turn.is_going();
                self.after_table(turn)
            }
            Got::Desk(found) => {
                self.begun = false;
                self.after_visit(found)
            }
        }
    }

    // The visit by which predicates leave is made, and that is answered.
    pub(crate) fn retires(&mut self)
        requires there { (ids : List (ℕ × ℕ))
            × (self.old.point ≡ Point.Maintaining (Maintenance.Retire ids)) }
        ensures next { (given : Got K V E) → HasForm (access_at self.old) given
            → next_in (Turn.Answer Answer.Done) self.new
            ≡ next_of self.old.call (call_of self.old) given }
        ensures begun { (given : Got K V E) → HasForm (access_at self.old) given
            → self.new.begun ≡ is_begun given }
        ensures number { self.new.call ≡ self.old.call }
        ensures leaves { Leaves (Turn.Answer Answer.Done) self.new }
    {
        self.begun = false;
        self.stands_at(Point::Spent);
    }

    // The call goes on from the point.
    pub(crate) fn goes(&mut self, point: Point<K, V, E>) -> Turn<K, V, E>
        ensures turn { result ≡ Turn.Going }
        ensures flow { self.new ≡ record self.old { mode = Mode.Mid; point = point } }
    {
        self.mode = Mode::Mid;
        self.stands_at(point);
        Turn::Going
    }

    // Something is missing: the call is parked at the point.
    pub(crate) fn waits(&mut self, point: Point<K, V, E>) -> Turn<K, V, E>
        ensures turn { result ≡ Turn.Wait }
        ensures flow { self.new ≡ record self.old { mode = Mode.Parked; point = point } }
    {
        self.mode = Mode::Parked;
        self.stands_at(point);
        Turn::Wait
    }

    // The call asks its caller, and is parked at the point.
    pub(crate) fn asks(&mut self, ask: Ask<K, V>, point: Point<K, V, E>) -> Turn<K, V, E>
        ensures turn { result ≡ Turn.Ask ask }
        ensures flow { self.new ≡ record self.old { mode = Mode.Parked; point = point } }
    {
        self.mode = Mode::Parked;
        self.stands_at(point);
        Turn::Ask(ask)
    }

    // The walk gives a record, and is parked at the point.
    pub(crate) fn gives(&mut self, key: K, value: V, point: Point<K, V, E>) -> Turn<K, V, E>
        ensures turn { result ≡ Turn.Item key value }
        ensures flow { self.new ≡ record self.old { mode = Mode.Parked; point = point } }
    {
        self.mode = Mode::Parked;
        self.stands_at(point);
        Turn::Item(key, value)
    }

    // The call has answered.
    pub(crate) fn answers(&mut self, answer: Answer<K, V, E>) -> Turn<K, V, E>
        ensures turn { result ≡ Turn.Answer answer }
        ensures flow { self.new ≡ record self.old { point = Point.Spent } }
    {
        self.stands_at(Point::Spent);
        Turn::Answer(answer)
    }

    // The call stands at the point, and the one where it stood is let go. One where nothing is left
    // owns nothing, and a look tells it: all others go apart, so that a step need not tell them from
    // each other.
    #[inline(always)]
    pub(crate) fn stands_at(&mut self, point: Point<K, V, E>)
        ensures { self.new ≡ record self.old { point = point } }
    {
        if self.point.is_spent() {
            mem::forget(mem::replace(&mut self.point, point));
        } else {
            let_go(mem::replace(&mut self.point, point));
        }
    }

    // After a step of a table operation.
    fn after_table(&mut self, turn: TableTurn<K, V>) -> Turn<K, V, E>
        requires form { HasForm (access_at self.old) (Got.Table turn) }
        ensures { GoesOn self.old (next_of self.old.call (call_of self.old) (Got.Table turn))
            result self.new }
    {
        match &self.point {
            Point::Looking(_) => self.looking_stepped(turn),
            Point::Writing(_) => self.writing_stepped(turn),
            Point::Removing(_) => self.removing_stepped(turn),
            Point::Walking(_) => self.walking_stepped(turn),
            Point::Maintaining(_) => self.maintaining_stepped(turn),
            _ => unreachable!(),
        }
    }

    // After a visit of the desk.
    fn after_visit(&mut self, found: Found<V, E>) -> Turn<K, V, E>
        requires live { IsLive self.old }
        requires ready { IsReady self.old }
        requires form { HasForm (access_at self.old) (Got.Desk found) }
        ensures { GoesOn self.old (next_of self.old.call (call_of self.old) (Got.Desk found))
            result self.new }
    {
        match &self.point {
            Point::Posting(_) => self.posting_visited(found),
            Point::Looking(_) => self.looking_visited(found),
            Point::Loading(_) => self.loading_visited(found),
            Point::Computing(_) => self.computing_visited(found),
            Point::Writing(_) => self.writing_visited(found),
            Point::Removing(_) => self.removing_visited(found),
            Point::Listening(_) => self.listening_visited(found),
            Point::Walking(_) => self.walking_visited(found),
            Point::Maintaining(_) => self.maintaining_visited(found),
            Point::InvalidatingAll => self.invalidating_visited(found),
            Point::Registering(_) => self.registering_visited(found),
            Point::Answering(_) => self.answering_visited(found),
            Point::Spent => unreachable!(),
        }
    }
}

// Lets go of a point at which something may be left.
#[inline(never)]
fn let_go<K: Drop, V: Drop, E: Drop>(former: Point<K, V, E>) {
    drop(former);
}

impl<K, V, E> Point<K, V, E> {
    // Whether nothing is left to do.
    fn is_spent(&self) -> bool
        ensures { IsTrue result ↔ (self.now ≡ Point.Spent) }
    {
        match self {
            Point::Spent => true,
            _ => false,
        }
    }
}
