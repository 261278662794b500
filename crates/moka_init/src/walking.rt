//! Walking over the records.
ghost use Rattle.std.specs.Prelude.{◌≡◌, ◌<◌, ◌≤◌, ◌+◌, [], ◌∷◌, MatchOption};
ghost use Rattle.moka_hist.specs.Plan as plan;
ghost use Rattle.moka_hist.specs.Next.{goes, gives};
ghost use Rattle.moka_hist.specs.Step.{next_of, access_of};
ghost use Rattle.moka_hist.specs.Walking.{after_list, after_find, after_scan};
ghost use Rattle.moka_init.specs.PointPlan.{keys_rest, later_parts, plan_at, walking_plan};
ghost use Rattle.moka_init.specs.FlowPlan.{standing, GoesOn};
ghost use Rattle.moka_init.specs.Forms.{HasForm, IsFoundBy};

use crate::flow::Flow;
use crate::keys_left::KeysLeft;
use crate::points::{Part, PartKeys, Point, Walk};
use moka_hist::{Answer, Found, Got, KeyList, Stored, TableAnswer, TableTurn, Turn, Visit};

impl<K: Drop, V: Drop, E: Drop> Flow<K, V, E> {
    pub(crate) fn after_walking(&mut self, walk: Walk<K, V>, found: Found<V, E>) -> Turn<K, V, E>
        requires form { HasForm
            (access_of self.old.call (standing self.old (walking_plan walk)))
            (Got.Desk found) }
        ensures { GoesOn self.old
            (next_of self.old.call (standing self.old (walking_plan walk)) (Got.Desk found))
            result self.new }
    {
        match walk {
            Walk::Scan { key, stored, rest } => self.after_scan(key, stored, rest, found),
            Walk::List(_) => unreachable!(),
            Walk::Find { .. } => unreachable!(),
        }
    }

    // After a step of the part's list: the listed keys are looked up, one after the other.
    pub(crate) fn after_list(&mut self, part: Part, turn: TableTurn<K, V>) -> Turn<K, V, E>
        ensures { GoesOn self.old
            (after_list (standing self.old (walking_plan (Walk.List part))) (later_parts part) turn)
            result self.new }
    {
        match turn {
            TableTurn::Going => self.goes(Point::Walking(Walk::List(part))),
            TableTurn::Decided(TableAnswer::Keys(keys)) => self.looks_up(keys, part),
            TableTurn::Decided(TableAnswer::None) => self.waits(Point::Walking(Walk::List(part))),
            TableTurn::Decided(TableAnswer::Some { .. }) => {
                self.waits(Point::Walking(Walk::List(part)))
            }
        }
    }

    // After a step of the look for a listed key: a record that is found is judged, and a key that
    // has left is passed over.
    pub(crate) fn after_look_up(
        &mut self,
        key: K,
        rest: PartKeys<K>,
        turn: TableTurn<K, V>,
    ) -> Turn<K, V, E>
        ensures { GoesOn self.old
            (after_find (standing self.old (walking_plan (Walk.Find key rest))) (keys_rest rest) turn)
            result self.new }
    {
        match turn {
            TableTurn::Going => self.goes(Point::Walking(Walk::Find { key, rest })),
            TableTurn::Decided(TableAnswer::None) => self.walks_on(rest),
            TableTurn::Decided(TableAnswer::Some { key, stored }) => {
                self.goes(Point::Walking(Walk::Scan { key, stored, rest }))
            }
            TableTurn::Decided(TableAnswer::Keys(_)) => {
                self.waits(Point::Walking(Walk::Find { key, rest }))
            }
        }
    }

    // After the record was judged: a visible one is given, and another is passed over.
    fn after_scan(
        &mut self,
        key: K,
        stored: Stored<V>,
        rest: PartKeys<K>,
        found: Found<V, E>,
    ) -> Turn<K, V, E>
        requires form { IsFoundBy (Visit.Scan key stored) found }
        ensures { GoesOn self.old
            (after_scan (standing self.old (walking_plan (Walk.Scan key stored rest)))
            key stored (keys_rest rest) found) result self.new }
    {
        match found {
            Found::Scan(true) => self.shows(key, stored.value, rest),
            Found::Scan(false) => self.walks_on(rest),
            _ => unreachable!(),
        }
    }

    // The listed keys are looked up.
    fn looks_up(&mut self, keys: KeyList<K>, part: Part) -> Turn<K, V, E>
        ensures { GoesOn self.old
            (goes (standing self.old (plan_at self.old.point)) (keys_rest (record {
              keys = keys;
              part = part;
            }))) result self.new }
    {
        let keys = KeysLeft::new(keys);
        self.walks_on(PartKeys { keys, part })
    }

    // The next listed key is looked up, or the next part listed, or the walk ends with this step.
    fn walks_on(&mut self, rest: PartKeys<K>) -> Turn<K, V, E>
        ensures { GoesOn self.old
            (goes (standing self.old (plan_at self.old.point)) (keys_rest rest)) result self.new }
    {
        match Point::<K, V, E>::walk_on(rest) {
            Some(walk) => self.goes(Point::Walking(walk)),
            None => self.answers(Answer::End),
        }
    }

    // The record is given, and the call is parked: what is left of it comes with the next step.
    fn shows(&mut self, key: K, value: V, rest: PartKeys<K>) -> Turn<K, V, E>
        ensures { GoesOn self.old
            (gives (standing self.old (plan_at self.old.point)) key value (keys_rest rest))
            result self.new }
    {
        match Point::<K, V, E>::walk_on(rest) {
            Some(walk) => self.gives(key, value, Point::Walking(walk)),
            None => self.gives(key, value, Point::Answering(Answer::End)),
        }
    }
}

impl<K: Drop, V: Drop, E: Drop> Point<K, V, E> {
    // Where a walk stands next: at the next listed key, or at the next part. None where it is
    // through.
    fn walk_on(rest: PartKeys<K>) -> Option<Walk<K, V>>
        ensures { MatchOption result
            (keys_rest {V = V} {E = E} rest ≡ plan.Reply Answer.End ∷ [])
            (λ walk. keys_rest {V = V} {E = E} rest ≡ walking_plan walk) }
    {
        let PartKeys { keys, part } = rest;
        let mut keys = keys;
        match keys.next() {
            Some(key) => Some(Walk::Find {
                key,
                rest: PartKeys { keys, part },
            }),
            None => match part.next() {
                Some(next) => Some(Walk::List(next)),
                None => None,
            },
        }
    }
}

impl Part {
    // The part that follows, if this isn't the last one.
    pub(crate) fn next(self) -> Option<Part>
        ensures { MatchOption result (self.last ≤ self.number) (λ next.
            (self.number < self.last) × (next.number ≡ self.number + 1) × (next.last ≡ self.last)) }
    {
        if self.number < self.last {
            Some(Part {
                number: self.number + 1,
                last: self.last,
            })
        } else {
            None
        }
    }
}
