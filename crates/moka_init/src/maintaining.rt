//! Maintenance once nothing is owed: the log is applied, and predicates go that hide no record any
//! more.
ghost use Rattle.std.specs.Prelude.{◌≡◌, [], ◌∷◌, Some, None, List, ℕ};
ghost use Rattle.moka_hist.specs.Plan as plan;
ghost use Rattle.moka_hist.specs.Plan.{Item, lists_from};
ghost use Rattle.moka_hist.specs.Maintenance.{after_candidates, after_retire, after_strike};
ghost use Rattle.moka_hist.specs.Next.{goes};
ghost use Rattle.moka_hist.specs.Posting.{after_apply, after_end, after_turn};
ghost use Rattle.moka_hist.specs.Step.{next_of, access_of};
ghost use Rattle.moka_hist.specs.Walking.{after_find, after_list};
ghost use Rattle.moka_init.specs.FlowPlan.{standing, standing_with, GoesOn};
ghost use Rattle.moka_init.specs.Forms.{HasForm, IsFoundBy};
ghost use Rattle.moka_init.specs.PointPlan.{carried_in, keys_to_retire, later_to_retire};
ghost use Rattle.moka_init.specs.PointPlan.{maintaining_plan};

use crate::flow::Flow;
use crate::keys_left::KeysLeft;
use crate::points::{Maintenance, Part, PartKeys, Point};
use moka_hist::{Answer, Found, Got, IdList, KeyList, Stored, TableAnswer, TableTurn, Turn, Visit};

impl<K: Drop, V: Drop, E: Drop> Flow<K, V, E> {
    pub(crate) fn after_maintaining(
        &mut self,
        maintenance: Maintenance<K, V>,
        found: Found<V, E>,
    ) -> Turn<K, V, E>
        requires form { HasForm
            (access_of self.old.call (standing_with self.old (carried_in maintenance)
            (maintaining_plan maintenance))) (Got.Desk found) }
        ensures { GoesOn self.old
            (next_of self.old.call (standing_with self.old (carried_in maintenance)
            (maintaining_plan maintenance)) (Got.Desk found)) result self.new }
    {
        match maintenance {
            Maintenance::Turn { parts } => self.after_own_turn(parts, found),
            Maintenance::Apply { parts } => self.after_own_apply(parts, found),
            Maintenance::End { parts } => self.after_own_end(parts, found),
            Maintenance::Candidates { parts } => self.after_candidates(parts, found),
            Maintenance::Strike {
                key,
                stored,
                rest,
                ids,
            } => self.after_strike(key, stored, rest, ids, found),
            Maintenance::Retire { ids } => self.after_retire(ids, found),
            Maintenance::List { .. } => unreachable!(),
            Maintenance::Find { .. } => unreachable!(),
        }
    }

    fn after_own_turn(&mut self, parts: usize, found: Found<V, E>) -> Turn<K, V, E>
        requires form { IsFoundBy {K = K} (Visit.TakeTurn self.old.call) found }
        ensures { GoesOn self.old
            (after_turn (standing self.old (maintaining_plan (Maintenance.Turn parts)))
            (maintaining_plan (Maintenance.Apply parts)) found) result self.new }
    {
        match found {
            Found::TakeTurn(true) => self.goes(Point::Maintaining(Maintenance::Apply { parts })),
            Found::TakeTurn(false) => self.waits(Point::Maintaining(Maintenance::Turn { parts })),
            _ => unreachable!(),
        }
    }

    fn after_own_apply(&mut self, parts: usize, found: Found<V, E>) -> Turn<K, V, E>
        requires form { IsFoundBy {K = K} (Visit.ApplyOne self.old.call) found }
        ensures { GoesOn self.old
            (after_apply (standing self.old (maintaining_plan (Maintenance.Apply parts)))
            (maintaining_plan (Maintenance.End parts)) found) result self.new }
    {
        match found {
            Found::ApplyOne(true) => self.goes(Point::Maintaining(Maintenance::Apply { parts })),
            Found::ApplyOne(false) => self.goes(Point::Maintaining(Maintenance::End { parts })),
            _ => unreachable!(),
        }
    }

    fn after_own_end(&mut self, parts: usize, found: Found<V, E>) -> Turn<K, V, E>
        requires form { IsFoundBy {K = K} (Visit.EndTurn self.old.call) found }
        ensures { GoesOn self.old
            (after_end (standing self.old (maintaining_plan (Maintenance.End parts)))
            (maintaining_plan (Maintenance.Candidates parts)) found) result self.new }
    {
        match found {
            Found::EndTurn => self.goes(Point::Maintaining(Maintenance::Candidates { parts })),
            _ => unreachable!(),
        }
    }

    // Where some predicates may leave, all records are looked at first.
    fn after_candidates(&mut self, parts: usize, found: Found<V, E>) -> Turn<K, V, E>
        requires form { IsFoundBy {K = K} Visit.Candidates found }
        ensures { GoesOn self.old
            (after_candidates (standing self.old (maintaining_plan (Maintenance.Candidates parts)))
            parts found) result self.new }
    {
        match found {
            Found::Candidates(ids) => self.chooses(parts, ids),
            _ => unreachable!(),
        }
    }

    fn chooses(&mut self, parts: usize, ids: IdList) -> Turn<K, V, E>
        ensures { GoesOn self.old
            (after_candidates (standing self.old (maintaining_plan (Maintenance.Candidates parts)))
            parts (Found.Candidates ids)) result self.new }
    {
        if ids.is_empty() {
            self.answers(Answer::Done)
        } else {
            self.goes(Point::Maintaining(Point::<K, V, E>::lists(parts, ids)))
        }
    }

    // After the record was struck: the walk goes on with the predicates that don't hide it, also
    // where none is left.
    fn after_strike(
        &mut self,
        key: K,
        stored: Stored<V>,
        rest: PartKeys<K>,
        ids: IdList,
        found: Found<V, E>,
    ) -> Turn<K, V, E>
        requires form { IsFoundBy (Visit.Strike ids key stored) found }
        ensures { GoesOn self.old
            (after_strike (standing_with self.old (Some ids)
            (maintaining_plan (Maintenance.Strike key stored rest ids)))
            (keys_to_retire rest) found) result self.new }
    {
        match found {
            Found::Strike(left) => self.looks_on(rest, left),
            _ => unreachable!(),
        }
    }

    // The predicates have left, which is answered.
    fn after_retire(&mut self, ids: IdList, found: Found<V, E>) -> Turn<K, V, E>
        requires form { IsFoundBy {K = K} (Visit.Retire ids) found }
        ensures { GoesOn self.old
            (after_retire (standing_with self.old (Some ids)
            (maintaining_plan (Maintenance.Retire ids))) found) result self.new }
    {
        match found {
            Found::Retire => self.answers(Answer::Done),
            _ => unreachable!(),
        }
    }

    // After a step of the part's list: the listed keys are looked up, one after the other.
    pub(crate) fn after_part(
        &mut self,
        part: Part,
        ids: IdList,
        turn: TableTurn<K, V>,
    ) -> Turn<K, V, E>
        ensures { GoesOn self.old
            (after_list (standing_with self.old (Some ids)
            (maintaining_plan (Maintenance.List part ids))) (later_to_retire part) turn)
            result self.new }
    {
        match turn {
            TableTurn::Going => self.goes(Point::Maintaining(Maintenance::List { part, ids })),
            TableTurn::Decided(TableAnswer::Keys(keys)) => self.looks_at(keys, part, ids),
            TableTurn::Decided(TableAnswer::None) => {
                self.waits(Point::Maintaining(Maintenance::List { part, ids }))
            }
            TableTurn::Decided(TableAnswer::Some { .. }) => {
                self.waits(Point::Maintaining(Maintenance::List { part, ids }))
            }
        }
    }

    // After a step of the look for a listed key: what hides a record that is found is struck, and a
    // key that has left is passed over.
    pub(crate) fn after_key(
        &mut self,
        key: K,
        rest: PartKeys<K>,
        ids: IdList,
        turn: TableTurn<K, V>,
    ) -> Turn<K, V, E>
        ensures { GoesOn self.old
            (after_find (standing_with self.old (Some ids)
            (maintaining_plan (Maintenance.Find key rest ids))) (keys_to_retire rest) turn)
            result self.new }
    {
        match turn {
            TableTurn::Going => self.goes(Point::Maintaining(Maintenance::Find { key, rest, ids })),
            TableTurn::Decided(TableAnswer::None) => self.looks_on(rest, ids),
            TableTurn::Decided(TableAnswer::Some { key, stored }) => {
                self.goes(Point::Maintaining(Maintenance::Strike {
                    key,
                    stored,
                    rest,
                    ids,
                }))
            }
            TableTurn::Decided(TableAnswer::Keys(_)) => {
                self.waits(Point::Maintaining(Maintenance::Find { key, rest, ids }))
            }
        }
    }

    // The listed keys are looked up, with these predicates.
    fn looks_at(&mut self, keys: KeyList<K>, part: Part, ids: IdList) -> Turn<K, V, E>
        ensures { (items : List (Item K V E)) → GoesOn self.old
            (goes (standing_with self.old (Some ids) items) (keys_to_retire (record {
              keys = keys;
              part = part;
            }))) result self.new }
    {
        let keys = KeysLeft::new(keys);
        self.looks_on(PartKeys { keys, part }, ids)
    }

    // The walk goes on with these predicates.
    fn looks_on(&mut self, rest: PartKeys<K>, ids: IdList) -> Turn<K, V, E>
        ensures { (items : List (Item K V E)) → GoesOn self.old
            (goes (standing_with self.old (Some ids) items) (keys_to_retire rest))
            result self.new }
    {
        self.goes(Point::Maintaining(Point::<K, V, E>::after(rest, ids)))
    }
}

impl<K: Drop, V: Drop, E: Drop> Point<K, V, E> {
    // So many parts are listed, and then these predicates leave.
    fn lists(parts: usize, ids: IdList) -> Maintenance<K, V>
        ensures plan { maintaining_plan {E = E} result ≡ lists_from 0 parts (plan.Retire ∷ []) }
        ensures carries { carried_in result ≡ Some ids }
    {
        if parts == 0 {
            Maintenance::Retire { ids }
        } else {
            let last = parts - 1;
            Maintenance::List {
                part: Part { number: 0, last },
                ids,
            }
        }
    }

    // The next listed key is looked up, or the next part listed; or these predicates leave.
    fn after(rest: PartKeys<K>, ids: IdList) -> Maintenance<K, V>
        ensures plan { keys_to_retire rest ≡ maintaining_plan {E = E} result }
        ensures carries { carried_in result ≡ Some ids }
    {
        let PartKeys { keys, part } = rest;
        let mut keys = keys;
        match keys.next() {
            Some(key) => Maintenance::Find {
                key,
                rest: PartKeys { keys, part },
                ids,
            },
            None => match part.next() {
                Some(part) => Maintenance::List { part, ids },
                None => Maintenance::Retire { ids },
            },
        }
    }
}
