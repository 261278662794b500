//! Looking a key up.
ghost use Rattle.std.specs.Prelude.{true, [], ◌∷◌};
ghost use Rattle.moka_hist.specs.Plan as plan;
ghost use Rattle.moka_hist.specs.Looking.{after_get, after_judge, hits, misses};
ghost use Rattle.moka_hist.specs.Plan.{put};
ghost use Rattle.moka_hist.specs.Step.{next_of, access_of, replace_of};
ghost use Rattle.moka_init.specs.PointPlan.{aim_of, key_sought, plan_at, looking_plan};
ghost use Rattle.moka_init.specs.FlowPlan.{standing, mid, GoesOn};
ghost use Rattle.moka_init.specs.Forms.{HasForm, IsFoundBy};

use crate::computing::unchanged;
use crate::flow::Flow;
use crate::points::{Ending, Loading, Look, Looking, Point, Put, Then};
use moka_hist::{Answer, Found, Got, Stored, TableAnswer, TableTurn, Turn, Visit};

impl<K: Drop, V: Drop, E: Drop> Flow<K, V, E> {
    pub(crate) fn after_looking(
        &mut self,
        looking: Looking<K, V>,
        found: Found<V, E>,
    ) -> Turn<K, V, E>
        requires form { HasForm
            (access_of self.old.call (standing self.old (looking_plan looking)))
            (Got.Desk found) }
        ensures { GoesOn self.old
            (next_of self.old.call (standing self.old (looking_plan looking)) (Got.Desk found))
            result self.new }
    {
        match looking {
            Looking::Judge { look, key, stored } => self.after_judge(look, key, stored, found),
            Looking::Get(_) => unreachable!(),
        }
    }

    pub(crate) fn after_get(&mut self, look: Look<K, V>, turn: TableTurn<K, V>) -> Turn<K, V, E>
        ensures { GoesOn self.old
            (after_get (standing self.old (plan.Get (aim_of look) (key_sought look) ∷ []))
            (aim_of look) turn) result self.new }
    {
        match turn {
            TableTurn::Going => self.goes(Point::Looking(Looking::Get(look))),
            TableTurn::Decided(TableAnswer::None) => self.misses(look),
            TableTurn::Decided(TableAnswer::Some { key, stored }) => {
                self.goes(Point::Looking(Looking::Judge { look, key, stored }))
            }
            TableTurn::Decided(TableAnswer::Keys(_)) => {
                self.waits(Point::Looking(Looking::Get(look)))
            }
        }
    }

    fn after_judge(
        &mut self,
        look: Look<K, V>,
        key: K,
        stored: Stored<V>,
        found: Found<V, E>,
    ) -> Turn<K, V, E>
        requires form { IsFoundBy (Visit.Judge (replace_of (aim_of look)) key stored) found }
        ensures { GoesOn self.old
            (after_judge (standing self.old (plan.Judge (aim_of look) key stored ∷ []))
            (aim_of look) key stored found) result self.new }
    {
        match found {
            Found::Judge(true) => self.hits(look, key, stored.value),
            Found::Judge(false) => self.misses(look),
            _ => unreachable!(),
        }
    }

    fn misses(&mut self, look: Look<K, V>) -> Turn<K, V, E>
        ensures { GoesOn self.old
            (misses (standing self.old (plan_at self.old.point)) (aim_of look))
            result self.new }
    {
        match look {
            Look::Answer { .. } => self.answers(Answer::Found(None)),
            Look::Load(sought) => self.goes(Point::Loading(Loading::Own(sought))),
            Look::Own(sought) => self.goes(Point::Loading(Loading::Ask(sought.load))),
            Look::Insert { key, value } => self.inserts(key, value),
            Look::Compute(compute) => self.asks_with(compute, None),
            Look::Report { key } => self.answers(unchanged(key, None)),
        }
    }

    // Nothing was found: the value is stored, and then answered.
    fn inserts(&mut self, key: K, value: V) -> Turn<K, V, E>
        ensures { GoesOn self.old (mid self.old
            (put self.old.rules key value (plan.Reply (Answer.Loaded value true) ∷ [])))
            result self.new }
    {
        let then = Then::Loaded;
        let point = Point::storing(self.rules, Put { key, value, then });
        self.goes(point)
    }

    fn hits(&mut self, look: Look<K, V>, there: K, value: V) -> Turn<K, V, E>
        ensures { GoesOn self.old
            (hits (standing self.old (plan_at self.old.point)) (aim_of look) there value)
            result self.new }
    {
        match look {
            Look::Answer { .. } => self.answers(Answer::Found(Some(value))),
            Look::Load(_) => self.answers(Answer::Loaded {
                value,
                fresh: false,
            }),
            Look::Own(_) => self.settles(Ending::Ready {
                value,
                fresh: false,
            }),
            Look::Insert { .. } => self.answers(Answer::Loaded {
                value,
                fresh: false,
            }),
            Look::Compute(compute) => self.asks_with(compute, Some((there, value))),
            Look::Report { key } => self.answers(unchanged(key, Some((there, value)))),
        }
    }
}
