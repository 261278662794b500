//! Loading a key.
ghost use Rattle.std.specs.Prelude.{◌≡◌, [], ◌∷◌, Some};
ghost use Rattle.moka_hist.specs.Plan as plan;
ghost use Rattle.moka_hist.specs.Plan.{is_disabled, load_rest};
ghost use Rattle.moka_hist.specs.Loading.{after_own, after_read, after_abort, after_ask};
ghost use Rattle.moka_hist.specs.Loading.{after_told};
ghost use Rattle.moka_hist.specs.Loading.{after_settle, owner_rest};
ghost use Rattle.moka_hist.specs.Step.{next_of, access_of, takes_of};
ghost use Rattle.moka_init.specs.PointPlan.{answer_ending, plan_at, loading_plan, settled_of, settles};
ghost use Rattle.moka_init.specs.FlowPlan.{standing, mid, GoesOn};
ghost use Rattle.moka_init.specs.Forms.{HasForm, IsFoundBy};

use crate::flow::Flow;
use crate::points::{Ending, Loading, Look, Looking, Point, Put, Then};
use crate::starts::is_disabled;
use moka_hist::{Answer, Ask, Claim, Found, Got, Load, Settled, Sought, Told, Turn, Visit};

// How many dropped owners one load reads before it gives up.
const RETRIES: u64 = 200;

impl<K: Drop, V: Drop, E: Drop> Flow<K, V, E> {
    pub(crate) fn after_loading(
        &mut self,
        loading: Loading<K, V, E>,
        found: Found<V, E>,
    ) -> Turn<K, V, E>
        requires form { HasForm
            (access_of self.old.call (standing self.old (loading_plan loading)))
            (Got.Desk found) }
        ensures { GoesOn self.old
            (next_of self.old.call (standing self.old (loading_plan loading)) (Got.Desk found))
            result self.new }
    {
        match loading {
            Loading::Own(sought) => self.after_own(sought, found),
            Loading::Read(sought) => self.after_read(sought, found),
            Loading::Settle(ending) => self.after_settle(ending, found),
            Loading::Ask(load) => self.after_ask(load, found),
            Loading::Told(load) => self.after_told(load, found),
        }
    }

    fn after_own(&mut self, sought: Sought<K>, found: Found<V, E>) -> Turn<K, V, E>
        requires form { IsFoundBy
            (Visit.WaitOrOwn self.old.call sought.load.key sought.load.kind) found }
        ensures { GoesOn self.old
            (after_own (standing self.old (plan.Own sought ∷ [])) sought found) result self.new }
    {
        match found {
            Found::WaitOrOwn(Claim::Owner) => self.owns(sought),
            Found::WaitOrOwn(Claim::Waits { .. }) => {
                self.goes(Point::Loading(Loading::Read(sought)))
            }
            _ => unreachable!(),
        }
    }

    // The owner looks again before it asks, unless the cache is disabled.
    fn owns(&mut self, sought: Sought<K>) -> Turn<K, V, E>
        ensures { GoesOn self.old
            (mid self.old (owner_rest (is_disabled self.old.rules) sought)) result self.new }
    {
        if is_disabled(self.rules) {
            self.goes(Point::Loading(Loading::Ask(sought.load)))
        } else {
            self.goes(Point::Looking(Looking::Get(Look::Own(sought))))
        }
    }

    // What the owner told is answered.
    fn after_read(&mut self, sought: Sought<K>, found: Found<V, E>) -> Turn<K, V, E>
        requires form { IsFoundBy {K = K} (Visit.ReadSettled self.old.call) found }
        ensures { GoesOn self.old
            (after_read (standing self.old (plan.Read sought ∷ [])) sought found)
            result self.new }
    {
        match found {
            Found::ReadSettled(settled) => self.reads(sought, settled),
            _ => unreachable!(),
        }
    }

    fn reads(&mut self, sought: Sought<K>, settled: Settled<V, E>) -> Turn<K, V, E>
        ensures { GoesOn self.old
            (after_read (standing self.old (plan.Read sought ∷ [])) sought
            (Found.ReadSettled settled)) result self.new }
    {
        match settled {
            Settled::NotYet => self.waits(Point::Loading(Loading::Read(sought))),
            Settled::Ready(value) => self.answers(Answer::Loaded {
                value,
                fresh: false,
            }),
            Settled::Err(error) => self.answers(Answer::InitErr(error)),
            Settled::Nothing => self.answers(Answer::Nothing),
            Settled::Aborted => self.after_abort(sought),
        }
    }

    // The owner was dropped: the load starts anew, or gives up.
    fn after_abort(&mut self, sought: Sought<K>) -> Turn<K, V, E>
        ensures { GoesOn self.old
            (after_abort (standing self.old (plan_at self.old.point)) sought) result self.new }
    {
        if self.aborts + 1 == RETRIES {
            return self.answers(Answer::RetriesExhausted);
        }
        self.aborts += 1;
        self.goes(Point::Loading(Loading::Own(sought)))
    }

    // The call asks what the load gives, and is parked until it is told.
    fn after_ask(&mut self, load: Load<K>, found: Found<V, E>) -> Turn<K, V, E>
        requires form { IsFoundBy {K = K} (Visit.OpenAsk self.old.call (takes_of load.kind)) found }
        ensures { GoesOn self.old
            (after_ask (standing self.old (plan.Ask load ∷ [])) load found) result self.new }
    {
        match found {
            Found::OpenAsk => self.asks(Ask::Init, Point::Loading(Loading::Told(load))),
            _ => unreachable!(),
        }
    }

    // Until it is told the call is parked.
    fn after_told(&mut self, load: Load<K>, found: Found<V, E>) -> Turn<K, V, E>
        requires form { IsFoundBy {K = K} (Visit.TakeTold self.old.call) found }
        ensures { GoesOn self.old
            (after_told (standing self.old (plan.Told load ∷ [])) load found) result self.new }
    {
        match found {
            Found::TakeTold(None) => self.waits(Point::Loading(Loading::Told(load))),
            Found::TakeTold(Some(told)) => self.hears(load, told),
            _ => unreachable!(),
        }
    }

    // An error and that there is no value are told on at once. An answer that the ask doesn't take
    // is as none.
    fn hears(&mut self, load: Load<K>, told: Told<V, E>) -> Turn<K, V, E>
        ensures { GoesOn self.old
            (after_told (standing self.old (plan.Told load ∷ [])) load
            (Found.TakeTold (Some told))) result self.new }
    {
        match told {
            Told::Value(value) => self.stores(load, value),
            Told::Err(error) => self.settles(Ending::Err(error)),
            Told::Nothing => self.settles(Ending::Nothing),
            Told::Op(_) => self.waits(Point::Loading(Loading::Told(load))),
            Told::Done => self.waits(Point::Loading(Loading::Told(load))),
            Told::Off => self.waits(Point::Loading(Loading::Told(load))),
        }
    }

    // The told value is stored, unless the cache is disabled, and then told to those that wait.
    fn stores(&mut self, load: Load<K>, value: V) -> Turn<K, V, E>
        ensures { GoesOn self.old (mid self.old
            (load_rest (is_disabled self.old.rules) self.old.rules load.key value))
            result self.new }
    {
        if is_disabled(self.rules) {
            return self.settles(Ending::Ready { value, fresh: true });
        }
        let put = Put {
            key: load.key,
            value,
            then: Then::Settle,
        };
        let point = Point::storing(self.rules, put);
        self.goes(point)
    }

    // The owner is to tell those that wait how it ends.
    pub(crate) fn settles(&mut self, ending: Ending<V, E>) -> Turn<K, V, E>
        ensures { GoesOn self.old (mid self.old (settles ending)) result self.new }
    {
        self.goes(Point::Loading(Loading::Settle(ending)))
    }

    fn after_settle(&mut self, ending: Ending<V, E>, found: Found<V, E>) -> Turn<K, V, E>
        requires form { IsFoundBy {K = K}
            (Visit.Settle self.old.call (settled_of ending)) found }
        ensures { GoesOn self.old
            (after_settle (standing self.old (settles ending))
            (plan.Reply (answer_ending ending) ∷ []) found) result self.new }
    {
        match found {
            Found::Settle => self.answers(ending.answer()),
            _ => unreachable!(),
        }
    }
}

impl<V: Drop, E: Drop> Ending<V, E> {
    // What is answered once it is settled.
    fn answer<K>(self) -> Answer<K, V, E>
        ensures { result ≡ answer_ending self }
    {
        match self {
            Ending::Ready { value, fresh } => Answer::Loaded { value, fresh },
            Ending::Err(error) => Answer::InitErr(error),
            Ending::Nothing => Answer::Nothing,
        }
    }
}
