//! Computing what a key has: one compute of a key at a time asks, and does what it is told.
ghost use Rattle.std.specs.Prelude.{◌≡◌, [], ◌∷◌, Some};
ghost use Rattle.moka_hist.specs.Plan as plan;
ghost use Rattle.moka_hist.specs.Plan.{is_disabled, take_out};
ghost use Rattle.moka_hist.specs.Entries.{unchanged};
ghost use Rattle.moka_hist.specs.Next.{goes, waits};
ghost use Rattle.moka_hist.specs.Computing.{compute_rest, report_rest, put_told, end_compute};
ghost use Rattle.moka_hist.specs.Computing.{after_own_key, after_own_alone, after_read_key};
ghost use Rattle.moka_hist.specs.Computing.{after_ask_op, after_told_op};
ghost use Rattle.moka_hist.specs.Loading.{after_settle};
ghost use Rattle.moka_hist.specs.Step.{next_of, access_of};
ghost use Rattle.moka_init.specs.PointPlan.{compute_of, computing_plan, takes_by};
ghost use Rattle.moka_init.specs.PointPlan as points;
ghost use Rattle.moka_init.specs.FlowPlan.{standing, mid, GoesOn};
ghost use Rattle.moka_init.specs.Forms.{HasForm, IsFoundBy};

use crate::flow::Flow;
use crate::points::{
    Asks, Computing, Drained, KeyCompute, Look, Point, Posting, Put, Removal, TakeOut, Then,
};
use crate::starts::is_disabled;
use moka_hist::{
    Answer, Ask, Claim, CompResult, Entry, Found, Got, Kind, Op, Settled, Told, Turn, Visit,
};

impl<K: Drop, V: Drop, E: Drop> Flow<K, V, E> {
    ghost use Rattle.moka_init.specs.FlowPlan.{IsAskCopied};

    pub(crate) fn after_computing(
        &mut self,
        computing: Computing<K, V, E>,
        found: Found<V, E>,
    ) -> Turn<K, V, E>
        requires ready { IsAskCopied computing }
        requires form { HasForm
            (access_of self.old.call (standing self.old (computing_plan computing)))
            (Got.Desk found) }
        ensures { GoesOn self.old
            (next_of self.old.call (standing self.old (computing_plan computing)) (Got.Desk found))
            result self.new }
    {
        match computing {
            Computing::Own(compute) => self.after_own_key(compute, found),
            Computing::OwnAlone(key) => self.after_own_alone(key, found),
            Computing::Read(compute) => self.after_read_key(compute, found),
            Computing::Ask {
                compute,
                found: pair,
                copy,
            } => self.after_ask_op(compute, pair, copy, found),
            Computing::Told {
                compute,
                found: pair,
            } => self.after_told_op(compute, pair, found),
            Computing::Settle(answer) => self.after_over(answer, found),
        }
    }

    fn after_own_key(&mut self, compute: KeyCompute<K>, found: Found<V, E>) -> Turn<K, V, E>
        requires form { IsFoundBy (Visit.WaitOrOwn self.old.call compute.key Kind.Compute) found }
        ensures { GoesOn self.old
            (after_own_key (standing self.old (computing_plan (Computing.Own compute)))
            (compute_of compute) found) result self.new }
    {
        match found {
            Found::WaitOrOwn(Claim::Owner) => self.owns_key(compute),
            Found::WaitOrOwn(Claim::Waits { .. }) => {
                self.goes(Point::Computing(Computing::Read(compute)))
            }
            _ => unreachable!(),
        }
    }

    // The owner looks what the key has, unless the cache is disabled, and asks with it.
    fn owns_key(&mut self, compute: KeyCompute<K>) -> Turn<K, V, E>
        ensures { GoesOn self.old
            (mid self.old (compute_rest (is_disabled self.old.rules) (compute_of compute)))
            result self.new }
    {
        let then = if is_disabled(self.rules) {
            Drained::Ask(compute)
        } else {
            Drained::Look(Look::Compute(compute))
        };
        self.goes(Point::Posting(Posting::Drain(then)))
    }

    // One that computes alone waits for no owner.
    fn after_own_alone(&mut self, key: K, found: Found<V, E>) -> Turn<K, V, E>
        requires form { IsFoundBy (Visit.OwnAlone self.old.call key) found }
        ensures { GoesOn self.old
            (after_own_alone (standing self.old (plan.Own_alone key ∷ [])) key found)
            result self.new }
    {
        match found {
            Found::OwnAlone(true) => self.reports(key),
            Found::OwnAlone(false) => {
                let asks = Asks::TryOp;
                self.owns_key(KeyCompute { key, asks })
            }
            _ => unreachable!(),
        }
    }

    // What the key has is answered, and nothing asked.
    fn reports(&mut self, key: K) -> Turn<K, V, E>
        ensures { GoesOn self.old
            (mid self.old (report_rest (is_disabled self.old.rules) key)) result self.new }
    {
        let then = if is_disabled(self.rules) {
            Drained::StillNone(key)
        } else {
            Drained::Look(Look::Report { key })
        };
        self.goes(Point::Posting(Posting::Drain(then)))
    }

    fn after_read_key(&mut self, compute: KeyCompute<K>, found: Found<V, E>) -> Turn<K, V, E>
        requires form { IsFoundBy {K = K} (Visit.ReadSettled self.old.call) found }
        ensures { GoesOn self.old
            (after_read_key (standing self.old (computing_plan (Computing.Read compute)))
            (compute_of compute) found) result self.new }
    {
        match found {
            Found::ReadSettled(settled) => self.reads_end(compute, settled),
            _ => unreachable!(),
        }
    }

    // However the owner ended, the compute begins anew.
    fn reads_end(&mut self, compute: KeyCompute<K>, settled: Settled<V, E>) -> Turn<K, V, E>
        ensures { GoesOn self.old
            (after_read_key (standing self.old (computing_plan (Computing.Read compute)))
            (compute_of compute) (Found.ReadSettled settled)) result self.new }
    {
        match settled {
            Settled::NotYet => self.waits(Point::Computing(Computing::Read(compute))),
            _ => self.goes(Point::Computing(Computing::Own(compute))),
        }
    }

    // The owner is to ask what is to be done with what was found.
    pub(crate) fn asks_with(
        &mut self,
        compute: KeyCompute<K>,
        found: Option<(K, V)>,
    ) -> Turn<K, V, E>
        ensures { GoesOn self.old
            (mid self.old (plan.Ask_op (compute_of compute) found ∷ [])) result self.new }
    {
        self.goes(Point::Computing(Computing::Ask {
            compute,
            found,
            copy: None,
        }))
    }

    // The call asks with the copy, keeps the pair, and is parked until it is told.
    fn after_ask_op(
        &mut self,
        compute: KeyCompute<K>,
        pair: Option<(K, V)>,
        copy: Option<(K, V)>,
        found: Found<V, E>,
    ) -> Turn<K, V, E>
        requires ready { copy ≡ pair }
        requires form { IsFoundBy {K = K}
            (Visit.OpenAsk self.old.call (takes_by compute.asks)) found }
        ensures { GoesOn self.old
            (after_ask_op (standing self.old (computing_plan (Computing.Ask compute pair copy)))
            (compute_of compute) pair found) result self.new }
    {
        match found {
            Found::OpenAsk => self.asks(
                Ask::Compute(copy),
                Point::Computing(Computing::Told {
                    compute,
                    found: pair,
                }),
            ),
            _ => unreachable!(),
        }
    }

    // Until it is told the call is parked.
    fn after_told_op(
        &mut self,
        compute: KeyCompute<K>,
        pair: Option<(K, V)>,
        found: Found<V, E>,
    ) -> Turn<K, V, E>
        requires form { IsFoundBy {K = K} (Visit.TakeTold self.old.call) found }
        ensures { GoesOn self.old
            (after_told_op (standing self.old (computing_plan (Computing.Told compute pair)))
            (compute_of compute) pair found) result self.new }
    {
        match found {
            Found::TakeTold(None) => self.waits_for_op(compute, pair),
            Found::TakeTold(Some(told)) => self.does(compute, pair, told),
            _ => unreachable!(),
        }
    }

    fn waits_for_op(&mut self, compute: KeyCompute<K>, pair: Option<(K, V)>) -> Turn<K, V, E>
        ensures { GoesOn self.old
            (waits (standing self.old (computing_plan (Computing.Told compute pair))))
            result self.new }
    {
        self.waits(Point::Computing(Computing::Told {
            compute,
            found: pair,
        }))
    }

    // The compute does what it was told. An answer that no compute's ask takes is as none.
    fn does(
        &mut self,
        compute: KeyCompute<K>,
        pair: Option<(K, V)>,
        told: Told<V, E>,
    ) -> Turn<K, V, E>
        ensures { GoesOn self.old
            (after_told_op (standing self.old (computing_plan (Computing.Told compute pair)))
            (compute_of compute) pair (Found.TakeTold (Some told))) result self.new }
    {
        match told {
            Told::Op(Op::Nop) => self.ends(unchanged(compute.key, pair)),
            Told::Op(Op::Put(value)) => self.puts(compute, pair, value),
            Told::Op(Op::Remove) => self.removes_as_told(compute.key),
            Told::Value(value) => self.puts(compute, pair, value),
            Told::Err(error) => self.ends(Answer::ComputeErr(error)),
            Told::Nothing => self.waits_for_op(compute, pair),
            Told::Done => self.waits_for_op(compute, pair),
            Told::Off => self.waits_for_op(compute, pair),
        }
    }

    // The told value is stored, unless the cache is disabled, and then the compute is over.
    fn puts(&mut self, compute: KeyCompute<K>, pair: Option<(K, V)>, value: V) -> Turn<K, V, E>
        ensures { GoesOn self.old (mid self.old
            (put_told (is_disabled self.old.rules)
            (standing self.old (computing_plan (Computing.Told compute pair)))
            compute.key pair value)) result self.new }
    {
        let key = compute.key;
        let replaced = pair.is_some();
        if is_disabled(self.rules) {
            return self.ends(Answer::Computed(stored_as(key, value, replaced)));
        }
        let then = Then::Compute { replaced };
        let point = Point::storing(self.rules, Put { key, value, then });
        self.goes(point)
    }

    // What the key has by now is taken out, and then the compute is over.
    fn removes_as_told(&mut self, key: K) -> Turn<K, V, E>
        ensures { GoesOn self.old (mid self.old
            (take_out self.old.rules (plan.To_remove_as_told key) key)) result self.new }
    {
        let removal = Removal::Compute;
        let point = Point::removing(self.rules, TakeOut { key, removal });
        self.goes(point)
    }

    // The compute is over, which those that wait are to be told, and then answers so.
    pub(crate) fn ends(&mut self, answer: Answer<K, V, E>) -> Turn<K, V, E>
        ensures { GoesOn self.old (mid self.old (end_compute answer)) result self.new }
    {
        self.goes(Point::Computing(Computing::Settle(answer)))
    }

    fn after_over(&mut self, answer: Answer<K, V, E>, found: Found<V, E>) -> Turn<K, V, E>
        requires form { IsFoundBy {K = K} (Visit.Settle self.old.call Settled.Nothing) found }
        ensures { GoesOn self.old
            (after_settle (standing self.old (end_compute answer)) (plan.Reply answer ∷ []) found)
            result self.new }
    {
        match found {
            Found::Settle => self.answers(answer),
            _ => unreachable!(),
        }
    }
}

/// What the look found was left as it is.
pub(crate) fn unchanged<K: Drop, V: Drop, E>(key: K, pair: Option<(K, V)>) -> Answer<K, V, E>
    ensures { result ≡ unchanged key pair }
{
    match pair {
        None => Answer::Computed(CompResult::StillNone(key)),
        Some((_, value)) => {
            Answer::Computed(CompResult::Unchanged(entry(key, value, false, false)))
        }
    }
}

/// The value was stored, in the place of another where the look had found one.
pub(crate) fn stored_as<K, V>(key: K, value: V, replaced: bool) -> CompResult<K, V>
    ensures { result ≡ points.stored_as key value replaced }
{
    if replaced {
        CompResult::ReplacedWith(entry(key, value, true, true))
    } else {
        CompResult::Inserted(entry(key, value, true, false))
    }
}

/// The value was taken out.
pub(crate) fn removed_as<K, V>(key: K, value: V) -> CompResult<K, V>
    ensures { result ≡ points.removed_as key value }
{
    CompResult::Removed(entry(key, value, false, false))
}

// The entry of this key and value, as it was stored, if it was.
fn entry<K, V>(key: K, value: V, fresh: bool, replaced: bool) -> Entry<K, V>
    ensures { result ≡ record { key = Some key; value = value; fresh = fresh; replaced = replaced } }
{
    Entry {
        key: Some(key),
        value,
        fresh,
        replaced,
    }
}
