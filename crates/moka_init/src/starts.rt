//! Where a fresh call stands.

ghost use Rattle.std.specs.Prelude.{◌≡◌, [], ◌∷◌, None};
ghost use Rattle.moka_hist.specs.Plan as plan;
ghost use Rattle.moka_hist.specs.Plan.{is_disabled, get_plan, insert_plan, iter_plan, load_plan};
ghost use Rattle.moka_hist.specs.Plan.{or_insert_plan, plan_of, put, seek, take_out, under_lock};
ghost use Rattle.moka_hist.specs.Plan.{look, pending_plan, walk_from, To_evict};
ghost use Rattle.moka_init.specs.PointPlan.{carried_at, plan_at, put_rest};
ghost use Rattle.moka_init.specs.PointPlan.{removal_at, removal_of, takes_by};

use crate::points::{
    Asks, Chosen, Computing, Drained, KeyCompute, Listening, Locked, Look, Part, Point, Posting,
    Put, Removal, Removing, TakeOut, Then, Walk,
};
use moka_hist::{Answer, Kind, Load, Rules, Sought, Start};

/// Whether a cache of these rules is disabled: its capacity is 0, and it stores nothing.
pub(crate) fn is_disabled(rules: Rules) -> bool
    ensures { result ≡ is_disabled rules }
{
    match rules.max_capacity {
        Some(most) => most == 0,
        None => false,
    }
}

impl<K: Drop, V: Drop, E: Drop> Point<K, V, E> {
    /// Where a fresh call stands, in a cache whose table has so many parts.
    pub(crate) fn first(parts: usize, rules: Rules, start: Start<K, V>) -> Self
        ensures plan { plan_at result ≡ plan_of parts rules start }
        ensures carries { carried_at result ≡ None }
    {
        match start {
            Start::Get { key } => Point::get(is_disabled(rules), key),
            Start::Insert { key, value } => Point::insert(rules, key, value),
            Start::GetWith { key, replace } => Point::seeks(rules, Kind::GetWith, key, replace),
            Start::Optional { key } => Point::seeks(rules, Kind::Optional, key, None),
            Start::Try { key } => Point::seeks(rules, Kind::Try, key, None),
            Start::OrInsert { key, value } => Point::or_insert(is_disabled(rules), key, value),
            Start::Compute { key } => Point::computes(key, Asks::Op),
            Start::TryCompute { key } => Point::computes(key, Asks::TryOp),
            Start::ComputeAlone { key } => Point::Computing(Computing::OwnAlone(key)),
            Start::Upsert { key } => Point::computes(key, Asks::Value),
            Start::Invalidate { key } => Point::takes_out(rules, Removal::Invalidate, key),
            Start::Remove { key } => Point::takes_out(rules, Removal::Remove, key),
            Start::Evict { key, stamp, cause } => {
                Point::evict(rules.listener, Chosen { key, stamp, cause })
            }
            Start::InvalidateAll => Point::InvalidatingAll,
            Start::InvalidateIf { test } => Point::Registering(test),
            Start::Iter => Point::walk(is_disabled(rules), parts),
            Start::Pending => Point::maintenance(is_disabled(rules), parts),
        }
    }

    // A disabled cache has no records.
    fn walk(disabled: bool, parts: usize) -> Self
        ensures plan { plan_at result ≡ iter_plan disabled parts }
        ensures carries { carried_at result ≡ None }
    {
        if disabled {
            Point::Answering(Answer::End)
        } else {
            Point::walk_over(parts)
        }
    }

    // So many parts are listed.
    fn walk_over(parts: usize) -> Self
        ensures plan { plan_at result ≡ walk_from 0 parts }
        ensures carries { carried_at result ≡ None }
    {
        if parts == 0 {
            Point::Answering(Answer::End)
        } else {
            let last = parts - 1;
            Point::Walking(Walk::List(Part { number: 0, last }))
        }
    }

    // A disabled cache has nothing to maintain.
    fn maintenance(disabled: bool, parts: usize) -> Self
        ensures plan { plan_at result ≡ pending_plan disabled parts }
        ensures carries { carried_at result ≡ None }
    {
        if disabled {
            Point::Answering(Answer::Done)
        } else {
            Point::Posting(Posting::Drain(Drained::Maintain { parts }))
        }
    }

    // A disabled cache is not looked at.
    fn get(disabled: bool, key: K) -> Self
        ensures plan { plan_at result ≡ get_plan disabled key }
        ensures carries { carried_at result ≡ None }
    {
        if disabled {
            Point::Answering(Answer::Found(None))
        } else {
            Point::Posting(Posting::Drain(Drained::Look(Look::Answer { key })))
        }
    }

    // A disabled cache stores nothing.
    fn insert(rules: Rules, key: K, value: V) -> Self
        ensures plan { plan_at result ≡ insert_plan (is_disabled rules) rules key value }
        ensures carries { carried_at result ≡ None }
    {
        if is_disabled(rules) {
            Point::Answering(Answer::Done)
        } else {
            let then = Then::Done;
            Point::storing(rules, Put { key, value, then })
        }
    }

    // A load of this kind, with this replace test, if any.
    fn seeks(rules: Rules, kind: Kind, key: K, replace: Option<u64>) -> Self
        ensures plan { plan_at result ≡ load_plan (is_disabled rules) (seek kind key replace) }
        ensures carries { carried_at result ≡ None }
    {
        let load = Load { key, kind };
        Point::load(is_disabled(rules), Sought { load, replace })
    }

    fn load(disabled: bool, sought: Sought<K>) -> Self
        ensures plan { plan_at result ≡ load_plan disabled sought }
        ensures carries { carried_at result ≡ None }
    {
        if disabled {
            Point::Posting(Posting::Drain(Drained::Own(sought)))
        } else {
            Point::Posting(Posting::Drain(Drained::Look(Look::Load(sought))))
        }
    }

    // A disabled cache answers the value.
    fn or_insert(disabled: bool, key: K, value: V) -> Self
        ensures plan { plan_at result ≡ or_insert_plan disabled key value }
        ensures carries { carried_at result ≡ None }
    {
        if disabled {
            Point::Posting(Posting::Drain(Drained::Loaded(value)))
        } else {
            Point::Posting(Posting::Drain(Drained::Look(Look::Insert { key, value })))
        }
    }

    // A compute of the key, whose ask takes such answers.
    fn computes(key: K, asks: Asks) -> Self
        ensures plan { plan_at result
            ≡ plan.Own_key (record { key = key; takes = takes_by asks }) ∷ [] }
        ensures carries { carried_at result ≡ None }
    {
        Point::Computing(Computing::Own(KeyCompute { key, asks }))
    }

    fn takes_out(rules: Rules, removal: Removal, key: K) -> Self
        ensures plan { plan_at result ≡ take_out rules (removal_at key removal) key }
        ensures carries { carried_at result ≡ None }
    {
        Point::removing(rules, TakeOut { key, removal })
    }

    // An eviction takes up nothing that is owed.
    fn evict(listener: bool, chosen: Chosen<K>) -> Self
        ensures plan { plan_at result ≡ under_lock listener chosen.key
            (look (To_evict chosen.key chosen.stamp chosen.cause) chosen.key) }
        ensures carries { carried_at result ≡ None }
    {
        if listener {
            Point::Listening(Listening::Lock(Locked::Find(chosen)))
        } else {
            Point::Removing(Removing::Find(chosen))
        }
    }

    /// The record is taken out once nothing is owed, under its key's lock where a listener is set.
    pub(crate) fn removing(rules: Rules, out: TakeOut<K>) -> Self
        ensures plan { plan_at result ≡ take_out rules (removal_of out) out.key }
        ensures carries { carried_at result ≡ None }
    {
        let then = if rules.listener {
            Drained::Lock(Locked::TakeOut(out))
        } else {
            Drained::TakeOut(out)
        };
        Point::Posting(Posting::Drain(then))
    }

    /// The value is stored once nothing is owed, under its key's lock where a listener is set.
    pub(crate) fn storing(rules: Rules, value: Put<K, V>) -> Self
        ensures plan { plan_at result ≡ put rules value.key value.value (put_rest value) }
        ensures carries { carried_at result ≡ None }
    {
        let then = if rules.listener {
            Drained::Lock(Locked::Put(value))
        } else {
            Drained::Put(value)
        };
        Point::Posting(Posting::Drain(then))
    }
}
