//! Which records are to leave.

ghost use Rattle.std.specs.Prelude.{◌≡◌, IfOk, length, map};
ghost use Rattle.moka_engine.specs.Choice.{surplus_of, cause_on_sight, named_for, named_on_sight, staying, IsOldestFirst, IsChoice, KeepsCapacity};

use crate::judge::{expired, hidden};
use crate::{Known, Named, NamedList};
use moka_hist::{Cause, Rules};
use std::alloc::{AllocError, Global};

/// Names the records that are to leave: in their order each that is past its time to live or to
/// idle as `Expired`, and of the others each that an invalidation hides or hits as `Explicit`.
/// Where more than the capacity remain, it then names the surplus as `Size`: those of the earliest
/// access first, then those of the least stamp, and of equal ones the earlier in the list.
pub fn choose<K: Clone + Drop>(
    alloc: Global,
    rules: &Rules,
    known: &[Known<K>],
) -> Result<NamedList<K>, AllocError>
    requires { (x y : K) → K.is_clone x y → x ≡ y }
    ensures chosen { IfOk result (λ names. IsChoice rules.now known.now names) }
    ensures capacity { IfOk result
        (λ names. KeepsCapacity rules.now.max_capacity (length known.now) (length names)) }
{
    let mut names = name_on_sight(alloc, rules, known)?;
    let order = oldest_first(alloc, rules, known)?;
    let surplus = surplus(rules.max_capacity, order.len());
    for record in &order[..surplus] {
        names.push(name(record, Cause::Size)?)?;
    }
    Ok(NamedList::from_vec(names))
}

/// Names the records that leave whatever the capacity, in their order.
fn name_on_sight<K: Clone + Drop>(
    alloc: Global,
    rules: &Rules,
    known: &[Known<K>],
) -> Result<Vec<Named<K>>, AllocError>
    requires { (x y : K) → K.is_clone x y → x ≡ y }
    ensures { IfOk result (λ names. names.items ≡ named_on_sight rules.now known.now) }
{
    let mut names = Vec::new(alloc);
    for record in known {
        if let Some(cause) = cause_on_sight(rules, record) {
            names.push(name(record, cause)?)?;
        }
    }
    Ok(names)
}

/// Gives the records that stay whatever the capacity, by their last access and their stamp, those
/// equal in both as they stood.
fn oldest_first<'a, K>(
    alloc: Global,
    rules: &Rules,
    known: &'a [Known<K>],
) -> Result<Vec<&'a Known<K>>, AllocError>
    ensures { IfOk result
        (λ order. IsOldestFirst (staying rules.now known.now) (map (λ x. x.now) order.items)) }
{
    let mut order = Vec::new(alloc);
    for record in known {
        if cause_on_sight(rules, record).is_none() {
            order.push(record)?;
        }
    }
    order.sort_by_key(|record| (record.times.accessed, record.stamp))?;
    Ok(order)
}

/// Answers why the record leaves whatever the capacity, if it does.
fn cause_on_sight<K>(rules: &Rules, known: &Known<K>) -> Option<Cause>
    ensures { result ≡ cause_on_sight rules.now known.now }
{
    if expired(rules, &known.times) {
        Some(Cause::Expired)
    } else if hidden(&known.times) || known.hit {
        Some(Cause::Explicit)
    } else {
        None
    }
}

/// Names the record to leave for this cause.
fn name<K: Clone>(known: &Known<K>, cause: Cause) -> Result<Named<K>, AllocError>
    requires { (x y : K) → K.is_clone x y → x ≡ y }
    ensures { IfOk result (λ named. named ≡ named_for cause known.now) }
{
    Ok(Named {
        key: known.key.clone()?,
        stamp: known.stamp,
        cause,
    })
}

/// Answers how many of `count` records are more than the capacity, where one is set.
fn surplus(capacity: Option<u64>, count: usize) -> usize
    ensures { result ≡ surplus_of capacity count }
{
    match capacity {
        Some(capacity) => count.saturating_sub(capacity as usize),
        None => 0,
    }
}
