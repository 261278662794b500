//! How maintenance reads, access by access, over a table of two parts.

use crate::flows::rows::{fresh, named_step, plays, run_all};
use crate::flows::walks::lists;
use moka_hist::{Found, Got, IdList};
use moka_init::Flow;
use std::alloc::{AllocError, Global};

// The predicates of these ids, all of the moment 5.
fn named(alloc: Global, named: &[u128]) -> Result<IdList, AllocError> {
    let mut list = Vec::new(alloc);
    for id in named {
        list.push((*id, 5))?;
    }
    Ok(IdList::from_vec(list))
}

// Whether the flow makes this visit, and has this turn once that has found so.
fn visits(
    flow: &mut Flow<u32, u32, u32>,
    access: &str,
    found: Found<u32, u32>,
    turn: &str,
) -> Result<bool, AllocError> {
    let left = named_step(flow, access, Got::Desk(found))?;
    Ok(left == Some(turn))
}

// Whether the flow chooses these predicates, and has this turn then.
fn chooses(
    flow: &mut Flow<u32, u32, u32>,
    alloc: Global,
    ids: &[u128],
    turn: &str,
) -> Result<bool, AllocError> {
    let chosen = named(alloc, ids)?;
    visits(flow, "candidates", Found::Candidates(chosen), turn)
}

// Whether the flow strikes by a record, which leaves it these predicates.
fn strikes(
    flow: &mut Flow<u32, u32, u32>,
    alloc: Global,
    ids: &[u128],
) -> Result<bool, AllocError> {
    let left = named(alloc, ids)?;
    visits(flow, "strike", Found::Strike(left), "going")
}

// What comes first: an owed write is posted, and the log of two writes is applied.
const FIRST: &str = "take owed / a write / going\n\
    post write / posted / going\n\
    take owed / none / going\n\
    take turn / taken / going\n\
    apply one / applied / going\n\
    apply one / applied / going\n\
    apply one / none is left / going\n\
    end turn / ended / going\n";

// Whether maintenance looks through both parts, and goes on where no predicate is left.
fn maintains(flow: &mut Flow<u32, u32, u32>, alloc: Global) -> Result<bool, AllocError> {
    Ok(
        plays(flow, FIRST)?
            && chooses(flow, alloc, &[6, 7], "going")?
            && lists(flow, alloc, "list the first part", 2, "going")?
            && plays(flow, "get / found / going\n")?
            && strikes(flow, alloc, &[7])?
            && plays(flow, "get / absent / going\n")?
            && lists(flow, alloc, "list another part", 1, "going")?
            && plays(flow, "get / found / going\n")?
            && strikes(flow, alloc, &[])?
            && plays(flow, "retire / retired / done\n")?,
    )
}

// Whether it ends where no predicate may leave.
fn ends_at_once(flow: &mut Flow<u32, u32, u32>, alloc: Global) -> Result<bool, AllocError> {
    Ok(plays(flow, FIRST)? && chooses(flow, alloc, &[], "done")?)
}

#[test]
fn maintenance_looks_at_each_record_for_the_predicates_it_chose(rt: HostRuntime) {
    let mut flow = fresh("pending", "no rule").expect(&rt, "such a call");
    let goes = maintains(&mut flow, rt.alloc());
    drop(flow);
    assert_eq!(rt; goes, Ok(true));
}

#[test]
fn maintenance_ends_where_no_predicate_may_leave(rt: HostRuntime) {
    let mut flow = fresh("pending", "no rule").expect(&rt, "such a call");
    let goes = ends_at_once(&mut flow, rt.alloc());
    drop(flow);
    assert_eq!(rt; goes, Ok(true));
}

#[test]
fn maintenance_of_a_disabled_cache_is_its_answer_alone(rt: HostRuntime) {
    run_all(&rt, &[("pending", "disabled", "clock / told / done\n")]);
}
