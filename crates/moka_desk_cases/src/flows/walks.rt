//! How whole walks read, access by access, over a table of two parts.

use crate::flows::rows::{fresh, named_step, plays, run_all};
use moka_hist::{Got, KeyList, TableAnswer, TableTurn};
use moka_init::Flow;
use std::alloc::{AllocError, Global};

// So many keys, as a table lists them.
fn listed(alloc: Global, many: u32) -> Result<Got<u32, u32, u32>, AllocError> {
    let mut keys = Vec::new(alloc);
    for key in 0..many {
        keys.push(key)?;
    }
    let answer = TableAnswer::Keys(KeyList::from_vec(keys));
    Ok(Got::Table(TableTurn::Decided(answer)))
}

/// Whether the flow makes this list, and has this turn once that has given so many keys.
pub(crate) fn lists(
    flow: &mut Flow<u32, u32, u32>,
    alloc: Global,
    access: &str,
    many: u32,
    turn: &str,
) -> Result<bool, AllocError> {
    let given = listed(alloc, many)?;
    let left = named_step(flow, access, given)?;
    Ok(left == Some(turn))
}

// Whether a walk over three keys of the first part and one of the other goes as it should. Of these
// one was removed since it was listed, and one is hidden.
fn walks(flow: &mut Flow<u32, u32, u32>, alloc: Global) -> Result<bool, AllocError> {
    Ok(
        lists(flow, alloc, "list the first part", 3, "going")?
            && plays(
                flow,
                "get / found / going\n\
                scan / visible / item\n\
                get / absent / going\n\
                get / undecided / going\n\
                table / found / going\n\
                scan / hidden / going\n",
            )?
            && lists(flow, alloc, "list another part", 1, "going")?
            && plays(
                flow,
                "get / found / going\n\
                scan / visible / item\n\
                clock / told / end\n",
            )?,
    )
}

// Whether a walk ends with the last look that finds nothing.
fn ends_with_a_look(flow: &mut Flow<u32, u32, u32>, alloc: Global) -> Result<bool, AllocError> {
    Ok(
        lists(flow, alloc, "list the first part", 0, "going")?
            && lists(flow, alloc, "list another part", 1, "going")?
            && plays(flow, "get / absent / end\n")?,
    )
}

// Whether a walk ends with the last list where that has no key.
fn ends_with_a_list(flow: &mut Flow<u32, u32, u32>, alloc: Global) -> Result<bool, AllocError> {
    Ok(
        lists(flow, alloc, "list the first part", 0, "going")?
            && lists(flow, alloc, "list another part", 0, "end")?,
    )
}

#[test]
fn a_walk_gives_each_visible_record_that_it_finds(rt: HostRuntime) {
    let mut flow = fresh("iter", "no rule").expect(&rt, "such a call");
    let goes = walks(&mut flow, rt.alloc());
    drop(flow);
    assert_eq!(rt; goes, Ok(true));
}

#[test]
fn a_walk_ends_with_the_last_look_or_list_that_gives_no_record(rt: HostRuntime) {
    let mut flow = fresh("iter", "no rule").expect(&rt, "such a call");
    let looks = ends_with_a_look(&mut flow, rt.alloc());
    drop(flow);
    assert_eq!(rt; looks, Ok(true));
    let mut flow = fresh("iter", "no rule").expect(&rt, "such a call");
    let lists = ends_with_a_list(&mut flow, rt.alloc());
    drop(flow);
    assert_eq!(rt; lists, Ok(true));
}

#[test]
fn a_walk_in_a_disabled_cache_is_its_answer_alone(rt: HostRuntime) {
    run_all(&rt, &[("iter", "disabled", "clock / told / end\n")]);
}
