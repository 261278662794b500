//! Calls that run one after the other, and how many steps they make.

use crate::calls::memory::{Made, Memory};
use moka_calls::{Decision, TableCall};
use moka_growth::CallKind;
use moka_words::Choice;
use std::alloc::{AllocError, Global};

/// What a call told, and after how many steps; `nodes` counts what it listed.
#[derive(Clone, Copy, PartialEq, Eq, Debug)]
pub struct Told {
    pub steps: u32,
    pub changed: bool,
    pub present: Option<u64>,
    pub nodes: usize,
}

/// Runs the call to its end; one that doesn't end is refused as want of memory.
pub fn run(
    alloc: Global,
    memory: &mut Memory,
    kind: CallKind,
    key: u64,
    hash: u64,
) -> Result<Told, AllocError> {
    let choice = match kind {
        CallKind::Insert => Choice::Put {
            node: memory.add_node(key, hash)?,
        },
        _ => Choice::Remove,
    };
    let mut call = TableCall::new(alloc, kind, hash);
    let told = finish(memory, &mut call, key, choice);
    drop(call);
    told
}

// Makes the steps of the call up to its end.
fn finish(
    memory: &mut Memory,
    call: &mut TableCall,
    key: u64,
    choice: Choice,
) -> Result<Told, AllocError> {
    let mut steps: u32 = 0;
    for _ in 0..100_000 {
        if let Some(decision) = call.decided() {
            return Ok(read(steps, decision));
        }
        if memory.step(call, key, choice)? == Made::Step {
            steps = steps.wrapping_add(1);
        }
    }
    Err(AllocError)
}

fn read(steps: u32, decision: &Decision) -> Told {
    match decision {
        Decision::Kept { present } => Told {
            steps,
            changed: false,
            present: *present,
            nodes: 0,
        },
        Decision::Changed { present } => Told {
            steps,
            changed: true,
            present: *present,
            nodes: 0,
        },
        Decision::Nodes(nodes) => Told {
            steps,
            changed: false,
            present: None,
            nodes: nodes.len(),
        },
    }
}
